//! Prints a journal as text: the line that tells the version, a line for each entry, then the stop, `end` and the cells.
//! The lines are those of both versions. `print_journal` prints version 2; entries and tail alone are a text of version 1.
//! Whatever number names nothing of the contract is spelled by no bytes.
#![tactic(auto)]

ghost use Rattle.std.specs.Prelude.{◌≡◌, map, take, IfOk, OnOk};
ghost use Rattle.std.specs.Arc.{arc_value};
ghost use Rattle.ecf_texts.specs.Entries.{text_of_entries};
ghost use Rattle.ecf_texts.specs.Journal.{head_text, tail_text, journal_text};
ghost use Rattle.ecf_receipts.specs.Numbers.{CountsEntries};

mod cells;
mod entries;
mod numbers;
mod receipts;
mod words;

use crate::cells::write_tail;
use crate::entries::write_entries;
pub use crate::numbers::Numbers;
use ecf_lang::cell::Cell;
use ecf_lang::receipt::{Entry, Stop};
use ecf_lang::tx::TxRef;
use ecf_lang::typed::Typed;
use std::alloc::{AllocError, Global};

/// The first line of a journal, which tells its version, 2.
pub fn print_head(alloc: Global) -> Result<Vec<u8>, AllocError>
    ensures { IfOk result (λ text. text.items ≡ head_text 2) }
{
    Vec::from_slice(alloc, b"journal 2\n")
}

/// The lines of a journal's entries from the place `from` on, counted from 0; none where `from` is past
/// the last. Their numbers are those that they have in the whole journal. An entry whose row is no place
/// of `txs` has no line.
pub fn print_entries(
    alloc: Global,
    typed: &Typed,
    txs: &[TxRef],
    entries: &[Entry],
    from: usize,
) -> Result<Vec<u8>, AllocError>
    ensures { IfOk result (λ text.
        text.items ≡ text_of_entries typed.now (map arc_value txs.now) entries.now from) }
{
    let mut numbers = Numbers::new(alloc);
    numbers.count(txs, &entries[..from.min(entries.len())])?;
    print_further_entries(alloc, typed, txs, entries, from, &mut numbers)
}

/// The lines of a journal's entries from the place `from` on, as `print_entries`, where `numbers` has counted those
/// before it; then it has counted all. So a journal that grows is printed part by part, and no entry is counted twice.
/// After want of memory nothing is said of what was counted.
pub fn print_further_entries(
    alloc: Global,
    typed: &Typed,
    txs: &[TxRef],
    entries: &[Entry],
    from: usize,
    numbers: &mut Numbers,
) -> Result<Vec<u8>, AllocError>
    requires counted { CountsEntries (map arc_value txs.now) (take from entries.now) numbers.old.counts }
    ensures text { IfOk result (λ text.
        text.items ≡ text_of_entries typed.now (map arc_value txs.now) entries.now from) }
    ensures counts { OnOk result (CountsEntries (map arc_value txs.now) entries.now numbers.new.counts) }
{
    let mut text = Vec::new(alloc);
    write_entries(&mut text, typed, txs, entries, from, numbers)?;
    Ok(text)
}

/// What stands after the lines of a journal's entries: where and why reading stopped early, `end`, and the
/// cells with their values.
pub fn print_tail(
    alloc: Global,
    typed: &Typed,
    stop: Option<Stop>,
    cells: &[(Cell, u128)],
) -> Result<Vec<u8>, AllocError>
    ensures { IfOk result (λ text. text.items ≡ tail_text typed.now stop cells.now) }
{
    let mut text = Vec::new(alloc);
    write_tail(&mut text, typed, stop, cells)?;
    Ok(text)
}

/// The text of a whole journal of version 2: its first line, all lines of its entries, and what stands after them.
pub fn print_journal(
    alloc: Global,
    typed: &Typed,
    txs: &[TxRef],
    entries: &[Entry],
    stop: Option<Stop>,
    cells: &[(Cell, u128)],
) -> Result<Vec<u8>, AllocError>
    ensures { IfOk result (λ text.
        text.items ≡ journal_text 2 typed.now (map arc_value txs.now) entries.now stop cells.now) }
{
    let mut text = print_head(alloc)?;
    write_entries(&mut text, typed, txs, entries, 0, &mut Numbers::new(alloc))?;
    write_tail(&mut text, typed, stop, cells)?;
    Ok(text)
}
