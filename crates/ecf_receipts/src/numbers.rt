//! Counts the entries of each submitter.

ghost use Rattle.std.specs.Prelude.{◌≡◌, ◌+◌, ◌^◌, ◌<◌, List, [], map, IfOk, OnOk};
ghost use Rattle.std.specs.Arc.{arc_value};
ghost use Rattle.std.specs.Option.{option_copied};
ghost use Rattle.ecf_texts.specs.Entries.{tx_of};
ghost use Rattle.ecf_lang.specs.declared.tx.Tx.{Tx};
ghost use Rattle.ecf_receipts.specs.Numbers.{count_of, CountsOneMore, CountsEntries};

use ecf_lang::receipt::Entry;
use ecf_lang::tx::{Tx, TxRef};
use std::alloc::{AllocError, Global};
use std::collections::BTreeMap;

/// How far the entries of a journal were counted.
#[derive(Debug, Drop)]
pub struct Numbers {
    /// How many entries each submitter has so far; none where it is missing.
    pub counts: BTreeMap<u32, usize>,
}

impl Numbers {
    /// No submitter has an entry yet.
    pub fn new(alloc: Global) -> Numbers
        ensures { (txs : List Tx) → CountsEntries txs [] result.counts }
    {
        Numbers {
            counts: BTreeMap::new(alloc),
        }
    }

    /// Counts entries where none was counted before. One whose row is no place of `txs` isn't counted.
    pub(crate) fn count(&mut self, txs: &[TxRef], entries: &[Entry]) -> Result<(), AllocError>
        requires none { CountsEntries (map arc_value txs.now) [] self.old.counts }
        ensures { OnOk result (CountsEntries (map arc_value txs.now) entries.now self.new.counts) }
    {
        for entry in entries {
            let Some(tx) = tx_of(txs, entry) else {
                continue;
            };
            self.next(tx.submitter)?;
        }
        Ok(())
    }

    /// Counts one more entry of the submitter, and answers how many it has then.
    pub(crate) fn next(&mut self, submitter: u32) -> Result<usize, AllocError>
        requires room { count_of self.old.counts submitter + 1 < 2 ^ 64 }
        ensures number { IfOk result (λ n. n ≡ count_of self.old.counts submitter + 1) }
        ensures counts { OnOk result (CountsOneMore self.old.counts self.new.counts submitter) }
    {
        let number = self.counts.get(&submitter).copied().unwrap_or(0) + 1;
        self.counts.insert(submitter, number)?;
        Ok(number)
    }
}

/// The transaction of an entry.
pub fn tx_of<'a>(txs: &'a [TxRef], entry: &Entry) -> Option<&'a Tx>
    ensures { option_copied result ≡ tx_of (map arc_value txs.now) entry.now }
{
    let tx = txs.get(entry.row as usize)?;
    Some(tx)
}
