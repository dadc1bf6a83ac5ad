//! Appends the lines of entries to a text.

ghost use Rattle.std.specs.Prelude.{◌≡◌, ◌++◌, map, take, OnOk};
ghost use Rattle.std.specs.List.{flat_map};
ghost use Rattle.std.specs.Arc.{arc_value};
ghost use Rattle.ecf_texts.specs.Entries.{callee_text, call_arguments_text, first_call_text, further_call_text, request_text, line_text, text_of_entries};
ghost use Rattle.ecf_receipts.specs.Numbers.{CountsEntries};

use crate::numbers::{Numbers, tx_of};
use crate::receipts::write_receipt;
use crate::words::{params_of, write_arguments, write_method, write_number, write_object};
use ecf_lang::receipt::{Entry, Receipt};
use ecf_lang::tx::{Tx, TxCall, TxRef};
use ecf_lang::typed::Typed;
use std::alloc::AllocError;

/// The lines of the entries from a place on, where those before it were counted; then all are counted.
pub fn write_entries(
    text: &mut Vec<u8>,
    typed: &Typed,
    txs: &[TxRef],
    entries: &[Entry],
    from: usize,
    numbers: &mut Numbers,
) -> Result<(), AllocError>
    requires counted { CountsEntries (map arc_value txs.now) (take from entries.now) numbers.old.counts }
    ensures text { OnOk result (text.new.items
        ≡ text.old.items ++ text_of_entries typed.now (map arc_value txs.now) entries.now from) }
    ensures counts { OnOk result (CountsEntries (map arc_value txs.now) entries.now numbers.new.counts) }
{
    for index in from..entries.len() {
        let entry = &entries[index];
        let Some(tx) = tx_of(txs, entry) else {
            continue;
        };
        let number = numbers.next(tx.submitter)?;
        write_line(text, typed, index + 1, number, tx, &entry.receipt)?;
    }
    Ok(())
}

fn write_line(
    text: &mut Vec<u8>,
    typed: &Typed,
    place: usize,
    number: usize,
    tx: &Tx,
    receipt: &Receipt,
) -> Result<(), AllocError>
    ensures { OnOk result (text.new.items
        ≡ text.old.items ++ line_text typed.now place number tx.now receipt.now) }
{
    write_number(text, place as u128)?;
    text.push(b' ')?;
    write_number(text, u128::from(tx.submitter))?;
    text.push(b'.')?;
    write_number(text, number as u128)?;
    text.push(b' ')?;
    write_request(text, typed, tx.fuel, tx.calls.as_slice())?;
    text.extend_from_slice(b" -> ")?;
    write_receipt(text, typed, receipt)?;
    text.push(b'\n')?;
    Ok(())
}

fn write_request(
    text: &mut Vec<u8>,
    typed: &Typed,
    limit: u32,
    calls: &[TxCall],
) -> Result<(), AllocError>
    ensures { OnOk result
        (text.new.items ≡ text.old.items ++ request_text typed.now limit calls.now) }
{
    let Some((call, further)) = calls.split_first() else {
        return Ok(());
    };
    write_first_call(text, typed, limit, call)?;
    write_further_calls(text, typed, further)
}

fn write_first_call(
    text: &mut Vec<u8>,
    typed: &Typed,
    limit: u32,
    call: &TxCall,
) -> Result<(), AllocError>
    ensures { OnOk result
        (text.new.items ≡ text.old.items ++ first_call_text typed.now limit call.now) }
{
    write_callee(text, typed, call)?;
    text.push(b' ')?;
    write_number(text, u128::from(limit))?;
    write_call_arguments(text, typed, call)
}

fn write_further_calls(
    text: &mut Vec<u8>,
    typed: &Typed,
    calls: &[TxCall],
) -> Result<(), AllocError>
    ensures { OnOk result
        (text.new.items ≡ text.old.items ++ flat_map (further_call_text typed.now) calls.now) }
{
    for call in calls {
        write_further_call(text, typed, call)?;
    }
    Ok(())
}

fn write_further_call(text: &mut Vec<u8>, typed: &Typed, further: &TxCall) -> Result<(), AllocError>
    ensures { OnOk result
        (text.new.items ≡ text.old.items ++ further_call_text typed.now further.now) }
{
    text.extend_from_slice(b" ; ")?;
    write_callee(text, typed, further)?;
    write_call_arguments(text, typed, further)
}

fn write_callee(text: &mut Vec<u8>, typed: &Typed, call: &TxCall) -> Result<(), AllocError>
    ensures { OnOk result (text.new.items ≡ text.old.items ++ callee_text typed.now call.now) }
{
    write_object(text, typed, usize::from(call.object))?;
    text.push(b' ')?;
    write_method(text, typed, call.method)
}

fn write_call_arguments(text: &mut Vec<u8>, typed: &Typed, call: &TxCall) -> Result<(), AllocError>
    ensures { OnOk result
        (text.new.items ≡ text.old.items ++ call_arguments_text typed.now call.now) }
{
    let params = params_of(typed, call.method);
    write_arguments(text, typed, params, call.args.as_slice())
}
