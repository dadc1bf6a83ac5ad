//! What a line of a stream says.

ghost use Rattle.std.specs.Prelude.{◌≡◌, ◌≤◌, ◌&&◌, nat_le, if◌then◌else◌, length, map, codes, IfOk};
ghost use Rattle.std.specs.Str.{bytes_eq};
ghost use Rattle.ecf_decimal.specs.Decimal.{is_numeral, number_value};
ghost use Rattle.ecf_lines.specs.Line.{IsNumbered};
ghost use Rattle.ecf_lines.specs.Stream.{watch_of, watch_of_words, saying_of, txs_with};
ghost use Rattle.ecf_stream.specs.Lookup.{Finds};
ghost use Rattle.ecf_stream.specs.Saying.{SayingFits};

use crate::line::{is_skipped, tx_of_words, words};
use crate::lookup::Lookup;
use crate::number::number_within;
use ecf_lang::limits::MAX_TRANSACTIONS;
use ecf_lang::receipt::StopCause;
use ecf_lang::typed::Typed;
use ecf_lines::laws::lines_fit;
use ecf_lines::saying::Saying;
use std::alloc::{AllocError, Global};

/// What a line says after so many transactions, given without its LF and without the CR that stood before it, or why it
/// stops the reading.
pub fn read_line(
    alloc: Global,
    typed: &Typed,
    lookup: &Lookup,
    controls: bool,
    txs: usize,
    line: &[u8],
) -> Result<Result<Saying, StopCause>, AllocError>
    requires numbered { IsNumbered typed.now }
    requires found { Finds typed.now lookup.now }
    requires few { txs ≤ MAX_TRANSACTIONS }
    ensures read { IfOk result (λ reading. reading ≡ saying_of typed.now controls txs line.now) }
    ensures fits { IfOk result (λ reading. IfOk reading (SayingFits typed.now)) }
    ensures few { IfOk result (λ reading. IfOk reading (λ saying. txs_with saying txs ≤ MAX_TRANSACTIONS)) }
{
    lines_fit();
    if is_skipped(line) {
        return Ok(Ok(Saying::Nothing));
    }
    let words = words(alloc, line)?;
    if let Some(watch) = watch_of(controls, words.as_slice()) {
        return Ok(Ok(Saying::TakesOut(watch)));
    }
    if txs >= MAX_TRANSACTIONS {
        return Ok(Err(StopCause::Many));
    }
    match tx_of_words(alloc, typed, lookup, words.as_slice()) {
        Ok(tx) => Ok(Ok(Saying::Asks(tx))),
        Err(fault) => match fault.cause() {
            Some(cause) => Ok(Err(cause)),
            None => Err(AllocError),
        },
    }
}

// The watch that words take out, where control lines are read.
fn watch_of(controls: bool, words: &[&[u8]]) -> Option<u16>
    ensures { result ≡ watch_of controls (map (λ word. word.now) words.now) }
{
    if !controls {
        return None;
    }
    watch_of_words(words)
}

fn watch_of_words(words: &[&[u8]]) -> Option<u16>
    ensures { result ≡ watch_of_words (map (λ word. word.now) words.now) }
{
    let [command, number] = words else {
        return None;
    };
    if is_off(command) {
        two_digits(number)
    } else {
        None
    }
}

fn is_off(word: &[u8]) -> bool
    ensures { result ≡ bytes_eq word.now (codes "@off") }
{
    match word {
        b"@off" => true,
        _ => false,
    }
}

// The number of one or two digits that a word is.
fn two_digits(word: &[u8]) -> Option<u16>
    ensures { result ≡ (if is_numeral word.now && nat_le (length word.now) 2 then Some (number_value word.now) else None) }
{
    if word.len() > 2 {
        return None;
    }
    let number = number_within(0, 99, word)?;
    Some(number as u16)
}
