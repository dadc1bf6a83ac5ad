//! What a line says.

ghost use Rattle.std.specs.Prelude.{◌≡◌, ◌<◌, nat_le, [], ◌∷◌, length, map, IfOk, IfErr, IfSome, Ok, Err};
ghost use Rattle.std.specs.List.{list_all, list_any};
ghost use Rattle.ecf_lang.specs.Fits.{Fits};
ghost use Rattle.ecf_lines.specs.Line.{IsNumbered, words, is_empty, is_skipped, is_semicolon, object_named, method_named, flag_named, value_of, values_of, arguments_of, callee_of, first_call_of, further_call_of, calls_in, has_call_form, submitter_of, tx_of_calls, tx_of_words, line_of};
ghost use Rattle.ecf_lines.specs.Spelled.{SpellsTx};
ghost use Rattle.ecf_stream.specs.Lookup.{Finds};
ghost use Rattle.ecf_stream.specs.StreamFault.{cause_of, Tells};
ghost use Rattle.ecf_stream.specs.Calls.{calls_behind};

use crate::fault::StreamFault;
use crate::lookup::Lookup;
use crate::number::number_within;
use ecf_lang::limits::{MAX_CALLS, MAX_FUEL};
use ecf_lang::tree::Ty;
use ecf_lang::tx::{Tx, TxCall};
use ecf_lang::typed::Typed;
use ecf_lines::laws::{lines_fit, lines_spell};
use sqlite_items::Items;
use std::alloc::{AllocError, Global};

/// What a line says, given without its LF and without the CR that stood before it: nothing where it is empty
/// or begins with `#`, else a transaction. For many lines of one contract see `read_tx_by`.
pub fn read_tx(alloc: Global, typed: &Typed, line: &[u8]) -> Result<Option<Tx>, StreamFault>
    requires { IsNumbered typed.now }
    ensures read { IfOk result (λ said. line_of typed.now line.now ≡ Ok said) }
    ensures refused { IfErr result (λ e. IfSome (cause_of e) (λ cause. line_of typed.now line.now ≡ Err cause)) }
    ensures spells { IfOk result (λ said. IfSome said (SpellsTx typed.now line.now)) }
    ensures fits { IfOk result (λ said. IfSome said (Fits typed.now)) }
{
    let lookup = Lookup::new(alloc, typed)?;
    read_tx_by(alloc, typed, &lookup, line)
}

/// What `read_tx` answers, with the contract's names made ready for look-ups before.
pub fn read_tx_by(
    alloc: Global,
    typed: &Typed,
    lookup: &Lookup,
    line: &[u8],
) -> Result<Option<Tx>, StreamFault>
    requires numbered { IsNumbered typed.now }
    requires found { Finds typed.now lookup.now }
    ensures read { IfOk result (λ said. line_of typed.now line.now ≡ Ok said) }
    ensures refused { IfErr result (λ e. IfSome (cause_of e) (λ cause. line_of typed.now line.now ≡ Err cause)) }
    ensures spells { IfOk result (λ said. IfSome said (SpellsTx typed.now line.now)) }
    ensures fits { IfOk result (λ said. IfSome said (Fits typed.now)) }
{
    lines_fit();
    lines_spell();
    if is_skipped(line) {
        return Ok(None);
    }
    let words = words(alloc, line)?;
    Ok(Some(tx_of_words(alloc, typed, lookup, words.as_slice())?))
}

/// Whether a line is skipped.
pub fn is_skipped(line: &[u8]) -> bool
    ensures { result ≡ is_skipped line.now }
{
    match line.first() {
        None => true,
        Some(first) => *first == b'#',
    }
}

/// The words of a line.
pub fn words(alloc: Global, line: &[u8]) -> Result<Vec<&[u8]>, AllocError>
    ensures { IfOk result (λ v. map (λ word. word.now) v.items ≡ words line.now) }
{
    line.split(|byte| *byte == b' ').collect(alloc)
}

/// The transaction that words spell.
pub fn tx_of_words(
    alloc: Global,
    typed: &Typed,
    lookup: &Lookup,
    words: &[&[u8]],
) -> Result<Tx, StreamFault>
    requires numbered { IsNumbered typed.now }
    requires found { Finds typed.now lookup.now }
    ensures { Tells result (tx_of_words typed.now (map (λ word. word.now) words.now)) }
{
    let calls = calls_in(alloc, words)?;
    let submitter = submitter_of(words, calls.as_slice())?;
    tx_of_calls(alloc, typed, lookup, submitter, calls.as_slice())
}

fn calls_in<'a>(alloc: Global, words: &'a [&'a [u8]]) -> Result<Vec<&'a [&'a [u8]]>, AllocError>
    ensures { IfOk result (λ v. map (λ call. map (λ word. word.now) call.now) v.items ≡ calls_in (map (λ word. word.now) words.now)) }
{
    words.split(|word| is_semicolon(word)).collect(alloc)
}

fn is_semicolon(word: &[u8]) -> bool
    ensures { result ≡ is_semicolon word.now }
{
    match word {
        b";" => true,
        _ => false,
    }
}

fn submitter_of(words: &[&[u8]], calls: &[&[&[u8]]]) -> Result<u32, StreamFault>
    requires { map (λ call. map (λ word. word.now) call.now) calls.now ≡ calls_in (map (λ word. word.now) words.now) }
    ensures { Tells result (submitter_of (map (λ word. word.now) words.now)) }
{
    let [submitter, _behind @ ..] = words else {
        return Err(StreamFault::Form);
    };
    if has_empty_word(words) || !has_call_form(calls) {
        return Err(StreamFault::Form);
    }
    match number_within(0, u128::from(u32::MAX), submitter) {
        Some(submitter) => Ok(submitter as u32),
        None => Err(StreamFault::Form),
    }
}

fn has_empty_word(words: &[&[u8]]) -> bool
    ensures { result ≡ list_any is_empty (map (λ word. word.now) words.now) }
{
    words.iter().any(|word| word.is_empty())
}

fn has_call_form(calls: &[&[&[u8]]]) -> bool
    ensures { result ≡ has_call_form (map (λ call. map (λ word. word.now) call.now) calls.now) }
{
    let [first, further @ ..] = calls else {
        return false;
    };
    4 <= first.len() && have_two_words(further) && further.len() < MAX_CALLS
}

fn have_two_words(calls: &[&[&[u8]]]) -> bool
    ensures { result ≡ list_all (λ call. nat_le 2 (length call)) (map (λ call. map (λ word. word.now) call.now) calls.now) }
{
    calls.iter().all(|call| 2 <= call.len())
}

fn tx_of_calls(
    alloc: Global,
    typed: &Typed,
    lookup: &Lookup,
    submitter: u32,
    calls: &[&[&[u8]]],
) -> Result<Tx, StreamFault>
    requires numbered { IsNumbered typed.now }
    requires found { Finds typed.now lookup.now }
    ensures { Tells result (tx_of_calls typed.now submitter (map (λ call. map (λ word. word.now) call.now) calls.now)) }
{
    let Some((first, further)) = calls.split_first() else {
        return Err(StreamFault::Form);
    };
    tx_from_first(alloc, typed, lookup, submitter, first, further)
}

fn tx_from_first(
    alloc: Global,
    typed: &Typed,
    lookup: &Lookup,
    submitter: u32,
    first: &[&[u8]],
    further: &[&[&[u8]]],
) -> Result<Tx, StreamFault>
    requires numbered { IsNumbered typed.now }
    requires found { Finds typed.now lookup.now }
    ensures { Tells result (tx_of_calls typed.now submitter
        (map (λ word. word.now) first.now ∷ map (λ call. map (λ word. word.now) call.now) further.now)) }
{
    let (fuel, call) = first_call_of(alloc, typed, lookup, first)?;
    let calls = with_further_calls(alloc, typed, lookup, call, further)?;
    Ok(Tx {
        submitter,
        fuel,
        calls,
    })
}

fn first_call_of(
    alloc: Global,
    typed: &Typed,
    lookup: &Lookup,
    words: &[&[u8]],
) -> Result<(u32, TxCall), StreamFault>
    requires numbered { IsNumbered typed.now }
    requires found { Finds typed.now lookup.now }
    ensures { Tells result (first_call_of typed.now (map (λ word. word.now) words.now)) }
{
    let [_submitter, object, method, fuel, args @ ..] = words else {
        return Err(StreamFault::Form);
    };
    let (object, method) = callee_of(typed, lookup, object, method)?;
    let Some(fuel) = number_within(1, u128::from(MAX_FUEL), fuel) else {
        return Err(StreamFault::BadFuel);
    };
    let args = arguments_of(alloc, typed, lookup, method, args)?;
    Ok((
        fuel as u32,
        TxCall {
            object,
            method,
            args,
        },
    ))
}

// A call, and behind it the further calls that words spell.
fn with_further_calls(
    alloc: Global,
    typed: &Typed,
    lookup: &Lookup,
    call: TxCall,
    further: &[&[&[u8]]],
) -> Result<Items<TxCall>, StreamFault>
    requires numbered { IsNumbered typed.now }
    requires found { Finds typed.now lookup.now }
    ensures { Tells result (calls_behind typed.now (call ∷ []) (map (λ call. map (λ word. word.now) call.now) further.now)) }
{
    let mut calls = Items::new(alloc);
    calls.push(call)?;
    for words in further {
        calls.push(further_call_of(alloc, typed, lookup, words)?)?;
    }
    Ok(calls)
}

fn further_call_of(
    alloc: Global,
    typed: &Typed,
    lookup: &Lookup,
    words: &[&[u8]],
) -> Result<TxCall, StreamFault>
    requires numbered { IsNumbered typed.now }
    requires found { Finds typed.now lookup.now }
    ensures { Tells result (further_call_of typed.now (map (λ word. word.now) words.now)) }
{
    let [object, method, args @ ..] = words else {
        return Err(StreamFault::Form);
    };
    let (object, method) = callee_of(typed, lookup, object, method)?;
    let args = arguments_of(alloc, typed, lookup, method, args)?;
    Ok(TxCall {
        object,
        method,
        args,
    })
}

fn callee_of(
    typed: &Typed,
    lookup: &Lookup,
    object: &[u8],
    method: &[u8],
) -> Result<(u8, u16), StreamFault>
    requires numbered { IsNumbered typed.now }
    requires found { Finds typed.now lookup.now }
    ensures named { Tells result (callee_of typed.now object.now method.now) }
    ensures signed { IfOk result (λ callee. callee.1 < length typed.now.signatures) }
{
    let Some(object) = object_named(typed, lookup, object) else {
        return Err(StreamFault::NoObject);
    };
    let Some(method) = method_named(typed, lookup, object, method) else {
        return Err(StreamFault::NoMethod);
    };
    Ok((object, method))
}

fn object_named(typed: &Typed, lookup: &Lookup, word: &[u8]) -> Option<u8>
    requires numbered { IsNumbered typed.now }
    requires found { Finds typed.now lookup.now }
    ensures { result ≡ object_named typed.now word.now }
{
    Some(lookup.object(word)? as u8)
}

fn method_named(typed: &Typed, lookup: &Lookup, object: u8, word: &[u8]) -> Option<u16>
    requires numbered { IsNumbered typed.now }
    requires found { Finds typed.now lookup.now }
    ensures number { result ≡ method_named typed.now object word.now }
    ensures signed { IfSome result (λ name. name < length typed.now.signatures) }
{
    let name = lookup.method(word)? as u16;
    if typed.method(object, name).is_some() {
        Some(name)
    } else {
        None
    }
}

fn arguments_of(
    alloc: Global,
    typed: &Typed,
    lookup: &Lookup,
    method: u16,
    words: &[&[u8]],
) -> Result<Items<u128>, StreamFault>
    requires found { Finds typed.now lookup.now }
    requires signature { method < length typed.now.signatures }
    ensures { Tells result (arguments_of typed.now method (map (λ word. word.now) words.now)) }
{
    let Some(signature) = typed.signatures.get(usize::from(method)) else {
        unreachable!();
    };
    let params = signature.params.as_slice();
    if words.len() != params.len() {
        return Err(StreamFault::Arity);
    }
    match values_of(alloc, typed, lookup, params, words)? {
        Some(values) => Ok(values),
        None => Err(StreamFault::BadArg),
    }
}

fn values_of(
    alloc: Global,
    typed: &Typed,
    lookup: &Lookup,
    params: &[Ty],
    words: &[&[u8]],
) -> Result<Option<Items<u128>>, AllocError>
    requires found { Finds typed.now lookup.now }
    requires as_many { length words.now ≡ length params.now }
    ensures { IfOk result (λ values. values ≡ values_of typed.now params.now (map (λ word. word.now) words.now)) }
{
    let mut values = Vec::with_capacity(alloc, words.len())?;
    for (ty, word) in params.iter().zip(words) {
        let Some(value) = value_of(typed, lookup, *ty, word) else {
            return Ok(None);
        };
        values.push(value)?;
    }
    Ok(Some(Items::from_vec(values)))
}

fn value_of(typed: &Typed, lookup: &Lookup, ty: Ty, word: &[u8]) -> Option<u128>
    requires { Finds typed.now lookup.now }
    ensures { result ≡ value_of typed.now ty word.now }
{
    match ty {
        Ty::Num => number_within(0, u128::MAX, word),
        Ty::Flag => flag_named(word),
        Ty::Addr => lookup.object(word).map(|object| object as u128),
    }
}

fn flag_named(word: &[u8]) -> Option<u128>
    ensures { result ≡ flag_named word.now }
{
    match word {
        b"true" => Some(1),
        b"false" => Some(0),
        _ => None,
    }
}
