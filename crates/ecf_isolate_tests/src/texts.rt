//! Contracts from their texts, transactions from their calls.

ghost use Rattle.std.specs.Prelude.{◌<◌, IsTrue};
ghost use Rattle.ecf_heap.specs.Numbered.{IsWithinLimits};

use ecf_lang::limits::{MAX_CONTRACT_BYTES, MAX_FIELDS, MAX_OBJECTS};
use ecf_lang::tree::Tree;
use ecf_lang::tx::{Tx, TxCall};
use ecf_lang::typed::Typed;
use ecf_lexer::{LexFault, lex};
use ecf_parser::parse;
use ecf_typing::check;
use sqlite_items::Items;
use std::alloc::{AllocError, Global};
use std::test::Fail;

/// More fuel than a row's transactions take.
const AMPLE: u32 = 10_000;

/// A call of the first object: the number of a method's name, and the one argument.
pub(crate) type Call = (u16, u128);

/// The tree of a text, for which there is no memory where it is over its limit.
fn parsed(alloc: Global, text: &str) -> Result<Tree, Fail> {
    let text = text.as_bytes();
    if text.len() > MAX_CONTRACT_BYTES {
        return Err(LexFault::NoMemory)?;
    }
    let tokens = lex(alloc, text)?;
    Ok(parse(alloc, text, tokens.as_slice())?)
}

/// The numbered form of a text.
pub(crate) fn typed(alloc: Global, text: &str) -> Result<Typed, Fail> {
    let tree = parsed(alloc, text)?;
    Ok(check(alloc, &tree)?)
}

/// Whether a contract's objects and fields can be numbered.
pub(crate) fn is_within_limits(contract: &Typed) -> bool
    ensures { IsTrue result → IsWithinLimits contract.now }
{
    contract.objects.len() <= MAX_OBJECTS
        && contract
            .objects
            .as_slice()
            .iter()
            .all(|object| object.fields.len() <= MAX_FIELDS)
}

/// How many calls a transaction has; it has one at least.
pub(crate) fn at_least_one(size: usize) -> usize
    ensures { 0 < result }
{
    if size > 0 { size } else { 1 }
}

/// A transaction of these calls.
pub(crate) fn tx_of(alloc: Global, calls: &[Call]) -> Result<Tx, AllocError> {
    let mut list = Items::new(alloc);
    for (method, arg) in calls {
        list.push(TxCall {
            object: 0,
            method: *method,
            args: Items::from_slice(alloc, &[*arg])?,
        })?;
    }
    Ok(Tx {
        submitter: 0,
        fuel: AMPLE,
        calls: list,
    })
}
