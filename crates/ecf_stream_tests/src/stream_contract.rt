//! A contract whose streams are read: Counter has `bump`, and Bank has `put`, which takes a num, a flag and an addr.

ghost use Rattle.std.specs.Prelude.{◌<◌, IfOk};
ghost use Rattle.ecf_lines.specs.Line.{IsNumbered};

use ecf_lang::name::Name;
use ecf_lang::tree::Ty;
use ecf_lang::typed::{Signature, Typed, TypedBlock, TypedMethod, TypedObject};
use sqlite_items::Items;
use std::alloc::{AllocError, Global};

/// A transaction of the contract as a line.
pub(crate) const LINE: &str = "1 Counter bump 100";

/// The contract.
pub(crate) fn contract(alloc: Global) -> Result<Typed, AllocError>
    ensures { IfOk result IsNumbered }
{
    let mut objects = Items::new(alloc);
    objects.push(object(alloc, b"Counter", 0)?)?;
    objects.push(object(alloc, b"Bank", 1)?)?;
    let mut names = Items::new(alloc);
    names.push(Name::from_slice(alloc, b"bump")?)?;
    names.push(Name::from_slice(alloc, b"put")?)?;
    let mut signatures = Items::new(alloc);
    signatures.push(signature(alloc, &[])?)?;
    signatures.push(signature(alloc, &[Ty::Num, Ty::Flag, Ty::Addr])?)?;
    Ok(Typed {
        objects,
        names,
        signatures,
    })
}

fn object(alloc: Global, name: &[u8], method: u16) -> Result<TypedObject, AllocError> {
    let mut methods = Items::new(alloc);
    let body = TypedBlock {
        stmts: Items::new(alloc),
    };
    methods.push(TypedMethod {
        name: method,
        locals: 3,
        body,
    })?;
    let name = Name::from_slice(alloc, name)?;
    Ok(TypedObject {
        name,
        fields: Items::new(alloc),
        methods,
    })
}

fn signature(alloc: Global, params: &[Ty]) -> Result<Signature, AllocError> {
    let params = Items::from_slice(alloc, params)?;
    Ok(Signature {
        params,
        answer: Ty::Num,
    })
}

/// Zeros, which may stand before a submitter, and then this text.
pub(crate) fn zeros_before(alloc: Global, zeros: usize, text: &str) -> Result<Vec<u8>, AllocError> {
    let mut line = vec![in alloc; b'0'; zeros]?;
    line.extend_from_slice(text.as_bytes())?;
    Ok(line)
}

/// How many bytes a read gives at most, or how many transactions a round reads: one at least.
pub(crate) fn at_least_one(count: usize) -> usize
    ensures { 0 < result }
{
    if count > 0 { count } else { 1 }
}
