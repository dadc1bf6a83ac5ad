//! Transactions against a contract that they fit or don't fit.

use ecf_lang::limits::{MAX_CALLS, MAX_FUEL};
use ecf_lang::name::Name;
use ecf_lang::tree::Ty;
use ecf_lang::tx::{Tx, TxCall, fits};
use ecf_lang::typed::{Signature, Typed, TypedBlock, TypedMethod, TypedObject};
use sqlite_items::Items;
use std::alloc::{AllocError, Global};
use std::test::Fail;

fn object(alloc: Global, method: u16) -> Result<TypedObject, AllocError> {
    let mut methods = Items::new(alloc);
    methods.push(TypedMethod {
        name: method,
        locals: 3,
        body: TypedBlock {
            stmts: Items::new(alloc),
        },
    })?;
    Ok(TypedObject {
        name: Name::from_slice(alloc, b"A")?,
        fields: Items::new(alloc),
        methods,
    })
}

fn objects(alloc: Global) -> Result<Items<TypedObject>, AllocError> {
    let mut objects = Items::new(alloc);
    objects.push(object(alloc, 0)?)?;
    objects.push(object(alloc, 1)?)?;
    Ok(objects)
}

fn names(alloc: Global) -> Result<Items<Name>, AllocError> {
    let mut names = Items::new(alloc);
    names.push(Name::from_slice(alloc, b"take")?)?;
    names.push(Name::from_slice(alloc, b"give")?)?;
    Ok(names)
}

fn signature(alloc: Global, params: &[Ty]) -> Result<Signature, AllocError> {
    Ok(Signature {
        params: Items::from_slice(alloc, params)?,
        answer: Ty::Num,
    })
}

fn signatures(alloc: Global) -> Result<Items<Signature>, AllocError> {
    let mut signatures = Items::new(alloc);
    signatures.push(signature(alloc, &[Ty::Num, Ty::Flag, Ty::Addr])?)?;
    signatures.push(signature(alloc, &[])?)?;
    Ok(signatures)
}

/// Two objects; the first has the method 0, which takes a number, a flag and an address, the second the method 1.
fn contract(alloc: Global) -> Result<Typed, AllocError> {
    Ok(Typed {
        objects: objects(alloc)?,
        names: names(alloc)?,
        signatures: signatures(alloc)?,
    })
}

/// So many calls of a method of an object, each with these arguments.
fn calls(
    alloc: Global,
    times: usize,
    object: u8,
    method: u16,
    args: &[u128],
) -> Result<Items<TxCall>, AllocError> {
    let mut calls = Items::new(alloc);
    for _ in 0..times {
        calls.push(TxCall {
            object,
            method,
            args: Items::from_slice(alloc, args)?,
        })?;
    }
    Ok(calls)
}

fn is_fitting(alloc: Global, fuel: u32, calls: Items<TxCall>) -> Result<bool, AllocError> {
    let tx = Tx {
        submitter: 1,
        fuel,
        calls,
    };
    Ok(fits(&contract(alloc)?, &tx))
}

#[test]
fn fits_what_can_run(rt: HostRuntime) -> Result<(), Fail> {
    let alloc = rt.alloc();
    let most = u128::MAX;
    for (fuel, times, args, want) in [
        (1, 1, [most, 1, 1], true),
        (0, 1, [0, 0, 0], false),
        (MAX_FUEL, MAX_CALLS, [0, 0, 0], true),
        (MAX_FUEL + 1, 1, [0, 0, 0], false),
        (9, 0, [0, 0, 0], false),
        (9, MAX_CALLS + 1, [0, 0, 0], false),
        // A flag and an address too many.
        (9, 1, [0, 2, 0], false),
        (9, 1, [0, 0, 2], false),
    ] {
        let calls = calls(alloc, times, 0, 0, &args)?;
        assert_eq!(rt; is_fitting(alloc, fuel, calls)?, want);
    }
    Ok(())
}

#[test]
fn fits_an_object_its_method_and_its_arguments(rt: HostRuntime) -> Result<(), Fail> {
    let alloc = rt.alloc();
    for (object, method, args, want) in [
        (0, 0, 3, true),
        (0, 0, 2, false),
        (1, 1, 0, true),
        (1, 1, 1, false),
        (1, 0, 3, false),
        (2, 0, 3, false),
    ] {
        let zeros = vec![in alloc; 0; args]?;
        let calls = calls(alloc, MAX_CALLS, object, method, zeros.as_slice())?;
        assert_eq!(rt; is_fitting(alloc, MAX_FUEL, calls)?, want);
    }
    Ok(())
}
