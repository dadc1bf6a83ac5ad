//! Transactions.

ghost use Rattle.std.specs.Prelude.{◌≡◌, ◌↔◌, IsTrue};
ghost use Rattle.ecf_lang.specs.Fits.{Fits, CallFits, ArgumentsFit, IsValue};

use crate::limits::{MAX_CALLS, MAX_FUEL};
use crate::tree::Ty;
use crate::typed::Typed;
use sqlite_items::Items;
use std::sync::Arc;

/// What a submitter asks for: its calls run one after the other, all or nothing.
#[derive(Debug, Drop)]
pub struct Tx {
    pub submitter: u32,
    /// The fuel limit of the whole transaction.
    pub fuel: u32,
    pub calls: Items<TxCall>,
}

/// One call of a transaction.
#[derive(Debug, Drop)]
pub struct TxCall {
    pub object: u8,
    /// The number of the method's name.
    pub method: u16,
    pub args: Items<u128>,
}

/// A transaction that several owners hold.
pub type TxRef = Arc<Tx>;

/// Whether the transaction can run on the contract: from 1 to [`MAX_CALLS`] calls, of methods that their
/// objects have, with arguments right in number and range, and a fuel limit from 1 to [`MAX_FUEL`].
pub fn fits(typed: &Typed, tx: &Tx) -> bool
    ensures { IsTrue result ↔ Fits typed.now tx.now }
{
    let calls = tx.calls.as_slice();
    1 <= calls.len()
        && calls.len() <= MAX_CALLS
        && 1 <= tx.fuel
        && tx.fuel <= MAX_FUEL
        && calls.iter().all(|call| call_fits(typed, call))
}

fn call_fits(typed: &Typed, call: &TxCall) -> bool
    ensures { IsTrue result ↔ CallFits typed.now call.now }
{
    let has_method = typed.method(call.object, call.method).is_some();
    match typed.signatures.get(usize::from(call.method)) {
        Some(signature) => {
            has_method && arguments_fit(typed, signature.params.as_slice(), call.args.as_slice())
        }
        None => false,
    }
}

fn arguments_fit(typed: &Typed, params: &[Ty], args: &[u128]) -> bool
    ensures { IsTrue result ↔ ArgumentsFit typed.now params.now args.now }
{
    let Some((ty, other_params)) = params.split_first() else {
        return args.is_empty();
    };
    let Some((arg, other_args)) = args.split_first() else {
        return false;
    };
    is_value(typed, *ty, *arg) && arguments_fit(typed, other_params, other_args)
}

fn is_value(typed: &Typed, ty: Ty, value: u128) -> bool
    ensures { IsTrue result ↔ IsValue typed.now ty value }
{
    match ty {
        Ty::Num => true,
        Ty::Flag => value < 2,
        Ty::Addr => value < typed.objects.len() as u128,
    }
}
