//! The first of the faults that are noted, in the order of tokens and kinds.

ghost use Rattle.std.specs.Prelude.{◌≡◌, [], ◌∷◌};
ghost use Rattle.ecf_faults.specs.Expressions.{fault, fault_if, differ, type_faults};
ghost use Rattle.ecf_faults.specs.Least.{precedes, least_with};

use ecf_faults::{Fault, What};
use ecf_lang::tree::Ty;

/// The first of the faults so far.
#[derive(Drop)]
pub(crate) struct FirstFault {
    pub(crate) first: Option<Fault>,
}

impl FirstFault {
    pub(crate) fn note(&mut self, token: u32, what: What)
        ensures { self.new.first ≡ least_with self.old.first (fault token what ∷ []) }
    {
        let new = Fault { token, what };
        match self.first {
            None => self.first = Some(new),
            Some(old) => {
                if precedes(new, old) {
                    self.first = Some(new);
                }
            }
        }
    }

    pub(crate) fn note_if(&mut self, wrong: bool, token: u32, what: What)
        ensures { self.new.first ≡ least_with self.old.first (fault_if wrong token what) }
    {
        if wrong {
            self.note(token, what);
        }
    }

    /// Notes a type that isn't the required one.
    pub(crate) fn note_type(&mut self, want: Option<Ty>, has: Option<Ty>, token: u32)
        ensures { self.new.first ≡ least_with self.old.first (type_faults want has token) }
    {
        if let (Some(want), Some(has)) = (want, has) {
            self.note_if(differ(want, has), token, What::WrongType);
        }
    }
}

fn precedes(a: Fault, b: Fault) -> bool
    ensures { result ≡ precedes a b }
{
    a.token < b.token || (a.token == b.token && a.what < b.what)
}

pub(crate) fn differ(a: Ty, b: Ty) -> bool
    ensures { result ≡ differ a b }
{
    a != b
}
