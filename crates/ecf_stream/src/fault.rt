//! Why a line is no transaction.

ghost use Rattle.std.specs.Prelude.{◌≡◌, Some};
ghost use Rattle.ecf_stream.specs.declared.fault.StreamFault.TheVariants.{NoMemory};
ghost use Rattle.ecf_stream.specs.StreamFault.{cause_of};

use ecf_lang::receipt::StopCause;
use std::alloc::{AllocError, AllocFailed};
use thiserror::Error;

/// Why a line is no transaction, the first of its faults in this order; or want of memory.
#[derive(Clone, Copy, Debug, PartialEq, Eq, Error)]
pub enum StreamFault {
    /// A first call of fewer than four words, a further call of fewer than two, more than eight calls, an empty word, or a
    /// submitter that isn't a number from 0 to 4,294,967,295.
    #[error("the line has no form of a transaction")]
    Form,
    /// No object of that name.
    #[error("there is no object of that name")]
    NoObject,
    /// The object has no method of that name.
    #[error("the object has no such method")]
    NoMethod,
    /// A fuel limit that isn't a number from 1 to 1,000,000.
    #[error("the fuel limit is out of its form or range")]
    BadFuel,
    /// More or fewer arguments than the method has parameters.
    #[error("the number of arguments is wrong")]
    Arity,
    /// An argument that is no value of its parameter's type.
    #[error("an argument is out of its form or range")]
    BadArg,
    #[error("out of memory")]
    NoMemory,
}

impl From<AllocError> for StreamFault {
    ghost from_gives = { λ _ e. e ≡ NoMemory };

    fn from(_: AllocError) -> Self {
        StreamFault::NoMemory
    }
}

impl StreamFault {
    /// The cause of a stop that the fault is; want of memory is none.
    pub fn cause(self) -> Option<StopCause>
        ensures { result ≡ cause_of self }
    {
        match self {
            StreamFault::Form => Some(StopCause::Form),
            StreamFault::NoObject => Some(StopCause::Object),
            StreamFault::NoMethod => Some(StopCause::Method),
            StreamFault::BadFuel => Some(StopCause::Fuel),
            StreamFault::Arity => Some(StopCause::Arity),
            StreamFault::BadArg => Some(StopCause::Arg),
            StreamFault::NoMemory => None,
        }
    }
}
