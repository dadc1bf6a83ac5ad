//! What comes of a command: a report, or why there is none.

ghost use Rattle.std.specs.Prelude.{◌≡◌};
ghost use Rattle.ecf_host.specs.Failures.{failure_of_fetch, failure_of_lexing, failure_of_parsing, failure_of_typing};
ghost use Rattle.ecf_host.specs.declared.failure.Failure.TheVariants.{NoMemory};

use crate::refusal::Refusal;
use ecf_edge::Fetch;
use ecf_lexer::LexFault;
use ecf_parser::SyntaxFault;
use ecf_typing::TypeFault;
use std::alloc::AllocError;

/// What is written on `out`, and the status that it comes with.
#[derive(Debug, Drop)]
pub struct Report {
    pub status: u8,
    pub text: Vec<u8>,
}

/// Why there is no report: a refusal, or want of memory.
#[derive(Clone, Copy, Debug, PartialEq, Eq)]
pub enum Failure {
    Refused(Refusal),
    NoMemory,
}

impl From<AllocError> for Failure {
    ghost from_gives = { λ _ failure. failure ≡ NoMemory };

    fn from(_: AllocError) -> Failure {
        Failure::NoMemory
    }
}

impl From<Fetch> for Failure {
    ghost from_gives = { λ fault failure. failure ≡ failure_of_fetch fault };

    fn from(fault: Fetch) -> Failure {
        match fault {
            Fetch::Failed => Failure::Refused(Refusal::ReadFault),
            Fetch::Missing => Failure::Refused(Refusal::Missing),
            Fetch::TooLong => Failure::Refused(Refusal::TooLong),
            Fetch::NoMemory => Failure::NoMemory,
        }
    }
}

impl From<LexFault> for Failure {
    ghost from_gives = { λ fault failure. failure ≡ failure_of_lexing fault };

    fn from(fault: LexFault) -> Failure {
        match fault {
            LexFault::BadByte { at } => Failure::Refused(Refusal::BadByte { at }),
            LexFault::WideNumber { at } => Failure::Refused(Refusal::WideNumber { at }),
            LexFault::TooManyTokens { at } => Failure::Refused(Refusal::TooManyTokens { at }),
            LexFault::NoMemory => Failure::NoMemory,
        }
    }
}

impl From<SyntaxFault> for Failure {
    ghost from_gives = { λ fault failure. failure ≡ failure_of_parsing fault };

    fn from(fault: SyntaxFault) -> Failure {
        match fault {
            SyntaxFault::At { token } => Failure::Refused(Refusal::Syntax { token }),
            SyntaxFault::TooDeep { token } => Failure::Refused(Refusal::TooDeep { token }),
            SyntaxFault::NoMemory => Failure::NoMemory,
        }
    }
}

impl From<TypeFault> for Failure {
    ghost from_gives = { λ fault failure. failure ≡ failure_of_typing fault };

    fn from(fault: TypeFault) -> Failure {
        match fault {
            TypeFault::At { token, what } => Failure::Refused(Refusal::Typing { token, what }),
            TypeFault::NoMemory => Failure::NoMemory,
        }
    }
}
