//! Why nothing was run: a status and a note for each cause.

ghost use Rattle.std.specs.Prelude.{◌≡◌, IfOk, string_bytes};
ghost use Rattle.ecf_host.specs.Refusals.{status_of, note_of, type_note, word_of};

use ecf_faults::What;
use std::alloc::{AllocError, Global};

/// A cause why nothing was run.
#[derive(Clone, Copy, Debug, PartialEq, Eq)]
pub enum Refusal {
    /// The words are no command.
    Words,
    /// The contract file has more bytes than its limit.
    TooLong,
    /// A byte of the contract file begins no token, blank or comment.
    BadByte { at: u32 },
    /// A number of the contract file is above 2^128 - 1.
    WideNumber { at: u32 },
    /// The contract file has more tokens than its limit.
    TooManyTokens { at: u32 },
    /// This token of the contract file is the first out of place.
    Syntax { token: u32 },
    /// This token of the contract file is the first nested too deep.
    TooDeep { token: u32 },
    /// This token of the contract file has the first fault of names and types.
    Typing { token: u32, what: What },
    /// There is no contract file of that name.
    Missing,
    /// The contract file can't be opened, or a read of it failed.
    ReadFault,
}

impl Refusal {
    /// The exit status.
    pub fn status(self) -> u8
        ensures { result ≡ status_of self }
    {
        match self {
            Refusal::Words => 1,
            Refusal::TooLong
            | Refusal::BadByte { .. }
            | Refusal::WideNumber { .. }
            | Refusal::TooManyTokens { .. }
            | Refusal::Syntax { .. }
            | Refusal::TooDeep { .. }
            | Refusal::Typing { .. } => 2,
            Refusal::Missing | Refusal::ReadFault => 4,
        }
    }

    /// The note, a line.
    pub fn note(self, alloc: Global) -> Result<String, AllocError>
        ensures { IfOk result (λ note. string_bytes note ≡ note_of self) }
    {
        match self {
            Refusal::Words => String::from_str(alloc, "words refused\n"),
            Refusal::TooLong => String::from_str(alloc, "contract: too long\n"),
            Refusal::BadByte { at } => format!(in alloc; "contract byte {at}: bad byte\n"),
            Refusal::WideNumber { at } => format!(in alloc; "contract byte {at}: wide number\n"),
            Refusal::TooManyTokens { at } => {
                format!(in alloc; "contract byte {at}: too many tokens\n")
            }
            Refusal::Syntax { token } => format!(in alloc; "contract token {token}: syntax\n"),
            Refusal::TooDeep { token } => format!(in alloc; "contract token {token}: too deep\n"),
            Refusal::Typing { token, what } => type_note(alloc, token, what),
            Refusal::Missing => String::from_str(alloc, "contract: missing\n"),
            Refusal::ReadFault => String::from_str(alloc, "contract: read fault\n"),
        }
    }
}

// The note of a fault of names and types.
fn type_note(alloc: Global, token: u32, what: What) -> Result<String, AllocError>
    ensures { IfOk result (λ note. string_bytes note ≡ type_note token what) }
{
    let mut note = format!(in alloc; "contract token {token}: type ")?;
    note.push_str(word(what))?;
    note.push('\n')?;
    Ok(note)
}

// The word for a kind of fault.
fn word(what: What) -> &'static str
    ensures { result.now ≡ word_of what }
{
    match what {
        What::TwoObjects => "TwoObjects",
        What::TwoFields => "TwoFields",
        What::TwoMethods => "TwoMethods",
        What::TwoLocals => "TwoLocals",
        What::TwoSignatures => "TwoSignatures",
        What::TwoKeys => "TwoKeys",
        What::TooManyObjects => "TooManyObjects",
        What::TooManyMembers => "TooManyMembers",
        What::TooManyLocals => "TooManyLocals",
        What::UnknownName => "UnknownName",
        What::Misused => "Misused",
        What::UnknownMethod => "UnknownMethod",
        What::WrongArity => "WrongArity",
        What::WrongType => "WrongType",
    }
}
