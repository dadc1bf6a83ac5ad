//! The tokens of a whole text.

ghost use Rattle.std.specs.Prelude.{[], ◌∷◌, ◌++◌, OnOk, ◌≡◌, ◌<◌, ◌≤◌, List, length, IfOk, IfErr, IsErrAnd, MatchResult, IfSome, Some, ◌⊎◌};
ghost use Rattle.std.specs.List.{AllByRecursion};
ghost use Rattle.ecf_grammar.specs.declared.tokens.Token.{Token};
ghost use Rattle.ecf_grammar.specs.Reading.{Fault, Reads, IsFaulty, IsTokenOf, StandInOrder};
ghost use Rattle.ecf_lexer.specs.LexFault.{fault_of};
ghost use Rattle.ecf_lexer.specs.Progress.{ReadsTo};
ghost use Rattle.ecf_lexer.specs.declared.lexer.LexFault.TheVariants.{NoMemory};

use crate::front::{Front, read_front};
use ecf_grammar::{
    Token, one_fault, one_reading, read_or_refused, reading_goes_on, tokens_in_place,
};
use ecf_lang::limits::{MAX_CONTRACT_BYTES, MAX_TOKENS};
use std::alloc::Global;
use thiserror::Error;

/// Why a source has no tokens: its first fault, with the byte at which that stands, counted from 0; or want of memory.
#[derive(Clone, Copy, Debug, PartialEq, Eq, Error)]
pub enum LexFault {
    /// The byte begins neither a token nor a blank or comment.
    #[error("byte {at} begins no token")]
    BadByte { at: u32 },
    /// The number that begins there isn't below 2^128.
    #[error("the number at byte {at} is too wide")]
    WideNumber { at: u32 },
    /// Token 200,000, counted from 0, begins there, be it a wide number or not.
    #[error("one token too many begins at byte {at}")]
    TooManyTokens { at: u32 },
    #[error("out of memory")]
    NoMemory,
}

/// The tokens of a contract file, read by longest match, each with its place.
/// It looks at each byte a few times at most, and takes memory for the tokens alone.
pub fn lex(alloc: Global, source: &[u8]) -> Result<Vec<Token>, LexFault>
    requires { length source.now ≤ MAX_CONTRACT_BYTES }

    // An answer is right.
    ensures read { IfOk result (λ tokens. Reads source.now tokens.items) }
    ensures refused { IfErr result (λ e. IfSome (fault_of e) (IsFaulty source.now)) }

    // What reads is read, and what is faulty is refused, unless memory runs out.
    ensures reads { (tokens : List Token) → Reads source.now tokens → MatchResult result (λ found. found.items ≡ tokens) (λ e. e ≡ NoMemory) }
    ensures refuses { (fault : Fault) → IsFaulty source.now fault → IsErrAnd result (λ e. (e ≡ NoMemory) ⊎ (fault_of e ≡ Some fault)) }

    // Where the tokens stand.
    ensures spelled { IfOk result (λ tokens. AllByRecursion (IsTokenOf source.now) tokens.items) }
    ensures in_order { IfOk result (λ tokens. StandInOrder 0 tokens.items) }
{
    one_reading();
    read_or_refused();
    one_fault();
    tokens_in_place();
    let mut tokens = Vec::new(alloc);
    let mut at = 0;
    while at < source.len() {
        at = read_piece(source, at, &mut tokens)?;
    }
    Ok(tokens)
}

// Reads the piece at a place, and says where it ends.
fn read_piece(source: &[u8], at: usize, tokens: &mut Vec<Token>) -> Result<usize, LexFault>
    requires short { length source.now ≤ MAX_CONTRACT_BYTES }
    requires more { at < length source.now }
    requires so_far { ReadsTo source.now tokens.old.items at }
    ensures further { IfOk result (λ end. (at < end) × ReadsTo source.now tokens.new.items end) }
    ensures refused { IfErr result (λ e. IfSome (fault_of e) (IsFaulty source.now)) }
{
    reading_goes_on();
    let start = at as u32;
    let Some(front) = read_front(&source[at..]) else {
        return Err(LexFault::BadByte { at: start });
    };
    let full = tokens.len() == MAX_TOKENS;
    match front {
        Front::Gap { len } => Ok(at + len),
        Front::WideNumber => Err(if full {
            LexFault::TooManyTokens { at: start }
        } else {
            LexFault::WideNumber { at: start }
        }),
        Front::Token { kind, len } => {
            if full {
                return Err(LexFault::TooManyTokens { at: start });
            }
            let end = at + len;
            push(
                tokens,
                Token {
                    kind,
                    start,
                    end: end as u32,
                },
            )?;
            Ok(end)
        }
    }
}

// Puts a token at the end; want of memory is told as itself.
fn push(tokens: &mut Vec<Token>, token: Token) -> Result<(), LexFault>
    ensures ok { OnOk result (tokens.new.items ≡ tokens.old.items ++ token ∷ []) }
    ensures err { IfErr result (λ e. e ≡ NoMemory) }
{
    tokens.push(token).map_err(|_| LexFault::NoMemory)
}
