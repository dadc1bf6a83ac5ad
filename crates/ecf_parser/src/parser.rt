//! The tree of a whole file.

ghost use Rattle.std.specs.Prelude.{◌≡◌, ◌⊎◌, ◌^◌, ◌<◌, ◌≤◌, length, IfOk, IfErr, IsErrAnd, MatchResult};
ghost use Rattle.std.specs.List.{AllByRecursion};
ghost use Rattle.ecf_lang.specs.declared.tree.Tree.{Tree};
ghost use Rattle.ecf_grammar.specs.Lexemes.{lexemes_of};
ghost use Rattle.ecf_grammar.specs.Reading as reading;
ghost use Rattle.ecf_grammar.specs.Spells.{IsFileOf};
ghost use Rattle.ecf_parser.specs.FirstDeep.{IsAllShallow};
ghost use Rattle.ecf_parser.specs.SyntaxFault.{HasSyntaxFault};
ghost use Rattle.ecf_parser.specs.SyntaxFault as spec;
ghost use Rattle.ecf_parser.specs.declared.cursor.ParseFault.TheVariants.{OutOfPlace};
ghost use Rattle.ecf_parser.specs.declared.parser.SyntaxFault.{SyntaxFault};
ghost use Rattle.ecf_parser.specs.declared.parser.SyntaxFault.TheVariants.{NoMemory};

use crate::cursor::{Cursor, ParseFault};
use crate::nesting::first_too_deep;
use ecf_grammar::{Token, tokens_in_place};
use ecf_lang::tree::Tree;
use std::alloc::Global;
use thiserror::Error;

/// Why tokens are no contract file: the first token at fault, counted from 0; or want of memory.
#[derive(Clone, Copy, Debug, PartialEq, Eq, Error)]
pub enum SyntaxFault {
    /// The tokens before this one begin some file and with it none does; at none of these are more than 64 brackets open.
    /// The end of the tokens counts as a token.
    #[error("token {token} is out of place")]
    At { token: u32 },
    /// The token is the 65th open bracket, and none before it is out of place. It may be out of place itself.
    #[error("token {token} is nested too deep")]
    TooDeep { token: u32 },
    #[error("out of memory")]
    NoMemory,
}

/// The one tree that the tokens of a source spell, by the grammar in docs/language.md. Work and memory are linear in the
/// size of the source; functions call each other only as deep as brackets nest, however long a chain is.
#[tactic(auto, using(crate::proofs::AnswerLaws::front_refused, crate::proofs::AnswerLaws::front_file, crate::proofs::AnswerLaws::front_shallow, crate::proofs::AnswerLaws::front_len, crate::proofs::AnswerLaws::same_tree, crate::proofs::AnswerLaws::only_memory, crate::proofs::AnswerLaws::not_both, crate::proofs::AnswerLaws::same_fault, crate::proofs::AnswerLaws::only_deep))]
pub fn parse(alloc: Global, source: &[u8], tokens: &[Token]) -> Result<Tree, SyntaxFault>
    requires { reading.Reads source.now tokens.now }

    // An answer is right.
    ensures file { IfOk result (IsFileOf (lexemes_of source.now tokens.now)) }
    ensures refused { IfErr result (λ fault. (fault ≡ NoMemory) ⊎ HasSyntaxFault (lexemes_of source.now tokens.now) fault) }

    // What is spelled is read, and what has a fault is refused, unless memory runs out.
    ensures reads { (tree : Tree) → IsFileOf (lexemes_of source.now tokens.now) tree → MatchResult result (λ found. found ≡ tree) (λ e. e ≡ NoMemory) }
    ensures refuses { (fault : SyntaxFault) → HasSyntaxFault (lexemes_of source.now tokens.now) fault → IsErrAnd result (λ e. (e ≡ NoMemory) ⊎ (e ≡ fault)) }
{
    tokens_in_place();
    let Some(deep) = first_too_deep(tokens) else {
        return parse_shallow(alloc, source, tokens);
    };
    let token = deep as u32;
    match parse_shallow(alloc, source, &tokens[..deep]).err() {
        Some(fault) => Err(first_fault(fault, token)),
        None => Err(SyntaxFault::TooDeep { token }),
    }
}

// The first fault of tokens of which `deep` is the first nested too deep; `fault` is that of the tokens before it.
fn first_fault(fault: SyntaxFault, deep: u32) -> SyntaxFault
    ensures { result ≡ spec.first_fault fault deep }
{
    match fault {
        SyntaxFault::At { token } if token < deep => SyntaxFault::At { token },
        SyntaxFault::NoMemory => SyntaxFault::NoMemory,
        _ => SyntaxFault::TooDeep { token: deep },
    }
}

// What `parse` answers where no token is nested too deep.
#[tactic(auto, using(crate::proofs::AnswerLaws::file_read, crate::proofs::AnswerLaws::fault_found, crate::proofs::NestingLaws::lexemes_len, crate::proofs::AnswerLaws::no_more_left))]
fn parse_shallow(alloc: Global, source: &[u8], tokens: &[Token]) -> Result<Tree, SyntaxFault>
    requires placed { AllByRecursion (reading.IsTokenOf source.now) tokens.now }
    requires few { length tokens.now < 2 ^ 32 }
    requires shallow { IsAllShallow (lexemes_of source.now tokens.now) }
    ensures file { IfOk result (IsFileOf (lexemes_of source.now tokens.now)) }
    ensures refused { IfErr result (λ fault. (fault ≡ NoMemory) ⊎ HasSyntaxFault (lexemes_of source.now tokens.now) fault) }
{
    let mut cursor = Cursor::new(alloc, source, tokens);
    match cursor.file() {
        Ok(tree) => Ok(tree),
        Err(fault) => Err(fault_behind(fault, tokens.len(), cursor.left())),
    }
}

// The fault of so many tokens, where their reading stops for this one and so many are left.
fn fault_behind(fault: ParseFault, tokens: usize, left: usize) -> SyntaxFault
    requires few { tokens < 2 ^ 32 }
    requires read { fault ≡ OutOfPlace → left ≤ tokens }
    ensures { result ≡ spec.fault_behind fault tokens left }
{
    match fault {
        ParseFault::OutOfPlace => SyntaxFault::At {
            token: (tokens - left) as u32,
        },
        ParseFault::NoMemory => SyntaxFault::NoMemory,
    }
}
