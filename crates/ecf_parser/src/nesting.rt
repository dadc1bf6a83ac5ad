//! How deep the brackets of tokens are nested.

ghost use Rattle.std.specs.Prelude.{◌≡◌, ℕ, List, [], IfSome, IfNone};
ghost use Rattle.ecf_grammar.specs.Lexemes.{lexeme, lexemes_of};
ghost use Rattle.ecf_grammar.specs.Nesting as spec;
ghost use Rattle.ecf_parser.specs.FirstDeep.{IsFirstDeep, IsAllShallow};

use ecf_grammar::{Kind, Sign, Token};
use ecf_lang::limits::MAX_NESTING;

fn is_opening(kind: Kind) -> bool
    ensures { result ≡ spec.is_opening (lexeme kind []) }
{
    matches!(
        kind,
        Kind::Sign(Sign::OpenBrace) | Kind::Sign(Sign::OpenParen) | Kind::Sign(Sign::OpenBracket)
    )
}

fn is_closing(kind: Kind) -> bool
    ensures { result ≡ spec.is_closing (lexeme kind []) }
{
    matches!(
        kind,
        Kind::Sign(Sign::CloseBrace) | Kind::Sign(Sign::CloseParen) | Kind::Sign(Sign::CloseBracket)
    )
}

/// The number of the first token that is nested too deep, if there is one.
pub fn first_too_deep(tokens: &[Token]) -> Option<usize>
    ensures some { IfSome result (λ deep. (source : List ℕ) → IsFirstDeep (lexemes_of source tokens.now) deep) }
    ensures none { IfNone result ((source : List ℕ) → IsAllShallow (lexemes_of source tokens.now)) }
{
    let mut opened: usize = 0;
    let mut closed: usize = 0;
    for (at, token) in tokens.iter().enumerate() {
        if is_opening(token.kind) {
            opened += 1;
        }
        if opened.saturating_sub(closed) > MAX_NESTING {
            return Some(at);
        }
        if is_closing(token.kind) {
            closed += 1;
        }
    }
    None
}
