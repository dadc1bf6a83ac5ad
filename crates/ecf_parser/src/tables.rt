//! Which kinds of token are which signs, words and operators.

ghost use Rattle.std.specs.Prelude.{◌≡◌};
ghost use Rattle.ecf_parser.specs.Parsers as spec;
ghost use Rattle.ecf_grammar.specs.Spells as grammar;

use ecf_grammar::{Kind, Sign, Word};
use ecf_lang::tree::Op;

/// Whether the token is this sign.
#[tactic(auto, unfolding(crate::specs::Parsers::is_sign))]
pub fn is_sign(sign: Sign, next: Option<Kind>) -> bool
    ensures { result ≡ spec.is_sign sign next }
{
    match next {
        Some(Kind::Sign(found)) => found == sign,
        _ => false,
    }
}

/// Whether the token is this word.
#[tactic(auto, unfolding(crate::specs::Parsers::is_word))]
pub fn is_word(word: Word, next: Option<Kind>) -> bool
    ensures { result ≡ spec.is_word word next }
{
    match next {
        Some(Kind::Word(found)) => found == word,
        _ => false,
    }
}

/// Whether the token is a name.
#[tactic(auto, unfolding(crate::specs::Parsers::is_name))]
pub fn is_name(next: Option<Kind>) -> bool
    ensures { result ≡ spec.is_name next }
{
    matches!(next, Some(Kind::Name))
}

/// The value of a number.
#[tactic(auto, unfolding(crate::specs::Parsers::number_in))]
pub fn number_in(next: Option<Kind>) -> Option<u128>
    ensures { result ≡ spec.number_in next }
{
    match next {
        Some(Kind::Number(value)) => Some(value),
        _ => None,
    }
}

/// The operator that compares, if the token is one.
pub fn comparison_op(next: Option<Kind>) -> Option<Op>
    ensures { result ≡ spec.op_at grammar.comparison_op next }
{
    match next {
        Some(Kind::Sign(Sign::Equal)) => Some(Op::Eq),
        Some(Kind::Sign(Sign::NotEqual)) => Some(Op::Ne),
        Some(Kind::Sign(Sign::Less)) => Some(Op::Lt),
        Some(Kind::Sign(Sign::LessEqual)) => Some(Op::Le),
        Some(Kind::Sign(Sign::Greater)) => Some(Op::Gt),
        Some(Kind::Sign(Sign::GreaterEqual)) => Some(Op::Ge),
        _ => None,
    }
}

/// The operator between terms, if the token is one.
pub fn sum_op(next: Option<Kind>) -> Option<Op>
    ensures { result ≡ spec.op_at grammar.sum_op next }
{
    match next {
        Some(Kind::Sign(Sign::Plus)) => Some(Op::Add),
        Some(Kind::Sign(Sign::Minus)) => Some(Op::Sub),
        _ => None,
    }
}

/// The operator between factors, if the token is one.
pub fn product_op(next: Option<Kind>) -> Option<Op>
    ensures { result ≡ spec.op_at grammar.product_op next }
{
    match next {
        Some(Kind::Sign(Sign::Star)) => Some(Op::Mul),
        Some(Kind::Sign(Sign::Slash)) => Some(Op::Div),
        Some(Kind::Sign(Sign::Percent)) => Some(Op::Rem),
        _ => None,
    }
}
