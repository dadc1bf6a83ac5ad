//! What a text begins with.

ghost use Rattle.std.specs.Prelude.{◌≡◌, ◌≢◌, ◌≤◌, [], ◌∷◌, length, take, codes, nat_eq, slice_index, not, ◌==◌, IsTrue, MatchOption, true, false};
ghost use Rattle.std.specs.List.{prefix_len, starts_with};
ghost use Rattle.std.specs.Char.{is_ascii_digit};
ghost use Rattle.ecf_grammar.specs.declared.tokens.Sign.{Sign};
ghost use Rattle.ecf_grammar.specs.Spelling.{sign_text, is_name_start, is_name_byte, is_blank};
ghost use Rattle.ecf_lexer.specs.Front.{IsFrontOf, BeginsNothing, BeginsPair, BeginsNoPair};

use crate::spelling::{
    is_blank, is_name_byte, is_name_start, one_byte_sign, reserved_word, two_byte_sign,
};
use ecf_decimal::decimal;
use ecf_grammar::{Kind, Sign, lexemes_begin_apart, reading_goes_on};

/// The longest piece at the front of a text.
#[derive(Clone, Copy, Debug, PartialEq, Eq)]
pub enum Front {
    /// A blank, or a comment up to its LF, of so many bytes.
    Gap { len: usize },
    /// A token of so many bytes.
    Token { kind: Kind, len: usize },
    /// A number from 2^128 on.
    WideNumber,
}

/// What the text begins with; None where its first byte begins nothing, or there is none.
pub fn read_front(text: &[u8]) -> Option<Front>
    ensures { MatchOption result (BeginsNothing text.now) (IsFrontOf text.now) }
{
    lexemes_begin_apart();
    let first = *text.first()?;
    if text.starts_with(b"//") {
        Some(comment(text))
    } else if is_blank(first) {
        Some(Front::Gap { len: 1 })
    } else if is_name_start(first) {
        Some(name(text))
    } else if first.is_ascii_digit() {
        Some(number(text))
    } else {
        sign(text)
    }
}

// The comment that begins the text.
fn comment(text: &[u8]) -> Front
    requires { starts_with nat_eq text.now (codes "//") ≡ true }
    ensures { IsFrontOf text.now result }
{
    lexemes_begin_apart();
    Front::Gap {
        len: line_len(text),
    }
}

// The word or name that begins the text.
fn name(text: &[u8]) -> Front
    requires { IsTrue (is_name_start (slice_index text.now 0)) }
    ensures { IsFrontOf text.now result }
{
    lexemes_begin_apart();
    let len = name_len(text);
    let kind = match reserved_word(&text[..len]) {
        Some(word) => Kind::Word(word),
        None => Kind::Name,
    };
    Front::Token { kind, len }
}

// The number that begins the text.
fn number(text: &[u8]) -> Front
    requires { IsTrue (is_ascii_digit (slice_index text.now 0)) }
    ensures { IsFrontOf text.now result }
{
    lexemes_begin_apart();
    let len = digits_len(text);
    match decimal(&text[..len]) {
        Some(value) => Front::Token {
            kind: Kind::Number(value),
            len,
        },
        None => Front::WideNumber,
    }
}

// The sign that begins the text, where nothing else may.
fn sign(text: &[u8]) -> Option<Front>
    requires no_comment { starts_with nat_eq text.now (codes "//") ≡ false }
    requires no_blank { is_blank (slice_index text.now 0) ≡ false }
    requires no_name { is_name_start (slice_index text.now 0) ≡ false }
    requires no_digit { is_ascii_digit (slice_index text.now 0) ≡ false }
    ensures { MatchOption result (BeginsNothing text.now) (IsFrontOf text.now) }
{
    lexemes_begin_apart();
    reading_goes_on();
    match two_byte_front(text) {
        Some(sign) => Some(Front::Token {
            kind: Kind::Sign(sign),
            len: 2,
        }),
        None => {
            let sign = one_byte_sign(*text.first()?)?;
            Some(Front::Token {
                kind: Kind::Sign(sign),
                len: 1,
            })
        }
    }
}

// The sign that the first two bytes spell.
fn two_byte_front(text: &[u8]) -> Option<Sign>
    ensures { MatchOption result (BeginsNoPair text.now) (BeginsPair text.now) }
{
    match text {
        [first, second, ..] => two_byte_sign(*first, *second),
        _ => None,
    }
}

// How many bytes stand before the first LF.
fn line_len(text: &[u8]) -> usize
    ensures { result ≡ prefix_len (λ byte. not (byte == 10)) text.now }
{
    text.iter().take_while(|byte| **byte != b'\n').count()
}

// How many bytes at the front may stand in a name.
fn name_len(text: &[u8]) -> usize
    ensures { result ≡ prefix_len is_name_byte text.now }
{
    text.iter().take_while(|byte| is_name_byte(**byte)).count()
}

// How many digits stand at the front.
fn digits_len(text: &[u8]) -> usize
    ensures { result ≡ prefix_len is_ascii_digit text.now }
{
    text.iter().take_while(|byte| byte.is_ascii_digit()).count()
}
