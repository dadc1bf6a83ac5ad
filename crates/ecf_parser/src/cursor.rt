//! A place among the tokens of a source, and the reading of single tokens there.

ghost use Rattle.std.specs.Prelude.{◌≡◌, ◌<◌, ◌≤◌, ◌^◌, length, false, Ok, Err, OnOk, IfOk, IfErr, IsTrue, IsSome};
ghost use Rattle.ecf_grammar.specs.Lexemes.{lexemes_of, with_numbers};
ghost use Rattle.ecf_grammar.specs.Reading.{IsTokenOf};
ghost use Rattle.std.specs.List.{AllByRecursion};
ghost use Rattle.ecf_parser.specs.Parsers as spec;
ghost use Rattle.ecf_parser.specs.Parses.{Parses};

use crate::tables::{is_name, is_sign, is_word, number_in};
use ecf_grammar::{Kind, Sign, Token, Word};
use ecf_lang::name::Name;
use std::alloc::{AllocError, Global};
use std::marker::Model;

/// Why the reading of a part stops.
#[derive(Clone, Copy, Debug, PartialEq, Eq)]
pub enum ParseFault {
    /// The token at the cursor is out of place.
    OutOfPlace,
    NoMemory,
}

impl From<AllocError> for ParseFault {
    ghost use Rattle.std.specs.Prelude.{◌≡◌};
    ghost use Rattle.ecf_parser.specs.declared.cursor.ParseFault.TheVariants.{NoMemory};

    ghost from_gives = { λ _ e. e ≡ NoMemory };

    fn from(_: AllocError) -> ParseFault {
        ParseFault::NoMemory
    }
}

/// What was parsed before, with what was parsed behind it.
pub fn with<T: Drop, U: Drop>(parsed: T, next: Result<U, ParseFault>) -> Result<(T, U), ParseFault>
    ensures both { IfOk result (λ p. (p.0 ≡ parsed) × (next ≡ Ok p.1)) }
    ensures fault { IfErr result (λ fault. next ≡ Err fault) }
{
    let next = next?;
    Ok((parsed, next))
}

/// The tokens of a source from some place on, which contracts see as their numbered lexemes.
#[derive(Drop)]
pub struct Cursor<'a> {
    /// Where names, lists and boxes of the tree are kept.
    pub alloc: Global,
    source: &'a [u8],
    /// The number of the first of the tokens.
    at: u32,
    tokens: &'a [Token],
}

impl<'a> Model for Cursor<'a> {
    ghost use Rattle.ecf_grammar.specs.Lexemes.{NumberedLexemes};
    ghost use Rattle.ecf_parser.specs.CursorView.{lexemes_ahead, IsInside};

    ghost Value = { NumberedLexemes };

    ghost view = { lexemes_ahead };

    ghost invariant = { IsInside };
}

impl<'a> Cursor<'a> {
    /// The place before the first of the source's tokens.
    pub fn new(alloc: Global, source: &'a [u8], tokens: &'a [Token]) -> Cursor<'a>
        requires placed { AllByRecursion (IsTokenOf source.now) tokens.now }
        requires few { length tokens.now < 2 ^ 32 }
        ensures { result ≡ with_numbers 0 (lexemes_of source.now tokens.now) }
    {
        Cursor {
            alloc,
            source,
            at: 0,
            tokens,
        }
    }

    /// The kind of the next token.
    pub fn peek(&self) -> Option<Kind>
        ensures { result ≡ spec.next self.now }
    {
        match self.tokens {
            [first, ..] => Some(first.kind),
            [] => None,
        }
    }

    /// How many tokens are left.
    #[tactic(auto, using(crate::proofs::CursorLaws::ahead_len))]
    pub fn left(&self) -> usize
        ensures { result ≡ length self.now }
    {
        let _at = self.at;
        self.tokens.len()
    }

    /// Passes the next token, and answers its number.
    pub fn skip(&mut self) -> u32
        requires { IsSome (spec.next self.old) }
        ensures behind { self.new ≡ spec.behind self.old }
        ensures number { result ≡ spec.number_of self.old }
        ensures fewer { length self.new < length self.old }
    {
        let at = self.at;
        if let [_, rest @ ..] = self.tokens {
            self.tokens = rest;
            self.at += 1;
        }
        at
    }

    /// The bytes of the next token, where it is a name.
    fn bytes(&self) -> &'a [u8]
        ensures { IsTrue (spec.is_name (spec.next self.now)) → result.now ≡ spec.bytes_of self.now }
    {
        match self.tokens {
            [first, ..] => &self.source[first.start as usize..first.end as usize],
            [] => &[],
        }
    }

    /// Whether this sign comes next.
    pub fn sees(&self, sign: Sign) -> bool
        ensures { result ≡ spec.is_sign sign (spec.next self.now) }
    {
        is_sign(sign, self.peek())
    }

    /// Whether this word comes next.
    pub fn sees_word(&self, word: Word) -> bool
        ensures { result ≡ spec.is_word word (spec.next self.now) }
    {
        is_word(word, self.peek())
    }

    /// Parses this sign, and answers the number of its token.
    #[tactic(auto, using(crate::proofs::CursorLaws::sign_taken, crate::proofs::CursorLaws::sign_left, crate::proofs::CursorLaws::some_sign))]
    pub fn sign(&mut self, sign: Sign) -> Result<u32, ParseFault>
        ensures read { Parses (spec.sign sign self.old) result self.new }
        ensures fewer { OnOk result (length self.new < length self.old) }
    {
        if self.sees(sign) {
            Ok(self.skip())
        } else {
            Err(ParseFault::OutOfPlace)
        }
    }

    /// Parses this sign behind what was parsed before, and hands that on.
    pub fn closed<T: Drop>(&mut self, parsed: T, sign: Sign) -> Result<T, ParseFault>
        ensures read { Parses (spec.closed parsed sign self.old) result self.new }
        ensures fewer { OnOk result (length self.new < length self.old) }
    {
        self.sign(sign)?;
        Ok(parsed)
    }

    /// Parses this word, and answers the number of its token.
    #[tactic(auto, using(crate::proofs::CursorLaws::word_taken, crate::proofs::CursorLaws::word_left, crate::proofs::CursorLaws::some_word))]
    pub fn word(&mut self, word: Word) -> Result<u32, ParseFault>
        ensures read { Parses (spec.word word self.old) result self.new }
        ensures fewer { OnOk result (length self.new < length self.old) }
    {
        if self.sees_word(word) {
            Ok(self.skip())
        } else {
            Err(ParseFault::OutOfPlace)
        }
    }

    /// Parses a name, with the number of its token.
    #[tactic(auto, using(crate::proofs::CursorLaws::name_taken, crate::proofs::CursorLaws::name_left, crate::proofs::CursorLaws::some_name))]
    pub fn name(&mut self) -> Result<(u32, Name), ParseFault>
        ensures read { Parses (spec.name self.old) result self.new }
        ensures fewer { OnOk result (length self.new < length self.old) }
    {
        if !is_name(self.peek()) {
            return Err(ParseFault::OutOfPlace);
        }
        let name = Name::from_slice(self.alloc, self.bytes())?;
        Ok((self.skip(), name))
    }

    /// Parses a number, with the number of its token.
    #[tactic(auto, using(crate::proofs::CursorLaws::number_taken, crate::proofs::CursorLaws::number_left, crate::proofs::CursorLaws::some_number))]
    pub fn number(&mut self) -> Result<(u32, u128), ParseFault>
        ensures read { Parses (spec.number self.old) result self.new }
        ensures fewer { OnOk result (length self.new < length self.old) }
    {
        match number_in(self.peek()) {
            Some(value) => Ok((self.skip(), value)),
            None => Err(ParseFault::OutOfPlace),
        }
    }

    /// Takes this sign, if it comes next.
    #[tactic(auto, using(crate::proofs::CursorLaws::sign_eaten, crate::proofs::TakeLaws::leaves_sign, crate::proofs::CursorLaws::some_sign))]
    pub fn eat_sign(&mut self, sign: Sign) -> bool
        ensures read { spec.eat_sign sign self.old ≡ Ok (result, self.new) }
        ensures fewer { IsTrue result → length self.new < length self.old }
        ensures kept { result ≡ false → self.new ≡ self.old }
    {
        if self.sees(sign) {
            self.skip();
            return true;
        }
        false
    }

    /// Takes this word, if it comes next.
    #[tactic(auto, using(crate::proofs::CursorLaws::word_eaten, crate::proofs::TakeLaws::leaves_word, crate::proofs::CursorLaws::some_word))]
    pub fn eat_word(&mut self, word: Word) -> bool
        ensures read { spec.eat_word word self.old ≡ Ok (result, self.new) }
        ensures fewer { IsTrue result → length self.new < length self.old }
        ensures kept { result ≡ false → self.new ≡ self.old }
    {
        if self.sees_word(word) {
            self.skip();
            return true;
        }
        false
    }
}
