//! Which words and signs bytes spell.

ghost use Rattle.std.specs.Prelude.{◌≡◌, ◌≢◌, [], ◌∷◌, MatchOption};
ghost use Rattle.ecf_grammar.specs.declared.tokens.Word.{Word};
ghost use Rattle.ecf_grammar.specs.declared.tokens.Sign.{Sign};
ghost use Rattle.ecf_grammar.specs.Spelling.{word_text, sign_text, is_name_start, is_name_byte, is_blank};

use ecf_grammar::{Sign, Word};

/// A space, tab, CR or LF.
pub fn is_blank(byte: u8) -> bool
    ensures { result ≡ is_blank byte }
{
    matches!(byte, b' ' | b'\t' | b'\r' | b'\n')
}

/// A letter or an underscore.
pub fn is_name_start(byte: u8) -> bool
    ensures { result ≡ is_name_start byte }
{
    byte.is_ascii_alphabetic() || byte == b'_'
}

/// A letter, a digit or an underscore.
pub fn is_name_byte(byte: u8) -> bool
    ensures { result ≡ is_name_byte byte }
{
    byte.is_ascii_alphanumeric() || byte == b'_'
}

/// The word that a name would be, if it is reserved.
pub fn reserved_word(name: &[u8]) -> Option<Word>
    ensures { MatchOption result ((w : Word) → name.now ≢ word_text w) (λ w. name.now ≡ word_text w) }
{
    match name {
        b"object" => Some(Word::Object),
        b"num" => Some(Word::Num),
        b"flag" => Some(Word::Flag),
        b"addr" => Some(Word::Addr),
        b"map" => Some(Word::Map),
        b"method" => Some(Word::Method),
        b"let" => Some(Word::Let),
        b"if" => Some(Word::If),
        b"else" => Some(Word::Else),
        b"while" => Some(Word::While),
        b"return" => Some(Word::Return),
        b"revert" => Some(Word::Revert),
        b"call" => Some(Word::Call),
        b"self" => Some(Word::SelfWord),
        b"here" => Some(Word::Here),
        b"true" => Some(Word::True),
        b"false" => Some(Word::False),
        b"try" => Some(Word::Try),
        _ => None,
    }
}

/// The sign that two bytes spell.
pub fn two_byte_sign(first: u8, second: u8) -> Option<Sign>
    ensures { MatchOption result ((s : Sign) → sign_text s ≢ first ∷ second ∷ []) (λ s. sign_text s ≡ first ∷ second ∷ []) }
{
    match (first, second) {
        (b'=', b'=') => Some(Sign::Equal),
        (b'!', b'=') => Some(Sign::NotEqual),
        (b'<', b'=') => Some(Sign::LessEqual),
        (b'>', b'=') => Some(Sign::GreaterEqual),
        (b'&', b'&') => Some(Sign::And),
        (b'|', b'|') => Some(Sign::Or),
        (b'-', b'>') => Some(Sign::Arrow),
        _ => None,
    }
}

/// The sign that a byte spells.
pub fn one_byte_sign(byte: u8) -> Option<Sign>
    ensures { MatchOption result ((s : Sign) → sign_text s ≢ byte ∷ []) (λ s. sign_text s ≡ byte ∷ []) }
{
    match byte {
        b'{' => Some(Sign::OpenBrace),
        b'}' => Some(Sign::CloseBrace),
        b'(' => Some(Sign::OpenParen),
        b')' => Some(Sign::CloseParen),
        b'[' => Some(Sign::OpenBracket),
        b']' => Some(Sign::CloseBracket),
        b':' => Some(Sign::Colon),
        b';' => Some(Sign::Semicolon),
        b',' => Some(Sign::Comma),
        b'.' => Some(Sign::Dot),
        b'=' => Some(Sign::Assign),
        b'<' => Some(Sign::Less),
        b'>' => Some(Sign::Greater),
        b'+' => Some(Sign::Plus),
        b'-' => Some(Sign::Minus),
        b'*' => Some(Sign::Star),
        b'/' => Some(Sign::Slash),
        b'%' => Some(Sign::Percent),
        b'!' => Some(Sign::Not),
        _ => None,
    }
}
