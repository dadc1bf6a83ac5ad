//! Texts of contracts against their tokens, and against their first fault.

use crate::texts::lexed;
use ecf_grammar::Token;
use ecf_lexer::LexFault;
use std::alloc::{AllocError, Global};
use std::test::Fail;

/// The kind and place of each token.
fn shown(alloc: Global, tokens: &[Token]) -> Result<String, AllocError> {
    let mut text = String::new(alloc);
    for token in tokens {
        write!(text, "{:?} {}..{}; ", token.kind, token.start, token.end)?;
    }
    Ok(text)
}

/// The kind of each token.
fn shown_kinds(alloc: Global, tokens: &[Token]) -> Result<String, AllocError> {
    let mut text = String::new(alloc);
    for token in tokens {
        write!(text, "{:?} ", token.kind)?;
    }
    Ok(text)
}

fn tokens_of(alloc: Global, text: &str) -> Result<String, Fail> {
    Ok(shown(alloc, lexed(alloc, text.as_bytes())?.as_slice())?)
}

fn kinds_of(alloc: Global, text: &str) -> Result<String, Fail> {
    Ok(shown_kinds(alloc, lexed(alloc, text.as_bytes())?.as_slice())?)
}

#[test]
fn texts_have_these_tokens(rt: HostRuntime) -> Result<(), Fail> {
    for (text, want) in [
        ("", ""),
        (" \t\r\n", ""),
        ("// no LF", ""),
        ("//", ""),
        ("///", ""),
        ("a//b\nc", "Name 0..1; Name 5..6; "),
        ("// \u{e9}&\n;", "Sign(Semicolon) 7..8; "),
        ("a\r\nb\tc", "Name 0..1; Name 3..4; Name 5..6; "),
        ("a-b", "Name 0..1; Sign(Minus) 1..2; Name 2..3; "),
        ("a->b", "Name 0..1; Sign(Arrow) 1..3; Name 3..4; "),
        ("!==", "Sign(NotEqual) 0..2; Sign(Assign) 2..3; "),
        ("<==", "Sign(LessEqual) 0..2; Sign(Assign) 2..3; "),
        ("< =", "Sign(Less) 0..1; Sign(Assign) 2..3; "),
        ("->>=", "Sign(Arrow) 0..2; Sign(GreaterEqual) 2..4; "),
        ("/ /", "Sign(Slash) 0..1; Sign(Slash) 2..3; "),
        ("a/b", "Name 0..1; Sign(Slash) 1..2; Name 2..3; "),
        ("12ab", "Number(12) 0..2; Name 2..4; "),
        ("a12", "Name 0..3; "),
        ("0007", "Number(7) 0..4; "),
        (
            "if If iff _if",
            "Word(If) 0..2; Name 3..5; Name 6..9; Name 10..13; ",
        ),
        (
            "340282366920938463463374607431768211455",
            "Number(340282366920938463463374607431768211455) 0..39; ",
        ),
        (
            "0340282366920938463463374607431768211455",
            "Number(340282366920938463463374607431768211455) 0..40; ",
        ),
        (
            "try&&try",
            "Word(Try) 0..3; Sign(And) 3..5; Word(Try) 5..8; ",
        ),
    ] {
        let tokens = tokens_of(rt.alloc(), text)?;
        assert_eq!(rt; tokens.as_str(), want);
    }
    Ok(())
}

#[test]
fn each_word_and_sign_is_read(rt: HostRuntime) -> Result<(), Fail> {
    for (text, want) in [
        (
            "object num flag addr map method let if else while return revert call self here true false try",
            "Word(Object) Word(Num) Word(Flag) Word(Addr) Word(Map) Word(Method) Word(Let) Word(If) Word(Else) \
             Word(While) Word(Return) Word(Revert) Word(Call) Word(SelfWord) Word(Here) Word(True) Word(False) Word(Try) ",
        ),
        (
            "{ } ( ) [ ] : ; , . = == != < <= > >= + - * / % && || ! ->",
            "Sign(OpenBrace) Sign(CloseBrace) Sign(OpenParen) Sign(CloseParen) Sign(OpenBracket) Sign(CloseBracket) \
             Sign(Colon) Sign(Semicolon) Sign(Comma) Sign(Dot) Sign(Assign) Sign(Equal) Sign(NotEqual) Sign(Less) \
             Sign(LessEqual) Sign(Greater) Sign(GreaterEqual) Sign(Plus) Sign(Minus) Sign(Star) Sign(Slash) \
             Sign(Percent) Sign(And) Sign(Or) Sign(Not) Sign(Arrow) ",
        ),
    ] {
        let kinds = kinds_of(rt.alloc(), text)?;
        assert_eq!(rt; kinds.as_str(), want);
    }
    Ok(())
}

/// The fault of a text behind so many semicolons.
fn fault_of(alloc: Global, semicolons: usize, text: &str) -> Result<Option<LexFault>, AllocError> {
    let mut source = vec![in alloc; b';'; semicolons]?;
    source.extend_from_slice(text.as_bytes())?;
    Ok(lexed(alloc, source.as_slice()).err())
}

fn told_fault(alloc: Global, semicolons: usize, text: &str) -> Result<String, AllocError> {
    match fault_of(alloc, semicolons, text)? {
        Some(fault) => format!(in alloc; "{fault:?}"),
        None => String::from_str(alloc, "none"),
    }
}

#[test]
fn the_first_fault_is_answered(rt: HostRuntime) -> Result<(), Fail> {
    for (semicolons, text, want) in [
        (0, "object A { num x = $1; }", "BadByte { at: 19 }"),
        (
            0,
            "object A { num x = 340282366920938463463374607431768211456; }",
            "WideNumber { at: 19 }",
        ),
        (
            0,
            "00340282366920938463463374607431768211456",
            "WideNumber { at: 0 }",
        ),
        (
            0,
            "9999999999999999999999999999999999999999",
            "WideNumber { at: 0 }",
        ),
        (0, "&", "BadByte { at: 0 }"),
        (0, "&&&", "BadByte { at: 2 }"),
        (0, "& &", "BadByte { at: 0 }"),
        (0, "a|b", "BadByte { at: 1 }"),
        (0, "|||", "BadByte { at: 2 }"),
        (0, "// &\n&", "BadByte { at: 5 }"),
        (0, "a\u{e9}", "BadByte { at: 1 }"),
        (0, "\0", "BadByte { at: 0 }"),
        (0, " \u{b}", "BadByte { at: 1 }"),
        (0, "\"a\"", "BadByte { at: 0 }"),
        (
            0,
            "# 340282366920938463463374607431768211456",
            "BadByte { at: 0 }",
        ),
        (200_000, "", "none"),
        (200_000, " // ;\n", "none"),
        (200_000, " ;", "TooManyTokens { at: 200001 }"),
        (200_000, "; &", "TooManyTokens { at: 200000 }"),
        (
            200_000,
            "340282366920938463463374607431768211456",
            "TooManyTokens { at: 200000 }",
        ),
        (200_000, "&", "BadByte { at: 200000 }"),
        (
            199_999,
            "340282366920938463463374607431768211456",
            "WideNumber { at: 199999 }",
        ),
        (199_999, "340282366920938463463374607431768211455", "none"),
    ] {
        let fault = told_fault(rt.alloc(), semicolons, text)?;
        assert_eq!(rt; fault.as_str(), want);
    }
    Ok(())
}
