//! The tokens and the tree of a text.

use ecf_grammar::Token;
use ecf_lang::limits::MAX_CONTRACT_BYTES;
use ecf_lang::tree::Tree;
use ecf_lang::typed::Typed;
use ecf_lexer::{LexFault, lex};
use ecf_parser::{SyntaxFault, parse};
use ecf_typing::check;
use std::alloc::Global;
use std::test::Fail;

/// The tokens of a text, for which there is no memory where it is over its limit.
pub(crate) fn lexed(alloc: Global, text: &[u8]) -> Result<Vec<Token>, LexFault> {
    if text.len() > MAX_CONTRACT_BYTES {
        return Err(LexFault::NoMemory);
    }
    lex(alloc, text)
}

/// The tree of a text, or why its tokens have none; for a text over its limit there is no memory.
pub(crate) fn parsed(alloc: Global, text: &str) -> Result<Result<Tree, SyntaxFault>, LexFault> {
    let text = text.as_bytes();
    if text.len() > MAX_CONTRACT_BYTES {
        return Err(LexFault::NoMemory);
    }
    let tokens = lex(alloc, text)?;
    Ok(parse(alloc, text, tokens.as_slice()))
}

/// The numbered form of a text.
pub(crate) fn typed(alloc: Global, text: &str) -> Result<Typed, Fail> {
    let tree = parsed(alloc, text)??;
    Ok(check(alloc, &tree)?)
}
