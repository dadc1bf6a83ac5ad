//! Cuts the text of a contract file into its tokens, by longest match, or finds its first fault.
#![tactic(auto)]

mod front;
mod lexer;
mod spelling;

pub use ecf_grammar::{Kind, Sign, Token, Word};
pub use lexer::{LexFault, lex};
