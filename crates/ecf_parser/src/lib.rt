//! Parses the tokens of a contract file as its tree, or finds the first that is out of place or nested too deep.
#![tactic(auto)]

mod cursor;
mod declaration;
mod expression;
mod laws;
mod nesting;
mod parser;
mod statement;
mod tables;

pub use laws::{one_answer, one_tree, some_answer};
pub use parser::{SyntaxFault, parse};
