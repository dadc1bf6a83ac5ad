//! The grammar of contract files: tokens, what it means that a text reads as a list of them, and that they spell a tree.
#![tactic(auto)]

mod laws;
mod tokens;

pub use laws::{
    lexemes_begin_apart, one_fault, one_reading, read_or_refused, reading_goes_on, tokens_in_place,
};
pub use tokens::{Kind, Sign, Token, Word};
