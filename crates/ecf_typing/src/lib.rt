//! Finds the first fault of a contract file in names and types, or gives its numbered form.
#![tactic(auto)]

mod declaration;
mod expression;
mod file;
mod form;
mod initial;
mod least;
mod member;
mod names;
mod reference;
mod statement;

pub use file::{TypeFault, check};
