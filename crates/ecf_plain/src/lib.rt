//! Evaluates expressions and does statements that have no call in them, by recursion on their form.
#![tactic(auto)]

mod charges;
mod expressions;
mod forms;
mod plain;
mod statements;
mod stopped;

pub use forms::{try_stmt, try_value};
pub use stopped::{Leaving, Stopped};
