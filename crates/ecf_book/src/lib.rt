//! The commit book over versions of a store that share their pages: it gives out rows to be run, takes in what came of
//! them, and keeps journal, store and history. It is told with pictures in docs/book.md.
#![tactic(auto)]

mod book;
mod claims;
mod commits;
mod ends;
mod replies;
mod setup;
mod steps;

pub use book::Book;
pub use replies::{Claim, Commit, Here, Release};
pub use setup::Setup;
