//! The states of a book's rows, and which of them may be claimed. They are kept beside the book's history, so that a claim
//! finds the least row that may be claimed without a search: rows that may be are in a set of bits in three levels, and each
//! row knows the next one of its submitter, which may be claimable once the row is placed.
#![tactic(auto)]

ghost use Rattle.ecf_rows.specs.Laws.{SaidOfBooks, PlacedInOrder};

mod links;
mod row_set;
mod rows;
mod states;
mod words;

pub use rows::Rows;

/// What is said of rows alone is what is said of a book and its opening.
pub fn said_of_books()
    ensures { SaidOfBooks }
{}

/// A row that isn't Done may be placed where all rows before it are.
pub fn placed_in_order()
    ensures { PlacedInOrder }
{}
