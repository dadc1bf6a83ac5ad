//! What is read of a line.

use ecf_lang::tx::Tx;

/// What a line of a stream says.
#[derive(Debug, Drop)]
pub enum Saying {
    /// Nothing: the line is skipped.
    Nothing,
    /// A transaction.
    Asks(Tx),
    /// A control line: the watch of this number is taken out.
    TakesOut(u16),
}
