//! What a book is opened with.

use ecf_lang::tx::Tx;
use ecf_lang::typed::Typed;
use std::collections::LinkedList;

/// What a book is opened with. Contracts alone see it; no value of it is made.
pub struct Setup {
    pub typed: Typed,
    /// The transactions of its rows, in order.
    pub txs: LinkedList<Tx>,
}
