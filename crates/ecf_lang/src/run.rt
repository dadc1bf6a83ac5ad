//! What a run of a transaction did and how it ended.

use crate::cell::Cell;
use sqlite_items::Items;

/// A read or a write of a cell.
#[derive(Clone, Copy, Debug, PartialEq, Eq)]
pub struct Step {
    /// The number of the invocation that made it.
    pub inv: u16,
    pub write: bool,
    pub cell: Cell,
    /// The value that was read or written.
    pub value: u128,
}

/// An opened method: a transaction's own call, or a `call` or `try` in a method, of the own object too.
#[derive(Debug, Drop)]
pub struct Invocation {
    pub object: u8,
    /// The number of the method's name.
    pub method: u16,
    pub args: Items<u128>,
    /// What it answered, if it ran to an answer.
    pub answer: Option<u128>,
    /// What its external calls answered, in order; for a `try` 1 or 0.
    pub answers: Items<u128>,
    /// The fuel charged in it and not in invocations that it opened.
    pub own_fuel: u32,
    /// Whether a `try` undid it.
    pub undone: bool,
}

/// Why a run reverted.
#[derive(Clone, Copy, Debug, PartialEq, Eq)]
pub enum Cause {
    /// By a `revert` with this number.
    User(u128),
    /// A sum, difference or product outside 0 to 2^128 - 1.
    Overflow,
    /// A division by 0.
    DivZero,
    /// A call of a method that the object hasn't.
    NoMethod,
    /// A frame more than may be open at once.
    Depth,
    /// An invocation more than a transaction may have.
    Calls,
}

/// How a run ended.
#[derive(Clone, Copy, Debug, PartialEq, Eq)]
pub enum Outcome {
    Answer(u128),
    Reverted(Cause),
    OutOfFuel,
}

/// A whole run of a transaction.
#[derive(Debug, Drop)]
pub struct Run {
    pub outcome: Outcome,
    /// The fuel used; the whole limit where the run ran out of it.
    pub fuel: u32,
    /// The steps of the invocations that weren't undone, in order.
    pub steps: Items<Step>,
    /// All invocations, in the order of opening.
    pub invocations: Items<Invocation>,
    /// The cells read from the store with their values, in the order of first read.
    pub reads: Items<(Cell, u128)>,
    /// The written cells with their last values, rising; none unless the run answered.
    pub writes: Items<(Cell, u128)>,
}
