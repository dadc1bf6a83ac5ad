//! Receipts of transactions, the entries of a journal, and why a stream stopped early.

use crate::run::Cause;
use sqlite_items::Items;

/// The named order of the invocations that have steps on an object.
#[derive(Debug, Drop)]
pub struct Order {
    pub object: u8,
    pub invs: Items<u16>,
}

/// What became of a transaction, with the fuel that its run used. Only a committed one changes the store.
#[derive(Debug, Drop)]
pub enum Receipt {
    Committed {
        answer: u128,
        fuel: u32,
        /// For each object on which several invocations have steps, objects rising.
        orders: Items<Order>,
    },
    Reverted {
        cause: Cause,
        fuel: u32,
    },
    OutOfFuel {
        fuel: u32,
    },
    Vetoed {
        object: u8,
        /// The number of steps of the shortest prefix of the object's trace that isn't free.
        at: u32,
        cycle: Items<u16>,
        fuel: u32,
    },
    /// Voted down by a watch; the number is the watch's place, from 0.
    Barred {
        watch: u16,
        fuel: u32,
    },
}

/// A line of the journal: which transaction, and what became of it.
#[derive(Debug, Drop)]
pub struct Entry {
    /// The transaction's place among those read, from 0.
    pub row: u32,
    pub receipt: Receipt,
}

/// Why reading a stream stopped before its end.
#[derive(Clone, Copy, Debug, PartialEq, Eq)]
pub enum StopCause {
    /// Too few words, an empty word or a bad submitter.
    Form,
    /// No object of that name.
    Object,
    /// No such method in the object.
    Method,
    /// A fuel out of its form or range.
    Fuel,
    /// A wrong number of arguments.
    Arity,
    /// An argument out of its form or range.
    Arg,
    /// A line over its limit of bytes.
    Long,
    /// More transactions than the limit.
    Many,
    /// A stream over its limit of bytes.
    Bytes,
    /// A read failed.
    Read,
}

/// Where and why reading a stream stopped early.
#[derive(Clone, Copy, Debug, PartialEq, Eq)]
pub struct Stop {
    /// The number of the line, from 1.
    pub line: u32,
    pub cause: StopCause,
}
