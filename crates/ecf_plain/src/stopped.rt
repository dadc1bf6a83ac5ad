//! Why a form without calls stopped.

/// Why a form stopped without a value.
#[derive(Clone, Copy)]
pub enum Stopped {
    OutOfFuel,
    Overflow,
    DivZero,
    OutOfMemory,
    /// It has a call in it, which isn't made.
    Call,
}

/// How a statement is left.
#[derive(Clone, Copy)]
pub enum Leaving {
    /// On to the next one.
    Continues,
    /// Back from the method with an answer.
    Returns,
    /// Into a revert with a number.
    Reverts,
}
