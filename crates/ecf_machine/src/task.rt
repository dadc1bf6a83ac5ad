//! What waits in the machine, and what comes next.

use ecf_lang::run::{Cause, Outcome};
use ecf_lang::tree::Op;
use ecf_lang::tx::TxCall;
use ecf_lang::typed::{Assignee, TypedBlock, TypedExpr, TypedStmt};
use ecf_progress::OpenFrame;

/// What is called, its method by the number of the name.
#[derive(Clone, Copy)]
pub(crate) enum Callee {
    /// A method of the own object.
    Internal(u16),
    /// An object's method.
    External(u128, u16),
    /// The same under a try.
    Attempt(u128, u16),
}

/// What waits for a value. The end of a statement is given as 0, which is also what a method answers that runs to its
/// end.
#[derive(Drop)]
pub(crate) enum Task<'a> {
    /// Waits for the first part of a sum or product; these are the further ones.
    First(&'a [(Op, TypedExpr)]),
    /// Waits for a further part, of which it has the total so far, the operator, and the parts after it.
    Further(u128, Op, &'a [(Op, TypedExpr)]),
    /// Waits for the key of a map.
    Index(u8),
    Not,
    /// Waits for the left of a comparison, and has the right.
    Left(Op, &'a TypedExpr),
    /// Waits for the right of a comparison, and has the left's value.
    Right(u128, Op),
    /// Waits for a part of an `&&`, and has those after it.
    And(&'a [TypedExpr]),
    /// The same of an `||`.
    Or(&'a [TypedExpr]),
    /// Waits for a call's target; has whether it is under a try, the method's name, the arguments.
    Target(bool, u16, &'a [TypedExpr]),
    /// Waits for an argument of a call, and has those after it.
    Argument(Callee, &'a [TypedExpr]),
    /// Waits for the value of a new local.
    Let(u8),
    /// Waits for the value that a local or a plain field takes.
    Assign(Assignee),
    /// Waits for the key of a map, to which this value is assigned.
    Key(u8, &'a TypedExpr),
    /// Waits for the value that a map takes at a key.
    Put(u8, u128),
    /// Waits for the condition of a block; these are the arms and the last block after it.
    Choose(&'a TypedBlock, &'a [(TypedExpr, TypedBlock)], &'a Option<TypedBlock>),
    /// Waits for a loop's condition; so many turns may follow this one.
    Test(u32, &'a TypedExpr, &'a TypedBlock),
    /// Waits for the end of a loop's body.
    Again(u32, &'a TypedExpr, &'a TypedBlock),
    /// Waits for the method's answer.
    Return,
    /// Waits for the number of a `revert`.
    Revert,
    /// Waits for the value of a call that is made for its effects.
    Ignore,
    /// Waits for the end of a statement; these come next.
    Next(&'a [TypedStmt]),
    /// Waits for a method's answer, which its invocation notes.
    Answered,
    /// Waits for what a call answered, which the caller's invocation notes.
    Heard,
    /// Waits for a method's answer, to go back to the caller's frame.
    Leave(OpenFrame),
    /// The same under a try.
    Caught(OpenFrame),
    /// Waits for the answer of a transaction's call; these come next.
    Calls(&'a [TxCall]),
}

/// What the machine does next.
#[derive(Drop)]
pub(crate) enum Doing<'a> {
    Body(&'a [TypedStmt]),
    Eval(&'a TypedExpr),
    /// Gives a value to the topmost task.
    Give(u128),
    /// Leaves the method with its answer.
    Back(u128),
    /// Reverts, up to the innermost try.
    Stop(Cause),
    Over(Outcome),
}
