//! What statements without calls do.

ghost use Rattle.std.specs.Prelude.{◌≡◌, true};
ghost use Rattle.ecf_plain.specs.Leads.{Acts, assigned, done_block, done_stmt, looped};
ghost use Rattle.ecf_plain.specs.Plain.{is_plain, is_plain_block, is_plain_stmt};

use crate::charges::{charge, put};
use crate::expressions::operand;
use crate::stopped::{Leaving, Stopped};
use ecf_lang::cell::CellRead;
use ecf_lang::costs::{STATEMENT, TURN};
use ecf_lang::typed::{Assignee, TypedBlock, TypedExpr, TypedStmt};
use ecf_progress::{OpenFrame, RunState, Segments};

/// Does a statement. Where it returns or reverts, the number of that is in `number`. One with a call in it stops at the
/// first that it comes to.
#[cycle(statements)]
pub(crate) fn run_stmt<'s, R: CellRead>(
    state: &mut RunState<'s, R>,
    frame: &OpenFrame,
    locals: &mut Segments,
    stmt: &TypedStmt,
    number: &mut u128,
) -> Result<Leaving, Stopped>
    ensures acts { is_plain_stmt stmt.now ≡ true →
        Acts frame.now (done_stmt stmt.now locals.old.top) result locals.new.top number.new state.old state.new }
    ensures below { locals.new.below ≡ locals.old.below }
{
    charge(state, frame, STATEMENT)?;
    match stmt {
        TypedStmt::Let {
            local,
            ty: _,
            value,
        } => {
            operand(state, frame, locals, value, number)?;
            locals.set(*local, *number);
            Ok(Leaving::Continues)
        }
        TypedStmt::Set { to, value } => {
            operand(state, frame, locals, value, number)?;
            assign(state, frame, locals, *to, *number)
        }
        TypedStmt::SetAt { map, key, value } => {
            let mut place = 0;
            operand(state, frame, locals, key, &mut place)?;
            operand(state, frame, locals, value, number)?;
            put(state, frame, *map, place, *number)?;
            Ok(Leaving::Continues)
        }
        TypedStmt::If { arms, last } => {
            for (cond, block) in arms.as_slice() {
                operand(state, frame, locals, cond, number)?;
                if *number != 0 {
                    return run_block(state, frame, locals, block, number);
                }
            }
            match last {
                Some(block) => run_block(state, frame, locals, block, number),
                None => Ok(Leaving::Continues),
            }
        }
        TypedStmt::While { cond, body } => repeat(state, frame, locals, body, cond, number),
        TypedStmt::Return { value } => {
            operand(state, frame, locals, value, number)?;
            Ok(Leaving::Returns)
        }
        TypedStmt::Revert { value } => {
            operand(state, frame, locals, value, number)?;
            Ok(Leaving::Reverts)
        }
        TypedStmt::Try { .. } => Err(Stopped::Call),
        TypedStmt::Do { .. } => Err(Stopped::Call),
    }
}

/// Does the statements of a block, one after the other.
#[cycle(statements)]
#[inline(always)]
fn run_block<'s, R: CellRead>(
    state: &mut RunState<'s, R>,
    frame: &OpenFrame,
    locals: &mut Segments,
    block: &TypedBlock,
    number: &mut u128,
) -> Result<Leaving, Stopped>
    ensures acts { is_plain_block block.now ≡ true →
        Acts frame.now (done_block block.now locals.old.top) result locals.new.top number.new state.old state.new }
    ensures below { locals.new.below ≡ locals.old.below }
{
    for stmt in block.stmts.as_slice() {
        match run_stmt(state, frame, locals, stmt, number)? {
            Leaving::Continues => {}
            Leaving::Returns => return Ok(Leaving::Returns),
            Leaving::Reverts => return Ok(Leaving::Reverts),
        }
    }
    Ok(Leaving::Continues)
}

/// Makes the turns of a loop, of which there are no more than there is fuel.
#[cycle(statements)]
fn repeat<'s, R: CellRead>(
    state: &mut RunState<'s, R>,
    frame: &OpenFrame,
    locals: &mut Segments,
    body: &TypedBlock,
    cond: &TypedExpr,
    number: &mut u128,
) -> Result<Leaving, Stopped>
    ensures acts { is_plain cond.now ≡ true → is_plain_block body.now ≡ true →
        Acts frame.now (looped cond.now body.now locals.old.top) result locals.new.top number.new state.old state.new }
    ensures below { locals.new.below ≡ locals.old.below }
{
    let mut turns = state.fuel();
    loop {
        operand(state, frame, locals, cond, number)?;
        if *number == 0 {
            return Ok(Leaving::Continues);
        }
        charge(state, frame, TURN)?;
        match run_block(state, frame, locals, body, number)? {
            Leaving::Continues => {}
            Leaving::Returns => return Ok(Leaving::Returns),
            Leaving::Reverts => return Ok(Leaving::Reverts),
        }
        if turns == 0 {
            state.spend();
            return Err(Stopped::OutOfFuel);
        }
        turns -= 1;
    }
}

/// Gives a local or a plain field its new number.
#[inline(always)]
fn assign<'s, R: CellRead>(
    state: &mut RunState<'s, R>,
    frame: &OpenFrame,
    locals: &mut Segments,
    to: Assignee,
    value: u128,
) -> Result<Leaving, Stopped>
    ensures acts { Acts frame.now (assigned to value locals.old.top) result locals.new.top value state.old state.new }
    ensures below { locals.new.below ≡ locals.old.below }
{
    match to {
        Assignee::Local(n) => {
            locals.set(n, value);
            Ok(Leaving::Continues)
        }
        Assignee::Plain(field) => {
            put(state, frame, field, 0, value)?;
            Ok(Leaving::Continues)
        }
    }
}
