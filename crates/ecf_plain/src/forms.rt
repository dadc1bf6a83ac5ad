//! Does a form as a whole, if it is seen to have no call in it.

ghost use Rattle.std.specs.Prelude.{◌≡◌, MatchOption};
ghost use Rattle.ecf_plain.specs.Leads.{Acts, Does, done_stmt, valued};

use crate::expressions::value;
use crate::plain::{expr_is_plain, stmt_is_plain};
use crate::statements::run_stmt;
use crate::stopped::{Leaving, Stopped};
use ecf_lang::cell::CellRead;
use ecf_lang::typed::{TypedExpr, TypedStmt};
use ecf_progress::{OpenFrame, RunState, Segments};

/// So many parts of a form are looked at for a call. A larger form isn't looked through, which its parts may be.
const PARTS: u32 = 64;

/// Puts the value of an expression in its place, if it is seen to have no call in it; else nothing has changed.
pub fn try_value<'s, R: CellRead>(
    state: &mut RunState<'s, R>,
    frame: &OpenFrame,
    locals: &Segments,
    expr: &TypedExpr,
    out: &mut u128,
) -> Option<Result<(), Stopped>>
    ensures { MatchOption result (state.new ≡ state.old)
        (λ done. Does frame.now (valued locals.now.top expr.now) done out.new state.old state.new) }
{
    let mut parts_left = PARTS;
    if expr_is_plain(expr, &mut parts_left) {
        Some(value(state, frame, locals, expr, out))
    } else {
        None
    }
}

/// Does a statement, if it is seen to have no call in it; else nothing has changed. Where it returns or reverts, the number
/// of that is in `number`.
pub fn try_stmt<'s, R: CellRead>(
    state: &mut RunState<'s, R>,
    frame: &OpenFrame,
    locals: &mut Segments,
    stmt: &TypedStmt,
    number: &mut u128,
) -> Option<Result<Leaving, Stopped>>
    ensures acts { MatchOption result (state.new ≡ state.old)
        (λ done. Acts frame.now (done_stmt stmt.now locals.old.top) done locals.new.top number.new state.old state.new) }
    ensures locals { MatchOption result (locals.new ≡ locals.old) (λ done. locals.new.below ≡ locals.old.below) }
{
    let mut parts_left = PARTS;
    if stmt_is_plain(stmt, &mut parts_left) {
        Some(run_stmt(state, frame, locals, stmt, number))
    } else {
        None
    }
}
