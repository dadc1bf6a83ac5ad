//! The verdict on the steps of a run.

ghost use Rattle.std.specs.Prelude.{◌≡◌, ◌≤◌, length, IfOk};
ghost use Rattle.ecf_judge.specs.Judged.{verdict_of};
ghost use Rattle.ecf_online.specs.declared.limits.TheConstants.{MAX_STEPS};
ghost use Rattle.ecf_verdicts.specs.Verdicts.{verdict};

use crate::membership::{is_of_one, is_several, memberships_of};
use crate::object::judge_object;
use crate::traces::{gather, trace_at};
use ecf_conflict::numbers_are_members;
use ecf_lang::receipt::Order;
use ecf_lang::run::Step;
use ecf_verdicts::{members_are, single_free, test_tells_free};
use sqlite_items::Items;
use std::alloc::{AllocError, Global};

/// What is decided on the steps of a run that answered.
#[derive(Debug, Drop)]
pub enum Verdict {
    /// The trace of each object is free. For each object on which several invocations have steps its named order, objects
    /// rising.
    Approved(Items<Order>),
    /// The object of least number whose trace isn't free.
    Vetoed {
        object: u8,
        /// The number of steps of the shortest prefix of the object's trace that isn't free.
        at: u32,
        /// Invocations each of which is before the next, and the last before the first; the least comes first.
        cycle: Items<u16>,
    },
}

/// The verdict on the steps of a run, as `docs/verdicts.md` defines it. Only memory can be wanting, and a run of one
/// invocation asks for none: it costs a look at each step. Else one pass over the steps finds the objects on which several
/// invocations have steps, and only their traces are looked at further.
pub fn judge(alloc: Global, steps: &[Step]) -> Result<Verdict, AllocError>
    requires { length steps.now ≤ MAX_STEPS }
    ensures { IfOk result (λ v. verdict_of v ≡ verdict steps.now) }
{
    members_are();
    single_free();
    test_tells_free();
    if is_of_one(steps) {
        return Ok(Verdict::Approved(Items::new(alloc)));
    }
    judge_objects(alloc, steps)
}

/// The verdict, by a look at each object.
fn judge_objects(alloc: Global, steps: &[Step]) -> Result<Verdict, AllocError>
    requires { length steps.now ≤ MAX_STEPS }
    ensures { IfOk result (λ v. verdict_of v ≡ verdict steps.now) }
{
    numbers_are_members();
    members_are();
    single_free();
    test_tells_free();
    let members = memberships_of(steps);
    let traces = gather(alloc, steps, &members)?;
    let mut orders = Items::new(alloc);
    for object in 0..members.above {
        if is_several(&members.table, object) {
            let trace = trace_at(traces.as_slice(), object);
            if let Some(veto) = judge_object(alloc, object as u8, trace, &mut orders)? {
                return Ok(veto);
            }
        }
    }
    Ok(Verdict::Approved(orders))
}
