//! One object judged by a monitor that is fed its trace.

ghost use Rattle.std.specs.Prelude.{◌≡◌, ◌≤◌, length, IfOk};
ghost use Rattle.ecf_graph.specs.Ordered.{IsOrdered};
ghost use Rattle.ecf_graph.specs.Placement.{Placement};
ghost use Rattle.ecf_judge.specs.Judged.{JudgesObject};
ghost use Rattle.ecf_online.specs.declared.limits.TheConstants.{MAX_STEPS};

use crate::cycle::cycle_in;
use crate::verdict::Verdict;
use ecf_graph::Ordered;
use ecf_lang::receipt::Order;
use ecf_lang::run::Step;
use ecf_online::Monitor;
use ecf_precedence::placing_is_placement;
use sqlite_items::Items;
use std::alloc::{AllocError, Global};

/// The members that are placed.
fn placed_of(ordered: Ordered) -> Vec<u16>
    ensures { (p : Placement) → IsOrdered ordered p → result.items ≡ p.order }
{
    match ordered {
        Ordered::All(order) => order,
        Ordered::Stuck { placed, .. } => placed,
    }
}

/// The members that can't be placed.
fn rest_of(alloc: Global, ordered: Ordered) -> Vec<u16>
    ensures { (p : Placement) → IsOrdered ordered p → result.items ≡ p.rest }
{
    match ordered {
        Ordered::All(_) => Vec::new(alloc),
        Ordered::Stuck { rest, .. } => rest,
    }
}

/// Judges the trace of an object: a veto, or its named order joins the orders.
pub fn judge_object(
    alloc: Global,
    object: u8,
    trace: &[Step],
    orders: &mut Items<Order>,
) -> Result<Option<Verdict>, AllocError>
    requires { length trace.now ≤ MAX_STEPS }
    ensures { IfOk result (λ veto. JudgesObject object trace.now orders.old orders.new veto) }
{
    placing_is_placement();
    let mut monitor = Monitor::new(alloc);
    let first = monitor.feed(trace)?;
    let ordered = monitor.order(alloc)?;
    match first {
        Some(at) => {
            let rest = rest_of(alloc, ordered);
            let cycle = cycle_in(alloc, trace, rest.as_slice())?;
            Ok(Some(Verdict::Vetoed {
                object,
                at,
                cycle: Items::from_vec(cycle),
            }))
        }
        None => {
            let invs = Items::from_vec(placed_of(ordered));
            orders.push(Order { object, invs })?;
            Ok(None)
        }
    }
}
