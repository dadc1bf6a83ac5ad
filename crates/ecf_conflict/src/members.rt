//! The invocations that have steps.

ghost use Rattle.std.specs.Prelude.{◌≡◌, ◌≤◌, ◌<◌, ◌+◌, ◌==◌, true, ℕ, List, length, IfOk};
ghost use Rattle.std.specs.List.{list_any};
ghost use Rattle.ecf_graph.specs.Rows.{is_member, numbers_below};
ghost use Rattle.ecf_verdicts.specs.Traces.{members};

use crate::numbers_are_members;
use ecf_graph::{Row, list_below};
use ecf_lang::run::Step;
use std::alloc::{AllocError, Global};

/// The invocations that have steps, and a number above all of them.
fn invocations_of(alloc: Global, steps: &[Step]) -> Result<(Row, u32), AllocError>
    ensures members { IfOk result (λ r. (i : ℕ) → is_member r.0 i ≡ list_any (λ s. s.inv == i) steps.now) }
    ensures above { IfOk result (λ r. (i : ℕ) → list_any (λ s. s.inv == i) steps.now ≡ true → i < r.1) }
    ensures small { IfOk result (λ r. r.1 ≤ 65536) }
{
    let mut row = Row::new(alloc);
    let mut count: u32 = 0;
    for step in steps {
        row.insert(step.inv)?;
        let next = u32::from(step.inv) + 1;
        if next > count {
            count = next;
        }
    }
    Ok((row, count))
}

/// The invocations that have steps, rising.
pub fn members_of(alloc: Global, steps: &[Step]) -> Result<Vec<u16>, AllocError>
    ensures { IfOk result (λ v. v.items ≡ members steps.now) }
{
    numbers_are_members();
    let (row, count) = invocations_of(alloc, steps)?;
    list_below(alloc, &row, count)
}
