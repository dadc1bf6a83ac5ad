//! The traces of the objects on which several invocations have steps, gathered in one pass over the steps.

ghost use Rattle.std.specs.Prelude.{◌≡◌, ◌<◌, ℕ, List, [], length, slice_index_or, IfOk, vec_len};
ghost use Rattle.ecf_judge.specs.Membership.{TracesAre};
ghost use Rattle.ecf_verdicts.specs.Traces.{trace};

use crate::membership::{Memberships, is_several};
use ecf_lang::run::Step;
use sqlite_items::Items;
use std::alloc::{AllocError, Global};

/// So many empty traces.
fn empty_traces(alloc: Global, count: usize) -> Result<Vec<Items<Step>>, AllocError>
    ensures none { IfOk result (λ v. (o : ℕ) → slice_index_or v.items o [] ≡ []) }
    ensures long { IfOk result (λ v. vec_len v ≡ count) }
{
    let mut traces = Vec::new(alloc);
    for k in 0..count {
        traces.push(Items::new(alloc))?;
    }
    Ok(traces)
}

/// For each object with several invocations its trace, and no list for an object above them all.
pub fn gather(
    alloc: Global,
    steps: &[Step],
    members: &Memberships,
) -> Result<Vec<Items<Step>>, AllocError>
    ensures { IfOk result (λ v. TracesAre steps.now members.now.table v.items) }
{
    if members.above == 0 {
        return Ok(Vec::new(alloc));
    }
    gather_several(alloc, steps, members)
}

/// The same by a pass over the steps.
fn gather_several(
    alloc: Global,
    steps: &[Step],
    members: &Memberships,
) -> Result<Vec<Items<Step>>, AllocError>
    ensures { IfOk result (λ v. TracesAre steps.now members.now.table v.items) }
{
    let mut traces = empty_traces(alloc, members.above)?;
    for step in steps {
        let at = step.cell.object as usize;
        if is_several(&members.table, at) {
            traces[at].push(*step)?;
        }
    }
    Ok(traces)
}

/// The trace at a place; none past the end.
pub fn trace_at(traces: &[Items<Step>], at: usize) -> &[Step]
    ensures { result.now ≡ slice_index_or traces.now at [] }
{
    if at < traces.len() {
        traces[at].as_slice()
    } else {
        &[]
    }
}
