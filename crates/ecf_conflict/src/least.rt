//! The least invocation that is before another, from the steps alone.

ghost use Rattle.std.specs.Prelude.{◌≡◌, ◌==◌, ◌&&◌, ◌<◌, ◌≤◌, ◌+◌, drop, length, slice_index_or};
ghost use Rattle.std.specs.List.{list_any};
ghost use Rattle.std.specs.List.Sorted.{IsStrictlyIncreasing};
ghost use Rattle.ecf_conflict.specs.Least.{TellsLeast, begins, is_below};
ghost use Rattle.ecf_lang.specs.declared.run.Step.{Step};
ghost use Rattle.ecf_verdicts.specs.Before.{before};
ghost use Rattle.ecf_verdicts.specs.Conflicts.{conflicts, same_cell};
ghost use Rattle.ecf_verdicts.specs.Cycles.{least_before};

use ecf_lang::run::Step;

/// Whether two steps conflict.
fn is_conflict(a: &Step, b: &Step) -> bool
    ensures { result ≡ conflicts a.now b.now }
{
    let apart = a.inv != b.inv;
    let same = a.cell == b.cell;
    apart & same & (a.write | b.write)
}

/// Whether a step is of j and conflicts with another.
fn meets(step: &Step, other: &Step, j: u16) -> bool
    ensures { result ≡ ((other.now.inv == j) && conflicts step.now other.now) }
{
    other.inv == j && is_conflict(step, other)
}

/// Whether a step conflicts with one of j from a place on.
fn meets_later(step: &Step, steps: &[Step], from: usize, j: u16) -> bool
    requires { from ≤ length steps.now }
    ensures { result ≡ list_any (λ u. (u.inv == j) && conflicts step.now u) (drop from steps.now) }
{
    for k in from..steps.len() {
        if meets(step, &steps[k], j) {
            return true;
        }
    }
    false
}

/// Whether the step at a place is of i and conflicts with a later one of j.
fn begins_pair(steps: &[Step], place: usize, i: u16, j: u16) -> bool
    requires { place < length steps.now }
    ensures { (d : Step) → result ≡ begins (slice_index_or steps.now place d) (drop (place + 1) steps.now) i j }
{
    let step = &steps[place];
    step.inv == i && meets_later(step, steps, place + 1, j)
}

/// Whether i is before j.
fn is_before(steps: &[Step], i: u16, j: u16) -> bool
    ensures { result ≡ before steps.now i j }
{
    for k in 0..steps.len() {
        if begins_pair(steps, k, i, j) {
            return true;
        }
    }
    false
}

/// Whether i is below the least so far, and before j.
fn is_lower(steps: &[Step], least: Option<u16>, i: u16, j: u16) -> bool
    ensures { result ≡ (is_below least i && before steps.now i j) }
{
    match least {
        None => is_before(steps, i, j),
        Some(k) => i < k && is_before(steps, i, j),
    }
}

/// The least of a list that is before an invocation. It takes no memory: it compares steps with steps.
pub fn least_before(steps: &[Step], rest: &[u16], inv: u16) -> Option<u16>
    ensures least { TellsLeast (λ i. before steps.now i inv) rest.now result }
    ensures named { IsStrictlyIncreasing rest.now → result ≡ least_before steps.now rest.now inv }
{
    let mut least = None;
    for i in rest {
        if is_lower(steps, least, *i, inv) {
            least = Some(*i);
        }
    }
    least
}
