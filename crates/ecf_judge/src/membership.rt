//! On which objects several invocations have steps, told by one pass over the steps.

ghost use Rattle.std.specs.Prelude.{◌≡◌, ◌==◌, ◌≤◌, ◌<◌, ℕ, true, false, length, slice_index_or};
ghost use Rattle.std.specs.List.{list_all};
ghost use Rattle.ecf_judge.specs.Membership.{are_of_one, membership, with_member};
ghost use Rattle.ecf_judge.specs.declared.membership.Membership.TheVariants.{Nobody, Several};
ghost use Rattle.ecf_lang.specs.declared.limits.TheConstants.{MAX_OBJECTS};
ghost use Rattle.ecf_lang.specs.declared.run.Step.{Step};
ghost use Rattle.ecf_verdicts.specs.Traces.{trace};

use ecf_lang::limits::MAX_OBJECTS;
use ecf_lang::run::Step;

/// Which invocations have steps on an object, as far as a judge has to know.
#[derive(Clone, Copy)]
pub enum Membership {
    Nobody,
    Only(u16),
    Several,
}

/// Who has steps on each object.
#[derive(Drop)]
pub struct Memberships {
    /// For each object.
    pub table: [Membership; MAX_OBJECTS],
    /// A number above the objects on which several have steps.
    pub above: usize,
    ghost long: { length table ≡ MAX_OBJECTS },
    ghost several_below: { (o : ℕ) → slice_index_or table o Nobody ≡ Several → o < above },
    ghost few: { above ≤ MAX_OBJECTS },
}

/// Whether all steps are of an invocation.
fn all_of(steps: &[Step], inv: u16) -> bool
    ensures { result ≡ list_all (λ (s : Step). s.inv == inv) steps.now }
{
    for step in steps {
        if step.inv != inv {
            return false;
        }
    }
    true
}

/// Whether no two steps are of different invocations.
pub fn is_of_one(steps: &[Step]) -> bool
    ensures { result ≡ are_of_one steps.now }
{
    match steps {
        [] => true,
        [first, rest @ ..] => all_of(rest, first.inv),
    }
}

/// Whether a step more of an invocation tells nothing new.
fn is_known(members: Membership, inv: u16) -> bool
    ensures { result ≡ true → with_member members inv ≡ members }
{
    match members {
        Membership::Nobody => false,
        Membership::Only(first) => first == inv,
        Membership::Several => true,
    }
}

/// A number above the object too, where it has several.
fn above_with(above: usize, members: Membership, object: usize) -> usize
    requires { object < MAX_OBJECTS }
    ensures longer { above ≤ result }
    ensures several { members ≡ Membership.Several → object < result }
    ensures few { above ≤ MAX_OBJECTS → result ≤ MAX_OBJECTS }
{
    match members {
        Membership::Nobody => above,
        Membership::Only(_) => above,
        Membership::Several => above.max(object + 1),
    }
}

/// With one step more of an invocation.
fn with_step(members: Membership, inv: u16) -> Membership
    ensures { result ≡ with_member members inv }
{
    match members {
        Membership::Nobody => Membership::Only(inv),
        Membership::Only(first) => {
            if first == inv {
                members
            } else {
                Membership::Several
            }
        }
        Membership::Several => Membership::Several,
    }
}

/// For each object who has steps on it, and a number above the objects on which several have. A step that tells nothing
/// new costs a look.
pub fn memberships_of(steps: &[Step]) -> Memberships
    ensures { (o : ℕ) → slice_index_or result.table o Membership.Nobody ≡ membership (trace steps.now o) }
{
    let mut table = [Membership::Nobody; MAX_OBJECTS];
    let mut above = 0;
    for step in steps {
        let object = step.cell.object as usize;
        let members = table[object];
        if !is_known(members, step.inv) {
            let more = with_step(members, step.inv);
            table[object] = more;
            above = above_with(above, more, object);
        }
    }
    Memberships { table, above }
}

/// Whether several invocations have steps on an object.
pub fn is_several(table: &[Membership], object: usize) -> bool
    ensures yes { result ≡ true → slice_index_or table.now object Membership.Nobody ≡ Membership.Several }
    ensures no { result ≡ false → slice_index_or table.now object Membership.Nobody ≡ Membership.Several → ⊥ }
{
    if object < table.len() {
        matches!(table[object], Membership::Several)
    } else {
        false
    }
}
