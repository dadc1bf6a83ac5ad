//! Which calls of an object in memory fail.
ghost use Rattle.std.specs.Prelude.{◌≡◌, ℕ, ◌≤◌, ◌<◌, ◌^◌};
ghost use Rattle.ecf_edge.specs.Count.{counted_up};
ghost use Rattle.ecf_edge.specs.Plan.{fresh_plan, next_fails, after_call};

use std::marker::Model;

/// The numbers of the calls that fail, the number of the next call, and how many have failed.
#[derive(Debug, Drop)]
pub(crate) struct FaultPlan {
    fails: Vec<u64>,
    next: u64,
    faults: u64,
}

impl Model for FaultPlan {
    ghost use Rattle.ecf_edge.specs.Plan.{Plan};

    ghost Value = { Plan };

    ghost view = { λ p. record { fails = p.fails.items; next = p.next; faults = p.faults } };
}

/// One more, or the greatest number where there is none.
pub fn count_up(count: &mut u64)
    ensures one_more { count.new ≡ counted_up count.old }
    ensures later { count.old ≤ count.new }
{
    *count = count.saturating_add(1);
}

impl FaultPlan {
    pub(crate) fn new(fails: Vec<u64>) -> Self
        ensures { result ≡ fresh_plan fails.items }
    {
        FaultPlan {
            fails,
            next: 1,
            faults: 0,
        }
    }

    pub(crate) fn faults(&self) -> u64
        ensures { result ≡ self.now.faults }
    {
        self.faults
    }

    /// Counts one call, and says whether it fails.
    pub(crate) fn call_fails(&mut self) -> bool
        ensures fails { result ≡ next_fails self.old }
        ensures after { self.new ≡ after_call self.old }
        ensures later { self.old.faults ≤ self.new.faults }
    {
        let fails = self.fails.contains(&self.next);
        count_up(&mut self.next);
        if fails {
            count_up(&mut self.faults);
        }
        fails
    }
}
