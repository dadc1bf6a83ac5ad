//! Schedules of the commit book worked out line by line, and watches at work: each function is a case, proved by
//! computation, and does nothing.
#![tactic(auto)]

ghost use Rattle.ecf_core_cases.specs.Schedules.{Goes};
ghost use Rattle.ecf_core_cases.specs.CameBack.{value_came_back};
ghost use Rattle.ecf_core_cases.specs.FourLost.{four_claims_lost};
ghost use Rattle.ecf_core_cases.specs.GivenBack.{given_back};
ghost use Rattle.ecf_core_cases.specs.Overtaken.{overtaken_once};
ghost use Rattle.ecf_core_cases.specs.TakenInOrder.{taken_in_order};
ghost use Rattle.ecf_core_cases.specs.ThreeTimes.{stale_three_times};
ghost use Rattle.ecf_core_cases.specs.TwoSeats.{TwoSeats};
ghost use Rattle.ecf_core_cases.specs.Watching.{CappedAtTwo, FrozenAfterOne, FrozenTells, LetOnAfterThree};

/// Two claims; the second commits first, so the first is stale once, and is then placed.
pub fn overtaken_once()
    ensures { Goes overtaken_once }
{}

/// A value that changed and came back between a run and its commit: the commit isn't stale.
pub fn value_came_back()
    ensures { Goes value_came_back }
{}

/// Three stale commits, so that the row is run here; and a lost claim, whose row is placed when all work ends.
pub fn stale_three_times()
    ensures { Goes stale_three_times }
{}

/// A row that is handed on, taken back by all, given back and claimed again.
pub fn given_back()
    ensures { Goes given_back }
{}

/// Two drafts that are handed on are taken in their order.
pub fn taken_in_order()
    ensures { Goes taken_in_order }
{}

/// A row that is claimed, lost and taken back four times is claimed no more, and is placed when all work ends.
pub fn four_claims_lost()
    ensures { Goes four_claims_lost }
{}

/// A cap lets two bumps through and bars the third.
pub fn capped_at_two()
    ensures { CappedAtTwo }
{}

/// A freeze bars the second bump, which the watch after it isn't shown.
pub fn frozen_after_one()
    ensures { FrozenAfterOne }
{}

/// What watches tell.
pub fn frozen_tells()
    ensures { FrozenTells }
{}

/// A watch that was taken out sees nothing later.
pub fn let_on_after_three()
    ensures { LetOnAfterThree }
{}

/// Two seats that claim and commit, and are joined.
pub fn two_seats()
    ensures { TwoSeats }
{}
