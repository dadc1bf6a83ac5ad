//! What a seat knows, the rule that all seats keep, and what each step tells.
use crate::history::History;
use atomic_table::{Join, Play, Split, TableRule};
use std::collections::LinkedList;
use std::snapshot::Snapshot;

/// How far a seat is with its turn.
pub enum Phase {
    /// It has no ticket.
    Idle,
    /// It has a ticket that isn't served yet.
    Waiting,
    /// Its ticket is served, and it has the value.
    Served,
}

/// What a seat knows. Contracts alone see it; no value of it is made.
pub struct View<O, E> {
    /// What the value began with; not known to a seat that was joined to another.
    pub opening: Option<O>,
    /// How far it is with its turn.
    pub phase: Phase,
    /// The ticket that it drew last.
    pub ticket: u64,
    /// The first part of the history, as far as it has seen it.
    pub seen: LinkedList<E>,
    /// A first part that another seat saw, not yet compared with `seen`.
    pub told: LinkedList<E>,
    /// The entries of its own calls, each with its place in the history.
    pub mine: LinkedList<(u64, E)>,
}

/// A thread's part in one turnstile. It has no bytes, and comes from `Turnstile::new` or from another seat.
pub type Seat<B> = atomic_table::Seat<
    Option<B>,
    View<<B as History>::Opening, <B as History>::Entry>,
>;

/// The rule: tickets are served in order, and the first word counts the entries of the value's history.
pub struct TurnRule;

impl<B: History> TableRule<Option<B>, View<B::Opening, B::Entry>, Snapshot<B>> for TurnRule {
    ghost use Rattle.ecf_turnstile.specs.Rule.{IsInTurn};
    ghost use Rattle.ecf_turnstile.specs.Views.{first_view};

    ghost holds = { λ key. IsInTurn B.opening B.entries (B.opening key.value) };

    ghost first = { λ key. first_view (B.opening key.value) (B.entries key.value) };
}

/// The step that draws a ticket.
pub struct Draw;

impl<B: History> Play<Option<B>, View<B::Opening, B::Entry>> for Draw {
    ghost use Rattle.ecf_turnstile.specs.Steps.{Draws};

    ghost then = { Draws };
}

/// The step that looks whether the ticket is served.
pub struct Look;

impl<B: History> Play<Option<B>, View<B::Opening, B::Entry>> for Look {
    ghost use Rattle.ecf_turnstile.specs.Steps.{Looks};

    ghost then = { Looks B.opening B.entries };
}

/// The step that counts the entry which the value in the slot has more.
pub struct Extend;

impl<B: History> Play<Option<B>, View<B::Opening, B::Entry>> for Extend {
    ghost use Rattle.ecf_turnstile.specs.Steps.{Extends};

    ghost then = { Extends B.entries };
}

/// The step that passes the turn on.
pub struct PassOn;

impl<B: History> Play<Option<B>, View<B::Opening, B::Entry>> for PassOn {
    ghost use Rattle.ecf_turnstile.specs.Steps.{PassesOn};

    ghost then = { PassesOn };
}

/// The step that makes a second seat.
pub struct Halve;

impl<O, E> Split<View<O, E>> for Halve {
    ghost use Rattle.ecf_turnstile.specs.Views.{second_view};

    ghost left = { λ v. v };

    ghost right = { second_view };
}

/// The step that takes in another seat.
pub struct Unite;

impl<O, E> Join<View<O, E>> for Unite {
    ghost use Rattle.ecf_turnstile.specs.Views.{united_view, spent_view};

    ghost both = { united_view };

    ghost spent = { spent_view };
}

/// The look at the history's length that compares what two seats have seen.
pub struct Compare;

impl<B: History> Play<Option<B>, View<B::Opening, B::Entry>> for Compare {
    ghost use Rattle.ecf_turnstile.specs.Steps.{Compares};

    ghost then = { Compares };
}
