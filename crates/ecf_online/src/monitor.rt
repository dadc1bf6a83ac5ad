//! The monitor: a trace is fed to it in pieces, and it tells after each whether swaps can still bring the steps of each
//! invocation together.

ghost use Rattle.std.specs.Prelude.{◌≡◌, ◌≤◌, ◌<◌, ◌+◌, ◌*◌, ℕ, true, List, [], ◌∷◌, ◌++◌, length, slice_index_or, Option, Some, None, IfOk, OnErr, OnOk};
ghost use Rattle.ecf_graph.specs.Ordered.{IsOrdered};
ghost use Rattle.ecf_graph.specs.Pairs.{joins};
ghost use Rattle.ecf_graph.specs.Paths.{SameReach};
ghost use Rattle.ecf_graph.specs.Placement.{placement_of};
ghost use Rattle.ecf_lang.specs.declared.run.Step.{Step};
ghost use Rattle.ecf_online.specs.Closure.{HoldsReaching, IsReady};
ghost use Rattle.ecf_online.specs.Sound.{IsSound};
ghost use Rattle.ecf_online.specs.Watched.{HasSeen, first_not_free, first_with};
ghost use Rattle.ecf_online.specs.declared.limits.TheConstants.{MAX_STEPS};
ghost use Rattle.ecf_verdicts.specs.Before.{before};
ghost use Rattle.ecf_verdicts.specs.Traces.{members};

use crate::pairs::push_step;
use crate::reach::add_pairs;
use crate::room::{make_all_ready, reserve_lists};
use crate::seen::{capped, see_step};
use crate::watch::{Read, Watch, extend_watches, mark_step};
use ecf_conflict::{number_in_room, numbers_are_members};
use ecf_graph::{Ordered, Row, list_below, order_rows, row_contains};
use ecf_lang::cell::Cell;
use ecf_lang::run::Step;
use ecf_precedence::{
    free_exactly_where_acyclic, placement_by_reach, reduced_is_before, reduced_reaches_before,
};
use ecf_verdicts::{at_is_shortest, before_is_of_members, first_parts_free, test_tells_free};
use indexmap::IndexSet;
use std::alloc::{AllocError, Global};

/// What is kept of the trace of one object while it is fed.
#[derive(Drop)]
pub struct Monitor {
    alloc: Global,
    /// The cells, in the order of first steps.
    cells: IndexSet<Cell>,
    /// For each cell its last writer and the reads since.
    watches: Vec<Watch>,
    /// The reads of all cells.
    reads: Vec<Read>,
    /// For each invocation those that reach it.
    rows: Vec<Row>,
    /// How many words each row has that has any.
    width: usize,
    /// The invocations that reach any.
    reaching: Row,
    /// The pairs that the steps added.
    pairs: Vec<(u16, u16)>,
    /// The invocations with steps, and a number above them.
    seen: Row,
    above: u32,
    /// The number of steps.
    count: u32,
    /// The number of steps of the first part with a cycle.
    first: Option<u32>,
    ghost sound: { IsSound cells.keys watches.items reads.items rows.items pairs.items seen width count },
    ghost reaching_are: { HoldsReaching rows.items reaching },
}

/// The first part with a cycle, after a step that closed one or didn't.
fn first_after(first: Option<u32>, closes: bool, count: u32) -> Option<u32>
    ensures { result ≡ first_with first closes count }
{
    match first {
        Some(k) => Some(k),
        None => { if closes { Some(count) } else { None } }
    }
}

impl Monitor {
    ghost use Rattle.ecf_online.specs.Fed.{HasRoom, IsFed, KeepsTrace, Watches, added_pairs, step_count};

    /// A monitor that was fed nothing; it takes no memory.
    pub fn new(alloc: Global) -> Monitor
        ensures fed { IsFed [] result }
        ensures steps { step_count result ≡ 0 }
    {
        Monitor {
            alloc,
            cells: IndexSet::new(alloc),
            watches: Vec::new(alloc),
            reads: Vec::new(alloc),
            rows: Vec::new(alloc),
            width: 0,
            pairs: Vec::new(alloc),
            seen: Row::new(alloc),
            reaching: Row::new(alloc),
            above: 0,
            count: 0,
            first: None,
        }
    }

    /// The number of steps that were fed.
    pub fn steps(&self) -> u32
        ensures steps { result ≡ step_count self.now }
        ensures trace { (t : List Step) → IsFed t self.now → result ≡ length t }
    {
        self.count
    }

    /// The number of pairs that the steps added: each step from its cell's last writer and, where it writes, from the
    /// readers since. They are pairs of "before", and reach what "before" reaches.
    pub fn edge_count(&self) -> u32
        ensures count { result ≡ length (added_pairs self.now) }
        ensures few { result ≤ 2 * step_count self.now }
        ensures before { (t : List Step) → IsFed t self.now → (i j : ℕ) → joins (added_pairs self.now) i j ≡ true → before t i j ≡ true }
        ensures reach { (t : List Step) → IsFed t self.now → SameReach (joins (added_pairs self.now)) (before t) }
    {
        reduced_is_before();
        reduced_reaches_before();
        self.pairs.len() as u32
    }

    /// Takes further steps of the trace; answers the number of steps of its shortest first part that isn't free, if there
    /// is one. It costs what these steps ask for. For want of memory it leaves the monitor as it was.
    pub fn feed(&mut self, piece: &[Step]) -> Result<Option<u32>, AllocError>
        requires { step_count self.old + length piece.now ≤ MAX_STEPS }
        ensures fed { (t : List Step) → IsFed t self.old → OnOk result (IsFed (t ++ piece.now) self.new) }
        ensures first { (t : List Step) → IsFed t self.old → IfOk result (λ r. r ≡ first_not_free (t ++ piece.now)) }
        ensures steps { OnOk result (step_count self.new ≡ step_count self.old + length piece.now) }
        ensures kept { OnErr result ((t : List Step) → IsFed t self.old → IsFed t self.new) }
        ensures kept_steps { OnErr result (step_count self.new ≡ step_count self.old) }
        ensures kept_pairs { OnErr result (added_pairs self.new ≡ added_pairs self.old) }
    {
        self.make_room(piece)?;
        self.take_piece(piece);
        Ok(self.first)
    }

    /// The placement of the trace's invocations by "before", past a cycle too.
    pub fn order(&self, alloc: Global) -> Result<Ordered, AllocError>
        ensures { (t : List Step) → IsFed t self.now → IfOk result (λ o. IsOrdered o (placement_of (before t) (members t))) }
    {
        reduced_reaches_before();
        before_is_of_members();
        placement_by_reach();
        numbers_are_members();
        let members = list_below(alloc, &self.seen, capped(self.above))?;
        order_rows(alloc, self.rows.as_slice(), members.as_slice())
    }

    /// Makes room for a piece.
    fn make_room(&mut self, piece: &[Step]) -> Result<(), AllocError>
        requires { self.old.count + length piece.now ≤ MAX_STEPS }
        ensures kept { KeepsTrace self.old self.new }
        ensures room { OnOk result (HasRoom (length piece.now) self.new) }
        ensures ready { OnOk result ((k : ℕ) (d : Step) → k < length piece.now → IsReady self.new.rows.items (slice_index_or piece.now k d).inv) }
    {
        let steps = piece.len();
        let most_pairs = 2 * (self.count as usize + steps);
        reserve_lists(
            &mut self.cells,
            &mut self.watches,
            &mut self.reads,
            &mut self.pairs,
            steps,
            most_pairs,
        )?;
        make_all_ready(
            self.alloc,
            &mut self.rows,
            &mut self.seen,
            &mut self.width,
            piece,
        )?;
        self.reaching.widen(self.width)
    }

    /// Takes further steps, for which there is room.
    fn take_piece(&mut self, piece: &[Step])
        requires few { self.old.count + length piece.now ≤ MAX_STEPS }
        requires room { HasRoom (length piece.now) self.old }
        requires ready { (k : ℕ) (d : Step) → k < length piece.now → IsReady self.old.rows.items (slice_index_or piece.now k d).inv }
        ensures fed { (t : List Step) → IsFed t self.old → IsFed (t ++ piece.now) self.new }
        ensures first { (t : List Step) → IsFed t self.old → self.new.first ≡ first_not_free (t ++ piece.now) }
        ensures count { self.new.count ≡ self.old.count + length piece.now }
    {
        free_exactly_where_acyclic();
        reduced_reaches_before();
        test_tells_free();
        first_parts_free();
        at_is_shortest();
        for step in piece {
            self.take_step(step);
        }
    }

    /// Takes one step more, for which there is room.
    fn take_step(&mut self, step: &Step)
        requires few { self.old.count + 1 ≤ MAX_STEPS }
        requires room { HasRoom 1 self.old }
        requires ready { IsReady self.old.rows.items step.now.inv }
        ensures watched { (e : List Step) → Watches e self.old → Watches (step.now ∷ e) self.new }
        ensures seen { (e : List Step) → HasSeen e self.old.seen self.old.above → HasSeen (step.now ∷ e) self.new.seen self.new.above }
        ensures count { self.new.count ≡ self.old.count + 1 }
        ensures room { (n : ℕ) → HasRoom (n + 1) self.old → HasRoom n self.new }
        ensures ready { (i : ℕ) → IsReady self.old.rows.items i → IsReady self.new.rows.items i }
    {
        let cell = number_in_room(&mut self.cells, step.cell);
        extend_watches(&mut self.watches, self.cells.len());
        let from = self.pairs.len();
        push_step(
            &mut self.pairs,
            &self.watches[cell],
            self.reads.as_slice(),
            step.inv,
            step.write,
        );
        add_pairs(
            self.alloc,
            &mut self.rows,
            &mut self.reaching,
            self.pairs.as_slice(),
            from,
        );
        mark_step(
            &mut self.watches[cell],
            &mut self.reads,
            step.inv,
            step.write,
        );
        see_step(&mut self.seen, &mut self.above, step);
        let closes = row_contains(self.rows.as_slice(), step.inv, step.inv);
        self.count += 1;
        self.first = first_after(self.first, closes, self.count);
    }
}
