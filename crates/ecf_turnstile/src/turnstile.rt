//! The turnstile, and the turn.
ghost use Rattle.std.specs.Prelude.{◌≡◌, ◌+◌, ◌<◌, ◌≤◌, [], ◌∷◌, ◌++◌, length, Some, None, IfOk, IfErr};
ghost use mathlib.Core.List.{IsPrefix};
ghost use Rattle.ecf_turnstile.specs.Histories.{longer_of, GrowsByAtMostOne, AddsOwn, StandIn, AreApart};
ghost use Rattle.ecf_turnstile.specs.Views.{with_ticket, with_turn};
ghost use Rattle.ecf_turnstile.specs.Seats.{seen_by, own_of};

use crate::history::History;
use crate::view::{Compare, Draw, Extend, Halve, Look, PassOn, Phase, Seat, TurnRule, Unite, View};
use atomic_table::{Refused, Table};
use std::alloc::{AllocError, Global};
use std::snapshot::Snapshot;
use std::sync::Wait;
use std::thread;

/// The word with the number of entries.
const LENGTH: usize = 0;

/// The word with the next ticket.
const TICKET: usize = 1;

/// The word with the ticket that is served.
const SERVING: usize = 2;

/// One value that threads have in turns, in the order in which they drew their tickets. Tickets end at 2^64 - 1: who
/// would draw that one waits for ever.
#[derive(Drop)]
pub struct Turnstile<B: History> {
    table: Table<Option<B>, View<B::Opening, B::Entry>, Snapshot<B>, TurnRule, Global>,
    ghost sized: { (table.shared.table_id.words ≡ 3) × (table.shared.table_id.slots ≡ 1) },
}

/// The turn: while it lasts, no other thread has the value. It ends in `leave`, and can't be dropped.
pub struct Turn<'a, B: History> {
    /// The turnstile that it is of.
    pub turnstile: &'a Turnstile<B>,
    /// The seat that is served.
    pub seat: Seat<B>,
    /// The value, for as long as the turn lasts.
    pub value: B,
    before: u64,
    ghost counted: { before ≡ length seat.me.0.seen },
}

impl<B: History + Drop> Turnstile<B> {
    ghost use Rattle.ecf_turnstile.specs.Turnstiles.{name_of, first_value, IsSeatOf, HasTurnOf};

    /// A turnstile round the value, and its first seat. Where memory is wanting the value comes back.
    pub fn new(alloc: Global, value: B) -> Result<(Turnstile<B>, Seat<B>), (B, AllocError)>
        ensures value { IfOk result (λ made. first_value made.0 ≡ value) }
        ensures seat { IfOk result (λ made. IsSeatOf B.opening made.0 made.1) }
        ensures seen { IfOk result (λ made. seen_by made.1 ≡ B.entries value) }
        ensures own { IfOk result (λ made. own_of made.1 ≡ []) }
        ensures no_memory { IfErr result (λ refused. refused.0 ≡ value) }
    {
        let about = Snapshot::of(&value);
        let count = value.history_len();
        let mut slots = Vec::new(alloc);
        if slots.reserve(1).is_err() {
            slots.destroy_empty();
            return Err((value, AllocError));
        }
        slots.push_reserved(Some(value));
        match Table::new(alloc, &[count, 0, 0], slots, &about) {
            Ok((table, seat)) => Ok((Turnstile { table }, seat)),
            Err(Refused { slots }) => {
                let mut slots = slots;
                let value = slots.pop().unwrap().unwrap();
                slots.destroy_empty();
                Err((value, AllocError))
            }
        }
    }

    /// Draws a ticket. Where only the last is left it waits for ever.
    fn draw<R: Wait>(&self, rt: &R, seat: &mut Seat<B>) -> u64
        requires { (seat.old.table_id ≡ name_of self.now) × (seat.old.me.1 ≡ []) }
        ensures same { (seat.new.table_id ≡ seat.old.table_id) × (seat.new.id ≡ seat.old.id) }
        ensures drawn { seat.new.me ≡ (with_ticket seat.old.me.0 result, []) }
    {
        let shared = &self.table.shared;
        for _ in rt.forever() {
            let next = shared.peek(TICKET);
            if next < u64::MAX {
                let found = shared.compare_exchange::<Draw>(seat, TICKET, next, next + 1);
                if found == next {
                    return next;
                }
            }
            thread::yield_now();
        }
        unreachable!()
    }

    /// Waits until the seat's ticket is served. The seat then holds the slot.
    fn wait<R: Wait>(&self, rt: &R, seat: &mut Seat<B>, ticket: u64)
        requires seat { (seat.old.table_id ≡ name_of self.now) × (seat.old.me.1 ≡ []) }
        requires opening { seat.old.me.0.opening ≡ Some (B.opening (first_value self.now)) }
        requires waits { (seat.old.me.0.phase ≡ Phase.Waiting) × (seat.old.me.0.ticket ≡ ticket) }
        ensures same { (seat.new.table_id ≡ seat.old.table_id) × (seat.new.id ≡ seat.old.id) }
        ensures turn { (x : B) × (seat.new.me ≡ (with_turn seat.old.me.0 (B.entries x), (0, Some x) ∷ []))
            × (B.opening x ≡ B.opening (first_value self.now)) × IsPrefix seat.old.me.0.seen (B.entries x) }
    {
        for _ in rt.forever() {
            let served = self.table.shared.load::<Look>(seat, SERVING);
            if served == ticket {
                return;
            }
            thread::yield_now();
        }
        unreachable!()
    }

    /// Draws a ticket, waits until it is served, and takes the value out.
    fn take<R: Wait>(&self, rt: &R, seat: &mut Seat<B>) -> B
        requires { IsSeatOf B.opening self.now seat.old }
        ensures turn { HasTurnOf B.opening self.now seat.new }
        ensures seen { (seen_by seat.new ≡ B.entries result) × IsPrefix (seen_by seat.old) (seen_by seat.new) }
        ensures own { own_of seat.new ≡ own_of seat.old }
        ensures opening { B.opening result ≡ B.opening (first_value self.now) }
    {
        let ticket = self.draw(rt, seat);
        self.wait(rt, seat, ticket);
        self.table.shared.exchange(seat, 0, None).unwrap()
    }

    /// Waits for the turn. The seat has then seen the whole history, which begins with what it had seen before.
    pub fn enter<'a, R: Wait>(&'a self, rt: &R, mut seat: Seat<B>) -> Turn<'a, B>
        requires { IsSeatOf B.opening self.now seat }
        ensures turnstile { result.turnstile.now ≡ self.entry.now }
        ensures turn { HasTurnOf B.opening self.entry.now result.seat }
        ensures seen { (seen_by result.seat ≡ B.entries result.value) × IsPrefix (seen_by seat) (seen_by result.seat) }
        ensures own { own_of result.seat ≡ own_of seat }
        ensures opening { B.opening result.value ≡ B.opening (first_value self.entry.now) }
    {
        let value = self.take(rt, &mut seat);
        let before = value.history_len();
        Turn {
            turnstile: self,
            seat,
            value,
            before,
        }
    }

    /// A second seat, which has seen as much. The entries of its own calls stay with the first.
    pub fn split(&self, mut seat: Seat<B>) -> (Seat<B>, Seat<B>)
        requires { IsSeatOf B.opening self.now seat }
        ensures seats { IsSeatOf B.opening self.now result.0 × IsSeatOf B.opening self.now result.1 }
        ensures seen { (seen_by result.0 ≡ seen_by seat) × (seen_by result.1 ≡ seen_by seat) }
        ensures own { (own_of result.0 ≡ own_of seat) × (own_of result.1 ≡ []) }
    {
        let second = self.table.shared.split_seat::<Halve>(&mut seat);
        (seat, second)
    }

    /// One seat in place of two. Of what the two have seen it has the longer, and it has the entries of both.
    pub fn join(&self, mut seat: Seat<B>, other: Seat<B>) -> Seat<B>
        requires seats { IsSeatOf B.opening self.now seat × IsSeatOf B.opening self.now other }
        ensures seat { IsSeatOf B.opening self.now result }
        ensures longer { seen_by result ≡ longer_of (seen_by seat) (seen_by other) }
        ensures begins { IsPrefix (seen_by seat) (seen_by result) × IsPrefix (seen_by other) (seen_by result) }
        ensures own { own_of result ≡ own_of seat ++ own_of other }
    {
        self.table.shared.join_seat::<Unite>(&mut seat, other);
        self.table.shared.load::<Compare>(&mut seat, LENGTH);
        seat
    }

    /// Waits for the turn, and takes the value out for good. The seat that comes back tells which entries were its own.
    pub fn close<R: Wait>(self, rt: &R, mut seat: Seat<B>) -> (B, Seat<B>)
        requires { IsSeatOf B.opening self seat }
        ensures opening { B.opening result.0 ≡ B.opening (first_value self) }
        ensures history { IsPrefix (seen_by seat) (B.entries result.0) }
        ensures seen { seen_by result.1 ≡ B.entries result.0 }
        ensures own { own_of result.1 ≡ own_of seat }
        ensures places { StandIn (B.entries result.0) (own_of seat) × AreApart (own_of seat) }
    {
        let value = self.take(rt, &mut seat);
        (value, seat)
    }
}

impl<'a, B: History + Drop> Turn<'a, B> {
    ghost use Rattle.std.specs.Borrow.{sem};
    ghost use Rattle.ecf_turnstile.specs.Lending.{LendsValue};
    ghost use Rattle.ecf_turnstile.specs.Turnstiles.{name_of, first_value, IsSeatOf, HasTurnOf};

    /// Lends the value. A caller that goes by the field has no loan to follow in its proof.
    pub fn value(&mut self) -> &mut B
        ensures* lends { sem 𝓛 (LendsValue B.row B.Opening.row B.Entry.row B.History self.entry result) }
        ensures value { result.now ≡ self.old.value }
    {
        &mut self.value
    }

    /// Puts the value back and passes the turn on. The value's opening is as it was, and its history grew by one entry at
    /// most, which is then the seat's own.
    pub fn leave(self) -> Seat<B>
        requires turn { HasTurnOf B.opening self.turnstile.now self.seat }
        requires opening { B.opening self.value ≡ B.opening (first_value self.turnstile.now) }
        requires history { GrowsByAtMostOne (seen_by self.seat) (B.entries self.value) }
        ensures seat { IsSeatOf B.opening self.entry.turnstile.now result }
        ensures seen { seen_by result ≡ B.entries self.entry.value }
        ensures own { AddsOwn (seen_by self.entry.seat) (own_of self.entry.seat) (B.entries self.entry.value) (own_of result) }
    {
        let Turn {
            turnstile,
            mut seat,
            value,
            before,
        } = self;
        let after = value.history_len();
        let shared = &turnstile.table.shared;
        drop(shared.exchange(&mut seat, 0, Some(value)));
        shared.fetch_add::<Extend>(&mut seat, LENGTH, after - before);
        shared.fetch_add::<PassOn>(&mut seat, SERVING, 1);
        seat
    }
}
