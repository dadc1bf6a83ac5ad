//! What a run has so far, and what its open tries go back to.

ghost use Rattle.std.specs.Prelude.{◌≡◌, ◌+◌, ◌^◌, ◌<◌, ◌≤◌, [], ◌∷◌, ◌++◌, take, drop, map, true, length, slice_get, List, ℕ, All, IfOk, OnOk, OnErr};
ghost use Rattle.ecf_lang.specs.declared.limits.TheConstants.{MAX_INVOCATIONS};
ghost use Rattle.ecf_lang.specs.Store.{Store, set};
ghost use Rattle.ecf_lang.specs.Part.{Done, pay, value_now, read_cell, with_read, write_cell, note, begin, with_heard, with_answer, as_undone, with_charge, with_change};
ghost use Rattle.ecf_lang.specs.Meaning.{initial_state, result_of, kept_run};
ghost use Rattle.ecf_lang.specs.Alone.{heard_count, lone_of, of_invocation};
ghost use Rattle.ecf_progress.specs.Outcomes.{payment, outcome_at, writes_after, IsLone};
ghost use Rattle.ecf_progress.specs.Progress.{with_savepoint, without_savepoint, undone_to};
ghost use Rattle.ecf_progress.specs.Undo.{before, put_back};

use crate::lone::Lone;
use crate::reads::ReadLog;
use ecf_lang::cell::{Cell, CellRead};
use ecf_lang::run::{Invocation, Outcome, Run, Step};
use sqlite_items::Items;
use std::alloc::{AllocError, Global};
use std::collections::BTreeMap;
use std::marker::Model;

/// So many steps are in most runs at most.
const FIRST_STEPS: usize = 16;

/// Where a try began.
#[derive(Clone, Copy)]
struct Mark {
    /// How long the undo list was.
    undo: usize,
    steps: usize,
    invocations: usize,
}

/// The state of a run on a store, with the marks of the open tries and what was overwritten since the first of them
/// began.
#[derive(Drop)]
pub struct RunState<'a, R: CellRead> {
    store: &'a R,
    fuel: u32,
    written: BTreeMap<Cell, u128>,
    reads: ReadLog,
    steps: Vec<Step>,
    invocations: Vec<Invocation>,
    marks: Vec<Mark>,
    undo: Vec<(Cell, Option<u128>)>,
}

impl<'a, R: CellRead> Model for RunState<'a, R> {
    ghost use Rattle.std.specs.Prelude.{length, reverse};
    ghost use Rattle.ecf_lang.specs.Draft.{AgreesWith};
    ghost use Rattle.ecf_progress.specs.Progress.{Progress};
    ghost use Rattle.ecf_progress.specs.Undo.{savepoints_by, AreMarks};
    ghost use Rattle.ecf_progress.specs.Charges.{ChargesFit};

    ghost Value = { Progress };

    ghost view = { λ s. record {
      run = record { fuel = s.fuel; written = s.written.entries; reads = s.reads; steps = s.steps.items; invocations = s.invocations.items };
      backing = record { store = R.store s.store.now; savepoints = savepoints_by s.undo.items s.written.entries s.steps.items (reverse s.marks.items) };
    } };

    ghost invariant = { λ s.
        ChargesFit s.fuel s.invocations.items ×
        AgreesWith s.reads (R.store s.store.now) ×
        AreMarks (reverse s.marks.items) (length s.undo.items) (length s.steps.items) (length s.invocations.items) };
}

impl<'a, R: CellRead> RunState<'a, R> {
    /// A run before its first step.
    pub fn new(alloc: Global, store: &'a R, fuel: u32) -> Result<RunState<'a, R>, AllocError>
        ensures { IfOk result (λ state. state ≡ record { run = initial_state fuel; backing = record { store = R.store store.now; savepoints = [] } }) }
    {
        Ok(RunState {
            store,
            fuel,
            written: BTreeMap::new(alloc),
            reads: ReadLog::new(alloc),
            steps: Vec::with_capacity(alloc, FIRST_STEPS)?,
            invocations: Vec::new(alloc),
            marks: Vec::new(alloc),
            undo: Vec::new(alloc),
        })
    }

    /// Charges fuel in an invocation, if there is as much; else there is none left.
    pub fn pay(&mut self, inv: u16, fuel: u32) -> bool
        ensures paid { pay inv fuel self.old.run ≡ payment result self.new.run }
        ensures backing { self.new.backing ≡ self.old.backing }
        ensures falls { result ≡ true → self.new.run.fuel + fuel ≡ self.old.run.fuel }
        ensures at_most { self.new.run.fuel ≤ self.old.run.fuel }
    {
        if self.fuel < fuel {
            self.fuel = 0;
            return false;
        }
        self.fuel -= fuel;
        charge(&mut self.invocations, inv, fuel);
        true
    }

    /// The fuel that is left.
    pub fn fuel(&self) -> u32
        ensures { result ≡ self.now.run.fuel }
    {
        self.fuel
    }

    /// Ends the fuel.
    pub fn spend(&mut self)
        ensures run { self.new.run ≡ record self.old.run { fuel = 0 } }
        ensures backing { self.new.backing ≡ self.old.backing }
    {
        self.fuel = 0;
    }

    /// Reads a cell: what the run wrote last, else what the store holds.
    pub fn read(&mut self, inv: u16, cell: Cell) -> Result<u128, AllocError>
        ensures read { IfOk result (λ value. read_cell self.old.backing.store inv cell self.old.run ≡ Done value self.new.run) }
        ensures backing { OnOk result (self.new.backing ≡ self.old.backing) }
        ensures fuel { self.new.run.fuel ≡ self.old.run.fuel }
    {
        let value = self.value_now(cell)?;
        self.add_step(Step {
            inv,
            write: false,
            cell,
            value,
        })?;
        Ok(value)
    }

    /// What a cell holds now. The store is asked where the run has neither written nor read the cell, and that is kept.
    fn value_now(&mut self, cell: Cell) -> Result<u128, AllocError>
        ensures value { IfOk result (λ value. value ≡ value_now self.old.backing.store self.old.run cell) }
        ensures run { IfOk result (λ value. self.new.run ≡ record self.old.run { reads = with_read self.old.run.written self.old.run.reads cell value }) }
        ensures backing { OnOk result (self.new.backing ≡ self.old.backing) }
        ensures fuel { self.new.run.fuel ≡ self.old.run.fuel }
    {
        if let Some(value) = self.written.get(&cell) {
            return Ok(*value);
        }
        if let Some(value) = self.reads.get(cell) {
            return Ok(value);
        }
        let value = self.store.get(cell);
        self.reads.push(cell, value)?;
        Ok(value)
    }

    /// Writes a cell.
    pub fn write(&mut self, inv: u16, cell: Cell, value: u128) -> Result<(), AllocError>
        ensures write { OnOk result (write_cell inv cell value self.old.run ≡ Done tt self.new.run) }
        ensures backing { OnOk result (self.new.backing ≡ self.old.backing) }
        ensures fuel { self.new.run.fuel ≡ self.old.run.fuel }
    {
        self.overwrite(cell, value)?;
        self.add_step(Step {
            inv,
            write: true,
            cell,
            value,
        })?;
        Ok(())
    }

    /// Puts a number into a cell; while a try is open, what the cell held goes on the undo list.
    fn overwrite(&mut self, cell: Cell, value: u128) -> Result<(), AllocError>
        ensures run { OnOk result (self.new.run ≡ record self.old.run { written = set self.old.run.written cell value }) }
        ensures backing { OnOk result (self.new.backing ≡ self.old.backing) }
        ensures fuel { self.new.run.fuel ≡ self.old.run.fuel }
    {
        if self.marks.is_empty() {
            self.written.insert(cell, value)?;
            return Ok(());
        }
        self.undo.reserve(1)?;
        let earlier = self.written.insert(cell, value)?;
        self.undo.push_reserved((cell, earlier));
        Ok(())
    }

    fn add_step(&mut self, step: Step) -> Result<(), AllocError>
        ensures run { OnOk result (self.new.run ≡ record self.old.run { steps = self.old.run.steps ++ step ∷ [] }) }
        ensures backing { OnOk result (self.new.backing ≡ self.old.backing) }
        ensures fuel { self.new.run.fuel ≡ self.old.run.fuel }
    {
        self.steps.push(step)?;
        Ok(())
    }

    pub fn invocation_count(&self) -> usize
        ensures { result ≡ length self.now.run.invocations }
    {
        self.invocations.len()
    }

    /// Opens an invocation, and gives its number.
    pub fn begin(&mut self, object: u8, method: u16, args: Items<u128>) -> Result<u16, AllocError>
        requires { length self.old.run.invocations < MAX_INVOCATIONS }
        ensures begun { IfOk result (λ inv. begin object method args self.old.run ≡ Done inv self.new.run) }
        ensures backing { OnOk result (self.new.backing ≡ self.old.backing) }
        ensures fuel { self.new.run.fuel ≡ self.old.run.fuel }
    {
        let inv = self.invocations.len() as u16;
        self.invocations.push(Invocation {
            object,
            method,
            args,
            answer: None,
            answers: Items::from_vec(Vec::new(*self.invocations.allocator())),
            own_fuel: 0,
            undone: false,
        })?;
        Ok(inv)
    }

    /// Notes what an invocation answered.
    pub fn answer(&mut self, inv: u16, value: u128)
        ensures noted { note (with_answer value) inv self.old.run ≡ Done tt self.new.run }
        ensures backing { self.new.backing ≡ self.old.backing }
        ensures fuel { self.new.run.fuel ≡ self.old.run.fuel }
    {
        note_answer(&mut self.invocations, inv, value);
    }

    /// Notes what an invocation's call answered.
    pub fn hear(&mut self, inv: u16, value: u128) -> Result<(), AllocError>
        ensures noted { OnOk result (note (with_heard value) inv self.old.run ≡ Done tt self.new.run) }
        ensures backing { OnOk result (self.new.backing ≡ self.old.backing) }
        ensures fuel { self.new.run.fuel ≡ self.old.run.fuel }
    {
        note_heard(&mut self.invocations, inv, value)
    }

    /// How many answers the first invocation has heard.
    pub fn heard_count(&self) -> usize
        ensures { result ≡ heard_count self.now.run }
    {
        match self.invocations.first() {
            Some(invocation) => invocation.answers.len(),
            None => 0,
        }
    }

    /// Begins a try.
    pub fn mark(&mut self) -> Result<(), AllocError>
        ensures run { OnOk result (self.new.run ≡ self.old.run) }
        ensures backing { OnOk result (self.new.backing ≡ with_savepoint self.old.run self.old.backing) }
    {
        self.marks.push(Mark {
            undo: self.undo.len(),
            steps: self.steps.len(),
            invocations: self.invocations.len(),
        })?;
        Ok(())
    }

    /// Ends the innermost try, which answered.
    pub fn forget(&mut self)
        ensures run { self.new.run ≡ self.old.run }
        ensures backing { self.new.backing ≡ without_savepoint self.old.backing }
    {
        self.marks.pop();
        if self.marks.is_empty() {
            self.undo.clear();
        }
    }

    /// Ends the innermost try, which reverted: what was written and done since is undone.
    pub fn roll_back(&mut self)
        ensures run { self.new.run ≡ undone_to self.old.backing self.old.run }
        ensures backing { self.new.backing ≡ without_savepoint self.old.backing }
    {
        let Some(mark) = self.marks.pop() else {
            return;
        };
        put_all_back(&mut self.written, &mut self.undo, mark.undo);
        self.steps.truncate(mark.steps);
        mark_undone(&mut self.invocations, mark.invocations);
    }

    /// The run that ended so, of the fuel that it began with.
    pub fn into_run(self, alloc: Global, fuel: u32, outcome: Outcome) -> Result<Run, AllocError>
        ensures { IfOk result (λ r. (store : Store) → r ≡ kept_run (result_of store fuel (outcome_at outcome self.entry.run))) }
    {
        let RunState {
            store: _,
            fuel: left,
            written,
            reads,
            steps,
            invocations,
            marks: _,
            undo: _,
        } = self;
        Ok(Run {
            outcome,
            fuel: fuel.saturating_sub(left),
            steps: Items::from_vec(steps),
            invocations: Items::from_vec(invocations),
            reads: Items::from_vec(reads.into_vec()),
            writes: writes_of(alloc, outcome, written)?,
        })
    }

    /// The run of an invocation alone that ended so, its steps under the invocation's number.
    pub fn into_lone(self, alloc: Global, inv: u16, outcome: Outcome) -> Result<Lone, AllocError>
        ensures { IfOk result (λ lone. (store : Store) (fuel : ℕ) → IsLone (lone_of inv (result_of store fuel (outcome_at outcome self.entry.run))) lone) }
    {
        let RunState {
            store: _,
            fuel: _,
            written,
            reads: _,
            mut steps,
            invocations: _,
            marks: _,
            undo: _,
        } = self;
        renumber(&mut steps, inv);
        Ok(Lone {
            outcome,
            steps: Items::from_vec(steps),
            writes: writes_of(alloc, outcome, written)?,
        })
    }
}

/// The written cells of a run that answered; of any other none.
fn writes_of(
    alloc: Global,
    outcome: Outcome,
    written: BTreeMap<Cell, u128>,
) -> Result<Items<(Cell, u128)>, AllocError>
    ensures { IfOk result (λ writes. writes ≡ writes_after outcome written.entries) }
{
    match outcome {
        Outcome::Answer(_) => Ok(Items::from_vec(written.into_iter().collect(alloc)?)),
        Outcome::Reverted(_) | Outcome::OutOfFuel => Ok(Items::new(alloc)),
    }
}

/// Puts back what was overwritten, the last first, until the list is so long.
fn put_all_back(
    written: &mut BTreeMap<Cell, u128>,
    undo: &mut Vec<(Cell, Option<u128>)>,
    len: usize,
)
    ensures written { written.new.entries ≡ before (drop len undo.old.items) written.old.entries }
    ensures undo { undo.new.items ≡ take len undo.old.items }
{
    while undo.len() > len {
        let Some(overwritten) = undo.pop() else {
            return;
        };
        put_back(written, overwritten.0, overwritten.1);
    }
}

/// Puts a cell back as it was earlier.
fn put_back(written: &mut BTreeMap<Cell, u128>, cell: Cell, earlier: Option<u128>)
    ensures { written.new.entries ≡ put_back written.old.entries cell earlier }
{
    let Some(value) = earlier else {
        written.remove(&cell);
        return;
    };
    if let Some(place) = written.get_mut(&cell) {
        *place = value;
    }
}

/// Marks the invocations from that one on as undone.
fn mark_undone(invocations: &mut Vec<Invocation>, first: usize)
    requires { first ≤ length invocations.old.items }
    ensures { invocations.new.items ≡ take first invocations.old.items ++ map as_undone (drop first invocations.old.items) }
{
    mark_each_undone(&mut invocations[first..]);
}

fn mark_each_undone(invocations: &mut [Invocation])
    ensures { invocations.new ≡ map as_undone invocations.old }
{
    for invocation in invocations.iter_mut() {
        invocation.undone = true;
    }
}

/// Puts steps under another invocation's number.
fn renumber(steps: &mut [Step], inv: u16)
    ensures { steps.new ≡ map (of_invocation inv) steps.old }
{
    for step in steps.iter_mut() {
        step.inv = inv;
    }
}

/// Notes an invocation's answer in its record.
fn note_answer(invocations: &mut Vec<Invocation>, inv: u16, value: u128)
    ensures { invocations.new.items ≡ with_change (with_answer value) invocations.old.items inv }
{
    if let Some(invocation) = invocations.get_mut(usize::from(inv)) {
        invocation.answer = Some(value);
    }
}

/// Notes an answer in the record of the invocation whose call got it.
fn note_heard(invocations: &mut Vec<Invocation>, inv: u16, value: u128) -> Result<(), AllocError>
    ensures ok { OnOk result (invocations.new.items ≡ with_change (with_heard value) invocations.old.items inv) }
    ensures err { OnErr result (invocations.new.items ≡ invocations.old.items) }
{
    if let Some(invocation) = invocations.get_mut(usize::from(inv)) {
        invocation.answers.push(value)?;
    }
    Ok(())
}

/// Adds a charge to what an invocation has paid.
fn charge(invocations: &mut Vec<Invocation>, inv: u16, fuel: u32)
    requires { All (λ one. one.own_fuel + fuel < 2 ^ 32) invocations.old.items }
    ensures { invocations.new.items ≡ with_change (with_charge fuel) invocations.old.items inv }
{
    if let Some(invocation) = invocations.get_mut(usize::from(inv)) {
        invocation.own_fuel += fuel;
    }
}
