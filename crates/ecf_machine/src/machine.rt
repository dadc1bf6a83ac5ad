//! The machine: a stack of small tasks, done one step after the other.

ghost use Rattle.std.specs.Prelude.{◌≡◌, ◌+◌, IfOk};
ghost use Rattle.ecf_machine.specs.Initial.{initial_machine};
ghost use Rattle.ecf_machine.specs.Continuations.{from_answer, from_doing, from_revert, from_task, from_value};
ghost use Rattle.ecf_machine.specs.Load.{task_size};
ghost use Rattle.ecf_progress.specs.Outcomes.{outcome_at};
ghost use Rattle.ecf_progress.specs.Segments.{popped};
ghost use Rattle.ecf_machine.specs.Steps.{Goes};

use crate::setting::Setting;
use crate::task::{Doing, Task};
use ecf_lang::cell::CellRead;
use ecf_lang::run::{Cause, Outcome};
use ecf_progress::{OpenFrame, RunState, Segments, Stack};
use std::alloc::{AllocError, Global};

/// So many tasks wait in most runs at most.
const FIRST_TASKS: usize = 12;

/// The state of a run with its stacks.
#[derive(Drop)]
pub(crate) struct Machine<'a, R: CellRead> {
    pub(crate) state: RunState<'a, R>,
    pub(crate) frame: OpenFrame,
    /// The locals of the open frames.
    pub(crate) locals: Segments,
    /// The arguments so far of the calls that are begun.
    pub(crate) args: Segments,
    pub(crate) tasks: Stack<Task<'a>>,
}

impl<'a, R: CellRead> Machine<'a, R> {
    /// A machine before its first step, in a frame and with nothing that waits.
    pub(crate) fn new(
        alloc: Global,
        store: &'a R,
        fuel: u32,
        frame: OpenFrame,
    ) -> Result<Machine<'a, R>, AllocError>
        ensures { IfOk result (λ machine. machine ≡ initial_machine (R.store store.now) fuel frame) }
    {
        Ok(Machine {
            state: RunState::new(alloc, store, fuel)?,
            frame,
            locals: Segments::new(alloc),
            args: Segments::new(alloc),
            tasks: Stack::with_capacity(alloc, FIRST_TASKS)?,
        })
    }

    /// Does all that is to come. Between two charges less is to do after each step.
    pub(crate) fn finish(
        &mut self,
        at: &Setting<'a>,
        first: Doing<'a>,
    ) -> Result<Outcome, AllocError>
        ensures { IfOk result (λ outcome. from_doing at.now self.old first.entry ≡ outcome_at outcome self.new.state.run) }
    {
        let mut doing = first;
        loop {
            let fuel = self.state.fuel();
            loop {
                doing = match doing {
                    Doing::Body(stmts) => self.body(at, stmts)?,
                    Doing::Eval(expr) => self.eval(at, expr)?,
                    Doing::Give(value) => self.give(at, value)?,
                    Doing::Back(value) => self.go_back(at, value)?,
                    Doing::Stop(cause) => self.stop(at, cause)?,
                    Doing::Over(outcome) => return Ok(outcome),
                };
                if self.state.fuel() < fuel {
                    break;
                }
            }
        }
    }

    fn give(&mut self, at: &Setting<'a>, value: u128) -> Result<Doing<'a>, AllocError>
        ensures { IfOk result (Goes at.now (from_value at.now self.old value) self.old 1 self.new) }
    {
        match self.tasks.pop() {
            Some(task) => self.go_on(at, task, value),
            None => Ok(Doing::Over(Outcome::Answer(value))),
        }
    }

    /// Gives a value to the task that waited for it.
    fn go_on(
        &mut self,
        at: &Setting<'a>,
        task: Task<'a>,
        value: u128,
    ) -> Result<Doing<'a>, AllocError>
        ensures { IfOk result (Goes at.now (from_task at.now self.old task.entry value) self.old (task_size task.entry + 1) self.new) }
    {
        match task {
            Task::First(parts) => self.further(at, value, parts),
            Task::Further(total, op, parts) => self.operate(at, total, op, value, parts),
            Task::Index(field) => self.fetch(at, field, value),
            Task::Not => self.not(at, value),
            Task::Left(op, right) => self.wait(at, Task::Right(value, op), right),
            Task::Right(total, op) => self.compare(at, total, op, value),
            Task::And(parts) => self.all(at, value, parts),
            Task::Or(parts) => self.any(at, value, parts),
            Task::Target(caught, name, args) => self.begin_call(at, caught, value, name, args),
            Task::Argument(callee, args) => {
                self.args.push(value)?;
                self.argument(at, callee, args)
            }
            Task::Let(n) => {
                self.locals.set(n, value);
                Ok(Doing::Give(0))
            }
            Task::Assign(to) => self.assign(at, to, value),
            Task::Key(field, expr) => self.wait(at, Task::Put(field, value), expr),
            Task::Put(field, key) => self.put(at, field, key, value),
            Task::Choose(block, arms, last) => self.chosen(at, value, block, arms, last),
            Task::Test(turns, cond, body) => self.tested(at, turns, cond, body, value),
            Task::Again(turns, cond, body) => self.again(at, turns, cond, body),
            Task::Return => Ok(Doing::Back(value)),
            Task::Revert => Ok(Doing::Stop(Cause::User(value))),
            Task::Ignore => Ok(Doing::Give(0)),
            Task::Next(stmts) => Ok(Doing::Body(stmts)),
            Task::Answered => {
                self.state.answer(self.frame.inv, value);
                Ok(Doing::Back(value))
            }
            Task::Heard => {
                self.state.hear(self.frame.inv, value)?;
                Ok(Doing::Give(value))
            }
            Task::Leave(caller) => {
                self.leave(caller);
                Ok(Doing::Give(value))
            }
            Task::Caught(caller) => {
                self.leave(caller);
                self.state.forget();
                Ok(Doing::Give(1))
            }
            Task::Calls(calls) => self.next_call(at, value, calls),
        }
    }

    /// Goes back to the caller's frame.
    fn leave(&mut self, caller: OpenFrame)
        ensures { self.new ≡ record self.old { frame = caller; locals = popped self.old.locals } }
    {
        self.locals.close();
        self.frame = caller;
    }

    /// Takes a method's answer past the topmost task.
    fn go_back(&mut self, at: &Setting<'a>, value: u128) -> Result<Doing<'a>, AllocError>
        ensures { IfOk result (Goes at.now (from_answer at.now self.old value) self.old 1 self.new) }
    {
        match self.tasks.pop() {
            Some(Task::Answered) => {
                self.state.answer(self.frame.inv, value);
                Ok(Doing::Back(value))
            }
            Some(Task::Leave(caller)) => {
                self.leave(caller);
                Ok(Doing::Give(value))
            }
            Some(Task::Caught(caller)) => {
                self.leave(caller);
                self.state.forget();
                Ok(Doing::Give(1))
            }
            Some(Task::Argument(_, _)) => {
                self.args.close();
                Ok(Doing::Back(value))
            }
            Some(_) => Ok(Doing::Back(value)),
            None => Ok(Doing::Over(Outcome::Answer(value))),
        }
    }

    /// Takes a revert past the topmost task.
    fn stop(&mut self, at: &Setting<'a>, cause: Cause) -> Result<Doing<'a>, AllocError>
        ensures { IfOk result (Goes at.now (from_revert at.now self.old cause) self.old 1 self.new) }
    {
        match self.tasks.pop() {
            Some(Task::Leave(caller)) => {
                self.leave(caller);
                Ok(Doing::Stop(cause))
            }
            Some(Task::Caught(caller)) => {
                self.leave(caller);
                self.state.roll_back();
                Ok(Doing::Give(0))
            }
            Some(Task::Argument(_, _)) => {
                self.args.close();
                Ok(Doing::Stop(cause))
            }
            Some(_) => Ok(Doing::Stop(cause)),
            None => Ok(Doing::Over(Outcome::Reverted(cause))),
        }
    }
}
