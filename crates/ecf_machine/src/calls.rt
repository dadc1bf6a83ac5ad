//! The steps of calls: their arguments, their charge, their tests, and the frames that they open.

ghost use Rattle.std.specs.Prelude.{◌≡◌, ◌+◌, [], IfOk, OnOk};
ghost use Rattle.ecf_lang.specs.Alone.{next_answer};
ghost use Rattle.ecf_machine.specs.Continuations.{from_call, from_part};
ghost use Rattle.ecf_machine.specs.Load.{args_size, calls_size};
ghost use Rattle.ecf_machine.specs.Parts.{anew_in, args_in, call_charge, call_in, callee_of, calls_in, entry_in, next_in};
ghost use Rattle.ecf_progress.specs.Segments.{popped, pushed};
ghost use Rattle.ecf_machine.specs.Returns.{IsReturn};
ghost use Rattle.ecf_machine.specs.Setting.{CanNumber};
ghost use Rattle.ecf_machine.specs.Steps.{Charges, Follows, Goes};
ghost use Rattle.ecf_machine.specs.declared.task.Callee.TheVariants as callee;

use crate::machine::Machine;
use crate::setting::{External, Setting};
use crate::task::{Callee, Doing, Task};
use ecf_lang::cell::CellRead;
use ecf_lang::costs::{EXTERNAL_CALL, INTERNAL_CALL};
use ecf_lang::limits::MAX_INVOCATIONS;
use ecf_lang::run::{Cause, Outcome};
use ecf_lang::tx::TxCall;
use ecf_lang::typed::TypedExpr;
use ecf_progress::OpenFrame;
use sqlite_items::Items;
use std::alloc::AllocError;

impl<'a, R: CellRead> Machine<'a, R> {
    /// Begins the arguments of a call to an object.
    pub(crate) fn begin_call(
        &mut self,
        at: &Setting<'a>,
        caught: bool,
        to: u128,
        name: u16,
        args: &'a [TypedExpr],
    ) -> Result<Doing<'a>, AllocError>
        ensures { IfOk result (Goes at.now
            (from_part at.now self.old (args_in (callee_of caught to name) [] args.now)) self.old (args_size args.now + 4) self.new) }
    {
        self.args.open()?;
        self.argument(at, other_callee(caught, to, name), args)
    }

    /// Goes on with the further arguments of a call.
    pub(crate) fn argument(
        &mut self,
        at: &Setting<'a>,
        callee: Callee,
        args: &'a [TypedExpr],
    ) -> Result<Doing<'a>, AllocError>
        ensures { IfOk result (Goes at.now (from_call at.now self.old (args_in callee self.old.args.top args.now)) self.old (args_size args.now + 3) self.new) }
    {
        match args {
            [] => self.enter(at, callee),
            [arg, others @ ..] => {
                self.tasks.push(Task::Argument(callee, others))?;
                Ok(Doing::Eval(arg))
            }
        }
    }

    /// Charges for a call and makes it.
    fn enter(&mut self, at: &Setting<'a>, callee: Callee) -> Result<Doing<'a>, AllocError>
        ensures { IfOk result (Charges at.now (from_call at.now self.old (entry_in callee self.old.args.top)) self.old self.new) }
    {
        if !self.state.pay(self.frame.inv, call_charge(callee)) {
            return Ok(Doing::Over(Outcome::OutOfFuel));
        }
        self.enter_paid(at, callee)
    }

    fn enter_paid(&mut self, at: &Setting<'a>, callee: Callee) -> Result<Doing<'a>, AllocError>
        ensures { IfOk result (Follows at.now (from_call at.now self.old (call_in callee self.old.args.top)) self.old self.new) }
    {
        match callee {
            Callee::Internal(name) => self.internal(at, name),
            Callee::External(to, name) => self.external(at, to, name),
            Callee::Attempt(to, name) => self.attempt(at, to, name),
        }
    }

    /// Opens a list of locals with the arguments of the innermost call, which is then begun no more.
    fn take_args(&mut self) -> Result<(), AllocError>
        ensures { OnOk result (self.new ≡ record self.old { locals = pushed self.old.args.top self.old.locals; args = popped self.old.args }) }
    {
        self.locals.open_with(self.args.top())?;
        self.args.close();
        Ok(())
    }

    /// Opens a frame for a method of the own object, in the same invocation.
    pub(crate) fn internal(&mut self, at: &Setting<'a>, name: u16) -> Result<Doing<'a>, AllocError>
        ensures { IfOk result (Follows at.now (from_call at.now self.old (call_in (callee.Internal name) self.old.args.top)) self.old self.new) }
    {
        self.take_args()?;
        self.tasks.push(Task::Leave(self.frame))?;
        if self.frame.room == 0 {
            return Ok(Doing::Stop(Cause::Depth));
        }
        match at.typed.method(self.frame.object, name) {
            Some(method) => {
                self.frame.room -= 1;
                self.locals.fill(method.locals)?;
                Ok(Doing::Body(method.body.stmts.as_slice()))
            }
            None => Ok(Doing::Stop(Cause::NoMethod)),
        }
    }

    fn external(&mut self, at: &Setting<'a>, to: u128, name: u16) -> Result<Doing<'a>, AllocError>
        ensures { IfOk result (Follows at.now (from_call at.now self.old (call_in (callee.External to name) self.old.args.top)) self.old self.new) }
    {
        match at.external {
            External::Opens => {
                self.tasks.push(Task::Heard)?;
                self.take_args()?;
                self.tasks.push(Task::Leave(self.frame))?;
                self.anew(at, to, name)
            }
            External::Answers(answers) => self.take_answer(at, answers),
        }
    }

    fn attempt(&mut self, at: &Setting<'a>, to: u128, name: u16) -> Result<Doing<'a>, AllocError>
        ensures { IfOk result (Follows at.now (from_call at.now self.old (call_in (callee.Attempt to name) self.old.args.top)) self.old self.new) }
    {
        match at.external {
            External::Opens => {
                self.state.mark()?;
                self.tasks.push(Task::Heard)?;
                self.take_args()?;
                self.tasks.push(Task::Caught(self.frame))?;
                self.anew(at, to, name)
            }
            External::Answers(answers) => self.take_answer(at, answers),
        }
    }

    /// Takes the next recorded answer in place of a call.
    fn take_answer(
        &mut self,
        at: &Setting<'a>,
        answers: &'a [u128],
    ) -> Result<Doing<'a>, AllocError>
        ensures { IfOk result (Follows at.now (from_call at.now self.old (next_in answers.now)) self.old self.new) }
    {
        self.args.close();
        match answers.get(self.state.heard_count()) {
            Some(value) => {
                self.state.hear(0, *value)?;
                Ok(Doing::Give(*value))
            }
            None => {
                self.state.spend();
                Ok(Doing::Over(Outcome::OutOfFuel))
            }
        }
    }

    /// Tests a call whose arguments are the locals, and opens its invocation. What is to come leaves its frame first.
    fn anew(&mut self, at: &Setting<'a>, to: u128, name: u16) -> Result<Doing<'a>, AllocError>
        requires number { CanNumber to at.now.typed.now }
        requires returns { IsReturn self.old.tasks }
        ensures { IfOk result (Goes at.now (from_part at.now self.old (anew_in to name self.old.locals.top)) self.old 5 self.new) }
    {
        if self.frame.room == 0 {
            return Ok(Doing::Stop(Cause::Depth));
        }
        if self.state.invocation_count() >= MAX_INVOCATIONS {
            return Ok(Doing::Stop(Cause::Calls));
        }
        let Ok(object) = u8::try_from(to) else {
            return Ok(Doing::Stop(Cause::NoMethod));
        };
        match at.typed.method(object, name) {
            Some(method) => {
                let args = Items::from_slice(at.alloc, self.locals.top())?;
                let inv = self.state.begin(object, name, args)?;
                self.tasks.push(Task::Answered)?;
                self.frame = OpenFrame {
                    object,
                    inv,
                    room: self.frame.room - 1,
                };
                self.locals.fill(method.locals)?;
                Ok(Doing::Body(method.body.stmts.as_slice()))
            }
            None => Ok(Doing::Stop(Cause::NoMethod)),
        }
    }

    /// Goes on with the further calls of a transaction.
    pub(crate) fn next_call(
        &mut self,
        at: &Setting<'a>,
        last: u128,
        calls: &'a [TxCall],
    ) -> Result<Doing<'a>, AllocError>
        ensures { IfOk result (Goes at.now (from_part at.now self.old (calls_in last calls.now)) self.old (calls_size calls.now + 2) self.new) }
    {
        match calls {
            [] => Ok(Doing::Give(last)),
            [call, others @ ..] => {
                self.tasks.push(Task::Calls(others))?;
                self.tasks.push(Task::Leave(self.frame))?;
                self.locals.open_with(call.args.as_slice())?;
                self.anew(at, u128::from(call.object), call.method)
            }
        }
    }
}

fn other_callee(caught: bool, to: u128, name: u16) -> Callee
    ensures { result ≡ callee_of caught to name }
{
    if caught {
        Callee::Attempt(to, name)
    } else {
        Callee::External(to, name)
    }
}

fn call_charge(callee: Callee) -> u32
    ensures { result ≡ call_charge callee }
{
    match callee {
        Callee::Internal(_) => INTERNAL_CALL,
        Callee::External(_, _) | Callee::Attempt(_, _) => EXTERNAL_CALL,
    }
}
