//! The steps of statements.

ghost use Rattle.std.specs.Prelude.{◌≡◌, ◌∷◌, ◌+◌, IfOk};
ghost use Rattle.ecf_machine.specs.Continuations.{from_action};
ghost use Rattle.ecf_machine.specs.Load.{arms_size, size_of};
ghost use Rattle.ecf_machine.specs.Parts.{assign_in, branch_in, chosen_in, keyed_in, loop_in, put_in, stmt_in, stmts_in, tested_in, try_in, turns_in};
ghost use Rattle.ecf_machine.specs.Steps.{Charges, Follows, Goes};

use crate::machine::Machine;
use crate::setting::Setting;
use crate::task::{Doing, Task};
use ecf_lang::cell::CellRead;
use ecf_lang::costs::{STATEMENT, TURN, WRITE};
use ecf_lang::run::Outcome;
use ecf_lang::typed::{Assignee, TypedBlock, TypedExpr, TypedStmt};
use std::alloc::AllocError;

impl<'a, R: CellRead> Machine<'a, R> {
    pub(crate) fn body(
        &mut self,
        at: &Setting<'a>,
        stmts: &'a [TypedStmt],
    ) -> Result<Doing<'a>, AllocError>
        ensures { IfOk result (Goes at.now (from_action at.now self.old (stmts_in stmts.now)) self.old 3 self.new) }
    {
        match stmts {
            [] => Ok(Doing::Give(0)),
            [stmt, rest @ ..] => self.stmt_then(at, stmt, rest),
        }
    }

    fn stmt_then(
        &mut self,
        at: &Setting<'a>,
        stmt: &'a TypedStmt,
        rest: &'a [TypedStmt],
    ) -> Result<Doing<'a>, AllocError>
        ensures { IfOk result (Charges at.now (from_action at.now self.old (stmts_in (stmt.now ∷ rest.now))) self.old self.new) }
    {
        self.tasks.push(Task::Next(rest))?;
        self.stmt(at, stmt)
    }

    /// Charges for a statement and begins it.
    fn stmt(&mut self, at: &Setting<'a>, stmt: &'a TypedStmt) -> Result<Doing<'a>, AllocError>
        ensures { IfOk result (Charges at.now (from_action at.now self.old (stmt_in stmt.now)) self.old self.new) }
    {
        if !self.state.pay(self.frame.inv, STATEMENT) {
            return Ok(Doing::Over(Outcome::OutOfFuel));
        }
        match stmt {
            TypedStmt::Let {
                local,
                ty: _,
                value,
            } => self.wait(at, Task::Let(*local), value),
            TypedStmt::Try {
                local,
                target,
                name,
                args,
            } => self.try_call(at, *local, target, *name, args.as_slice()),
            TypedStmt::Set { to, value } => self.wait(at, Task::Assign(*to), value),
            TypedStmt::SetAt { map, key, value } => self.assign_at(at, *map, key, value),
            TypedStmt::If { arms, last } => self.choose(at, arms.as_slice(), last),
            TypedStmt::While { cond, body } => self.repeat(at, cond, body),
            TypedStmt::Return { value } => self.wait(at, Task::Return, value),
            TypedStmt::Revert { value } => self.wait(at, Task::Revert, value),
            TypedStmt::Do { call } => {
                self.tasks.push(Task::Ignore)?;
                self.call(at, call)
            }
        }
    }

    fn assign_at(
        &mut self,
        at: &Setting<'a>,
        map: u8,
        key: &'a TypedExpr,
        value: &'a TypedExpr,
    ) -> Result<Doing<'a>, AllocError>
        ensures { IfOk result (Follows at.now (from_action at.now self.old (keyed_in map key.now value.now)) self.old self.new) }
    {
        self.wait(at, Task::Key(map, value), key)
    }

    fn try_call(
        &mut self,
        at: &Setting<'a>,
        local: u8,
        target: &'a TypedExpr,
        name: u16,
        args: &'a [TypedExpr],
    ) -> Result<Doing<'a>, AllocError>
        ensures { IfOk result (Follows at.now (from_action at.now self.old (try_in local target.now name args.now)) self.old self.new) }
    {
        self.tasks.push(Task::Let(local))?;
        self.wait(at, Task::Target(true, name, args), target)
    }

    fn repeat(
        &mut self,
        at: &Setting<'a>,
        cond: &'a TypedExpr,
        body: &'a TypedBlock,
    ) -> Result<Doing<'a>, AllocError>
        ensures { IfOk result (Follows at.now (from_action at.now self.old (loop_in cond.now body.now)) self.old self.new) }
    {
        let turns = self.state.fuel();
        self.wait(at, Task::Test(turns, cond, body), cond)
    }

    /// Begins the next condition of an `if`, or the last block.
    fn choose(
        &mut self,
        at: &Setting<'a>,
        arms: &'a [(TypedExpr, TypedBlock)],
        last: &'a Option<TypedBlock>,
    ) -> Result<Doing<'a>, AllocError>
        ensures { IfOk result (Goes at.now (from_action at.now self.old (branch_in arms.now last.now)) self.old (arms_size arms.now + 4) self.new) }
    {
        match arms {
            [] => match last {
                Some(block) => Ok(Doing::Body(block.stmts.as_slice())),
                None => Ok(Doing::Give(0)),
            },
            [arm, others @ ..] => self.wait(at, Task::Choose(&arm.1, others, last), &arm.0),
        }
    }

    /// Begins the block of a condition that is true, or else what is after it.
    pub(crate) fn chosen(
        &mut self,
        at: &Setting<'a>,
        value: u128,
        block: &'a TypedBlock,
        arms: &'a [(TypedExpr, TypedBlock)],
        last: &'a Option<TypedBlock>,
    ) -> Result<Doing<'a>, AllocError>
        ensures { IfOk result (Goes at.now
            (from_action at.now self.old (chosen_in value block.now arms.now last.now)) self.old (arms_size arms.now + 5) self.new) }
    {
        match value {
            0 => self.choose(at, arms, last),
            _ => Ok(Doing::Body(block.stmts.as_slice())),
        }
    }

    /// Begins a turn of a loop, of which so many may follow.
    pub(crate) fn again(
        &mut self,
        at: &Setting<'a>,
        turns: u32,
        cond: &'a TypedExpr,
        body: &'a TypedBlock,
    ) -> Result<Doing<'a>, AllocError>
        ensures { IfOk result (Goes at.now (from_action at.now self.old (turns_in turns cond.now body.now)) self.old (size_of cond.now + 3) self.new) }
    {
        if turns == 0 {
            self.state.spend();
            return Ok(Doing::Over(Outcome::OutOfFuel));
        }
        self.wait(at, Task::Test(turns - 1, cond, body), cond)
    }

    /// Goes on with a loop, or behind it, by the value of its condition.
    pub(crate) fn tested(
        &mut self,
        at: &Setting<'a>,
        turns: u32,
        cond: &'a TypedExpr,
        body: &'a TypedBlock,
        value: u128,
    ) -> Result<Doing<'a>, AllocError>
        ensures { IfOk result (Goes at.now (from_action at.now self.old (tested_in turns cond.now body.now value)) self.old 2 self.new) }
    {
        match value {
            0 => Ok(Doing::Give(0)),
            _ => self.turn(at, turns, cond, body),
        }
    }

    /// Charges for a turn of a loop and begins its body.
    fn turn(
        &mut self,
        at: &Setting<'a>,
        turns: u32,
        cond: &'a TypedExpr,
        body: &'a TypedBlock,
    ) -> Result<Doing<'a>, AllocError>
        ensures { IfOk result (Charges at.now (from_action at.now self.old (tested_in turns cond.now body.now 1)) self.old self.new) }
    {
        if !self.state.pay(self.frame.inv, TURN) {
            return Ok(Doing::Over(Outcome::OutOfFuel));
        }
        self.tasks.push(Task::Again(turns, cond, body))?;
        Ok(Doing::Body(body.stmts.as_slice()))
    }

    /// Charges for a write of the frame's object, and writes.
    pub(crate) fn put(
        &mut self,
        at: &Setting<'a>,
        field: u8,
        key: u128,
        value: u128,
    ) -> Result<Doing<'a>, AllocError>
        ensures { IfOk result (Charges at.now (from_action at.now self.old (put_in field key value)) self.old self.new) }
    {
        if !self.state.pay(self.frame.inv, WRITE) {
            return Ok(Doing::Over(Outcome::OutOfFuel));
        }
        let cell = self.cell(field, key);
        self.state.write(self.frame.inv, cell, value)?;
        Ok(Doing::Give(0))
    }

    pub(crate) fn assign(
        &mut self,
        at: &Setting<'a>,
        to: Assignee,
        value: u128,
    ) -> Result<Doing<'a>, AllocError>
        ensures { IfOk result (Goes at.now (from_action at.now self.old (assign_in to value)) self.old 2 self.new) }
    {
        match to {
            Assignee::Local(n) => {
                self.locals.set(n, value);
                Ok(Doing::Give(0))
            }
            Assignee::Plain(field) => self.put(at, field, 0, value),
        }
    }
}
