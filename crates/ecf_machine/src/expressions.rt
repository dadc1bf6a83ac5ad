//! The steps of expressions.

ghost use Rattle.std.specs.Prelude.{◌≡◌, ◌∷◌, ◌+◌, IfOk};
ghost use Rattle.ecf_lang.specs.Meaning.{op_value};
ghost use Rattle.ecf_machine.specs.Continuations.{from_part, from_wait};
ghost use Rattle.ecf_machine.specs.Load.{args_size, call_size, parts_size, size_of, task_size};
ghost use Rattle.ecf_machine.specs.Parts.{all_in, answer_in, any_in, chain_in, compared_in, constant_in, fetch_in, first_all_in, first_any_in, further_in, name_in, not_in, value_in};
ghost use Rattle.ecf_machine.specs.Steps.{Charges, Goes};

use crate::machine::Machine;
use crate::setting::Setting;
use crate::task::{Callee, Doing, Task};
use ecf_lang::cell::{Cell, CellRead};
use ecf_lang::costs::{LEAF, OPERATOR, READ, TEST};
use ecf_lang::run::{Cause, Outcome};
use ecf_lang::tree::Op;
use ecf_lang::typed::{Place, TypedCall, TypedExpr};
use std::alloc::AllocError;

impl<'a, R: CellRead> Machine<'a, R> {
    pub(crate) fn eval(
        &mut self,
        at: &Setting<'a>,
        expr: &'a TypedExpr,
    ) -> Result<Doing<'a>, AllocError>
        ensures { IfOk result (Goes at.now (from_part at.now self.old (value_in expr.now)) self.old (size_of expr.now) self.new) }
    {
        match expr {
            TypedExpr::Number { value } => self.constant(at, *value),
            TypedExpr::Flag { value } => self.constant(at, u128::from(*value)),
            TypedExpr::Here => self.constant(at, u128::from(self.frame.object)),
            TypedExpr::Name { place } => self.named(at, *place),
            TypedExpr::At { map, key } => self.wait(at, Task::Index(*map), key.get()),
            TypedExpr::Call { call } => self.call(at, call),
            TypedExpr::Not { inner } => self.wait(at, Task::Not, inner.get()),
            TypedExpr::Product { first, rest } => {
                self.wait(at, Task::First(rest.as_slice()), first.get())
            }
            TypedExpr::Sum { first, rest } => {
                self.wait(at, Task::First(rest.as_slice()), first.get())
            }
            TypedExpr::Compare { left, op, right } => {
                self.wait(at, Task::Left(*op, right.get()), left.get())
            }
            TypedExpr::And { parts } => self.begin_all(at, parts.as_slice()),
            TypedExpr::Or { parts } => self.begin_any(at, parts.as_slice()),
        }
    }

    /// Begins an expression, for whose value the task waits.
    pub(crate) fn wait(
        &mut self,
        at: &Setting<'a>,
        task: Task<'a>,
        value: &'a TypedExpr,
    ) -> Result<Doing<'a>, AllocError>
        ensures { IfOk result (Goes at.now (from_wait at.now self.old task.entry value.now) self.old (size_of value.now + task_size task.entry + 1) self.new) }
    {
        self.tasks.push(task)?;
        Ok(Doing::Eval(value))
    }

    /// Charges for a value that is there.
    fn constant(&mut self, at: &Setting<'a>, value: u128) -> Result<Doing<'a>, AllocError>
        ensures { IfOk result (Charges at.now (from_part at.now self.old (constant_in value)) self.old self.new) }
    {
        if !self.state.pay(self.frame.inv, LEAF) {
            return Ok(Doing::Over(Outcome::OutOfFuel));
        }
        Ok(Doing::Give(value))
    }

    fn named(&mut self, at: &Setting<'a>, place: Place) -> Result<Doing<'a>, AllocError>
        ensures { IfOk result (Charges at.now (from_part at.now self.old (name_in place)) self.old self.new) }
    {
        match place {
            Place::Local(n) => {
                let value = self.locals.get(n);
                self.constant(at, value)
            }
            Place::Plain(field) => self.fetch(at, field, 0),
            Place::Object(object) => self.constant(at, u128::from(object)),
        }
    }

    /// Charges for a read of the frame's object, and reads.
    pub(crate) fn fetch(
        &mut self,
        at: &Setting<'a>,
        field: u8,
        key: u128,
    ) -> Result<Doing<'a>, AllocError>
        ensures { IfOk result (Charges at.now (from_part at.now self.old (fetch_in field key)) self.old self.new) }
    {
        if !self.state.pay(self.frame.inv, READ) {
            return Ok(Doing::Over(Outcome::OutOfFuel));
        }
        let cell = self.cell(field, key);
        let value = self.state.read(self.frame.inv, cell)?;
        Ok(Doing::Give(value))
    }

    /// A cell of the frame's object.
    pub(crate) fn cell(&self, field: u8, key: u128) -> Cell
        ensures { result ≡ record { object = self.now.frame.object; field = field; key = key } }
    {
        Cell {
            object: self.frame.object,
            field,
            key,
        }
    }

    fn begin_all(
        &mut self,
        at: &Setting<'a>,
        parts: &'a [TypedExpr],
    ) -> Result<Doing<'a>, AllocError>
        ensures { IfOk result (Goes at.now (from_part at.now self.old (first_all_in parts.now)) self.old (args_size parts.now + 2) self.new) }
    {
        match parts {
            [] => Ok(Doing::Give(0)),
            [part, others @ ..] => {
                self.tasks.push(Task::And(others))?;
                Ok(Doing::Eval(part))
            }
        }
    }

    fn begin_any(
        &mut self,
        at: &Setting<'a>,
        parts: &'a [TypedExpr],
    ) -> Result<Doing<'a>, AllocError>
        ensures { IfOk result (Goes at.now (from_part at.now self.old (first_any_in parts.now)) self.old (args_size parts.now + 2) self.new) }
    {
        match parts {
            [] => Ok(Doing::Give(0)),
            [part, others @ ..] => {
                self.tasks.push(Task::Or(others))?;
                Ok(Doing::Eval(part))
            }
        }
    }

    /// Goes on with the further parts of an `&&`.
    pub(crate) fn all(
        &mut self,
        at: &Setting<'a>,
        value: u128,
        parts: &'a [TypedExpr],
    ) -> Result<Doing<'a>, AllocError>
        ensures { IfOk result (Goes at.now (from_part at.now self.old (all_in value parts.now)) self.old 2 self.new) }
    {
        match parts {
            [] => Ok(Doing::Give(value)),
            [part, others @ ..] => self.all_further(at, value, part, others),
        }
    }

    fn all_further(
        &mut self,
        at: &Setting<'a>,
        value: u128,
        part: &'a TypedExpr,
        others: &'a [TypedExpr],
    ) -> Result<Doing<'a>, AllocError>
        ensures { IfOk result (Charges at.now (from_part at.now self.old (all_in value (part.now ∷ others.now))) self.old self.new) }
    {
        if !self.state.pay(self.frame.inv, TEST) {
            return Ok(Doing::Over(Outcome::OutOfFuel));
        }
        match value {
            0 => Ok(Doing::Give(0)),
            _ => self.wait(at, Task::And(others), part),
        }
    }

    /// Goes on with the further parts of an `||`.
    pub(crate) fn any(
        &mut self,
        at: &Setting<'a>,
        value: u128,
        parts: &'a [TypedExpr],
    ) -> Result<Doing<'a>, AllocError>
        ensures { IfOk result (Goes at.now (from_part at.now self.old (any_in value parts.now)) self.old 2 self.new) }
    {
        match parts {
            [] => Ok(Doing::Give(value)),
            [part, others @ ..] => self.any_further(at, value, part, others),
        }
    }

    fn any_further(
        &mut self,
        at: &Setting<'a>,
        value: u128,
        part: &'a TypedExpr,
        others: &'a [TypedExpr],
    ) -> Result<Doing<'a>, AllocError>
        ensures { IfOk result (Charges at.now (from_part at.now self.old (any_in value (part.now ∷ others.now))) self.old self.new) }
    {
        if !self.state.pay(self.frame.inv, TEST) {
            return Ok(Doing::Over(Outcome::OutOfFuel));
        }
        match value {
            0 => self.wait(at, Task::Or(others), part),
            _ => Ok(Doing::Give(value)),
        }
    }

    /// Goes on with the further parts of a sum or product.
    pub(crate) fn further(
        &mut self,
        at: &Setting<'a>,
        total: u128,
        parts: &'a [(Op, TypedExpr)],
    ) -> Result<Doing<'a>, AllocError>
        ensures { IfOk result (Goes at.now (from_part at.now self.old (chain_in total parts.now)) self.old (parts_size parts.now + 2) self.new) }
    {
        match parts {
            [] => Ok(Doing::Give(total)),
            [part, others @ ..] => {
                self.tasks.push(Task::Further(total, part.0, others))?;
                Ok(Doing::Eval(&part.1))
            }
        }
    }

    /// Charges for an operator, applies it, and goes on.
    pub(crate) fn operate(
        &mut self,
        at: &Setting<'a>,
        total: u128,
        op: Op,
        value: u128,
        parts: &'a [(Op, TypedExpr)],
    ) -> Result<Doing<'a>, AllocError>
        ensures { IfOk result (Charges at.now (from_part at.now self.old (further_in total op value parts.now)) self.old self.new) }
    {
        if !self.state.pay(self.frame.inv, OPERATOR) {
            return Ok(Doing::Over(Outcome::OutOfFuel));
        }
        match op_value(op, total, value) {
            Ok(value) => self.further(at, value, parts),
            Err(cause) => Ok(Doing::Stop(cause)),
        }
    }

    pub(crate) fn compare(
        &mut self,
        at: &Setting<'a>,
        left: u128,
        op: Op,
        right: u128,
    ) -> Result<Doing<'a>, AllocError>
        ensures { IfOk result (Charges at.now (from_part at.now self.old (compared_in left op right)) self.old self.new) }
    {
        if !self.state.pay(self.frame.inv, OPERATOR) {
            return Ok(Doing::Over(Outcome::OutOfFuel));
        }
        match op_value(op, left, right) {
            Ok(value) => Ok(Doing::Give(value)),
            Err(cause) => Ok(Doing::Stop(cause)),
        }
    }

    pub(crate) fn not(&mut self, at: &Setting<'a>, value: u128) -> Result<Doing<'a>, AllocError>
        ensures { IfOk result (Charges at.now (from_part at.now self.old (not_in value)) self.old self.new) }
    {
        if !self.state.pay(self.frame.inv, OPERATOR) {
            return Ok(Doing::Over(Outcome::OutOfFuel));
        }
        Ok(Doing::Give(u128::from(value == 0)))
    }

    /// Begins a call: the target first, if it has one, and then the arguments.
    pub(crate) fn call(
        &mut self,
        at: &Setting<'a>,
        call: &'a TypedCall,
    ) -> Result<Doing<'a>, AllocError>
        ensures { IfOk result (Goes at.now (from_part at.now self.old (answer_in call.now)) self.old (call_size call.now + 1) self.new) }
    {
        match call {
            TypedCall::External { target, name, args } => self.wait(
                at,
                Task::Target(false, *name, args.as_slice()),
                target.get(),
            ),
            TypedCall::Internal { name, args } => {
                self.args.open()?;
                self.argument(at, Callee::Internal(*name), args.as_slice())
            }
        }
    }
}

/// An operator's value at two numbers, or why there is none.
fn op_value(op: Op, x: u128, y: u128) -> Result<u128, Cause>
    ensures { result ≡ op_value op x y }
{
    match op {
        Op::Add => x.checked_add(y).ok_or(Cause::Overflow),
        Op::Sub => x.checked_sub(y).ok_or(Cause::Overflow),
        Op::Mul => x.checked_mul(y).ok_or(Cause::Overflow),
        Op::Div => x.checked_div(y).ok_or(Cause::DivZero),
        Op::Rem => x.checked_rem(y).ok_or(Cause::DivZero),
        Op::Eq => Ok(u128::from(x == y)),
        Op::Ne => Ok(u128::from(x != y)),
        Op::Lt => Ok(u128::from(x < y)),
        Op::Le => Ok(u128::from(x <= y)),
        Op::Gt => Ok(u128::from(x > y)),
        Op::Ge => Ok(u128::from(x >= y)),
    }
}
