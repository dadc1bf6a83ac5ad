//! Goes through statements and blocks: their faults are noted, their numbered forms made, and locals declared.

ghost use Rattle.std.specs.Prelude.{◌≡◌, map, not, nat_lt, IfOk, OnOk};
ghost use Rattle.ecf_lang.specs.declared.tree.Stmt.TheVariants as tree;
ghost use Rattle.ecf_lang.specs.declared.typed.TypedCall.{out-TypedCall};
ghost use Rattle.ecf_faults.specs.Expressions.{call_report_of};
ghost use Rattle.ecf_faults.specs.Statements.{sequence_of, value, with_local, local_faults, next_number, try_form};
ghost use Rattle.ecf_faults.specs.Declarations.{parameter_locals, parameter_faults};
ghost use Rattle.ecf_faults.specs.Least.{least_with};
ghost use Rattle.ecf_typing.specs.Views.{view_of};
ghost use Rattle.ecf_typing.specs.Summaries.{summary_of};
ghost use Rattle.ecf_typing.specs.Passes.{Passes, stmt_at, block_at, last_at, locals_of};

use crate::expression::{Sight, Surroundings};
use crate::form::Summary;
use crate::least::FirstFault;
use crate::names::NameMap;
use crate::reference::{
    assignee_form, assignee_type, key_type, map_number, note_assignee, note_map, value_type,
};
use ecf_faults::What;
use ecf_lang::limits::{MAX_LOCALS, MAX_PARAMETERS};
use ecf_lang::name::Name;
use ecf_lang::tree::{Block, CallExpr, Expr, Param, Stmt, Ty};
use ecf_lang::typed::{TypedBlock, TypedCall, TypedExpr, TypedStmt};
use sqlite_items::Items;
use std::alloc::{AllocError, Global};

/// What stays the same in a method's body.
#[derive(Clone, Copy)]
pub(crate) struct Setting<'s, 'a> {
    pub(crate) around: &'s Surroundings<'a>,
    pub(crate) answer: Ty,
}

/// What is known in the middle of a method's body: the locals that are visible, the number of the next one, and the first
/// fault so far.
#[derive(Drop)]
pub(crate) struct BodyCheck<'a> {
    pub(crate) visible: NameMap<'a, (u8, Ty)>,
    pub(crate) next: u8,
    pub(crate) faults: FirstFault,
}

impl<'a> BodyCheck<'a> {
    /// Declares a local, and answers its number.
    #[tactic(auto, using(crate::proofs::StatementLaws::local_noted))]
    pub(crate) fn declare(
        &mut self,
        limit: usize,
        at: u32,
        name: &'a Name,
        ty: Ty,
    ) -> Result<u8, AllocError>
        ensures number { IfOk result (λ n. n ≡ self.old.next) }
        ensures noted { let own = local_faults limit at name.now (locals_of self.old) in
            OnOk result (self.new.faults.first ≡ least_with self.old.faults.first own) }
        ensures after { OnOk result (locals_of self.new ≡ with_local name.now ty (locals_of self.old)) }
    {
        let number = self.next;
        let known = self.visible.get(name.as_bytes()).is_some();
        self.faults.note_if(known, at, What::TwoLocals);
        self.faults
            .note_if(is_past(number, limit), at, What::TooManyLocals);
        self.visible.declare(name.as_bytes(), (number, ty))?;
        self.next = next_number(number);
        Ok(number)
    }

    /// Declares parameters.
    #[tactic(auto, using(crate::proofs::MemberLaws::parameters_more))]
    pub(crate) fn parameters(&mut self, params: &'a [Param]) -> Result<(), AllocError>
        ensures faults { let all = parameter_faults (locals_of self.old) params.now in
            OnOk result (self.new.faults.first ≡ least_with self.old.faults.first all) }
        ensures after { OnOk result (locals_of self.new ≡ parameter_locals (locals_of self.old) params.now) }
    {
        for param in params {
            self.declare(MAX_PARAMETERS, param.at, &param.name, param.ty)?;
        }
        Ok(())
    }

    /// An expression from which a type may be required.
    fn value(
        &mut self,
        alloc: Global,
        setting: &Setting<'_, 'a>,
        want: Option<Ty>,
        expr: &Expr,
    ) -> Result<TypedExpr, AllocError>
        ensures { IfOk result (Passes (value (view_of setting.now.around.now) setting.now.answer want expr.now (locals_of self.old)) self.old self.new) }
    {
        let sight = Sight {
            around: setting.around,
            visible: &self.visible,
        };
        let summary = sight.needs(alloc, want, expr, &mut self.faults)?;
        Ok(summary.form)
    }

    /// Statements one after the other.
    #[cycle(statements)]
    fn stmts(
        &mut self,
        alloc: Global,
        setting: &Setting<'_, 'a>,
        stmts: &'a [Stmt],
    ) -> Result<Items<TypedStmt>, AllocError>
        ensures { IfOk result (Passes (sequence_of (map (stmt_at setting.now) stmts.now) (locals_of self.old)) self.old self.new) }
    {
        let mut made = Items::new(alloc);
        for stmt in stmts {
            made.push(self.stmt(alloc, setting, stmt)?)?;
        }
        Ok(made)
    }

    /// A block, whose locals are forgotten at its end.
    #[cycle(statements)]
    pub(crate) fn block(
        &mut self,
        alloc: Global,
        setting: &Setting<'_, 'a>,
        block: &'a Block,
    ) -> Result<TypedBlock, AllocError>
        ensures { IfOk result (Passes (block_at setting.now block.now (locals_of self.old)) self.old self.new) }
    {
        let visible = self.visible.len();
        let stmts = self.stmts(alloc, setting, block.stmts.as_slice())?;
        self.visible.truncate(visible);
        Ok(TypedBlock { stmts })
    }

    #[cycle(statements)]
    fn stmt(
        &mut self,
        alloc: Global,
        setting: &Setting<'_, 'a>,
        stmt: &'a Stmt,
    ) -> Result<TypedStmt, AllocError>
        ensures { IfOk result (Passes (stmt_at setting.now stmt.now (locals_of self.old)) self.old self.new) }
    {
        match stmt {
            Stmt::Let {
                at,
                name,
                ty,
                value,
            } => self.let_stmt(alloc, setting, *at, name, *ty, value),
            Stmt::Set { at, name, value } => self.set_stmt(alloc, setting, *at, name, value),
            Stmt::If { arms, last } => {
                let mut made = Items::new(alloc);
                for (cond, block) in arms.as_slice() {
                    let cond = self.value(alloc, setting, Some(Ty::Flag), cond)?;
                    let block = self.block(alloc, setting, block)?;
                    made.push((cond, block))?;
                }
                let last = self.last(alloc, setting, last)?;
                Ok(TypedStmt::If { arms: made, last })
            }
            Stmt::While { cond, body } => {
                let cond = self.value(alloc, setting, Some(Ty::Flag), cond)?;
                let body = self.block(alloc, setting, body)?;
                Ok(TypedStmt::While { cond, body })
            }
            Stmt::Return { value } => {
                let value = self.value(alloc, setting, Some(setting.answer), value)?;
                Ok(TypedStmt::Return { value })
            }
            Stmt::Revert { value } => {
                let value = self.value(alloc, setting, Some(Ty::Num), value)?;
                Ok(TypedStmt::Revert { value })
            }
            Stmt::SetAt {
                at,
                name,
                key,
                value,
            } => self.set_at_stmt(alloc, setting, *at, name, key, value),
            Stmt::Try { at, name, ty, call } => {
                self.try_stmt(alloc, setting, *at, name, *ty, call)
            }
            Stmt::Do { call } => {
                let call = self.call(alloc, setting, call)?;
                Ok(TypedStmt::Do { call: call.form })
            }
        }
    }

    /// The last block of an `if`, where there is one.
    #[cycle(statements)]
    fn last(
        &mut self,
        alloc: Global,
        setting: &Setting<'_, 'a>,
        last: &'a Option<Block>,
    ) -> Result<Option<TypedBlock>, AllocError>
        ensures { IfOk result (Passes (last_at setting.now last.now (locals_of self.old)) self.old self.new) }
    {
        match last {
            None => Ok(None),
            Some(last) => Ok(Some(self.block(alloc, setting, last)?)),
        }
    }

    fn call(
        &mut self,
        alloc: Global,
        setting: &Setting<'_, 'a>,
        call: &CallExpr,
    ) -> Result<Summary<TypedCall>, AllocError>
        ensures says { IfOk result (λ c. c ≡ summary_of (call_report_of (view_of setting.now.around.now) (locals_of self.old).visible call.now)) }
        ensures noted { let report = call_report_of (view_of setting.now.around.now) (locals_of self.old).visible call.now in
            OnOk result (self.new.faults.first ≡ least_with self.old.faults.first report.faults) }
        ensures same { OnOk result (locals_of self.new ≡ locals_of self.old) }
    {
        let sight = Sight {
            around: setting.around,
            visible: &self.visible,
        };
        sight.call(alloc, call, &mut self.faults)
    }

    fn try_stmt(
        &mut self,
        alloc: Global,
        setting: &Setting<'_, 'a>,
        at: u32,
        name: &'a Name,
        ty: Ty,
        call: &CallExpr,
    ) -> Result<TypedStmt, AllocError>
        ensures { IfOk result (Passes (stmt_at setting.now (tree.Try at name.now ty call.now) (locals_of self.old)) self.old self.new) }
    {
        let call = self.call(alloc, setting, call)?;
        self.faults.note_type(Some(Ty::Flag), Some(ty), call.place);
        let local = self.declare(MAX_LOCALS, at, name, ty)?;
        Ok(try_form(local, call.form))
    }

    fn set_at_stmt(
        &mut self,
        alloc: Global,
        setting: &Setting<'_, 'a>,
        at: u32,
        name: &Name,
        key: &Expr,
        value: &Expr,
    ) -> Result<TypedStmt, AllocError>
        ensures { IfOk result (Passes (stmt_at setting.now (tree.SetAt at name.now key.now value.now) (locals_of self.old)) self.old self.new) }
    {
        let own = setting.around.own.get(name.as_bytes());
        note_map(at, own, &mut self.faults);
        let key = self.value(alloc, setting, key_type(own), key)?;
        let value = self.value(alloc, setting, value_type(own), value)?;
        Ok(TypedStmt::SetAt {
            map: map_number(own),
            key,
            value,
        })
    }

    fn let_stmt(
        &mut self,
        alloc: Global,
        setting: &Setting<'_, 'a>,
        at: u32,
        name: &'a Name,
        ty: Ty,
        value: &Expr,
    ) -> Result<TypedStmt, AllocError>
        ensures { IfOk result (Passes (stmt_at setting.now (tree.Let at name.now ty value.now) (locals_of self.old)) self.old self.new) }
    {
        let value = self.value(alloc, setting, Some(ty), value)?;
        let local = self.declare(MAX_LOCALS, at, name, ty)?;
        Ok(TypedStmt::Let { local, ty, value })
    }

    fn set_stmt(
        &mut self,
        alloc: Global,
        setting: &Setting<'_, 'a>,
        at: u32,
        name: &Name,
        value: &Expr,
    ) -> Result<TypedStmt, AllocError>
        ensures { IfOk result (Passes (stmt_at setting.now (tree.Set at name.now value.now) (locals_of self.old)) self.old self.new) }
    {
        let sight = Sight {
            around: setting.around,
            visible: &self.visible,
        };
        let left = sight.referent(name);
        note_assignee(at, left, &mut self.faults);
        let value = self.value(alloc, setting, assignee_type(left), value)?;
        Ok(TypedStmt::Set {
            to: assignee_form(left),
            value,
        })
    }
}

fn is_past(number: u8, limit: usize) -> bool
    ensures { result ≡ not (nat_lt number limit) }
{
    usize::from(number) >= limit
}

/// The number of the local behind one; it stays where there are as many as a method may have.
fn next_number(number: u8) -> u8
    ensures { result ≡ next_number number }
{
    if usize::from(number) < MAX_LOCALS {
        number + 1
    } else {
        number
    }
}

fn try_form(local: u8, call: TypedCall) -> TypedStmt
    ensures { result ≡ try_form local (out-TypedCall call) }
{
    match call {
        TypedCall::External { target, name, args } => TypedStmt::Try {
            local,
            target: target.into_inner(),
            name,
            args,
        },
        TypedCall::Internal { name, args } => TypedStmt::Try {
            local,
            target: TypedExpr::Here,
            name,
            args,
        },
    }
}
