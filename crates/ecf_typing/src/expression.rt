//! Goes through expressions and calls: their faults are noted, and their numbered forms made.

ghost use Rattle.std.specs.Prelude.{◌≡◌, map, IfOk, OnOk, None, Some};
ghost use Rattle.std.specs.List.{flat_map};
ghost use Rattle.std.specs.Option.{option_map};
ghost use Rattle.ecf_lang.specs.declared.tree.Ty.TheVariants.{Num, Flag};
ghost use Rattle.ecf_lang.specs.declared.tree.Expr.TheVariants as tree;
ghost use Rattle.ecf_faults.specs.Expressions.{faults_for, own_method, first_place, argument_faults, referent, referent_of};
ghost use Rattle.ecf_faults.specs.Tables.{declaration_of};
ghost use Rattle.ecf_faults.specs.Least.{least_with};
ghost use Rattle.ecf_typing.specs.Views.{contents_of, signature_view, view_of};
ghost use Rattle.ecf_typing.specs.Summaries.{object_else, report, call_report, Summarizes, SummarizesFor};

use crate::form::{
    Summary, compare, external, flag, here, index, internal, left_side_type, not, number,
    plain_summary, product, right_side_type, sum,
};
use crate::least::FirstFault;
use crate::names::NameMap;
use crate::reference::{
    MethodTypes, byte, key_type, note_arity, note_map, note_referent, param_type, referent_form,
    referent_type,
};
use ecf_faults::Referent;
use ecf_lang::name::Name;
use ecf_lang::tree::{CallExpr, Expr, Op, Param, Ty};
use ecf_lang::typed::{FieldKind, TypedCall, TypedExpr};
use sqlite_items::Items;
use std::alloc::{AllocError, Global};

/// What is declared outside of methods, as an object sees it.
#[derive(Drop)]
pub(crate) struct Surroundings<'a> {
    pub(crate) objects: NameMap<'a, (usize, u32)>,
    pub(crate) signatures: NameMap<'a, MethodTypes<'a>>,
    pub(crate) own: NameMap<'a, (usize, FieldKind)>,
    pub(crate) methods: NameMap<'a, (usize, u32)>,
}

impl<'a> Surroundings<'a> {
    /// What a name without an index stands for that is no visible local.
    fn referent(&self, name: &[u8]) -> Referent
        ensures { let around = view_of self.now in
            result ≡ referent_of None (declaration_of around.own name.now) (declaration_of around.objects name.now) }
    {
        match self.own.get(name) {
            None => self.object_else(name, Referent::Nothing),
            Some((number, kind)) => match kind {
                FieldKind::Plain(ty) => Referent::Field(byte(number), ty),
                FieldKind::Map(_, _) => self.object_else(name, Referent::Map),
            },
        }
    }

    /// The object of a name, else what is given.
    fn object_else(&self, name: &[u8], other: Referent) -> Referent
        ensures { result ≡ object_else other (declaration_of (view_of self.now).objects name.now) }
    {
        match self.objects.get(name) {
            None => other,
            Some((object, _)) => Referent::Object(byte(object)),
        }
    }
}

/// What an expression can see.
#[derive(Clone, Copy)]
pub(crate) struct Sight<'s, 'a> {
    pub(crate) around: &'s Surroundings<'a>,
    pub(crate) visible: &'s NameMap<'a, (u8, Ty)>,
}

impl<'s, 'a> Sight<'s, 'a> {
    /// What a name without an index stands for.
    pub(crate) fn referent(&self, name: &Name) -> Referent
        ensures { result ≡ referent (view_of self.now.around.now) (contents_of self.now.visible.now) name.now }
    {
        let name = name.as_bytes();
        match self.visible.get(name) {
            Some((number, ty)) => Referent::Local(number, ty),
            None => self.around.referent(name),
        }
    }

    /// An expression of which a type may be required.
    #[cycle(expressions)]
    pub(crate) fn needs(
        &self,
        alloc: Global,
        want: Option<Ty>,
        expr: &Expr,
        faults: &mut FirstFault,
    ) -> Result<Summary<TypedExpr>, AllocError>
        ensures { IfOk result (SummarizesFor want (report self.now expr.now) faults.old.first faults.new.first) }
    {
        let summary = self.expr(alloc, expr, faults)?;
        faults.note_type(want, summary.ty, summary.place);
        Ok(summary)
    }

    #[cycle(expressions)]
    fn expr(
        &self,
        alloc: Global,
        expr: &Expr,
        faults: &mut FirstFault,
    ) -> Result<Summary<TypedExpr>, AllocError>
        ensures { IfOk result (Summarizes (report self.now expr.now) faults.old.first faults.new.first) }
    {
        match expr {
            Expr::Number { at, value } => Ok(number(*at, *value)),
            Expr::Flag { at, value } => Ok(flag(*at, *value)),
            Expr::Here { at } => Ok(here(*at)),
            Expr::Name { at, name } => Ok(self.name(*at, name, faults)),
            Expr::At { at, name, key } => {
                let own = self.around.own.get(name.as_bytes());
                note_map(*at, own, faults);
                let key = self.needs(alloc, key_type(own), key.get(), faults)?;
                index(alloc, *at, own, key)
            }
            Expr::Call { call } => {
                let call = self.call(alloc, call, faults)?;
                Ok(Summary {
                    place: call.place,
                    ty: call.ty,
                    form: TypedExpr::Call { call: call.form },
                })
            }
            Expr::Not { at, inner } => {
                let inner = self.needs(alloc, Some(Ty::Flag), inner.get(), faults)?;
                not(alloc, *at, inner)
            }
            Expr::Product { first, rest } => {
                let first = self.needs(alloc, Some(Ty::Num), first.get(), faults)?;
                let rest = self.further(alloc, rest.as_slice(), faults)?;
                product(alloc, first, rest)
            }
            Expr::Sum { first, rest } => {
                let first = self.needs(alloc, Some(Ty::Num), first.get(), faults)?;
                let rest = self.further(alloc, rest.as_slice(), faults)?;
                sum(alloc, first, rest)
            }
            Expr::Compare { left, op, right } => {
                let left = self.needs(alloc, left_side_type(*op), left.get(), faults)?;
                let right = self.needs(alloc, right_side_type(*op, left.ty), right.get(), faults)?;
                compare(alloc, left, *op, right)
            }
            Expr::And { parts } => {
                let (place, parts) = self.flags(alloc, parts.as_slice(), faults)?;
                Ok(plain_summary(place, Ty::Flag, TypedExpr::And { parts }))
            }
            Expr::Or { parts } => {
                let (place, parts) = self.flags(alloc, parts.as_slice(), faults)?;
                Ok(plain_summary(place, Ty::Flag, TypedExpr::Or { parts }))
            }
        }
    }

    #[tactic(auto, using(crate::proofs::ExpressionLaws::name_summary))]
    fn name(&self, at: u32, name: &Name, faults: &mut FirstFault) -> Summary<TypedExpr>
        ensures { Summarizes (report self.now (tree.Name at name.now)) faults.old.first faults.new.first result }
    {
        let referent = self.referent(name);
        note_referent(at, referent, faults);
        Summary {
            place: at,
            ty: referent_type(referent),
            form: referent_form(referent),
        }
    }

    #[cycle(expressions)]
    pub(crate) fn call(
        &self,
        alloc: Global,
        call: &CallExpr,
        faults: &mut FirstFault,
    ) -> Result<Summary<TypedCall>, AllocError>
        ensures { IfOk result (Summarizes (call_report self.now call.now) faults.old.first faults.new.first) }
    {
        match call {
            CallExpr::External {
                at,
                target,
                name_at,
                name,
                args,
            } => {
                let method = self.around.signatures.get(name.as_bytes());
                let target = self.needs(alloc, Some(Ty::Addr), target.get(), faults)?;
                let params = note_arity(*name_at, method, args.len(), faults);
                let args = self.args(alloc, params, args.as_slice(), faults)?;
                external(alloc, *at, target, method, args)
            }
            CallExpr::Internal {
                at,
                name_at,
                name,
                args,
            } => {
                let method = self.own_method(name);
                let params = note_arity(*name_at, method, args.len(), faults);
                let args = self.args(alloc, params, args.as_slice(), faults)?;
                Ok(internal(*at, method, args))
            }
        }
    }

    /// A method that the own object has, with the types of the first method of its name.
    fn own_method(&self, name: &Name) -> Option<MethodTypes<'a>>
        ensures { option_map signature_view result ≡ own_method (view_of self.now.around.now) name.now }
    {
        if self.around.methods.get(name.as_bytes()).is_some() {
            self.around.signatures.get(name.as_bytes())
        } else {
            None
        }
    }

    /// Arguments, each with the type that it needs if there is one.
    #[cycle(expressions)]
    #[tactic(auto, using(crate::proofs::ExpressionLaws::args_more, crate::proofs::ExpressionLaws::args_all, crate::proofs::LoopLaws::made_more))]
    fn args(
        &self,
        alloc: Global,
        params: &[Param],
        args: &[Expr],
        faults: &mut FirstFault,
    ) -> Result<Items<TypedExpr>, AllocError>
        ensures form { IfOk result (λ made. made ≡ map (λ arg. (report self.now arg).form) args.now) }
        ensures faults { let tys = map (λ param. param.ty) params.now in
            OnOk result (faults.new.first ≡ least_with faults.old.first (argument_faults tys (map (report self.now) args.now))) }
    {
        let mut made = Items::new(alloc);
        for (i, arg) in args.iter().enumerate() {
            let want = param_type(params, i);
            made.push(self.needs(alloc, want, arg, faults)?.form)?;
        }
        Ok(made)
    }

    /// Further parts of a sum or product.
    #[cycle(expressions)]
    #[tactic(auto, using(crate::proofs::LoopLaws::noted_more, crate::proofs::LoopLaws::made_more))]
    fn further(
        &self,
        alloc: Global,
        parts: &[(Op, Expr)],
        faults: &mut FirstFault,
    ) -> Result<Items<(Op, TypedExpr)>, AllocError>
        ensures form { IfOk result (λ made. made ≡ map (λ part. (part.0, (report self.now part.1).form)) parts.now) }
        ensures faults { let all = flat_map (λ part. faults_for (Some Num) (report self.now part.1)) parts.now in
            OnOk result (faults.new.first ≡ least_with faults.old.first all) }
    {
        let mut made = Items::new(alloc);
        for (op, part) in parts {
            let part = self.needs(alloc, Some(Ty::Num), part, faults)?;
            made.push((*op, part.form))?;
        }
        Ok(made)
    }

    /// Parts that have to be flags, and the token of the first.
    #[cycle(expressions)]
    fn flags(
        &self,
        alloc: Global,
        parts: &[Expr],
        faults: &mut FirstFault,
    ) -> Result<(u32, Items<TypedExpr>), AllocError>
        ensures place { IfOk result (λ r. r.0 ≡ first_place (map (report self.now) parts.now)) }
        ensures form { IfOk result (λ r. r.1 ≡ map (λ part. (report self.now part).form) parts.now) }
        ensures faults { let all = flat_map (λ part. faults_for (Some Flag) (report self.now part)) parts.now in
            OnOk result (faults.new.first ≡ least_with faults.old.first all) }
    {
        let mut made = Items::new(alloc);
        let mut place = 0;
        for part in parts {
            let part = self.needs(alloc, Some(Ty::Flag), part, faults)?;
            if made.is_empty() {
                place = part.place;
            }
            made.push(part.form)?;
        }
        Ok((place, made))
    }
}
