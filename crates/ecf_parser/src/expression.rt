//! Expressions: a function for each line of the grammar. Each call back to a whole expression stands behind an opening bracket,
//! so brackets bound how deep the calls go.

ghost use Rattle.std.specs.Prelude.{◌≡◌, ◌<◌, ◌≤◌, ◌++◌, [], ◌∷◌, length, IfOk, OnOk, IsSome};
ghost use Rattle.ecf_grammar.specs.Spells as grammar;
ghost use Rattle.ecf_grammar.specs.declared.tokens.Sign.TheVariants as signs;
ghost use Rattle.ecf_parser.specs.Descent as spec;
ghost use Rattle.ecf_parser.specs.Parsers as reading;
ghost use Rattle.ecf_parser.specs.Parses.{Parses};

use crate::cursor::{Cursor, ParseFault, with};
use crate::tables::{comparison_op, product_op, sum_op};
use ecf_grammar::{Kind, Sign, Word};
use ecf_lang::tree::{CallExpr, Expr, Op};
use sqlite_items::{Boxed, Items};
use std::alloc::{AllocError, Global};

/// Parts joined by `||`, of which one alone stays as it is.
fn either_of(alloc: Global, first: Expr, rest: Items<Expr>) -> Result<Expr, AllocError>
    ensures { IfOk result (λ e. e ≡ grammar.either_of first rest) }
{
    if rest.is_empty() {
        return Ok(first);
    }
    let mut parts = Items::new(alloc);
    parts.push(first)?;
    parts.append(rest)?;
    Ok(Expr::Or { parts })
}

/// Parts joined by `&&`, of which one alone stays as it is.
fn both_of(alloc: Global, first: Expr, rest: Items<Expr>) -> Result<Expr, AllocError>
    ensures { IfOk result (λ e. e ≡ grammar.both_of first rest) }
{
    if rest.is_empty() {
        return Ok(first);
    }
    let mut parts = Items::new(alloc);
    parts.push(first)?;
    parts.append(rest)?;
    Ok(Expr::And { parts })
}

/// A first term and further ones; alone it stays as it is.
fn sum_of(alloc: Global, first: Expr, rest: Items<(Op, Expr)>) -> Result<Expr, AllocError>
    ensures { IfOk result (λ e. e ≡ grammar.sum_of first rest) }
{
    if rest.is_empty() {
        return Ok(first);
    }
    Ok(Expr::Sum {
        first: Boxed::new(alloc, first)?,
        rest,
    })
}

/// A first factor and further ones; alone it stays as it is.
fn product_of(alloc: Global, first: Expr, rest: Items<(Op, Expr)>) -> Result<Expr, AllocError>
    ensures { IfOk result (λ e. e ≡ grammar.product_of first rest) }
{
    if rest.is_empty() {
        return Ok(first);
    }
    Ok(Expr::Product {
        first: Boxed::new(alloc, first)?,
        rest,
    })
}

impl<'a> Cursor<'a> {
    /// Takes an operator that compares, if one comes next.
    #[tactic(auto, using(crate::proofs::CursorLaws::op_eaten, crate::proofs::TakeLaws::leaves_op, crate::proofs::CursorLaws::some_op))]
    fn eat_comparison_op(&mut self) -> Option<Op>
        ensures read { reading.operator grammar.comparison_op self.old ≡ Ok (result, self.new) }
        ensures fewer { IsSome result → length self.new < length self.old }
        ensures kept { result ≡ None → self.new ≡ self.old }
    {
        let op = comparison_op(self.peek())?;
        self.skip();
        Some(op)
    }

    /// Takes an operator between terms, if one comes next.
    #[tactic(auto, using(crate::proofs::CursorLaws::op_eaten, crate::proofs::TakeLaws::leaves_op, crate::proofs::CursorLaws::some_op))]
    fn eat_sum_op(&mut self) -> Option<Op>
        ensures read { reading.operator grammar.sum_op self.old ≡ Ok (result, self.new) }
        ensures fewer { IsSome result → length self.new < length self.old }
        ensures kept { result ≡ None → self.new ≡ self.old }
    {
        let op = sum_op(self.peek())?;
        self.skip();
        Some(op)
    }

    /// Takes an operator between factors, if one comes next.
    #[tactic(auto, using(crate::proofs::CursorLaws::op_eaten, crate::proofs::TakeLaws::leaves_op, crate::proofs::CursorLaws::some_op))]
    fn eat_product_op(&mut self) -> Option<Op>
        ensures read { reading.operator grammar.product_op self.old ≡ Ok (result, self.new) }
        ensures fewer { IsSome result → length self.new < length self.old }
        ensures kept { result ≡ None → self.new ≡ self.old }
    {
        let op = product_op(self.peek())?;
        self.skip();
        Some(op)
    }

    /// Parts with `||` between.
    #[cycle(expressions)]
    #[tactic(auto, using(crate::proofs::LoopLaws::either_done, crate::proofs::LoopLaws::either_first, crate::proofs::LoopLaws::either_rest, crate::proofs::WithLaws::parsed, crate::proofs::WithLaws::refused, crate::proofs::WithLaws::still_fewer))]
    pub fn expr(&mut self) -> Result<Expr, ParseFault>
        ensures read { Parses (spec.expr self.old) result self.new }
        ensures fewer { OnOk result (length self.new < length self.old) }
    {
        let first = self.both()?;
        let (first, rest) = with(first, self.ors())?;
        Ok(either_of(self.alloc, first, rest)?)
    }

    /// Further parts, each behind `||`.
    #[cycle(expressions)]
    #[tactic(auto, using(crate::proofs::LoopLaws::front_nil, crate::proofs::LoopLaws::ors_more, crate::proofs::LoopLaws::ors_stuck, crate::proofs::LoopLaws::ors_over))]
    fn ors(&mut self) -> Result<Items<Expr>, ParseFault>
        ensures read { Parses (reading.each signs.Or (spec.both spec.expr) self.old) result self.new }
        ensures no_more { OnOk result (length self.new ≤ length self.old) }
    {
        let mut rest = Items::new(self.alloc);
        'parts: while self.eat_sign(Sign::Or) {
            rest.push(self.both()?)?;
        }
        Ok(rest)
    }

    /// Parts with `&&` between.
    #[cycle(expressions)]
    #[tactic(auto, using(crate::proofs::LoopLaws::both_done, crate::proofs::LoopLaws::both_first, crate::proofs::LoopLaws::both_rest, crate::proofs::WithLaws::parsed, crate::proofs::WithLaws::refused, crate::proofs::WithLaws::still_fewer))]
    fn both(&mut self) -> Result<Expr, ParseFault>
        ensures read { Parses (spec.both spec.expr self.old) result self.new }
        ensures fewer { OnOk result (length self.new < length self.old) }
    {
        let first = self.comparison()?;
        let (first, rest) = with(first, self.ands())?;
        Ok(both_of(self.alloc, first, rest)?)
    }

    /// Further parts, each behind `&&`.
    #[cycle(expressions)]
    #[tactic(auto, using(crate::proofs::LoopLaws::front_nil, crate::proofs::LoopLaws::ands_more, crate::proofs::LoopLaws::ands_stuck, crate::proofs::LoopLaws::ands_over))]
    fn ands(&mut self) -> Result<Items<Expr>, ParseFault>
        ensures read { Parses (reading.each signs.And (spec.comparison spec.expr) self.old) result self.new }
        ensures no_more { OnOk result (length self.new ≤ length self.old) }
    {
        let mut rest = Items::new(self.alloc);
        'parts: while self.eat_sign(Sign::And) {
            rest.push(self.comparison()?)?;
        }
        Ok(rest)
    }

    /// A sum, or two with a sign that compares between.
    #[cycle(expressions)]
    #[tactic(auto, unfolding(crate::specs::Descent::comparison))]
    fn comparison(&mut self) -> Result<Expr, ParseFault>
        ensures read { Parses (spec.comparison spec.expr self.old) result self.new }
        ensures fewer { OnOk result (length self.new < length self.old) }
    {
        let left = self.sum()?;
        let Some(op) = self.eat_comparison_op() else {
            return Ok(left);
        };
        let left = Boxed::new(self.alloc, left)?;
        let right = Boxed::new(self.alloc, self.sum()?)?;
        Ok(Expr::Compare { left, op, right })
    }

    /// Products with `+` and `-` between.
    #[cycle(expressions)]
    #[tactic(auto, using(crate::proofs::LoopLaws::sum_done, crate::proofs::LoopLaws::sum_first, crate::proofs::LoopLaws::sum_rest, crate::proofs::WithLaws::parsed, crate::proofs::WithLaws::refused, crate::proofs::WithLaws::still_fewer))]
    fn sum(&mut self) -> Result<Expr, ParseFault>
        ensures read { Parses (spec.sum spec.expr self.old) result self.new }
        ensures fewer { OnOk result (length self.new < length self.old) }
    {
        let first = self.product()?;
        let (first, rest) = with(first, self.terms())?;
        Ok(sum_of(self.alloc, first, rest)?)
    }

    /// Further terms, each behind `+` or `-`.
    #[cycle(expressions)]
    #[tactic(auto, using(crate::proofs::LoopLaws::front_nil, crate::proofs::LoopLaws::terms_stuck))]
    fn terms(&mut self) -> Result<Items<(Op, Expr)>, ParseFault>
        ensures read { Parses (reading.chain grammar.sum_op (spec.product spec.expr) self.old) result self.new }
        ensures no_more { OnOk result (length self.new ≤ length self.old) }
    {
        let mut rest = Items::new(self.alloc);
        'terms: while let Some(op) = self.eat_sum_op() {
            rest.push((op, self.product()?))?;
        }
        Ok(rest)
    }

    /// Atoms with `*`, `/` and `%` between, each with or without a `!`.
    #[cycle(expressions)]
    #[tactic(auto, using(crate::proofs::LoopLaws::product_done, crate::proofs::LoopLaws::product_first, crate::proofs::LoopLaws::product_rest, crate::proofs::WithLaws::parsed, crate::proofs::WithLaws::refused, crate::proofs::WithLaws::still_fewer))]
    fn product(&mut self) -> Result<Expr, ParseFault>
        ensures read { Parses (spec.product spec.expr self.old) result self.new }
        ensures fewer { OnOk result (length self.new < length self.old) }
    {
        let first = self.unary()?;
        let (first, rest) = with(first, self.factors())?;
        Ok(product_of(self.alloc, first, rest)?)
    }

    /// Further factors, each behind `*`, `/` or `%`.
    #[cycle(expressions)]
    #[tactic(auto, using(crate::proofs::LoopLaws::front_nil, crate::proofs::LoopLaws::factors_stuck))]
    fn factors(&mut self) -> Result<Items<(Op, Expr)>, ParseFault>
        ensures read { Parses (reading.chain grammar.product_op (spec.unary spec.expr) self.old) result self.new }
        ensures no_more { OnOk result (length self.new ≤ length self.old) }
    {
        let mut rest = Items::new(self.alloc);
        'factors: while let Some(op) = self.eat_product_op() {
            rest.push((op, self.unary()?))?;
        }
        Ok(rest)
    }

    /// An atom, with or without a `!`.
    #[cycle(expressions)]
    #[tactic(auto, unfolding(crate::specs::Descent::unary))]
    fn unary(&mut self) -> Result<Expr, ParseFault>
        ensures read { Parses (spec.unary spec.expr self.old) result self.new }
        ensures fewer { OnOk result (length self.new < length self.old) }
    {
        if !self.sees(Sign::Not) {
            return self.atom();
        }
        let at = self.sign(Sign::Not)?;
        let inner = self.atom()?;
        Ok(Expr::Not {
            at,
            inner: Boxed::new(self.alloc, inner)?,
        })
    }

    /// A number, `true`, `false`, a call or what can be called.
    #[cycle(expressions)]
    #[tactic(auto, unfolding(crate::specs::Descent::atom))]
    fn atom(&mut self) -> Result<Expr, ParseFault>
        ensures read { Parses (spec.atom spec.expr self.old) result self.new }
        ensures fewer { OnOk result (length self.new < length self.old) }
    {
        match self.peek() {
            Some(Kind::Number(_)) => {
                let (at, value) = self.number()?;
                Ok(Expr::Number { at, value })
            }
            Some(Kind::Word(Word::True)) => {
                let at = self.word(Word::True)?;
                Ok(Expr::Flag { at, value: true })
            }
            Some(Kind::Word(Word::False)) => {
                let at = self.word(Word::False)?;
                Ok(Expr::Flag { at, value: false })
            }
            Some(Kind::Word(Word::Call)) | Some(Kind::Word(Word::SelfWord)) => {
                let call = self.invoke()?;
                Ok(Expr::Call { call })
            }
            _ => self.target(),
        }
    }

    /// `here`, a name, a name with an index, or an expression in parentheses.
    #[cycle(expressions)]
    #[tactic(auto, unfolding(crate::specs::Descent::target))]
    fn target(&mut self) -> Result<Expr, ParseFault>
        ensures read { Parses (spec.target spec.expr self.old) result self.new }
        ensures fewer { OnOk result (length self.new < length self.old) }
    {
        match self.peek() {
            Some(Kind::Word(Word::Here)) => {
                let at = self.word(Word::Here)?;
                Ok(Expr::Here { at })
            }
            Some(Kind::Name) => {
                let (at, name) = self.name()?;
                if !self.eat_sign(Sign::OpenBracket) {
                    return Ok(Expr::Name { at, name });
                }
                let key = Boxed::new(self.alloc, self.expr()?)?;
                self.sign(Sign::CloseBracket)?;
                Ok(Expr::At { at, name, key })
            }
            Some(Kind::Sign(Sign::OpenParen)) => {
                self.sign(Sign::OpenParen)?;
                let inner = self.expr()?;
                self.closed(inner, Sign::CloseParen)
            }
            _ => Err(ParseFault::OutOfPlace),
        }
    }

    /// A call behind `call`, or an internal one behind `self`.
    #[cycle(expressions)]
    #[tactic(auto, unfolding(crate::specs::Descent::invoke, crate::specs::Descent::internal))]
    pub fn invoke(&mut self) -> Result<CallExpr, ParseFault>
        ensures read { Parses (spec.invoke spec.expr self.old) result self.new }
        ensures fewer { OnOk result (length self.new < length self.old) }
    {
        match self.peek() {
            Some(Kind::Word(Word::Call)) => {
                let at = self.word(Word::Call)?;
                self.external(at)
            }
            Some(Kind::Word(Word::SelfWord)) => {
                let at = self.word(Word::SelfWord)?;
                self.sign(Sign::Dot)?;
                let (name_at, name) = self.name()?;
                let args = self.arguments()?;
                Ok(CallExpr::Internal {
                    at,
                    name_at,
                    name,
                    args,
                })
            }
            _ => Err(ParseFault::OutOfPlace),
        }
    }

    /// What stands behind `call` or `try`, whose token is `at`: a target, a method's name and arguments.
    #[cycle(expressions)]
    #[tactic(auto, unfolding(crate::specs::Descent::external))]
    pub fn external(&mut self, at: u32) -> Result<CallExpr, ParseFault>
        ensures read { Parses (spec.external spec.expr at self.old) result self.new }
        ensures fewer { OnOk result (length self.new < length self.old) }
    {
        let target = Boxed::new(self.alloc, self.target()?)?;
        self.sign(Sign::Dot)?;
        let (name_at, name) = self.name()?;
        let args = self.arguments()?;
        Ok(CallExpr::External {
            at,
            target,
            name_at,
            name,
            args,
        })
    }

    /// Expressions in parentheses with commas between, or none.
    #[cycle(expressions)]
    #[tactic(auto, unfolding(crate::specs::Descent::arguments))]
    fn arguments(&mut self) -> Result<Items<Expr>, ParseFault>
        ensures read { Parses (spec.arguments spec.expr self.old) result self.new }
        ensures fewer { OnOk result (length self.new < length self.old) }
    {
        self.sign(Sign::OpenParen)?;
        let args = self.exprs()?;
        self.sign(Sign::CloseParen)?;
        Ok(args)
    }

    /// Expressions with commas between up to a closing parenthesis, or none.
    #[cycle(expressions)]
    #[tactic(auto, using(crate::proofs::LoopLaws::exprs_none, crate::proofs::LoopLaws::exprs_first, crate::proofs::LoopLaws::exprs_some, crate::proofs::LoopLaws::commas_more, crate::proofs::LoopLaws::commas_stuck, crate::proofs::LoopLaws::commas_over))]
    fn exprs(&mut self) -> Result<Items<Expr>, ParseFault>
        ensures read { Parses (reading.list_of signs.Comma signs.CloseParen spec.expr self.old) result self.new }
        ensures no_more { OnOk result (length self.new ≤ length self.old) }
    {
        let mut args = Items::new(self.alloc);
        if self.sees(Sign::CloseParen) {
            return Ok(args);
        }
        args.push(self.expr()?)?;
        'further: while self.eat_sign(Sign::Comma) {
            args.push(self.expr()?)?;
        }
        Ok(args)
    }
}
