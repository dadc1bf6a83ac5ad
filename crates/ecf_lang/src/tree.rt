//! A contract file as its grammar has it, with token places for faults. Parentheses leave no trace and
//! chains of one level are flat.

use crate::name::Name;
use sqlite_items::{Boxed, Items};

/// A type of the language.
#[derive(Clone, Copy, Debug, PartialEq, Eq)]
pub enum Ty {
    /// A number from 0 to 2^128 - 1.
    Num,
    /// `false` or `true`, kept as 0 or 1.
    Flag,
    /// The number of an object.
    Addr,
}

/// An operator with two sides.
#[derive(Clone, Copy, Debug, PartialEq, Eq)]
pub enum Op {
    Add,
    Sub,
    Mul,
    Div,
    Rem,
    Eq,
    Ne,
    Lt,
    Le,
    Gt,
    Ge,
}

/// A whole contract file.
#[derive(Debug, Drop)]
pub struct Tree {
    pub objects: Items<ObjectDecl>,
}

/// An object with its members, all in text order.
#[derive(Debug, Drop)]
pub struct ObjectDecl {
    /// The token of the name.
    pub at: u32,
    pub name: Name,
    pub members: Items<Member>,
}

/// A field, a map or a method. `at` is the token of its name.
#[derive(Debug, Drop)]
pub enum Member {
    Field {
        at: u32,
        name: Name,
        ty: Ty,
        first: Option<Const>,
    },
    Map {
        at: u32,
        name: Name,
        key: Ty,
        value: Ty,
        /// The initial pairs of key and value.
        first: Items<(Const, Const)>,
    },
    Method {
        at: u32,
        name: Name,
        params: Items<Param>,
        answer: Ty,
        body: Block,
    },
}

/// A parameter. `at` is the token of its name.
#[derive(Debug, Drop)]
pub struct Param {
    pub at: u32,
    pub name: Name,
    pub ty: Ty,
}

/// An initial value. `at` is its token.
#[derive(Debug, Drop)]
pub enum Const {
    Number { at: u32, value: u128 },
    Flag { at: u32, value: bool },
    Name { at: u32, name: Name },
}

/// Statements between braces.
#[cycle(tree_statements)]
#[derive(Debug, Drop)]
pub struct Block {
    pub stmts: Items<Stmt>,
}

/// A statement. `at` is the token of the name that is set.
#[cycle(tree_statements)]
#[derive(Debug, Drop)]
pub enum Stmt {
    Let {
        at: u32,
        name: Name,
        ty: Ty,
        value: Expr,
    },
    /// A `let` that keeps whether a call answered; the call is external and has the token of `try` as its place.
    Try {
        at: u32,
        name: Name,
        ty: Ty,
        call: CallExpr,
    },
    Set {
        at: u32,
        name: Name,
        value: Expr,
    },
    SetAt {
        at: u32,
        name: Name,
        key: Expr,
        value: Expr,
    },
    If {
        /// The conditions with their blocks, in order.
        arms: Items<(Expr, Block)>,
        last: Option<Block>,
    },
    While {
        cond: Expr,
        body: Block,
    },
    Return {
        value: Expr,
    },
    Revert {
        value: Expr,
    },
    Do {
        call: CallExpr,
    },
}

/// An expression. `at` is its token; one without has the place of its first part.
#[cycle(tree_expressions)]
#[derive(Debug, Drop)]
pub enum Expr {
    Number {
        at: u32,
        value: u128,
    },
    Flag {
        at: u32,
        value: bool,
    },
    Here {
        at: u32,
    },
    Name {
        at: u32,
        name: Name,
    },
    At {
        at: u32,
        name: Name,
        key: Boxed<Expr>,
    },
    Call {
        call: CallExpr,
    },
    /// `at` is the `!`.
    Not {
        at: u32,
        inner: Boxed<Expr>,
    },
    /// At least one further part, each behind `*`, `/` or `%`.
    Product {
        first: Boxed<Expr>,
        rest: Items<(Op, Expr)>,
    },
    /// At least one further part, each behind `+` or `-`.
    Sum {
        first: Boxed<Expr>,
        rest: Items<(Op, Expr)>,
    },
    /// `==`, `!=`, `<`, `<=`, `>` or `>=` between two sides.
    Compare {
        left: Boxed<Expr>,
        op: Op,
        right: Boxed<Expr>,
    },
    /// At least two parts.
    And {
        parts: Items<Expr>,
    },
    /// At least two parts.
    Or {
        parts: Items<Expr>,
    },
}

/// A call. `at` is the `call`, `self` or `try`, and `name_at` the method's name.
#[cycle(tree_expressions)]
#[derive(Debug, Drop)]
pub enum CallExpr {
    External {
        at: u32,
        target: Boxed<Expr>,
        name_at: u32,
        name: Name,
        args: Items<Expr>,
    },
    Internal {
        at: u32,
        name_at: u32,
        name: Name,
        args: Items<Expr>,
    },
}
