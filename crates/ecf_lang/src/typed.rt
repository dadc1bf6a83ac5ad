//! A contract with its names looked up: objects, fields, maps, methods and locals are numbers.

ghost use Rattle.std.specs.Prelude.{◌≡◌};
ghost use Rattle.std.specs.Option.{option_copied};
ghost use Rattle.ecf_lang.specs.Fits.{method_of, method_at};

use crate::name::Name;
use crate::tree::{Op, Ty};
use sqlite_items::{Boxed, Items};

/// A whole contract.
#[derive(Debug, Drop)]
pub struct Typed {
    pub objects: Items<TypedObject>,
    /// The method names, in order of first declaration in the file.
    pub names: Items<Name>,
    /// The one signature that each method name has.
    pub signatures: Items<Signature>,
}

impl Typed {
    /// The method of that name in the object of that number, if there are both.
    pub fn method(&self, object: u8, name: u16) -> Option<&TypedMethod>
        ensures { option_copied result ≡ method_at self.now object name }
    {
        self.objects.get(usize::from(object))?.method(name)
    }
}

/// What a method takes and answers.
#[derive(Debug, Drop)]
pub struct Signature {
    pub params: Items<Ty>,
    pub answer: Ty,
}

/// An object, with fields and maps in one numbering.
#[derive(Debug, Drop)]
pub struct TypedObject {
    pub name: Name,
    pub fields: Items<TypedField>,
    pub methods: Items<TypedMethod>,
}

impl TypedObject {
    /// The method of that name, if the object has it.
    pub fn method(&self, name: u16) -> Option<&TypedMethod>
        ensures { option_copied result ≡ method_of self.now name }
    {
        self.methods
            .as_slice()
            .iter()
            .find(|method| method.name == name)
    }
}

/// A plain field or a map.
#[derive(Debug, Drop)]
pub struct TypedField {
    pub name: Name,
    pub kind: FieldKind,
    /// The initial pairs of key and value; a plain field's key is 0.
    pub first: Items<(u128, u128)>,
}

/// Whether a field holds one value, or one for each key.
#[derive(Clone, Copy, Debug, PartialEq, Eq)]
pub enum FieldKind {
    Plain(Ty),
    /// The types of key and value.
    Map(Ty, Ty),
}

/// A method of one object.
#[derive(Debug, Drop)]
pub struct TypedMethod {
    /// The number of the method's name.
    pub name: u16,
    /// How many locals it has, parameters included.
    pub locals: u8,
    pub body: TypedBlock,
}

/// What a name in an expression stands for.
#[derive(Clone, Copy, Debug, PartialEq, Eq)]
pub enum Place {
    /// The number of a local: parameters first, then each `let` in text order.
    Local(u8),
    /// The number of a plain field of the own object.
    Plain(u8),
    /// The number of an object.
    Object(u8),
}

/// What an assignment without an index changes.
#[derive(Clone, Copy, Debug, PartialEq, Eq)]
pub enum Assignee {
    Local(u8),
    Plain(u8),
}

/// Statements between braces.
#[cycle(typed_statements)]
#[derive(Debug, Drop)]
pub struct TypedBlock {
    pub stmts: Items<TypedStmt>,
}

/// A statement.
#[cycle(typed_statements)]
#[derive(Debug, Drop)]
pub enum TypedStmt {
    Let {
        local: u8,
        ty: Ty,
        value: TypedExpr,
    },
    /// Sets a local to whether an external call (`call`, to whichever object) answered.
    Try {
        local: u8,
        target: TypedExpr,
        name: u16,
        args: Items<TypedExpr>,
    },
    Set {
        to: Assignee,
        value: TypedExpr,
    },
    SetAt {
        map: u8,
        key: TypedExpr,
        value: TypedExpr,
    },
    If {
        arms: Items<(TypedExpr, TypedBlock)>,
        last: Option<TypedBlock>,
    },
    While {
        cond: TypedExpr,
        body: TypedBlock,
    },
    Return {
        value: TypedExpr,
    },
    Revert {
        value: TypedExpr,
    },
    Do {
        call: TypedCall,
    },
}

/// An expression.
#[cycle(typed_expressions)]
#[derive(Debug, Drop)]
pub enum TypedExpr {
    Number {
        value: u128,
    },
    Flag {
        value: bool,
    },
    Here,
    Name {
        place: Place,
    },
    At {
        map: u8,
        key: Boxed<TypedExpr>,
    },
    Call {
        call: TypedCall,
    },
    Not {
        inner: Boxed<TypedExpr>,
    },
    Product {
        first: Boxed<TypedExpr>,
        rest: Items<(Op, TypedExpr)>,
    },
    Sum {
        first: Boxed<TypedExpr>,
        rest: Items<(Op, TypedExpr)>,
    },
    Compare {
        left: Boxed<TypedExpr>,
        op: Op,
        right: Boxed<TypedExpr>,
    },
    And {
        parts: Items<TypedExpr>,
    },
    Or {
        parts: Items<TypedExpr>,
    },
}

/// A call by the number of the method's name.
#[cycle(typed_expressions)]
#[derive(Debug, Drop)]
pub enum TypedCall {
    External {
        target: Boxed<TypedExpr>,
        name: u16,
        args: Items<TypedExpr>,
    },
    Internal {
        name: u16,
        args: Items<TypedExpr>,
    },
}
