//! Texts of contracts against the faults of names and types that docs/language.md gives them. In a text with a fault, `@` stands
//! before its token.

use ecf_faults::What;
use ecf_lang::limits::{
    MAX_CONTRACT_BYTES, MAX_FIELDS, MAX_LOCALS, MAX_METHODS, MAX_OBJECTS, MAX_PARAMETERS,
};
use ecf_lang::typed::Typed;
use ecf_lexer::lex;
use ecf_parser::parse;
use ecf_typing::{TypeFault, check};
use std::alloc::{AllocError, Global};
use std::process::Abort;
use std::test::Fail;

const BEFORE_BODY: &str =
    "object A { num n; flag f; addr a; map m: num -> flag; map B: num -> num; \
     method g(p: num): num { return p; } method h(q: num): num { ";

const BEHIND_BODY: &str = " } } object B { method k(): flag { } }";

fn checked(rt: &impl Abort, alloc: Global, text: &str) -> Result<Result<Typed, TypeFault>, Fail> {
    assert!(rt; text.len() <= MAX_CONTRACT_BYTES);
    let tokens = lex(alloc, text.as_bytes())?;
    let tree = parse(alloc, text.as_bytes(), tokens.as_slice())?;
    Ok(check(alloc, &tree))
}

// Expects this fault at the mark, or none where there is no mark.
fn expect(rt: &impl Abort, alloc: Global, marked: &str, what: What) -> Result<(), Fail> {
    let Some((before, behind)) = marked.split_once('@') else {
        assert_eq!(rt; checked(rt, alloc, marked)?.err(), None, "{marked}");
        return Ok(());
    };
    assert!(rt; before.len() <= MAX_CONTRACT_BYTES);
    let token = u32::try_from(lex(alloc, before.as_bytes())?.len())?;
    let mut text = String::from_str(alloc, before)?;
    text.push_str(behind)?;
    let fault = checked(rt, alloc, text.as_str())?.err();
    assert_eq!(rt; fault, Some(TypeFault::At { token, what }), "{marked}");
    Ok(())
}

#[test]
fn declarations_have_their_faults(rt: HostRuntime) -> Result<(), Fail> {
    let rows = [
        (What::TwoObjects, "object A { } object @A { }"),
        (
            What::TwoObjects,
            "object A { } object B { } object @B { num n; }",
        ),
        (What::TwoFields, "object A { num x; num @x; }"),
        (
            What::TwoFields,
            "object B { num x; } object A { num x; map y: num -> num; addr @y; }",
        ),
        (What::TwoFields, "object A { num x; map @x: num -> num; }"),
        (
            What::TwoMethods,
            "object A { method m(): num { } method @m(): num { } }",
        ),
        (
            What::TwoMethods,
            "object A { method m(): num { } method n(): num { } num m; method @n(): num { } }",
        ),
        // Its types differ too.
        (
            What::TwoMethods,
            "object A { method m(): num { } method @m(): flag { } }",
        ),
        (
            What::TwoLocals,
            "object A { method m(p: num, @p: num): num { } }",
        ),
        (
            What::TwoLocals,
            "object A { method m(p: num, q: num, @p: num, p: num): num { } }",
        ),
        (
            What::TwoSignatures,
            "object A { method m(): num { } } object B { method @m(): flag { } }",
        ),
        (
            What::TwoSignatures,
            "object A { method m(p: num): num { } } object B { method @m(p: flag): num { } }",
        ),
        (
            What::TwoSignatures,
            "object A { method m(p: num): num { } } object B { method @m(): num { } }",
        ),
        (
            What::TwoSignatures,
            "object A { method m(): num { } } object B { method @m(p: num): num { } }",
        ),
        (
            What::TwoKeys,
            "object A { map m: num -> num = { 1: 1, @1: 1 }; }",
        ),
        (
            What::TwoKeys,
            "object A { map m: addr -> num = { A: 1, B: 2, @A: 3 }; } object B { }",
        ),
        (
            What::TwoKeys,
            "object A { map m: flag -> num = { true: 1, false: 1, @true: 2, false: 2 }; }",
        ),
        (
            What::TwoKeys,
            "object A { map m: num -> num = { 1: 1, 2: 2, @0001: 3 }; }",
        ),
        (What::UnknownName, "object A { addr x = @B; }"),
        (What::UnknownName, "object A { addr x = A; addr y = @x; }"),
        (
            What::UnknownName,
            "object A { map m: addr -> addr = { A: A, @B: A }; }",
        ),
        (
            What::UnknownName,
            "object A { map m: addr -> addr = { A: @B }; }",
        ),
        (What::WrongType, "object A { num x = @true; }"),
        (What::WrongType, "object A { flag x = @1; }"),
        (What::WrongType, "object A { addr x = @1; }"),
        (What::WrongType, "object A { num x = @A; }"),
        (
            What::WrongType,
            "object A { map m: num -> flag = { 1: true, @true: true, true: true }; }",
        ),
        (
            What::WrongType,
            "object A { map m: num -> flag = { 1: true, 2: @1 }; }",
        ),
        // An object's number is no number of the language.
        (
            What::WrongType,
            "object A { map m: num -> num = { 0: 1, @A: 2 }; }",
        ),
        // An object is visible in the whole file, and a name may be declared once of each sort and in each object.
        (
            What::TwoObjects,
            "object A { addr b = B; method b(b: num): num { } } object B { num b; method b(c: num): num { } }",
        ),
    ];
    for (what, text) in rows {
        expect(&rt, rt.alloc(), text, what)?;
    }
    Ok(())
}

// Expects this fault in a body.
fn expect_in_body(rt: &impl Abort, alloc: Global, body: &str, what: What) -> Result<(), Fail> {
    let mut text = String::from_str(alloc, BEFORE_BODY)?;
    text.push_str(body)?;
    text.push_str(BEHIND_BODY)?;
    expect(rt, alloc, text.as_str(), what)
}

#[test]
fn names_have_their_faults(rt: HostRuntime) -> Result<(), Fail> {
    let rows = [
        (What::TwoLocals, "let @q: num = 1;"),
        (
            What::TwoLocals,
            "let x: num = 1; if f { let @x: flag = f; }",
        ),
        (What::TwoLocals, "let x: num = 1; let @x: flag = try a.k();"),
        (
            What::TwoLocals,
            "if f { let x: num = 1; } else { let x: num = 1; } let x: num = 2; return x;",
        ),
        (What::UnknownName, "return @z;"),
        (What::UnknownName, "@z = 1;"),
        (What::UnknownName, "@z[1] = true;"),
        (What::UnknownName, "m[@z] = true;"),
        (What::UnknownName, "call @z.k();"),
        (What::UnknownName, "return self.g(@z);"),
        (What::UnknownName, "return @p;"),
        (What::UnknownName, "return @g;"),
        // A local is no map, and is visible behind its `let`, to the end of its block.
        (What::UnknownName, "@q[1] = 2;"),
        (What::UnknownName, "let x: num = @x;"),
        (What::UnknownName, "if f { let x: num = 1; } return @x;"),
        (
            What::UnknownName,
            "while f { let x: num = 1; n = x; } n = @x;",
        ),
        (What::Misused, "return @m;"),
        (What::Misused, "@m = 1;"),
        (What::Misused, "@A = here;"),
        (What::Misused, "return @n[1];"),
        (What::Misused, "return 1; @n[1] = 2;"),
        // A map of the own object and an object: the object in an expression, and nothing on the left of an assignment.
        (What::Misused, "a = B; call B.k(); B[1] = 2; @B = a;"),
        (What::UnknownMethod, "self.@z();"),
        (What::UnknownMethod, "self.@k();"),
        (What::UnknownMethod, "call here.@z();"),
        (
            What::UnknownMethod,
            "call here.k(); let x: flag = try a.@z();",
        ),
        (What::WrongArity, "self.@g();"),
        (What::WrongArity, "return self.@g(f, z);"),
        (What::WrongArity, "call a.k(); call a.@k(1);"),
    ];
    for (what, body) in rows {
        expect_in_body(&rt, rt.alloc(), body, what)?;
    }
    Ok(())
}

#[test]
fn expressions_have_their_types(rt: HostRuntime) -> Result<(), Fail> {
    let rows = [
        "return @f;",
        "return 1; return @true;",
        "revert @f;",
        "let x: num = @here;",
        "n = @f;",
        "q = @a;",
        "m[@f] = true;",
        "m[1] = @1;",
        "if @n { }",
        "if f { } else if @n { }",
        "while @n { }",
        "f = 1 == @true;",
        "f = m[1] != @1;",
        "f = here == @1;",
        "f = @f < 1;",
        "f = 1 >= @a;",
        "f = @a <= a;",
        "n = @f + 1;",
        "n = 1 - 2 - @f;",
        "n = 1 * @f;",
        "n = @a / 2 % 3;",
        "f = f && @1;",
        "f = @1 || f;",
        "f = !@n;",
        "call @n.k();",
        "n = self.g(@f);",
        "call a.g(@f);",
        "let x: num = @try a.k();",
        "let x: flag = @call a.g(1);",
        "f = @self.g(1);",
        // One in parentheses, and one that begins with a part.
        "n = (@f);",
        "f = @1 + 2;",
        "n = @q == 1;",
        "n = @f && f;",
        // Nothing is required of what has no type, and all types are right.
        "let x: flag = f; let y: addr = A; if x || !f && y == a { } else if m[n + 1] { n = q; } call y.k(); revert self.g(n) * 2;",
    ];
    for body in rows {
        expect_in_body(&rt, rt.alloc(), body, What::WrongType)?;
    }
    Ok(())
}

#[test]
fn the_first_of_a_name_counts(rt: HostRuntime) -> Result<(), Fail> {
    let rows = [
        // A call is tested against the first method of its name in the file.
        (
            What::WrongArity,
            "object A { method m(): num { } } object B { method h(): num { return self.@m(1); } method m(k: num): num { } }",
        ),
        (
            What::WrongType,
            "object A { method m(): flag { } } object B { method h(): num { return @self.m(); } method m(): num { } }",
        ),
        (
            What::TwoSignatures,
            "object A { method m(): num { } } object B { method h(): num { return self.m(); } method @m(k: num): num { } }",
        ),
        // Of a field and a map of one name the first counts.
        (
            What::Misused,
            "object A { method h(): num { return @x; } map x: num -> num; num x; }",
        ),
        (
            What::Misused,
            "object A { method h(): num { @x = 1; } map x: num -> num; num x; }",
        ),
        (
            What::Misused,
            "object A { method h(): num { return @x[1]; } num x; map x: num -> num; }",
        ),
        (
            What::TwoFields,
            "object A { method h(): num { return x; } num x; map @x: num -> num; }",
        ),
        (
            What::TwoFields,
            "object A { method h(): num { return x[1]; } map x: num -> num; num @x; }",
        ),
        // Of fields, objects and locals too.
        (
            What::WrongType,
            "object A { method h(): num { return @x; } flag x; num x; }",
        ),
        (
            What::WrongType,
            "object A { method h(x: flag): num { return @x; } num x; }",
        ),
        (
            What::TwoObjects,
            "object A { } object @A { method h(): addr { return A; } }",
        ),
    ];
    for (what, text) in rows {
        expect(&rt, rt.alloc(), text, what)?;
    }
    Ok(())
}

// What stands before and behind the number in an object's name.
const OBJECT: (&str, &str) = ("object A", " { } ");

// A text, a part with a number in it so many times, and a text behind.
fn repeated(
    alloc: Global,
    before: &str,
    part: (&str, &str),
    times: usize,
    behind: &str,
) -> Result<String, AllocError> {
    let mut text = String::from_str(alloc, before)?;
    for number in 0..times {
        let part = format!(in alloc; "{}{number}{}", part.0, part.1)?;
        text.push_str(part.as_str())?;
    }
    text.push_str(behind)?;
    Ok(text)
}

#[test]
fn one_more_than_a_limit_is_too_many(rt: HostRuntime) -> Result<(), Fail> {
    let alloc = rt.alloc();
    let objects = ("", OBJECT, MAX_OBJECTS);
    let fields = ("object O { ", ("num x", "; "), MAX_FIELDS);
    let methods = (
        "object P { method z(): flag { } } object O { ",
        ("method m", "(): num { } "),
        MAX_METHODS,
    );
    let params = (
        "object O { method m(p: num",
        (", p", ": num"),
        MAX_PARAMETERS - 1,
    );
    let locals = (
        "object O { method m(p: num): num { ",
        ("let x", ": num = 1; "),
        MAX_LOCALS - 1,
    );
    let blocks = (
        "object O { method m(p: num): num { ",
        ("if true { let x", ": num = 1; } "),
        MAX_LOCALS - 1,
    );
    let rows = [
        (What::TooManyObjects, objects, ""),
        (What::TooManyObjects, objects, "object @Z { } object Y { }"),
        (What::TwoObjects, objects, "object @A0 { }"),
        (What::TooManyMembers, fields, "}"),
        (What::TooManyMembers, fields, "num @z; num y; }"),
        (
            What::TooManyMembers,
            fields,
            "method m(): num { } map @z: num -> num; }",
        ),
        (What::TwoFields, fields, "num @x0; }"),
        (What::TooManyMembers, methods, "}"),
        (
            What::TooManyMembers,
            methods,
            "num z; method @y(): num { } }",
        ),
        (What::TwoMethods, methods, "method @m0(): flag { } }"),
        (What::TwoSignatures, methods, "method @z(): num { } }"),
        (What::TooManyLocals, params, "): num { } }"),
        (What::TooManyLocals, params, ", @q: num): num { } }"),
        (What::TwoLocals, params, ", @p: num): num { } }"),
        (What::TooManyLocals, locals, "} }"),
        (What::TooManyLocals, locals, "let @z: num = 1; } }"),
        (What::TwoLocals, locals, "let @x0: num = 1; } }"),
        (What::TooManyLocals, blocks, "} }"),
        (What::TooManyLocals, blocks, "let @z: num = 1; } }"),
    ];
    for (what, (before, part, times), behind) in rows {
        let text = repeated(alloc, before, part, times, behind)?;
        expect(&rt, alloc, text.as_str(), what)?;
    }
    Ok(())
}

#[test]
fn a_fault_is_told_in_the_first_object_and_in_the_last(rt: HostRuntime) -> Result<(), Fail> {
    let alloc = rt.alloc();
    let rows = [
        (What::TwoFields, "num x; num @x; "),
        (
            What::TwoMethods,
            "method m(): num { } method @m(): num { } ",
        ),
        (What::TwoLocals, "method m(p: num, @p: num): num { } "),
        (What::TwoKeys, "map m: num -> num = { 1: 1, @1: 1 }; "),
        (What::UnknownName, "addr a = @z; "),
        (
            What::Misused,
            "map m: num -> num; method g(): num { return @m; } ",
        ),
        (
            What::UnknownMethod,
            "method m(): num { return call here.@z(); } ",
        ),
        (What::WrongArity, "method m(): num { return self.@m(1); } "),
        (What::WrongType, "num x = @true; "),
    ];
    for (what, members) in rows {
        let mut object = format!(in alloc; "object O {{ {members}")?;
        object.push_str("} ")?;
        let first = repeated(alloc, object.as_str(), OBJECT, MAX_OBJECTS - 1, "")?;
        expect(&rt, alloc, first.as_str(), what)?;
        let last = repeated(alloc, "", OBJECT, MAX_OBJECTS - 1, object.as_str())?;
        expect(&rt, alloc, last.as_str(), what)?;
    }
    Ok(())
}

#[test]
fn two_signatures_are_told_in_the_second_object_and_in_the_last(
    rt: HostRuntime,
) -> Result<(), Fail> {
    let alloc = rt.alloc();
    let first = "object O { method m(): num { } } ";
    let other = "object P { method @m(): flag { } } ";
    let both = format!(in alloc; "{first}{other}")?;
    let second = repeated(alloc, both.as_str(), OBJECT, MAX_OBJECTS - 2, "")?;
    expect(&rt, alloc, second.as_str(), What::TwoSignatures)?;
    let last = repeated(alloc, first, OBJECT, MAX_OBJECTS - 2, other)?;
    expect(&rt, alloc, last.as_str(), What::TwoSignatures)
}

#[test]
fn a_form_has_numbers_for_names(rt: HostRuntime) -> Result<(), Fail> {
    let alloc = rt.alloc();
    let text =
        "object A { method a(): num { } method b(x: num): num { let y: num = x; return y; } } \
         object B { num n = 7; map m: addr -> flag = { B: true }; method b(x: num): num { n = x; return self.b(n); } }";
    let typed = checked(&rt, alloc, text)??;
    let mut shown = format!(in alloc; "{typed:?}")?;
    for word in [
        "Items { items: ",
        "Boxed { inner: ",
        "Name { bytes: ",
        " {",
        " }",
    ] {
        shown = shown.replace(alloc, word, "")?;
    }
    let want = "Typed objects: [TypedObject name: [65], fields: [], methods: [\
         TypedMethod name: 0, locals: 0, body: TypedBlock stmts: [], \
         TypedMethod name: 1, locals: 2, body: TypedBlock stmts: [\
         Let local: 1, ty: Num, value: Name place: Local(0), Return value: Name place: Local(1)]], \
         TypedObject name: [66], fields: [TypedField name: [110], kind: Plain(Num), first: [(0, 7)], \
         TypedField name: [109], kind: Map(Addr, Flag), first: [(1, 1)]], methods: [\
         TypedMethod name: 1, locals: 1, body: TypedBlock stmts: [Set to: Plain(0), value: Name place: Local(0), \
         Return value: Call call: Internal name: 1, args: [Name place: Plain(0)]]]], names: [[97], [98]], \
         signatures: [Signature params: [], answer: Num, Signature params: [Num], answer: Num]";
    assert_eq!(rt; shown.as_str(), want);
    Ok(())
}
