//! Texts of contracts against the trees and faults that the grammar in docs/language.md gives them.

use crate::texts::parsed;
use ecf_lang::tree::Tree;
use ecf_lexer::LexFault;
use ecf_parser::SyntaxFault;
use std::alloc::{AllocError, Global};
use std::test::Fail;

const METHOD: &str = "object A { method m(): num { ";

fn at(token: u32) -> Option<SyntaxFault> {
    Some(SyntaxFault::At { token })
}

fn too_deep(token: u32) -> Option<SyntaxFault> {
    Some(SyntaxFault::TooDeep { token })
}

/// The fault of a text, or none where it has a tree.
fn fault_of(alloc: Global, text: &str) -> Result<Option<SyntaxFault>, LexFault> {
    Ok(parsed(alloc, text)?.err())
}

/// The fault of a method's body.
fn fault_of_body(alloc: Global, body: &str) -> Result<Option<SyntaxFault>, Fail> {
    let text = format!(in alloc; "{METHOD}{body}")?;
    Ok(fault_of(alloc, text.as_str())?)
}

#[test]
fn a_file_is_read_or_refused_at_its_token(rt: HostRuntime) -> Result<(), Fail> {
    let rows = [
        ("", at(0)),
        ("num x;", at(0)),
        ("object", at(1)),
        ("object A { }", None),
        ("object A { } object B { }", None),
        ("object A { } }", at(4)),
        ("object A { num x = 7; flag y = true; addr z = A; }", None),
        ("object A { num x = -1; }", at(6)),
        ("object A { num x y; }", at(5)),
        ("object A { map m: addr num; }", at(7)),
        ("object A { map m: addr -> num = { }; }", None),
        ("object A { map m: addr -> num = { A: 2, 3: B }; }", None),
        ("object A { map m: addr -> num = { 1: 2, }; }", at(15)),
        ("object A { method m(a: num, b: flag): num { } }", None),
        ("object A { method m(a: num,): num { } }", at(10)),
    ];
    for (text, fault) in rows {
        assert_eq!(rt; fault_of(rt.alloc(), text)?, fault);
    }
    Ok(())
}

#[test]
fn a_body_is_read_or_refused_at_its_token(rt: HostRuntime) -> Result<(), Fail> {
    let rows = [
        ("}}", None),
        ("else { } }}", at(10)),
        (";}}", at(10)),
        ("a.b(); }}", at(11)),
        ("call a.b(); }}", None),
        ("call (a).b(); }}", None),
        ("call 1.b(); }}", at(11)),
        ("call self.b(); }}", at(11)),
        ("self.b(1, 2); }}", None),
        ("self.b(1, 2,); }}", at(18)),
        ("x = 1 < 2; }}", None),
        ("x = 1 < 2 < 3; }}", at(15)),
        ("x = !y; }}", None),
        ("x = !!y; }}", at(13)),
        ("x = (1; }}", at(14)),
        ("x[1] + 2 = 3; }}", at(14)),
        ("return 1 }}", at(12)),
        ("if x { } else if y { } else { } }}", None),
        ("if x { } else if y { } else { } else { } }}", at(22)),
        ("let x: flag = try y.m(); }}", None),
        ("let x: flag = try self.m(); }}", at(16)),
        ("x = try y.m(); }}", at(12)),
        ("x = 1; }", at(15)),
    ];
    for (body, fault) in rows {
        assert_eq!(rt; fault_of_body(rt.alloc(), body)?, fault);
    }
    Ok(())
}

/// The fault of a body that begins with one text, has another so many times, and ends with a third.
fn fault_of_nested(
    alloc: Global,
    before: &str,
    open: &str,
    times: usize,
    after: &str,
) -> Result<Option<SyntaxFault>, Fail> {
    let mut body = String::from_str(alloc, before)?;
    for _ in 0..times {
        body.push_str(open)?;
    }
    body.push_str(after)?;
    fault_of_body(alloc, body.as_str())
}

#[test]
fn the_65th_open_bracket_is_too_deep(rt: HostRuntime) -> Result<(), Fail> {
    let rows = [
        ("x = ", "(", 62, "", at(74)),
        ("x = ", "(", 63, "", too_deep(74)),
        ("x = ", "(", 63, "1 1", too_deep(74)),
        ("x = y", "[y", 62, "", at(137)),
        ("x = y", "[y", 63, "", too_deep(137)),
        ("", "if y { ", 62, "", at(196)),
        ("", "if y { ", 63, "", too_deep(198)),
        // Out of place and too deep.
        ("x = ", "(", 62, "{", too_deep(74)),
        // Out of place before one that is too deep.
        ("x = 1 ", "(", 63, "", at(13)),
        ("x = ", "(", 61, ") (((", at(73)),
    ];
    for (before, open, times, after, fault) in rows {
        let found = fault_of_nested(rt.alloc(), before, open, times, after)?;
        assert_eq!(rt; found, fault);
    }
    Ok(())
}

/// The tree as it is shown, without the names of the types that lists, boxes and names are kept in, and without braces.
fn outline(alloc: Global, tree: &Tree) -> Result<String, AllocError> {
    let mut shown = format!(in alloc; "{tree:?}")?;
    for word in [
        "Items { items: ",
        "Boxed { inner: ",
        "Name { bytes: ",
        " {",
        " }",
    ] {
        shown = shown.replace(alloc, word, "")?;
    }
    Ok(shown)
}

/// The outline of a file with a method that has this body, or its fault.
fn outline_of(alloc: Global, body: &str) -> Result<String, Fail> {
    let text = format!(in alloc; "{METHOD}{body} }} }}")?;
    match parsed(alloc, text.as_str())? {
        Ok(tree) => Ok(outline(alloc, &tree)?),
        Err(fault) => Ok(format!(in alloc; "{fault:?}")?),
    }
}

#[test]
fn a_tree_has_its_shape_and_places(rt: HostRuntime) -> Result<(), Fail> {
    let rows = [
        (
            "x = 1 - 2 - 3;",
            "stmts: [Set at: 10, name: [120], value: Sum first: Number at: 12, value: 1, \
             rest: [(Sub, Number at: 14, value: 2), (Sub, Number at: 16, value: 3)]]",
        ),
        (
            "x = 1 - (2 - 3);",
            "stmts: [Set at: 10, name: [120], value: Sum first: Number at: 12, value: 1, \
             rest: [(Sub, Sum first: Number at: 15, value: 2, rest: [(Sub, Number at: 17, value: 3)])]]",
        ),
        (
            "x = !y[0] && 1 + 2 * 3 <= 4;",
            "value: And parts: [Not at: 12, inner: At at: 13, name: [121], key: Number at: 15, value: 0, \
             Compare left: Sum first: Number at: 18, value: 1, rest: [(Add, Product first: Number at: 20, \
             value: 2, rest: [(Mul, Number at: 22, value: 3)])], op: Le, right: Number at: 24, value: 4]]",
        ),
        (
            "call here.y(self.z()); return true || false;",
            "stmts: [Do call: External at: 10, target: Here at: 11, name_at: 13, name: [121], \
             args: [Call call: Internal at: 15, name_at: 17, name: [122], args: []], \
             Return value: Or parts: [Flag at: 23, value: true, Flag at: 25, value: false]]",
        ),
        (
            "let z: flag = try x.y();",
            "stmts: [Try at: 11, name: [122], ty: Flag, call: External at: 15, \
             target: Name at: 16, name: [120], name_at: 18, name: [121], args: []]",
        ),
        (
            "if 1 { } else if 2 { } else { }",
            "stmts: [If arms: [(Number at: 11, value: 1, Block stmts: []), \
             (Number at: 16, value: 2, Block stmts: [])], last: Some(Block stmts: [])]",
        ),
    ];
    for (body, stmts) in rows {
        let shown = outline_of(rt.alloc(), body)?;
        assert!(rt; shown.contains(stmts), "{shown}");
    }
    Ok(())
}
