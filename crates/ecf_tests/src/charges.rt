//! What each form of a contract is charged, and in which order, as docs/language.md has it.

use crate::reports::charges_of;
use crate::texts::typed;
use std::alloc::Global;
use std::process::Abort;
use std::test::Fail;

/// The charges of a body whose method has the parameter `p`, over a field `n`, a map `m`, and methods to call.
fn charges_in(rt: &impl Abort, alloc: Global, body: &str) -> Result<String, Fail> {
    let text = format!(in alloc;
        "object A {{ num n; map m: num -> num; method go(p: num): num {{ {body} }} method same(q: num): num {{ return q; }} \
         method no(q: num): num {{ revert q; }} }} object B {{ method echo(q: num): num {{ return q; }} method none(): num {{ }} }}"
    )?;
    let contract = typed(alloc, text.as_str())?;
    Ok(charges_of(rt, alloc, &contract)?)
}

#[test]
fn statements_are_charged_in_order(rt: HostRuntime) -> Result<(), Fail> {
    for (body, want) in [
        ("let x: num = 5;", "1 1 Answer(0)"),
        (
            "let x: num = n; let y: num = p; return x;",
            "1 3r 1 1 1 1 Answer(7)",
        ),
        ("p = 5; return p;", "1 1 1 1 Answer(5)"),
        ("n = 5;", "1 1 4w Answer(0)"),
        ("n = n + p;", "1 3r 1 1 4w Answer(0)"),
        ("m[p] = 5;", "1 1 1 4w Answer(0)"),
        ("m[n] = p;", "1 3r 1 4w Answer(0)"),
        ("m[p] = n;", "1 1 3r 4w Answer(0)"),
        ("if true { n = 5; } return 6;", "1 1 1 1 4w 1 1 Answer(6)"),
        ("if false { n = 5; } return 6;", "1 1 1 1 Answer(6)"),
        (
            "if p == 1 { return 5; } else { return n; }",
            "1 1 1 1 1 1 Answer(5)",
        ),
        (
            "if p == 0 { return 5; } else { return n; }",
            "1 1 1 1 1 3r Answer(7)",
        ),
        (
            "if false { n = 5; } else if n == 7 { return 5; } else { n = 6; }",
            "1 1 3r 1 1 1 1 Answer(5)",
        ),
        (
            "if false { } else if n == 6 { } return 5;",
            "1 1 3r 1 1 1 1 Answer(5)",
        ),
        ("while false { n = 5; }", "1 1 Answer(0)"),
        (
            "while p < 2 { p = p + 1; } return p;",
            "1 1 1 1 1 1 1 1 1 1 1 1 1 1 Answer(2)",
        ),
        (
            "while n > 6 { n = 5; }",
            "1 3r 1 1 1 1 1 4w 3r 1 1 Answer(0)",
        ),
        ("while true { return 5; }", "1 1 1 1 1 Answer(5)"),
        ("return n; n = 5;", "1 3r Answer(7)"),
        ("revert n;", "1 3r Reverted(User(7))"),
        ("self.same(n); return 5;", "1 3r 4 1 1 1 1 Answer(5)"),
        ("call B.echo(n); return 5;", "1 1 3r 11 1 1 1 1 Answer(5)"),
        ("call B.none(); return 5;", "1 1 11 1 1 Answer(5)"),
        (
            "let ok: flag = try B.echo(n); return 5;",
            "1 1 3r 11 1 1 1 1 Answer(5)",
        ),
        (
            "let ok: flag = try A.no(n); return 5;",
            "1 1 3r 11 1 1 1 1 Answer(5)",
        ),
        (
            "let ok: flag = try B.same(n); return 5;",
            "1 1 3r 11 1 1 Answer(5)",
        ),
    ] {
        let text = charges_in(&rt, rt.alloc(), body)?;
        assert_eq!(rt; text.as_str(), want, "{body}");
    }
    Ok(())
}

#[test]
fn expressions_are_charged_in_order(rt: HostRuntime) -> Result<(), Fail> {
    for (body, want) in [
        ("return 5;", "1 1 Answer(5)"),
        ("return p;", "1 1 Answer(1)"),
        ("return n;", "1 3r Answer(7)"),
        ("return m[p];", "1 1 3r Answer(0)"),
        ("return m[n];", "1 3r 3r Answer(0)"),
        ("return n + p - 2;", "1 3r 1 1 1 1 Answer(6)"),
        ("return p - (n + 2);", "1 1 3r 1 1 1 Reverted(Overflow)"),
        ("return n * p / 2 % 2;", "1 3r 1 1 1 1 1 1 Answer(1)"),
        (
            "return n / (p - 1) * m[p];",
            "1 3r 1 1 1 1 Reverted(DivZero)",
        ),
        (
            "return n % (p - 1) * m[p];",
            "1 3r 1 1 1 1 Reverted(DivZero)",
        ),
        ("return self.same(n);", "1 3r 4 1 1 Answer(7)"),
        ("return call B.echo(n);", "1 1 3r 11 1 1 Answer(7)"),
        (
            "return call here.same(p + n);",
            "1 1 1 3r 1 11 1 1 Answer(8)",
        ),
        (
            "return call B.echo(self.same(p));",
            "1 1 1 4 1 1 11 1 1 Answer(1)",
        ),
        ("let x: addr = here;", "1 1 Answer(0)"),
        ("let x: addr = B;", "1 1 Answer(0)"),
    ] {
        let text = charges_in(&rt, rt.alloc(), body)?;
        assert_eq!(rt; text.as_str(), want, "{body}");
    }
    Ok(())
}

#[test]
fn conditions_are_charged_in_order(rt: HostRuntime) -> Result<(), Fail> {
    for (condition, want) in [
        ("true", "1 1 1 1 Answer(5)"),
        ("false", "1 1 1 1 Answer(6)"),
        ("!false", "1 1 1 1 1 Answer(5)"),
        ("!(n == 7)", "1 3r 1 1 1 1 1 Answer(6)"),
        ("n == p", "1 3r 1 1 1 1 Answer(6)"),
        ("n != p", "1 3r 1 1 1 1 Answer(5)"),
        ("p < n", "1 1 3r 1 1 1 Answer(5)"),
        ("p <= 1", "1 1 1 1 1 1 Answer(5)"),
        ("p > 1", "1 1 1 1 1 1 Answer(6)"),
        ("p >= n", "1 1 3r 1 1 1 Answer(6)"),
        ("here == B", "1 1 1 1 1 1 Answer(6)"),
        ("true && n == 7", "1 1 1 3r 1 1 1 1 Answer(5)"),
        ("true && n == 6 && true", "1 1 1 3r 1 1 1 1 1 Answer(6)"),
        ("false && n == 7 && n == 7", "1 1 1 1 1 Answer(6)"),
        ("true || n == 7 || n == 7", "1 1 1 1 1 Answer(5)"),
        ("false || n == 7", "1 1 1 3r 1 1 1 1 Answer(5)"),
        ("false || n == 6 || false", "1 1 1 3r 1 1 1 1 1 1 Answer(6)"),
        ("false && true || n == 7", "1 1 1 1 3r 1 1 1 1 Answer(5)"),
    ] {
        let body = format!(in rt.alloc(); "if {condition} {{ return 5; }} return 6;")?;
        let text = charges_in(&rt, rt.alloc(), body.as_str())?;
        assert_eq!(rt; text.as_str(), want, "{condition}");
    }
    Ok(())
}
