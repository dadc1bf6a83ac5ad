//! Texts of contracts against the canonical texts that docs/language.md gives them. Each canonical text is its own.

use ecf_lang::limits::MAX_CONTRACT_BYTES;
use ecf_lang::tree::Tree;
use ecf_lexer::{LexFault, lex};
use ecf_parser::{SyntaxFault, parse};
use ecf_show::show;
use std::alloc::Global;
use std::test::Fail;

/// The tree of a text, or why its tokens have none; for a text over its limit there is no memory.
fn parsed(alloc: Global, text: &str) -> Result<Result<Tree, SyntaxFault>, LexFault> {
    let text = text.as_bytes();
    if text.len() > MAX_CONTRACT_BYTES {
        return Err(LexFault::NoMemory);
    }
    let tokens = lex(alloc, text)?;
    Ok(parse(alloc, text, tokens.as_slice()))
}

/// The canonical text of a text's tree.
fn shown(alloc: Global, text: &str) -> Result<String, Fail> {
    let tree = parsed(alloc, text)??;
    Ok(String::from_utf8(show(alloc, &tree)?)?)
}

/// The canonical text of a method's body, and what is shown of that text.
fn shown_twice(alloc: Global, text: &str) -> Result<(String, String), Fail> {
    let once = shown(alloc, text)?;
    let again = shown(alloc, once.as_str())?;
    Ok((once, again))
}

/// The same of a body of one statement, whose canonical text is four spaces in.
fn body_shown_twice(alloc: Global, body: &str) -> Result<(String, String), Fail> {
    let text = format!(in alloc; "object A {{ method m(): num {{ {body} }} }}")?;
    shown_twice(alloc, text.as_str())
}

/// The whole text around the canonical text of one statement.
fn around(alloc: Global, statement: &str) -> Result<String, Fail> {
    Ok(format!(in alloc; "object A {{\n  method m(): num {{\n    {statement}\n  }}\n}}\n")?)
}

#[test]
fn a_file_has_one_layout(rt: HostRuntime) -> Result<(), Fail> {
    let alloc = rt.alloc();
    let rows = [
        ("object A{}object B{ }", "object A { }\nobject B { }\n"),
        (
            "object A{num x=007;method m(a:num):num{if(a>1){x=(a+1)*2;}else{}return(x);}}",
            "object A {\n  num x = 7;\n  method m(a: num): num {\n    if a > 1 {\n      x = (a + 1) * 2;\n    } else { }\n    return x;\n  }\n}\n",
        ),
        (
            "object A { num x; flag y=true; addr z=A; map m:addr->num={}; map n:num->flag={A:true,01:false}; }",
            "object A {\n  num x;\n  flag y = true;\n  addr z = A;\n  map m: addr -> num;\n  map n: num -> flag = { A: true, 1: false };\n}\n",
        ),
        (
            "object A { method m(a:num,b:flag):addr{} }",
            "object A {\n  method m(a: num, b: flag): addr { }\n}\n",
        ),
        ("object A{num x;//y\n}", "object A {\n  num x;\n}\n"),
    ];
    for (text, want) in rows {
        let (once, again) = shown_twice(alloc, text)?;
        assert_eq!(rt; once.as_str(), want);
        assert_eq!(rt; again.as_str(), want);
    }
    Ok(())
}

#[test]
fn a_statement_has_one_layout(rt: HostRuntime) -> Result<(), Fail> {
    let alloc = rt.alloc();
    let rows = [
        ("let x:num=1;", "let x: num = 1;"),
        ("let x:flag=try(y+1).z();", "let x: flag = try (y + 1).z();"),
        ("let x:flag=try y.z(1,2);", "let x: flag = try y.z(1, 2);"),
        ("x[(1)]=(2);", "x[1] = 2;"),
        ("while(x<1){}", "while x < 1 { }"),
        ("revert(1);", "revert 1;"),
        ("self.m(1,(2));", "self.m(1, 2);"),
        (
            "if a{}else if b{}else{x=1;}",
            "if a { } else if b { } else {\n      x = 1;\n    }",
        ),
        (
            "x=340282366920938463463374607431768211455;",
            "x = 340282366920938463463374607431768211455;",
        ),
    ];
    for (text, statement) in rows {
        let want = around(alloc, statement)?;
        let (once, again) = body_shown_twice(alloc, text)?;
        assert_eq!(rt; once.as_str(), want.as_str());
        assert_eq!(rt; again.as_str(), want.as_str());
    }
    Ok(())
}

#[test]
fn parentheses_stand_where_they_are_needed(rt: HostRuntime) -> Result<(), Fail> {
    let alloc = rt.alloc();
    let rows = [
        ("x=(1-2)-3;", "x = (1 - 2) - 3;"),
        ("x=1-(2-3);", "x = 1 - (2 - 3);"),
        ("x=(1*2)+3;", "x = 1 * 2 + 3;"),
        ("x=1*(2+3);", "x = 1 * (2 + 3);"),
        ("x=1*(2*3);", "x = 1 * (2 * 3);"),
        ("x=!(!a);", "x = !(!a);"),
        ("x=!(a);", "x = !a;"),
        ("x=!(a==b);", "x = !(a == b);"),
        ("x=(!a)==b;", "x = !a == b;"),
        ("x=(a<b)==c;", "x = (a < b) == c;"),
        ("x=(a&&b)||c;", "x = a && b || c;"),
        ("x=a&&(b||c);", "x = a && (b || c);"),
        ("x=(a||b)||c;", "x = (a || b) || c;"),
        ("call(here).m();", "call here.m();"),
        ("call(a[1]).m();", "call a[1].m();"),
        ("call(1).m();", "call (1).m();"),
        ("call(self.f()).m();", "call (self.f()).m();"),
    ];
    for (text, statement) in rows {
        let want = around(alloc, statement)?;
        let (once, again) = body_shown_twice(alloc, text)?;
        assert_eq!(rt; once.as_str(), want.as_str());
        assert_eq!(rt; again.as_str(), want.as_str());
    }
    Ok(())
}
