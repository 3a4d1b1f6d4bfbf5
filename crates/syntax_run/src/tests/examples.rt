//! Worked examples.
use std::alloc::Global;
use std::process::Abort;
use syntax::lexer::Lexer;
use syntax::session::answer_all;
use syntax::syntax::{Program, Syntax};

const MOST: usize = 1 << 40;

/// The program of a line.
pub fn parsed(rt: &impl Abort, syntax: &mut Syntax, line: &str) -> Program {
    let mut lexer = Lexer::new(syntax.alloc);
    let read = lexer.read(&[line], 1, &mut syntax.names);
    assert!(rt; read.is_ok(), "tokens");
    let Ok(program) = syntax.parse(lexer.tokens.as_slice(), lexer.end) else {
        panic!(rt; "a program")
    };
    program
}

/// The text of an item.
pub fn printed(rt: &impl Abort, syntax: &Syntax, program: &Program, index: usize) -> String {
    let mut out = String::new(syntax.alloc);
    if let Some(item) = program.items.get(index) {
        let Ok(tokens) = syntax.print_item(*item, MOST) else {
            panic!(rt; "printed")
        };
        let written = syntax.write(tokens.as_slice(), &mut out);
        assert!(rt; written.is_ok(), "written");
    }
    out
}

// Whether an item is printed so, and what is printed is read as the same item.
fn check_print(rt: &impl Abort, alloc: Global, line: &str, expected: &str) {
    let mut syntax = Syntax::new(alloc);
    let program = parsed(rt, &mut syntax, line);
    let text = printed(rt, &syntax, &program, 0);
    assert_eq!(rt; text.as_str(), expected);
    let again = parsed(rt, &mut syntax, text.as_str());
    assert!(rt; again.items.as_slice() == program.items.as_slice());
}

#[test]
fn operators_are_read_by_precedence(rt: HostRuntime) {
    let lines = [
        ("let x = a - b - c;", "let x = ((a - b) - c);"),
        ("let x = a + b * c;", "let x = (a + (b * c));"),
        ("let x = a * b + c;", "let x = ((a * b) + c);"),
        ("let x = a - (b - c);", "let x = (a - (b - c));"),
        ("let x = a + b < c * d;", "let x = ((a + b) < (c * d));"),
        ("let x = a == b / c / d;", "let x = (a == ((b / c) / d));"),
        ("let x = ((a));", "let x = a;"),
        ("let x = f (a, (b), g(1));", "let x = f(a, b, g(1));"),
        (
            "let x = if a then b else c + d;",
            "let x = (if a then b else (c + d));",
        ),
        (
            "let x = 1 + if a < b then b else c;",
            "let x = (1 + (if (a < b) then b else c));",
        ),
        (
            "let x = let y = 1 + 2 in y * y;",
            "let x = (let y = (1 + 2) in (y * y));",
        ),
        ("fn f(a, b) = a * (b + 1);", "fn f(a, b) = (a * (b + 1));"),
        ("let x = add(a, b);", "let x = (a + b);"),
    ];
    for (line, expected) in lines.iter() {
        check_print(&rt, rt.alloc(), line, expected);
    }
}

fn check_told(rt: &impl Abort, alloc: Global, text: &str, expected: &str) {
    let Ok(told) = answer_all(alloc, text) else {
        panic!(rt; "told")
    };
    assert_eq!(rt; told.as_str(), expected);
}

fn check_each_told(rt: &impl Abort, alloc: Global, texts: &[(&'static str, &'static str)]) {
    for (text, expected) in texts {
        check_told(rt, alloc, text, expected);
    }
}

#[test]
fn errors_are_told_with_their_places(rt: HostRuntime) {
    let texts = [
        (
            "let x = (1;",
            "version 1: line 1, column 11: expected an operator or `)`, and found `;`\n",
        ),
        (
            "let x = f(1;",
            "version 1: line 1, column 12: expected an operator, `,` or `)`, and found `;`\n",
        ),
        (
            "let x = 1 2;",
            "version 1: line 1, column 11: expected an operator or `;`, and found `2`\n",
        ),
        (
            "let 3 = 1;",
            "version 1: line 1, column 5: expected a name, and found `3`\n",
        ),
        (
            "let x = 1 +\n;",
            "version 1: line 2, column 1: expected an expression, and found `;`\n",
        ),
        (
            "1 + 2;",
            "version 1: line 1, column 1: expected `fn` or `let`, and found `1`\n",
        ),
    ];
    check_each_told(&rt, rt.alloc(), &texts);
}

#[test]
fn what_is_defined_is_written_as_a_call(rt: HostRuntime) {
    for line in [
        "fn add(x, y) = x;",
        "fn sub(x, y) = x;",
        "fn mul(x, y) = x;",
        "fn div(x, y) = x;",
        "fn lt(x, y) = x;",
        "fn eq(x, y) = x;",
    ] {
        check_print(&rt, rt.alloc(), line, line);
        check_told(
            &rt,
            rt.alloc(),
            line,
            "version 1: 5 terms, 4 distinct, 4 new\n  0 terms are gone\n",
        );
    }
    check_told(
        &rt,
        rt.alloc(),
        "let a = 1;\n---\nlet a = 1;\nfn add(x, y) = x * y;",
        "version 1: 3 terms, 3 distinct, 3 new
  0 terms are gone
version 2: 10 terms, 8 distinct, 5 new
  added at 4:1: fn add(x, y) = (x * y);
  0 terms are gone
",
    );
    check_told(
        &rt,
        rt.alloc(),
        "fn add(x) = x;\n---\nfn add(x, y) = x;",
        "version 1: 4 terms, 3 distinct, 3 new
  0 terms are gone
version 2: 5 terms, 4 distinct, 3 new
  changed at 1:4: add(x), now at 3:4: add(x, y)
  2 terms are gone
",
    );
}

#[test]
fn a_whole_item_that_changed_is_written_as_an_item(rt: HostRuntime) {
    check_told(
        &rt,
        rt.alloc(),
        "let f = 1;\n---\nfn f(a) = a;",
        "version 1: 3 terms, 3 distinct, 3 new
  0 terms are gone
version 2: 4 terms, 3 distinct, 3 new
  changed at 1:1: let f = 1;, now at 3:1: fn f(a) = a;
  3 terms are gone
",
    );
}

#[test]
fn definitions_of_one_name_are_compared_by_their_numbers(rt: HostRuntime) {
    check_told(
        &rt,
        rt.alloc(),
        "let x = 1;
let x = 2;
---
let x = 1;
let x = 2;
---
let x = 1;
let x = 3;
---
let x = 1;
",
        "version 1: 6 terms, 5 distinct, 5 new
  0 terms are gone
version 2: 6 terms, 5 distinct, 0 new
  0 terms are gone
version 3: 6 terms, 5 distinct, 2 new
  changed at 5:9: 2, now at 8:9: 3
  2 terms are gone
version 4: 3 terms, 3 distinct, 0 new
  removed at 8:1: let x = 3;
  2 terms are gone
",
    );
}

#[test]
fn trees_of_a_version_with_an_error_are_not_counted(rt: HostRuntime) {
    // Those of the third version outnumber what is kept, and are collected.
    check_told(
        &rt,
        rt.alloc(),
        "let a = 1;\n---\nlet b = 2 + ;\n---\nlet b = 3 + 4 + 5 + ;\n---\nlet b = 2;",
        "version 1: 3 terms, 3 distinct, 3 new
  0 terms are gone
version 2: line 3, column 13: expected an expression, and found `;`
version 3: line 5, column 21: expected an expression, and found `;`
version 4: 3 terms, 3 distinct, 3 new
  removed at 1:1: let a = 1;
  added at 7:1: let b = 2;
  3 terms are gone
",
    );
    // Here its trees are still there in the next version, which has them as new ones.
    check_told(
        &rt,
        rt.alloc(),
        "let a = 1;\n---\nlet b = a + ;\n---\nlet b = a;",
        "version 1: 3 terms, 3 distinct, 3 new
  0 terms are gone
version 2: line 3, column 13: expected an expression, and found `;`
version 3: 3 terms, 3 distinct, 2 new
  removed at 1:1: let a = 1;
  added at 5:1: let b = a;
  2 terms are gone
",
    );
}

#[test]
fn what_is_expected_goes_on_in_an_open_form(rt: HostRuntime) {
    let texts = [
        (
            "let x = (1 + 2",
            "version 1: line 1, column 15: expected an operator or `)`\n",
        ),
        (
            "let x = if a then b else c",
            "version 1: line 1, column 27: expected an operator or `;`\n",
        ),
        (
            "let x = f(if a then b else c",
            "version 1: line 1, column 29: expected an operator, `,` or `)`\n",
        ),
        (
            "let x = (let y = 1;",
            "version 1: line 1, column 19: expected an operator or `in`, and found `;`\n",
        ),
        (
            "let x = let y = 1 2",
            "version 1: line 1, column 19: expected an operator or `in`, and found `2`\n",
        ),
    ];
    check_each_told(&rt, rt.alloc(), &texts);
}

#[test]
fn what_is_expected_at_an_end_within_what_is_defined_is_told(rt: HostRuntime) {
    let texts = [
        (
            "fn",
            "version 1: line 1, column 3: expected a name and its parameters\n",
        ),
        ("fn f(", "version 1: line 1, column 6: expected a name\n"),
        (
            "fn f(a",
            "version 1: line 1, column 7: expected `,` or `)`\n",
        ),
        ("fn f(a,", "version 1: line 1, column 8: expected a name\n"),
        ("fn f(a)", "version 1: line 1, column 8: expected `=`\n"),
        (
            "fn f(a) =",
            "version 1: line 1, column 10: expected an expression\n",
        ),
        ("let", "version 1: line 1, column 4: expected a name\n"),
        (
            "let x = let",
            "version 1: line 1, column 12: expected a name\n",
        ),
        (
            "let x = f(let",
            "version 1: line 1, column 14: expected a name\n",
        ),
        (
            "let = let",
            "version 1: line 1, column 5: expected a name, and found `=`\n",
        ),
    ];
    check_each_told(&rt, rt.alloc(), &texts);
}

#[test]
fn a_version_ends_behind_its_last_line(rt: HostRuntime) {
    let texts = [
        (
            "let x = 4",
            "version 1: line 1, column 10: expected an operator or `;`\n",
        ),
        (
            "let x = 4 # ü\n",
            "version 1: line 1, column 14: expected an operator or `;`\n",
        ),
        (
            "let x = a+b\n\n  ",
            "version 1: line 3, column 3: expected an operator or `;`\n",
        ),
        (
            "let x = 4\n---\nlet\n---\n",
            "version 1: line 1, column 10: expected an operator or `;`
version 2: line 3, column 4: expected a name
version 3: 0 terms, 0 distinct, 0 new
  0 terms are gone
",
        ),
        (
            "let x =\n1",
            "version 1: line 2, column 2: expected an operator or `;`\n",
        ),
    ];
    check_each_told(&rt, rt.alloc(), &texts);
}

#[test]
fn the_first_of_several_errors_is_told(rt: HostRuntime) {
    let texts = [
        (
            "let x = ;\nlet y = 1 $ 2;",
            "version 1: line 1, column 9: expected an expression, and found `;`\n",
        ),
        (
            "let x = ;\nlet 3 = 1;",
            "version 1: line 1, column 9: expected an expression, and found `;`\n",
        ),
        (
            "let 3 = 1;\nlet x = ;\nlet y = 1 $ 2;",
            "version 1: line 1, column 5: expected a name, and found `3`\n",
        ),
        (
            "let x = $;\nlet 3 = ;",
            "version 1: line 1, column 9: expected a token\n",
        ),
    ];
    check_each_told(&rt, rt.alloc(), &texts);
}

/// How deep the parentheses are nested.
const DEPTH: usize = 100_000;

#[test]
fn deep_parentheses_are_read(rt: HostRuntime) {
    let mut line = String::new(rt.alloc());
    assert!(rt; line.push_str("let x = ").is_ok());
    for _ in 0..DEPTH {
        assert!(rt; line.push_str("(1 + ").is_ok());
    }
    assert!(rt; line.push('y').is_ok());
    for _ in 0..DEPTH {
        assert!(rt; line.push(')').is_ok());
    }
    assert!(rt; line.push(';').is_ok());
    let mut syntax = Syntax::new(rt.alloc());
    let program = parsed(&rt, &mut syntax, line.as_str());
    assert_eq!(rt; program.spots.len(), 2 * DEPTH + 3);
    let text = printed(&rt, &syntax, &program, 0);
    assert!(rt; text.as_str() == line.as_str());
}
