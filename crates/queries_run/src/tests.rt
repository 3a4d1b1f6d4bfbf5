//! Worked examples, random edits beside a simple reference, and deep formulas and chains.
ghost use Rattle.std.specs.Prelude.{◌<◌};

use queries::fault::Fault;
use queries::parser::{Line, parse_line};
use queries::place::Place;
use queries::run::answer_all;
use queries::spreadsheet::Spreadsheet;
use queries::value::{Answer, CellError, Value};
use std::alloc::{AllocError, Global};
use std::fmt;
use std::process::Abort;

// Lines, and what they are answered.
const WORKED: [(&str, &str); 15] = [
    ("show A1", "A1 = empty\n"),
    ("A1 = 1 - 2 - 3\nshow A1", "A1 = -4\n"),
    ("A1 = 2 + 3 * 4 - -1\nshow A1", "A1 = 15\n"),
    ("A1 = (2 + 3) * -(4)\nshow A1", "A1 = -20\n"),
    ("A1 = 7 / 2 * 2\nshow A1", "A1 = 6\n"),
    (
        "A1 = 1 / B1\nA2 = A1 + 1\nshow A2",
        "A2 = division by zero\n",
    ),
    ("A1 = 9223372036854775807 + 1\nshow A1", "A1 = overflow\n"),
    (
        "A1 = 3\nA3 = 4\nB1 = SUM(A1:A3) * COUNT(A1:A3)\nshow B1",
        "B1 = 14\n",
    ),
    (
        "A1 = 3\nA3 = -4\nB1 = MAX(A3:A1) - MIN(A1:A3)\nshow B1",
        "B1 = 7\n",
    ),
    (
        "A1 = A2\nA2 = A1\nA3 = A1\nshow A3",
        "A3 = cycle through A1\n",
    ),
    ("A1 = SUM(A1:A2)\nshow A1", "A1 = cycle through A1\n"),
    // A sum is exact, whichever numbers come first, and only what it comes to has to fit.
    (
        "A1 = 9223372036854775807\nA2 = 1\nA3 = -1\nB1 = SUM(A1:A3)\nB2 = SUM(A1:A2)\nshow all",
        "A1 = 9223372036854775807\nA2 = 1\nA3 = -1\nB1 = 9223372036854775807\nB2 = overflow\n",
    ),
    (
        "A1 = -9223372036854775808",
        "line 1, column 7: this number is above 9223372036854775807\n",
    ),
    // What lacks is told where it could stand, and not behind a comment.
    (
        "A1 = 1 + # comment\nshow # comment",
        "line 1, column 9: a number, a cell, a function or '(' should stand here\nline 2, column 5: a cell should stand here\n",
    ),
    (
        "A1 = 1 +\nshow A1 2",
        "line 1, column 9: a number, a cell, a function or '(' should stand here\nline 2, column 9: the line should end here\n",
    ),
];

// Lines are answered so.
fn are_answered(rt: &impl Abort, alloc: Global, lines: &str, answers: &str) {
    match answer_all(alloc, lines) {
        Ok(out) => assert!(rt; out.as_str() == answers),
        Err(fault) => panic!(rt; "{fault:?}"),
    }
}

#[test]
fn lines_are_answered(rt: HostRuntime) {
    for (lines, answers) in &WORKED {
        are_answered(&rt, rt.alloc(), lines, answers);
    }
}

// What a line asks for.
fn line(rt: &impl Abort, alloc: Global, text: &str) -> Line {
    match parse_line(alloc, text) {
        Ok(line) => line,
        Err(error) => panic!(rt; "{text}: {error:?}"),
    }
}

// Does what the line asks for.
fn edit(rt: &impl Abort, alloc: Global, sheet: &mut Spreadsheet, text: &str) {
    let done = match line(rt, alloc, text) {
        Line::Set(place, formula) => sheet.set(place, formula),
        Line::Clear(place) => sheet.clear(place),
        _ => Ok(()),
    };
    assert!(rt; done.is_ok());
}

// The number of a cell in column A, counted from zero.
fn number(rt: &impl Abort, sheet: &mut Spreadsheet, row: u32) -> Option<i64> {
    match sheet.answer(Place { column: 0, row }) {
        Ok(Answer::Value(Value::Number(number))) => Some(number),
        Ok(_) => None,
        Err(fault) => panic!(rt; "{fault:?}"),
    }
}

// The cell has this number, and so many queries were computed and verified so far.
fn is_number(rt: &impl Abort, sheet: &mut Spreadsheet, row: u32, found: i64, counts: (u64, u64)) {
    assert_eq!(rt; number(rt, sheet, row), Some(found));
    assert_eq!(rt; sheet.counts().computed, counts.0);
    assert_eq!(rt; sheet.counts().verified, counts.1);
}

// What is computed again after edits.
fn follow_edits(rt: &impl Abort, alloc: Global, sheet: &mut Spreadsheet) {
    edit(rt, alloc, sheet, "A1 = 4");
    edit(rt, alloc, sheet, "A2 = A1 / 2");
    edit(rt, alloc, sheet, "A3 = A2 + A2");
    is_number(rt, sheet, 2, 4, (3, 0));
    is_number(rt, sheet, 2, 4, (3, 0));
    // A2 comes out as before, and A3 isn't computed again.
    edit(rt, alloc, sheet, "A1 = 5");
    is_number(rt, sheet, 2, 4, (5, 1));
    edit(rt, alloc, sheet, "A1 = 6");
    is_number(rt, sheet, 2, 6, (8, 1));
}

#[test]
fn what_stays_the_same_is_not_computed_again(rt: HostRuntime) {
    let mut sheet = Spreadsheet::new(rt.alloc());
    follow_edits(&rt, rt.alloc(), &mut sheet);
}

#[test]
fn collections_remove_what_nothing_needs(rt: HostRuntime) {
    let lines = "A1 = SUM(B1:B3)\nA2 = C1\nshow all\ncollect\nclear A1\ncollect\nshow A2\nstats\n";
    let answers =
        "A1 = 0\nA2 = 0\nremoved 0 queries\nremoved 5 queries\nA2 = 0\ncomputed 7, verified 2, reused 0, queries 2\n";
    are_answered(&rt, rt.alloc(), lines, answers);
}

#[test]
fn collections_follow_formulas(rt: HostRuntime) {
    let edited = "A1 = SUM(B1:B3)\nshow A1\nA1 = SUM(B1:B3) + 1\ncollect\n";
    are_answered(&rt, rt.alloc(), edited, "A1 = 0\nremoved 0 queries\n");
    let cyclic = "A1 = B1 + 1\nshow A1\nB1 = A1\nshow A1\ncollect\n";
    are_answered(
        &rt,
        rt.alloc(),
        cyclic,
        "A1 = 1\nA1 = cycle through A1\nremoved 0 queries\n",
    );
    let unasked = "A1 = C1\nA2 = C1\nshow A2\nclear A2\ncollect\n";
    are_answered(&rt, rt.alloc(), unasked, "A2 = 0\nremoved 1 queries\n");
}

// A formula of the reference. Cells are A1 to A6.
#[derive(Clone, Copy)]
enum Plain {
    Number(i64),
    Sum(usize, usize),
    Difference(usize, usize),
    Quotient(usize, usize),
    Total(usize, usize),
}

// What looks like random numbers.
#[derive(Drop)]
struct Random(u64);

impl Random {
    // A number below a limit.
    fn below(&mut self, limit: usize) -> usize
        requires { 0 < limit }
        ensures { result < limit }
    {
        self.0 = self
            .0
            .wrapping_mul(6364136223846793005)
            .wrapping_add(1442695040888963407);
        (self.0 >> 33) as usize % limit
    }

    // The formula of a cell, or none.
    fn formula(&mut self) -> Option<Plain> {
        let one = self.below(6) + 1;
        let other = self.below(6) + 1;
        match self.below(10) {
            0 => None,
            1 => Some(Plain::Number(i64::MAX)),
            2 => Some(Plain::Number(0)),
            3 | 4 => Some(Plain::Number(3)),
            5 | 6 => Some(Plain::Sum(one, other)),
            7 => Some(Plain::Difference(one, other)),
            8 => Some(Plain::Quotient(one, other)),
            _ => Some(Plain::Total(one, other)),
        }
    }
}

// The values that are known so far. The first place stands for no cell.
type Outcomes = [Option<Value>; 7];

// A number, where it fits.
fn narrowed(number: i128) -> Value {
    match i64::try_from(number) {
        Ok(number) => Value::Number(number),
        Err(_) => Value::Error(CellError::Overflow),
    }
}

// The value of an operation on two cells, where both are known.
fn both(outcomes: &Outcomes, one: usize, other: usize, plain: Plain) -> Option<Value> {
    let left = match (*outcomes.get(one)?)? {
        Value::Empty => 0,
        Value::Number(number) => i128::from(number),
        Value::Error(error) => {
            (*outcomes.get(other)?)?;
            return Some(Value::Error(error));
        }
    };
    let right = match (*outcomes.get(other)?)? {
        Value::Empty => 0,
        Value::Number(number) => i128::from(number),
        Value::Error(error) => return Some(Value::Error(error)),
    };
    Some(match plain {
        Plain::Sum(..) => narrowed(left.wrapping_add(right)),
        Plain::Difference(..) => narrowed(left.wrapping_sub(right)),
        _ => match left.checked_div(right) {
            Some(number) => narrowed(number),
            None => Value::Error(CellError::DivisionByZero),
        },
    })
}

// The sum of the cells from one to another, where all are known.
fn total(outcomes: &Outcomes, first: usize, last: usize) -> Option<Value> {
    let mut sum = 0i128;
    let mut wrong = None;
    for (cell, outcome) in outcomes.iter().enumerate() {
        if first <= cell && cell <= last {
            match (*outcome)? {
                Value::Empty => {}
                Value::Number(number) => sum = sum.wrapping_add(i128::from(number)),
                Value::Error(error) => wrong = wrong.or(Some(error)),
            }
        }
    }
    Some(wrong.map_or_else(|| narrowed(sum), Value::Error))
}

// The value of a cell, where all that it reads is known.
fn value(outcomes: &Outcomes, plain: Option<Plain>) -> Option<Value> {
    let Some(plain) = plain else {
        return Some(Value::Empty);
    };
    match plain {
        Plain::Number(number) => Some(Value::Number(number)),
        Plain::Sum(one, other) | Plain::Difference(one, other) | Plain::Quotient(one, other) => {
            both(outcomes, one, other, plain)
        }
        Plain::Total(one, other) => total(outcomes, one.min(other), one.max(other)),
    }
}

// One round: the values of all cells whose reads are known.
fn round(outcomes: &Outcomes, cells: &[Option<Plain>; 7]) -> Outcomes {
    let mut next = [None; 7];
    for (place, plain) in next.iter_mut().zip(cells) {
        *place = value(outcomes, *plain);
    }
    next
}

// The formula of a cell, or none. It is shown as the line that sets it.
#[derive(Clone, Copy)]
struct Change(usize, Option<Plain>);

impl fmt::Display for Change {
    fn fmt<W: fmt::Write>(&self, f: &mut fmt::Formatter<W>) -> fmt::Result {
        let cell = self.0;
        match self.1 {
            None => write!(f, "clear A{cell}"),
            Some(Plain::Number(number)) => write!(f, "A{cell} = {number}"),
            Some(Plain::Sum(one, other)) => write!(f, "A{cell} = A{one} + A{other}"),
            Some(Plain::Difference(one, other)) => write!(f, "A{cell} = A{one} - A{other}"),
            Some(Plain::Quotient(one, other)) => write!(f, "A{cell} = A{one} / A{other}"),
            Some(Plain::Total(one, other)) => write!(f, "A{cell} = SUM(A{one}:A{other})"),
        }
    }
}

// The line that gives a cell a formula.
fn text(alloc: Global, change: Change) -> Result<String, AllocError> {
    format!(in alloc; "{change}")
}

// The values from nothing: of the cells whose reads are known in the end.
fn from_nothing(cells: &[Option<Plain>; 7]) -> Outcomes {
    let mut outcomes = [None; 7];
    for _ in 0..8 {
        outcomes = round(&outcomes, cells);
    }
    outcomes
}

// Compares the answers to all cells, and counts cycles and errors.
fn compare(
    rt: &impl Abort,
    sheet: &mut Spreadsheet,
    outcomes: &Outcomes,
    seen: &mut (u32, u32),
) -> Result<(), Fault> {
    for row in 0..6u32 {
        let answer = sheet.answer(Place { column: 0, row })?;
        match outcomes[row as usize + 1] {
            Some(value) => {
                assert!(rt; answer == Answer::Value(value));
                if matches!(value, Value::Error(_)) {
                    seen.1 = seen.1.saturating_add(1);
                }
            }
            None => {
                assert!(rt; matches!(answer, Answer::Cycle(_)));
                seen.0 = seen.0.saturating_add(1);
            }
        }
    }
    Ok(())
}

// Random edits, and the answers after each.
fn edit_at_random(rt: &impl Abort, alloc: Global, sheet: &mut Spreadsheet) -> Result<(), Fault> {
    let mut random = Random(1);
    let mut cells = [None; 7];
    let mut seen = (0u32, 0u32);
    for _ in 0..3000u32 {
        let cell = random.below(6) + 1;
        let plain = random.formula();
        let line = text(alloc, Change(cell, plain))?;
        edit(rt, alloc, sheet, line.as_str());
        cells[cell] = plain;
        compare(rt, sheet, &from_nothing(&cells), &mut seen)?;
    }
    assert!(rt; seen.0 > 100 && seen.1 > 100);
    Ok(())
}

#[test]
fn random_edits_are_answered_as_from_nothing(rt: HostRuntime) -> Result<(), Fault> {
    let mut sheet = Spreadsheet::new(rt.alloc());
    edit_at_random(&rt, rt.alloc(), &mut sheet)
}

// Deep input: a chain of cells, and a formula in parentheses.
const DEEP: u32 = 100000;

// Each cell of a chain but the first is one more than the cell above it.
fn chain(rt: &impl Abort, alloc: Global, sheet: &mut Spreadsheet) -> Result<(), AllocError> {
    edit(rt, alloc, sheet, "A1 = 1");
    for row in 2..=DEEP {
        let before = row - 1;
        let line = format!(in alloc; "A{row} = A{before} + 1")?;
        edit(rt, alloc, sheet, line.as_str());
    }
    Ok(())
}

#[test]
fn a_long_chain_is_computed(rt: HostRuntime) -> Result<(), AllocError> {
    let mut sheet = Spreadsheet::new(rt.alloc());
    chain(&rt, rt.alloc(), &mut sheet)?;
    assert_eq!(rt; number(&rt, &mut sheet, DEEP - 1), Some(100000));
    Ok(())
}

// A formula in many parentheses.
fn nested(alloc: Global) -> Result<String, AllocError> {
    let mut line = String::from_str(alloc, "A1 = ")?;
    for _ in 0..DEEP {
        line.push_str("-(")?;
    }
    line.push_str("7")?;
    for _ in 0..DEEP {
        line.push_str(")")?;
    }
    Ok(line)
}

#[test]
fn deep_parentheses_are_read(rt: HostRuntime) -> Result<(), AllocError> {
    let line = nested(rt.alloc())?;
    let mut sheet = Spreadsheet::new(rt.alloc());
    edit(&rt, rt.alloc(), &mut sheet, line.as_str());
    assert_eq!(rt; number(&rt, &mut sheet, 0), Some(7));
    Ok(())
}
