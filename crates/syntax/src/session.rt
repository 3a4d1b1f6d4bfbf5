//! What is told of the versions.
use crate::fault::{Fault, Stop, Unexpected};
use crate::lexer::Lexer;
use crate::report::Report;
use crate::syntax::{Program, Syntax};
use intern_terms::TermRef;
use std::alloc::Global;
use std::cmp::min_by_key;
use text_run::Place;

/// What stands between two versions.
const RULE: &str = "---";

// What was told so far, and the version before: its program, how many terms that has, and which of
// them is the newest.
#[derive(Drop)]
struct Session {
    syntax: Syntax,
    before: Program,
    kept: usize,
    newest: Option<TermRef>,
    number: usize,
    out: String,
}

/// What is told of the versions in a text.
pub fn answer_all(alloc: Global, text: &str) -> Result<String, Fault> {
    let lines: Vec<&str> = text.lines().collect(alloc)?;
    let mut session = Session {
        syntax: Syntax::new(alloc),
        before: Program::new(alloc),
        kept: 0,
        newest: None,
        number: 0,
        out: String::new(alloc),
    };
    let mut first: u64 = 1;
    for version in lines.split(|line| line.trim_end() == RULE) {
        session.tell(version, first)?;
        first = first.saturating_add(version.len() as u64).saturating_add(1);
    }
    let Session { out, .. } = session;
    Ok(out)
}

impl Session {
    // Tells the version of these lines, of which the first has this number. One with an error is
    // passed over with its trees, and the next is compared with the one before it.
    fn tell(&mut self, lines: &[&str], first: u64) -> Result<(), Fault> {
        self.number = self.number.saturating_add(1);
        match self.program(lines, first) {
            Ok(program) => self.tell_program(program),
            Err(Stop::Unexpected(error)) => self.tell_error(error),
            Err(Stop::Fault(fault)) => Err(fault),
        }
    }

    // The program of these lines. Of several errors in them the first is told.
    fn program(&mut self, lines: &[&str], first: u64) -> Result<Program, Stop> {
        let mut lexer = Lexer::new(self.syntax.alloc);
        let read = lexer.read(lines, first, &mut self.syntax.names);
        match (read, self.syntax.parse(lexer.tokens.as_slice(), lexer.end)) {
            (Ok(()), parsed) => parsed,
            (Err(stop), Ok(_)) => Err(stop),
            (Err(stop), Err(other)) => Err(min_by_key(stop, other, Stop::position)),
        }
    }

    // Tells how large a program is and what changed, and keeps no other trees than its own.
    fn tell_program(&mut self, program: Program) -> Result<(), Fault> {
        let number = self.number;
        let all = program.spots.len();
        let terms = self.syntax.terms.walk(program.items.as_slice())?;
        let distinct = terms.len();
        let new = terms.iter().filter(|t| Some(**t) > self.newest).count();
        let gone = self.kept.saturating_add(new).saturating_sub(distinct);
        write!(
            self.out,
            "version {number}: {all} terms, {distinct} distinct, {new} new\n"
        )?;
        if number > 1 {
            let mut report = Report {
                syntax: &self.syntax,
                out: &mut self.out,
            };
            report.tell_changes(&self.before, &program)?;
        }
        self.before = program;
        self.kept = distinct;
        self.newest = terms.iter().copied().max();
        self.collect()?;
        write!(self.out, "  {gone} terms are gone\n")?;
        Ok(())
    }

    fn tell_error(&mut self, error: Unexpected) -> Result<(), Fault> {
        let number = self.number;
        let Place { line, column } = error.place;
        write!(
            self.out,
            "version {number}: line {line}, column {column}: expected {}",
            error.expected
        )?;
        if let Some(token) = error.found {
            self.out.push_str(", and found `")?;
            token.write(&self.syntax.names, &mut self.out)?;
            self.out.push('`')?;
        }
        self.out.push('\n')?;
        // A collection looks at each kept term, so it waits until more others were made.
        if self.syntax.terms.len() / 2 > self.kept {
            self.collect()?;
        }
        Ok(())
    }

    // Keeps no other trees than those of the version before.
    fn collect(&mut self) -> Result<(), Fault> {
        let roots = self.before.items.as_slice();
        self.syntax.terms.collect_keeping(roots)?;
        Ok(())
    }
}
