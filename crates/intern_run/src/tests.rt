//! Readers and writers over memory that fail at a call of their own, and claim nothing of their
//! bytes.
use crate::fault::{Fault, status};
use crate::serve::serve;
use crate::watched::Watched;
use std::alloc::Global;
use std::io;
use std::io::{ErrorKind, Read, Write};
use std::process::Abort;

/// Gives at most `step` bytes a read, and fails at the read `fails_at`, counted from 0.
#[derive(Drop)]
struct Source<'a> {
    rest: &'a [u8],
    step: usize,
    reads: usize,
    fails_at: Option<usize>,
    kind: ErrorKind,
}

impl Read for Source<'_> {
    fn read(&mut self, buf: &mut [u8]) -> io::Result<usize> {
        let read = self.reads;
        self.reads = self.reads.saturating_add(1);
        if self.fails_at == Some(read) {
            return Err(io::Error::from(self.kind));
        }
        let count = buf.len().min(self.rest.len()).min(self.step);
        buf[..count].copy_from_slice(&self.rest[..count]);
        self.rest = &self.rest[count..];
        Ok(count)
    }
}

/// Takes at most `step` bytes a write, and at the write `fails_at` fails, or takes nothing.
#[derive(Drop)]
struct Sink {
    taken: Vec<u8>,
    step: usize,
    writes: usize,
    fails_at: Option<usize>,
    kind: Option<ErrorKind>,
}

impl Write for Sink {
    fn write(&mut self, buf: &[u8]) -> io::Result<usize> {
        let write = self.writes;
        self.writes = self.writes.saturating_add(1);
        if self.fails_at == Some(write) {
            return match self.kind {
                Some(kind) => Err(io::Error::from(kind)),
                None => Ok(0),
            };
        }
        let count = buf.len().min(self.step);
        self.taken.extend_from_slice(&buf[..count])?;
        Ok(count)
    }

    fn flush(&mut self) -> io::Result<()> {
        Ok(())
    }
}

/// Commands with an empty text, a plus, leading zeros and a word that is no number, an empty line,
/// and no last line feed.
const TEXT: &[u8] = b"new \nread +00\nrelease 0\nread 0\nclone x\n\nlen";

const ANSWERS: &[u8] =
    b"slot 0 birth 0 new\ntext \nfreed \nno slot\nbad command\nbad command\nlen 0\n";

/// How many bytes a read gives, and a write takes.
const READ_STEP: usize = 7;

const WRITE_STEP: usize = 5;

/// How many reads and writes a run over `TEXT` makes, the read at the end among them.
const READS: usize = 8;

const WRITES: usize = 14;

fn make_source<'a>(
    rest: &'a [u8],
    fails_at: Option<usize>,
    kind: ErrorKind,
) -> Watched<Source<'a>> {
    Watched::new(Source {
        rest,
        step: READ_STEP,
        reads: 0,
        fails_at,
        kind,
    })
}

fn make_sink(alloc: Global, fails_at: Option<usize>, kind: Option<ErrorKind>) -> Watched<Sink> {
    Watched::new(Sink {
        taken: Vec::new(alloc),
        step: WRITE_STEP,
        writes: 0,
        fails_at,
        kind,
    })
}

/// What a run came to, and what its devices then tell.
#[derive(Drop)]
struct Run {
    outcome: Result<(), Fault>,
    input_failed: bool,
    output_failed: bool,
    reads: usize,
    writes: usize,
    taken: Vec<u8>,
}

fn run_over(alloc: Global, mut input: Watched<Source<'_>>, mut output: Watched<Sink>) -> Run {
    let outcome = serve(alloc, &mut input, &mut output);
    let input_failed = input.failed();
    let output_failed = output.failed();
    let Sink { taken, writes, .. } = output.into_inner();
    Run {
        outcome,
        input_failed,
        output_failed,
        reads: input.into_inner().reads,
        writes,
        taken,
    }
}

/// A run over the text in which no device fails.
fn run_steady(alloc: Global, text: &[u8]) -> Run {
    run_over(
        alloc,
        make_source(text, None, ErrorKind::Other),
        make_sink(alloc, None, None),
    )
}

/// A run over the text whose read `at` fails.
fn run_to_read(alloc: Global, text: &[u8], at: usize, kind: ErrorKind) -> Run {
    run_over(
        alloc,
        make_source(text, Some(at), kind),
        make_sink(alloc, None, None),
    )
}

/// A run over the text whose write `at` fails, or takes nothing.
fn run_to_write(alloc: Global, text: &[u8], at: usize, kind: Option<ErrorKind>) -> Run {
    run_over(
        alloc,
        make_source(text, None, ErrorKind::Other),
        make_sink(alloc, Some(at), kind),
    )
}

fn assert_outcome(rt: &impl Abort, ran: &Run, outcome: Result<(), Fault>) {
    assert_eq!(rt; ran.outcome, outcome);
}

fn assert_status(rt: &impl Abort, ran: &Run, wanted: u8) {
    assert_eq!(rt; status(&ran.outcome), wanted);
}

fn assert_count(rt: &impl Abort, count: usize, wanted: usize) {
    assert_eq!(rt; count, wanted);
}

fn assert_answers(rt: &impl Abort, ran: &Run, answers: &[u8]) {
    assert_outcome(rt, ran, Ok(()));
    assert_eq!(rt; ran.taken.as_slice(), answers);
}

#[test]
fn answers_each_line(rt: HostRuntime) {
    let ran = run_steady(rt.alloc(), TEXT);
    assert_answers(&rt, &ran, ANSWERS);
    assert!(rt; !ran.input_failed && !ran.output_failed);
    assert_count(&rt, ran.reads, READS);
    assert_count(&rt, ran.writes, WRITES);
}

#[test]
fn a_slot_is_for_one_handle(rt: HostRuntime) {
    let text =
        b"new a\nclone 0\nclone 1\nsame 0 2\nrelease 0\nclone 0\nsame 0 1\nsame 1 x\nsame 1\nrelease 1\nrelease 2\nrelease 2\nread 3\n";
    let answers =
        b"slot 0 birth 0 new\nslot 1\nslot 2\nyes\nkept\nno slot\nno slot\nbad command\nbad command\nkept\nfreed a\nno slot\nno slot\n";
    assert_answers(&rt, &run_steady(rt.alloc(), text), answers);
}

#[test]
fn what_is_no_command_is_answered_as_such(rt: HostRuntime) {
    let text = b"sym\nnew\nlen \nread  0\nNEW a\n len\nread -0\nlen\r\n";
    let answers =
        b"bad command\nbad command\nbad command\nbad command\nbad command\nbad command\nbad command\nbad command\n";
    assert_answers(&rt, &run_steady(rt.alloc(), text), answers);
}

#[test]
fn a_symbol_is_counted_or_a_preset(rt: HostRuntime) {
    let text =
        b"sym hello\nsym hello\nsym isize\nsym preserve-none\nsym preserve_none\nsym \nlen\n";
    let answers =
        b"count 1 len 1\ncount 2 len 1\npreset len 1\npreset len 1\ncount 1 len 2\npreset len 2\nlen 0\n";
    assert_answers(&rt, &run_steady(rt.alloc(), text), answers);
}

#[test]
fn nothing_in_nothing_out(rt: HostRuntime) {
    let ran = run_steady(rt.alloc(), b"");
    assert_outcome(&rt, &ran, Ok(()));
    assert_status(&rt, &ran, 0);
    assert_count(&rt, ran.writes, 0);
}

#[test]
fn errors_are_passed_through(rt: HostRuntime) {
    for kind in [ErrorKind::Interrupted, ErrorKind::Other] {
        let mut input = make_source(TEXT, Some(0), kind);
        assert_error(&rt, input.read(&mut [0; 1]), kind);
        let mut output = make_sink(rt.alloc(), Some(0), Some(kind));
        assert_error(&rt, output.write(b"a"), kind);
    }
}

fn assert_error(rt: &impl Abort, answer: io::Result<usize>, kind: ErrorKind) {
    assert_eq!(rt; answer.map_err(|e| e.kind()), Err(kind));
}

#[test]
fn fails_at_each_read_in_turn(rt: HostRuntime) {
    for kind in [ErrorKind::Interrupted, ErrorKind::Other] {
        for at in 0..READS {
            fails_at_read(&rt, rt.alloc(), at, kind);
        }
    }
}

fn fails_at_read(rt: &impl Abort, alloc: Global, at: usize, kind: ErrorKind) {
    let ran = run_to_read(alloc, TEXT, at, kind);
    assert_outcome(rt, &ran, Err(Fault::Input));
    assert_status(rt, &ran, 2);
    assert!(rt; ran.input_failed && !ran.output_failed);
    assert_count(rt, ran.reads, at.saturating_add(1));
    assert_count(rt, ran.writes, 0);
}

#[test]
fn fails_at_each_write_in_turn(rt: HostRuntime) {
    for kind in [Some(ErrorKind::Interrupted), Some(ErrorKind::Other), None] {
        for at in 0..WRITES {
            fails_at_write(&rt, rt.alloc(), at, kind);
        }
    }
}

fn fails_at_write(rt: &impl Abort, alloc: Global, at: usize, kind: Option<ErrorKind>) {
    let ran = run_to_write(alloc, TEXT, at, kind);
    assert_outcome(rt, &ran, Err(Fault::Output));
    assert!(rt; !ran.input_failed && ran.output_failed);
    assert_count(rt, ran.writes, at.saturating_add(1));
    assert_eq!(rt;
        Some(ran.taken.as_slice()),
        ANSWERS.get(..at.saturating_mul(WRITE_STEP))
    );
}

#[test]
fn the_first_write_fails(rt: HostRuntime) {
    let text =
        b"new abc\nnew abc\nnew def\nsame 0 1\nsame 0 2\nrelease 2\nrelease 0\nread 1\nlen\n";
    let ran = run_to_write(rt.alloc(), text, 0, Some(ErrorKind::Other));
    assert_outcome(&rt, &ran, Err(Fault::Output));
    assert_count(&rt, ran.taken.len(), 0);
}

#[test]
fn each_fault_has_its_line(rt: HostRuntime) {
    for (fault, line) in [
        (Fault::Input, "intern_run: input failed"),
        (Fault::NotText, "intern_run: input is not UTF-8"),
        (Fault::OutOfMemory, "intern_run: out of memory"),
        (Fault::Output, "intern_run: output failed"),
    ] {
        assert_eq!(rt; fault.line(), line);
    }
}

#[test]
fn a_byte_that_is_no_text(rt: HostRuntime) {
    let ran = run_steady(rt.alloc(), b"\xff");
    assert_outcome(&rt, &ran, Err(Fault::NotText));
    assert!(rt; !ran.input_failed && !ran.output_failed);
    assert_count(&rt, ran.writes, 0);
}

#[test]
fn a_failed_read_after_what_is_no_text(rt: HostRuntime) {
    let ran = run_to_read(rt.alloc(), b"\xff", 1, ErrorKind::Other);
    assert_outcome(&rt, &ran, Err(Fault::Input));
    assert_count(&rt, ran.writes, 0);
}
