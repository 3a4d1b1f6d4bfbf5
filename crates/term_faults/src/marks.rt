//! Marks on standard error, each a line, which tell what the requests for memory are for that
//! follow.
//!
//! `asks: CALL`: each is one of this call. `takes none: CALL`: there is none. `prepares`: one that
//! is refused is made once more. `refused: CALL`: the call was refused for want of memory, and what
//! follows prepares. `ends`: the program is at its end.

/// Writes a mark. Where it can't be written, whoever reads the marks misses it.
pub(crate) fn mark(rt: &impl Eprint, line: &'static str) {
    let _ = rt.eprintln(line);
}
