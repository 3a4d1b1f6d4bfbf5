//! Marks on standard error, by which `tools/refusals` knows what each request for memory is for.
//!
//! A mark holds until the next one. Where one can't be written, the tool misses it.

/// What is asked for prepares a call. Where it is refused, it is asked for once more.
pub(crate) fn prepares(rt: &impl Eprint) {
    let _ = rt.eprintln("prepares");
}

/// What is asked for is asked by a call. Where it is refused, the program writes `refused`, with
/// the name of that call. Where it may be one of several, their names have ` | ` between them.
pub(crate) fn asks(rt: &impl Eprint, calls: &'static str) {
    let _ = eprintln!(rt; "asks: {calls}");
}

/// Nothing is asked for.
pub(crate) fn takes_none(rt: &impl Eprint, calls: &'static str) {
    let _ = eprintln!(rt; "takes none: {calls}");
}

/// A call was refused for want of memory.
pub(crate) fn refused(rt: &impl Eprint, call: &'static str) {
    let _ = eprintln!(rt; "refused: {call}");
}

/// The program ends, and asks for nothing more.
pub(crate) fn ends(rt: &impl Eprint) {
    let _ = rt.eprintln("ends");
}
