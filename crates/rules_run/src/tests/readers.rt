//! Which atoms a new fact is looked at by.
use rules::check::Program;
use rules::fault::Fault;
use rules::readers::Readers;
use std::process::Abort;

// These are the readers of the head of the rule of a number, by number and place.
const READERS: [&[(usize, usize)]; 3] = [&[(0, 0), (0, 2), (2, 1)], &[(1, 0)], &[]];

#[test]
fn each_predicate_has_the_atoms_that_read_it(rt: HostRuntime) -> Result<(), Fault> {
    let text = "p(X) :- p(X), e(X), p(X). q(X) :- q(X), not r(X). r(X) :- e(X), p(X).";
    let program = Program::read(rt.alloc(), text)?;
    let readers = Readers::find(rt.alloc(), &program.rules)?;
    for (rule, wanted) in program.rules.iter().zip(READERS) {
        let found = readers.of(rule.head.predicate);
        assert_eq!(&rt; found.len(), wanted.len());
        for (reader, (number, place)) in found.iter().zip(wanted) {
            assert_eq!(&rt; reader.number, *number);
            assert_eq!(&rt; reader.place, *place);
        }
    }
    Ok(())
}
