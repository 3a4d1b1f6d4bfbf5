//! An expression is stored once.
use crate::steps::is_equal;
use ra_ap_intern::InternStorage;
use use_nodes::{add, number, parts};
use use_sums::find_sum;

#[test]
fn equal_expressions_have_one_handle(rt: HostRuntime) {
    let mut exprs = InternStorage::new(rt.alloc(), 1);
    let one = number(&mut exprs, 1).expect(&rt, "memory");
    let two = number(&mut exprs, 2).expect(&rt, "memory");
    let sum = add(&mut exprs, one, two).expect(&rt, "memory");
    let again = add(&mut exprs, one, two).expect(&rt, "stored");
    let turned = add(&mut exprs, two, one).expect(&rt, "memory");
    assert!(rt; sum == again);
    assert!(rt; sum != turned);
    assert!(rt; parts(&exprs, sum) == Some((one, two)));
    assert!(rt; parts(&exprs, one).is_none());
    assert!(rt; find_sum(&exprs, one, two) == Some(sum));
    assert!(rt; find_sum(&exprs, one, one).is_none());
    is_equal(&rt, exprs.len(), 4);
}
