// What the tests ask of the figures of any kind.
use lengths::{Length, Ordered, larger, sum_of};
use std::process::Abort;

/// Checks that `a` is less than `b`, in every call that compares.
pub(crate) fn check_less<L: Length>(rt: &impl Abort, a: L, b: L) {
    assert!(rt; a.less(&b) && !b.less(&a));
    assert!(rt; !a.less(&a) && !b.less(&b));
    assert!(rt; !a.same(&b) && !b.same(&a));
    assert!(rt; a.same(&a) && b.same(&b));
    assert!(rt; larger(a, b).same(&b) && larger(b, a).same(&b));
    assert!(rt; larger(a, a).same(&a));
}

/// Checks that the type has `a` before `b`, as it must where `a` is less.
pub(crate) fn check_before<L: Ordered>(rt: &impl Abort, a: L, b: L) {
    check_less(rt, a, b);
    assert!(rt; a.before(&b) && !b.before(&a) && !a.before(&a));
    assert!(rt; a < b && a != b && a.max(b).same(&b) && b.min(a).same(&a));
}

/// Checks that `all` is what the figures come to.
pub(crate) fn check_sum<L: Length>(rt: &impl Abort, figures: &[L], all: L) {
    assert!(rt; sum_of(figures).same(&all));
}

/// Checks that the two figures come to `all`, in either order, and that zero adds nothing.
pub(crate) fn check_plus<L: Length>(rt: &impl Abort, a: L, b: L, all: L) {
    assert!(rt; a.plus(b).same(&all) && b.plus(a).same(&all));
    assert!(rt; a.plus(L::zero()).same(&a) && L::zero().plus(a).same(&a));
}
