// First-then kinds: kind C, and a kind nested in another.
use crate::asked::{check_before, check_less, check_plus, check_sum};
use lengths::{
    Couplings, FirstThen, KindC, Length, Millimetres, Whole, kind_c, one_coupling_is_more,
};

/// A first-then kind with another as its second part.
type Nested = FirstThen<Couplings, KindC>;

fn nested(outer: u64, inner: u64, millimetres: u64) -> Nested {
    FirstThen {
        first: Couplings { value: outer },
        second: kind_c(inner, millimetres),
    }
}

#[test]
fn kind_c_compares_couplings_first(rt: HostRuntime) {
    check_less(&rt, kind_c(0, 1_000_000), kind_c(1, 0));
    check_less(&rt, kind_c(2, u64::MAX), kind_c(3, 0));
    check_less(&rt, kind_c(2, 5), kind_c(2, 6));
    check_less(&rt, kind_c(2, 5), kind_c(3, 5));
    check_less(&rt, kind_c(2, 5), kind_c(3, 6));
    assert!(rt; one_coupling_is_more());
}

#[test]
fn kind_c_adds_part_by_part(rt: HostRuntime) {
    check_plus(&rt, kind_c(1, 400), kind_c(0, 150), kind_c(1, 550));
    check_plus(&rt, kind_c(2, u64::MAX), kind_c(3, 1), kind_c(5, u64::MAX));
    let all = kind_c(1, 400).plus(kind_c(0, 150));
    assert!(rt; all.first.value() == 1 && all.second.value() == 550);
    assert!(rt; KindC::zero().same(&kind_c(0, 0)));
    check_sum(&rt, &[], kind_c(0, 0));
    check_sum(
        &rt,
        &[kind_c(1, 400), kind_c(0, 150), kind_c(9, 50)],
        kind_c(10, 600),
    );
}

#[test]
fn the_order_of_the_type_is_that_of_the_figures(rt: HostRuntime) {
    check_before(&rt, Millimetres { value: 9 }, Millimetres { value: 10 });
    check_before(&rt, kind_c(0, 1_000_000), kind_c(1, 0));
    check_before(&rt, kind_c(2, 5), kind_c(2, 6));
    check_before(&rt, nested(1, 2, 1_000_000), nested(1, 3, 0));
}

#[test]
fn an_entry_of_kind_c_is_one_in_both_parts(rt: HostRuntime) {
    assert!(rt; kind_c(0, 0).is_entry());
    assert!(rt; kind_c(9, 1_000_000).is_entry());
    assert!(rt; !kind_c(10, 0).is_entry());
    assert!(rt; !kind_c(0, 1_000_001).is_entry());
    assert!(rt; !kind_c(10, 1_000_001).is_entry());
}

#[test]
fn a_nested_kind_is_a_kind(rt: HostRuntime) {
    assert!(rt; Nested::zero().same(&nested(0, 0, 0)));
    check_less(&rt, nested(0, 9, 1_000_000), nested(1, 0, 0));
    check_less(&rt, nested(1, 0, 1_000_000), nested(1, 1, 0));
    check_less(&rt, nested(1, 2, 3), nested(1, 2, 4));
    check_plus(&rt, nested(1, 2, 3), nested(10, 20, 30), nested(11, 22, 33));
    check_sum(
        &rt,
        &[nested(1, 2, 3), nested(4, 5, 6), nested(7, 8, 9)],
        nested(12, 15, 18),
    );
}

#[test]
fn an_entry_of_a_nested_kind_is_one_in_every_part(rt: HostRuntime) {
    assert!(rt; nested(9, 9, 1_000_000).is_entry());
    assert!(rt; !nested(10, 9, 1_000_000).is_entry());
    assert!(rt; !nested(9, 10, 1_000_000).is_entry());
    assert!(rt; !nested(9, 9, 1_000_001).is_entry());
}
