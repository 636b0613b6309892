// The two kinds whose figures are whole numbers: millimetres and couplings.
use crate::asked::{check_less, check_plus, check_sum};
use lengths::{Couplings, Length, Millimetres, Whole};

// One function for each kind, so that a test says of which it speaks; and a test for each, since each has edges of its own.

fn mm(value: u64) -> Millimetres {
    Millimetres { value }
}

fn couplings(value: u64) -> Couplings {
    Couplings { value }
}

#[test]
fn millimetres_up_to_a_million_are_entries(rt: HostRuntime) {
    assert!(rt; mm(0).is_entry() && mm(1).is_entry());
    assert!(rt; mm(1_000_000).is_entry());
    assert!(rt; !mm(1_000_001).is_entry());
    assert!(rt; !mm(u64::MAX).is_entry());
}

#[test]
fn couplings_up_to_nine_are_entries(rt: HostRuntime) {
    assert!(rt; couplings(0).is_entry() && couplings(9).is_entry());
    assert!(rt; !couplings(10).is_entry() && !couplings(u64::MAX).is_entry());
}

#[test]
fn millimetres_add_up_and_stop_at_the_greatest(rt: HostRuntime) {
    check_plus(&rt, mm(300), mm(50), mm(350));
    check_plus(&rt, mm(u64::MAX - 1), mm(1), mm(u64::MAX));
    check_plus(&rt, mm(u64::MAX), mm(1), mm(u64::MAX));
    check_plus(&rt, mm(u64::MAX), mm(u64::MAX), mm(u64::MAX));
    assert_eq!(rt; mm(300).plus(mm(50)).value(), 350);
    assert_eq!(rt; Millimetres::zero().value(), 0);
}

#[test]
fn couplings_add_up_and_stop_at_the_greatest(rt: HostRuntime) {
    check_plus(&rt, couplings(4), couplings(9), couplings(13));
    check_plus(&rt, couplings(u64::MAX), couplings(1), couplings(u64::MAX));
    assert_eq!(rt; couplings(4).plus(couplings(9)).value(), 13);
    assert_eq!(rt; Couplings::zero().value(), 0);
}

#[test]
fn the_smaller_number_is_less(rt: HostRuntime) {
    check_less(&rt, mm(0), mm(1));
    check_less(&rt, mm(1_000_000), mm(1_000_001));
    check_less(&rt, mm(u64::MAX - 1), mm(u64::MAX));
    check_less(&rt, couplings(9), couplings(10));
}

#[test]
fn a_list_is_summed_from_zero(rt: HostRuntime) {
    check_sum(&rt, &[], mm(0));
    check_sum(&rt, &[mm(7)], mm(7));
    check_sum(&rt, &[mm(300), mm(200), mm(400), mm(150)], mm(1050));
    check_sum(
        &rt,
        &[couplings(9), couplings(0), couplings(9)],
        couplings(18),
    );
}
