// Small looms at which each near mistake gives another plan.
use crate::asked::{Point, check_centers, check_trunk, plant};
use books::Book;
use lengths::KindM;
use std::process::Abort;
use tables::{Row, TableBook};

/// A loom: its points, its hub and its spine, and its trunks for some limits.
type Case<'a> = (
    &'a [Point],
    (u32, u32, u64),
    (u32, u32, u64),
    &'a [(u64, (u32, u32, u64))],
);

/// Checks the plans of a loom of at most 16 points.
fn check_case(rt: &impl Abort, case: Case<'_>) {
    let (points, hub, spine, trunks) = case;
    let mut rows = [Row::<KindM>::blank(); 15];
    let mut book = TableBook::open(&mut rows);
    plant(rt, &mut book, points);
    check_centers(rt, &book, hub, spine);
    for (limit, trunk) in trunks {
        check_trunk(rt, &book, *limit, *trunk);
    }
}

#[test]
fn one_point_is_its_own_plan(rt: HostRuntime) {
    check_case(
        &rt,
        (&[], (1, 1, 0), (1, 1, 0), &[(0, (1, 1, 0)), (9, (1, 1, 0))]),
    );
}

#[test]
fn a_trunk_may_be_shorter_than_its_limit(rt: HostRuntime) {
    let points = [(2, 1, 300, 0)];
    let trunks = [(299, (1, 1, 300)), (300, (1, 2, 0)), (301, (1, 2, 0))];
    check_case(&rt, (&points, (1, 2, 300), (1, 2, 0), &trunks));
}

#[test]
fn the_hub_need_not_be_the_root(rt: HostRuntime) {
    let points = [(2, 1, 1, 0), (3, 2, 1, 0)];
    let trunks = [(0, (2, 2, 2)), (1, (1, 2, 1)), (2, (1, 3, 0))];
    check_case(&rt, (&points, (2, 2, 1), (1, 3, 0), &trunks));
}

#[test]
fn a_drop_moves_the_hub_to_a_leaf(rt: HostRuntime) {
    let points = [(2, 1, 1, 10)];
    let trunks = [(0, (1, 1, 1)), (1, (1, 2, 0))];
    check_case(&rt, (&points, (2, 2, 10), (2, 2, 10), &trunks));
}

#[test]
fn an_even_way_has_two_hub_points(rt: HostRuntime) {
    let points = [(2, 1, 1, 0), (3, 2, 1, 0), (4, 3, 1, 0)];
    let trunks = [
        (0, (2, 2, 4)),
        (1, (2, 3, 2)),
        (2, (1, 3, 1)),
        (3, (1, 4, 0)),
    ];
    check_case(&rt, (&points, (2, 3, 2), (1, 4, 0), &trunks));
}

#[test]
fn in_a_star_ties_go_to_the_smaller_tags(rt: HostRuntime) {
    let points = [(2, 1, 1, 0), (3, 1, 1, 0), (4, 1, 1, 0)];
    let trunks = [(0, (1, 1, 3)), (1, (1, 2, 2)), (2, (2, 3, 1))];
    check_case(&rt, (&points, (1, 1, 1), (1, 1, 1), &trunks));
}

#[test]
fn the_drop_of_a_point_on_the_way_is_not_added(rt: HostRuntime) {
    let points = [(2, 1, 3, 50), (3, 2, 3, 0), (4, 3, 3, 0), (5, 4, 3, 0)];
    let trunks = [
        (0, (3, 3, 18)),
        (3, (2, 3, 12)),
        (6, (2, 4, 6)),
        (9, (1, 4, 3)),
    ];
    check_case(&rt, (&points, (2, 2, 50), (2, 2, 50), &trunks));
}

#[test]
fn a_trunk_off_the_root_has_the_smaller_tags(rt: HostRuntime) {
    let points = [
        (2, 1, 2, 0),
        (3, 1, 2, 0),
        (4, 2, 1, 0),
        (5, 3, 1, 0),
        (6, 1, 2, 0),
    ];
    let trunks = [
        (2, (1, 2, 8)),
        (3, (1, 4, 7)),
        (4, (2, 3, 4)),
        (5, (2, 5, 3)),
        (6, (4, 5, 2)),
    ];
    check_case(&rt, (&points, (1, 1, 3), (2, 3, 2), &trunks));
}

#[test]
fn a_comb_with_drops_has_its_plans(rt: HostRuntime) {
    let points = [
        (2, 1, 4, 0),
        (3, 2, 4, 0),
        (4, 3, 4, 0),
        (5, 1, 1, 9),
        (6, 2, 2, 1),
        (7, 3, 3, 0),
        (8, 4, 1, 20),
    ];
    let trunks = [
        (0, (2, 2, 39)),
        (4, (2, 3, 23)),
        (9, (2, 8, 14)),
        (13, (1, 8, 6)),
    ];
    check_case(&rt, (&points, (4, 4, 22), (3, 8, 20), &trunks));
}

#[test]
fn the_shorter_of_two_paths_with_one_sum_is_the_trunk(rt: HostRuntime) {
    let points = [(2, 1, 2, 0), (3, 2, 1, 0), (4, 3, 2, 0)];
    let trunks = [
        (0, (2, 2, 6)),
        (1, (2, 3, 4)),
        (2, (2, 3, 4)),
        (3, (1, 3, 2)),
    ];
    check_case(&rt, (&points, (2, 3, 3), (1, 4, 0), &trunks));
}

#[test]
fn what_was_struck_does_not_count(rt: HostRuntime) {
    let mut rows = [Row::<KindM>::blank(); 9];
    let mut book = TableBook::open(&mut rows);
    let points = [
        (2, 1, 4, 0),
        (4, 2, 9, 50),
        (5, 4, 9, 0),
        (7, 1, 2, 0),
        (8, 7, 1, 3),
    ];
    plant(&rt, &mut book, &points);
    assert!(rt; book.strike(4).is_ok());
    check_centers(&rt, &book, (1, 7, 6), (2, 8, 3));
    check_trunk(&rt, &book, 3, (1, 8, 4));
}
