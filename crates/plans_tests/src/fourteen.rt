// The loom of fourteen points of docs/plans.md: all runs 1, no drops.
use crate::asked::{Point, check_centers, check_trunk, mm, plant};
use lengths::KindM;
use tables::{Row, TableBook};

const POINTS: [Point; 13] = [
    (2, 1, 1, 0),
    (3, 2, 1, 0),
    (4, 3, 1, 0),
    (5, 4, 1, 0),
    (6, 4, 1, 0),
    (7, 3, 1, 0),
    (8, 3, 1, 0),
    (9, 8, 1, 0),
    (10, 2, 1, 0),
    (11, 10, 1, 0),
    (12, 11, 1, 0),
    (13, 2, 1, 0),
    (14, 13, 1, 0),
];

// a limit, and the trunk for it: first, last and sum
const TRUNKS: [(u64, (u32, u32, u64)); 8] = [
    (0, (2, 2, 26)),
    (1, (2, 3, 19)),
    (2, (2, 4, 16)),
    (3, (4, 10, 13)),
    (4, (4, 11, 11)),
    (5, (4, 12, 10)),
    (6, (5, 12, 9)),
    (600, (5, 12, 9)),
];

#[test]
fn fourteen_points_have_their_hub_and_spine(rt: HostRuntime) {
    let mut rows = [Row::<KindM>::blank(); 13];
    let mut book = TableBook::open(&mut rows);
    plant(&rt, &mut book, &POINTS);
    check_centers(&rt, &book, (2, 2, 3), (3, 10, 2));
}

#[test]
fn fourteen_points_have_a_trunk_for_each_limit(rt: HostRuntime) {
    let mut rows = [Row::<KindM>::blank(); 13];
    let mut book = TableBook::open(&mut rows);
    plant(&rt, &mut book, &POINTS);
    for (limit, trunk) in TRUNKS {
        check_trunk(&rt, &book, limit, trunk);
    }
}
