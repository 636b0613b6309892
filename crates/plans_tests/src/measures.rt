// The measures of paths of one small loom.
use crate::asked::{Point, mm, plant};
use lengths::KindM;
use plans::{distance, length, reach, sum};
use tables::{Row, TableBook};

const POINTS: [Point; 5] = [
    (2, 1, 3, 0),
    (3, 2, 4, 7),
    (4, 2, 5, 1),
    (5, 1, 6, 0),
    (6, 5, 2, 30),
];

// the ends of a path, its length, its reach and its sum
const PATHS: [(u32, u32, u64, u64, u64); 6] = [
    (1, 1, 0, 38, 32),
    (3, 4, 9, 41, 23),
    (3, 5, 13, 32, 7),
    (2, 6, 11, 30, 9),
    (4, 6, 16, 30, 4),
    (6, 6, 0, 30, 52),
];

#[test]
fn paths_are_measured_from_either_end(rt: HostRuntime) {
    let mut rows = [Row::<KindM>::blank(); 5];
    let mut book = TableBook::open(&mut rows);
    plant(&rt, &mut book, &POINTS);
    let mut memory = [mm(3); 6];
    for (first, last, long, reached, total) in PATHS {
        for (a, b) in [(first, last), (last, first)] {
            assert!(rt; distance(&book, a, b, &mut memory) == Ok(mm(long)));
            assert!(rt; length(&book, a, b, &mut memory) == Ok(mm(long)));
            assert!(rt; reach(&book, a, b, &mut memory) == Ok(mm(reached)));
            assert!(rt; sum(&book, a, b, &mut memory) == Ok(mm(total)));
        }
    }
}
