// A loom of kind C at which one coupling counts for more than any millimetres.
use crate::asked::plan;
use books::{Book, Edit, Spur};
use lengths::{KindC, kind_c};
use logs::LogBook;
use plans::{distance, hub, reach, spine, sum, trunk};

/// A point: its tag, its parent, the couplings and millimetres of its run, and the millimetres of its drop.
const POINTS: [(u32, u32, u64, u64, u64); 5] = [
    (2, 1, 0, 1, 0),
    (3, 1, 1, 0, 0),
    (4, 3, 0, 1, 5),
    (5, 2, 0, 1_000_000, 0),
    (6, 5, 0, 1_000_000, 7),
];

// the couplings and millimetres of a limit; first, last, and the couplings and millimetres of the sum of its trunk
const TRUNKS: [(u64, u64, u32, u32, u64, u64); 5] = [
    (0, 0, 1, 1, 2, 3_000_004),
    (0, 2_000_001, 1, 6, 2, 1),
    (1, 0, 1, 3, 0, 3_000_004),
    (1, 1, 2, 3, 0, 3_000_001),
    (2, 0, 4, 6, 0, 0),
];

#[test]
fn one_coupling_is_more_than_two_million_millimetres(rt: HostRuntime) {
    // an edit fills memory that holds none yet: a log opens on any content
    let mut entries = [Edit::<KindC>::Strike { tag: 2 }; 10];
    let mut book = LogBook::open(&mut entries);
    for (tag, parent, couplings, run, drop) in POINTS {
        let spur = Spur {
            parent,
            run: kind_c(couplings, run),
            drop: kind_c(0, drop),
        };
        assert!(rt; book.grow(tag, &spur).is_ok());
    }
    let mut memory = [kind_c(3, 4); 6];
    assert!(rt; hub(&book, &mut memory) == plan(1, 1, kind_c(1, 6)));
    assert!(rt; spine(&book, &mut memory) == plan(3, 6, kind_c(0, 7)));
    for (couplings, long, first, last, many, total) in TRUNKS {
        let limit = kind_c(couplings, long);
        assert!(rt; trunk(&book, limit, &mut memory) == plan(first, last, kind_c(many, total)));
    }
    assert!(rt; distance(&book, 4, 6, &mut memory) == Ok(kind_c(1, 2_000_002)));
    assert!(rt; reach(&book, 1, 1, &mut memory) == Ok(kind_c(1, 6)));
    assert!(rt; sum(&book, 1, 1, &mut memory) == Ok(kind_c(2, 3_000_004)));
}
