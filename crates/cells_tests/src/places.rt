// Values put into places and read back.
use cells::Column;

#[test]
fn every_place_keeps_its_own_value(rt: HostRuntime) {
    let mut column: Column<u32> = Column::filled(7);
    for i in 0..256usize {
        assert!(rt; *column.get(i) == 7);
        column.put(i, i as u32 * 3);
    }
    for i in 0..256usize {
        assert!(rt; *column.get(i) == i as u32 * 3);
    }
}
