//! That nothing is stored.
use crate::peak::{Peak, lowered, raised};
use std::mem::size_of;
use std::snapshot::Snapshot;

#[test]
fn what_only_clauses_read_takes_no_bytes(rt: HostRuntime) {
    let mut peak = Peak::new(3);
    for count in [7, 5] {
        peak.set(count);
        assert_eq!(rt; peak.count(), count);
    }
    let _most = lowered(raised(Snapshot::of(&3), &7), 5);
    assert_eq!(rt; size_of::<Snapshot<u32>>(), 0);
    assert_eq!(rt; size_of::<Peak>(), 4);
}
