// The text of an id from its number, and the number of an allocation from the text of its id.
use ns_types::id::{IdKind, id_read, id_text};

const IDS: [(IdKind, u64, &str); 3] = [
    (
        IdKind::Evaluation,
        1,
        "00000000-0000-0001-0000-000000000001",
    ),
    (
        IdKind::Allocation,
        2571,
        "00000000-0000-0002-0000-000000000a0b",
    ),
    (
        IdKind::Allocation,
        u64::MAX,
        "00000000-0000-0002-ffff-ffffffffffff",
    ),
];

#[test]
fn numbers_are_written_as_ids(rt: HostRuntime) {
    for (kind, number, text) in &IDS {
        let id = id_text(rt.alloc(), *kind, *number).expect(&rt, "memory");
        assert!(rt; id.as_str() == *text, "{text}");
    }
}

const NUMBERS: [(&str, Option<u64>); 6] = [
    ("00000000-0000-0002-0000-0000000000ff", Some(255)),
    ("000000000000000200000000000000FF", Some(255)),
    ("{00000000-0000-0002-ffff-ffffffffffff}", Some(u64::MAX)),
    ("00000000-0000-0001-0000-0000000000ff", None),
    ("00000001-0000-0002-0000-0000000000ff", None),
    ("00000000-0000-0002-0000-0000000000f", None),
];

#[test]
fn ids_are_read_as_numbers(rt: HostRuntime) {
    for (text, number) in &NUMBERS {
        assert!(rt; id_read(IdKind::Allocation, *text) == *number, "{text}");
    }
}
