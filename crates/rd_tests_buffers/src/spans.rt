//! Spans on a few positions.
use crate::claims::assert_of;
use rd_spans::Spans;
use std::process::Abort;
use std::test::Fail;

#[test]
fn values_are_put(rt: HostRuntime) -> Result<(), Fail> {
    let mut spans = Spans::new(rt.alloc())?;
    spans.put(2, 5, Some(7))?;
    assert!(rt; spans.at(1) == None);
    assert!(rt; spans.at(4) == Some(7));
    assert!(rt; spans.next_change(1) == Some(2));
    spans.put(1, 2, Some(7))?;
    assert!(rt; spans.next_change(1) == Some(5));
    Ok(())
}

#[test]
fn positions_are_opened(rt: HostRuntime) -> Result<(), Fail> {
    let mut spans = Spans::new(rt.alloc())?;
    spans.inserted(1, 2)?;
    assert!(rt; spans.next_change(1) == None);
    spans.put(2, 4, Some(7))?;
    spans.inserted(3, 2)?;
    assert!(rt; spans.at(4) == None);
    assert!(rt; spans.at(5) == Some(7));
    Ok(())
}

#[test]
fn positions_are_taken_away(rt: HostRuntime) -> Result<(), Fail> {
    let mut spans = Spans::new(rt.alloc())?;
    spans.put(1, 3, Some(9))?;
    spans.deleted(1, 2);
    assert!(rt; spans.at(1) == Some(9));
    assert!(rt; spans.at(2) == None);
    Ok(())
}

/// Positions after edits at many places, and their values.
const VALUES: [(&'static str, u32, Option<u32>); 13] = [
    ("before all values", 4, None),
    ("what is left of the first value", 5, Some(3)),
    ("behind the positions that were taken away", 6, Some(1)),
    ("the last one before those that were opened", 8, Some(1)),
    ("the first one that was opened", 9, None),
    ("the last one that was opened", 13, None),
    ("the first one behind those that were opened", 14, Some(1)),
    ("the last one of the second value", 18, Some(1)),
    ("behind the second value", 19, None),
    ("the last one of those whose value was cleared", 31, None),
    ("the first one that is left of the third value", 32, Some(2)),
    ("the last one of the third value", 38, Some(2)),
    ("behind all values", 39, None),
];

/// Asserts which values those positions have.
fn assert_values(rt: &impl Abort, spans: &Spans) {
    for (name, pos, value) in &VALUES {
        assert_of(rt, name, spans.at(*pos) == *value);
    }
}

#[test]
fn edits_move_the_gap(rt: HostRuntime) -> Result<(), Fail> {
    let mut spans = Spans::new(rt.alloc())?;
    spans.put(10, 20, Some(1))?;
    spans.put(30, 40, Some(2))?;
    spans.put(5, 8, Some(3))?;
    spans.inserted(15, 5)?;
    spans.put(33, 38, None)?;
    spans.deleted(6, 12);
    assert_values(&rt, &spans);
    assert!(rt; spans.next_change(6) == Some(9));
    assert!(rt; spans.next_change(9) == Some(14));
    assert!(rt; spans.next_change(32) == Some(39));
    assert!(rt; spans.next_change(39) == None);
    Ok(())
}
