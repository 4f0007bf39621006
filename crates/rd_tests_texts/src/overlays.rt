//! Overlays with ample memory.
use crate::claims::assert_of;
use rd_base::{ListOf, Memory};
use rd_overlays::{Kind, OverlayFault, Overlays};
use std::process::Abort;
use std::test::Fail;

/// Whether a list was had, and has these numbers.
fn lists(found: Result<ListOf<u32>, Memory>, numbers: &[u32]) -> bool {
    match found {
        Ok(list) => list.as_slice() == numbers,
        Err(_) => false,
    }
}

/// Whether an overlay has this behind its text, and no other value.
fn has_only_after(overlays: &Overlays, number: u32, after: u32) -> bool {
    match overlays.get(number) {
        Some(overlay) => overlay.values == [None, None, None, None, None, None, Some(after)],
        None => false,
    }
}

/// Makes overlays around position 2, of which the fifth is empty.
fn assert_made(rt: &impl Abort, overlays: &mut Overlays) {
    assert!(rt; overlays.make(1, 2, 1, false, false) == Ok(0));
    assert!(rt; overlays.make(1, 2, 2, false, false) == Ok(1));
    assert!(rt; overlays.make(2, 3, 1, false, false) == Ok(2));
    assert!(rt; overlays.make(2, 3, 2, false, false) == Ok(3));
    assert!(rt; overlays.make(2, 2, 0, false, false) == Ok(4));
    assert!(rt; overlays.make(3, 2, 0, false, false) == Err(OverlayFault::OutOfRange));
    assert!(rt; overlays.set(0, Kind::After, Some(7)) == Ok(()));
}

/// Looks for the overlays around position 2.
fn assert_found(rt: &impl Abort, overlays: &Overlays) {
    assert!(rt; has_only_after(overlays, 0, 7));
    assert!(rt; overlays.get(5).is_none());
    assert_of(
        rt,
        "the overlays that start at 2",
        lists(overlays.starting(2), &[4, 2, 3]),
    );
    assert_of(
        rt,
        "the overlays that end at 2",
        lists(overlays.ending(2), &[4, 0, 1]),
    );
    assert_of(
        rt,
        "the overlays that cover 2",
        lists(overlays.covering(2), &[2, 3]),
    );
    assert!(rt; overlays.next_edge(1) == Some(2));
    assert!(rt; overlays.next_edge(3) == None);
}

/// Moves the third of the overlays and takes the fifth away.
fn assert_changed(rt: &impl Abort, overlays: &mut Overlays) {
    assert!(rt; overlays.move_to(2, 2, 6) == Ok(()));
    assert!(rt; overlays.next_edge(3) == Some(6));
    assert!(rt; overlays.drop_one(4) == Ok(()));
    assert!(rt; overlays.drop_one(4) == Err(OverlayFault::NoOverlay));
    assert!(rt; overlays.make(2, 2, 0, false, false) == Ok(5));
}

#[test]
fn overlays_are_numbered_and_listed(rt: HostRuntime) -> Result<(), Fail> {
    let mut overlays = Overlays::new(rt.alloc())?;
    assert_made(&rt, &mut overlays);
    assert_found(&rt, &overlays);
    assert_changed(&rt, &mut overlays);
    Ok(())
}

/// Whether 300 overlays of one character are made, each before the one that was made before it.
fn makes_many(overlays: &mut Overlays) -> bool {
    for k in 0..300u32 {
        if overlays.make(300 - k, 301 - k, 0, false, false).is_err() {
            return false;
        }
    }
    true
}

#[test]
fn many_overlays_are_found(rt: HostRuntime) -> Result<(), Fail> {
    let mut overlays = Overlays::new(rt.alloc())?;
    assert!(rt; makes_many(&mut overlays));
    assert!(rt; lists(overlays.covering(7), &[293]));
    assert!(rt; overlays.next_edge(7) == Some(8));
    Ok(())
}
