//! Searches at each length from 0 to 65, so with and without numbers behind the last whole lanes.
use crate::claims::assert_at_length;
use rd_lanes::{all_below, count, find, first_diff, last_diff, rfind};
use std::test::Fail;

const LONGEST: usize = 65;

/// Whether a list that has the number sought at one place alone is searched right: both ways, counted, and told from all below.
fn is_found(list: &[u32], at: usize) -> bool {
    find(list, 7) == Some(at)
        && rfind(list, 7) == Some(at)
        && count(list, 7) == 1
        && !all_below(list, 7)
        && all_below(list, 8)
}

/// Whether a list without the number sought is searched right.
fn is_missed(list: &[u32]) -> bool {
    find(list, 7) == None && rfind(list, 7) == None && count(list, 7) == 0 && all_below(list, 7)
}

/// Whether lists of a length are searched right, with the number sought nowhere and at each of their places.
fn are_searched(length: usize) -> bool {
    let mut numbers = [5u32; LONGEST];
    if length > LONGEST || !is_missed(&numbers[..length]) {
        return false;
    }
    for at in 0..length {
        numbers[at] = 7;
        if !is_found(&numbers[..length], at) {
            return false;
        }
        numbers[at] = 5;
    }
    true
}

/// Whether two lists of a length are compared right, where they are equal and where they differ at one place.
fn are_compared(length: usize) -> bool {
    let ones = [1u64; LONGEST];
    let mut numbers = [1u64; LONGEST];
    if length > LONGEST || first_diff(&ones[..length], &numbers[..length]) != None {
        return false;
    }
    for at in 0..length {
        numbers[at] = 2;
        if !differ_at(&ones[..length], &numbers[..length], at) {
            return false;
        }
        numbers[at] = 1;
    }
    last_diff(&ones[..length], &numbers[..length]) == None
}

/// Whether two lists differ at one place alone.
fn differ_at(a: &[u64], b: &[u64], at: usize) -> bool {
    a.len() == b.len() && first_diff(a, b) == Some(at) && last_diff(a, b) == Some(at)
}

#[test]
fn searches_at_each_length(rt: HostRuntime) -> Result<(), Fail> {
    for length in 0..=LONGEST {
        assert_at_length(&rt, "searches", length, are_searched(length));
        assert_at_length(&rt, "comparisons", length, are_compared(length));
    }
    Ok(())
}
