use crate::answers::Row;
use crate::callees::{calls_deeper, wrong_row};
use cost_weights::Cost;
use std::test::Fail;
use tests_systems::{A, B, C, D, SOME_A, calls, grows};

// Any number of any of three symbols, and of four.
const ANY_OF_THREE: (&[u32], bool) = (&[0, 1, 2], true);

const ANY_OF_FOUR: (&[u32], bool) = (&[0, 1, 2, 3], true);

#[test]
fn costs_of_ends_that_go_on(rt: HostRuntime) -> Result<(), Fail> {
    let system = calls(rt.alloc(), Cost::new(100)?)?;
    let rows: [Row; 9] = [
        // a call at 2 that returns at 1, with nothing below what it leaves
        ((0, &[A], 1, &[A, ANY_OF_THREE]), Some(3)),
        ((0, &[A], 0, &[B, ANY_OF_THREE]), Some(2)),
        ((0, &[A], 0, &[B, A, ANY_OF_THREE]), Some(2)),
        // with one or more below
        ((0, &[A, A], 1, &[A, A, ANY_OF_THREE]), Some(3)),
        ((0, &[A, SOME_A], 1, &[A, A, ANY_OF_THREE]), Some(3)),
        // either of two on top
        ((0, &[A], 1, &[(&[0, 1], false), ANY_OF_THREE]), Some(3)),
        // no run leads there
        ((0, &[A], 1, &[B, ANY_OF_THREE]), None),
        ((0, &[A], 1, &[A, A, ANY_OF_THREE]), None),
        // the items before it may take nothing
        ((0, &[A], 1, &[SOME_A, ANY_OF_THREE]), Some(3)),
    ];
    assert_eq!(rt; wrong_row(&rt, &system, &rows)?, None);
    Ok(())
}

#[test]
fn costs_of_ends_that_grow(rt: HostRuntime) -> Result<(), Fail> {
    let system = grows(rt.alloc(), Cost::new(100)?)?;
    let rows: [Row; 4] = [
        // two symbols at least, three at least, and none
        ((0, &[A], 0, &[A, A, ANY_OF_THREE]), Some(1)),
        ((0, &[A], 0, &[A, A, A, ANY_OF_THREE]), Some(2)),
        ((0, &[A], 0, &[A, SOME_A, A, ANY_OF_THREE]), Some(1)),
        ((0, &[A], 0, &[B, ANY_OF_THREE]), None),
    ];
    assert_eq!(rt; wrong_row(&rt, &system, &rows)?, None);
    Ok(())
}

#[test]
fn costs_of_ends_behind_callees(rt: HostRuntime) -> Result<(), Fail> {
    let system = calls_deeper(rt.alloc(), Cost::new(1000)?)?;
    let rows: [Row; 7] = [
        // called, at 10, and with more below once it called itself
        ((0, &[A], 0, &[B, ANY_OF_FOUR]), Some(10)),
        ((0, &[A], 0, &[B, C, ANY_OF_FOUR]), Some(13)),
        // it called itself once and returned to q; and three times, and back to q and r
        ((0, &[A], 1, &[C, ANY_OF_FOUR]), Some(14)),
        ((0, &[A], 2, &[C, C, ANY_OF_FOUR]), Some(25)),
        // it returned for good, to r
        ((0, &[A], 2, &[D, ANY_OF_FOUR]), Some(19)),
        // from any stack with the call on top
        ((0, &[A, ANY_OF_FOUR], 1, &[D, ANY_OF_FOUR]), Some(11)),
        ((0, &[A], 1, &[A, ANY_OF_FOUR]), None),
    ];
    assert_eq!(rt; wrong_row(&rt, &system, &rows)?, None);
    Ok(())
}
