//! Lines that are calls.

use crate::rows::reads;
use std::test::Fail;

#[test]
fn each_call(rt: HostRuntime) -> Result<(), Fail> {
    let heap = rt.alloc();
    reads(&rt, heap, b"buys 3 10 7", 0, &[3, 10, 7])?;
    reads(&rt, heap, b"sells 3 10 9", 1, &[3, 10, 9])?;
    reads(&rt, heap, b"comes 0 60", 2, &[0, 60])?;
    reads(&rt, heap, b"goes 1 5", 3, &[1, 5])?;
    reads(&rt, heap, b"billed by 0 60 420", 4, &[0, 60, 420])?;
    reads(&rt, heap, b"bills 1 5", 5, &[1, 5])?;
    reads(&rt, heap, b"pays out 420", 6, &[420])?;
    reads(&rt, heap, b"pays in 45", 7, &[45])?;
    reads(&rt, heap, b"makes 3 2", 9, &[3, 2])
}

#[test]
fn each_question(rt: HostRuntime) -> Result<(), Fail> {
    let heap = rt.alloc();
    reads(&rt, heap, b"counted 0 63", 10, &[0, 63])?;
    reads(&rt, heap, b"stock of 0", 11, &[0])?;
    reads(&rt, heap, b"account 8", 12, &[8])?;
    reads(&rt, heap, b"order 1", 13, &[1])?;
    reads(&rt, heap, b"lots of 0", 14, &[0])?;
    reads(&rt, heap, b"entries from 2 10", 15, &[2, 10])
}

#[test]
fn blanks(rt: HostRuntime) -> Result<(), Fail> {
    let heap = rt.alloc();
    reads(&rt, heap, b"   order   1   ", 13, &[1])?;
    reads(&rt, heap, b"\torder\t1\t", 13, &[1])?;
    reads(&rt, heap, b" \t stock \t of \t 0", 11, &[0])
}

#[test]
fn numbers(rt: HostRuntime) -> Result<(), Fail> {
    let heap = rt.alloc();
    reads(&rt, heap, b"order 0", 13, &[0])?;
    reads(&rt, heap, b"order 007", 13, &[7])?;
    reads(
        &rt,
        heap,
        b"order 00000000000000000000000000000000000042",
        13,
        &[42],
    )?;
    reads(
        &rt,
        heap,
        b"order 18446744073709551615",
        13,
        &[18446744073709551615],
    )?;
    reads(&rt, heap, b"order 256", 13, &[256])
}
