//! Answers as text.

use crate::rows::row;
use answer_lines::{ShowError, show_answer};
use std::alloc::Global;
use std::process::Abort;
use std::test::Fail;
use words::same;

// These bytes are an answer, shown as this text behind what was there.
fn shows(rt: &impl Abort, heap: Global, bytes: &[u8], text: &[u8]) -> Result<(), Fail> {
    let mut out = Vec::new(heap);
    assert_eq!(rt; show_answer(&mut out, bytes), Ok(()));
    assert!(rt; out.as_slice() == text);
    Ok(())
}

// These bytes are no answer.
fn is_none(rt: &impl Abort, heap: Global, bytes: &[u8]) -> Result<(), Fail> {
    let mut out = Vec::new(heap);
    out.extend_from_slice(b"7 70\n")?;
    assert_eq!(rt; show_answer(&mut out, bytes), Err(ShowError::NoAnswer));
    assert!(rt; same(out.as_slice(), b"7 70\n"));
    Ok(())
}

#[test]
fn numbers(rt: HostRuntime) -> Result<(), Fail> {
    let heap = rt.alloc();
    shows(&rt, heap, row(heap, 1, &[0])?.as_slice(), b"0")?;
    shows(&rt, heap, row(heap, 1, &[10])?.as_slice(), b"10")?;
    shows(
        &rt,
        heap,
        row(heap, 1, &[18446744073709551615])?.as_slice(),
        b"18446744073709551615",
    )?;
    shows(&rt, heap, row(heap, 2, &[7, 70])?.as_slice(), b"7 70")?;
    shows(
        &rt,
        heap,
        row(heap, 0, &[6, 1])?.as_slice(),
        b"refused 6 at 1",
    )
}

#[test]
fn lists(rt: HostRuntime) -> Result<(), Fail> {
    let heap = rt.alloc();
    shows(&rt, heap, row(heap, 3, &[0])?.as_slice(), b"none")?;
    shows(&rt, heap, row(heap, 4, &[0])?.as_slice(), b"none")?;
    shows(
        &rt,
        heap,
        row(heap, 3, &[1, 0, 60, 420, 1])?.as_slice(),
        b"0 60 420 1",
    )?;
    shows(
        &rt,
        heap,
        row(heap, 3, &[2, 0, 60, 420, 1, 0, 3, 30, 4])?.as_slice(),
        b"0 60 420 1, 0 3 30 4",
    )?;
    shows(
        &rt,
        heap,
        row(heap, 4, &[2, 0, 1, 420, 1, 7, 2, 5, 3])?.as_slice(),
        b"0 1 420 1, 7 2 5 3",
    )
}

#[test]
fn no_answers(rt: HostRuntime) -> Result<(), Fail> {
    let heap = rt.alloc();
    is_none(&rt, heap, b"")?;
    is_none(&rt, heap, row(heap, 1, &[])?.as_slice())?;
    is_none(&rt, heap, row(heap, 1, &[1, 2])?.as_slice())?;
    is_none(&rt, heap, row(heap, 0, &[10, 1])?.as_slice())?;
    is_none(&rt, heap, row(heap, 3, &[2, 0, 60, 420, 1])?.as_slice())?;
    is_none(&rt, heap, row(heap, 5, &[1])?.as_slice())
}
