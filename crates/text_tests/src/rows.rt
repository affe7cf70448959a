//! Rows of bytes, as the tests want them.

use call_lines::{LineError, read_line};
use std::alloc::{AllocError, Global};
use std::process::Abort;
use std::test::Fail;

/// A first byte, and fields of eight bytes behind it, low byte first.
pub fn row(heap: Global, first: u8, fields: &[u64]) -> Result<Vec<u8>, AllocError> {
    let mut bytes = Vec::new(heap);
    bytes.push(first)?;
    for field in fields {
        bytes.extend_from_slice(&field.to_le_bytes())?;
    }
    Ok(bytes)
}

/// The line is a call with these bytes. The buffer is used before.
pub fn is_call(rt: &impl Abort, heap: Global, line: &[u8], bytes: &[u8]) -> Result<(), Fail> {
    let mut call = Vec::new(heap);
    call.extend_from_slice(b"what was there before")?;
    assert_eq!(rt; read_line(line, &mut call), Ok(()));
    assert!(rt; call.as_slice() == bytes);
    Ok(())
}

/// The line is a call with this number and these fields.
pub fn reads(
    rt: &impl Abort,
    heap: Global,
    line: &[u8],
    number: u8,
    fields: &[u64],
) -> Result<(), Fail> {
    let bytes = row(heap, number, fields)?;
    is_call(rt, heap, line, bytes.as_slice())
}

/// The line is no call, and ceases to be one at this place.
pub fn ceases(rt: &impl Abort, heap: Global, line: &[u8], place: usize) -> Result<(), Fail> {
    let mut call = Vec::new(heap);
    call.extend_from_slice(b"what was there before")?;
    assert_eq!(rt; read_line(line, &mut call), Err(LineError::Misfit(place)));
    assert!(rt; call.len() == 0);
    Ok(())
}
