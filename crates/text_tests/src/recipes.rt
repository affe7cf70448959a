//! Recipes as text.

use crate::rows::{ceases, is_call};
use call_lines::{LineError, read_line};
use std::alloc::{AllocError, Global};
use std::test::Fail;

// A recipe's bytes: its item, its count, and two fields for each part.
fn recipe(heap: Global, item: u64, count: u8, fields: &[u64]) -> Result<Vec<u8>, AllocError> {
    let mut bytes = Vec::new(heap);
    bytes.push(8)?;
    bytes.extend_from_slice(&item.to_le_bytes())?;
    bytes.push(count)?;
    for field in fields {
        bytes.extend_from_slice(&field.to_le_bytes())?;
    }
    Ok(bytes)
}

// A line with so many parts.
fn long_line(heap: Global, count: usize) -> Result<Vec<u8>, AllocError> {
    let mut line = Vec::new(heap);
    line.extend_from_slice(b"made of 3: item 0, 1 each")?;
    for _ in 1..count {
        line.extend_from_slice(b", item 0, 1 each")?;
    }
    Ok(line)
}

#[test]
fn parts(rt: HostRuntime) -> Result<(), Fail> {
    let heap = rt.alloc();
    let none = recipe(heap, 3, 0, &[])?;
    let one = recipe(heap, 3, 1, &[0, 3])?;
    let two = recipe(heap, 3, 2, &[0, 3, 1, 2])?;
    is_call(&rt, heap, b"made of 3:", none.as_slice())?;
    is_call(&rt, heap, b"made of 3 :  ", none.as_slice())?;
    is_call(&rt, heap, b"made of 3: item 0, 3 each", one.as_slice())?;
    is_call(&rt, heap, b"made of 3:item 0,3 each", one.as_slice())?;
    is_call(&rt, heap, b"made of 3 : item 0 , 3 each ", one.as_slice())?;
    is_call(
        &rt,
        heap,
        b"made of 3: item 0, 3 each, item 1, 2 each",
        two.as_slice(),
    )?;
    is_call(
        &rt,
        heap,
        b"made of 3:item 0,3 each,item 1,2 each",
        two.as_slice(),
    )
}

#[test]
fn damaged(rt: HostRuntime) -> Result<(), Fail> {
    let heap = rt.alloc();
    ceases(&rt, heap, b"made of 3", 9)?;
    ceases(&rt, heap, b"made of : item 0, 3 each", 8)?;
    ceases(&rt, heap, b"made of 3 item 0, 3 each", 10)?;
    ceases(&rt, heap, b"made of 3: 0, 3 each", 11)?;
    ceases(&rt, heap, b"made of 3: item 0 3 each", 18)?;
    ceases(&rt, heap, b"made of 3: item 0, 3", 20)?;
    ceases(&rt, heap, b"made of 3: item 0, 3 each,", 26)?;
    ceases(&rt, heap, b"made of 3: item 0, 3 each item 1, 2 each", 26)?;
    ceases(&rt, heap, b"made of 3: , item 0, 3 each", 11)?;
    ceases(&rt, heap, b"made of 3: item 0, 3 each, item 1, x each", 35)
}

#[test]
fn most_parts(rt: HostRuntime) -> Result<(), Fail> {
    let heap = rt.alloc();
    let fits = long_line(heap, 255)?;
    let over = long_line(heap, 256)?;
    let mut call = Vec::new(heap);
    assert_eq!(rt; read_line(fits.as_slice(), &mut call), Ok(()));
    assert!(rt; call.len() == 10 + 16 * 255);
    assert!(rt; call[9] == 255);
    assert_eq!(rt;
        read_line(over.as_slice(), &mut call),
        Err(LineError::Misfit(fits.len()))
    );
    assert!(rt; call.len() == 0);
    Ok(())
}
