//! Lines that are no calls, and where they cease to be one.

use crate::rows::ceases;
use std::test::Fail;

#[test]
fn first_words(rt: HostRuntime) -> Result<(), Fail> {
    let heap = rt.alloc();
    ceases(&rt, heap, b"", 0)?;
    ceases(&rt, heap, b"   ", 3)?;
    ceases(&rt, heap, b"buy 3 10 7", 0)?;
    ceases(&rt, heap, b"  Buys 3 10 7", 2)?;
    ceases(&rt, heap, b"buysx 3 10 7", 0)?;
    ceases(&rt, heap, b": buys 3 10 7", 0)?;
    ceases(&rt, heap, b"3", 0)
}

#[test]
fn second_words(rt: HostRuntime) -> Result<(), Fail> {
    let heap = rt.alloc();
    ceases(&rt, heap, b"pays 420", 5)?;
    ceases(&rt, heap, b"pays off 420", 5)?;
    ceases(&rt, heap, b"pays", 4)?;
    ceases(&rt, heap, b"billed 0 60 420", 7)?;
    ceases(&rt, heap, b"stock off 0", 6)?;
    ceases(&rt, heap, b"entries 2 10", 8)?;
    ceases(&rt, heap, b"made in 3: item 0, 3 each", 5)
}

#[test]
fn missing_and_too_many(rt: HostRuntime) -> Result<(), Fail> {
    let heap = rt.alloc();
    ceases(&rt, heap, b"buys", 4)?;
    ceases(&rt, heap, b"buys 3", 6)?;
    ceases(&rt, heap, b"buys 3 10", 9)?;
    ceases(&rt, heap, b"buys 3 10  ", 11)?;
    ceases(&rt, heap, b"buys 3 10 7 1", 12)?;
    ceases(&rt, heap, b"order 1 1", 8)?;
    ceases(&rt, heap, b"order 1,", 7)
}

#[test]
fn numbers(rt: HostRuntime) -> Result<(), Fail> {
    let heap = rt.alloc();
    ceases(&rt, heap, b"order 18446744073709551616", 6)?;
    ceases(&rt, heap, b"order 99999999999999999999999", 6)?;
    ceases(&rt, heap, b"order -1", 6)?;
    ceases(&rt, heap, b"order +1", 6)?;
    ceases(&rt, heap, b"order 1.5", 6)?;
    ceases(&rt, heap, b"order 0x10", 6)?;
    ceases(&rt, heap, b"comes 1 2e3", 8)?;
    ceases(&rt, heap, b"order 1\r", 6)?;
    ceases(&rt, heap, b"order :", 6)
}
