//! Calls printed as lines, and read again.

use call_lines::read_line;
use call_printing::print_call;
use std::alloc::Global;
use std::process::Abort;
use std::test::Fail;
use wire::read;
use words::{put_numbers, same};

// The line is a call that is printed as this text.
fn prints(rt: &impl Abort, heap: Global, line: &[u8], text: &[u8]) -> Result<(), Fail> {
    let mut bytes = Vec::new(heap);
    assert_eq!(rt; read_line(line, &mut bytes), Ok(()));
    let mut out = Vec::new(heap);
    match read(bytes.as_slice()) {
        Ok(call) => print_call(&mut out, call)?,
        Err(_) => return Err(Fail::new("no call")),
    }
    assert!(rt; out.as_slice() == text);
    Ok(())
}

#[test]
fn in_plain_form(rt: HostRuntime) -> Result<(), Fail> {
    let heap = rt.alloc();
    prints(&rt, heap, b"  buys\t3 010 7 ", b"buys 3 10 7")?;
    prints(&rt, heap, b"billed  by 0 60 420", b"billed by 0 60 420")?;
    prints(&rt, heap, b"pays  in 45", b"pays in 45")?;
    prints(&rt, heap, b"entries from 2 10", b"entries from 2 10")?;
    prints(&rt, heap, b"made of 3 :", b"made of 3:")?;
    prints(
        &rt,
        heap,
        b"made of 3:item 0,3 each,item 1,2 each",
        b"made of 3: item 0, 3 each, item 1, 2 each",
    )
}

#[test]
fn numbers_beside_each_other(rt: HostRuntime) -> Result<(), Fail> {
    let mut out = Vec::new(rt.alloc());
    put_numbers(&mut out, &[])?;
    assert!(&rt; out.is_empty());
    put_numbers(&mut out, &[7])?;
    assert!(&rt; same(&out, b"7"));
    put_numbers(&mut out, &[0, 18446744073709551615, 10])?;
    assert!(&rt; same(&out, b"70 18446744073709551615 10"));
    Ok(())
}
