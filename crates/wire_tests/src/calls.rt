use std::process::Abort;
use std::test::Fail;
use wire::{Call, CallKind, RecipePart, Row, read, write_call};

// How many bytes a call has, by its number; the recipe has two parts.
const SIZES: [usize; 16] = [25, 25, 17, 17, 25, 17, 9, 9, 42, 17, 17, 9, 9, 9, 9, 17];

const LONGEST: usize = 43;

// The place where a row ceases to be a call, if it is none.
fn place(bytes: &[u8]) -> Option<usize> {
    read(bytes).err()
}

#[test]
fn every_call_at_every_length(rt: HostRuntime) {
    for (k, size) in (0..16u8).zip(SIZES) {
        let mut row = [2u8; LONGEST];
        row[0] = k;
        for n in 0..LONGEST {
            let expected = (n != size).then_some(n.min(size));
            assert_eq!(rt; place(&row[0..n]), expected);
        }
    }
}

#[test]
fn unknown_numbers(rt: HostRuntime) {
    for k in 16..=255u8 {
        let mut row = [0u8; 9];
        row[0] = k;
        assert_eq!(rt; place(&row), Some(0));
    }
}

#[test]
fn numbers_of_kinds(rt: HostRuntime) -> Result<(), Fail> {
    assert!(rt; CallKind::try_from(16).is_err());
    for n in 0..16u8 {
        let kind = CallKind::try_from(n).ok().ok_or("no kind")?;
        assert_eq!(rt; u8::from(kind), n);
    }
    Ok(())
}

#[test]
fn fields_low_byte_first(rt: HostRuntime) -> Result<(), Fail> {
    let row = [
        2, 5, 1, 0, 0, 0, 0, 0, 0, 255, 255, 255, 255, 255, 255, 255, 255,
    ];
    let Ok(Call::Comes(order, pieces)) = read(&row) else {
        return Err(Fail::new("no call"));
    };
    assert_eq!(rt; order, 261);
    assert_eq!(rt; pieces, u64::MAX);
    Ok(())
}

#[test]
fn parts_of_a_recipe(rt: HostRuntime) -> Result<(), Fail> {
    let mut row = [0u8; 42];
    row[0] = 8;
    row[1] = 3;
    row[9] = 2;
    row[10] = 4;
    row[18] = 5;
    row[26] = 6;
    row[34] = 7;
    let Ok(Call::MadeOf(item, parts)) = read(&row) else {
        return Err(Fail::new("no recipe"));
    };
    assert_eq!(rt; item, 3);
    assert_eq!(rt; RecipePart::count(parts), 2);
    let second = RecipePart::nth(parts, 1).ok_or("no second part")?;
    assert_eq!(rt; second, RecipePart { item: 6, each: 7 });
    assert!(rt; RecipePart::nth(parts, 2).is_none());
    Ok(())
}

// Reads a row, writes the call over other bytes, and compares.
fn written_again(rt: &impl Abort, row: &[u8]) -> Result<(), Fail> {
    let Ok(call) = read(row) else {
        return Err(Fail::new("no call"));
    };
    let mut out = [170u8; LONGEST];
    let n = write_call(call, &mut out).ok_or("no room")?;
    assert!(rt; n < LONGEST);
    assert!(rt; &out[0..n] == row);
    assert_eq!(rt; out[n], 170);
    Ok(())
}

#[test]
fn every_call_written_again(rt: HostRuntime) -> Result<(), Fail> {
    for (k, size) in (0..16u8).zip(SIZES) {
        let mut row = [2u8; LONGEST];
        row[0] = k;
        assert!(rt; size <= LONGEST);
        written_again(&rt, &row[0..size])?;
    }
    Ok(())
}

fn comes<'a>(order: u64, pieces: u64) -> Call<'a> {
    Call::Comes(order, pieces)
}

#[test]
fn no_room_for_a_call(rt: HostRuntime) {
    let mut out = [170u8; 16];
    assert_eq!(rt; write_call(comes(1, 2), &mut out), None);
    assert!(rt; out == [170; 16]);
}

#[test]
fn parts_that_are_not_whole(rt: HostRuntime) {
    let parts = [0u8; 31];
    let mut out = [170u8; 64];
    assert_eq!(rt; write_call(Call::MadeOf(3, &parts), &mut out), None);
    assert_eq!(rt; out[0], 170);
}
