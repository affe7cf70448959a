use std::test::Fail;
use wire::{
    Answer, EntryLine, Line, LotLine, Refusal, Row, read_answer, write, write_refusal, write_two,
};

#[test]
fn a_refusal(rt: HostRuntime) -> Result<(), Fail> {
    let mut out = [170u8; 18];
    assert_eq!(rt; write_refusal(&mut out, Refusal::TooMany, 1), Some(17));
    assert!(rt; out == [0, 6, 0, 0, 0, 0, 0, 0, 0, 1, 0, 0, 0, 0, 0, 0, 0, 170]);
    let Some(Answer::Refused(refusal, place)) = read_answer(&out[0..17]) else {
        return Err(Fail::new("no refusal"));
    };
    assert_eq!(rt; u64::from(refusal), 6);
    assert_eq!(rt; place, 1);
    Ok(())
}

#[test]
fn numbers_of_refusals(rt: HostRuntime) -> Result<(), Fail> {
    assert!(rt; Refusal::try_from(0).is_err());
    assert!(rt; Refusal::try_from(10).is_err());
    for n in 1..10u64 {
        let refusal = Refusal::try_from(n).ok().ok_or("no refusal")?;
        assert_eq!(rt; u64::from(refusal), n);
    }
    Ok(())
}

#[test]
fn answers_damaged_at_every_length(rt: HostRuntime) {
    for (kind, size) in (0..5u8).zip([17usize, 9, 17, 41, 41]) {
        let mut row = [0u8; 43];
        row[0] = kind;
        row[1] = 1;
        for n in 0..43 {
            assert_eq!(rt; read_answer(&row[0..n]).is_some(), n == size);
        }
    }
}

#[test]
fn no_room_for_an_answer(rt: HostRuntime) {
    let mut out = [170u8; 16];
    assert_eq!(rt; write_two(&mut out, 1, 2), None);
    assert!(rt; out == [170; 16]);
}

#[test]
fn lots_line_by_line(rt: HostRuntime) -> Result<(), Fail> {
    let mut out = [170u8; 74];
    let first = LotLine {
        item: 0,
        pieces: 60,
        cost: 420,
        document: 1,
    };
    let second = LotLine {
        item: 0,
        pieces: 3,
        cost: 30,
        document: 4,
    };
    assert_eq!(rt; LotLine::begin(&mut out, 2), Some(9));
    assert_eq!(rt; first.put(&mut out, 0), Some(41));
    assert_eq!(rt; second.put(&mut out, 1), Some(73));
    assert_eq!(rt; second.put(&mut out, 2), None);
    assert_eq!(rt; out[73], 170);
    let Some(Answer::Lots(lines)) = read_answer(&out[0..73]) else {
        return Err(Fail::new("no lots"));
    };
    assert_eq!(rt; LotLine::count(lines), 2);
    let read = LotLine::nth(lines, 1).ok_or("no second lot")?;
    assert_eq!(rt; read, second);
    let mut again = [170u8; 74];
    assert_eq!(rt; write(Answer::Lots(lines), &mut again), Some(73));
    assert!(rt; again == out);
    Ok(())
}

#[test]
fn entries_line_by_line(rt: HostRuntime) -> Result<(), Fail> {
    let mut out = [0u8; 41];
    let booked = EntryLine {
        left: 0,
        right: 1,
        amount: 420,
        document: 9,
    };
    assert_eq!(rt; EntryLine::begin(&mut out, 1), Some(9));
    assert_eq!(rt; booked.put(&mut out, 0), Some(41));
    let Some(Answer::Entries(lines)) = read_answer(&out) else {
        return Err(Fail::new("no entries"));
    };
    let read = EntryLine::nth(lines, 0).ok_or("no entry")?;
    assert_eq!(rt; read, booked);
    assert!(rt; EntryLine::nth(lines, 1).is_none());
    Ok(())
}
