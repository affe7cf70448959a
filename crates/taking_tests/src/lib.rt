//! Tests of taking: pieces of several lots, of a part of one, and of an item that has too few.

#![tactic(auto)]

#[cfg(test)]
mod tests {
    use layout::{Counter, Limits};
    use memory::Memory;
    use records::Lot;
    use std::process::Abort;
    use std::test::Fail;
    use taking::Want;
    use wire::{LotLine, Row};

    const LIMITS: Limits = Limits {
        items: 4,
        orders: 0,
        lots: 4,
        parts: 0,
        entries: 0,
    };

    fn lot(item: u32, pieces: u32, cost: u64, document: u64) -> Lot {
        Lot {
            item,
            pieces,
            cost,
            document,
        }
    }

    // Books in lent memory, with lots of two items.
    fn stocked<'a>(wide: &'a mut [u64], narrow: &'a mut [u32]) -> Result<Memory<'a>, Fail> {
        memory::open(wide, narrow, LIMITS)?;
        let mut memory = Memory {
            wide,
            narrow,
            limits: LIMITS,
        };
        store::add_lot(&mut memory, lot(0, 60, 420, 1))?;
        store::add_lot(&mut memory, lot(3, 21, 450, 6))?;
        store::add_lot(&mut memory, lot(0, 10, 100, 4))?;
        Ok(memory)
    }

    fn check_line(rt: &impl Abort, lines: &[u8], k: usize, want: Lot) -> Result<(), Fail> {
        let line = LotLine::nth(lines, k).ok_or("no line")?;
        assert_eq!(rt; line, questions::line(want));
        Ok(())
    }

    #[test]
    fn whole_lots_and_a_part(rt: HostRuntime) -> Result<(), Fail> {
        let mut wide = [0u64; 100];
        let mut narrow = [0u32; 200];
        let mut answer = [0u8; 137];
        let mut memory = stocked(&mut wide, &mut narrow)?;
        let want = Want {
            item: 0,
            pieces: 63,
        };
        assert_eq!(rt; taking::cost_of(memory.view(), want), 450);
        let taken = taking::take_all(&mut memory, &[want], &mut answer);
        assert_eq!(rt; taken.lines, 2);
        assert_eq!(rt; taken.cost, 450);
        assert_eq!(rt; answer[0], 3);
        assert_eq!(rt; answer[1], 2);
        check_line(&rt, &answer[9..], 0, lot(0, 60, 420, 1))?;
        check_line(&rt, &answer[9..], 1, lot(0, 3, 30, 4))?;
        assert_eq!(rt; answer[73], 0);
        assert_eq!(rt; memory.view().count(Counter::Lots), 2);
        let left = store::nth_lot(memory.view(), 0, 0).ok_or("no lot")?;
        assert_eq!(rt; left.pieces, 7);
        assert_eq!(rt; left.cost, 70);
        Ok(())
    }

    #[test]
    fn one_item_after_the_other(rt: HostRuntime) -> Result<(), Fail> {
        let mut wide = [0u64; 100];
        let mut narrow = [0u32; 200];
        let mut answer = [9u8; 137];
        let mut memory = stocked(&mut wide, &mut narrow)?;
        let wants = [
            Want { item: 3, pieces: 8 },
            Want { item: 1, pieces: 5 },
            Want {
                item: 3,
                pieces: 20,
            },
        ];
        let taken = taking::take_all(&mut memory, &wants, &mut answer);
        assert_eq!(rt; taken.lines, 2);
        assert_eq!(rt; taken.cost, 450);
        check_line(&rt, &answer[9..], 0, lot(3, 8, 171, 6))?;
        check_line(&rt, &answer[9..], 1, lot(3, 13, 279, 6))?;
        assert_eq!(rt; answer[73], 9);
        assert_eq!(rt; store::first_lot(memory.view(), 3), None);
        Ok(())
    }
}
