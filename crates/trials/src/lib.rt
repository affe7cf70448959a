//! Tests of the memory and what is kept in it: books opened at small and large limits, and a thousand arrivals.

#![tactic(auto)]

#[cfg(test)]
mod tests {
    use layout::{Counter, Limits};
    use memory::{Memory, OpenError};
    use records::{Entry, Lot, Order, Part};
    use std::test::Fail;

    fn same(each: u32) -> Limits {
        Limits {
            items: each,
            orders: each,
            lots: each,
            parts: each,
            entries: each,
        }
    }

    fn lot(item: u32, pieces: u32) -> Lot {
        Lot {
            item,
            pieces,
            cost: 7,
            document: 3,
        }
    }

    fn lent<'a>(wide: &'a mut [u64], narrow: &'a mut [u32], limits: Limits) -> Memory<'a> {
        Memory {
            wide,
            narrow,
            limits,
        }
    }

    // Books opened in lent memory.
    fn opened<'a>(
        wide: &'a mut [u64],
        narrow: &'a mut [u32],
        limits: Limits,
    ) -> Result<Memory<'a>, OpenError> {
        memory::open(wide, narrow, limits)?;
        Ok(lent(wide, narrow, limits))
    }

    #[test]
    fn opens_at_zero(rt: HostRuntime) {
        let mut wide = [5u64; 65];
        let mut narrow = [5u32; 71];
        let limits = same(0);
        assert_eq!(rt; limits.wide_need(), 64);
        assert_eq!(rt; limits.narrow_need(), 70);
        assert_eq!(rt; memory::open(&mut wide, &mut narrow, limits), Ok(()));
        assert_eq!(rt; wide[63], 0);
        assert_eq!(rt; wide[64], 5);
        assert_eq!(rt; narrow[70], 5);
        let mut memory = lent(&mut wide, &mut narrow, limits);
        assert!(rt; store::add_lot(&mut memory, lot(0, 1)).is_err());
    }

    #[test]
    fn opens_at_one(rt: HostRuntime) -> Result<(), Fail> {
        let mut wide = [5u64; 70];
        let mut narrow = [5u32; 94];
        let limits = same(1);
        assert_eq!(rt; limits.wide_need(), 70);
        assert_eq!(rt; limits.narrow_need(), 94);
        let mut memory = opened(&mut wide, &mut narrow, limits)?;
        assert!(rt; store::add_lot(&mut memory, lot(0, 9)).is_ok());
        assert!(rt; store::add_lot(&mut memory, lot(0, 9)).is_err());
        assert!(rt; store::remove_lot(&wide, &mut narrow, limits, 0).is_ok());
        let mut memory = lent(&mut wide, &mut narrow, limits);
        assert!(rt; store::add_lot(&mut memory, lot(0, 8)).is_ok());
        let kept = store::nth_lot(memory.view(), 0, 0).ok_or("no lot")?;
        assert_eq!(rt; kept.pieces, 8);
        Ok(())
    }

    #[test]
    fn refuses_and_keeps(rt: HostRuntime) {
        let mut wide = [5u64; 69];
        let mut narrow = [5u32; 94];
        assert_eq!(rt;
            memory::open(&mut wide, &mut narrow, same(1)),
            Err(OpenError::MemoryTooSmall)
        );
        assert_eq!(rt;
            memory::open(&mut wide, &mut narrow, same(4097)),
            Err(OpenError::LimitsOutOfRange)
        );
        assert_eq!(rt; wide[0], 5);
        assert_eq!(rt; narrow[0], 5);
    }

    #[test]
    fn opens_at_the_largest(rt: HostRuntime) -> Result<(), Fail> {
        let limits = Limits {
            items: layout::MOST_ITEMS,
            orders: layout::MOST_ORDERS,
            lots: layout::MOST_LOTS,
            parts: layout::MOST_PARTS,
            entries: layout::MOST_ENTRIES,
        };
        let mut wide = vec![in rt.alloc(); 1u64; limits.wide_need()]?;
        let mut narrow = vec![in rt.alloc(); 1u32; limits.narrow_need()]?;
        let mut memory = opened(&mut wide, &mut narrow, limits)?;
        assert_eq!(rt;
            memory::limits_in(memory.view().narrow).entries,
            layout::MOST_ENTRIES
        );
        assert!(rt; store::add_lot(&mut memory, lot(4095, 6)).is_ok());
        let kept = store::nth_lot(memory.view(), 4095, 0).ok_or("no lot")?;
        assert_eq!(rt; kept.pieces, 6);
        Ok(())
    }

    #[test]
    fn a_thousand_arrivals(rt: HostRuntime) -> Result<(), Fail> {
        let limits = Limits {
            items: 7,
            orders: 0,
            lots: 1000,
            parts: 0,
            entries: 0,
        };
        let mut wide = vec![in rt.alloc(); 1u64; limits.wide_need()]?;
        let mut narrow = vec![in rt.alloc(); 1u32; limits.narrow_need()]?;
        let mut memory = opened(&mut wide, &mut narrow, limits)?;
        for k in 0..1000 {
            assert!(rt; store::add_lot(&mut memory, lot(k % 7, k)).is_ok());
        }
        assert!(rt; store::add_lot(&mut memory, lot(1, 1)).is_err());
        for k in 0..142 {
            let kept = store::nth_lot(memory.view(), 3, k).ok_or("no lot")?;
            assert_eq!(rt; kept.pieces, 7 * k + 3);
        }
        let mut cell = store::first_lot(memory.view(), 3).ok_or("no lot")?;
        for k in 1..143 {
            cell = store::lot_after(memory.view(), cell).ok_or("the row ends early")?;
            assert_eq!(rt; memory.view().lot(cell).pieces, 7 * k + 3);
        }
        assert_eq!(rt; store::lot_after(memory.view(), cell), None);
        for k in 0..143 {
            let gone = store::remove_lot(&wide, &mut narrow, limits, 0)?;
            assert_eq!(rt; gone.pieces, 7 * k);
        }
        assert!(rt; store::remove_lot(&wide, &mut narrow, limits, 0).is_err());
        let memory = lent(&mut wide, &mut narrow, limits);
        assert_eq!(rt; memory.view().count(Counter::Lots), 857);
        Ok(())
    }

    #[test]
    fn orders_entries_and_recipes(rt: HostRuntime) -> Result<(), Fail> {
        let mut wide = [1u64; 100];
        let mut narrow = [1u32; 200];
        let mut memory = opened(&mut wide, &mut narrow, same(3))?;
        let order = Order {
            sells: true,
            item: 2,
            pieces: 5,
            price: 11,
            moved: 0,
            billed: 0,
        };
        assert!(rt; store::add_order(&mut memory, order).is_ok());
        assert!(rt; store::add_order(&mut memory, Order { item: 1, ..order }).is_ok());
        assert!(rt; store::add_order(&mut memory, order).is_ok());
        assert!(rt; store::add_order(&mut memory, order).is_err());
        assert_eq!(rt; store::nth_order(memory.view(), 2, 1), Some(2));
        assert_eq!(rt; store::nth_order(memory.view(), 1, 0), Some(1));
        assert_eq!(rt; store::nth_order(memory.view(), 0, 0), None);
        let entry = Entry {
            left: 0,
            right: 4,
            amount: 900,
            document: 1,
        };
        let back = Entry {
            left: 4,
            amount: 8,
            ..entry
        };
        assert!(rt; store::add_entry(&mut memory, entry).is_ok());
        assert!(rt; store::add_entry(&mut memory, back).is_ok());
        assert!(rt; store::add_entry(&mut memory, Entry { left: 16, ..entry }).is_err());
        let last = store::nth_entry(memory.view(), 4, 2).ok_or("no entry")?;
        assert_eq!(rt; last.amount, 8);
        assert!(rt; store::add_recipe(&mut memory, 1, 1).is_ok());
        assert!(rt; store::add_part(&mut memory, Part { item: 2, each: 6 }).is_ok());
        assert_eq!(rt; memory.view().recipe(1).first, 1);
        assert_eq!(rt; memory.view().part(1).each, 6);
        Ok(())
    }
}
