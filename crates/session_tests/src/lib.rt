//! Tests of the session: books in memory of their own, opened and called.

#![tactic(auto)]

#[cfg(test)]
mod tests {
    use layout::{Limits, MOST_ITEMS};
    use session::{Held, RunError};
    use std::test::Fail;
    use wire::Answer;

    const LIMITS: Limits = Limits {
        items: 2,
        orders: 1,
        lots: 1,
        parts: 0,
        entries: 2,
    };

    #[test]
    fn memory_of_their_own(rt: HostRuntime) -> Result<(), Fail> {
        let mut held = Held::open(rt.alloc(), LIMITS)?;
        assert_eq!(rt; held.view().limits.items, 2);
        // No call at all is refused.
        assert_eq!(rt; held.call(b"").ok_or("no call")?.len(), 17);
        // `buys 1 10 7`: the call's number, and fields of eight bytes, low byte first.
        let row = [
            0u8, 1, 0, 0, 0, 0, 0, 0, 0, 10, 0, 0, 0, 0, 0, 0, 0, 7, 0, 0, 0, 0, 0, 0, 0,
        ];
        let answer = held.call(&row).ok_or("no call")?;
        assert_eq!(rt; wire::read_answer(answer), Some(Answer::Number(0)));
        Ok(())
    }

    #[test]
    fn limits_that_are_out_of_range(rt: HostRuntime) {
        let limits = Limits {
            items: MOST_ITEMS + 1,
            ..LIMITS
        };
        assert!(rt;
            matches!(
                Held::open(rt.alloc(), limits),
                Err(RunError::LimitsOutOfRange)
            )
        );
    }
}
