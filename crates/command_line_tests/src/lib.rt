//! Tests of arguments: words one after the other, and what is said of those that are wrong; and of a stream that is answered to its end.

#![tactic(auto)]

#[cfg(test)]
mod tests {
    use arguments::{Limit, Misuse, Request, usual_limits};
    use command_line::Failure;
    use std::io::BufReader;
    use std::process::Abort;
    use std::test::Fail;
    use text::{Books, RunError};

    #[test]
    fn options_and_a_file(rt: HostRuntime) -> Result<(), Fail> {
        let mut request = Request::new(usual_limits());
        for word in [
            "--items",
            "4",
            "day.calls",
            "--journal",
            "firm.journal",
            "--orders",
            "65536",
        ] {
            assert!(rt; request.take(rt.alloc(), word).is_ok());
        }
        assert!(rt; request.end().is_ok());
        assert_eq!(rt; request.limits.items, 4);
        assert_eq!(rt; request.limits.orders, 65536);
        assert_eq!(rt; request.limits.lots, 128);
        let Request { file, journal, .. } = request;
        let Some(file) = file else {
            return Err(Fail::new("no file"));
        };
        assert_eq!(rt; file.as_str(), "day.calls");
        let Some(journal) = journal else {
            return Err(Fail::new("no journal"));
        };
        assert_eq!(rt; journal.as_str(), "firm.journal");
        Ok(())
    }

    // A word that is wrong is said to be wrong so.
    fn says(rt: &(impl Abort + AllocGlobal), failure: Failure, line: &str) -> Result<(), Fail> {
        let said = failure.to_string(rt.alloc())?;
        assert_eq!(rt; said.as_str(), line);
        Ok(())
    }

    #[test]
    fn one_line_says_why(rt: HostRuntime) -> Result<(), Fail> {
        let word = String::from_str(rt.alloc(), "ten")?;
        let failure = Failure::Word(word, Misuse::NotANumber(Limit::Items));
        says(&rt, failure, "--items ten: not a number from 0 to 4096")?;
        let word = String::from_str(rt.alloc(), "--drawers")?;
        says(
            &rt,
            Failure::Word(word, Misuse::NoSuchOption),
            "--drawers: no such option",
        )?;
        let word = String::from_str(rt.alloc(), "b.calls")?;
        says(
            &rt,
            Failure::Word(word, Misuse::SecondFile),
            "b.calls: a second file",
        )?;
        let end = Failure::End(Misuse::NumberMissing(Limit::Lots));
        says(&rt, end, "--lots: a number is missing")?;
        says(
            &rt,
            Failure::Run(RunError::OutOfMemory),
            "not enough memory",
        )?;
        says(
            &rt,
            Failure::Run(RunError::LimitsOutOfRange),
            "limits out of range",
        )
    }

    // What a stream is answered: a line at a time or many, with a last line that has no line feed.
    #[test]
    fn a_stream_to_its_end(rt: HostRuntime) -> Result<(), Fail> {
        let calls = b"buys 0 100 7\ncomes 0 60\n# a remark\n\ncomes 0 41\r\nstock of 0";
        let Ok(mut books) = Books::open(rt.alloc(), usual_limits()) else {
            return Err(Fail::new("no books"));
        };
        let mut input = BufReader::with_capacity(rt.alloc(), 16, &calls[..])?;
        let mut answers = Vec::new(rt.alloc());
        let answered = books.answer_stream(rt.alloc(), &mut input, &mut answers);
        assert!(rt; answered.is_ok());
        assert_eq!(rt;
            answers.as_slice(),
            b"0\n1\nrefused 6 at 1\n60 420\n".as_slice()
        );
        assert_eq!(rt; books.tally().taken, 3);
        assert_eq!(rt; books.tally().turned, 1);
        Ok(())
    }
}
