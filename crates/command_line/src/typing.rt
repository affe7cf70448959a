//! Standard input, answered a line at a time as it comes.

use crate::failure::Failure;
use crate::keeper::Keeper;
use std::io::{BufRead, BufReader, Write};
use text::Books;

/// Answers standard input on books that end with the program.
pub fn answer_input(rt: &HostRuntime, books: &mut Books) -> Result<(), Failure> {
    let mut input = BufReader::new(rt.alloc(), rt.stdin()).map_err(Failure::Input)?;
    books.answer_stream(rt.alloc(), &mut input, &mut rt.stdout())?;
    Ok(())
}

/// Answers each line of standard input before the next one is read, on books that last in this journal.
pub fn keep_input(rt: &HostRuntime, keeper: &mut Keeper, journal: &str) -> Result<(), Failure> {
    let mut input = BufReader::new(rt.alloc(), rt.stdin()).map_err(Failure::Input)?;
    // A count, since a reader may never end.
    for _line in 0..u64::MAX {
        let mut line = Vec::new(rt.alloc());
        let read = input.read_until(b'\n', &mut line).map_err(Failure::Input)?;
        if read == 0 {
            return Ok(());
        }
        let answer = keeper.answer(rt.alloc(), line.as_slice()).map_err(
            |trouble| Failure::of_journal(rt.alloc(), journal, trouble),
        )?;
        rt.stdout()
            .write_all(answer.as_slice())
            .map_err(Failure::Output)?;
    }
    Ok(())
}
