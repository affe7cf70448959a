//! Lines that come one after the other, answered as they come.

ghost use Rattle.std.specs.Prelude.{◌≡◌, ◌<◌, true, [], length, slice_index, IfOk, IfSome, OnOk};
ghost use Rattle.std.specs.Io.Buffered.{reader_buffer, reader_remaining};
ghost use Rattle.std.specs.Io.KnownBytes.{Appends};
ghost use Rattle.text.specs.Streaming.{CameAnswered, NextAnswered, Put, Streamed};

use crate::books::Books;
use std::alloc::{AllocError, Global};
use std::io;
use std::io::{BufRead, BufReader, ErrorKind, Read, Write};

/// So many bytes of answers are written, even where more lines stand ready.
const MOST_HELD: usize = 65536;

/// Why a stream is not answered to its end.
#[derive(Debug, Drop)]
pub enum StreamError {
    /// The lines cannot be read.
    Input(io::Error),
    /// The answers cannot be written.
    Output(io::Error),
    /// There is not enough memory for a line, or for its answer.
    OutOfMemory(AllocError),
}

impl From<AllocError> for StreamError {
    fn from(e: AllocError) -> StreamError {
        StreamError::OutOfMemory(e)
    }
}

// Writes the answers that are held back.
fn put_out<W: Write>(output: &mut W, answers: &mut Vec<u8>) -> Result<(), StreamError>
    ensures wrote { OnOk result (Appends (W.contents output.old) (W.contents output.new) answers.old.items) }
    ensures none { OnOk result (answers.new.items ≡ []) }
{
    output
        .write_all(answers.as_slice())
        .map_err(StreamError::Output)?;
    answers.clear();
    Ok(())
}

// Where the first line feed of some bytes is.
fn first_feed(bytes: &[u8]) -> Option<usize>
    ensures { IfSome result (λ end. (end < length bytes.now) × (slice_index bytes.now end ≡ 10)) }
{
    bytes.iter().position(|byte| *byte == b'\n')
}

// Writes the answers where no line stands ready behind theirs, or where they are many.
fn put_due<R: Read, W: Write>(
    input: &BufReader<R>,
    output: &mut W,
    answers: &mut Vec<u8>,
) -> Result<(), StreamError>
    ensures { OnOk result (Put (W.contents output.old) (W.contents output.new) answers.old.items answers.new.items) }
{
    if answers.len() < MOST_HELD && input.buffer().contains(&b'\n') {
        return Ok(());
    }
    put_out(output, answers)
}

impl Books {
    // Waits for one line more and answers it; false where there is none.
    fn answer_coming<R: Read>(
        &mut self,
        input: &mut BufReader<R>,
        line: &mut Vec<u8>,
        answers: &mut Vec<u8>,
    ) -> Result<bool, StreamError>
        ensures { IfOk result (CameAnswered (reader_remaining R.remaining input.old) (reader_remaining R.remaining input.new) self.old self.new answers.old.items answers.new.items) }
    {
        line.clear();
        let read = input.read_until(b'\n', line).map_err(StreamError::Input)?;
        if read == 0 {
            return Ok(false);
        }
        self.answer(line.as_slice(), answers)?;
        Ok(true)
    }

    // Appends what the next line is answered, one that stands ready or else the one that comes; false where there is none.
    fn answer_next<R: Read>(
        &mut self,
        input: &mut BufReader<R>,
        line: &mut Vec<u8>,
        answers: &mut Vec<u8>,
    ) -> Result<bool, StreamError>
        ensures { IfOk result (NextAnswered (reader_remaining R.remaining input.old) (reader_remaining R.remaining input.new) self.old self.new answers.old.items answers.new.items) }
    {
        if let Some(end) = first_feed(input.buffer()) {
            self.answer(&input.buffer()[..end], answers)?;
            input.consume(end + 1);
            return Ok(true);
        }
        self.answer_coming(input, line, answers)
    }

    /// Answers each line before more is waited for, to the end of the input.
    pub fn answer_stream<R: Read, W: Write>(
        &mut self,
        heap: Global,
        input: &mut BufReader<R>,
        output: &mut W,
    ) -> Result<(), StreamError>
        ensures { OnOk result (Streamed (reader_remaining R.remaining input.old) self.old self.new (W.contents output.old) (W.contents output.new)) }
    {
        let mut line = Vec::new(heap);
        let mut answers = Vec::new(heap);
        // A count, since a reader may never end.
        for _line in 0..u64::MAX {
            let held = answers.len();
            match self.answer_next(input, &mut line, &mut answers) {
                Ok(true) => {}
                Ok(false) => return put_out(output, &mut answers),
                Err(e) => {
                    answers.truncate(held);
                    put_out(output, &mut answers)?;
                    return Err(e);
                }
            }
            put_due(input, output, &mut answers)?;
        }
        Err(StreamError::Input(io::Error::from(ErrorKind::FileTooLarge)))
    }
}
