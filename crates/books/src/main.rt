//! `books [--items N] [--orders N] [--lots N] [--parts N] [--entries N] [--journal FILE] [CALLS]`: answers the calls of a file, or of standard input, a
//! line each, on books that last in a journal if one is named.

#![tactic(auto)]

use command_line::Program;
use std::process::ExitCode;
use text::run;

const BOOKS: Program = Program {
    name: "books",
    does: "Answers the calls of the file CALLS, or of standard input, a line each.",
    by_line: true,
};

fn main(rt: HostRuntime) -> ExitCode {
    // A closure: by `run` alone the check finds no contract.
    BOOKS.run(&rt, |heap, limits, text| run(heap, limits, text))
}
