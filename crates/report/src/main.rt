//! `report [--items N] [--orders N] [--lots N] [--parts N] [--entries N] [--journal FILE] [CALLS]`: does the calls of a file, of standard input, or of
//! a journal, and prints stock, accounts and orders as they are in the end.

#![tactic(auto)]

use command_line::Program;
use reporting::report;
use std::process::ExitCode;

const REPORT: Program = Program {
    name: "report",
    does: "Does the calls of the file CALLS, of standard input or of a journal, and prints stock, accounts and orders as they are in the end.",
    by_line: false,
};

fn main(rt: HostRuntime) -> ExitCode {
    // A closure: by `report` alone the check finds no contract.
    REPORT.run(&rt, |heap, limits, text| report(heap, limits, text))
}
