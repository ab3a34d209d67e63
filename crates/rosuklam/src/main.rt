// The program rosuklam: reads files, calls the library and prints its answers.
#![tactic(auto)]

mod commands;
mod help;
mod notation;
mod problem;
mod reports;
mod tree;
mod words;

use crate::commands::run;
use std::process::ExitCode;

fn main(rt: HostRuntime) -> ExitCode {
    match run(&rt) {
        Ok(()) => ExitCode::SUCCESS,
        Err(problem) => {
            let _ = problem
                .print(&rt)
                .or_else(|error| eprintln!(rt; "rosuklam: {error}"));
            ExitCode::FAILURE
        }
    }
}
