// What the shadow machine answers to each event of the puzzle that is read.
#![tactic(auto)]

use std::process::ExitCode;
use trainer::Program;

// Kept: a program has a main of its own.
fn main(rt: HostRuntime) -> ExitCode {
    terminal::serve(&rt, Program::Run)
}
