//! The program: runs over the real arguments, files and streams.
#![tactic(auto)]

mod program;
mod shelf;
mod stream;
mod words;

use program::run;
use shelf::FileShelf;
use std::env;
use std::process::ExitCode;
use stream::{Input, Output};

fn main(rt: HostRuntime) -> ExitCode {
    run(
        &rt,
        rt.alloc(),
        env::args(&rt),
        &mut FileShelf::new(&rt),
        &mut Input::new(rt.stdin()),
        &mut Output::new(rt.stdout()),
        &mut Output::new(rt.stderr()),
    )
}
