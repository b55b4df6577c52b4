//! The program `atomic_trace`: the words of the command line, real files and standard output, and the exit status.
#![tactic(auto)]

use edge::{FileFolder, OutSink, words_of};
use std::process::ExitCode;

fn main(rt: HostRuntime) -> ExitCode {
    let Ok(words) = words_of(&rt) else {
        return ExitCode::from(8);
    };
    let mut folder = FileFolder::new(&rt);
    let mut sink = OutSink::new(&rt);
    let status = run(rt.alloc(), words.as_slice(), &mut folder, &mut sink);
    ExitCode::from(status)
}

pub use trace_commands::run;

#[cfg(test)]
mod tests;
