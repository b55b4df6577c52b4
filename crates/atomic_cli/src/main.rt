//! The program `atomic`: the words of the command line, real files and standard output, and the exit status.
#![tactic(auto)]

use commands::Status;
use edge::{FileFolder, OutSink, words_of};
use std::process::ExitCode;

fn main(rt: HostRuntime) -> ExitCode {
    let Ok(words) = words_of(&rt) else {
        return ExitCode::from(Status::NoMemory.code());
    };
    let mut folder = FileFolder::new(&rt);
    let mut sink = OutSink::new(&rt);
    let status = run(rt.alloc(), words.as_slice(), &mut folder, &mut sink);
    ExitCode::from(status)
}

pub use commands::run;

#[cfg(test)]
mod blame_tests;
#[cfg(test)]
mod book_tests;
#[cfg(test)]
mod check_tests;
#[cfg(test)]
mod edge_tests;
#[cfg(test)]
mod examples;
#[cfg(test)]
mod failing_tests;
#[cfg(test)]
mod family_tests;
#[cfg(test)]
mod fault_tests;
#[cfg(test)]
mod generate_tests;
#[cfg(test)]
mod hard_book_tests;
#[cfg(test)]
mod large_tests;
#[cfg(test)]
mod level_family_tests;
#[cfg(test)]
mod level_tests;
#[cfg(test)]
mod library_tests;
#[cfg(test)]
mod limit_tests;
#[cfg(test)]
mod machine_tests;
#[cfg(test)]
mod nodes_tests;
#[cfg(test)]
mod open_tests;
#[cfg(test)]
mod part_tests;
#[cfg(test)]
mod philosopher_tests;
#[cfg(test)]
mod replay_tests;
#[cfg(test)]
mod schedule_tests;
#[cfg(test)]
mod schedule_text_tests;
#[cfg(test)]
mod source_tests;
#[cfg(test)]
mod tests;
