//! The program: `strarr serial` reads a script from standard input, performs it on one thread and
//! writes its report to standard output; `strarr run N` performs its tasks on N workers. `strarr sample N`
//! makes a script from a number, performs it on one thread and writes a summary.
#![tactic(auto)]

mod status;
mod streams;
mod top;
mod words;

use sa_base::{FreeGate, StdSink, StdSource};
pub use status::Status;
use std::env;
use std::io::ErrorKind;
use std::process::ExitCode;
pub use top::{run, run_still};
pub use words::{Command, read_words, words_after_name};

#[cfg(test)]
mod gate_tests;
#[cfg(test)]
mod replay;
#[cfg(test)]
mod tests;
#[cfg(test)]
mod thread_tests;

/// The exit number where the system does not give a word.
const NO_WORD: u8 = 10;

/// The words after the program's name, or the exit number where there are none to be had.
fn words_of(rt: &HostRuntime) -> Result<Vec<String>, u8> {
    let args = match env::args(rt) {
        Ok(args) => args,
        Err(error) if error.kind() == ErrorKind::OutOfMemory => {
            return Err(Status::NoMemory.number());
        }
        Err(_) => return Err(NO_WORD),
    };
    match args.collect(rt.alloc()) {
        Ok(all) => Ok(words_after_name(all)),
        Err(_) => Err(Status::NoMemory.number()),
    }
}

fn main(rt: HostRuntime) -> ExitCode {
    let words = match words_of(&rt) {
        Ok(words) => words,
        Err(number) => return ExitCode::from(number),
    };
    let mut source = StdSource::new(rt.stdin());
    let mut sink = StdSink::new(rt.stdout());
    let status = run(
        &rt,
        rt.alloc(),
        words.as_slice(),
        &mut source,
        &mut sink,
        &FreeGate,
    );
    ExitCode::from(status.number())
}
