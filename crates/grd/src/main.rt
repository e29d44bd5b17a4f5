// The program `grd`: the costs of goals in planning tasks, and how long goals can be hidden.
#![tactic(auto)]

use grd_io::{HostShelf, HostSink};
use grd_program::{Status, run};
use std::process::ExitCode;
use std::{env, io};

/// The exit status where the words can't be had for another reason than want of memory.
const NO_WORDS: u8 = 8;

fn main(rt: HostRuntime) -> ExitCode {
    let alloc = rt.alloc();
    let mut words = Vec::new(alloc);
    match env::args(&rt) {
        Ok(all) => {
            for word in all.skip(1) {
                if words.push(word).is_err() {
                    return ExitCode::from(Status::OutOfMemory.code());
                }
            }
        }
        Err(error) => return ExitCode::from(code_without_words(&error)),
    }
    let mut shelf = HostShelf::new(&rt, alloc);
    let mut out = HostSink::new(rt.stdout());
    let mut err = HostSink::new(rt.stderr());
    let status = run(alloc, &words, &mut shelf, &mut out, &mut err);
    ExitCode::from(status.code())
}

/// The exit status where the words can't be had.
fn code_without_words(error: &io::Error) -> u8 {
    match error.kind() {
        io::ErrorKind::OutOfMemory => Status::OutOfMemory.code(),
        _ => NO_WORDS,
    }
}
