//! The program: real files, standard output, and the words of the command line.
//!
//! It promises nothing of its own: what a run does is the clause of `engine::cyclone`, over every shelf and sink. So nothing
//! belongs here that can be said over those traits.
#![tactic(auto)]

use cyc_port::{FileShelf, OpenGate, StdoutSink};
use engine::cyclone;
use std::alloc::AllocError;
use std::env;
use std::io::ErrorKind;
use std::process::ExitCode;
use std::rt::Env;

/// The status for want of memory.
const NO_MEMORY: u8 = 8;

// The words after the program's name. Words that are no text count as no words, which are refused.
fn words<R: Env + AllocGlobal>(rt: &R) -> Result<Vec<String>, AllocError> {
    let mut words = Vec::new(rt.alloc());
    match env::args(rt) {
        Ok(all) => {
            for word in all.skip(1) {
                words.push(word)?;
            }
        }
        Err(error) if error.kind() == ErrorKind::OutOfMemory => return Err(AllocError),
        Err(_) => {}
    }
    Ok(words)
}

fn main(rt: HostRuntime) -> ExitCode {
    let Ok(words) = words(&rt) else {
        return ExitCode::from(NO_MEMORY);
    };
    let mut shelf = FileShelf::new(&rt);
    let mut sink = StdoutSink::new(rt.stdout());
    let outcome = cyclone(&rt, rt.alloc(), &words, &mut shelf, &mut sink, &OpenGate);
    ExitCode::from(outcome.status)
}
