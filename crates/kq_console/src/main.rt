//! The program: it hands the words of its command line and the real world to `kq_program`, and ends with the status of the run.
#![tactic(auto)]

use kq_program::{MEMORY, WRONG_WORDS, exit_status};
use kq_world::{OpenGate, RealWorld};
use std::io::ErrorKind;
use std::process::ExitCode;
use std::{env, io};

// The program's words, without its name.
fn words(rt: &HostRuntime) -> io::Result<Vec<String>> {
    env::args(rt)?
        .skip(1)
        .collect(rt.alloc())
        .map_err(io::Error::from)
}

fn main(rt: HostRuntime) -> ExitCode {
    let status = match words(&rt) {
        Ok(words) => {
            let mut world = RealWorld::new(rt);
            exit_status(&rt, rt.alloc(), words.as_slice(), &mut world, &OpenGate)
        }
        Err(error) if error.kind() == ErrorKind::OutOfMemory => MEMORY,
        // Words that are no text haven't the form.
        Err(_) => WRONG_WORDS,
    };
    if status != 0 {
        let _ = eprintln!(rt; "kq_console: status {status}");
    }
    ExitCode::from(status)
}
