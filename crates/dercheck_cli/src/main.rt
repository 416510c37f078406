//! Replies on standard output to the lines of standard input, each a DER encoding in hex. With the word `frames` it
//! writes a line for each element of standard input. All that it does with them is in the library `dercheck`.
#![tactic(auto)]

use dercheck::{Fault, Input, Mode, Output, check, frames, mode, status};
use std::io::{Read, Write};
use std::process::ExitCode;
use std::{env, io};

/// The words after the program's name, if all of them are UTF-8.
fn words(rt: &HostRuntime) -> Option<Vec<String>> {
    env::args(rt).ok()?.skip(1).collect(rt.alloc()).ok()
}

/// Replies on standard output to the lines of standard input.
fn answer(rt: &HostRuntime) -> Result<bool, Fault> {
    let mut input = Vec::new(rt.alloc());
    rt.reader()
        .read_to_end(&mut input)
        .map_err(|_| Fault::Read)?;
    let mut answers = Vec::new(rt.alloc());
    let all_ok = check(rt.alloc(), &input, &mut answers)?;
    io::writer(rt)
        .write_all(&answers)
        .map_err(|_| Fault::Write)?;
    Ok(all_ok)
}

/// Does what the arguments ask for. `None` if they ask for nothing that is known.
fn run(rt: &HostRuntime) -> Option<Result<bool, Fault>> {
    match mode(&words(rt)?)? {
        Mode::Check => Some(answer(rt)),
        Mode::Frames => Some(frames(
            &mut Input::new(rt.reader()),
            &mut Output::new(io::writer(rt)),
        )),
    }
}

fn main(rt: HostRuntime) -> ExitCode {
    ExitCode::from(status(run(&rt)))
}
