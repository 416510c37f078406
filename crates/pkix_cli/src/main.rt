//! Shows the DER or PEM on standard input, whose kind the argument names, as lines on standard output. All that it does
//! with the input is in the library `pkix_text`.
#![tactic(auto)]

use pkix_text::{Asked, Fault, HELP, Kind, Report, ask, report_on, status};
use std::env;
use std::io::{ErrorKind, Read};
use std::process::ExitCode;

/// What the words after the program's name ask for. `None` if they aren't known, or not UTF-8.
fn asked(rt: &HostRuntime) -> Result<Option<Asked>, Fault> {
    match env::args(rt) {
        Ok(words) => {
            let words: Vec<String> = words.skip(1).collect(rt.alloc())?;
            Ok(ask(&words))
        }
        Err(error) if error.kind() == ErrorKind::OutOfMemory => Err(Fault::Memory),
        Err(_) => Ok(None),
    }
}

/// Writes the lines of standard input, whose objects are of this kind, and returns the report.
fn answer(rt: &HostRuntime, kind: Option<Kind>) -> Result<Report, Fault> {
    let mut input = Vec::new(rt.alloc());
    match rt.reader().read_to_end(&mut input) {
        Ok(_) => {}
        Err(error) if error.kind() == ErrorKind::OutOfMemory => return Err(Fault::Memory),
        Err(_) => return Err(Fault::Read),
    }
    report_on(rt.alloc(), kind, &input, rt.stdout())
}

/// The lines of objects go to standard output, and why others are rejected to standard error.
fn main(rt: HostRuntime) -> ExitCode {
    let answer = match asked(&rt) {
        Ok(Some(Asked::Help)) => {
            let is_written = print!(rt; "{HELP}").is_ok();
            return ExitCode::from(if is_written { 0 } else { 2 });
        }
        Ok(Some(Asked::Objects(kind))) => Some(answer(&rt, kind)),
        Ok(None) => None,
        Err(fault) => Some(Err(fault)),
    };
    let _ = match &answer {
        None => eprintln!(rt; "pkix: the argument has to be one of {}", Kind::NAMES),
        Some(Ok(report)) => eprint!(rt; "{}", report.reasons),
        Some(Err(fault)) => eprintln!(rt; "pkix: {fault}"),
    };
    ExitCode::from(status(&answer))
}
