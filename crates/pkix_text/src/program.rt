//! What the program does with its arguments, and how it ends.

ghost use Rattle.std.specs.Prelude.{◌≡◌};
ghost use Rattle.pkix_text.specs.Program.{ask_of, status_of};

use crate::answers::{Fault, Report};
use crate::kinds::Kind;

/// How the program is used.
pub const HELP: &str = "\
usage: pkix_cli [KIND]
Shows certificates and other documents in DER or PEM, which it reads from standard input, a line for each field.
KIND is certificate, crl, request, key, signature, timestamp-request or timestamp-response. PEM needs none if its labels
tell the kind, and DER none if a single kind has its form.
The status is 0 if each object is shown, 1 if one is rejected, and 2 if there is no answer.
example: pkix_cli certificate < server.der
";

/// What the words after the program's name ask for.
#[derive(Debug, Clone, Copy, PartialEq, Eq)]
pub enum Asked {
    /// `--help`: how the program is used.
    Help,
    /// The name of a kind, or nothing: the lines of the objects of this kind, or of kinds that labels or forms tell.
    Objects(Option<Kind>),
}

/// What the words after the program's name ask for. `None` for other arguments.
pub fn ask(args: &[String]) -> Option<Asked>
    ensures { result ≡ ask_of args.now }
{
    match args {
        [] => Some(Asked::Objects(None)),
        [word] if word.as_str() == "--help" => Some(Asked::Help),
        [word] => Some(Asked::Objects(Some(Kind::named(word.as_bytes())?))),
        _ => None,
    }
}

/// The status that the program ends with: 0 if each object was shown, 1 if one was rejected, and 2 if there is no
/// result: the arguments were unknown (`None`), or the program failed.
pub fn status(answer: &Option<Result<Report, Fault>>) -> u8
    ensures { result ≡ status_of answer.now }
{
    match answer {
        Some(Ok(report)) if report.reasons.is_empty() => 0,
        Some(Ok(_)) => 1,
        _ => 2,
    }
}
