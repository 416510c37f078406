//! What the program does with its arguments, and how it ends.

ghost use Rattle.std.specs.Prelude.{◌≡◌, []};
ghost use Rattle.dercheck.specs.Program.{mode_of, status_of};

use crate::answers::Fault;
use crate::modes::Mode;

/// The mode that the words after the program's name ask for: `Check` for none, `Frames` for the one word `frames`.
/// `None` for other arguments, which are unknown.
pub fn mode(args: &[String]) -> Option<Mode>
    ensures { result ≡ mode_of args.now }
{
    match args {
        [] => Some(Mode::Check),
        [word] if word.as_str() == "frames" => Some(Mode::Frames),
        _ => None,
    }
}

/// The status that the program ends with: 0 if each reply is `ok` or the stream consists of whole elements, 1 if not,
/// and 2 if there is no result: the arguments were unknown (`None`), or the program failed.
pub fn status(answer: Option<Result<bool, Fault>>) -> u8
    ensures { result ≡ status_of answer }
{
    match answer {
        Some(Ok(true)) => 0,
        Some(Ok(false)) => 1,
        _ => 2,
    }
}
