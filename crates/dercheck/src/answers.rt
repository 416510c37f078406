//! The replies to the lines of an input.

ghost use Rattle.std.specs.Prelude.{◌≡◌, ◌++◌, IfOk, OnOk, OnErr, IsOkUnless};
ghost use Rattle.std.specs.Io.{StartsWith};
ghost use Rattle.std.specs.List.{list_all};
ghost use Rattle.dercheck.specs.Lines.{lines_of};
ghost use Rattle.dercheck.specs.Replies.{answers, is_ok_line};
ghost use Rattle.dercheck.specs.declared.answers.Fault.TheVariants.{Memory};

use crate::lines::next_line;
use crate::replies::{Reply, push_reply, reply_to_line};
use std::alloc::{AllocError, Global};

/// Why there is no result.
#[derive(Debug, Clone, Copy, PartialEq, Eq)]
pub enum Fault {
    /// Out of memory.
    Memory,
    /// The input could not be read.
    Read,
    /// The output could not be written.
    Write,
}

impl From<AllocError> for Fault {
    ghost from_gives = { λ _ fault. fault ≡ Memory };

    fn from(_error: AllocError) -> Fault {
        Fault::Memory
    }
}

/// Appends one reply for each line of the input to `out`, each with a line feed, and returns whether each is `ok`. At
/// an error some of them may have been appended.
fn push_replies(alloc: Global, input: &[u8], out: &mut Vec<u8>) -> Result<bool, Fault>
    ensures ok { OnOk result (out.new.items ≡ out.old.items ++ answers input.now) }
    ensures all_ok { IfOk result (λ all_ok. all_ok ≡ list_all is_ok_line (lines_of input.now)) }
    ensures kept { StartsWith out.new.items out.old.items }
    ensures error { IsOkUnless result Fault.Memory }
{
    let mut all_ok = true;
    let mut rest = input;
    while let Some((line, after)) = next_line(rest) {
        let reply = reply_to_line(alloc, line)?;
        all_ok = all_ok && matches!(reply, Reply::Written(_));
        push_reply(alloc, out, &reply)?;
        rest = after;
    }
    Ok(all_ok)
}

/// Appends one reply for each line of the input to `out`, each with a line feed, and returns whether each is `ok`.
///
/// Returns `Memory` if out of memory; then nothing was appended.
pub fn check(alloc: Global, input: &[u8], out: &mut Vec<u8>) -> Result<bool, Fault>
    ensures ok { OnOk result (out.new.items ≡ out.old.items ++ answers input.now) }
    ensures all_ok { IfOk result (λ all_ok. all_ok ≡ list_all is_ok_line (lines_of input.now)) }
    ensures err { OnErr result (out.new.items ≡ out.old.items) }
    ensures error { IsOkUnless result Fault.Memory }
{
    let before = out.len();
    let all_ok = push_replies(alloc, input, out);
    if all_ok.is_err() {
        out.truncate(before);
    }
    all_ok
}
