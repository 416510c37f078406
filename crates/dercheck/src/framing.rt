//! A line for each element of a stream, written as soon as the element is complete.

ghost use Rattle.std.specs.Prelude.{◌≡◌, ◌≢◌, true, IfOk, OnOk};
ghost use Rattle.std.specs.Io.KnownBytes.{IsAtEnd};
ghost use Rattle.dercheck.specs.Frames.{Framed, FramedSoFar, FramedInPart};

use crate::answers::Fault;
use crate::frame_lines::{Lines, put_all};
use crate::pending::Pending;
use crate::stream::{MAX_PULL, Sink, Source};

/// Writes a line for each element of the stream: its identifier octets in hex, and the number of its contents octets in
/// decimal.
///
/// Lines are put together, and before a pull that may wait. If octets remain at the end, a last line says how many more
/// they need. At an error of framing a last line names the error, and no more is read. Of what was read then, all but
/// the last 256 octets hold no error. The result is whether the stream is a concatenation of whole elements.
///
/// Errors: `Read` if the source fails: the lines of the elements that the source gave are written, and nothing else.
/// `Write` if the sink fails: the sink has a prefix of the lines. Never `Memory`: nothing is allocated.
pub fn frames<R: Source, W: Sink>(r: &mut R, w: &mut W) -> Result<bool, Fault>
    // The lines of the framing of what was read were written: of all, or of a prefix with an error near its end.
    ensures ok { IfOk result (λ whole. Framed (R.left r.old) (R.left r.new) (W.held w.old)
        (W.held w.new) whole) }
    ensures end { result ≡ Ok true → IsAtEnd (R.left r.new) }
    // The lines of each element that was read were written, and nothing else.
    ensures read { result ≡ Err Fault.Read → FramedSoFar (R.left r.old) (R.left r.new)
        (W.held w.old) (W.held w.new) }
    // A prefix of the lines for what was read was written.
    ensures write { result ≡ Err Fault.Write → FramedInPart (R.left r.old) (R.left r.new)
        (W.held w.old) (W.held w.new) }
    ensures source_failed { result ≡ Err Fault.Read → R.has_failed r.new ≡ true }
    ensures sink_failed { result ≡ Err Fault.Write → W.has_failed w.new ≡ true }
    ensures source_kept { OnOk result (R.has_failed r.new ≡ R.has_failed r.old) }
    ensures sink_kept { OnOk result (W.has_failed w.new ≡ W.has_failed w.old) }
    ensures no_memory { result ≢ Err Fault.Memory }
{
    let mut pending = Pending::new();
    let mut lines = Lines::new();
    let mut buffer = [0u8; MAX_PULL];
    'pulls: loop {
        let Some(count) = r.pull(&mut buffer) else {
            return Err(Fault::Read);
        };
        if count == 0 {
            return pending.finish(w);
        }
        let goes_on = pending.take_octets(&buffer[..count], &mut lines);
        if goes_on && lines.has_room() && r.is_ready() {
            continue 'pulls;
        }
        if !put_all(w, lines.octets()) {
            return Err(Fault::Write);
        }
        if !goes_on {
            return Ok(false);
        }
        lines.clear();
    }
}
