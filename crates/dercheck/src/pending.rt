//! The element that is being read.

ghost use Rattle.std.specs.Prelude.{◌≡◌, ◌+◌, ◌<◌, ◌≤◌, ◌∷◌, ◌++◌, ◌↔◌};
ghost use Rattle.std.specs.Prelude.{[], List, ℕ, IsTrue, true, false, length, take, IfOk, IfErr, OnOk, OnErr};
ghost use Rattle.dercheck.specs.declared.frame_lines.TheConstants.{MAX_LINES, MAX_PULL_LINES};
ghost use Rattle.dercheck.specs.declared.header.TheConstants.{MAX_HEADER};

use crate::answers::Fault;
use crate::frame_lines::{Lines, put_short};
use crate::header::{Header, MAX_HEADER, read_header};
use crate::stream::{MAX_PULL, Sink};
use asn1::ParseErrorKind;

/// What an unfinished element became with more octets.
pub enum Progress {
    /// It needs more octets.
    GoesOn,
    /// It is complete.
    Completes,
    /// No element begins with these octets.
    Fails(ParseErrorKind),
}

/// An unfinished element. Its contents octets are counted and not kept.
#[derive(Drop)]
pub struct Pending {
    // The header until it is whole, and then the identifier octets, which the element's line shows.
    octets: [u8; MAX_HEADER],
    count: usize,
    in_content: bool,
    content_length: usize,
    needed: usize,
    ghost size: { length octets ≡ MAX_HEADER },
    ghost few: { count < MAX_HEADER },
    ghost wants: { 0 < needed },
}

impl Pending {
    ghost use Rattle.std.specs.Io.KnownBytes.{Appends};
    ghost use Rattle.dercheck.specs.Streams.{AppendsInPart};
    ghost use Rattle.dercheck.specs.Frames.{end_line, line_octets, Stands, Advances, Taken, TakenToFault};

    /// An element of which there are no octets yet.
    pub fn new() -> Self
        ensures { Stands result [] }
    {
        Pending {
            octets: [0; MAX_HEADER],
            count: 0,
            in_content: false,
            content_length: 0,
            needed: 1,
        }
    }

    /// Takes an octet of the header.
    fn take_header(&mut self, octet: u8) -> Progress
        requires { self.old.in_content ≡ false }
        ensures { Advances self.old self.new result (octet ∷ []) }
    {
        self.octets[self.count] = octet;
        let count = self.count + 1;
        match read_header(&self.octets[..count]) {
            Header::Open { needed } => {
                self.count = count;
                self.needed = needed;
                Progress::GoesOn
            }
            Header::Whole {
                tag,
                length,
                needed,
            } => {
                self.count = tag;
                self.content_length = length;
                if needed == 0 {
                    return Progress::Completes;
                }
                self.in_content = true;
                self.needed = needed;
                Progress::GoesOn
            }
            Header::Faulty(kind) => Progress::Fails(kind),
        }
    }

    /// Takes this many of the contents octets.
    fn take_content(&mut self, count: usize) -> Progress
        requires stage { self.old.in_content ≡ true }
        requires within { count ≤ self.old.needed }
        ensures { (octets : List ℕ) → length octets ≡ count
            → Advances self.old self.new result octets }
    {
        if count == self.needed {
            return Progress::Completes;
        }
        self.needed -= count;
        Progress::GoesOn
    }

    /// Takes some of the octets, from the first on, and returns how many.
    fn advance(&mut self, octets: &[u8]) -> (usize, Progress)
        requires { 0 < length octets.now }
        ensures some { 0 < result.0 }
        ensures within { result.0 ≤ length octets.now }
        ensures advances { Advances self.old self.new result.1 (take result.0 octets.now) }
    {
        if self.in_content {
            let count = self.needed.min(octets.len());
            (count, self.take_content(count))
        } else {
            (1, self.take_header(octets[0]))
        }
    }

    /// Takes the octets of a pull, and makes the lines of the elements that they complete. False if they hold an error
    /// of framing, whose line is then made too. The caller has to prove that the octets are at most those of one pull,
    /// and that their lines have room (`requires`).
    pub fn take_octets(&mut self, octets: &[u8], lines: &mut Lines) -> bool
        requires few { length octets.now ≤ MAX_PULL }
        requires room { lines.old.count + MAX_PULL_LINES ≤ MAX_LINES }
        ensures goes_on { IsTrue result → (text : List ℕ) → Stands self.old text
            → Taken self.new (text ++ octets.now) (line_octets lines.old) (line_octets lines.new) }
        ensures fault { result ≡ false → (text : List ℕ) → Stands self.old text
            → TakenToFault (text ++ octets.now) (line_octets lines.old) (line_octets lines.new) }
    {
        let mut rest = octets;
        while !rest.is_empty() {
            let (count, progress) = self.advance(rest);
            rest = &rest[count..];
            match progress {
                Progress::GoesOn => {}
                Progress::Completes => {
                    lines.push_element(&self.octets[..self.count], self.content_length);
                    *self = Pending::new();
                }
                Progress::Fails(kind) => {
                    lines.push_fault(kind);
                    return false;
                }
            }
        }
        true
    }

    /// Writes the line of what is missing at the end of the input. True if nothing is pending. Returns `Write` if the
    /// sink fails.
    pub fn finish<W: Sink>(&self, sink: &mut W) -> Result<bool, Fault>
        ensures answer { IfOk result (λ whole. (text : List ℕ) → Stands self.now text
            → (IsTrue whole ↔ (text ≡ []))) }
        ensures line { OnOk result ((text : List ℕ) → Stands self.now text
            → Appends (W.held sink.old) (W.held sink.new) (end_line text)) }
        ensures cut { OnErr result ((text : List ℕ) → Stands self.now text
            → AppendsInPart (W.held sink.old) (W.held sink.new) (end_line text)) }
        ensures kept { OnOk result (W.has_failed sink.new ≡ W.has_failed sink.old) }
        ensures fails { IfErr result (λ e. (e ≡ Fault.Write) × (W.has_failed sink.new ≡ true)) }
    {
        if self.count == 0 {
            return Ok(true);
        }
        if !put_short(sink, self.needed) {
            return Err(Fault::Write);
        }
        Ok(false)
    }
}
