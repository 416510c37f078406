//! The lines of elements, of what is missing, and of errors. They are made in an array, and put together.

ghost use Rattle.std.specs.Prelude.{◌≡◌, ◌+◌, ◌≤◌, ◌*◌, ◌++◌, [], length, nat_le, codes, decimal};
ghost use Rattle.hex.specs.Hex.{encode_lower};
ghost use Rattle.dercheck.specs.declared.frame_lines.TheConstants.{MAX_LINES, MAX_PULL_LINES};
ghost use Rattle.dercheck.specs.Streams.{Puts};

use crate::header::MAX_HEADER;
use crate::stream::{MAX_PULL, Sink};
use asn1::ParseErrorKind;
use itoa::Buffer;

/// How many digits the longest number has.
const MAX_DIGITS: usize = 20;

/// How many octets the longest line has: a tag in hex, a space, a number and a line feed.
pub const MAX_LINE: usize = 2 * MAX_HEADER + MAX_DIGITS + 2;

/// How many octets the lines of a pull have at most: each of its octets completes one element at most.
pub const MAX_PULL_LINES: usize = MAX_PULL * MAX_LINE;

/// How many octets of lines are kept at most.
pub const MAX_LINES: usize = 2 * MAX_PULL_LINES;

/// Lines, one after another.
#[derive(Drop)]
pub struct Lines {
    octets: [u8; MAX_LINES],
    count: usize,
    ghost within: { count ≤ MAX_LINES },
}

impl Lines {
    ghost use Rattle.dercheck.specs.Frames.{line_of, fault_line, line_octets};

    /// No lines.
    pub fn new() -> Self
        ensures octets { line_octets result ≡ [] }
        ensures count { result.count ≡ 0 }
    {
        Lines {
            octets: [0; MAX_LINES],
            count: 0,
        }
    }

    /// Forgets the lines.
    pub fn clear(&mut self)
        ensures octets { line_octets self.new ≡ [] }
        ensures count { self.new.count ≡ 0 }
    {
        self.count = 0;
    }

    /// Whether the lines of a pull have room.
    pub fn has_room(&self) -> bool
        ensures { result ≡ nat_le (self.now.count + MAX_PULL_LINES) MAX_LINES }
    {
        self.count + MAX_PULL_LINES <= MAX_LINES
    }

    /// Appends octets.
    fn push(&mut self, octets: &[u8])
        requires { self.old.count + length octets.now ≤ MAX_LINES }
        ensures octets { line_octets self.new ≡ line_octets self.old ++ octets.now }
        ensures count { self.new.count ≡ self.old.count + length octets.now }
    {
        let end = self.count + octets.len();
        self.octets[self.count..end].copy_from_slice(octets);
        self.count = end;
    }

    /// Appends octets in hex.
    fn push_hex(&mut self, octets: &[u8])
        requires few { length octets.now ≤ MAX_HEADER }
        requires room { self.old.count + 2 * length octets.now ≤ MAX_LINES }
        ensures octets { line_octets self.new ≡ line_octets self.old ++ encode_lower octets.now }
        ensures count { self.new.count ≡ self.old.count + 2 * length octets.now }
    {
        let mut digits = [0u8; 2 * MAX_HEADER];
        let digits = &mut digits[..2 * octets.len()];
        if hex::encode_to_slice(octets, digits).is_err() {
            unreachable!()
        }
        self.push(digits);
    }

    /// Appends a number in decimal.
    fn push_number(&mut self, n: usize)
        requires { self.old.count + MAX_DIGITS ≤ MAX_LINES }
        ensures octets { line_octets self.new ≡ line_octets self.old ++ decimal n }
        ensures count { self.new.count ≤ self.old.count + MAX_DIGITS }
    {
        let mut digits = Buffer::new();
        self.push(digits.format(n).as_bytes());
    }

    /// Appends the line of an element with these identifier octets and this many contents octets. The caller has to
    /// prove that a longest line has room (`requires`).
    pub fn push_element(&mut self, tag: &[u8], count: usize)
        requires tag { length tag.now ≤ MAX_HEADER }
        requires room { self.old.count + MAX_LINE ≤ MAX_LINES }
        ensures octets { line_octets self.new ≡ line_octets self.old ++ line_of tag.now count }
        ensures count { self.new.count ≤ self.old.count + MAX_LINE }
    {
        self.push_hex(tag);
        self.push(b" ");
        self.push_number(count);
        self.push(b"\n");
    }

    /// Appends the line of remaining octets that need this many more.
    fn push_short(&mut self, needed: usize)
        requires { self.old.count + MAX_LINE ≤ MAX_LINES }
        ensures { line_octets self.new ≡ line_octets self.old
            ++ (codes "short " ++ decimal needed ++ codes "\n") }
    {
        self.push(b"short ");
        self.push_number(needed);
        self.push(b"\n");
    }

    /// Appends the line of an error of framing, which is `InvalidTag` or `InvalidLength`. The caller has to prove that
    /// a longest line has room (`requires`).
    pub fn push_fault(&mut self, kind: ParseErrorKind)
        requires { self.old.count + MAX_LINE ≤ MAX_LINES }
        ensures { line_octets self.new ≡ line_octets self.old ++ fault_line kind }
    {
        match kind {
            ParseErrorKind::InvalidTag => self.push(b"err InvalidTag\n"),
            ParseErrorKind::InvalidLength => self.push(b"err InvalidLength\n"),
            _ => {}
        }
    }

    /// The octets of the lines.
    pub fn octets(&self) -> &[u8]
        ensures { result.now ≡ line_octets self.now }
    {
        &self.octets[..self.count]
    }
}

/// Puts all the octets. False if the sink failed, which then has a prefix of them.
pub fn put_all<W: Sink>(sink: &mut W, octets: &[u8]) -> bool
    ensures { Puts result (W.held sink.old) (W.held sink.new) (W.has_failed sink.old)
        (W.has_failed sink.new) octets.now }
{
    let mut rest = octets;
    while !rest.is_empty() {
        match sink.put(rest) {
            None => return false,
            Some(n) => rest = &rest[n..],
        }
    }
    true
}

/// Puts the line of remaining octets that need this many more. False if the sink failed.
pub fn put_short<W: Sink>(sink: &mut W, needed: usize) -> bool
    ensures { Puts result (W.held sink.old) (W.held sink.new) (W.has_failed sink.old)
        (W.has_failed sink.new) (codes "short " ++ decimal needed ++ codes "\n") }
{
    let mut lines = Lines::new();
    lines.push_short(needed);
    put_all(sink, lines.octets())
}
