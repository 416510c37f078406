//! Streams that are cut into their elements.

ghost use Rattle.std.specs.Prelude.{None, false};

use dercheck::{Fault, Held, Input, Output, Pieces, Sink, Source, frames};
use std::io;
use std::io::{Error, ErrorKind, Read, Write};
use std::test::Fail;
use testing::{same, same_at};

/// A reader that is interrupted at first, and then at its end.
#[derive(Drop)]
struct Interrupted {
    was_read: bool,
}

impl Read for Interrupted {
    fn read(&mut self, _buf: &mut [u8]) -> io::Result<usize> {
        if self.was_read {
            return Ok(0);
        }
        self.was_read = true;
        Err(Error::from(ErrorKind::Interrupted))
    }
}

#[derive(Drop)]
struct Full;

impl Write for Full {
    fn write(&mut self, _buf: &[u8]) -> io::Result<usize> {
        Ok(0)
    }

    fn flush(&mut self) -> io::Result<()> {
        Ok(())
    }
}

/// A sink that counts its puts and takes all of each.
#[derive(Drop)]
struct Counted {
    puts: u32,
}

impl Sink for Counted {
    ghost held = { λ _. None };

    ghost has_failed = { λ _. false };

    fn put(&mut self, octets: &[u8]) -> Option<usize> {
        self.puts = self.puts.saturating_add(1);
        Some(octets.len())
    }

    fn failed(&self) -> bool {
        false
    }
}

fn check(source: &mut Pieces<'_>, lines: &[u8], answer: Result<bool, Fault>) -> Result<(), Fail> {
    let mut sink = Held::new(256);
    same(frames(source, &mut sink), answer)?;
    same(sink.held(), lines)?;
    same(source.failed(), answer == Err(Fault::Read))
}

/// The octets cut at each index, and given in pieces of at most 1, 2 and 256 octets.
fn check_each(
    text: &[u8],
    fails: bool,
    lines: &[u8],
    answer: Result<bool, Fault>,
) -> Result<(), Fail> {
    for cut in 0..=text.len() {
        let (first, second) = text.split_at(cut);
        for piece in [1, 2, 256] {
            let mut source = Pieces::new(first, second, piece, fails);
            check(&mut source, lines, answer)?;
        }
    }
    Ok(())
}

/// The same for each row, from a source that doesn't fail: whether it ends behind an element is the answer.
fn check_rows(rows: &[(&[u8], &[u8], bool)]) -> Result<(), Fail> {
    for (text, lines, is_whole) in rows {
        check_each(text, false, lines, Ok(*is_whole))?;
    }
    Ok(())
}

#[test]
fn writes_a_line_for_each_element() -> Result<(), Fail> {
    check_rows(&[
        (
            b"\x04\x03abc\x30\x00\x04\x82\x00",
            b"04 3\n30 0\nshort 1\n",
            false,
        ),
        (b"", b"", true),
        (b"\x05\x00\x30\x00", b"05 0\n30 0\n", true),
        (b"\xbf\x81\x00\x01\xff", b"bf8100 1\n", true),
    ])
}

#[test]
fn says_what_is_missing() -> Result<(), Fail> {
    let mut octets = [0xffu8; 19];
    octets[0] = 0x1f;
    check_rows(&[
        (b"\x04\x84\xff\xff\xff\xffa", b"short 4294967294\n", false),
        (b"\x04\x84\x00", b"short 3\n", false),
        (&octets, b"short 1\n", false),
    ])
}

#[test]
fn stops_at_a_fault() -> Result<(), Fail> {
    let lines = b"05 0\nerr InvalidLength\n";
    check_each(b"\x05\x00\x05\x80\x05\x00", false, lines, Ok(false))?;
    let mut octets = [0xffu8; 20];
    octets[0] = 0x1f;
    check_each(&octets, false, b"err InvalidTag\n", Ok(false))?;
    // The source would fail if it were read further.
    let mut source = Pieces::new(b"\x05\x00\x05\x80", &[], 1, true);
    check(&mut source, lines, Ok(false))
}

#[test]
fn tells_elements_before_the_source_fails() -> Result<(), Fail> {
    check_each(b"\x05\x00\x04\x03a", true, b"05 0\n", Err(Fault::Read))?;
    check_each(b"", true, b"", Err(Fault::Read))?;
    let mut source = Input::new(Interrupted { was_read: false });
    let mut sink = Held::new(256);
    same(frames(&mut source, &mut sink), Err(Fault::Read))?;
    same((source.failed(), sink.held()), (true, b"".as_slice()))
}

#[test]
fn stops_where_the_sink_fails() -> Result<(), Fail> {
    let mut source = Pieces::new(&[0x05, 0x00], &[], 1, false);
    let mut sink = Held::new(3);
    same(frames(&mut source, &mut sink), Err(Fault::Write))?;
    same((sink.held(), sink.failed()), (b"05 ".as_slice(), true))?;
    let mut source = Pieces::new(&[0x05, 0x00], &[], 1, false);
    let mut sink = Held::new(0);
    same(frames(&mut source, &mut sink), Err(Fault::Write))?;
    same(sink.held(), b"")?;
    let mut source = Input::new([0x05u8, 0x00].as_slice());
    let mut sink = Held::new(256);
    same(frames(&mut source, &mut sink), Ok(true))?;
    same(sink.held(), b"05 0\n")?;
    let mut source = Input::new([0x05u8, 0x00].as_slice());
    let mut sink = Output::new(Full);
    same(frames(&mut source, &mut sink), Err(Fault::Write))?;
    same((sink.failed(), source.failed()), (true, false))
}

#[test]
fn reads_more_than_a_pull() -> Result<(), Fail> {
    let mut octets = [0u8; 600];
    octets[0] = 0x04;
    octets[1] = 0x82;
    octets[2] = 0x02;
    octets[3] = 0x02;
    octets[518] = 0x05;
    octets[519] = 0x81;
    octets[520] = 0x00;
    let lines = b"04 514\nerr InvalidLength\n";
    let mut source = Pieces::new(&octets, &[], 600, false);
    check(&mut source, lines, Ok(false))?;
    let mut source = Pieces::new(&octets[..518], &[], 600, false);
    check(&mut source, b"04 514\n", Ok(true))?;
    check_each(&octets, false, lines, Ok(false))?;
    check_each(&octets[..518], false, b"04 514\n", Ok(true))?;
    let mut source = Input::new(octets.as_slice());
    let mut sink = Held::new(256);
    same(frames(&mut source, &mut sink), Ok(false))?;
    same(sink.held(), lines)
}

#[test]
fn puts_the_lines_of_a_pull_at_once() -> Result<(), Fail> {
    let octets = &[0x05, 0x00, 0x9f, 0x81, 0x00, 0x01, 0x61, 0x04, 0x82];
    for (piece, puts) in [(1, 3), (2, 3), (256, 2)] {
        let mut source = Pieces::new(octets, &[], piece, false);
        let mut sink = Counted { puts: 0 };
        same(frames(&mut source, &mut sink), Ok(false))?;
        same_at(piece, sink.puts, puts)?;
    }
    Ok(())
}

#[test]
fn puts_the_lines_of_a_read_at_once() -> Result<(), Fail> {
    let mut octets = [0u8; 1200];
    for i in 0..600 {
        octets[2 * i] = 0x05;
    }
    let mut source = Input::new(octets.as_slice().chain(octets.as_slice()));
    let mut sink = Counted { puts: 0 };
    same(frames(&mut source, &mut sink), Ok(true))?;
    same(sink.puts, 2)
}

#[test]
fn writes_through_an_output(rt: HostRuntime) -> Result<(), Fail> {
    let mut out = Vec::with_capacity(rt.alloc(), 64)?;
    let mut source = Input::new([0x05u8, 0x00, 0x30, 0x00].as_slice());
    let mut sink = Output::new(&mut out);
    same(frames(&mut source, &mut sink), Ok(true))?;
    assert!(rt; !sink.failed());
    same(out.as_slice(), b"05 0\n30 0\n")
}
