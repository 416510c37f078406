//! The type names of a line, and a line as a request.

ghost use Rattle.std.specs.Prelude.{◌≡◌, IfOk, IsOkUnless};
ghost use Rattle.dercheck.specs.Requests.{word_text, word_of, request_of, shown};

use crate::answers::Fault;
use crate::hex_digits::octets_of;
use crate::lines::split_once;
use std::alloc::Global;

/// A type that a line may name.
#[derive(Clone, Copy, Debug, PartialEq, Eq)]
pub(crate) enum Word {
    /// `bool`.
    Bool,
    /// `tlv`: any element.
    Tlv,
    /// `i8`.
    I8,
    /// `u8`.
    U8,
    /// `i16`.
    I16,
    /// `u16`.
    U16,
    /// `i32`.
    I32,
    /// `u32`.
    U32,
    /// `i64`.
    I64,
    /// `u64`.
    U64,
    /// `int`: an integer of any length.
    Int,
    /// `uint`: an integer of any length that isn't negative.
    Uint,
    /// `enum`: an enumerated value.
    Enum,
    /// `null`.
    Null,
    /// `octets`: an octet string.
    Octets,
    /// `bits`: a bit string.
    Bits,
    /// `utf8`: a character string in UTF-8.
    Utf8,
    /// `printable`: a character string of letters, digits and some signs.
    Printable,
    /// `ia5`: a character string in ASCII.
    Ia5,
    /// `visible`: a character string of visible characters and spaces in ASCII.
    Visible,
    /// `bmp`: a character string in UTF-16.
    Bmp,
    /// `universal`: a character string in UTF-32.
    Universal,
    /// `oid`: an object identifier.
    Oid,
    /// `utctime`: a date and time from 1950 to 2049.
    UtcTime,
    /// `x509time`: a date and time without a fraction.
    X509Time,
    /// `gentime`: a date and time, with a fraction or without.
    GenTime,
    /// `seq`: a sequence of any elements.
    Seq,
    /// `set`: a set of any elements.
    Set,
    /// `seqof-int`: a sequence of integers of any length.
    SeqOfInt,
    /// `setof-int`: a set of integers of any length.
    SetOfInt,
}

impl Word {
    /// Each word once.
    pub(crate) const ALL: &'static [Word] = &[
        Word::Bool,
        Word::Tlv,
        Word::I8,
        Word::U8,
        Word::I16,
        Word::U16,
        Word::I32,
        Word::U32,
        Word::I64,
        Word::U64,
        Word::Int,
        Word::Uint,
        Word::Enum,
        Word::Null,
        Word::Octets,
        Word::Bits,
        Word::Utf8,
        Word::Printable,
        Word::Ia5,
        Word::Visible,
        Word::Bmp,
        Word::Universal,
        Word::Oid,
        Word::UtcTime,
        Word::X509Time,
        Word::GenTime,
        Word::Seq,
        Word::Set,
        Word::SeqOfInt,
        Word::SetOfInt,
    ];

    /// The name, as it is in a line.
    fn text(self) -> &'static [u8]
        ensures { result.now ≡ word_text self }
    {
        match self {
            Word::Bool => b"bool",
            Word::Tlv => b"tlv",
            Word::I8 => b"i8",
            Word::U8 => b"u8",
            Word::I16 => b"i16",
            Word::U16 => b"u16",
            Word::I32 => b"i32",
            Word::U32 => b"u32",
            Word::I64 => b"i64",
            Word::U64 => b"u64",
            Word::Int => b"int",
            Word::Uint => b"uint",
            Word::Enum => b"enum",
            Word::Null => b"null",
            Word::Octets => b"octets",
            Word::Bits => b"bits",
            Word::Utf8 => b"utf8",
            Word::Printable => b"printable",
            Word::Ia5 => b"ia5",
            Word::Visible => b"visible",
            Word::Bmp => b"bmp",
            Word::Universal => b"universal",
            Word::Oid => b"oid",
            Word::UtcTime => b"utctime",
            Word::X509Time => b"x509time",
            Word::GenTime => b"gentime",
            Word::Seq => b"seq",
            Word::Set => b"set",
            Word::SeqOfInt => b"seqof-int",
            Word::SetOfInt => b"setof-int",
        }
    }

    /// The word with that name.
    fn named(text: &[u8]) -> Option<Word>
        ensures { result ≡ word_of text.now }
    {
        Word::ALL.iter().copied().find(|word| word.text() == text)
    }
}

/// The type and the octets of a line, if it has both. `Memory` if there is no room for the octets.
pub(crate) fn request(alloc: Global, line: &[u8]) -> Result<Option<(Word, Vec<u8>)>, Fault>
    ensures ok { IfOk result (λ found. shown found ≡ request_of line.now) }
    ensures error { IsOkUnless result Fault.Memory }
{
    let Some((name, hex)) = split_once(line, b' ') else {
        return Ok(None);
    };
    let Some(word) = Word::named(name) else {
        return Ok(None);
    };
    match octets_of(alloc, hex)? {
        Some(octets) => Ok(Some((word, octets))),
        None => Ok(None),
    }
}
