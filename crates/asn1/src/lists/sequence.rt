//! SEQUENCE (X.690 8.9), whose contents octets are read by the caller.

ghost use Rattle.std.specs.Prelude.{◌≡◌, IsTrue, length};
ghost use Rattle.asn1_core.specs.Reading.{ReadsBy};
ghost use Rattle.asn1_core.specs.Reads.{ReadsContents};
ghost use Rattle.asn1_core.specs.Der.{simple_der};
ghost use Rattle.asn1_core.specs.Listing.{sequence_tag};
ghost use Rattle.asn1_core.specs.Writing.{GivesLength};
ghost use Rattle.asn1.specs.InHand.{sequence_octets, sequence_content};

use asn1_core::{
    Asn1Type, ParseError, ParseResult, Parser, SimpleAsn1Readable, SimpleAsn1Writable, Tag,
    WriteBuf, WriteError, WriteResult, parse,
};
use std::alloc::Global;

/// SEQUENCE (X.690 8.9; universal 16, constructed) as it is encoded: its contents octets, whatever they are, borrowed
/// from the input. They are read by [`Sequence::parse`], and written as they were read.
///
/// Reading one rejects no contents octets and doesn't allocate. Two are equal if their contents octets are.
///
/// ```text
/// let sequence = parse_single::<Sequence<'_>>(alloc, octets)?;
///
/// let parts = sequence.parse(alloc, |parser: &mut Parser<'_>| -> ParseResult<(bool, u8)> {
///     Ok((parser.read_element::<bool>()?, parser.read_element::<u8>()?))
/// });
/// same(&parts, &Ok((true, 6)))?;
/// ```
#[derive(Clone, Copy, Debug, PartialEq, Eq, Hash)]
pub struct Sequence<'a> {
    data: &'a [u8],
}

impl<'a> Sequence<'a> {
    /// Reads the contents octets by `f`, as [`asn1_core::parse`] does.
    ///
    /// Errors: an error of `f` is returned as it is. If `f` returns a value and octets remain, the error is
    /// `ExtraData`, without a location. The caller has to prove that `f` may always be called (`requires`).
    pub fn parse<T: Drop, E: From<ParseError> + Drop, F: Fn(&mut Parser<'a>) -> Result<T, E>>(
        self,
        alloc: Global,
        f: F,
    ) -> Result<T, E>
        requires { F.IsAlwaysCallable f }
        ensures { ReadsBy F.FnOnce E.from_gives f (sequence_octets self.entry) result }
    {
        parse(alloc, self.data, f)
    }
}

impl<'a> Asn1Type for Sequence<'a> {
    ghost use Rattle.asn1.specs.LawsOf.InHand.{sequence_content_laws};

    ghost der = { simple_der sequence_octets sequence_content sequence_content_laws };

    fn known(&self) {
        self.data.known()
    }
}

impl<'a> SimpleAsn1Readable<'a> for Sequence<'a> {
    fn tag() -> Tag
        ensures value { result ≡ sequence_tag }
        ensures simple { Unit {0} }
        ensures plain { Unit {0} }
        ensures read { Unit {0} }
    {
        Tag::constructed(0x10)
    }

    fn parse_data(_alloc: Global, data: &'a [u8]) -> ParseResult<Sequence<'a>>
        ensures { ReadsContents ⟦<Sequence<'a> as Asn1Type>⟧.der «data».entry.now result }
    {
        Ok(Sequence { data })
    }
}

impl<'a> SimpleAsn1Writable for Sequence<'a> {
    type Error = WriteError;

    ghost length_known = { λ _. Unit {0} };

    fn tag() -> Tag
        ensures value { result ≡ sequence_tag }
        ensures simple { Unit {0} }
    {
        Tag::constructed(0x10)
    }

    fn write_data(&self, dest: &mut WriteBuf) -> WriteResult<()> {
        dest.push_slice(self.data)
    }

    fn data_length(&self) -> Option<usize>
        ensures length { GivesLength (Unit {0}) (λ t. t ≡ sequence_octets self.now) result }
        ensures known { result ≡ Some (length (sequence_octets self.now)) }
    {
        Some(self.data.len())
    }

    fn writes_as_read() -> bool
        ensures { IsTrue result }
    {
        true
    }
}
