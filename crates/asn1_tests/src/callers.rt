//! What a caller can prove from the contracts alone: each function is proved with no proof by hand.

ghost use Rattle.std.specs.Prelude.{◌≡◌, ◌<◌, ◌++◌, IfErr, IfOk, IsTrue, OnOk, length};
ghost use Rattle.asn1.specs.Buffer.{KeepsPrefix};
ghost use Rattle.asn1.specs.Der.{IsWritable};
ghost use Rattle.asn1.specs.ReadError.{IsOfInput};
ghost use Rattle.asn1.specs.Reading.{Fits};
ghost use Rattle.asn1.specs.SetWriting.{IsElementWritten, KeepsElements};
ghost use Rattle.asn1.specs.Writing.{buffer_name, octets_of};
ghost use Rattle.asn1_tests.specs.Encodings.{of_bool, of_number};
ghost use Rattle.asn1_tests.specs.Mixed.{mixed};

use asn1::laws::{identifiers_compare, shown_is_read_back};
use asn1::laws_types::encodings_tell_values;
use asn1::{
    Asn1Readable, Asn1Type, Asn1Writable, Choice2, ObjectIdentifier, ParseResult, Parser,
    SequenceOf, SetElementWriter, SetWriter, SimpleAsn1Readable, Tag, WriteError, WriteResult,
    Writer, write, write_and_read_back, write_single,
};
use std::alloc::{AllocError, Global};

/// The octets that were there are the value's encoding and the octets that remain.
pub fn what_was_read<'a, T: Asn1Readable<'a>>(parser: &mut Parser<'a>) -> ParseResult<T>
    ensures { IfOk result (λ v. parser.old ≡ T.der.encoding (T.der.meaning v) ++ parser.new) }
{
    parser.read_element::<T>()
}

/// The same by the trait's own call.
pub fn what_a_type_read<'a, T: Asn1Readable<'a>>(parser: &mut Parser<'a>) -> ParseResult<T>
    ensures { IfOk result (λ v. parser.old ≡ T.der.encoding (T.der.meaning v) ++ parser.new) }
{
    T::parse(parser)
}

/// Reading an element makes progress, so a loop over a parser has a measure.
pub fn fewer_octets_remain<'a, T: Asn1Readable<'a>>(parser: &mut Parser<'a>) -> ParseResult<T>
    requires lawful { T.der.lawful }
    requires element { T.der.is_element }
    ensures { IfOk result (λ _. length parser.new < length parser.old) }
{
    parser.read_element::<T>()
}

/// Contents octets of a type that doesn't allocate are read without memory.
pub fn contents_want_no_memory<'a, T: SimpleAsn1Readable<'a>>(
    alloc: Global,
    data: &'a [u8],
) -> ParseResult<T>
    requires { T.der.takes_memory → ⊥ }
    ensures { IfErr result IsOfInput }
{
    T::parse_data(alloc, data)
}

/// So are they under an implicit tag.
pub fn implicit_tags_want_no_memory<'a, T: SimpleAsn1Readable<'a>>(
    parser: &mut Parser<'a>,
) -> ParseResult<T>
    requires { T.der.takes_memory → ⊥ }
    ensures { IfErr result IsOfInput }
{
    parser.read_implicit_element::<T>(3)
}

/// Values whose octets are the same mean the same, be they within the type's bounds or not.
pub fn same_octets_mean_the_same<'a, T: Asn1Readable<'a> + Asn1Writable>(
    alloc: Global,
    a: &T,
    b: &T,
) -> Result<bool, T::Error>
    requires lawful { T.der.lawful }
    ensures { IfOk result (λ same. IsTrue same → T.der.meaning a.now ≡ T.der.meaning b.now) }
{
    a.known();
    b.known();
    let _plain = T::can_parse(Tag::primitive(0));
    let first = write_single(alloc, a)?;
    let second = write_single(alloc, b)?;
    Ok(first.as_slice() == second.as_slice())
}

/// A length below 2^32 says that the encoding can be read.
pub fn short_lengths_fit<T: Asn1Writable>(value: &T) -> bool
    requires lawful { T.der.lawful }
    requires plain { T.der.plain }
    ensures { IsTrue result → Fits (T.der.encoding (T.der.meaning value.now)) }
{
    value.known();
    match value.encoded_length() {
        Some(n) => n < 0x1_0000_0000,
        None => false,
    }
}

/// A number is read back as it was written.
pub fn numbers_go_round(alloc: Global, value: u8, store: &mut Vec<u8>) -> WriteResult<bool>
    ensures { IfOk result (λ same. IsTrue same) }
{
    value.known();
    match write_and_read_back::<u8>(alloc, &value, store)? {
        Ok(read) => Ok(read == value),
        Err(_) => Ok(false),
    }
}

/// An object identifier is parsed back from what it displays.
pub fn identifiers_go_round(
    alloc: Global,
    identifier: &ObjectIdentifier,
) -> Result<bool, AllocError>
    ensures { IfOk result (λ same. IsTrue same) }
{
    shown_is_read_back();
    identifiers_compare();
    let text = format!(in alloc; "{identifier}")?;
    match ObjectIdentifier::from_string(text.as_str()) {
        Some(read) => Ok(read == *identifier),
        None => Ok(false),
    }
}

/// What two writes of a closure append, one after the other.
pub fn two_values(alloc: Global, a: bool, b: u8) -> WriteResult<Vec<u8>>
    ensures { IfOk result (λ octets. octets.items ≡ of_bool a ++ of_number b) }
{
    write(
        alloc,
        |writer: &mut Writer<'_>| -> WriteResult<()>
            ensures same_buffer { buffer_name writer.new ≡ buffer_name writer.old }
            ensures front { KeepsPrefix (octets_of writer.old) (octets_of writer.new) }
            ensures ok { OnOk result (octets_of writer.new
                ≡ octets_of writer.old ++ (of_bool a ++ of_number b)) }
        {
            writer.write_element(&a)?;
            writer.write_element(&b)
        },
    )
}

/// Whatever is written of a choice whose alternatives overlap is one element of a set.
pub fn overlapping_alternatives(
    set: &mut SetElementWriter<'_>,
    value: &Choice2<u8, u64>,
) -> WriteResult<()>
    ensures written { IsElementWritten ⟦<Choice2<u8, u64> as Asn1Type>⟧.der
        (⟦<Choice2<u8, u64> as Asn1Type>⟧.der.meaning value.now) }
    ensures elements { OnOk result (KeepsElements set.old set.new) }
{
    encodings_tell_values::<Choice2<u8, u64>>();
    value.known();
    set.write_element(value)
}

/// So is what an option around a closure writes.
pub fn options_of_closures<'b, F: Fn(&mut SetElementWriter<'_>) -> WriteResult<()>>(
    set: &mut SetElementWriter<'_>,
    value: &Option<SetWriter<'b, F, WriteError>>,
) -> WriteResult<()>
    requires { IsWritable ⟦<Option<SetWriter<'b, F, WriteError>> as Asn1Type>⟧.der
        (⟦<Option<SetWriter<'b, F, WriteError>> as Asn1Type>⟧.der.meaning value.now) }
    ensures { OnOk result (KeepsElements set.old set.new) }
{
    set.write_element(value)
}

/// A list of any count that is in hand may be read back, also as a part.
pub fn lists_without_bounds<'a>(value: &Option<SequenceOf<'a, u8, 0, { usize::MAX }>>)
    ensures { ⟦<Option<SequenceOf<'a, u8, 0, { usize::MAX }>> as Asn1Type>⟧.der.allowed
        (⟦<Option<SequenceOf<'a, u8, 0, { usize::MAX }>> as Asn1Type>⟧.der.meaning value.now) }
{
    value.known();
}

/// A row is lawful if what an item defines is told from what follows, for each item by itself.
pub fn each_item_by_itself()
    ensures { mixed.lawful }
{}
