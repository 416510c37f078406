//! Whether octets are the one encoding of a value of a type, which has a number.

ghost use Rattle.std.specs.Prelude.{◌≡◌, IfSome};
ghost use Rattle.asn1.specs.Reading.{Fits};
ghost use Rattle.asn1_for_c.specs.Types.{Checks, IsEncoding, told_at, type_number, type_numbered, type_of};

use crate::errors::{Asn1Error, UNKNOWN_TYPE, error_in};
use asn1::{
    Asn1Readable, BMPString, BigInt, BigUint, BitString, Enumerated, GeneralizedTime, IA5String,
    Null, ObjectIdentifier, PrintableString, Sequence, SequenceOf, Set, SetOf, Tlv,
    UniversalString, UtcTime, Utf8String, VisibleString, X509GeneralizedTime, parse_single,
};
use std::alloc::Global;

/// A type that has a number.
#[derive(Clone, Copy)]
pub enum TypeName {
    /// A Boolean.
    Bool,
    /// Any element.
    Tlv,
    /// An integer from -2^7 to 2^7 - 1.
    I8,
    /// An integer from 0 to 2^8 - 1.
    U8,
    /// An integer from -2^15 to 2^15 - 1.
    I16,
    /// An integer from 0 to 2^16 - 1.
    U16,
    /// An integer from -2^31 to 2^31 - 1.
    I32,
    /// An integer from 0 to 2^32 - 1.
    U32,
    /// An integer from -2^63 to 2^63 - 1.
    I64,
    /// An integer from 0 to 2^64 - 1.
    U64,
    /// An integer of any length.
    Int,
    /// An integer of any length that isn't negative.
    Uint,
    /// An enumerated value.
    Enum,
    /// NULL.
    Null,
    /// An octet string.
    Octets,
    /// A bit string.
    Bits,
    /// A character string in UTF-8.
    Utf8,
    /// A character string of letters, digits and some signs.
    Printable,
    /// A character string in ASCII.
    Ia5,
    /// A character string of visible characters and spaces in ASCII.
    Visible,
    /// A character string in UTF-16.
    Bmp,
    /// A character string in UTF-32.
    Universal,
    /// An object identifier.
    Oid,
    /// A date and time from 1950 to 2049.
    UtcTime,
    /// A date and time without a fraction.
    X509Time,
    /// A date and time, with a fraction or without.
    GenTime,
    /// A sequence of any elements.
    Seq,
    /// A set of any elements.
    Set,
    /// A sequence of integers of any length.
    SeqOfInt,
    /// A set of integers of any length.
    SetOfInt,
}

impl TypeName {
    /// Each type once.
    pub(crate) const ALL: &'static [TypeName] = &[
        TypeName::Bool,
        TypeName::Tlv,
        TypeName::I8,
        TypeName::U8,
        TypeName::I16,
        TypeName::U16,
        TypeName::I32,
        TypeName::U32,
        TypeName::I64,
        TypeName::U64,
        TypeName::Int,
        TypeName::Uint,
        TypeName::Enum,
        TypeName::Null,
        TypeName::Octets,
        TypeName::Bits,
        TypeName::Utf8,
        TypeName::Printable,
        TypeName::Ia5,
        TypeName::Visible,
        TypeName::Bmp,
        TypeName::Universal,
        TypeName::Oid,
        TypeName::UtcTime,
        TypeName::X509Time,
        TypeName::GenTime,
        TypeName::Seq,
        TypeName::Set,
        TypeName::SeqOfInt,
        TypeName::SetOfInt,
    ];

    /// The number.
    fn number(self) -> u32
        ensures { result ≡ type_number self }
    {
        match self {
            TypeName::Bool => 1,
            TypeName::Tlv => 2,
            TypeName::I8 => 3,
            TypeName::U8 => 4,
            TypeName::I16 => 5,
            TypeName::U16 => 6,
            TypeName::I32 => 7,
            TypeName::U32 => 8,
            TypeName::I64 => 9,
            TypeName::U64 => 10,
            TypeName::Int => 11,
            TypeName::Uint => 12,
            TypeName::Enum => 13,
            TypeName::Null => 14,
            TypeName::Octets => 15,
            TypeName::Bits => 16,
            TypeName::Utf8 => 17,
            TypeName::Printable => 18,
            TypeName::Ia5 => 19,
            TypeName::Visible => 20,
            TypeName::Bmp => 21,
            TypeName::Universal => 22,
            TypeName::Oid => 23,
            TypeName::UtcTime => 24,
            TypeName::X509Time => 25,
            TypeName::GenTime => 26,
            TypeName::Seq => 27,
            TypeName::Set => 28,
            TypeName::SeqOfInt => 29,
            TypeName::SetOfInt => 30,
        }
    }

    /// The type with this number.
    fn numbered(number: u32) -> Option<TypeName>
        ensures { result ≡ type_numbered number }
    {
        TypeName::ALL
            .iter()
            .copied()
            .find(|one| one.number() == number)
    }
}

/// Whether the octets are the encoding of a value of the type `T`. Returns the number of the error, and sets `error`.
pub(crate) fn check_as<'a, T: Asn1Readable<'a>>(
    alloc: Global,
    octets: &'a [u8],
    error: &mut Asn1Error,
) -> u32
    requires lawful { T.der.lawful }
    requires needs_no_memory { T.der.takes_memory → ⊥ }
    ensures { Checks T.der octets.entry.now result error.new }
{
    *error = error_in(parse_single::<T>(alloc, octets));
    error.number
}

/// Whether the octets are the encoding of a value of the type. Returns the number of the error, and sets `error`.
fn check_type(alloc: Global, one: TypeName, octets: &[u8], error: &mut Asn1Error) -> u32
    ensures { Checks (type_of one).der octets.now result error.new }
{
    match one {
        TypeName::Bool => check_as::<bool>(alloc, octets, error),
        TypeName::Tlv => check_as::<Tlv<'_>>(alloc, octets, error),
        TypeName::I8 => check_as::<i8>(alloc, octets, error),
        TypeName::U8 => check_as::<u8>(alloc, octets, error),
        TypeName::I16 => check_as::<i16>(alloc, octets, error),
        TypeName::U16 => check_as::<u16>(alloc, octets, error),
        TypeName::I32 => check_as::<i32>(alloc, octets, error),
        TypeName::U32 => check_as::<u32>(alloc, octets, error),
        TypeName::I64 => check_as::<i64>(alloc, octets, error),
        TypeName::U64 => check_as::<u64>(alloc, octets, error),
        TypeName::Int => check_as::<BigInt<'_>>(alloc, octets, error),
        TypeName::Uint => check_as::<BigUint<'_>>(alloc, octets, error),
        TypeName::Enum => check_as::<Enumerated>(alloc, octets, error),
        TypeName::Null => check_as::<Null>(alloc, octets, error),
        TypeName::Octets => check_as::<&[u8]>(alloc, octets, error),
        TypeName::Bits => check_as::<BitString<'_>>(alloc, octets, error),
        TypeName::Utf8 => check_as::<Utf8String<'_>>(alloc, octets, error),
        TypeName::Printable => check_as::<PrintableString<'_>>(alloc, octets, error),
        TypeName::Ia5 => check_as::<IA5String<'_>>(alloc, octets, error),
        TypeName::Visible => check_as::<VisibleString<'_>>(alloc, octets, error),
        TypeName::Bmp => check_as::<BMPString<'_>>(alloc, octets, error),
        TypeName::Universal => check_as::<UniversalString<'_>>(alloc, octets, error),
        TypeName::Oid => check_as::<ObjectIdentifier>(alloc, octets, error),
        TypeName::UtcTime => check_as::<UtcTime>(alloc, octets, error),
        TypeName::X509Time => check_as::<X509GeneralizedTime>(alloc, octets, error),
        TypeName::GenTime => check_as::<GeneralizedTime>(alloc, octets, error),
        TypeName::Seq => check_as::<Sequence<'_>>(alloc, octets, error),
        TypeName::Set => check_as::<Set<'_>>(alloc, octets, error),
        TypeName::SeqOfInt => check_as::<SequenceOf<'_, BigInt<'_>, 0, { usize::MAX }>>(
            alloc, octets, error,
        ),
        TypeName::SetOfInt => check_as::<SetOf<'_, BigInt<'_>>>(alloc, octets, error),
    }
}

/// Whether the octets are the one encoding of a value of the type with this number, as `asn1::parse_single` says.
/// Returns 0 if they are, and else the number of the error. Sets `error` in each case. Nothing is allocated.
pub fn asn1_check(alloc: Global, number: u32, octets: &[u8], error: &mut Asn1Error) -> u32
    ensures exact { error.new ≡ told_at (type_numbered number) octets.now }
    ensures number { result ≡ error.new.number }

    // The octets are the encoding of a value, and the encoding of a value is accepted.
    ensures found { result ≡ 0
        → IfSome (type_numbered number) (λ one. IsEncoding (type_of one).der octets.now) }
    ensures only { IfSome (type_numbered number) (λ one. IsEncoding (type_of one).der octets.now
        → Fits octets.now → result ≡ 0) }
{
    let Some(one) = TypeName::numbered(number) else {
        *error = Asn1Error::without_details(UNKNOWN_TYPE);
        return UNKNOWN_TYPE;
    };
    check_type(alloc, one, octets, error)
}
