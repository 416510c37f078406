//! DEFAULT (X.690 11.5): fields that are left out if they equal their default.

ghost use Rattle.std.specs.Prelude.{◌≡◌};
ghost use Rattle.asn1.specs.InHand.{defaulted_inner};
ghost use Rattle.asn1.specs.Defaults.{or_read_default, same_encoding, seen_ok, UnlessDefault};
ghost use Rattle.asn1.specs.Defaulted.{ContentTells, EqualityTells};
ghost use Rattle.asn1.specs.Types.{default_der};

use crate::wrappers::defaults::from_optional_default;
use asn1_core::{
    Asn1Readable, Asn1Type, Asn1Writable, ParseResult, Parser, Tag, WriteError, Writer,
};
use std::marker::PhantomData;

/// A type whose `==` compares values by what they mean and by their encodings, so that the type may have a DEFAULT
/// ([`Defaulted`]).
pub trait MeaningEq: Asn1Type + PartialEq {
    // Values that are equal mean the same, and values with the same encoding are equal.
    ghost tells: { (a b : Self) → EqualityTells Self.der.meaning Self.der.encoding Self.eq a b };
}

/// The same of a type with a tag of its own, by contents octets. The type may have another tag ([`crate::Implicit`]).
pub trait SimpleMeaningEq: MeaningEq + Asn1Type + PartialEq {
    // Values with the same contents octets are equal.
    ghost content_tells: { (a b : Self) → ContentTells Self.der.meaning Self.der.content.encoding
        Self.eq a b };
}

/// A default of the type `T`, stated once.
pub trait DefaultValue<T: Asn1Type> {
    ghost default: { T };

    /// The default.
    fn value() -> T
        ensures { T.der.meaning result ≡ T.der.meaning default };
}

/// A field with a DEFAULT (X.690 11.5): its value. A value that equals the default isn't encoded, as DER demands.
///
/// Reading returns the default if no tag that the type accepts is next. A default that is encoded nevertheless is
/// rejected with `EncodedDefault`; other errors are the type's.
///
/// ```text
/// /// A Boolean is false if it is left out.
/// struct False;
///
/// type Critical = Defaulted<bool, False>;
///
/// both_ways(alloc, Critical::new(true), &[1, 1, 0xff])?;
/// both_ways(alloc, Critical::new(false), &[])?;
/// ```
#[derive_where(Debug, Clone, Copy, PartialEq, Eq, Hash; T)]
pub struct Defaulted<T, D> {
    inner: T,
    default: PhantomData<D>,
}

impl<T, D> Defaulted<T, D> {
    /// A field with this value, which may be the default.
    pub fn new(inner: T) -> Self
        ensures { defaulted_inner result ≡ inner }
    {
        Defaulted {
            inner,
            default: PhantomData,
        }
    }

    /// The value, be it the default or not.
    pub fn as_inner(&self) -> &T
        ensures { result.now ≡ defaulted_inner self.now }
    {
        &self.inner
    }

    /// The value, be it the default or not.
    pub fn into_inner(self) -> T
        ensures { result ≡ defaulted_inner self }
    {
        self.inner
    }
}

impl<T, D> From<T> for Defaulted<T, D> {
    ghost from_gives = { λ inner result. defaulted_inner result ≡ inner };

    fn from(inner: T) -> Self {
        Defaulted::new(inner)
    }
}

impl<T: MeaningEq, D: DefaultValue<T>> Asn1Type for Defaulted<T, D> {
    ghost der = { default_der defaulted_inner T.der (T.der.meaning D.default) };

    fn known(&self) {
        self.inner.known()
    }
}

/// The value that was read, or the default. The error is `EncodedDefault` if a value equals the default.
fn or_default<T: MeaningEq + Drop, D>(
    read: ParseResult<Option<T>>,
    default: T,
) -> ParseResult<Defaulted<T, D>>
    ensures { seen_ok defaulted_inner result ≡ or_read_default T.eq read default }
{
    match read {
        Ok(value) => match from_optional_default(value, default) {
            Ok(value) => Ok(Defaulted::new(value)),
            Err(error) => Err(error),
        },
        Err(error) => Err(error),
    }
}

/// Whether the value equals the default, and so isn't encoded.
pub(crate) fn is_default<T: MeaningEq + Drop, D: DefaultValue<T>>(inner: &T) -> bool
    ensures { result ≡ same_encoding T.der.encoding (T.der.meaning inner.now)
        (T.der.meaning D.default) }
{
    let default = D::value();
    *inner == default
}

impl<'a, T: Asn1Readable<'a> + MeaningEq, D: DefaultValue<T>> Asn1Readable<'a> for Defaulted<T, D> {
    fn parse(parser: &mut Parser<'a>) -> ParseResult<Self> {
        // This tells that the parser holds octets.
        let _octets = parser.rest();
        let read = parser.read_element::<Option<T>>();
        or_default(read, D::value())
    }

    fn can_parse(tag: Tag) -> bool {
        T::can_parse(tag)
    }
}

impl<T: Asn1Writable + MeaningEq + Drop, D: DefaultValue<T>> Asn1Writable for Defaulted<T, D> {
    type Error = T::Error;

    ghost write_errors = { λ x. T.write_errors (defaulted_inner x) };

    ghost length_known = { λ x. UnlessDefault T.der.encoding (T.der.meaning D.default)
        (T.der.meaning (defaulted_inner x)) (T.length_known (defaulted_inner x)) };

    fn write(&self, dest: &mut Writer<'_>) -> Result<(), T::Error> {
        if is_default::<T, D>(&self.inner) {
            return Ok(());
        }
        dest.write_element(&self.inner)
    }

    fn encoded_length(&self) -> Option<usize> {
        if is_default::<T, D>(&self.inner) {
            return Some(0);
        }
        self.inner.encoded_length()
    }

    fn writes_as_read() -> bool {
        T::writes_as_read()
    }
}
