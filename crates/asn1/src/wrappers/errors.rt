//! Values whose writes fail with another error, so that one row may have fields of several errors.

ghost use Rattle.std.specs.Prelude.{◌≡◌};
ghost use Rattle.asn1_core.specs.Der.{viewed};
ghost use Rattle.asn1_core.specs.Writing.{NamesError};
ghost use Rattle.asn1.specs.InHand.{MadeFrom, error_into_inner};

use asn1_core::{
    Asn1Readable, Asn1Type, Asn1Writable, ParseResult, Parser, Tag, WriteError, Writer,
};
use std::marker::PhantomData;

/// A value of `A` whose write fails with an `E`, made from the error of `A`: the form of a field in a row in which
/// another field fails with an `E`. It means what the value means, and has the value's encoding.
///
/// Errors of reading are those of `A`. Writing returns the `E` that `From` makes from the error of `A`, also if out
/// of memory.
#[derive_where(Debug, Clone, Copy, PartialEq, Eq, Hash; A)]
pub struct ErrorInto<A, E> {
    inner: A,
    error: PhantomData<E>,
}

impl<A, E> ErrorInto<A, E> {
    /// Wraps this value.
    pub fn new(inner: A) -> Self
        ensures { error_into_inner result ≡ inner }
    {
        ErrorInto {
            inner,
            error: PhantomData,
        }
    }

    /// The value.
    pub fn as_inner(&self) -> &A
        ensures { result.now ≡ error_into_inner self.now }
    {
        &self.inner
    }

    /// The value.
    pub fn into_inner(self) -> A
        ensures { result ≡ error_into_inner self }
    {
        self.inner
    }
}

impl<A, E> From<A> for ErrorInto<A, E> {
    ghost from_gives = { λ inner result. error_into_inner result ≡ inner };

    fn from(inner: A) -> Self {
        ErrorInto::new(inner)
    }
}

impl<A: Asn1Type, E> Asn1Type for ErrorInto<A, E> {
    ghost der = { viewed error_into_inner A.der };

    fn known(&self) {
        self.inner.known()
    }
}

impl<'a, A: Asn1Readable<'a>, E> Asn1Readable<'a> for ErrorInto<A, E> {
    fn parse(parser: &mut Parser<'a>) -> ParseResult<Self> {
        Ok(ErrorInto::new(parser.read_element::<A>()?))
    }

    fn can_parse(tag: Tag) -> bool {
        A::can_parse(tag)
    }
}

impl<A: Asn1Writable, E: From<WriteError> + From<A::Error>> Asn1Writable for ErrorInto<A, E> {
    type Error = E;

    ghost write_errors = { λ x. MadeFrom ⟦<E as From<A::Error>>⟧.from_gives
        (NamesError A.Error.from_gives (A.write_errors (error_into_inner x))) };

    ghost length_known = { λ x. A.length_known (error_into_inner x) };

    fn write(&self, dest: &mut Writer<'_>) -> Result<(), E> {
        dest.write_element(&self.inner)?;
        Ok(())
    }

    fn encoded_length(&self) -> Option<usize> {
        self.inner.encoded_length()
    }
}
