//! Fields under a tag or with a default, of which a struct has the value alone ([`Wraps`]); and how each field is
//! written ([`FieldWritable`]).

ghost use Rattle.std.specs.Prelude.{◌≡◌, List, ℕ, OnOk, OnErr, IfErr, length};
ghost use Rattle.asn1_core.specs.Buffer.{Appends, KeepsPrefix};
ghost use Rattle.asn1_core.specs.Reading.{Fits};
ghost use Rattle.asn1_core.specs.Writing.{buffer_name, octets_of, GivesLength, NamesError};
ghost use Rattle.asn1.specs.Structures.{defaulted, encoded, owed};

use crate::wrappers::{DefaultValue, Defaulted, MeaningEq, is_default};
use asn1_core::{Asn1Type, Asn1Writable, WriteError, Writer};

mod explicit;
mod implicit;

pub use explicit::{explicit_length, write_explicit};
pub use implicit::{implicit_length, write_implicit};

/// How many octets the encoding of a value has, if that is known.
pub fn value_length<T: Asn1Writable>(value: &T) -> Option<usize>
    ensures length { GivesLength (T.length_known value.now) (T.der.encodings
        (T.der.meaning value.now)) result }

    // The length of an encoding that can be read is known.
    ensures exact { T.length_known value.now → T.der.plain → T.der.valid (T.der.meaning value.now)
        → Fits (T.der.encoding (T.der.meaning value.now))
        → result ≡ Some (length (T.der.encoding (T.der.meaning value.now))) }
{
    value.encoded_length()
}

/// A field's type in the encoding. A struct has its values as a `P`: without the tag, or with no mention of the
/// default.
pub trait Wraps<P>: Asn1Type {
    ghost wrap: { P → Self };

    /// The value as a struct has it.
    fn into_plain(self) -> P
        ensures { wrap result ≡ self };

    /// States that the value is valid. The call does nothing at run time.
    fn known_plain(value: &P)
        ensures { Self.der.valid (Self.der.meaning (wrap value.now)) };
}

/// How a value of a struct's field, a `P`, is written: as it is ([`Plain`]), or as the type in the encoding that
/// implements this trait. A supertrait would say what that type means, and the prover would compare this in each
/// structure. So `encodings` and `owes` are stated here, and the law [`crate::laws_wrappers::fields_are_encoded`] says
/// of each kind of field of this library that they are those of the type.
pub trait FieldWritable<P>: Sized {
    /// The error of a write that fails.
    type Error: From<WriteError>;

    // What a write may append; what the caller has to prove of the closures in the value; the errors that a write may
    // return, other than out of memory; and the values whose length is known without writing them.
    ghost encodings: { P → List ℕ → Type 0 };

    ghost owes: { P → Type 0 };

    ghost write_errors: { P → Self.Error → Type 0 };

    ghost length_known: { P → Type 0 };

    /// Appends the encoding of the value. Errors and what the caller has to prove are those of
    /// [`Asn1Writable::write`].
    fn write_plain(value: &P, dest: &mut Writer<'_>) -> Result<(), Self::Error>
        requires { owes value.now }
        ensures same_buffer { buffer_name dest.new ≡ buffer_name dest.old }
        ensures ok { OnOk result (Appends (encodings value.now) (octets_of dest.old)
            (octets_of dest.new)) }
        ensures err { OnErr result (KeepsPrefix (octets_of dest.old) (octets_of dest.new)) }
        ensures error { IfErr result (NamesError Self.Error.from_gives (write_errors value.now)) };

    /// How many octets the encoding of the value has, if that is known without writing the value.
    fn plain_length(value: &P) -> Option<usize>
        ensures { GivesLength (length_known value.now) (encodings value.now) result };
}

/// A field that is written as it is.
pub struct Plain;

impl<T: Asn1Writable> FieldWritable<T> for Plain {
    type Error = T::Error;

    ghost encodings = { encoded T.der };

    ghost owes = { owed T.der };

    ghost write_errors = { T.write_errors };

    ghost length_known = { T.length_known };

    fn write_plain(value: &T, dest: &mut Writer<'_>) -> Result<(), T::Error> {
        dest.write_element(value)
    }

    fn plain_length(value: &T) -> Option<usize> {
        value.encoded_length()
    }
}

/// The value of a field as a struct has it.
pub fn into_plain<W: Wraps<P>, P>(value: W) -> P
    ensures { W.wrap result ≡ value }
{
    value.into_plain()
}

/// States that a field's value, as a struct has it, is valid. The call does nothing at run time.
pub fn known_plain<W: Wraps<P>, P>(value: &P)
    ensures { W.der.valid (W.der.meaning (W.wrap value.now)) }
{
    W::known_plain(value)
}

/// Appends the encoding of a field's value. Errors and what the caller has to prove are those of
/// [`Asn1Writable::write`].
pub fn write_plain<W: FieldWritable<P>, P>(value: &P, dest: &mut Writer<'_>) -> Result<(), W::Error>
    requires { W.owes value.now }
    ensures same_buffer { buffer_name dest.new ≡ buffer_name dest.old }
    ensures ok { OnOk result (Appends (W.encodings value.now) (octets_of dest.old)
        (octets_of dest.new)) }
    ensures err { OnErr result (KeepsPrefix (octets_of dest.old) (octets_of dest.new)) }
    ensures error { IfErr result (NamesError W.Error.from_gives (W.write_errors value.now)) }
{
    W::write_plain(value, dest)
}

/// How many octets the encoding of a field's value has, if that is known.
pub fn plain_length<W: FieldWritable<P>, P>(value: &P) -> Option<usize>
    ensures { GivesLength (W.length_known value.now) (W.encodings value.now) result }
{
    W::plain_length(value)
}

impl<T: MeaningEq, D: DefaultValue<T>> Wraps<T> for Defaulted<T, D> {
    ghost wrap = { defaulted };

    fn into_plain(self) -> T {
        self.into_inner()
    }

    fn known_plain(value: &T) {
        value.known()
    }
}

impl<T: Asn1Writable + MeaningEq + Drop, D: DefaultValue<T>> FieldWritable<T> for Defaulted<T, D> {
    type Error = T::Error;

    ghost encodings = { λ v. encoded ⟦<Defaulted<T, D> as Asn1Type>⟧.der (defaulted v) };

    ghost owes = { λ v. owed ⟦<Defaulted<T, D> as Asn1Type>⟧.der (defaulted v) };

    ghost write_errors = { λ v. ⟦<Defaulted<T, D> as Asn1Writable>⟧.write_errors (defaulted v) };

    ghost length_known = { λ v. ⟦<Defaulted<T, D> as Asn1Writable>⟧.length_known (defaulted v) };

    fn write_plain(value: &T, dest: &mut Writer<'_>) -> Result<(), T::Error> {
        if is_default::<T, D>(value) {
            return Ok(());
        }
        dest.write_element(value)
    }

    fn plain_length(value: &T) -> Option<usize> {
        if is_default::<T, D>(value) {
            return Some(0);
        }
        value.encoded_length()
    }
}
