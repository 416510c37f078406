//! Fields under an explicit tag, as a struct has them: a value that is always there, that may be missing, or that has a
//! default.

ghost use Rattle.std.specs.Prelude.{◌≡◌, OnOk, OnErr, IfErr, length};
ghost use Rattle.asn1_core.specs.Buffer.{Appends, KeepsPrefix};
ghost use Rattle.asn1_core.specs.Element.{element, element_encoding};
ghost use Rattle.asn1_core.specs.Options.{OfValue, OptionErrors, option_meaning};
ghost use Rattle.asn1_core.specs.Reading.{Fits};
ghost use Rattle.asn1_core.specs.Tag.{explicit_tag_of};
ghost use Rattle.asn1_core.specs.Writing.{buffer_name, octets_of, IsElementOf, GivesLength, NamesError};
ghost use Rattle.asn1.specs.Defaults.{same_encoding};
ghost use Rattle.asn1.specs.Structures.{defaulted, encoded, explicit, owed};

use super::{FieldWritable, Wraps};
use crate::wrappers::{DefaultValue, Defaulted, Explicit, MeaningEq};
use asn1_core::writer::full_length;
use asn1_core::{Asn1Type, Asn1Writable, Writer, explicit_tag};

/// Appends the encoding of a value under the explicit tag with the number `tag` (X.690 8.14). Errors and what the
/// caller has to prove are those of [`Asn1Writable::write`].
pub fn write_explicit<T: Asn1Writable>(
    value: &T,
    tag: u32,
    dest: &mut Writer<'_>,
) -> Result<(), T::Error>
    requires { T.der.closures (T.der.meaning value.now) }
    ensures same_buffer { buffer_name dest.new ≡ buffer_name dest.old }
    ensures ok { OnOk result (Appends (IsElementOf (explicit_tag_of tag)
        (T.der.encodings (T.der.meaning value.now))) (octets_of dest.old) (octets_of dest.new)) }
    ensures err { OnErr result (KeepsPrefix (octets_of dest.old) (octets_of dest.new)) }
    ensures error { IfErr result (NamesError T.Error.from_gives (T.write_errors value.now)) }
{
    dest.write_explicit_element(value, tag)
}

/// How many octets the encoding of a value under an explicit tag has, if that is known.
pub fn explicit_length<T: Asn1Writable>(value: &T, tag: u32) -> Option<usize>
    ensures length { GivesLength (T.length_known value.now) (IsElementOf (explicit_tag_of tag)
        (T.der.encodings (T.der.meaning value.now))) result }

    // The length of an encoding that can be read is known.
    ensures exact { let octets = element_encoding (element (explicit_tag_of tag)
        (T.der.encoding (T.der.meaning value.now))) in
        T.length_known value.now → T.der.plain → T.der.valid (T.der.meaning value.now)
        → Fits octets → result ≡ Some (length octets) }
{
    full_length(explicit_tag(tag), value.encoded_length()?)
}

/// Whether a value equals the default, which is under an explicit tag.
fn is_explicit_default<T: MeaningEq + Drop, const N: u32, D: DefaultValue<Explicit<T, N>>>(
    value: &T,
) -> bool
    ensures { result ≡ same_encoding ⟦<Explicit<T, N> as Asn1Type>⟧.der.encoding
        (T.der.meaning value.now)
        (⟦<Explicit<T, N> as Asn1Type>⟧.der.meaning D.default) }
{
    let default = D::value();
    *value == default.inner
}

impl<T: Asn1Type, const N: u32> Wraps<T> for Explicit<T, N> {
    ghost wrap = { explicit };

    fn into_plain(self) -> T {
        self.into_inner()
    }

    fn known_plain(value: &T) {
        value.known()
    }
}

impl<T: Asn1Writable, const N: u32> FieldWritable<T> for Explicit<T, N> {
    type Error = T::Error;

    ghost encodings = { λ v. encoded ⟦<Explicit<T, N> as Asn1Type>⟧.der (explicit v) };

    ghost owes = { λ v. owed ⟦<Explicit<T, N> as Asn1Type>⟧.der (explicit v) };

    ghost write_errors = { λ v. ⟦<Explicit<T, N> as Asn1Writable>⟧.write_errors (explicit v) };

    ghost length_known = { λ v. ⟦<Explicit<T, N> as Asn1Writable>⟧.length_known (explicit v) };

    fn write_plain(value: &T, dest: &mut Writer<'_>) -> Result<(), T::Error> {
        dest.write_explicit_element(value, N)
    }

    fn plain_length(value: &T) -> Option<usize> {
        explicit_length(value, N)
    }
}

impl<T: Asn1Type, const N: u32> Wraps<Option<T>> for Option<Explicit<T, N>> {
    ghost wrap = { option_meaning explicit };

    fn into_plain(self) -> Option<T> {
        match self {
            Some(value) => Some(value.into_inner()),
            None => None,
        }
    }

    fn known_plain(value: &Option<T>) {
        value.known()
    }
}

impl<T: Asn1Writable, const N: u32> FieldWritable<Option<T>> for Option<Explicit<T, N>> {
    type Error = T::Error;

    ghost encodings = { λ v. encoded ⟦<Option<Explicit<T, N>> as Asn1Type>⟧.der
        (option_meaning explicit v) };

    ghost owes = { λ v. owed ⟦<Option<Explicit<T, N>> as Asn1Type>⟧.der
        (option_meaning explicit v) };

    ghost write_errors = { OptionErrors T.write_errors };

    ghost length_known = { OfValue T.length_known };

    fn write_plain(value: &Option<T>, dest: &mut Writer<'_>) -> Result<(), T::Error> {
        match value {
            Some(value) => dest.write_explicit_element(value, N),
            None => Ok(()),
        }
    }

    fn plain_length(value: &Option<T>) -> Option<usize> {
        match value {
            Some(value) => explicit_length(value, N),
            None => Some(0),
        }
    }
}

impl<T: MeaningEq, const N: u32, D: DefaultValue<Explicit<T, N>>> Wraps<T>
    for Defaulted<Explicit<T, N>, D> {
    ghost wrap = { λ x. defaulted (explicit x) };

    fn into_plain(self) -> T {
        self.into_inner().into_inner()
    }

    fn known_plain(value: &T) {
        value.known()
    }
}

impl<
    T: Asn1Writable + MeaningEq + Drop,
    const N: u32,
    D: DefaultValue<Explicit<T, N>>,
> FieldWritable<T> for Defaulted<Explicit<T, N>, D> {
    type Error = T::Error;

    ghost encodings = { λ v. encoded ⟦<Defaulted<Explicit<T, N>, D> as Asn1Type>⟧.der
        (defaulted (explicit v)) };

    ghost owes = { λ v. owed ⟦<Defaulted<Explicit<T, N>, D> as Asn1Type>⟧.der
        (defaulted (explicit v)) };

    ghost write_errors = { λ v. ⟦<Defaulted<Explicit<T, N>, D> as Asn1Writable>⟧.write_errors
        (defaulted (explicit v)) };

    ghost length_known = { λ v. ⟦<Defaulted<Explicit<T, N>, D> as Asn1Writable>⟧.length_known
        (defaulted (explicit v)) };

    fn write_plain(value: &T, dest: &mut Writer<'_>) -> Result<(), T::Error> {
        if is_explicit_default::<T, N, D>(value) {
            return Ok(());
        }
        dest.write_explicit_element(value, N)
    }

    fn plain_length(value: &T) -> Option<usize> {
        if is_explicit_default::<T, N, D>(value) {
            return Some(0);
        }
        explicit_length(value, N)
    }
}
