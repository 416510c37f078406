//! Fields under an implicit tag, as a struct has them: a value that is always there, that may be missing, or that has a
//! default.

ghost use Rattle.std.specs.Prelude.{◌≡◌, OnOk, OnErr, IfErr, length};
ghost use Rattle.asn1_core.specs.Buffer.{Appends, KeepsPrefix};
ghost use Rattle.asn1_core.specs.Element.{element, element_encoding};
ghost use Rattle.asn1_core.specs.Options.{OfValue, OptionErrors, option_meaning};
ghost use Rattle.asn1_core.specs.Reading.{Fits};
ghost use Rattle.asn1_core.specs.Tag.{implicit_tag_of};
ghost use Rattle.asn1_core.specs.Writing.{buffer_name, octets_of, IsElementOf, GivesLength, NamesError};
ghost use Rattle.asn1.specs.Defaults.{same_encoding};
ghost use Rattle.asn1.specs.Structures.{defaulted, encoded, implicit, owed};

use super::{FieldWritable, Wraps};
use crate::wrappers::{DefaultValue, Defaulted, Implicit, SimpleMeaningEq};
use asn1_core::writer::full_length;
use asn1_core::{Asn1Type, Asn1Writable, SimpleAsn1Writable, Writer, implicit_tag};

/// Appends the encoding of a value under the implicit tag with the number `tag` (X.690 8.14). Errors and what the
/// caller has to prove are those of [`Asn1Writable::write`].
pub fn write_implicit<T: SimpleAsn1Writable>(
    value: &T,
    tag: u32,
    dest: &mut Writer<'_>,
) -> Result<(), T::Error>
    requires { T.der.content.closures (T.der.meaning value.now) }
    ensures same_buffer { buffer_name dest.new ≡ buffer_name dest.old }
    ensures ok { OnOk result (Appends (IsElementOf (implicit_tag_of tag T.der.content.tag)
        (T.der.content.encodings (T.der.meaning value.now))) (octets_of dest.old)
        (octets_of dest.new)) }
    ensures err { OnErr result (KeepsPrefix (octets_of dest.old) (octets_of dest.new)) }
    ensures error { IfErr result (NamesError T.Error.from_gives (T.write_errors value.now)) }
{
    dest.write_implicit_element(value, tag)
}

/// How many octets the encoding of a value under an implicit tag has, if that is known.
pub fn implicit_length<T: SimpleAsn1Writable>(value: &T, tag: u32) -> Option<usize>
    ensures length { GivesLength (T.length_known value.now) (IsElementOf
        (implicit_tag_of tag T.der.content.tag) (T.der.content.encodings (T.der.meaning value.now)))
        result }

    // The length of an encoding that can be read is known.
    ensures exact { let octets = element_encoding (element (implicit_tag_of tag T.der.content.tag)
        (T.der.content.encoding (T.der.meaning value.now))) in
        T.length_known value.now → T.der.content.plain
        → T.der.content.valid (T.der.meaning value.now)
        → Fits octets → result ≡ Some (length octets) }
{
    full_length(implicit_tag(tag, T::tag()), value.data_length()?)
}

/// Whether a value equals the default, which is under an implicit tag.
fn is_implicit_default<T: SimpleMeaningEq + Drop, const N: u32, D: DefaultValue<Implicit<T, N>>>(
    value: &T,
) -> bool
    ensures { result ≡ same_encoding ⟦<Implicit<T, N> as Asn1Type>⟧.der.encoding
        (T.der.meaning value.now)
        (⟦<Implicit<T, N> as Asn1Type>⟧.der.meaning D.default) }
{
    let default = D::value();
    *value == default.inner
}

impl<T: Asn1Type, const N: u32> Wraps<T> for Implicit<T, N> {
    ghost wrap = { implicit };

    fn into_plain(self) -> T {
        self.into_inner()
    }

    fn known_plain(value: &T) {
        value.known()
    }
}

impl<T: SimpleAsn1Writable, const N: u32> FieldWritable<T> for Implicit<T, N> {
    type Error = T::Error;

    ghost encodings = { λ v. encoded ⟦<Implicit<T, N> as Asn1Type>⟧.der (implicit v) };

    ghost owes = { λ v. owed ⟦<Implicit<T, N> as Asn1Type>⟧.der (implicit v) };

    ghost write_errors = { λ v. ⟦<Implicit<T, N> as Asn1Writable>⟧.write_errors (implicit v) };

    ghost length_known = { λ v. ⟦<Implicit<T, N> as Asn1Writable>⟧.length_known (implicit v) };

    fn write_plain(value: &T, dest: &mut Writer<'_>) -> Result<(), T::Error> {
        dest.write_implicit_element(value, N)
    }

    fn plain_length(value: &T) -> Option<usize> {
        implicit_length(value, N)
    }
}

impl<T: Asn1Type, const N: u32> Wraps<Option<T>> for Option<Implicit<T, N>> {
    ghost wrap = { option_meaning implicit };

    fn into_plain(self) -> Option<T> {
        match self {
            Some(value) => Some(value.into_inner()),
            None => None,
        }
    }

    fn known_plain(value: &Option<T>) {
        value.known()
    }
}

impl<T: SimpleAsn1Writable, const N: u32> FieldWritable<Option<T>> for Option<Implicit<T, N>> {
    type Error = T::Error;

    ghost encodings = { λ v. encoded ⟦<Option<Implicit<T, N>> as Asn1Type>⟧.der
        (option_meaning implicit v) };

    ghost owes = { λ v. owed ⟦<Option<Implicit<T, N>> as Asn1Type>⟧.der
        (option_meaning implicit v) };

    ghost write_errors = { OptionErrors T.write_errors };

    ghost length_known = { OfValue T.length_known };

    fn write_plain(value: &Option<T>, dest: &mut Writer<'_>) -> Result<(), T::Error> {
        match value {
            Some(value) => dest.write_implicit_element(value, N),
            None => Ok(()),
        }
    }

    fn plain_length(value: &Option<T>) -> Option<usize> {
        match value {
            Some(value) => implicit_length(value, N),
            None => Some(0),
        }
    }
}

impl<T: SimpleMeaningEq, const N: u32, D: DefaultValue<Implicit<T, N>>> Wraps<T>
    for Defaulted<Implicit<T, N>, D> {
    ghost wrap = { λ x. defaulted (implicit x) };

    fn into_plain(self) -> T {
        self.into_inner().into_inner()
    }

    fn known_plain(value: &T) {
        value.known()
    }
}

impl<
    T: SimpleAsn1Writable + SimpleMeaningEq + Drop,
    const N: u32,
    D: DefaultValue<Implicit<T, N>>,
> FieldWritable<T> for Defaulted<Implicit<T, N>, D> {
    type Error = T::Error;

    ghost encodings = { λ v. encoded ⟦<Defaulted<Implicit<T, N>, D> as Asn1Type>⟧.der
        (defaulted (implicit v)) };

    ghost owes = { λ v. owed ⟦<Defaulted<Implicit<T, N>, D> as Asn1Type>⟧.der
        (defaulted (implicit v)) };

    ghost write_errors = { λ v. ⟦<Defaulted<Implicit<T, N>, D> as Asn1Writable>⟧.write_errors
        (defaulted (implicit v)) };

    ghost length_known = { λ v. ⟦<Defaulted<Implicit<T, N>, D> as Asn1Writable>⟧.length_known
        (defaulted (implicit v)) };

    fn write_plain(value: &T, dest: &mut Writer<'_>) -> Result<(), T::Error> {
        if is_implicit_default::<T, N, D>(value) {
            return Ok(());
        }
        dest.write_implicit_element(value, N)
    }

    fn plain_length(value: &T) -> Option<usize> {
        if is_implicit_default::<T, N, D>(value) {
            return Some(0);
        }
        implicit_length(value, N)
    }
}
