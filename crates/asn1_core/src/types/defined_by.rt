//! The traits of types whose form is defined by an item beside them, such as an OBJECT IDENTIFIER (ANY DEFINED BY).

ghost use Rattle.std.specs.Prelude.{◌≡◌, OnOk, OnErr, IfErr};
ghost use Rattle.asn1_core.specs.Buffer.{Appends, KeepsPrefix};
ghost use Rattle.asn1_core.specs.Reading.{EndsWith};
ghost use Rattle.asn1_core.specs.Reads.{ReadsDefined};
ghost use Rattle.asn1_core.specs.Writing.{buffer_name, octets_of, GivesLength, NamesError};
ghost use Rattle.asn1_core.specs.DefinedBy.{ByItem};

use crate::parser::{ParseResult, Parser};
use crate::types::{Asn1Readable, Asn1Type, Asn1Writable};
use crate::writer::{WriteError, Writer};

/// The meaning, for contracts alone, of a type that an item of the type `T` defines.
pub trait Asn1DefinedBy<T: Asn1Type>: Sized {
    ghost by: { ByItem T Self };

    /// States that every value of the type is valid, as [`Asn1Type::known`] does for other types, and that items with
    /// the same view (`seen`) have the same abstract value. The call does nothing at run time.
    fn known_by(&self)
        ensures valid { by.means.valid (by.means.meaning self.now) }
        ensures items { (a b : T) → by.seen a ≡ by.seen b → T.der.meaning a ≡ T.der.meaning b };
}

/// A type that is read once its item is known.
pub trait Asn1DefinedByReadable<'a, T: Asn1Readable<'a>>: Asn1DefinedBy<T> + Sized + Drop {
    /// Reads a value that `item` defines. Returns the value, or the first error for that item, as `UnknownDefinedBy`,
    /// or `AllocationError` if the type allocates. The parser is then before a suffix of the octets that remained.
    fn parse(item: T, parser: &mut Parser<'a>) -> ParseResult<Self>
        ensures answers { ReadsDefined Self.by item parser.old parser.new result }
        ensures rest { EndsWith parser.old parser.new }
        ensures stops { OnErr result
            (Self.by.means.stops (Self.by.seen item) parser.old parser.new) };

    /// States that each value has one encoding (`plain`), and that values are read (`read`). The call does nothing at
    /// run time, or calls `one_encoding` of the parts.
    fn one_encoding()
        ensures plain { Self.by.means.plain }
        ensures read { Self.by.means.is_read };
}

/// A type that is written after the item that defines it.
pub trait Asn1DefinedByWritable<T: Asn1Writable>: Asn1DefinedBy<T> + Sized {
    /// The error of a failed write, made from a [`WriteError`] such as `AllocationError`.
    type Error: From<WriteError>;

    // The errors that a write may return, except out of memory.
    ghost write_errors_by: { Self → Self.Error → Type 0 } = { λ _ _. ⊥ };

    // The values whose length is known without writing them.
    ghost length_known_by: { Self → Type 0 } = { λ _. ⊥ };

    /// The item that defines the value.
    fn item(&self) -> T
        ensures { Self.by.seen result ≡ Self.by.means.item (Self.by.means.meaning self.now) };

    /// Appends the value's encoding, without its item. Errors and what the caller has to prove are those of
    /// [`Asn1Writable::write`].
    fn write(&self, dest: &mut Writer<'_>) -> Result<(), Self::Error>
        requires { Self.by.means.closures (Self.by.means.meaning self.now) }
        ensures same_buffer { buffer_name dest.new ≡ buffer_name dest.old }
        ensures ok { OnOk result (Appends (Self.by.means.encodings (Self.by.means.meaning self.now))
            (octets_of dest.old) (octets_of dest.new)) }
        ensures err { OnErr result (KeepsPrefix (octets_of dest.old) (octets_of dest.new)) }
        ensures error { IfErr result (NamesError Self.Error.from_gives
            (write_errors_by self.now)) };

    /// How many octets the value's encoding has, without its item, if that is known without writing it. `None` also
    /// if that is 2^64 or more.
    fn encoded_length(&self) -> Option<usize>
        ensures { GivesLength (length_known_by self.now)
            (Self.by.means.encodings (Self.by.means.meaning self.now)) result };
}
