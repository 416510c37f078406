//! Fields that are written: a row of references to a struct's fields, four at a time, and how each is written.

ghost use Rattle.std.specs.Prelude.{◌⊎◌, List, ℕ, OnOk, OnErr, IfErr};
ghost use Rattle.asn1_core.specs.Buffer.{Appends, KeepsPrefix};
ghost use Rattle.asn1_core.specs.Writing.{GivesLength, NamesError};
ghost use Rattle.asn1.specs.FieldReads.{Both};

use super::{Field, FieldWritable, Last, sum};
use asn1_core::{WriteBuf, WriteError, Writer};

// Four fields as a row of one field after another.
macro_rules! one_by_one {
    ($row:ident) => {
        Field {
            value: $row.a,
            rest: Field {
                value: $row.b,
                rest: Field {
                    value: $row.c,
                    rest: Field {
                        value: $row.d,
                        rest: &$row.rest,
                    },
                },
            },
        }
    };
}

/// Four fields, and those after them.
#[derive(Drop)]
pub struct Four<A, B, C, D, R> {
    /// The first field's value.
    pub a: A,
    /// The second field's value.
    pub b: B,
    /// The third field's value.
    pub c: C,
    /// The fourth field's value.
    pub d: D,
    /// The fields after them.
    pub rest: R,
}

/// A row of references to fields that are written. `K` is a row too: it has the type of [`FieldWritable`] as which each
/// field is written.
pub trait RowWritable<K>: Sized {
    /// The error of a write that fails.
    type Error: From<WriteError>;

    // What a write may append; what the caller has to prove of the closures in the fields; the errors that a write
    // may return, other than out of memory; and the rows whose length is known without writing them.
    ghost encodings: { Self → List ℕ → Type 0 };

    ghost owes: { Self → Type 0 };

    ghost write_errors: { Self → Self.Error → Type 0 };

    ghost length_known: { Self → Type 0 };

    /// Appends the encodings of the fields, in order. Errors and what the caller has to prove are those of
    /// [`Asn1Writable::write`].
    fn write(&self, dest: &mut WriteBuf) -> Result<(), Self::Error>
        requires { owes self.now }
        ensures ok { OnOk result (Appends (encodings self.now) dest.old.bytes dest.new.bytes) }
        ensures err { OnErr result (KeepsPrefix dest.old.bytes dest.new.bytes) }
        ensures error { IfErr result (NamesError Self.Error.from_gives (write_errors self.now)) };

    /// How many octets the encodings of the fields have together, if that is known without writing them. `None` also
    /// if that number is 2^64 or more.
    fn length(&self) -> Option<usize>
        ensures { GivesLength (length_known self.now) (encodings self.now) result };
}

impl<A, K: FieldWritable<A>> RowWritable<Last<K>> for Last<&A> {
    type Error = K::Error;

    ghost encodings = { λ row. K.encodings row.value.now };

    ghost owes = { λ row. K.owes row.value.now };

    ghost write_errors = { λ row. K.write_errors row.value.now };

    ghost length_known = { λ row. K.length_known row.value.now };

    fn write(&self, dest: &mut WriteBuf) -> Result<(), K::Error> {
        K::write_plain(self.value, &mut Writer::new(dest))
    }

    fn length(&self) -> Option<usize> {
        K::plain_length(self.value)
    }
}

impl<A, K: FieldWritable<A>, KR, R: RowWritable<KR, Error = K::Error>> RowWritable<Field<K, KR>>
    for Field<&A, R> {
    type Error = K::Error;

    ghost encodings = { λ row. Both (K.encodings row.value.now) (R.encodings row.rest) };

    ghost owes = { λ row. K.owes row.value.now × R.owes row.rest };

    ghost write_errors = { λ row e. K.write_errors row.value.now e ⊎ R.write_errors row.rest e };

    ghost length_known = { λ row. K.length_known row.value.now × R.length_known row.rest };

    #[tactic(auto, using(crate::proofs::FieldSteps::appends_both))]
    fn write(&self, dest: &mut WriteBuf) -> Result<(), K::Error> {
        K::write_plain(self.value, &mut Writer::new(dest))?;
        self.rest.write(dest)
    }

    #[tactic(auto, using(crate::proofs::FieldSteps::gives_length_both))]
    fn length(&self) -> Option<usize> {
        sum(K::plain_length(self.value), self.rest.length())
    }
}

impl<K, R: RowWritable<K>> RowWritable<K> for &R {
    type Error = R::Error;

    ghost encodings = { λ row. R.encodings row.now };

    ghost owes = { λ row. R.owes row.now };

    ghost write_errors = { λ row. R.write_errors row.now };

    ghost length_known = { λ row. R.length_known row.now };

    fn write(&self, dest: &mut WriteBuf) -> Result<(), R::Error> {
        R::write(self, dest)
    }

    fn length(&self) -> Option<usize> {
        R::length(self)
    }
}

/// How four fields are written, one after another.
type InTurn<KA, KB, KC, KD, KR> = Field<KA, Field<KB, Field<KC, Field<KD, KR>>>>;

impl<
    A,
    B,
    C,
    D,
    KA: FieldWritable<A>,
    KB: FieldWritable<B, Error = KA::Error>,
    KC: FieldWritable<C, Error = KA::Error>,
    KD: FieldWritable<D, Error = KA::Error>,
    KR,
    R: RowWritable<KR, Error = KA::Error>,
> RowWritable<Four<KA, KB, KC, KD, KR>> for Four<&A, &B, &C, &D, R> {
    type Error = KA::Error;

    ghost encodings = { λ row. Both (KA.encodings row.a.now) (Both (KB.encodings row.b.now)
        (Both (KC.encodings row.c.now) (Both (KD.encodings row.d.now) (R.encodings row.rest)))) };

    ghost owes = { λ row. KA.owes row.a.now × (KB.owes row.b.now × (KC.owes row.c.now ×
        (KD.owes row.d.now × R.owes row.rest))) };

    ghost write_errors = { λ row e. KA.write_errors row.a.now e ⊎ (KB.write_errors row.b.now e ⊎
        (KC.write_errors row.c.now e ⊎ (KD.write_errors row.d.now e ⊎
        R.write_errors row.rest e))) };

    ghost length_known = { λ row. KA.length_known row.a.now × (KB.length_known row.b.now ×
        (KC.length_known row.c.now × (KD.length_known row.d.now × R.length_known row.rest))) };

    fn write(&self, dest: &mut WriteBuf) -> Result<(), KA::Error> {
        RowWritable::<InTurn<KA, KB, KC, KD, KR>>::write(&one_by_one!(self), dest)
    }

    fn length(&self) -> Option<usize> {
        RowWritable::<InTurn<KA, KB, KC, KD, KR>>::length(&one_by_one!(self))
    }
}
