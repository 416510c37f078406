//! What a time stamp says (RFC 3161, 2.4.2).
// Printed by tools/derive from declarations/timestamps/info.rs, with the sum 2d14f1b7.

ghost use Rattle.std.specs.Prelude.{◌≡◌, ◌∷◌, [], false, IsTrue};
ghost use Rattle.asn1.specs.Options.{option_meaning};
ghost use Rattle.asn1.specs.Reads.{HasOneEncoding, ReadsContents};
ghost use Rattle.asn1.specs.Structures.{defaulted, explicit, field_names, implicit, structure, fields3, fields10};

use crate::common::{Extensions, GeneralName};
use crate::timestamps::MessageImprint;
use asn1::fields::{Fields3, Fields10, Row};
use asn1::{
    Asn1Type, Asn1Writable, BigInt, DefaultValue, Defaulted, Explicit, GeneralizedTime, Implicit,
    ObjectIdentifier, ParseResult, SimpleAsn1Readable, SimpleAsn1Writable, Tag, WriteBuf,
    WriteError, WriteResult, fields_length, known_fields, read_fields, write_fields,
};
use std::alloc::Global;

/// Accuracy (RFC 3161, 2.4.2), a SEQUENCE: how far the time may be off.
#[derive(Debug, Clone, Copy, PartialEq, Eq)]
pub struct Accuracy<'a> {
    /// Seconds.
    pub seconds: Option<BigInt<'a>>,
    /// Thousandths of a second: from 1 to 999, which isn't checked.
    pub millis: Option<u16>,
    /// Millionths of a second: from 1 to 999, which isn't checked.
    pub micros: Option<u16>,
}

type AccuracyMillisField = Option<Implicit<u16, 0>>;

type AccuracyMicrosField = Option<Implicit<u16, 1>>;

type AccuracyFields<'a> = Fields3<Option<BigInt<'a>>, AccuracyMillisField, AccuracyMicrosField>;

impl<'a> Asn1Type for Accuracy<'a> {
    ghost der = { structure (λ v. fields3 v.seconds (option_meaning implicit v.millis)
        (option_meaning implicit v.micros)) ⟦<AccuracyFields<'a> as Row>⟧.list
        (field_names "Accuracy" ("seconds" ∷ "millis" ∷ "micros" ∷ [])) };

    fn known(&self) {
        known_fields!(self; seconds, millis: AccuracyMillisField, micros: AccuracyMicrosField)
    }
}

impl<'a> SimpleAsn1Readable<'a> for Accuracy<'a> {
    fn tag() -> Tag
        ensures value { result ≡ ⟦<Accuracy<'a> as Asn1Type>⟧.der.content.tag }
        ensures simple { ⟦<Accuracy<'a> as Asn1Type>⟧.der.is_simple }
        ensures plain { ⟦<Accuracy<'a> as Asn1Type>⟧.der.plain }
        ensures read { ⟦<Accuracy<'a> as Asn1Type>⟧.der.is_read }
    {
        Tag::constructed(0x10)
    }

    fn parse_data(alloc: Global, data: &'a [u8]) -> ParseResult<Accuracy<'a>>
        ensures { ReadsContents ⟦<Accuracy<'a> as Asn1Type>⟧.der «data».entry.now result }
    {
        read_fields!(AccuracyFields<'a>, alloc, data => Accuracy;
            seconds, millis: AccuracyMillisField, micros: AccuracyMicrosField)
    }
}

impl<'a> SimpleAsn1Writable for Accuracy<'a> {
    type Error = WriteError;

    ghost length_known = { λ _. Unit {0} };

    fn tag() -> Tag
        ensures value { result ≡ ⟦<Accuracy<'a> as Asn1Type>⟧.der.content.tag }
        ensures simple { ⟦<Accuracy<'a> as Asn1Type>⟧.der.is_simple }
    {
        Tag::constructed(0x10)
    }

    fn write_data(&self, dest: &mut WriteBuf) -> WriteResult<()> {
        write_fields!(self, dest; seconds, millis: AccuracyMillisField, micros: AccuracyMicrosField)
    }

    fn data_length(&self) -> Option<usize> {
        fields_length!(self; seconds, millis: AccuracyMillisField, micros: AccuracyMicrosField)
    }

    fn writes_as_read() -> bool
        ensures { IsTrue result }
    {
        true
    }
}

/// TSTInfo (RFC 3161, 2.4.2), a SEQUENCE.
#[derive(Debug, Clone, PartialEq, Eq, Drop)]
pub struct TstInfo<'a> {
    /// The version, which is 1. Any from 0 to 255 is read.
    pub version: u8,
    /// The policy of the time stamp.
    pub policy: ObjectIdentifier,
    /// The digest of what is stamped.
    pub message_imprint: MessageImprint<'a>,
    /// The number of the time stamp.
    pub serial_number: BigInt<'a>,
    /// When the time stamp was made. A fraction has nine digits at most.
    pub gen_time: GeneralizedTime,
    /// How far the time may be off.
    pub accuracy: Option<Accuracy<'a>>,
    /// Whether all time stamps of this authority are in the order of their times.
    pub ordering: bool,
    /// The number of the request.
    pub nonce: Option<BigInt<'a>>,
    /// Who made the time stamp.
    pub tsa: Option<GeneralName<'a>>,
    /// The extensions.
    pub extensions: Option<Extensions<'a>>,
}

/// What `ordering` is if it is left out.
pub struct TstInfoOrdering;

impl DefaultValue<bool> for TstInfoOrdering {
    ghost default = { false };

    fn value() -> bool {
        false
    }
}

type TstInfoOrderingField = Defaulted<bool, TstInfoOrdering>;

type TstInfoTsaField<'a> = Option<Explicit<GeneralName<'a>, 0>>;

type TstInfoExtensionsField<'a> = Option<Implicit<Extensions<'a>, 1>>;

type TstInfoFields<'a> = Fields10<
    u8,
    ObjectIdentifier,
    MessageImprint<'a>,
    BigInt<'a>,
    GeneralizedTime,
    Option<Accuracy<'a>>,
    TstInfoOrderingField,
    Option<BigInt<'a>>,
    TstInfoTsaField<'a>,
    TstInfoExtensionsField<'a>,
>;

macro_rules! fields_of_tst_info {
    ($body:ident, $($of:tt)*) => { $body!($($of)*;
        version, policy, message_imprint, serial_number, gen_time, accuracy,
        ordering: TstInfoOrderingField, nonce, tsa: TstInfoTsaField<'a>,
        extensions: TstInfoExtensionsField<'a>) };
}

impl<'a> Asn1Type for TstInfo<'a> {
    ghost der = { structure (λ v. fields10 v.version v.policy v.message_imprint v.serial_number
        v.gen_time v.accuracy (defaulted v.ordering) v.nonce (option_meaning explicit v.tsa)
        (option_meaning implicit v.extensions)) ⟦<TstInfoFields<'a> as Row>⟧.list
        (field_names "TstInfo" ("version" ∷ "policy" ∷ "message_imprint" ∷ "serial_number" ∷
        "gen_time" ∷ "accuracy" ∷ "ordering" ∷ "nonce" ∷ "tsa" ∷ "extensions" ∷ [])) };

    fn known(&self) {
        fields_of_tst_info!(known_fields, self)
    }
}

impl<'a> SimpleAsn1Readable<'a> for TstInfo<'a> {
    fn tag() -> Tag
        ensures value { result ≡ ⟦<TstInfo<'a> as Asn1Type>⟧.der.content.tag }
        ensures simple { ⟦<TstInfo<'a> as Asn1Type>⟧.der.is_simple }
        ensures plain { ⟦<TstInfo<'a> as Asn1Type>⟧.der.plain }
        ensures read { ⟦<TstInfo<'a> as Asn1Type>⟧.der.is_read }
    {
        Tag::constructed(0x10)
    }

    fn parse_data(alloc: Global, data: &'a [u8]) -> ParseResult<TstInfo<'a>>
        ensures { ReadsContents ⟦<TstInfo<'a> as Asn1Type>⟧.der «data».entry.now result }
    {
        fields_of_tst_info!(read_fields, TstInfoFields<'a>, alloc, data => TstInfo)
    }
}

impl<'a> SimpleAsn1Writable for TstInfo<'a> {
    type Error = WriteError;

    ghost length_known = { λ v. ⟦<MessageImprint<'a> as Asn1Writable>⟧.length_known
        v.message_imprint × ⟦<Option<Explicit<GeneralName<'a>, 0>> as Asn1Writable>⟧.length_known
        (option_meaning explicit v.tsa) ×
        ⟦<Option<Implicit<Extensions<'a>, 1>> as Asn1Writable>⟧.length_known (option_meaning
        implicit v.extensions) };

    fn tag() -> Tag
        ensures value { result ≡ ⟦<TstInfo<'a> as Asn1Type>⟧.der.content.tag }
        ensures simple { ⟦<TstInfo<'a> as Asn1Type>⟧.der.is_simple }
    {
        Tag::constructed(0x10)
    }

    fn write_data(&self, dest: &mut WriteBuf) -> WriteResult<()> {
        fields_of_tst_info!(write_fields, self, dest)
    }

    fn data_length(&self) -> Option<usize> {
        fields_of_tst_info!(fields_length, self)
    }

    fn writes_as_read() -> bool
        ensures { IsTrue result }
    {
        true
    }
}

/// The laws of the types, which do nothing.
pub mod laws {
    use super::{Accuracy, TstInfo};
    use asn1::Asn1Type;

    /// Each value of `Accuracy` has one encoding, which is read back.
    pub fn accuracy_is_lawful()
        ensures { HasOneEncoding ⟦<Accuracy<'static> as Asn1Type>⟧.der }
    {}

    /// Each value of `TstInfo` has one encoding, which is read back.
    pub fn tst_info_is_lawful()
        ensures { HasOneEncoding ⟦<TstInfo<'static> as Asn1Type>⟧.der }
    {
        crate::timestamps::laws::message_imprint_is_lawful();
        accuracy_is_lawful();
        crate::common::laws::general_name_is_lawful();
        crate::common::laws::extensions_is_lawful();
    }
}
