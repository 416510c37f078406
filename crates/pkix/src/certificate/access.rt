//! Where other data of an issuer or a subject is (RFC 5280, 4.2.2).
// Printed by tools/derive from declarations/certificate/access.rs, with the sum f3657d33.

ghost use Rattle.std.specs.Prelude.{◌≡◌, ◌∷◌, [], IsTrue};
ghost use Rattle.asn1.specs.Reads.{HasOneEncoding, ReadsContents};
ghost use Rattle.asn1.specs.Structures.{field_names, structure, fields2};

use crate::common::GeneralName;
use asn1::fields::{Fields2, Row};
use asn1::{
    Asn1Type, Asn1Writable, ObjectIdentifier, ParseResult, SequenceOf, SimpleAsn1Readable,
    SimpleAsn1Writable, Tag, WriteBuf, WriteError, WriteResult, fields_length, known_fields,
    read_fields, write_fields,
};
use std::alloc::Global;

/// AccessDescription (RFC 5280, 4.2.2.1), a SEQUENCE.
#[derive(Debug, Clone, PartialEq, Eq, Drop)]
pub struct AccessDescription<'a> {
    /// What the data is.
    pub access_method: ObjectIdentifier,
    /// Where the data is.
    pub access_location: GeneralName<'a>,
}

type AccessDescriptionFields<'a> = Fields2<ObjectIdentifier, GeneralName<'a>>;

impl<'a> Asn1Type for AccessDescription<'a> {
    ghost der = { structure (λ v. fields2 v.access_method v.access_location)
        ⟦<AccessDescriptionFields<'a> as Row>⟧.list (field_names "AccessDescription"
        ("access_method" ∷ "access_location" ∷ [])) };

    fn known(&self) {
        known_fields!(self; access_method, access_location)
    }
}

impl<'a> SimpleAsn1Readable<'a> for AccessDescription<'a> {
    fn tag() -> Tag
        ensures value { result ≡ ⟦<AccessDescription<'a> as Asn1Type>⟧.der.content.tag }
        ensures simple { ⟦<AccessDescription<'a> as Asn1Type>⟧.der.is_simple }
        ensures plain { ⟦<AccessDescription<'a> as Asn1Type>⟧.der.plain }
        ensures read { ⟦<AccessDescription<'a> as Asn1Type>⟧.der.is_read }
    {
        Tag::constructed(0x10)
    }

    fn parse_data(alloc: Global, data: &'a [u8]) -> ParseResult<AccessDescription<'a>>
        ensures { ReadsContents ⟦<AccessDescription<'a> as Asn1Type>⟧.der «data».entry.now result }
    {
        read_fields!(AccessDescriptionFields<'a>, alloc, data => AccessDescription;
            access_method, access_location)
    }
}

impl<'a> SimpleAsn1Writable for AccessDescription<'a> {
    type Error = WriteError;

    ghost length_known = { λ v. ⟦<GeneralName<'a> as Asn1Writable>⟧.length_known
        v.access_location };

    fn tag() -> Tag
        ensures value { result ≡ ⟦<AccessDescription<'a> as Asn1Type>⟧.der.content.tag }
        ensures simple { ⟦<AccessDescription<'a> as Asn1Type>⟧.der.is_simple }
    {
        Tag::constructed(0x10)
    }

    fn write_data(&self, dest: &mut WriteBuf) -> WriteResult<()> {
        write_fields!(self, dest; access_method, access_location)
    }

    fn data_length(&self) -> Option<usize> {
        fields_length!(self; access_method, access_location)
    }

    fn writes_as_read() -> bool
        ensures { IsTrue result }
    {
        true
    }
}

/// AuthorityInfoAccessSyntax (RFC 5280, 4.2.2.1), a SEQUENCE of at least one AccessDescription; identifier
/// 1.3.6.1.5.5.7.1.1. SubjectInfoAccessSyntax (4.2.2.2), identifier 1.3.6.1.5.5.7.1.11, is this type too.
pub type AuthorityInfoAccess<'a> = SequenceOf<'a, AccessDescription<'a>, 1, { usize::MAX }>;

/// The laws of the types, which do nothing.
pub mod laws {
    use super::{AccessDescription, AuthorityInfoAccess};
    use asn1::Asn1Type;

    /// Each value of `AccessDescription` has one encoding, which is read back.
    pub fn access_description_is_lawful()
        ensures { HasOneEncoding ⟦<AccessDescription<'static> as Asn1Type>⟧.der }
    {
        crate::common::laws::general_name_is_lawful();
    }

    /// Each value of `AuthorityInfoAccess` has one encoding, which is read back.
    pub fn authority_info_access_is_lawful()
        ensures { HasOneEncoding ⟦<AuthorityInfoAccess<'static> as Asn1Type>⟧.der }
    {
        access_description_is_lawful();
    }
}
