//! Structures and choices: each attribute of the original's derives for them, once.
// Printed by tools/derive from declarations/page.rs, with the sum c524a9a2.

ghost use Rattle.std.specs.Prelude.{◌≡◌, ◌∷◌, [], negsuc, IsTrue, OnErr, IfOk};
ghost use Rattle.asn1.specs.AlternativeLists.{after1, choice, first1};
ghost use Rattle.asn1.specs.Reading.{EndsWith};
ghost use Rattle.asn1.specs.Reads.{BeginsWithEncodingOf, HasOneEncoding, ReadsContents, ReadsPrefix};
ghost use Rattle.asn1.specs.Structures.{defaulted, explicit, field_names, implicit, structure, fields0, fields1};
ghost use Rattle.asn1.specs.Structures.{fields2, fields4};

use asn1::alternatives::{
    Alternatives, AlternativesReadable, AsOneOf, ExplicitTag, ImplicitTag, OneOf2, read_choice,
};
use asn1::fields::{Fields2, Fields4, Last, NoFields, Row};
use asn1::{
    Asn1Readable, Asn1Type, Asn1Writable, DefaultValue, Defaulted, Explicit, Implicit, ParseResult,
    Parser, PrintableString, SequenceOf, SetOf, SetOfWriter, SimpleAsn1Readable,
    SimpleAsn1Writable, Tag, Utf8String, WriteBuf, WriteError, WriteResult, Writer, choice_length,
    fields_length, known_choice, known_fields, read_fields, take_choice, write_choice,
    write_fields,
};
use std::alloc::Global;

/// Two numbers, by plain names.
#[derive(Clone, Copy, PartialEq)]
pub struct Signature {
    /// The first.
    pub r: u64,
    /// The second.
    pub s: u64,
}

type SignatureFields = Fields2<u64, u64>;

impl Asn1Type for Signature {
    ghost der = { structure (λ v. fields2 v.r v.s) ⟦<SignatureFields as Row>⟧.list
        (field_names "Signature" ("r" ∷ "s" ∷ [])) };

    fn known(&self) {
        known_fields!(self; r, s)
    }
}

impl<'a> SimpleAsn1Readable<'a> for Signature {
    fn tag() -> Tag {
        Tag::constructed(0x10)
    }

    fn parse_data(alloc: Global, data: &'a [u8]) -> ParseResult<Signature> {
        read_fields!(SignatureFields, alloc, data => Signature; r, s)
    }
}

impl SimpleAsn1Writable for Signature {
    type Error = WriteError;

    ghost length_known = { λ _. Unit {0} };

    fn tag() -> Tag {
        Tag::constructed(0x10)
    }

    fn write_data(&self, dest: &mut WriteBuf) -> WriteResult<()> {
        write_fields!(self, dest; r, s)
    }

    fn data_length(&self) -> Option<usize> {
        fields_length!(self; r, s)
    }

    fn writes_as_read() -> bool {
        true
    }
}

/// No fields.
#[derive(PartialEq, Drop)]
pub struct Nothing {}

type NothingFields = NoFields;

impl Asn1Type for Nothing {
    ghost der = { structure (λ v. fields0) ⟦<NothingFields as Row>⟧.list (field_names "Nothing"
        ([])) };

    fn known(&self) {
        known_fields!(self;)
    }
}

impl<'a> SimpleAsn1Readable<'a> for Nothing {
    fn tag() -> Tag {
        Tag::constructed(0x10)
    }

    fn parse_data(alloc: Global, data: &'a [u8]) -> ParseResult<Nothing> {
        read_fields!(NothingFields, alloc, data => Nothing;)
    }
}

impl SimpleAsn1Writable for Nothing {
    type Error = WriteError;

    ghost length_known = { λ _. Unit {0} };

    fn tag() -> Tag {
        Tag::constructed(0x10)
    }

    fn write_data(&self, dest: &mut WriteBuf) -> WriteResult<()> {
        write_fields!(self, dest;)
    }

    fn data_length(&self) -> Option<usize> {
        fields_length!(self;)
    }

    fn writes_as_read() -> bool {
        true
    }
}

/// Fields with tags and defaults.
#[derive(Clone, PartialEq, Drop)]
pub struct Tagged<'a> {
    /// The version, 1 by default.
    pub version: u8,
    /// Numbers under a tag in place of the list's own.
    pub numbers: SequenceOf<'a, i32, 1, 4>,
    /// A signature under a tag around its own.
    pub signature: Signature,
    /// A number under a tag in place of its own, -1 by default.
    pub level: i8,
}

/// What `version` is if it is left out.
pub struct TaggedVersion;

impl DefaultValue<Explicit<u8, 2>> for TaggedVersion {
    ghost default = { record { inner = 1 } };

    fn value() -> Explicit<u8, 2> {
        Explicit::new(1)
    }
}

/// What `level` is if it is left out.
pub struct TaggedLevel;

impl DefaultValue<Implicit<i8, 5>> for TaggedLevel {
    ghost default = { record { inner = negsuc 0 } };

    fn value() -> Implicit<i8, 5> {
        Implicit::new(-1)
    }
}

type TaggedVersionField = Defaulted<Explicit<u8, 2>, TaggedVersion>;

type TaggedNumbersField<'a> = Implicit<SequenceOf<'a, i32, 1, 4>, 3>;

type TaggedSignatureField = Explicit<Signature, 4>;

type TaggedLevelField = Defaulted<Implicit<i8, 5>, TaggedLevel>;

type TaggedFields<'a> = Fields4<
    TaggedVersionField,
    TaggedNumbersField<'a>,
    TaggedSignatureField,
    TaggedLevelField,
>;

macro_rules! fields_of_tagged {
    ($body:ident, $($of:tt)*) => { $body!($($of)*;
        version: TaggedVersionField, numbers: TaggedNumbersField<'a>,
        signature: TaggedSignatureField, level: TaggedLevelField) };
}

impl<'a> Asn1Type for Tagged<'a> {
    ghost der = { structure (λ v. fields4 (defaulted (explicit v.version)) (implicit v.numbers)
        (explicit v.signature) (defaulted (implicit v.level))) ⟦<TaggedFields<'a> as Row>⟧.list
        (field_names "Tagged" ("version" ∷ "numbers" ∷ "signature" ∷ "level" ∷ [])) };

    fn known(&self) {
        fields_of_tagged!(known_fields, self)
    }
}

impl<'a> SimpleAsn1Readable<'a> for Tagged<'a> {
    fn tag() -> Tag
        ensures value { result ≡ ⟦<Tagged<'a> as Asn1Type>⟧.der.content.tag }
        ensures simple { ⟦<Tagged<'a> as Asn1Type>⟧.der.is_simple }
        ensures plain { ⟦<Tagged<'a> as Asn1Type>⟧.der.plain }
        ensures read { ⟦<Tagged<'a> as Asn1Type>⟧.der.is_read }
    {
        Tag::constructed(0x10)
    }

    fn parse_data(alloc: Global, data: &'a [u8]) -> ParseResult<Tagged<'a>>
        ensures { ReadsContents ⟦<Tagged<'a> as Asn1Type>⟧.der «data».entry.now result }
    {
        fields_of_tagged!(read_fields, TaggedFields<'a>, alloc, data => Tagged)
    }
}

impl<'a> SimpleAsn1Writable for Tagged<'a> {
    type Error = WriteError;

    ghost length_known = { λ _. Unit {0} };

    fn tag() -> Tag
        ensures value { result ≡ ⟦<Tagged<'a> as Asn1Type>⟧.der.content.tag }
        ensures simple { ⟦<Tagged<'a> as Asn1Type>⟧.der.is_simple }
    {
        Tag::constructed(0x10)
    }

    fn write_data(&self, dest: &mut WriteBuf) -> WriteResult<()> {
        fields_of_tagged!(write_fields, self, dest)
    }

    fn data_length(&self) -> Option<usize> {
        fields_of_tagged!(fields_length, self)
    }

    fn writes_as_read() -> bool
        ensures { IsTrue result }
    {
        true
    }
}

/// Strings, in the order of a set.
pub type Strings<'a> = SetOf<'a, PrintableString<'a>>;

type ResponderIdChoice<'a> = OneOf2<ExplicitTag<Strings<'a>, 1>, ExplicitTag<&'a [u8], 2>>;

type ResponderIdValues<'a> = <ResponderIdChoice<'a> as Alternatives>::Values;

/// Who answers (RFC 6960, 4.2.1).
#[derive(Debug, Clone, PartialEq, Eq, Hash, Drop)]
pub enum ResponderId<'a> {
    /// By name.
    ByName(Strings<'a>),
    /// By the hash of a key.
    ByKey(&'a [u8]),
}

impl<'a> AsOneOf<ResponderIdValues<'a>> for ResponderId<'a> {
    ghost use Rattle.derived_tests.specs.declared.page.ResponderId.TheVariants.{ByName, ByKey};

    ghost seen = { elim [ ByName x ↦ first1 x | ByKey x ↦ after1 (first1 x) ] };

    fn from_one_of(value: ResponderIdValues<'a>) -> ResponderId<'a>
        ensures { ⟦<ResponderId<'a> as AsOneOf<ResponderIdValues<'a>>>⟧.seen result ≡ value.entry }
    {
        take_choice!(value; ResponderId(x); ByName: explicit 1, ByKey: explicit 2)
    }
}

impl<'a> Asn1Type for ResponderId<'a> {
    ghost der = { choice ⟦<ResponderId<'a> as AsOneOf<ResponderIdValues<'a>>>⟧.seen
        ⟦<ResponderIdChoice<'a> as Alternatives>⟧.list };

    fn known(&self) {
        known_choice!(self; ResponderId(x); ByName: explicit 1, ByKey: explicit 2)
    }
}

impl<'a> Asn1Readable<'a> for ResponderId<'a> {
    fn parse(parser: &mut Parser<'a>) -> ParseResult<ResponderId<'a>>
        ensures answers { ReadsPrefix ⟦<ResponderId<'a> as Asn1Type>⟧.der parser.old parser.new
            result }
        ensures found { IfOk result (λ v. BeginsWithEncodingOf ⟦<ResponderId<'a> as Asn1Type>⟧.der v
            parser.old parser.new) }
        ensures rest { EndsWith parser.old parser.new }
        ensures stops { OnErr result (⟦<ResponderId<'a> as Asn1Type>⟧.der.stops parser.old
            parser.new) }
    {
        read_choice::<ResponderIdChoice<'a>, ResponderId<'a>>(parser)
    }

    fn can_parse(tag: Tag) -> bool
        ensures value { result ≡ ⟦<ResponderId<'a> as Asn1Type>⟧.der.accepts tag }
        ensures plain { ⟦<ResponderId<'a> as Asn1Type>⟧.der.plain }
        ensures read { ⟦<ResponderId<'a> as Asn1Type>⟧.der.is_read }
    {
        <ResponderIdChoice<'a> as AlternativesReadable<'a>>::accepts(tag)
    }
}

impl<'a> Asn1Writable for ResponderId<'a> {
    type Error = WriteError;

    ghost length_known = { λ _. Unit {0} };

    fn write(&self, dest: &mut Writer<'_>) -> WriteResult<()> {
        write_choice!(self, dest; ResponderId(x); ByName: explicit 1, ByKey: explicit 2)
    }

    fn encoded_length(&self) -> Option<usize> {
        choice_length!(self; ResponderId(x); ByName: explicit 1, ByKey: explicit 2)
    }

    fn writes_as_read() -> bool
        ensures { IsTrue result }
    {
        true
    }
}

type RespondersChoice<'a> = OneOf2<
    SequenceOf<'a, ResponderId<'a>, 1, { usize::MAX }>,
    ImplicitTag<Utf8String<'a>, 0>,
>;

type RespondersValues<'a> = <RespondersChoice<'a> as Alternatives>::Values;

/// Who may answer: the list has no tag but its own, and is one of choices that hold lists.
#[derive(Drop)]
pub enum Responders<'a> {
    /// Each by itself.
    Listed(SequenceOf<'a, ResponderId<'a>, 1, { usize::MAX }>),
    /// By a name for all.
    Named(Utf8String<'a>),
}

impl<'a> AsOneOf<RespondersValues<'a>> for Responders<'a> {
    ghost use Rattle.derived_tests.specs.declared.page.Responders.TheVariants.{Listed, Named};

    ghost seen = { elim [ Listed x ↦ first1 x | Named x ↦ after1 (first1 x) ] };

    fn from_one_of(value: RespondersValues<'a>) -> Responders<'a>
        ensures { ⟦<Responders<'a> as AsOneOf<RespondersValues<'a>>>⟧.seen result ≡ value.entry }
    {
        take_choice!(value; Responders(x); Listed, Named: implicit 0)
    }
}

impl<'a> Asn1Type for Responders<'a> {
    ghost der = { choice ⟦<Responders<'a> as AsOneOf<RespondersValues<'a>>>⟧.seen
        ⟦<RespondersChoice<'a> as Alternatives>⟧.list };

    fn known(&self) {
        known_choice!(self; Responders(x); Listed, Named: implicit 0)
    }
}

impl<'a> Asn1Readable<'a> for Responders<'a> {
    fn parse(parser: &mut Parser<'a>) -> ParseResult<Responders<'a>>
        ensures answers { ReadsPrefix ⟦<Responders<'a> as Asn1Type>⟧.der parser.old parser.new
            result }
        ensures found { IfOk result (λ v. BeginsWithEncodingOf ⟦<Responders<'a> as Asn1Type>⟧.der v
            parser.old parser.new) }
        ensures rest { EndsWith parser.old parser.new }
        ensures stops { OnErr result (⟦<Responders<'a> as Asn1Type>⟧.der.stops parser.old
            parser.new) }
    {
        read_choice::<RespondersChoice<'a>, Responders<'a>>(parser)
    }

    fn can_parse(tag: Tag) -> bool
        ensures value { result ≡ ⟦<Responders<'a> as Asn1Type>⟧.der.accepts tag }
        ensures plain { ⟦<Responders<'a> as Asn1Type>⟧.der.plain }
        ensures read { ⟦<Responders<'a> as Asn1Type>⟧.der.is_read }
    {
        <RespondersChoice<'a> as AlternativesReadable<'a>>::accepts(tag)
    }
}

impl<'a> Asn1Writable for Responders<'a> {
    type Error = WriteError;

    ghost length_known = { λ _. Unit {0} };

    fn write(&self, dest: &mut Writer<'_>) -> WriteResult<()> {
        write_choice!(self, dest; Responders(x); Listed, Named: implicit 0)
    }

    fn encoded_length(&self) -> Option<usize> {
        choice_length!(self; Responders(x); Listed, Named: implicit 0)
    }

    fn writes_as_read() -> bool
        ensures { IsTrue result }
    {
        true
    }
}

/// A choice in a structure, which may be missing.
#[derive(Drop)]
pub struct Alternative<'a> {
    /// Who answers, if anyone does.
    pub responder: Option<ResponderId<'a>>,
}

type AlternativeFields<'a> = Last<Option<ResponderId<'a>>>;

impl<'a> Asn1Type for Alternative<'a> {
    ghost der = { structure (λ v. fields1 v.responder) ⟦<AlternativeFields<'a> as Row>⟧.list
        (field_names "Alternative" ("responder" ∷ [])) };

    fn known(&self) {
        known_fields!(self; responder)
    }
}

impl<'a> SimpleAsn1Readable<'a> for Alternative<'a> {
    fn tag() -> Tag
        ensures value { result ≡ ⟦<Alternative<'a> as Asn1Type>⟧.der.content.tag }
        ensures simple { ⟦<Alternative<'a> as Asn1Type>⟧.der.is_simple }
        ensures plain { ⟦<Alternative<'a> as Asn1Type>⟧.der.plain }
        ensures read { ⟦<Alternative<'a> as Asn1Type>⟧.der.is_read }
    {
        Tag::constructed(0x10)
    }

    fn parse_data(alloc: Global, data: &'a [u8]) -> ParseResult<Alternative<'a>>
        ensures { ReadsContents ⟦<Alternative<'a> as Asn1Type>⟧.der «data».entry.now result }
    {
        read_fields!(AlternativeFields<'a>, alloc, data => Alternative; responder)
    }
}

impl<'a> SimpleAsn1Writable for Alternative<'a> {
    type Error = WriteError;

    ghost length_known = { λ _. Unit {0} };

    fn tag() -> Tag
        ensures value { result ≡ ⟦<Alternative<'a> as Asn1Type>⟧.der.content.tag }
        ensures simple { ⟦<Alternative<'a> as Asn1Type>⟧.der.is_simple }
    {
        Tag::constructed(0x10)
    }

    fn write_data(&self, dest: &mut WriteBuf) -> WriteResult<()> {
        write_fields!(self, dest; responder)
    }

    fn data_length(&self) -> Option<usize> {
        fields_length!(self; responder)
    }

    fn writes_as_read() -> bool
        ensures { IsTrue result }
    {
        true
    }
}

/// Whether a bag is full, and the numbers in the bag, which is made in code and only written.
#[derive(Drop)]
pub struct Bag<'a> {
    /// Whether it is full.
    pub full: bool,
    /// The numbers.
    pub numbers: SetOfWriter<'a, u64>,
}

type BagFields<'a> = Fields2<bool, SetOfWriter<'a, u64>>;

impl<'a> Asn1Type for Bag<'a> {
    ghost der = { structure (λ v. fields2 v.full v.numbers) ⟦<BagFields<'a> as Row>⟧.list
        (field_names "Bag" ("full" ∷ "numbers" ∷ [])) };

    fn known(&self) {
        known_fields!(self; full, numbers)
    }
}

impl<'a> SimpleAsn1Writable for Bag<'a> {
    type Error = WriteError;

    ghost write_errors = { λ v e. ⟦<SetOfWriter<'a, u64> as SimpleAsn1Writable>⟧.write_errors
        v.numbers e };

    ghost length_known = { λ _. Unit {0} };

    fn tag() -> Tag
        ensures value { result ≡ ⟦<Bag<'a> as Asn1Type>⟧.der.content.tag }
        ensures simple { ⟦<Bag<'a> as Asn1Type>⟧.der.is_simple }
    {
        Tag::constructed(0x10)
    }

    fn write_data(&self, dest: &mut WriteBuf) -> WriteResult<()> {
        write_fields!(self, dest; full, numbers)
    }

    fn data_length(&self) -> Option<usize> {
        fields_length!(self; full, numbers)
    }
}

/// The laws of the types, which do nothing.
pub mod laws {
    use super::{
        Alternative, Nothing, ResponderId, ResponderIdChoice, Responders, RespondersChoice,
        Signature, Strings, Tagged,
    };
    use asn1::Asn1Type;
    use asn1::laws_wrappers::alternatives_apart_are_lawful;

    /// Each value of `Signature` has one encoding, which is read back.
    pub fn signature_is_lawful()
        ensures { HasOneEncoding ⟦<Signature as Asn1Type>⟧.der }
    {}

    /// Each value of `Nothing` has one encoding, which is read back.
    pub fn nothing_is_lawful()
        ensures { HasOneEncoding ⟦<Nothing as Asn1Type>⟧.der }
    {}

    /// Each value of `Tagged` has one encoding, which is read back.
    pub fn tagged_is_lawful()
        ensures { HasOneEncoding ⟦<Tagged<'static> as Asn1Type>⟧.der }
    {
        signature_is_lawful();
    }

    /// Each value of `Strings` has one encoding, which is read back.
    pub fn strings_is_lawful()
        ensures { HasOneEncoding ⟦<Strings<'static> as Asn1Type>⟧.der }
    {}

    /// Each value of `ResponderId` has one encoding, which is read back.
    pub fn responder_id_is_lawful()
        ensures { HasOneEncoding ⟦<ResponderId<'static> as Asn1Type>⟧.der }
    {
        strings_is_lawful();
        alternatives_apart_are_lawful::<ResponderIdChoice<'static>>();
    }

    /// Each value of `Responders` has one encoding, which is read back.
    pub fn responders_is_lawful()
        ensures { HasOneEncoding ⟦<Responders<'static> as Asn1Type>⟧.der }
    {
        responder_id_is_lawful();
        alternatives_apart_are_lawful::<RespondersChoice<'static>>();
    }

    /// Each value of `Alternative` has one encoding, which is read back.
    pub fn alternative_is_lawful()
        ensures { HasOneEncoding ⟦<Alternative<'static> as Asn1Type>⟧.der }
    {
        responder_id_is_lawful();
    }
}
