//! Tags of every class, sets, and enums whose values have numbers: each form of the script for them, once.
// Printed by tools/derive from declarations/tags.rs, with the sum 0b62c9d9.

ghost use Rattle.std.specs.Prelude.{◌≡◌, ◌∷◌, [], pos, true, false, IsTrue, OnErr, IfOk};
ghost use Rattle.asn1.specs.AlternativeLists.{IsLengthOf, after1, after8, choice, first1, first3, second3, third3};
ghost use Rattle.asn1.specs.AlternativeLists.{first8, second8, third8, fourth8, fifth8, sixth8, seventh8, eighth8};
ghost use Rattle.asn1.specs.Element.{element, element_encoding};
ghost use Rattle.asn1.specs.Integer.{integer_content};
ghost use Rattle.asn1.specs.Numbered.{numbered};
ghost use Rattle.asn1.specs.Options.{option_meaning};
ghost use Rattle.asn1.specs.Reading.{EndsWith, Fits};
ghost use Rattle.asn1.specs.Reads.{BeginsWithEncodingOf, HasOneEncoding, ReadsContents, ReadsPrefix};
ghost use Rattle.asn1.specs.Structures.{defaulted, explicit, field_names, implicit, set_structure};
ghost use Rattle.asn1.specs.Structures.{set_structure_with_tag, structure, structure_with_tag, fields2, fields3};
ghost use Rattle.asn1.specs.Structures.{fields8, fields16};
ghost use Rattle.asn1.specs.Tag.{universal};
ghost use Rattle.asn1.specs.Tagged.{application_tag, private_tag};
ghost use Rattle.asn1.specs.Writing.{GivesLength};

use super::page::ResponderId;
use asn1::alternatives::{
    Alternatives, AlternativesReadable, AsOneOf, ExplicitTag, ImplicitTag, OneOf2, OneOf3, OneOf9,
    read_choice,
};
use asn1::fields::{Field, Fields2, Fields3, Fields8, Fields16, Row};
use asn1::{
    ApplicationExplicit, ApplicationImplicit, Asn1Readable, Asn1Type, Asn1Writable, DefaultValue,
    Defaulted, Explicit, IA5String, Implicit, Null, Numbered, ParseResult, Parser, PrivateExplicit,
    PrivateImplicit, SequenceOf, SimpleAsn1Readable, SimpleAsn1Writable, Tag, TagClass,
    UniversalImplicit, WriteBuf, WriteError, WriteResult, Writer, choice_length, fields_length,
    known_choice, known_fields, known_number, read_fields, read_number, take_choice, write_choice,
    write_fields,
};
use std::alloc::Global;

/// How a search ended (RFC 4511, 4.1.9, some of its codes).
#[derive(Debug, Clone, Copy, PartialEq, Eq, Hash)]
pub enum ResultCode {
    /// The search found what there is.
    Success = 0,
    /// It took too long.
    TimeLimitExceeded = 3,
    /// The server has too much to do.
    Busy = 51,
    /// Any other reason.
    Other = 80,
}

impl Numbered for ResultCode {
    ghost use Rattle.derived_tests.specs.declared.tags.ResultCode.TheVariants.{Success, TimeLimitExceeded, Busy};
    ghost use Rattle.derived_tests.specs.declared.tags.ResultCode.TheVariants.{Other};

    ghost number_of = { elim [ Success ↦ 0 | TimeLimitExceeded ↦ 3 | Busy ↦ 51 | Other ↦ 80 ] };

    ghost numbers = { 0 ∷ 3 ∷ 51 ∷ 80 ∷ [] };

    ghost values = { Success ∷ TimeLimitExceeded ∷ Busy ∷ Other ∷ [] };

    fn number(self) -> u32 {
        self as u32
    }

    fn from_number(number: u32) -> Option<ResultCode> {
        match number {
            0 => Some(ResultCode::Success),
            3 => Some(ResultCode::TimeLimitExceeded),
            51 => Some(ResultCode::Busy),
            80 => Some(ResultCode::Other),
            _ => None,
        }
    }
}

impl Asn1Type for ResultCode {
    ghost der = { numbered (universal 10) ⟦<ResultCode as Numbered>⟧.number_of
        ⟦<ResultCode as Numbered>⟧.numbers };

    fn known(&self)
        ensures valid { (numbered (universal 10) ⟦<ResultCode as Numbered>⟧.number_of
            ⟦<ResultCode as Numbered>⟧.numbers).valid (pos (⟦<ResultCode as Numbered>⟧.number_of
            self.now)) }
        ensures fits { Fits (element_encoding (element (universal 10) (integer_content (pos
            (⟦<ResultCode as Numbered>⟧.number_of self.now))))) }
    {
        known_number(*self)
    }
}

impl<'a> SimpleAsn1Readable<'a> for ResultCode {
    fn tag() -> Tag {
        Tag::primitive(10)
    }

    fn parse_data(alloc: Global, data: &'a [u8]) -> ParseResult<ResultCode> {
        read_number(alloc, data)
    }
}

impl SimpleAsn1Writable for ResultCode {
    type Error = WriteError;

    ghost length_known = { λ _. Unit {0} };

    fn tag() -> Tag {
        Tag::primitive(10)
    }

    fn write_data(&self, dest: &mut WriteBuf) -> WriteResult<()> {
        self.number().write_data(dest)
    }

    fn data_length(&self) -> Option<usize> {
        self.number().data_length()
    }

    fn writes_as_read() -> bool {
        true
    }
}

/// INTEGER { v1(0), v2(1), v3(2) }, with these numbers alone.
#[derive(Clone, Copy, PartialEq)]
pub enum Version {
    /// This value.
    V1 = 0,
    /// This value.
    V2 = 1,
    /// This value.
    V3 = 2,
}

impl Numbered for Version {
    ghost use Rattle.derived_tests.specs.declared.tags.Version.TheVariants.{V1, V2, V3};

    ghost number_of = { elim [ V1 ↦ 0 | V2 ↦ 1 | V3 ↦ 2 ] };

    ghost numbers = { 0 ∷ 1 ∷ 2 ∷ [] };

    ghost values = { V1 ∷ V2 ∷ V3 ∷ [] };

    fn number(self) -> u32 {
        self as u32
    }

    fn from_number(number: u32) -> Option<Version> {
        match number {
            0 => Some(Version::V1),
            1 => Some(Version::V2),
            2 => Some(Version::V3),
            _ => None,
        }
    }
}

impl Asn1Type for Version {
    ghost der = { numbered (universal 2) ⟦<Version as Numbered>⟧.number_of
        ⟦<Version as Numbered>⟧.numbers };

    fn known(&self)
        ensures valid { (numbered (universal 2) ⟦<Version as Numbered>⟧.number_of
            ⟦<Version as Numbered>⟧.numbers).valid (pos (⟦<Version as Numbered>⟧.number_of
            self.now)) }
        ensures fits { Fits (element_encoding (element (universal 2) (integer_content (pos
            (⟦<Version as Numbered>⟧.number_of self.now))))) }
    {
        known_number(*self)
    }
}

impl<'a> SimpleAsn1Readable<'a> for Version {
    fn tag() -> Tag {
        Tag::primitive(2)
    }

    fn parse_data(alloc: Global, data: &'a [u8]) -> ParseResult<Version> {
        read_number(alloc, data)
    }
}

impl SimpleAsn1Writable for Version {
    type Error = WriteError;

    ghost length_known = { λ _. Unit {0} };

    fn tag() -> Tag {
        Tag::primitive(2)
    }

    fn write_data(&self, dest: &mut WriteBuf) -> WriteResult<()> {
        self.number().write_data(dest)
    }

    fn data_length(&self) -> Option<usize> {
        self.number().data_length()
    }

    fn writes_as_read() -> bool {
        true
    }
}

/// [PRIVATE 31] IMPLICIT ENUMERATED { off(0), on(1) }
#[derive(Clone, Copy, PartialEq)]
pub enum Switch {
    /// This value.
    Off = 0,
    /// This value.
    On = 1,
}

impl Numbered for Switch {
    ghost use Rattle.derived_tests.specs.declared.tags.Switch.TheVariants.{Off, On};

    ghost number_of = { elim [ Off ↦ 0 | On ↦ 1 ] };

    ghost numbers = { 0 ∷ 1 ∷ [] };

    ghost values = { Off ∷ On ∷ [] };

    fn number(self) -> u32 {
        self as u32
    }

    fn from_number(number: u32) -> Option<Switch> {
        match number {
            0 => Some(Switch::Off),
            1 => Some(Switch::On),
            _ => None,
        }
    }
}

impl Asn1Type for Switch {
    ghost der = { numbered (private_tag false 31) ⟦<Switch as Numbered>⟧.number_of
        ⟦<Switch as Numbered>⟧.numbers };

    fn known(&self)
        ensures valid { (numbered (private_tag false 31) ⟦<Switch as Numbered>⟧.number_of
            ⟦<Switch as Numbered>⟧.numbers).valid (pos (⟦<Switch as Numbered>⟧.number_of
            self.now)) }
        ensures fits { Fits (element_encoding (element (private_tag false 31) (integer_content (pos
            (⟦<Switch as Numbered>⟧.number_of self.now))))) }
    {
        known_number(*self)
    }
}

impl<'a> SimpleAsn1Readable<'a> for Switch {
    fn tag() -> Tag {
        Tag::new(31, TagClass::Private, false)
    }

    fn parse_data(alloc: Global, data: &'a [u8]) -> ParseResult<Switch> {
        read_number(alloc, data)
    }
}

impl SimpleAsn1Writable for Switch {
    type Error = WriteError;

    ghost length_known = { λ _. Unit {0} };

    fn tag() -> Tag {
        Tag::new(31, TagClass::Private, false)
    }

    fn write_data(&self, dest: &mut WriteBuf) -> WriteResult<()> {
        self.number().write_data(dest)
    }

    fn data_length(&self) -> Option<usize> {
        self.number().data_length()
    }

    fn writes_as_read() -> bool {
        true
    }
}

/// NumericString's tag on the characters of an IA5String.
pub type Numeric<'a> = UniversalImplicit<IA5String<'a>, 18>;

/// [APPLICATION 3] IMPLICIT SEQUENCE
#[derive(PartialEq, Drop)]
pub struct Report<'a> {
    /// How it ended.
    pub code: ResultCode,
    /// How often, under a tag in place of its own.
    pub count: Option<ApplicationImplicit<u8, 1>>,
    /// Who wrote it, under a tag around the string's own.
    pub by: PrivateExplicit<Numeric<'a>, 2>,
}

type ReportFields<'a> = Fields3<
    ResultCode,
    Option<ApplicationImplicit<u8, 1>>,
    PrivateExplicit<Numeric<'a>, 2>,
>;

impl<'a> Asn1Type for Report<'a> {
    ghost der = { structure_with_tag (application_tag true 3) (λ v. fields3 v.code v.count v.by)
        ⟦<ReportFields<'a> as Row>⟧.list (field_names "Report" ("code" ∷ "count" ∷ "by" ∷ [])) };

    fn known(&self) {
        known_fields!(self; code, count, by)
    }
}

impl<'a> SimpleAsn1Readable<'a> for Report<'a> {
    fn tag() -> Tag
        ensures value { result ≡ ⟦<Report<'a> as Asn1Type>⟧.der.content.tag }
        ensures simple { ⟦<Report<'a> as Asn1Type>⟧.der.is_simple }
        ensures plain { ⟦<Report<'a> as Asn1Type>⟧.der.plain }
        ensures read { ⟦<Report<'a> as Asn1Type>⟧.der.is_read }
    {
        Tag::new(3, TagClass::Application, true)
    }

    fn parse_data(alloc: Global, data: &'a [u8]) -> ParseResult<Report<'a>>
        ensures { ReadsContents ⟦<Report<'a> as Asn1Type>⟧.der «data».entry.now result }
    {
        read_fields!(ReportFields<'a>, alloc, data => Report; code, count, by)
    }
}

impl<'a> SimpleAsn1Writable for Report<'a> {
    type Error = WriteError;

    ghost length_known = { λ _. Unit {0} };

    fn tag() -> Tag
        ensures value { result ≡ ⟦<Report<'a> as Asn1Type>⟧.der.content.tag }
        ensures simple { ⟦<Report<'a> as Asn1Type>⟧.der.is_simple }
    {
        Tag::new(3, TagClass::Application, true)
    }

    fn write_data(&self, dest: &mut WriteBuf) -> WriteResult<()> {
        write_fields!(self, dest; code, count, by)
    }

    fn data_length(&self) -> Option<usize> {
        fields_length!(self; code, count, by)
    }

    fn writes_as_read() -> bool
        ensures { IsTrue result }
    {
        true
    }
}

/// [APPLICATION 4] EXPLICIT Report
pub type Sealed<'a> = ApplicationExplicit<Report<'a>, 4>;

/// A set, whose fields are in the order of their tags.
#[derive(PartialEq, Drop)]
pub struct Settings {
    /// The version.
    pub version: Version,
    /// The code.
    pub level: u8,
    /// Whether it is on.
    pub switch: Switch,
}

/// What `level` is if it is left out.
pub struct SettingsLevel;

impl DefaultValue<Implicit<u8, 0>> for SettingsLevel {
    ghost default = { record { inner = 7 } };

    fn value() -> Implicit<u8, 0> {
        Implicit::new(7)
    }
}

type SettingsLevelField = Defaulted<Implicit<u8, 0>, SettingsLevel>;

type SettingsFields = Fields3<Version, SettingsLevelField, Switch>;

impl Asn1Type for Settings {
    ghost der = { set_structure (λ v. fields3 v.version (defaulted (implicit v.level)) v.switch)
        ⟦<SettingsFields as Row>⟧.list (field_names "Settings" ("version" ∷ "level" ∷ "switch" ∷
        [])) };

    fn known(&self) {
        known_fields!(self; version, level: SettingsLevelField, switch)
    }
}

impl<'a> SimpleAsn1Readable<'a> for Settings {
    fn tag() -> Tag {
        Tag::constructed(0x11)
    }

    fn parse_data(alloc: Global, data: &'a [u8]) -> ParseResult<Settings> {
        read_fields!(SettingsFields, alloc, data => Settings;
            version, level: SettingsLevelField, switch)
    }
}

impl SimpleAsn1Writable for Settings {
    type Error = WriteError;

    ghost length_known = { λ _. Unit {0} };

    fn tag() -> Tag {
        Tag::constructed(0x11)
    }

    fn write_data(&self, dest: &mut WriteBuf) -> WriteResult<()> {
        write_fields!(self, dest; version, level: SettingsLevelField, switch)
    }

    fn data_length(&self) -> Option<usize> {
        fields_length!(self; version, level: SettingsLevelField, switch)
    }

    fn writes_as_read() -> bool {
        true
    }
}

/// [APPLICATION 5] IMPLICIT SET: a tag of the application in place of a set's own.
#[derive(PartialEq, Drop)]
pub struct Preferences<'a> {
    /// The code.
    pub code: Option<u8>,
    /// Octets.
    pub octets: &'a [u8],
    /// The version.
    pub version: Option<Version>,
}

type PreferencesVersionField = Option<Implicit<Version, 0>>;

type PreferencesFields<'a> = Fields3<Option<u8>, &'a [u8], PreferencesVersionField>;

impl<'a> Asn1Type for Preferences<'a> {
    ghost der = { set_structure_with_tag (application_tag true 5) (λ v. fields3 v.code v.octets
        (option_meaning implicit v.version)) ⟦<PreferencesFields<'a> as Row>⟧.list
        (field_names "Preferences" ("code" ∷ "octets" ∷ "version" ∷ [])) };

    fn known(&self) {
        known_fields!(self; code, octets, version: PreferencesVersionField)
    }
}

impl<'a> SimpleAsn1Readable<'a> for Preferences<'a> {
    fn tag() -> Tag
        ensures value { result ≡ ⟦<Preferences<'a> as Asn1Type>⟧.der.content.tag }
        ensures simple { ⟦<Preferences<'a> as Asn1Type>⟧.der.is_simple }
        ensures plain { ⟦<Preferences<'a> as Asn1Type>⟧.der.plain }
        ensures read { ⟦<Preferences<'a> as Asn1Type>⟧.der.is_read }
    {
        Tag::new(5, TagClass::Application, true)
    }

    fn parse_data(alloc: Global, data: &'a [u8]) -> ParseResult<Preferences<'a>>
        ensures { ReadsContents ⟦<Preferences<'a> as Asn1Type>⟧.der «data».entry.now result }
    {
        read_fields!(PreferencesFields<'a>, alloc, data => Preferences;
            code, octets, version: PreferencesVersionField)
    }
}

impl<'a> SimpleAsn1Writable for Preferences<'a> {
    type Error = WriteError;

    ghost length_known = { λ _. Unit {0} };

    fn tag() -> Tag
        ensures value { result ≡ ⟦<Preferences<'a> as Asn1Type>⟧.der.content.tag }
        ensures simple { ⟦<Preferences<'a> as Asn1Type>⟧.der.is_simple }
    {
        Tag::new(5, TagClass::Application, true)
    }

    fn write_data(&self, dest: &mut WriteBuf) -> WriteResult<()> {
        write_fields!(self, dest; code, octets, version: PreferencesVersionField)
    }

    fn data_length(&self) -> Option<usize> {
        fields_length!(self; code, octets, version: PreferencesVersionField)
    }

    fn writes_as_read() -> bool
        ensures { IsTrue result }
    {
        true
    }
}

type EntryChoice<'a> = OneOf3<Report<'a>, Explicit<Either<'a>, 1>, ApplicationImplicit<u16, 9>>;

type EntryValues<'a> = <EntryChoice<'a> as Alternatives>::Values;

/// A choice of a report, a choice under a tag, and a number under a tag of the application.
#[derive(PartialEq, Drop)]
pub enum Entry<'a> {
    /// A report.
    Report(Report<'a>),
    /// A choice, which has no tag of its own.
    Either(Explicit<Either<'a>, 1>),
    /// A number.
    Number(ApplicationImplicit<u16, 9>),
}

impl<'a> AsOneOf<EntryValues<'a>> for Entry<'a> {
    ghost use Rattle.derived_tests.specs.declared.tags.Entry.TheVariants.{Report, Either, Number};

    ghost seen = { elim [ Report x ↦ first3 x | Either x ↦ second3 x | Number x ↦ third3 x ] };

    fn from_one_of(value: EntryValues<'a>) -> Entry<'a>
        ensures { ⟦<Entry<'a> as AsOneOf<EntryValues<'a>>>⟧.seen result ≡ value.entry }
    {
        take_choice!(value; Entry(x); Report, Either, Number)
    }
}

impl<'a> Asn1Type for Entry<'a> {
    ghost der = { choice ⟦<Entry<'a> as AsOneOf<EntryValues<'a>>>⟧.seen
        ⟦<EntryChoice<'a> as Alternatives>⟧.list };

    fn known(&self) {
        known_choice!(self; Entry(x); Report, Either, Number)
    }
}

impl<'a> Asn1Readable<'a> for Entry<'a> {
    fn parse(parser: &mut Parser<'a>) -> ParseResult<Entry<'a>>
        ensures answers { ReadsPrefix ⟦<Entry<'a> as Asn1Type>⟧.der parser.old parser.new result }
        ensures found { IfOk result (λ v. BeginsWithEncodingOf ⟦<Entry<'a> as Asn1Type>⟧.der v
            parser.old parser.new) }
        ensures rest { EndsWith parser.old parser.new }
        ensures stops { OnErr result (⟦<Entry<'a> as Asn1Type>⟧.der.stops parser.old parser.new) }
    {
        read_choice::<EntryChoice<'a>, Entry<'a>>(parser)
    }

    fn can_parse(tag: Tag) -> bool
        ensures value { result ≡ ⟦<Entry<'a> as Asn1Type>⟧.der.accepts tag }
        ensures plain { ⟦<Entry<'a> as Asn1Type>⟧.der.plain }
        ensures read { ⟦<Entry<'a> as Asn1Type>⟧.der.is_read }
    {
        <EntryChoice<'a> as AlternativesReadable<'a>>::accepts(tag)
    }
}

impl<'a> Asn1Writable for Entry<'a> {
    type Error = WriteError;

    ghost length_known = { λ _. Unit {0} };

    fn write(&self, dest: &mut Writer<'_>) -> WriteResult<()> {
        write_choice!(self, dest; Entry(x); Report, Either, Number)
    }

    fn encoded_length(&self) -> Option<usize> {
        choice_length!(self; Entry(x); Report, Either, Number)
    }

    fn writes_as_read() -> bool
        ensures { IsTrue result }
    {
        true
    }
}

type EitherChoice<'a> = OneOf2<&'a [u8], Null>;

type EitherValues<'a> = <EitherChoice<'a> as Alternatives>::Values;

/// Octets, or none.
#[derive(PartialEq, Drop)]
pub enum Either<'a> {
    /// Octets.
    Octets(&'a [u8]),
    /// None.
    None(Null),
}

impl<'a> AsOneOf<EitherValues<'a>> for Either<'a> {
    ghost use Rattle.derived_tests.specs.declared.tags.Either.TheVariants.{Octets, None};

    ghost seen = { elim [ Octets x ↦ first1 x | None x ↦ after1 (first1 x) ] };

    fn from_one_of(value: EitherValues<'a>) -> Either<'a>
        ensures { ⟦<Either<'a> as AsOneOf<EitherValues<'a>>>⟧.seen result ≡ value.entry }
    {
        take_choice!(value; Either(x); Octets, None)
    }
}

impl<'a> Asn1Type for Either<'a> {
    ghost der = { choice ⟦<Either<'a> as AsOneOf<EitherValues<'a>>>⟧.seen
        ⟦<EitherChoice<'a> as Alternatives>⟧.list };

    fn known(&self) {
        known_choice!(self; Either(x); Octets, None)
    }
}

impl<'a> Asn1Readable<'a> for Either<'a> {
    fn parse(parser: &mut Parser<'a>) -> ParseResult<Either<'a>>
        ensures answers { ReadsPrefix ⟦<Either<'a> as Asn1Type>⟧.der parser.old parser.new result }
        ensures found { IfOk result (λ v. BeginsWithEncodingOf ⟦<Either<'a> as Asn1Type>⟧.der v
            parser.old parser.new) }
        ensures rest { EndsWith parser.old parser.new }
        ensures stops { OnErr result (⟦<Either<'a> as Asn1Type>⟧.der.stops parser.old parser.new) }
    {
        read_choice::<EitherChoice<'a>, Either<'a>>(parser)
    }

    fn can_parse(tag: Tag) -> bool
        ensures value { result ≡ ⟦<Either<'a> as Asn1Type>⟧.der.accepts tag }
        ensures plain { ⟦<Either<'a> as Asn1Type>⟧.der.plain }
        ensures read { ⟦<Either<'a> as Asn1Type>⟧.der.is_read }
    {
        <EitherChoice<'a> as AlternativesReadable<'a>>::accepts(tag)
    }
}

impl<'a> Asn1Writable for Either<'a> {
    type Error = WriteError;

    ghost length_known = { λ _. Unit {0} };

    fn write(&self, dest: &mut Writer<'_>) -> WriteResult<()> {
        write_choice!(self, dest; Either(x); Octets, None)
    }

    fn encoded_length(&self) -> Option<usize>
        ensures length { GivesLength (Unit {0})
            (⟦<Either<'a> as Asn1Type>⟧.der.encodings
            (⟦<Either<'a> as Asn1Type>⟧.der.meaning self.now)) result }
        ensures exact { IsLengthOf ⟦<Either<'a> as Asn1Type>⟧.der self.now result }
    {
        choice_length!(self; Either(x); Octets, None)
    }

    fn writes_as_read() -> bool
        ensures { IsTrue result }
    {
        true
    }
}

type NineChoice<'a> = OneOf9<
    ImplicitTag<u8, 0>,
    ImplicitTag<u8, 1>,
    ImplicitTag<u8, 2>,
    ExplicitTag<u8, 3>,
    ApplicationImplicit<u8, 4>,
    PrivateImplicit<u8, 5>,
    ResultCode,
    Either<'a>,
    bool,
>;

type NineValues<'a> = <NineChoice<'a> as Alternatives>::Values;

macro_rules! variants_of_nine {
    ($body:ident, $($of:tt)*) => { $body!($($of)*; Nine(x);
        First: implicit 0, Second: implicit 1, Third: implicit 2, Fourth: explicit 3, Fifth, Sixth,
        Code, Either, Flag) };
}

/// Nine alternatives, of which one is a choice without a tag of its own.
#[derive(Drop)]
pub enum Nine<'a> {
    /// A number.
    First(u8),
    /// Another.
    Second(u8),
    /// Another.
    Third(u8),
    /// Another.
    Fourth(u8),
    /// Another.
    Fifth(ApplicationImplicit<u8, 4>),
    /// Another.
    Sixth(PrivateImplicit<u8, 5>),
    /// A code.
    Code(ResultCode),
    /// Octets or none.
    Either(Either<'a>),
    /// Whether.
    Flag(bool),
}

impl<'a> AsOneOf<NineValues<'a>> for Nine<'a> {
    ghost use Rattle.derived_tests.specs.declared.tags.Nine.TheVariants.{First, Second, Third, Fourth, Fifth, Sixth};
    ghost use Rattle.derived_tests.specs.declared.tags.Nine.TheVariants.{Code, Either, Flag};

    ghost seen = { elim [
      | First x ↦ first8 x
      | Second x ↦ second8 x
      | Third x ↦ third8 x
      | Fourth x ↦ fourth8 x
      | Fifth x ↦ fifth8 x
      | Sixth x ↦ sixth8 x
      | Code x ↦ seventh8 x
      | Either x ↦ eighth8 x
      | Flag x ↦ after8 (first1 x)
    ] };

    fn from_one_of(value: NineValues<'a>) -> Nine<'a>
        ensures { ⟦<Nine<'a> as AsOneOf<NineValues<'a>>>⟧.seen result ≡ value.entry }
    {
        variants_of_nine!(take_choice, value)
    }
}

impl<'a> Asn1Type for Nine<'a> {
    ghost der = { choice ⟦<Nine<'a> as AsOneOf<NineValues<'a>>>⟧.seen
        ⟦<NineChoice<'a> as Alternatives>⟧.list };

    fn known(&self) {
        variants_of_nine!(known_choice, self)
    }
}

impl<'a> Asn1Readable<'a> for Nine<'a> {
    fn parse(parser: &mut Parser<'a>) -> ParseResult<Nine<'a>>
        ensures answers { ReadsPrefix ⟦<Nine<'a> as Asn1Type>⟧.der parser.old parser.new result }
        ensures found { IfOk result (λ v. BeginsWithEncodingOf ⟦<Nine<'a> as Asn1Type>⟧.der v
            parser.old parser.new) }
        ensures rest { EndsWith parser.old parser.new }
        ensures stops { OnErr result (⟦<Nine<'a> as Asn1Type>⟧.der.stops parser.old parser.new) }
    {
        read_choice::<NineChoice<'a>, Nine<'a>>(parser)
    }

    fn can_parse(tag: Tag) -> bool
        ensures value { result ≡ ⟦<Nine<'a> as Asn1Type>⟧.der.accepts tag }
        ensures plain { ⟦<Nine<'a> as Asn1Type>⟧.der.plain }
        ensures read { ⟦<Nine<'a> as Asn1Type>⟧.der.is_read }
    {
        <NineChoice<'a> as AlternativesReadable<'a>>::accepts(tag)
    }
}

impl<'a> Asn1Writable for Nine<'a> {
    type Error = WriteError;

    ghost length_known = { λ _. Unit {0} };

    fn write(&self, dest: &mut Writer<'_>) -> WriteResult<()> {
        variants_of_nine!(write_choice, self, dest)
    }

    fn encoded_length(&self) -> Option<usize> {
        variants_of_nine!(choice_length, self)
    }

    fn writes_as_read() -> bool
        ensures { IsTrue result }
    {
        true
    }
}

type BothChoice<'a> = OneOf2<Either<'a>, ResponderId<'a>>;

type BothValues<'a> = <BothChoice<'a> as Alternatives>::Values;

/// Two choices without a tag of their own, of which one is declared elsewhere.
#[derive(Drop)]
pub enum Both<'a> {
    /// Octets or none.
    Either(Either<'a>),
    /// Who answers.
    Responder(ResponderId<'a>),
}

impl<'a> AsOneOf<BothValues<'a>> for Both<'a> {
    ghost use Rattle.derived_tests.specs.declared.tags.Both.TheVariants.{Either, Responder};

    ghost seen = { elim [ Either x ↦ first1 x | Responder x ↦ after1 (first1 x) ] };

    fn from_one_of(value: BothValues<'a>) -> Both<'a>
        ensures { ⟦<Both<'a> as AsOneOf<BothValues<'a>>>⟧.seen result ≡ value.entry }
    {
        take_choice!(value; Both(x); Either, Responder)
    }
}

impl<'a> Asn1Type for Both<'a> {
    ghost der = { choice ⟦<Both<'a> as AsOneOf<BothValues<'a>>>⟧.seen
        ⟦<BothChoice<'a> as Alternatives>⟧.list };

    fn known(&self) {
        known_choice!(self; Both(x); Either, Responder)
    }
}

impl<'a> Asn1Readable<'a> for Both<'a> {
    fn parse(parser: &mut Parser<'a>) -> ParseResult<Both<'a>>
        ensures answers { ReadsPrefix ⟦<Both<'a> as Asn1Type>⟧.der parser.old parser.new result }
        ensures found { IfOk result (λ v. BeginsWithEncodingOf ⟦<Both<'a> as Asn1Type>⟧.der v
            parser.old parser.new) }
        ensures rest { EndsWith parser.old parser.new }
        ensures stops { OnErr result (⟦<Both<'a> as Asn1Type>⟧.der.stops parser.old parser.new) }
    {
        read_choice::<BothChoice<'a>, Both<'a>>(parser)
    }

    fn can_parse(tag: Tag) -> bool
        ensures value { result ≡ ⟦<Both<'a> as Asn1Type>⟧.der.accepts tag }
        ensures plain { ⟦<Both<'a> as Asn1Type>⟧.der.plain }
        ensures read { ⟦<Both<'a> as Asn1Type>⟧.der.is_read }
    {
        <BothChoice<'a> as AlternativesReadable<'a>>::accepts(tag)
    }
}

impl<'a> Asn1Writable for Both<'a> {
    type Error = WriteError;

    ghost use Rattle.derived_tests.specs.declared.tags.Both.TheVariants.{Either, Responder};

    ghost length_known = { elim [
      | Either x ↦ Unit {0}
      | Responder x ↦ ⟦<ResponderId<'a> as Asn1Writable>⟧.length_known x
    ] };

    fn write(&self, dest: &mut Writer<'_>) -> WriteResult<()> {
        write_choice!(self, dest; Both(x); Either, Responder)
    }

    fn encoded_length(&self) -> Option<usize> {
        choice_length!(self; Both(x); Either, Responder)
    }

    fn writes_as_read() -> bool
        ensures { IsTrue result }
    {
        true
    }
}

/// What may be missing behind a choice, with choices among it.
#[derive(PartialEq, Drop)]
pub struct Header<'a> {
    /// Octets or none.
    pub by: Either<'a>,
    /// A number.
    pub number: Option<u8>,
    /// A code.
    pub code: Option<ResultCode>,
    /// A choice.
    pub entry: Option<Entry<'a>>,
    /// Octets.
    pub octets: Option<&'a [u8]>,
    /// A report.
    pub report: Option<Report<'a>>,
    /// Whether.
    pub flag: Option<bool>,
    /// Who answers.
    pub responder: Option<ResponderId<'a>>,
}

type HeaderNumberField = Option<Explicit<u8, 0>>;

type HeaderCodeField = Option<Explicit<ResultCode, 1>>;

type HeaderEntryField<'a> = Option<Explicit<Entry<'a>, 2>>;

type HeaderOctetsField<'a> = Option<Implicit<&'a [u8], 3>>;

type HeaderReportField<'a> = Option<Explicit<Report<'a>, 4>>;

type HeaderFlagField = Option<Implicit<bool, 5>>;

type HeaderResponderField<'a> = Option<Explicit<ResponderId<'a>, 6>>;

type HeaderFields<'a> = Fields8<
    Either<'a>,
    HeaderNumberField,
    HeaderCodeField,
    HeaderEntryField<'a>,
    HeaderOctetsField<'a>,
    HeaderReportField<'a>,
    HeaderFlagField,
    HeaderResponderField<'a>,
>;

macro_rules! fields_of_header {
    ($body:ident, $($of:tt)*) => { $body!($($of)*;
        by, number: HeaderNumberField, code: HeaderCodeField, entry: HeaderEntryField<'a>,
        octets: HeaderOctetsField<'a>, report: HeaderReportField<'a>, flag: HeaderFlagField,
        responder: HeaderResponderField<'a>) };
}

impl<'a> Asn1Type for Header<'a> {
    ghost der = { structure (λ v. fields8 v.by (option_meaning explicit v.number) (option_meaning
        explicit v.code) (option_meaning explicit v.entry) (option_meaning implicit v.octets)
        (option_meaning explicit v.report) (option_meaning implicit v.flag) (option_meaning explicit
        v.responder)) ⟦<HeaderFields<'a> as Row>⟧.list (field_names "Header" ("by" ∷ "number" ∷
        "code" ∷ "entry" ∷ "octets" ∷ "report" ∷ "flag" ∷ "responder" ∷ [])) };

    fn known(&self) {
        fields_of_header!(known_fields, self)
    }
}

impl<'a> SimpleAsn1Readable<'a> for Header<'a> {
    fn tag() -> Tag
        ensures value { result ≡ ⟦<Header<'a> as Asn1Type>⟧.der.content.tag }
        ensures simple { ⟦<Header<'a> as Asn1Type>⟧.der.is_simple }
        ensures plain { ⟦<Header<'a> as Asn1Type>⟧.der.plain }
        ensures read { ⟦<Header<'a> as Asn1Type>⟧.der.is_read }
    {
        Tag::constructed(0x10)
    }

    fn parse_data(alloc: Global, data: &'a [u8]) -> ParseResult<Header<'a>>
        ensures { ReadsContents ⟦<Header<'a> as Asn1Type>⟧.der «data».entry.now result }
    {
        fields_of_header!(read_fields, HeaderFields<'a>, alloc, data => Header)
    }
}

impl<'a> SimpleAsn1Writable for Header<'a> {
    type Error = WriteError;

    ghost length_known = { λ v.
        ⟦<Option<Explicit<ResponderId<'a>, 6>> as Asn1Writable>⟧.length_known (option_meaning
        explicit v.responder) };

    fn tag() -> Tag
        ensures value { result ≡ ⟦<Header<'a> as Asn1Type>⟧.der.content.tag }
        ensures simple { ⟦<Header<'a> as Asn1Type>⟧.der.is_simple }
    {
        Tag::constructed(0x10)
    }

    fn write_data(&self, dest: &mut WriteBuf) -> WriteResult<()> {
        fields_of_header!(write_fields, self, dest)
    }

    fn data_length(&self) -> Option<usize> {
        fields_of_header!(fields_length, self)
    }

    fn writes_as_read() -> bool
        ensures { IsTrue result }
    {
        true
    }
}

/// Twenty fields in a row that may be missing, and a choice without a tag before them.
#[derive(Drop)]
pub struct Inventory<'a> {
    /// Octets or none.
    pub by: Option<Either<'a>>,
    /// A number.
    pub number: Option<u8>,
    /// A choice.
    pub entry: Option<Entry<'a>>,
    /// A report.
    pub report: Option<Report<'a>>,
    /// Octets or none.
    pub either: Option<Either<'a>>,
    /// A code.
    pub code: Option<ResultCode>,
    /// Octets.
    pub octets: Option<&'a [u8]>,
    /// Whether.
    pub flag: Option<bool>,
    /// Who answers.
    pub responder: Option<ResponderId<'a>>,
    /// Reports.
    pub reports: Option<SequenceOf<'a, Report<'a>, 0, { usize::MAX }>>,
    /// A set.
    pub settings: Option<Settings>,
    /// A version.
    pub version: Option<Version>,
    /// Whether it is on.
    pub switch: Option<Switch>,
    /// A choice.
    pub second_entry: Option<Entry<'a>>,
    /// A report.
    pub second_report: Option<Report<'a>>,
    /// Octets or none.
    pub second_either: Option<Either<'a>>,
    /// A code.
    pub second_code: Option<ResultCode>,
    /// Octets.
    pub second_octets: Option<&'a [u8]>,
    /// Whether.
    pub second_flag: Option<bool>,
    /// Who answers.
    pub second_responder: Option<ResponderId<'a>>,
    /// A sealed report.
    pub sealed: Option<Sealed<'a>>,
}

type InventoryNumberField = Option<Explicit<u8, 0>>;

type InventoryEntryField<'a> = Option<Explicit<Entry<'a>, 1>>;

type InventoryReportField<'a> = Option<Implicit<Report<'a>, 2>>;

type InventoryEitherField<'a> = Option<Explicit<Either<'a>, 3>>;

type InventoryCodeField = Option<Explicit<ResultCode, 4>>;

type InventoryOctetsField<'a> = Option<Implicit<&'a [u8], 5>>;

type InventoryFlagField = Option<Implicit<bool, 6>>;

type InventoryResponderField<'a> = Option<Explicit<ResponderId<'a>, 7>>;

type InventoryReportsField<'a> = Option<Implicit<SequenceOf<'a, Report<'a>, 0, { usize::MAX }>, 8>>;

type InventorySettingsField = Option<Implicit<Settings, 9>>;

type InventoryVersionField = Option<Implicit<Version, 10>>;

type InventorySwitchField = Option<Explicit<Switch, 11>>;

type InventorySecondEntryField<'a> = Option<Explicit<Entry<'a>, 12>>;

type InventorySecondReportField<'a> = Option<Explicit<Report<'a>, 13>>;

type InventorySecondEitherField<'a> = Option<Explicit<Either<'a>, 14>>;

type InventorySecondCodeField = Option<Implicit<ResultCode, 15>>;

type InventorySecondOctetsField<'a> = Option<Explicit<&'a [u8], 16>>;

type InventorySecondFlagField = Option<Explicit<bool, 17>>;

type InventorySecondResponderField<'a> = Option<Explicit<ResponderId<'a>, 18>>;

type InventorySealedField<'a> = Option<Explicit<Sealed<'a>, 19>>;

type InventoryFields<'a> = Field<
    Option<Either<'a>>,
    Field<
        InventoryNumberField,
        Field<
            InventoryEntryField<'a>,
            Field<
                InventoryReportField<'a>,
                Field<
                    InventoryEitherField<'a>,
                    Fields16<
                        InventoryCodeField,
                        InventoryOctetsField<'a>,
                        InventoryFlagField,
                        InventoryResponderField<'a>,
                        InventoryReportsField<'a>,
                        InventorySettingsField,
                        InventoryVersionField,
                        InventorySwitchField,
                        InventorySecondEntryField<'a>,
                        InventorySecondReportField<'a>,
                        InventorySecondEitherField<'a>,
                        InventorySecondCodeField,
                        InventorySecondOctetsField<'a>,
                        InventorySecondFlagField,
                        InventorySecondResponderField<'a>,
                        InventorySealedField<'a>,
                    >,
                >,
            >,
        >,
    >,
>;

macro_rules! fields_of_inventory {
    ($body:ident, $($of:tt)*) => { $body!($($of)*;
        by, number: InventoryNumberField, entry: InventoryEntryField<'a>,
        report: InventoryReportField<'a>, either: InventoryEitherField<'a>,
        code: InventoryCodeField, octets: InventoryOctetsField<'a>, flag: InventoryFlagField,
        responder: InventoryResponderField<'a>, reports: InventoryReportsField<'a>,
        settings: InventorySettingsField, version: InventoryVersionField,
        switch: InventorySwitchField, second_entry: InventorySecondEntryField<'a>,
        second_report: InventorySecondReportField<'a>,
        second_either: InventorySecondEitherField<'a>, second_code: InventorySecondCodeField,
        second_octets: InventorySecondOctetsField<'a>, second_flag: InventorySecondFlagField,
        second_responder: InventorySecondResponderField<'a>, sealed: InventorySealedField<'a>) };
}

impl<'a> Asn1Type for Inventory<'a> {
    ghost der = { structure (λ v. record {
      value = v.by;
      rest = record {
        value = option_meaning explicit v.number;
        rest = record {
          value = option_meaning explicit v.entry;
          rest = record {
            value = option_meaning implicit v.report;
            rest = record {
              value = option_meaning explicit v.either;
              rest = fields16 (option_meaning explicit v.code) (option_meaning implicit v.octets)
                  (option_meaning implicit v.flag) (option_meaning explicit v.responder)
                  (option_meaning implicit v.reports) (option_meaning implicit v.settings)
                  (option_meaning implicit v.version) (option_meaning explicit v.switch)
                  (option_meaning explicit v.second_entry) (option_meaning explicit v.second_report)
                  (option_meaning explicit v.second_either) (option_meaning implicit v.second_code)
                  (option_meaning explicit v.second_octets) (option_meaning explicit v.second_flag)
                  (option_meaning explicit v.second_responder) (option_meaning explicit v.sealed);
            };
          };
        };
      };
    }) ⟦<InventoryFields<'a> as Row>⟧.list (field_names "Inventory" ("by" ∷ "number" ∷
        "entry" ∷ "report" ∷ "either" ∷ "code" ∷ "octets" ∷ "flag" ∷ "responder" ∷
        "reports" ∷ "settings" ∷ "version" ∷ "switch" ∷ "second_entry" ∷ "second_report"
        ∷ "second_either" ∷ "second_code" ∷ "second_octets" ∷ "second_flag" ∷
        "second_responder" ∷ "sealed" ∷ [])) };

    fn known(&self) {
        fields_of_inventory!(known_fields, self)
    }
}

impl<'a> SimpleAsn1Readable<'a> for Inventory<'a> {
    fn tag() -> Tag
        ensures value { result ≡ ⟦<Inventory<'a> as Asn1Type>⟧.der.content.tag }
        ensures simple { ⟦<Inventory<'a> as Asn1Type>⟧.der.is_simple }
        ensures plain { ⟦<Inventory<'a> as Asn1Type>⟧.der.plain }
        ensures read { ⟦<Inventory<'a> as Asn1Type>⟧.der.is_read }
    {
        Tag::constructed(0x10)
    }

    fn parse_data(alloc: Global, data: &'a [u8]) -> ParseResult<Inventory<'a>>
        ensures { ReadsContents ⟦<Inventory<'a> as Asn1Type>⟧.der «data».entry.now result }
    {
        fields_of_inventory!(read_fields, InventoryFields<'a>, alloc, data => Inventory)
    }
}

impl<'a> SimpleAsn1Writable for Inventory<'a> {
    type Error = WriteError;

    ghost length_known = { λ v.
        ⟦<Option<Explicit<ResponderId<'a>, 7>> as Asn1Writable>⟧.length_known (option_meaning
        explicit v.responder) ×
        ⟦<Option<Explicit<ResponderId<'a>, 18>> as Asn1Writable>⟧.length_known (option_meaning
        explicit v.second_responder) };

    fn tag() -> Tag
        ensures value { result ≡ ⟦<Inventory<'a> as Asn1Type>⟧.der.content.tag }
        ensures simple { ⟦<Inventory<'a> as Asn1Type>⟧.der.is_simple }
    {
        Tag::constructed(0x10)
    }

    fn write_data(&self, dest: &mut WriteBuf) -> WriteResult<()> {
        fields_of_inventory!(write_fields, self, dest)
    }

    fn data_length(&self) -> Option<usize> {
        fields_of_inventory!(fields_length, self)
    }

    fn writes_as_read() -> bool
        ensures { IsTrue result }
    {
        true
    }
}

/// Two choices without a tag of their own that may be missing, of which one is declared elsewhere.
#[derive(Drop)]
pub struct Neither<'a> {
    /// Octets or none.
    pub either: Option<Either<'a>>,
    /// Who answers.
    pub responder: Option<ResponderId<'a>>,
}

type NeitherFields<'a> = Fields2<Option<Either<'a>>, Option<ResponderId<'a>>>;

impl<'a> Asn1Type for Neither<'a> {
    ghost der = { structure (λ v. fields2 v.either v.responder) ⟦<NeitherFields<'a> as Row>⟧.list
        (field_names "Neither" ("either" ∷ "responder" ∷ [])) };

    fn known(&self) {
        known_fields!(self; either, responder)
    }
}

impl<'a> SimpleAsn1Readable<'a> for Neither<'a> {
    fn tag() -> Tag
        ensures value { result ≡ ⟦<Neither<'a> as Asn1Type>⟧.der.content.tag }
        ensures simple { ⟦<Neither<'a> as Asn1Type>⟧.der.is_simple }
        ensures plain { ⟦<Neither<'a> as Asn1Type>⟧.der.plain }
        ensures read { ⟦<Neither<'a> as Asn1Type>⟧.der.is_read }
    {
        Tag::constructed(0x10)
    }

    fn parse_data(alloc: Global, data: &'a [u8]) -> ParseResult<Neither<'a>>
        ensures { ReadsContents ⟦<Neither<'a> as Asn1Type>⟧.der «data».entry.now result }
    {
        read_fields!(NeitherFields<'a>, alloc, data => Neither; either, responder)
    }
}

impl<'a> SimpleAsn1Writable for Neither<'a> {
    type Error = WriteError;

    ghost length_known = { λ v. ⟦<Option<ResponderId<'a>> as Asn1Writable>⟧.length_known
        v.responder };

    fn tag() -> Tag
        ensures value { result ≡ ⟦<Neither<'a> as Asn1Type>⟧.der.content.tag }
        ensures simple { ⟦<Neither<'a> as Asn1Type>⟧.der.is_simple }
    {
        Tag::constructed(0x10)
    }

    fn write_data(&self, dest: &mut WriteBuf) -> WriteResult<()> {
        write_fields!(self, dest; either, responder)
    }

    fn data_length(&self) -> Option<usize> {
        fields_length!(self; either, responder)
    }

    fn writes_as_read() -> bool
        ensures { IsTrue result }
    {
        true
    }
}

/// A field that may be missing, and another with its tag, behind one that is always there.
#[derive(Debug, Clone, Copy, PartialEq)]
pub struct Around {
    /// A number.
    pub before: Option<u8>,
    /// Whether.
    pub flag: bool,
    /// Another number.
    pub after: Option<u8>,
}

type AroundBeforeField = Option<Implicit<u8, 0>>;

type AroundAfterField = Option<Implicit<u8, 0>>;

type AroundFields = Fields3<AroundBeforeField, bool, AroundAfterField>;

impl Asn1Type for Around {
    ghost der = { structure (λ v. fields3 (option_meaning implicit v.before) v.flag (option_meaning
        implicit v.after)) ⟦<AroundFields as Row>⟧.list (field_names "Around" ("before" ∷ "flag" ∷
        "after" ∷ [])) };

    fn known(&self) {
        known_fields!(self; before: AroundBeforeField, flag, after: AroundAfterField)
    }
}

impl<'a> SimpleAsn1Readable<'a> for Around {
    fn tag() -> Tag {
        Tag::constructed(0x10)
    }

    fn parse_data(alloc: Global, data: &'a [u8]) -> ParseResult<Around> {
        read_fields!(AroundFields, alloc, data => Around;
            before: AroundBeforeField, flag, after: AroundAfterField)
    }
}

impl SimpleAsn1Writable for Around {
    type Error = WriteError;

    ghost length_known = { λ _. Unit {0} };

    fn tag() -> Tag {
        Tag::constructed(0x10)
    }

    fn write_data(&self, dest: &mut WriteBuf) -> WriteResult<()> {
        write_fields!(self, dest; before: AroundBeforeField, flag, after: AroundAfterField)
    }

    fn data_length(&self) -> Option<usize> {
        fields_length!(self; before: AroundBeforeField, flag, after: AroundAfterField)
    }

    fn writes_as_read() -> bool {
        true
    }
}

/// The laws of the types, which do nothing.
pub mod laws {
    use super::{
        Around, Both, BothChoice, Either, EitherChoice, Entry, EntryChoice, Header, Inventory,
        Neither, Nine, NineChoice, Numeric, Preferences, Report, ResponderId, ResultCode, Sealed,
        Settings, Switch, Version,
    };
    use asn1::Asn1Type;
    use asn1::laws_wrappers::{alternatives_apart_are_lawful, tags_are_apart};

    /// Each value of `ResultCode` has one encoding, which is read back.
    pub fn result_code_is_lawful()
        ensures { HasOneEncoding ⟦<ResultCode as Asn1Type>⟧.der }
    {}

    /// Each value of `Version` has one encoding, which is read back.
    pub fn version_is_lawful()
        ensures { HasOneEncoding ⟦<Version as Asn1Type>⟧.der }
    {}

    /// Each value of `Switch` has one encoding, which is read back.
    pub fn switch_is_lawful()
        ensures { HasOneEncoding ⟦<Switch as Asn1Type>⟧.der }
    {}

    /// Each value of `Numeric` has one encoding, which is read back.
    pub fn numeric_is_lawful()
        ensures { HasOneEncoding ⟦<Numeric<'static> as Asn1Type>⟧.der }
    {}

    /// Each value of `Report` has one encoding, which is read back.
    pub fn report_is_lawful()
        ensures { HasOneEncoding ⟦<Report<'static> as Asn1Type>⟧.der }
    {
        result_code_is_lawful();
        numeric_is_lawful();
    }

    /// Each value of `Sealed` has one encoding, which is read back.
    pub fn sealed_is_lawful()
        ensures { HasOneEncoding ⟦<Sealed<'static> as Asn1Type>⟧.der }
    {
        report_is_lawful();
    }

    /// Each value of `Settings` has one encoding, which is read back.
    pub fn settings_is_lawful()
        ensures { HasOneEncoding ⟦<Settings as Asn1Type>⟧.der }
    {
        version_is_lawful();
        switch_is_lawful();
    }

    /// Each value of `Preferences` has one encoding, which is read back.
    pub fn preferences_is_lawful()
        ensures { HasOneEncoding ⟦<Preferences<'static> as Asn1Type>⟧.der }
    {
        version_is_lawful();
    }

    /// Each value of `Entry` has one encoding, which is read back.
    pub fn entry_is_lawful()
        ensures { HasOneEncoding ⟦<Entry<'static> as Asn1Type>⟧.der }
    {
        report_is_lawful();
        either_is_lawful();
        alternatives_apart_are_lawful::<EntryChoice<'static>>();
    }

    /// Each value of `Either` has one encoding, which is read back.
    pub fn either_is_lawful()
        ensures { HasOneEncoding ⟦<Either<'static> as Asn1Type>⟧.der }
    {
        alternatives_apart_are_lawful::<EitherChoice<'static>>();
    }

    /// Each value of `Nine` has one encoding, which is read back.
    pub fn nine_is_lawful()
        ensures { HasOneEncoding ⟦<Nine<'static> as Asn1Type>⟧.der }
    {
        result_code_is_lawful();
        either_is_lawful();
        alternatives_apart_are_lawful::<NineChoice<'static>>();
    }

    /// Each value of `Both` has one encoding, which is read back.
    #[tactic(auto, using(asn1::specs::Lemmas::Fields::tags_differ))]
    pub fn both_is_lawful()
        ensures { HasOneEncoding ⟦<Both<'static> as Asn1Type>⟧.der }
    {
        either_is_lawful();
        super::super::page::laws::responder_id_is_lawful();
        tags_are_apart::<Either<'static>, ResponderId<'static>>();
        alternatives_apart_are_lawful::<BothChoice<'static>>();
    }

    /// Each value of `Header` has one encoding, which is read back.
    pub fn header_is_lawful()
        ensures { HasOneEncoding ⟦<Header<'static> as Asn1Type>⟧.der }
    {
        either_is_lawful();
        result_code_is_lawful();
        entry_is_lawful();
        report_is_lawful();
        super::super::page::laws::responder_id_is_lawful();
    }

    /// Each value of `Inventory` has one encoding, which is read back.
    #[tactic(auto, using(asn1::specs::Lemmas::Fields::tags_differ))]
    pub fn inventory_is_lawful()
        ensures { HasOneEncoding ⟦<Inventory<'static> as Asn1Type>⟧.der }
    {
        either_is_lawful();
        entry_is_lawful();
        report_is_lawful();
        result_code_is_lawful();
        super::super::page::laws::responder_id_is_lawful();
        settings_is_lawful();
        version_is_lawful();
        switch_is_lawful();
        sealed_is_lawful();
    }

    /// Each value of `Neither` has one encoding, which is read back.
    #[tactic(auto, using(asn1::specs::Lemmas::Fields::tags_differ))]
    pub fn neither_is_lawful()
        ensures { HasOneEncoding ⟦<Neither<'static> as Asn1Type>⟧.der }
    {
        either_is_lawful();
        super::super::page::laws::responder_id_is_lawful();
    }

    /// Each value of `Around` has one encoding, which is read back.
    #[tactic(auto, using(asn1::specs::Lemmas::Fields::tags_differ))]
    pub fn around_is_lawful()
        ensures { HasOneEncoding ⟦<Around as Asn1Type>⟧.der }
    {}
}
