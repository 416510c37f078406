//! Lines of text, and how values of the simple types are shown.

ghost use Rattle.std.specs.Prelude.{IfErr};
ghost use Rattle.std.specs.Iterator.{IsFinite};
ghost use Rattle.pkix_text.specs.Program.{IsMemoryOrWrite};

use crate::answers::Fault;
use crate::errors::{in_words, push_part};
use crate::identifiers::name_of;
use asn1::{
    Asn1Readable, Asn1Type, BMPString, BigInt, BigUint, BitString, DateTime, GeneralizedTime,
    IA5String, Null, ObjectIdentifier, ParseError, ParseErrorKind, ParseResult, PrintableString,
    SequenceOf, SetOf, Tag, Tlv, UniversalString, UtcTime, Utf8String, VisibleString,
    X509GeneralizedTime, parse_single,
};
use pkix::common::{NamedBits, Time};
use std::alloc::{AllocError, Global};
use std::char::decode_utf16;
use std::io::{Stdout, Write};
use std::mem;

/// Appends the lines of fields of a structure, each at its name, as `fields!(lines, self, Validity: not_before,
/// not_after)`; a field is shown as another value as `reasons = value`.
macro_rules! fields {
    ($lines:expr, $of:expr, $type:ident: $($name:ident $(= $value:expr)?),+ $(,)?) => {{
        $($lines.part(
            concat!(stringify!($type), "::", stringify!($name)),
            fields!(@ $of, $name $(, $value)?),
        );)+
    }};
    (@ $of:expr, $name:ident) => { &$of.$name };
    (@ $of:expr, $name:ident, $value:expr) => { $value };
}

pub(crate) use fields;

/// What is shown as lines of text.
pub(crate) trait Show {
    /// Appends the lines of the value.
    fn show(&self, lines: &mut Lines);
}

/// Where the lines of an object are written, and the line that comes before them, if any.
#[derive(Clone, Copy)]
pub struct Page<'a> {
    /// Standard output.
    pub out: Stdout,
    /// The line before the others, or nothing.
    pub heading: &'a str,
}

/// How many octets of lines are kept before they are written.
const PIECE: usize = 65_536;

/// The lines of an object, as they grow, and the location of the value that is shown next. The empty location is the
/// whole. They are written in pieces. They remember that memory ran out, or that they couldn't be written, and then
/// show no more parts, so that showing a value never fails. They count themselves, and know whether the part that was
/// shown last is an optional one that isn't there.
#[derive(Drop)]
pub(crate) struct Lines {
    pub(crate) alloc: Global,
    pub(crate) is_out_of_memory: bool,
    pub(crate) is_absent: bool,
    is_unwritten: bool,
    count: usize,
    out: Stdout,
    place: String,
    text: String,
}

/// Writes the lines of the value, which is the whole, and returns the last ones, which aren't written.
pub(crate) fn lines_of<T: Show>(alloc: Global, value: &T, page: Page<'_>) -> Result<String, Fault>
    ensures { IfErr result IsMemoryOrWrite }
{
    let mut text = String::new(alloc);
    if !page.heading.is_empty() {
        writeln!(text, "{}", page.heading)?;
    }
    let mut lines = Lines {
        alloc,
        is_out_of_memory: false,
        is_absent: false,
        is_unwritten: false,
        count: 0,
        out: page.out,
        place: String::new(alloc),
        text,
    };
    value.show(&mut lines);
    if lines.is_out_of_memory {
        return Err(Fault::Memory);
    }
    if lines.is_unwritten {
        return Err(Fault::Write);
    }
    Ok(lines.text)
}

impl Lines {
    /// Appends the lines of the value at this part of the location, as errors have it: one for a value without lines,
    /// unless it is absent.
    pub(crate) fn part<T: Show>(&mut self, name: &str, value: &T) {
        let dot = if self.place.is_empty() { "" } else { "." };
        let inner = format!(in self.alloc; "{}{dot}", self.place);
        let mut inner = self.kept(inner);
        self.is_out_of_memory |= push_part(&mut inner, name).is_err();
        if !self.is_out_of_memory && !self.is_unwritten {
            let outer = mem::replace(&mut self.place, inner);
            let count = self.count;
            value.show(self);
            if self.count == count && !self.is_absent {
                self.line("(empty)");
            }
            self.is_absent = false;
            self.place = outer;
        }
    }

    /// Appends the lines of each item of a list, with its number in its location.
    fn items<T: Show + Drop, I: Iterator<Item = ParseResult<T>> + Drop>(&mut self, items: I)
        requires can { I.can_next items }
        requires ends { IsFinite (I.remaining items) }
    {
        let mut count = 0usize;
        for item in items {
            let Some(item) = self.item(item) else { return };
            let number = self.kept(format!(in self.alloc; "{count}"));
            self.part(number.as_str(), &item);
            count = count.saturating_add(1);
        }
    }

    /// An item of a list, unless no more is shown. All items were read when the list was, so an error means that memory
    /// ran out.
    pub(crate) fn item<T: Drop>(&mut self, item: ParseResult<T>) -> Option<T> {
        self.is_out_of_memory |= item.is_err();
        if self.is_out_of_memory || self.is_unwritten {
            return None;
        }
        item.ok()
    }

    /// Appends the lines of the value that was read from the octets, at this part of the location; if they were
    /// rejected, the octets and the reason.
    pub(crate) fn read<T: Show + Drop>(
        &mut self,
        name: &str,
        octets: &[u8],
        value: ParseResult<T>,
    ) {
        match value {
            Ok(value) => self.part(name, &value),
            Err(error) => {
                self.part(name, &octets);
                let name = self.kept(format!(in self.alloc; "{name}.rejected"));
                // An error without a location is at the whole.
                let is_whole = error == ParseError::new(ParseErrorKind::InvalidValue);
                let element = if is_whole { Some(octets) } else { None };
                self.part(name.as_str(), &in_words(self.alloc, &error, &[], element));
            }
        }
    }

    /// Appends the lines of the value whose encoding the octets should be, at this part of the location.
    pub(crate) fn inner<'a, T: Asn1Readable<'a> + Show>(&mut self, name: &str, octets: &'a [u8]) {
        self.read(name, octets, parse_single::<T>(self.alloc, octets));
    }

    /// Appends the octets of an element at this part of the location, and the reason if its contents octets aren't
    /// those of its type.
    pub(crate) fn element(&mut self, name: &str, element: Tlv<'_>) {
        let octets = element.full_data();
        self.part(name, &octets);
        if let Err(error) = value_of(self.alloc, element) {
            let name = self.kept(format!(in self.alloc; "{name}.rejected"));
            let words = in_words(self.alloc, &error, &[], Some(octets));
            self.part(name.as_str(), &words);
        }
    }

    /// Appends the line of a text, and writes the lines so far if they are a piece. If memory ran out, a line may lack
    /// a part, and isn't written.
    pub(crate) fn line(&mut self, text: &str) {
        let appended = writeln!(self.text, "{}: {text}", self.place);
        self.is_out_of_memory |= appended.is_err();
        self.count = self.count.saturating_add(1);
        if self.text.len() >= PIECE && !self.is_out_of_memory {
            self.is_unwritten |= self.out.write_all(self.text.as_bytes()).is_err();
            self.text.clear();
        }
    }

    /// The text; if there was no memory for it, which is remembered, an empty one.
    pub(crate) fn kept(&mut self, text: Result<String, AllocError>) -> String {
        match text {
            Ok(text) => text,
            Err(_) => {
                self.is_out_of_memory = true;
                String::new(self.alloc)
            }
        }
    }

    /// The identifier's name if it is a known one, else its dotted form.
    pub(crate) fn short_name(&mut self, identifier: &ObjectIdentifier) -> String {
        let dotted = self.kept(format!(in self.alloc; "{identifier}"));
        match name_of(dotted.as_str()) {
            Some(name) => self.kept(format!(in self.alloc; "{name}")),
            None => dotted,
        }
    }
}

/// The value, if there is one.
impl<T: Show> Show for Option<T> {
    fn show(&self, lines: &mut Lines) {
        match self {
            Some(value) => value.show(lines),
            None => lines.is_absent = true,
        }
    }
}

/// Text as it is, if there was memory for it.
impl Show for Result<String, AllocError> {
    fn show(&self, lines: &mut Lines) {
        match self {
            Ok(text) => lines.line(text.as_str()),
            Err(_) => lines.is_out_of_memory = true,
        }
    }
}

/// Each item, with its number in its location.
impl<'a, T: Asn1Readable<'a> + Show, const MINIMUM_LEN: usize, const MAXIMUM_LEN: usize> Show
    for SequenceOf<'a, T, MINIMUM_LEN, MAXIMUM_LEN> {
    fn show(&self, lines: &mut Lines) {
        // The contract of `clone` says that it never fails, here and for sets.
        lines.items(self.clone().unwrap());
    }
}

/// A set, if there is one, whose items are shown like those of a list.
#[derive(Drop)]
pub(crate) struct Numbered<'s, 'a, T: Asn1Type>(pub(crate) Option<&'s SetOf<'a, T>>);

impl<'a, T: Asn1Readable<'a> + Show> Show for Numbered<'_, 'a, T> {
    fn show(&self, lines: &mut Lines) {
        match self.0 {
            Some(set) => lines.items(set.clone().unwrap()),
            None => lines.is_absent = true,
        }
    }
}

/// Words as they are.
impl Show for &str {
    fn show(&self, lines: &mut Lines) {
        lines.line(*self);
    }
}

impl Show for bool {
    fn show(&self, lines: &mut Lines) {
        lines.line(if *self { "true" } else { "false" });
    }
}

/// In words.
impl Show for ParseError {
    fn show(&self, lines: &mut Lines) {
        in_words(lines.alloc, self, &[], None).show(lines);
    }
}

/// A number, and its name among these, of which the first is that of 0.
pub(crate) fn with_name(alloc: Global, number: u32, names: &str) -> Result<String, AllocError> {
    let name = names.split(' ').nth(number as usize).unwrap_or("unknown");
    format!(in alloc; "{number} ({name})")
}

impl Show for u8 {
    fn show(&self, lines: &mut Lines) {
        u32::from(*self).show(lines);
    }
}

impl Show for u16 {
    fn show(&self, lines: &mut Lines) {
        u32::from(*self).show(lines);
    }
}

/// In decimal.
impl Show for u32 {
    fn show(&self, lines: &mut Lines) {
        format!(in lines.alloc; "{self}").show(lines);
    }
}

/// Octets in hex.
impl Show for &[u8] {
    fn show(&self, lines: &mut Lines) {
        hex::encode(lines.alloc, *self).show(lines);
    }
}

/// Where the last octet is that isn't zero.
fn lowest(octets: &[u8]) -> usize {
    let mut lowest = 0;
    for (number, octet) in octets.iter().enumerate() {
        if *octet != 0 {
            lowest = number;
        }
    }
    lowest
}

/// The octets of an integer without its sign: of a negative one those before the last that isn't zero are inverted, and
/// that one is subtracted from 0x100.
fn magnitude(alloc: Global, octets: &[u8], is_negative: bool) -> Result<Vec<u8>, AllocError> {
    let mut magnitude = Vec::new(alloc);
    let lowest = lowest(octets);
    for (number, octet) in octets.iter().enumerate() {
        let inverted = !*octet;
        magnitude.push(match (is_negative, number < lowest) {
            (false, _) => *octet,
            (true, true) => inverted,
            (true, false) => inverted.wrapping_add(1),
        })?;
    }
    Ok(magnitude)
}

/// An integer in hex, by whole octets, after its type, if that has to be told, its sign and `0x`.
fn integer(alloc: Global, its_type: &str, octets: &[u8]) -> Result<String, AllocError> {
    let is_negative = matches!(octets.first(), Some(octet) if *octet >= 0x80);
    let sign = if is_negative { "-" } else { "" };
    let magnitude = magnitude(alloc, octets, is_negative)?;
    let zeros = usize::from(matches!(magnitude.as_slice(), [0, _, ..]));
    let digits = hex::encode(alloc, magnitude.get(zeros..).unwrap_or(&[]))?;
    format!(in alloc; "{its_type}{sign}0x{digits}")
}

impl Show for BigInt<'_> {
    fn show(&self, lines: &mut Lines) {
        integer(lines.alloc, "", self.as_bytes()).show(lines);
    }
}

impl Show for BigUint<'_> {
    fn show(&self, lines: &mut Lines) {
        integer(lines.alloc, "", self.as_bytes()).show(lines);
    }
}

/// The octets in hex, and how many bits at their end are unused, if any.
impl Show for BitString<'_> {
    fn show(&self, lines: &mut Lines) {
        self.as_bytes().show(lines);
        let unused = self.padding_bits();
        if unused > 0 {
            lines.part("unusedBits", &unused);
        }
    }
}

impl Show for NamedBits<'_> {
    fn show(&self, lines: &mut Lines) {
        self.as_bitstring().show(lines);
    }
}

/// An identifier after its type, if that has to be told: dotted, and with its name if it is a known one.
fn named(alloc: Global, its_type: &str, id: &ObjectIdentifier) -> Result<String, AllocError> {
    let dotted = format!(in alloc; "{id}")?;
    match name_of(dotted.as_str()) {
        Some(name) => format!(in alloc; "{its_type}{dotted} ({name})"),
        None => format!(in alloc; "{its_type}{dotted}"),
    }
}

impl Show for ObjectIdentifier {
    fn show(&self, lines: &mut Lines) {
        named(lines.alloc, "", self).show(lines);
    }
}

/// A date and time with this fraction of a second, after its type, if that has to be told.
pub(crate) fn date(
    alloc: Global,
    its_type: &str,
    time: &DateTime,
    fraction: &str,
) -> Result<String, AllocError> {
    let (year, month, day) = (time.year(), time.month(), time.day());
    let (hour, minute, second) = (time.hour(), time.minute(), time.second());
    format!(in alloc;
        "{its_type}{year:04}-{month:02}-{day:02}T{hour:02}:{minute:02}:{second:02}{fraction}Z"
    )
}

/// A GeneralizedTime after its type, since another time is a UTCTime.
impl Show for Time {
    fn show(&self, lines: &mut Lines) {
        let text = match self {
            Time::UtcTime(time) => date(lines.alloc, "", time.as_datetime(), ""),
            Time::GeneralTime(time) => {
                date(lines.alloc, "(GeneralizedTime) ", time.as_datetime(), "")
            }
        };
        text.show(lines);
    }
}

impl Show for X509GeneralizedTime {
    fn show(&self, lines: &mut Lines) {
        date(lines.alloc, "", self.as_datetime(), "").show(lines);
    }
}

/// A time with its fraction, after its type, if that has to be told.
fn fraction_time(
    alloc: Global,
    its_type: &str,
    time: &GeneralizedTime,
) -> Result<String, AllocError> {
    let fraction = match time.nanoseconds() {
        Some(fraction) => format!(in alloc; ".{fraction:09}")?,
        None => String::new(alloc),
    };
    let fraction = fraction.trim_end_matches('0');
    date(alloc, its_type, time.as_datetime(), fraction)
}

impl Show for GeneralizedTime {
    fn show(&self, lines: &mut Lines) {
        fraction_time(lines.alloc, "", self).show(lines);
    }
}

/// The characters, with those escaped that can't be printed or seen, and with blanks escaped if one is at an end.
pub(crate) fn escaped(alloc: Global, text: &str) -> Result<String, AllocError> {
    let mut out = String::new(alloc);
    let has_blank_end = text.trim_matches(' ').len() != text.len();
    for c in text.chars() {
        match c {
            '"' | '\'' => out.push(c)?,
            ' ' if !has_blank_end => out.push(c)?,
            ' ' | '\u{115f}' | '\u{1160}' | '\u{2800}' | '\u{3164}' | '\u{ffa0}' => {
                write!(out, "{}", c.escape_unicode())?
            }
            _ => write!(out, "{}", c.escape_debug())?,
        }
    }
    Ok(out)
}

/// The characters after their type. A `#` or `(` at their start is escaped, since these begin octets in hex and a type.
pub(crate) fn characters(
    alloc: Global,
    string_type: &str,
    text: &str,
) -> Result<String, AllocError> {
    let is_marked = text.starts_with('#') || text.starts_with('(');
    let mark = if is_marked { "\\" } else { "" };
    let text = escaped(alloc, text)?;
    format!(in alloc; "{string_type}{mark}{text}")
}

impl Show for Utf8String<'_> {
    fn show(&self, lines: &mut Lines) {
        characters(lines.alloc, "", self.as_str()).show(lines);
    }
}

impl Show for IA5String<'_> {
    fn show(&self, lines: &mut Lines) {
        characters(lines.alloc, "", self.as_str()).show(lines);
    }
}

/// The characters of a BMPString after its type.
pub(crate) fn bmp_characters(alloc: Global, text: &BMPString<'_>) -> Result<String, AllocError> {
    let units = text.as_utf16_be_bytes().chunks(2).map(|unit| {
        match unit {
            [high, low] => u16::from_be_bytes([*high, *low]),
            _ => 0,
        }
    });
    let mut text = String::new(alloc);
    for c in decode_utf16(units) {
        text.push(c.unwrap_or('\u{fffd}'))?;
    }
    characters(alloc, "(BMPString) ", text.as_str())
}

/// The characters of a UniversalString after its type: four octets each (X.690 8.23.6).
fn universal_characters(alloc: Global, text: &UniversalString<'_>) -> Result<String, AllocError> {
    let mut characters_of = String::new(alloc);
    for unit in text.as_utf32_be_bytes().chunks(4) {
        let number = match unit {
            [a, b, c, d] => u32::from_be_bytes([*a, *b, *c, *d]),
            _ => 0,
        };
        characters_of.push(char::from_u32(number).unwrap_or('\u{fffd}'))?;
    }
    characters(alloc, "(UniversalString) ", characters_of.as_str())
}

/// Octets in hex after `#`, which tells them from characters.
pub(crate) fn marked(alloc: Global, octets: &[u8]) -> Result<String, AllocError> {
    let digits = hex::encode(alloc, octets)?;
    format!(in alloc; "#{digits}")
}

/// The octets of an OCTET STRING in hex after its type.
fn octets_in_hex(alloc: Global, octets: &[u8]) -> Result<String, AllocError> {
    let digits = hex::encode(alloc, octets)?;
    format!(in alloc; "(OCTET STRING) {digits}")
}

/// The contents octets of an element as text in ASCII after its type, or else the element in hex after `#`.
fn ascii(alloc: Global, its_type: &str, element: Tlv<'_>) -> Result<String, AllocError> {
    match str::from_utf8(element.data()) {
        Ok(text) if text.is_ascii() => characters(alloc, its_type, text),
        _ => marked(alloc, element.full_data()),
    }
}

/// The value of an element of a universal type, after its type if that is neither PrintableString nor UTF8String; or
/// its octets in hex. The error is that of its type; without memory there is no text.
fn value_of(alloc: Global, element: Tlv<'_>) -> ParseResult<Result<String, AllocError>> {
    let octets = element.full_data();
    Ok(match element.tag().as_u8() {
        Some(0x02) => {
            let number = parse_single::<BigInt<'_>>(alloc, octets)?;
            integer(alloc, "(INTEGER) ", number.as_bytes())
        }
        Some(0x04) => octets_in_hex(alloc, element.data()),
        Some(0x06) => {
            let identifier = parse_single::<ObjectIdentifier>(alloc, octets)?;
            named(alloc, "(OBJECT IDENTIFIER) ", &identifier)
        }
        Some(0x0c) => {
            let text = parse_single::<Utf8String<'_>>(alloc, octets)?;
            characters(alloc, "", text.as_str())
        }
        Some(0x13) => {
            let text = parse_single::<PrintableString<'_>>(alloc, octets)?;
            characters(alloc, "", text.as_str())
        }
        Some(0x16) => {
            let text = parse_single::<IA5String<'_>>(alloc, octets)?;
            characters(alloc, "(IA5String) ", text.as_str())
        }
        Some(0x17) => {
            let time = parse_single::<UtcTime>(alloc, octets)?;
            date(alloc, "(UTCTime) ", time.as_datetime(), "")
        }
        Some(0x18) => fraction_time(
            alloc,
            "(GeneralizedTime) ",
            &parse_single::<GeneralizedTime>(alloc, octets)?,
        ),
        Some(0x1a) => {
            let text = parse_single::<VisibleString<'_>>(alloc, octets)?;
            characters(alloc, "(VisibleString) ", text.as_str())
        }
        Some(0x1c) => {
            universal_characters(alloc, &parse_single::<UniversalString<'_>>(alloc, octets)?)
        }
        Some(0x1e) => bmp_characters(alloc, &parse_single::<BMPString<'_>>(alloc, octets)?),
        Some(0x12) => ascii(alloc, "(NumericString) ", element),
        Some(0x14) => ascii(alloc, "(TeletexString) ", element),
        Some(0x1b) => ascii(alloc, "(GeneralString) ", element),
        _ => {
            check(alloc, element)?;
            marked(alloc, octets)
        }
    })
}

/// A sequence of any elements.
type AnySequence<'a> = SequenceOf<'a, Tlv<'a>, 0, { usize::MAX }>;

/// Reads an element of one of these universal types, whose value is shown as octets. Of a sequence or a set the
/// elements within are framed, and those of a set in order.
fn check(alloc: Global, element: Tlv<'_>) -> ParseResult<()> {
    let octets = element.full_data();
    match element.tag().as_u8() {
        Some(0x01) => parse_single::<bool>(alloc, octets).map(|_value| ()),
        Some(0x03) => parse_single::<BitString<'_>>(alloc, octets).map(|_value| ()),
        Some(0x05) => parse_single::<Null>(alloc, octets).map(|_value| ()),
        Some(0x30) => parse_single::<AnySequence<'_>>(alloc, octets).map(|_value| ()),
        Some(0x31) => parse_single::<SetOf<'_, Tlv<'_>>>(alloc, octets).map(|_value| ()),
        _ => Ok(()),
    }
}

/// The value, and the reason if the contents octets aren't those of the element's type.
impl Show for Tlv<'_> {
    fn show(&self, lines: &mut Lines) {
        match value_of(lines.alloc, *self) {
            Ok(text) => text.show(lines),
            Err(error) => {
                let octets = self.full_data();
                marked(lines.alloc, octets).show(lines);
                lines.part(
                    "rejected",
                    &in_words(lines.alloc, &error, &[], Some(octets)),
                );
            }
        }
    }
}
