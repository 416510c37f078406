//! Sets that are written in order: the items of a slice by their encodings, the elements of a closure by their tags.

ghost use Rattle.std.specs.Prelude.{◌≡◌, ◌++◌, ◌⊎◌};
ghost use Rattle.std.specs.Prelude.{[], length, map, All, IsPermutation, true, IfSome, OnOk, OnErr, IfErr, IsOkUnless};
ghost use Rattle.std.specs.List.Sorted.{IsSortedBy};
ghost use Rattle.asn1_core.specs.Buffer.{Appends, KeepsPrefix};
ghost use Rattle.asn1_core.specs.Writing.{NamesError, set_closure, set_items};
ghost use Rattle.asn1_core.specs.Der.{IsWritable, encoding_of, simple_der};
ghost use Rattle.asn1_core.specs.LawsOf.Contents.{listing_laws, set_closure_laws};
ghost use Rattle.std.specs.List.{concat, AllByRecursion};
ghost use Rattle.asn1_core.specs.Listing.{AnyNames, set_tag, ListingOf};
ghost use Rattle.asn1_core.specs.SetWriting.{BeginsInOrder, AddsTo, KeepsElements, NamesErrorInSet, OrderedElements};
ghost use Rattle.asn1_core.specs.SetWriting.{SetClosureMayFail, set_closure_written, listing_written};
ghost use Rattle.asn1_core.specs.SetSteps.{part_of, first_number, span_cmp, IsBefore, IsWithin, NotesFirst, NotesTexts};
ghost use Rattle.asn1_core.specs.Tag.{tag_at_start, before_tag};
ghost use Rattle.asn1_core.specs.declared.writer.WriteError.TheVariants.{AllocationError, InvalidSetOrdering};

use crate::parser::number_in;
use crate::tag::Tag;
use crate::types::{Asn1Type, Asn1Writable, SimpleAsn1Writable};
use crate::writer::{WriteBuf, WriteError, WriteResult, Writer};
use std::cmp::Ordering;
use std::marker::{Model, PhantomData};
use std::mem;

/// How many octets of an encoding are noted with its span.
const FIRST_OCTETS: usize = 8;

/// Where an encoding is in the buffer, and the number of its first octets, which usually decides the order.
#[derive(Clone, Copy)]
pub(crate) struct Span {
    /// The index of its first octet.
    pub(crate) from: usize,
    /// How many octets it has.
    pub(crate) len: usize,
    /// The number of its first octets.
    pub(crate) first: usize,
}

/// The number of the first octets of an encoding, as if zeros followed a shorter one.
fn first_number(text: &[u8]) -> usize
    ensures { result ≡ first_number text.now }
{
    let mut octets = [0u8; FIRST_OCTETS];
    let count = text.len().min(FIRST_OCTETS);
    octets[..count].copy_from_slice(&text[..count]);
    number_in(&octets)
}

/// The octets of a span, or none if it passes the end.
fn part<'a>(octets: &'a [u8], span: &Span) -> &'a [u8]
    ensures { result.now ≡ part_of octets.now span.now }
{
    if span.from <= octets.len() && span.len <= octets.len() - span.from {
        &octets[span.from..span.from + span.len]
    } else {
        &octets[..0]
    }
}

/// Compares spans by their first octets, and only if these are equal by all their octets.
#[inline]
fn compare(octets: &[u8], a: &Span, b: &Span) -> Ordering
    ensures { result ≡ span_cmp octets.now a.now b.now }
{
    match a.first.cmp(&b.first) {
        Ordering::Equal => part(octets, a).cmp(part(octets, b)),
        found => found,
    }
}

/// Sorts spans by their octets.
fn sort_spans(octets: &[u8], spans: &mut Vec<Span>)
    requires { All (NotesFirst octets.now) spans.old.items }
    ensures permutation { IsPermutation spans.old.items spans.new.items }
    ensures sorted { IsSortedBy (IsBefore octets.now) spans.new.items }
{
    spans.sort_unstable_by(|a, b| compare(octets, a, b));
}

/// Appends the items' encodings one after another, and notes where each is.
fn write_items<T: Asn1Writable>(
    items: &[T],
    dest: &mut WriteBuf,
    spans: &mut Vec<Span>,
) -> Result<(), T::Error>
    requires closures { AllByRecursion T.der.closures (map T.der.meaning items.now) }
    requires spans { spans.old.items ≡ [] }
    ensures ok { OnOk result (NotesTexts (λ v. T.der.encodings (T.der.meaning v)) items.now
        dest.new.bytes spans.new.items) }
    ensures front { KeepsPrefix dest.old.bytes dest.new.bytes }
    ensures error { IfErr result (NamesError T.Error.from_gives
        (AnyNames T.write_errors items.now)) }
{
    let mut writer = Writer::new(dest);
    for item in items {
        let from = writer.buf.len();
        writer.write_element(item)?;
        let len = writer.buf.len() - from;
        let first = first_number(&writer.buf.as_slice()[from..]);
        let span = Span { from, len, first };
        if spans.push(span).is_err() {
            return Err(T::Error::from(WriteError::AllocationError));
        }
    }
    Ok(())
}

/// Appends the octets of the spans of the buffer, in this order.
fn push_spans(dest: &mut WriteBuf, spans: &[Span]) -> WriteResult<()>
    requires { All (IsWithin (length dest.old.bytes)) spans.now }
    ensures ok { OnOk result (dest.new.bytes
        ≡ dest.old.bytes ++ concat (map (part_of dest.old.bytes) spans.now)) }
    ensures err { OnErr result (KeepsPrefix dest.old.bytes dest.new.bytes) }
    ensures error { IsOkUnless result WriteError.AllocationError }
{
    for span in spans {
        dest.push_part(span)?;
    }
    Ok(())
}

/// Appends the items' encodings in ascending order. The encodings are appended as they come, then once more in order.
/// Those in order are then moved down over the first ones.
fn write_listing<T: Asn1Writable>(items: &[T], dest: &mut WriteBuf) -> Result<(), T::Error>
    requires { AllByRecursion T.der.closures (map T.der.meaning items.now) }
    ensures ok { OnOk result (Appends (ListingOf T.der.encodings (map T.der.meaning items.now))
        dest.old.bytes dest.new.bytes) }
    ensures err { OnErr result (KeepsPrefix dest.old.bytes dest.new.bytes) }
    ensures error { IfErr result (NamesError T.Error.from_gives
        (AnyNames T.write_errors items.now)) }
{
    let start = dest.len();
    let mut spans = dest.no_spans();
    write_items(items, dest, &mut spans)?;
    let end = dest.len();
    sort_spans(dest.as_slice(), &mut spans);
    push_spans(dest, spans.as_slice())?;
    dest.move_down(start, end);
    Ok(())
}

/// SET OF (X.690 8.12, 11.6; universal 17), written from the items of a slice: their encodings in ascending order,
/// equal ones as often as the slice has them. (`SetOf` reads it.)
///
/// Two sets of items, each of which is written as one element, have the same encoding exactly if the items have the
/// same encodings, each the same number of times. Writing returns `AllocationError` if out of memory, or an error of
/// an item. The length is known if each item's is and their sum fits a `usize`.
///
/// ```text
/// let longer = [256u16, 1, 255, 1];
/// is_written(
///     alloc,
///     &SetOfWriter::new(&longer),
///     &[0x31, 0x0e, 2, 1, 1, 2, 1, 1, 2, 2, 0, 0xff, 2, 2, 1, 0],
/// )?;
/// ```
#[derive(Debug, Clone, PartialEq, Eq, Hash, Drop)]
pub struct SetOfWriter<'a, T> {
    items: &'a [T],
}

impl<'a, T: Asn1Writable> SetOfWriter<'a, T> {
    /// A set of these items, in any order.
    pub fn new(items: &'a [T]) -> SetOfWriter<'a, T>
        ensures { set_items result ≡ items.now }
    {
        SetOfWriter { items }
    }
}

impl<'a, T: Asn1Type> Asn1Type for SetOfWriter<'a, T> {
    ghost der = { simple_der (λ v. map T.der.meaning (set_items v))
        (listing_written (encoding_of T.der)) (listing_laws T.der.laws) };

    fn known(&self) {
        for item in self.items {
            item.known();
        }
    }
}

impl<T: Asn1Writable> SimpleAsn1Writable for SetOfWriter<'_, T> {
    type Error = T::Error;

    ghost write_errors = { λ v. AnyNames T.write_errors (set_items v) };

    ghost length_known = { λ v. AllByRecursion T.length_known (set_items v) };

    fn tag() -> Tag
        ensures value { result ≡ set_tag }
        ensures simple { Unit {0} }
    {
        Tag::constructed(0x11)
    }

    fn write_data(&self, dest: &mut WriteBuf) -> Result<(), T::Error> {
        match self.items {
            [] => Ok(()),
            [item] => Writer::new(dest).write_element(item),
            items => write_listing(items, dest),
        }
    }

    fn data_length(&self) -> Option<usize> {
        let mut total = 0usize;
        for item in self.items {
            total = total.checked_add(item.encoded_length()?)?;
        }
        Some(total)
    }
}

/// Writes the elements of a SET (X.690 8.11, 10.3) in the order of their tags. A [`SetWriter`] gives one to its
/// closure.
#[derive(Drop)]
pub struct SetElementWriter<'a> {
    buf: WriteBuf,
    start: usize,
    last: Option<Tag>,
    lifetime: PhantomData<&'a ()>,
}

impl<'a> Model for SetElementWriter<'a> {
    ghost use Rattle.std.specs.Prelude.{take, drop};
    ghost use Rattle.asn1_core.specs.SetWriting.{SetState, IsSetWithin};

    ghost Value = { SetState };

    ghost view = { λ s. record {
      front = take s.start s.buf.bytes;
      done = drop s.start s.buf.bytes;
      last = s.last;
    } };

    ghost invariant = { λ s. IsSetWithin s.buf.bytes s.start s.last };
}

impl<'a> SetElementWriter<'a> {
    /// A writer of a set after the octets in the buffer.
    pub(crate) fn new(buf: WriteBuf) -> SetElementWriter<'a>
        ensures front { result.front ≡ buf.bytes }
        ensures done { result.done ≡ [] }
        ensures last { result.last ≡ None }
    {
        let start = buf.len();
        SetElementWriter {
            buf,
            start,
            last: None,
            lifetime: PhantomData,
        }
    }

    /// The buffer, with the elements of the set at its end.
    pub(crate) fn into_buf(self) -> WriteBuf
        ensures octets { result.bytes ≡ self.entry.front ++ self.entry.done }
        ensures ordered { OrderedElements self.entry.done self.entry.last }
    {
        let SetElementWriter {
            buf,
            start: _,
            last: _,
            lifetime: _,
        } = self;
        buf
    }

    /// Writes an element whose tag doesn't come before the tag of the previous element: by class, from universal to
    /// private, and within a class by number (X.680 8.6). A value without octets, such as an option that is `None`,
    /// isn't compared.
    ///
    /// Errors: `AllocationError` if out of memory; one that the type names; `InvalidSetOrdering` if the tag comes
    /// before the previous one, or the octets don't begin with a whole tag. On an error the set is as it was. The
    /// caller has to prove the same as for [`Writer::write_element`].
    pub fn write_element<T: Asn1Writable>(&mut self, val: &T) -> Result<(), T::Error>
        requires { IsWritable T.der (T.der.meaning val.now) }
        ensures front { self.new.front ≡ self.old.front }
        ensures ok { OnOk result (AddsTo (T.der.encodings (T.der.meaning val.now)) self.old
            self.new) }

        // Elements in the order of their tags stay in that order.
        ensures elements { OnOk result (KeepsElements self.old self.new) }
        ensures err { OnErr result (self.new ≡ self.old) }
        ensures error { IfErr result (NamesErrorInSet T.Error.from_gives (T.write_errors val.now)
            (T.der.encodings (T.der.meaning val.now)) self.old) }
    {
        let before = self.buf.len();
        Writer::new(&mut self.buf).write_element(val)?;
        let octets = &self.buf.as_slice()[before..];
        if octets.is_empty() {
            return Ok(());
        }
        let Some(tag) = tag_behind(self.last, octets) else {
            self.buf.truncate(before);
            return Err(T::Error::from(WriteError::InvalidSetOrdering));
        };
        self.last = Some(tag);
        Ok(())
    }
}

/// The tag at the start of the octets, if it doesn't come before the last one.
fn tag_behind(last: Option<Tag>, octets: &[u8]) -> Option<Tag>
    ensures some { IfSome result (BeginsInOrder last octets.now) }
    ensures none { result ≡ None → (tag_at_start octets.now ≡ None)
        ⊎ (before_tag (tag_at_start octets.now) last ≡ true) }
{
    let Ok((tag, _rest)) = Tag::read(octets) else {
        return None;
    };
    match last {
        Some(last) if tag.comes_before(last) => None,
        _ => Some(tag),
    }
}

/// SET (X.690 8.11, 10.3; universal 17), whose elements a closure writes by the [`SetElementWriter`] that it is given,
/// in the order of their tags. (`Set` reads it.)
///
/// The length isn't known before the set is written. Writing returns `AllocationError` if out of memory, or an error
/// that the closure returns. `InvalidSetOrdering` is among these if the closure passes it on.
///
/// ```text
/// let writes = |set: &mut SetElementWriter<'_>| -> WriteResult<()>
///     ensures front { set.new.front ≡ set.old.front }
///     ensures elements { OnOk result (KeepsElements set.old set.new) }
/// {
///     set.write_element(&true)?;
///     set.write_element(&number)
/// };
/// set_writers_write_sets(&writes);
/// write_single(alloc, &SetWriter::new(&writes))
/// ```
#[derive(Drop)]
pub struct SetWriter<'a, F: Fn(&mut SetElementWriter<'_>) -> Result<(), E>, E> {
    f: &'a F,
    error: PhantomData<E>,
}

impl<'a, F: Fn(&mut SetElementWriter<'_>) -> Result<(), E>, E> SetWriter<'a, F, E> {
    /// A set of the elements that the closure will write. The closure isn't called yet. To write the set, the caller
    /// has to prove that the closure may always be called, and leaves the octets before the set as they were.
    pub fn new(f: &'a F) -> SetWriter<'a, F, E>
        ensures { set_closure result ≡ f.now }
    {
        SetWriter {
            f,
            error: PhantomData,
        }
    }
}

impl<'a, F: Fn(&mut SetElementWriter<'_>) -> Result<(), E>, E> Asn1Type for SetWriter<'a, F, E> {
    ghost der = { simple_der set_closure (set_closure_written F.FnOnce)
        (set_closure_laws F.FnOnce) };

    fn known(&self) {}
}

impl<F: Fn(&mut SetElementWriter<'_>) -> Result<(), E>, E: From<WriteError>> SimpleAsn1Writable
    for SetWriter<'_, F, E> {
    type Error = E;

    ghost write_errors = { λ v. SetClosureMayFail F.FnOnce (set_closure v) };

    fn tag() -> Tag
        ensures value { result ≡ set_tag }
        ensures simple { Unit {0} }
    {
        Tag::constructed(0x11)
    }

    fn write_data(&self, dest: &mut WriteBuf) -> Result<(), E> {
        let spare = dest.spare();
        let mut set = SetElementWriter::new(mem::replace(dest, spare));
        let answer = (self.f)(&mut set);
        *dest = set.into_buf();
        answer
    }

    fn data_length(&self) -> Option<usize> {
        None
    }
}
