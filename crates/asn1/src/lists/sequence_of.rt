//! SEQUENCE OF (X.690 8.10).

ghost use Rattle.std.specs.Prelude.{◌≡◌, ◌↔◌, ◌<◌, ◌≤◌, ◌-◌, ◌==◌};
ghost use Rattle.std.specs.Prelude.{IsTrue, List, [], ◌∷◌, ℕ, length, map, nat_eq, OnOk, OnErr, IfOk, IfErr};
ghost use Rattle.std.specs.Prelude.{IfNone, IfSome, IsOk, IsSome};
ghost use Rattle.std.specs.Iterator.{at_most};
ghost use Rattle.std.specs.Hash as fed;
ghost use Rattle.std.specs.Cmp.{partial_equiv_from_equiv, on_per, on_equiv};
ghost use Rattle.std.specs.Cmp.Lexicographic.{pointwise, nat_list_eq_equiv};
ghost use Rattle.std.specs.Cmp.Rules.{hashing};
ghost use Rattle.std.proofs.Common.{rules};
ghost use Rattle.asn1_core.specs.Buffer.{Appends, KeepsPrefix};
ghost use Rattle.asn1_core.specs.Element.{Element, leading_element};
ghost use Rattle.asn1_core.specs.Reading.{Returns, EndsWith, Fits};
ghost use Rattle.asn1_core.specs.Reads.{ReadsContents};
ghost use Rattle.std.specs.List.{flat_map, AllByRecursion};
ghost use Rattle.asn1_core.specs.Listing.{AnyNames, Joins, OneNames, sequence_tag};
ghost use Rattle.asn1_core.specs.Writing.{buffer_name, octets_of, GivesLength, NamesError};
ghost use Rattle.asn1.specs.Lists.{AreItems, AreOctets, left, item, counted, item_out, items_out, NextItem};
ghost use Rattle.asn1.specs.Types.{list_der};

use crate::lists::{SequenceOfWriter, are_octets, at_item, contents_of, push_item};
use asn1_core::{
    Asn1Readable, Asn1Type, Asn1Writable, ParseError, ParseErrorKind, ParseResult, Parser,
    SimpleAsn1Readable, SimpleAsn1Writable, Tag, Tlv, WriteBuf, WriteError, Writer, write_single,
};
use std::alloc::{AllocError, Global};
use std::fmt;
use std::hash::{Hash, Hasher};
use std::marker::PhantomData;

/// SEQUENCE OF (X.690 8.10; universal 16, constructed), of `MINIMUM_LEN` to `MAXIMUM_LEN` items (both included), as an
/// iterator over the items that remain.
///
/// Its value is the list of these items, and their encodings are written. A list from which items were taken may have
/// fewer than its bounds allow, so that its encoding is rejected. Two lists are equal, and have the same hash, if the
/// remaining octets are the same. These are the same exactly if the items are ([`crate::laws::equal_items`]). A clone
/// doesn't allocate.
///
/// Reading a list reads every item, and borrows the contents octets. The first item that is rejected decides: the
/// error is the item's first error, or `ExtraData` if the item has no octets, with the location `Index(i)`, i being
/// counted from 0. If all items are read and they are too few or too many, the error is `InvalidSize`, without a
/// location of this list. Only reading the items allocates.
///
/// The iterator reads each item again, and ends after the last: it returns `None` exactly if no item remains. It
/// returns `Some(Err(..))` only if reading an item runs out of memory (`AllocationError`, without a location of this
/// list). That item counts as taken. The length of a list is known without reading an item: the items' encodings are
/// the octets that remain. These are also what is written, if no write of an item fails but for memory
/// ([`Asn1Writable::writes_as_read`]). Else each item is read again and written, and its error is the list's.
///
/// ```text
/// const FIVE_AND_SEVEN: &[u8] = &[0x30, 0x06, 0x02, 0x01, 0x05, 0x02, 0x01, 0x07];
///
/// let mut list = parse_single::<SequenceOf<'_, u64, 2, 3>>(alloc, FIVE_AND_SEVEN)?;
/// assert!(rt; list.len() == 2 && !list.is_empty());
/// same(list.next().transpose()?, Some(5))?;
/// same(list.next().transpose()?, Some(7))?;
/// assert!(rt; list.next().is_none() && list.is_empty());
/// ```
#[derive(Drop)]
pub struct SequenceOf<'a, T: Asn1Type, const MINIMUM_LEN: usize, const MAXIMUM_LEN: usize> {
    content: &'a [u8],
    alloc: Global,
    count: usize,
    of: PhantomData<T>,
    pub ghost are_octets: { AreOctets content.now },
    pub ghost are_items: { AreItems T.der.read content.now count },
}

impl<'a, T: Asn1Readable<'a>, const MINIMUM_LEN: usize, const MAXIMUM_LEN: usize> SequenceOf<
    'a,
    T,
    MINIMUM_LEN,
    MAXIMUM_LEN,
> {
    /// How many items remain. The count is kept: no item is read. If it is within the bounds, the list may be read
    /// back: each item was read, so it is within its own.
    pub fn len(&self) -> usize
        ensures count { result ≡ length
            (⟦<SequenceOf<'a, T, MINIMUM_LEN, MAXIMUM_LEN> as Asn1Type>⟧.der.meaning self.now) }
        ensures allowed { let lists =
            ⟦<SequenceOf<'a, T, MINIMUM_LEN, MAXIMUM_LEN> as Asn1Type>⟧.der in
            MINIMUM_LEN ≤ result → result ≤ MAXIMUM_LEN → lists.allowed (lists.meaning self.now) }
    {
        self.count
    }

    /// Whether no item remains.
    pub fn is_empty(&self) -> bool
        ensures { result ≡ (length
            (⟦<SequenceOf<'a, T, MINIMUM_LEN, MAXIMUM_LEN> as Asn1Type>⟧.der.meaning self.now)
            == 0) }
    {
        self.count == 0
    }

    /// How many items remain. The count is kept: no item is read, as a count of what the iterator returns would.
    pub fn count(self) -> usize
        ensures { result ≡ length (
            ⟦<SequenceOf<'a, T, MINIMUM_LEN, MAXIMUM_LEN> as Asn1Type>⟧.der.meaning self.entry) }
    {
        self.count
    }

    /// The items that remain, in order. The only error is `AllocationError`, without a location of this list, if there
    /// is no memory for the vector or if reading an item allocates.
    pub fn to_vec(&self) -> ParseResult<Vec<T>>
        ensures items { IfOk result (λ all. map T.der.meaning all.items ≡
            ⟦<SequenceOf<'a, T, MINIMUM_LEN, MAXIMUM_LEN> as Asn1Type>⟧.der.meaning self.now) }
    {
        let mut all = Vec::new(self.alloc);
        for item in self.clone().unwrap() {
            push_item(&mut all, item?)?;
        }
        Ok(all)
    }

    /// Takes the next item; `None` if none remains. The only error is `AllocationError`, without a location of this
    /// list, if reading an item allocates; the next call goes on after this item.
    pub fn take_next(&mut self) -> ParseResult<Option<T>>
        ensures none { IfOk result (λ next. IfNone next (
            ⟦<SequenceOf<'a, T, MINIMUM_LEN, MAXIMUM_LEN> as Asn1Type>⟧.der.meaning self.old
            ≡ [])) }
        ensures some { IfOk result (λ next. IfSome next (λ v.
            ⟦<SequenceOf<'a, T, MINIMUM_LEN, MAXIMUM_LEN> as Asn1Type>⟧.der.meaning self.old
            ≡ T.der.meaning v
            ∷ ⟦<SequenceOf<'a, T, MINIMUM_LEN, MAXIMUM_LEN> as Asn1Type>⟧.der.meaning self.new)) }

        // If reading an item doesn't allocate, there is no error.
        ensures no_memory_error { ¬ T.der.takes_memory → IsOk result }
    {
        match self.next() {
            None => Ok(None),
            Some(Ok(item)) => Ok(Some(item)),
            Some(Err(error)) => Err(error),
        }
    }

    /// States that each item that remains may be read back: it was read, so it is within its bounds. The call does
    /// nothing at run time.
    pub fn known_items(&self)
        ensures { AllByRecursion T.der.allowed
            (⟦<SequenceOf<'a, T, MINIMUM_LEN, MAXIMUM_LEN> as Asn1Type>⟧.der.meaning self.now) }
    {}
}

impl<
    'a,
    T: Asn1Readable<'a> + Asn1Writable,
    const MINIMUM_LEN: usize,
    const MAXIMUM_LEN: usize,
> SequenceOf<'a, T, MINIMUM_LEN, MAXIMUM_LEN> {
    /// The list of these items. It borrows its octets from `store`, which is only room for them: no clause says what
    /// else it holds. A list that is made is in all a list that was read.
    ///
    /// The outer error is that of writing an item: `AllocationError` if out of memory, or one that an item names. The
    /// inner one is that of reading: `InvalidSize` if the items are fewer or more than the list's bounds allow,
    /// `AllocationError` if reading an item allocates and memory ran out, `InvalidLength` if the encoding has 2^32
    /// contents octets or more.
    ///
    /// ```text
    /// let mut store = Vec::new(alloc);
    /// let list = SequenceOf::<'_, u64, 2, 3>::of(alloc, &[5, 7], &mut store)??;
    /// is_written(alloc, &list, FIVE_AND_SEVEN)?;
    /// ```
    pub fn of(
        alloc: Global,
        items: &[T],
        store: &'a mut Vec<u8>,
    ) -> Result<ParseResult<Self>, T::Error>
        // The list is what reading the items' encodings returns, if they are short enough to be read.
        ensures read { let meanings = map T.der.meaning items.now in
            let lists = ⟦<SequenceOf<'a, T, MINIMUM_LEN, MAXIMUM_LEN> as Asn1Type>⟧.der in
            Fits (lists.encoding meanings)
            → IfOk result (ReadsContents lists (flat_map T.der.encoding meanings)) }

        // The list means the items, in their order.
        ensures items { let meanings = map T.der.meaning items.now in
            let lists = ⟦<SequenceOf<'a, T, MINIMUM_LEN, MAXIMUM_LEN> as Asn1Type>⟧.der in
            T.der.lawful → T.der.is_element → AllByRecursion T.der.allowed meanings
            → IfOk result (λ read. IfOk read (λ list. lists.meaning list ≡ meanings)) }
        ensures unbounded { let lists =
            ⟦<SequenceOf<'a, T, MINIMUM_LEN, MAXIMUM_LEN> as Asn1Type>⟧.der in
            T.der.lawful → T.der.is_element → ¬ T.der.bounded → IfOk result
            (λ read. IfOk read (λ list. lists.meaning list ≡ map T.der.meaning items.now)) }

        // There is such a list if the items are as many as it may have, and their encoding is short enough to be read.
        ensures made { let meanings = map T.der.meaning items.now in
            let lists = ⟦<SequenceOf<'a, T, MINIMUM_LEN, MAXIMUM_LEN> as Asn1Type>⟧.der in
            T.der.lawful → T.der.is_element → lists.allowed meanings
            → Fits (lists.encoding meanings) → IfOk result (λ read. Returns lists.meaning
            (lists.content.runs_out (flat_map T.der.encoding meanings)) read (Ok meanings)) }

        // If reading an item doesn't allocate, there is one.
        ensures there { let meanings = map T.der.meaning items.now in
            let lists = ⟦<SequenceOf<'a, T, MINIMUM_LEN, MAXIMUM_LEN> as Asn1Type>⟧.der in
            T.der.lawful → T.der.is_element → ¬ T.der.takes_memory → lists.allowed meanings
            → Fits (lists.encoding meanings) → IfOk result (λ read. IsOk read) }
        ensures error { IfErr result (NamesError T.Error.from_gives
            (AnyNames T.write_errors items.now)) }
    {
        // By this call's contract each item has one encoding.
        let _accepted = T::can_parse(Tag::constructed(0x10));
        let list = SequenceOfWriter::new(items);
        list.known();
        *store = write_single(alloc, &list)?;
        match contents_of(store.as_slice()) {
            Ok(contents) => Ok(<Self as SimpleAsn1Readable<'a>>::parse_data(alloc, contents)),
            Err(error) => Ok(Err(error)),
        }
    }
}

impl<'a, T: Asn1Type, const MINIMUM_LEN: usize, const MAXIMUM_LEN: usize> Clone
    for SequenceOf<'a, T, MINIMUM_LEN, MAXIMUM_LEN> {
    ghost is_clone = { λ x y. y.content.now ≡ x.content.now };

    ghost is_infallible = { λ _. Unit {0} };

    fn clone(&self) -> Result<Self, AllocError> {
        Ok(SequenceOf {
            content: self.content,
            alloc: self.alloc,
            count: self.count,
            of: PhantomData,
        })
    }
}

/// The items that remain, as a list.
impl<
    'a,
    T: Asn1Readable<'a> + fmt::Debug,
    const MINIMUM_LEN: usize,
    const MAXIMUM_LEN: usize,
> fmt::Debug for SequenceOf<'a, T, MINIMUM_LEN, MAXIMUM_LEN> {
    fn fmt<W: fmt::Write>(&self, f: &mut fmt::Formatter<W>) -> fmt::Result {
        let mut list = f.debug_list();
        for item in self.clone().unwrap() {
            match item {
                Ok(item) => list.entry(&item),
                Err(error) => list.entry(&error),
            };
        }
        list.finish()
    }
}

impl<'a, T: Asn1Type, const MINIMUM_LEN: usize, const MAXIMUM_LEN: usize> PartialEq
    for SequenceOf<'a, T, MINIMUM_LEN, MAXIMUM_LEN> {
    ghost eq = { λ x y. pointwise nat_eq x.content.now y.content.now };

    ghost laws = { on_per (λ x. x.content.now) (partial_equiv_from_equiv nat_list_eq_equiv) };

    fn eq(&self, other: &Self) -> bool
        ensures value { result ≡ pointwise nat_eq self.now.content.now other.now.content.now }
        ensures items { IsTrue result ↔ (left T.der.read self.now.content.now
            ≡ left T.der.read other.now.content.now) }
    {
        self.content == other.content
    }
}

impl<'a, T: Asn1Type, const MINIMUM_LEN: usize, const MAXIMUM_LEN: usize> Eq
    for SequenceOf<'a, T, MINIMUM_LEN, MAXIMUM_LEN> {
    ghost laws = { on_equiv (λ x. x.content.now) nat_list_eq_equiv };
}

impl<'a, T: Asn1Type, const MINIMUM_LEN: usize, const MAXIMUM_LEN: usize> Hash
    for SequenceOf<'a, T, MINIMUM_LEN, MAXIMUM_LEN> {
    ghost hash_input = { λ x. fed.slice fed.u8 x.content.now };

    ghost respects_eq = { Prim.search (hashing, rules) };

    fn hash<H: Hasher>(&self, state: &mut H) {
        self.content.hash(state);
    }
}

impl<'a, T: Asn1Type, const MINIMUM_LEN: usize, const MAXIMUM_LEN: usize> Asn1Type
    for SequenceOf<'a, T, MINIMUM_LEN, MAXIMUM_LEN> {
    ghost der = { list_der MINIMUM_LEN MAXIMUM_LEN T.der
        (λ s. left T.der.read s.content.now) };

    fn known(&self) {}
}

impl<
    'a,
    T: Asn1Readable<'a>,
    const MINIMUM_LEN: usize,
    const MAXIMUM_LEN: usize,
> SimpleAsn1Readable<'a> for SequenceOf<'a, T, MINIMUM_LEN, MAXIMUM_LEN> {
    fn tag() -> Tag
        ensures value { result ≡ sequence_tag }
        ensures simple { Unit {0} }
        ensures plain { T.der.plain }
        ensures read { T.der.is_read }
    {
        let tag = Tag::constructed(0x10);
        // By this call's contract each value of the items' type has one encoding.
        let _accepted = T::can_parse(tag);
        tag
    }

    fn parse_data(alloc: Global, data: &'a [u8]) -> ParseResult<Self>
        ensures { ReadsContents ⟦<SequenceOf<'a, T, MINIMUM_LEN, MAXIMUM_LEN> as Asn1Type>⟧.der
            «data».entry.now result }
    {
        let count = count_items::<T>(alloc, data)?;
        if count < MINIMUM_LEN || count > MAXIMUM_LEN {
            return Err(ParseError::new(ParseErrorKind::InvalidSize {
                min: MINIMUM_LEN,
                max: MAXIMUM_LEN,
                actual: count,
            }));
        }
        Ok(SequenceOf {
            content: data,
            alloc,
            count,
            of: PhantomData,
        })
    }
}

/// Reads the item at an index. An item without octets is rejected.
#[inline]
fn read_item<'a, T: Asn1Readable<'a>>(parser: &mut Parser<'a>, index: usize) -> ParseResult<T>
    ensures answers { Returns (λ v. (T.der.meaning v, parser.new))
        (item_out T.der.runs_out index parser.old) result (item T.der.read index parser.old) }
    ensures rest { EndsWith parser.old parser.new }
{
    let before = parser.rest().len();
    match parser.read_element::<T>() {
        Ok(value) => {
            if parser.rest().len() == before {
                return Err(at_item(ParseError::new(ParseErrorKind::ExtraData), index));
            }
            Ok(value)
        }
        Err(error) => Err(at_item(error, index)),
    }
}

/// Counts the items of contents octets. It reads each item.
fn count_items<'a, T: Asn1Readable<'a>>(alloc: Global, content: &'a [u8]) -> ParseResult<usize>
    ensures { Returns (λ n. n) (items_out T.der.read T.der.runs_out (length content.entry.now) 0
        content.entry.now) result (counted T.der.read 0 content.entry.now) }
{
    let mut parser = Parser::new(alloc, content);
    let mut count = 0;
    'items: while !parser.is_empty() {
        let _item = read_item::<T>(&mut parser, count)?;
        count += 1;
    }
    Ok(count)
}

/// The octets after the element at the start, if there is one.
#[cold]
fn behind_element<'a>(alloc: Global, content: &'a [u8]) -> &'a [u8]
    ensures { (f : Element × List ℕ) → leading_element content.entry.now ≡ Ok f → result.now ≡ f.1 }
{
    let mut parser = Parser::new(alloc, content);
    let _tlv = parser.read_element::<Tlv<'a>>();
    parser.rest()
}

/// Reads the first of the items. The parser is then after this item, also if out of memory.
#[inline(always)]
fn read_first<'a, T: Asn1Readable<'a>>(parser: &mut Parser<'a>, count: usize) -> ParseResult<T>
    requires some { 0 < length parser.now }
    requires are_items { AreItems T.der.read parser.now count }
    ensures item { NextItem (T.der.runs_out parser.old) T.der.meaning (left T.der.read parser.old)
        (Some result) (left T.der.read parser.new) }
    ensures after { AreItems T.der.read parser.new (count - 1) }
    ensures counted { 0 < count }
{
    let items = parser.rest();
    items.known();
    match parser.read_element::<T>() {
        Ok(value) => Ok(value),
        Err(error) => {
            let alloc = parser.alloc();
            *parser = Parser::new(alloc, behind_element(alloc, items));
            Err(error)
        }
    }
}

impl<'a, T: Asn1Readable<'a>, const MINIMUM_LEN: usize, const MAXIMUM_LEN: usize> Iterator
    for SequenceOf<'a, T, MINIMUM_LEN, MAXIMUM_LEN> {
    type Item = ParseResult<T>;

    ghost next_gives = { λ s r t. NextItem (T.der.runs_out s.content.now) T.der.meaning
        (left T.der.read s.content.now) r (left T.der.read t.content.now) };

    ghost remaining = { λ s. at_most s.count };

    #[inline]
    fn next(&mut self) -> Option<ParseResult<T>> {
        if self.content.is_empty() {
            return None;
        }
        let mut parser = Parser::new(self.alloc, self.content);
        let answer = read_first::<T>(&mut parser, self.count);
        let rest = parser.rest();
        are_octets(rest);
        self.content = rest;
        self.count -= 1;
        // An error is large. If an item was read, only the item is moved.
        match answer {
            Ok(value) => Some(Ok(value)),
            Err(error) => Some(Err(error)),
        }
    }
}

/// Writes the items of contents octets, in order.
fn write_items<'a, T: Asn1Readable<'a> + Asn1Writable>(
    alloc: Global,
    items: &'a [u8],
    number: usize,
    writer: &mut Writer<'_>,
) -> Result<(), T::Error>
    requires are_items { AreItems T.der.read items.now number }
    requires closures { AllByRecursion T.der.closures (left T.der.read items.now) }
    ensures same_buffer { buffer_name writer.new ≡ buffer_name writer.old }
    ensures ok { OnOk result (Appends
        (Joins T.der.encodings (left T.der.read items.entry.now)) (octets_of writer.old)
        (octets_of writer.new)) }
    ensures err { OnErr result (KeepsPrefix (octets_of writer.old) (octets_of writer.new)) }
    ensures error { IfErr result (NamesError T.Error.from_gives (OneNames T.write_errors)) }
{
    let mut parser = Parser::new(alloc, items);
    let mut count = number;
    'items: while !parser.is_empty() {
        match read_first::<T>(&mut parser, count) {
            Ok(value) => writer.write_element(&value)?,
            Err(_) => return Err(T::Error::from(WriteError::AllocationError)),
        }
        count -= 1;
    }
    Ok(())
}

impl<
    'a,
    T: Asn1Readable<'a> + Asn1Writable,
    const MINIMUM_LEN: usize,
    const MAXIMUM_LEN: usize,
> SimpleAsn1Writable for SequenceOf<'a, T, MINIMUM_LEN, MAXIMUM_LEN> {
    type Error = T::Error;

    ghost write_errors = { λ _. OneNames T.write_errors };

    ghost length_known = { λ _. Unit {0} };

    fn tag() -> Tag
        ensures value { result ≡ sequence_tag }
        ensures simple { Unit {0} }
    {
        Tag::constructed(0x10)
    }

    fn write_data(&self, dest: &mut WriteBuf) -> Result<(), T::Error> {
        if T::writes_as_read() {
            // By this call's contract each item has one encoding, which is the octets that it was read from.
            let _accepted = T::can_parse(Tag::constructed(0x10));
            dest.push_slice(self.content)?;
            return Ok(());
        }
        write_items::<T>(self.alloc, self.content, self.count, &mut Writer::new(dest))
    }

    fn data_length(&self) -> Option<usize>
        ensures length { GivesLength (Unit {0})
            (Joins T.der.encodings (left T.der.read self.now.content.now)) result }
        ensures known { IsSome result }
    {
        // By this call's contract each item has one encoding, which is the octets that it was read from.
        let _accepted = T::can_parse(Tag::constructed(0x10));
        Some(self.content.len())
    }

    fn writes_as_read() -> bool
        ensures { IsTrue result → (e : T.Error) → ¬ OneNames T.write_errors e }
    {
        T::writes_as_read()
    }
}
