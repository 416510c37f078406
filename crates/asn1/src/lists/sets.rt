//! SET and SET OF (X.690 8.11, 8.12): SET as it is encoded, its elements in the order of their tags (10.3), and SET OF
//! as an iterator, its items in the order of their encodings (11.6).

ghost use Rattle.std.specs.Prelude.{◌≡◌, ◌↔◌, ◌<◌};
ghost use Rattle.std.specs.Prelude.{ℕ, IsTrue, List, [], ◌∷◌, length, map, Result, OnOk, OnErr, IfOk, IfErr};
ghost use Rattle.std.specs.Prelude.{IfNone, IfSome, IsOk, IsSome, nat_eq};
ghost use Rattle.std.specs.Iterator.{at_most};
ghost use Rattle.std.specs.Hash as fed;
ghost use Rattle.std.specs.Cmp.{partial_equiv_from_equiv, on_per, on_equiv};
ghost use Rattle.std.specs.Cmp.Lexicographic.{pointwise, nat_list_eq_equiv};
ghost use Rattle.std.specs.Cmp.Rules.{hashing};
ghost use Rattle.std.proofs.Common.{rules};
ghost use Rattle.asn1_core.specs.Buffer.{Appends, KeepsPrefix};
ghost use Rattle.std.specs.List.{flat_map, AllByRecursion};
ghost use Rattle.asn1_core.specs.Listing.{encoding_less, AnyNames, Joins, OneNames, SameEncodings, set_tag};
ghost use Rattle.asn1_core.specs.Tag.{tag_less};
ghost use Rattle.asn1_core.specs.Tlv.{element_of};
ghost use Rattle.asn1_core.specs.Reading.{Returns, EndsWith, Fits, ReadsBy, framed_element};
ghost use Rattle.asn1_core.specs.Reads.{ReadsContents};
ghost use Rattle.asn1_core.specs.Der.{simple_der};
ghost use Rattle.asn1_core.specs.Writing.{buffer_name, octets_of, GivesLength, NamesError};
ghost use Rattle.asn1.specs.Lists.{AreOctets, NextItem};
ghost use Rattle.asn1.specs.Sets.{AreOrdered, set_left, set_item, checked, set_item_out, set_out, first_out};
ghost use Rattle.asn1.specs.Sets.{element_behind};
ghost use Rattle.asn1.specs.SetTypes.{set_content};
ghost use Rattle.asn1.specs.LawsOf.Lists.{set_content_laws};
ghost use Rattle.asn1.specs.Types.{set_der};
ghost use Rattle.asn1.specs.MadeLists.{IsMadeOf, in_order};

use crate::lists::{are_octets, at_item, contents_of, push_item};
use asn1_core::{
    Asn1Readable, Asn1Type, Asn1Writable, ParseError, ParseErrorKind, ParseResult, Parser,
    SetOfWriter, SimpleAsn1Readable, SimpleAsn1Writable, Tag, Tlv, WriteBuf, WriteError,
    WriteResult, Writer, parse, write_single,
};
use std::alloc::{AllocError, Global};
use std::fmt;
use std::hash::{Hash, Hasher};
use std::marker::PhantomData;

/// Reads the element at an index, after one with the encoding `before`: frames the element, checks the order, and
/// reads the item, which must span the whole element. Returns the item and the element's encoding.
#[inline(always)]
fn read_in_order<'a, T: Asn1Readable<'a>>(
    parser: &mut Parser<'a>,
    before: &'a [u8],
    index: usize,
) -> ParseResult<(T, &'a [u8])>
    ensures answers { Returns (λ x. (T.der.meaning x.0, x.1.now, parser.new))
        (set_item_out encoding_less T.der.runs_out before.now index parser.old) result
        (set_item encoding_less T.der.read before.now index parser.old) }
    ensures rest { EndsWith parser.old parser.new }
{
    let tlv = match parser.read_element::<Tlv<'a>>() {
        Ok(tlv) => tlv,
        Err(error) => return Err(at_item(error, index)),
    };
    let text = tlv.full_data();
    if text.cmp(before).is_lt() {
        return Err(at_item(ParseError::new(ParseErrorKind::InvalidSetOrdering), index));
    }
    match tlv.parse::<T>(parser.alloc()) {
        Ok(value) => Ok((value, text)),
        Err(error) => Err(at_item(error, index)),
    }
}

/// Reads the items of contents octets, and rejects them if they aren't in order.
fn check_items<'a, T: Asn1Readable<'a>>(alloc: Global, content: &'a [u8]) -> ParseResult<()>
    ensures { Returns (λ x. x) (set_out encoding_less T.der.read T.der.runs_out []
        (length content.entry.now) 0 content.entry.now) result
        (checked encoding_less T.der.read [] 0 content.entry.now) }
{
    let mut parser = Parser::new(alloc, content);
    let mut before = &content[..0];
    let mut index = 0;
    'items: while !parser.is_empty() {
        let (_item, text) = read_in_order::<T>(&mut parser, before, index)?;
        before = text;
        index += 1;
    }
    Ok(())
}

/// Reads the element at an index, after one with the tag `last`: frames the element, and checks the order of tags.
fn read_behind<'a>(parser: &mut Parser<'a>, last: Option<Tag>, index: usize) -> ParseResult<Tlv<'a>>
    ensures answers { Returns (λ t. (element_of t, parser.new)) (λ places. ⊥) result
        (element_behind last index parser.old) }
    ensures rest { EndsWith parser.old parser.new }
{
    let tlv = match parser.read_element::<Tlv<'a>>() {
        Ok(tlv) => tlv,
        Err(error) => return Err(at_item(error, index)),
    };
    match last {
        Some(last) if tlv.tag().comes_before(last) => Err(at_item(
            ParseError::new(ParseErrorKind::InvalidSetOrdering),
            index,
        )),
        _ => Ok(tlv),
    }
}

/// Reads the elements of contents octets, and rejects them if their tags aren't in order.
fn check_elements(alloc: Global, content: &[u8]) -> ParseResult<()>
    ensures { Returns (λ x. x) (λ places. ⊥) result
        (checked tag_less framed_element [] 0 content.entry.now) }
{
    let mut parser = Parser::new(alloc, content);
    let mut last = None;
    let mut index = 0;
    'elements: while !parser.is_empty() {
        let tlv = read_behind(&mut parser, last, index)?;
        last = Some(tlv.tag());
        index += 1;
    }
    Ok(())
}

/// SET (X.690 8.11, 10.3; universal 17, constructed) as it is encoded: its contents octets, which are elements in the
/// order of their tags, borrowed from the input. They are read by [`Set::parse`], and written as they were read.
///
/// Tags are compared by class, from universal to private, and within a class by number (X.680 8.6); equal neighbours
/// are allowed. Whether an element is constructed plays no part, nor do its contents octets. Reading a set checks
/// each element in turn. The first error decides: that of framing, or `InvalidSetOrdering` if an element's tag comes
/// before the tag of the element before it. Each has the location `Index(i)`, i being counted from 0. Reading doesn't
/// allocate. Two sets are equal if their contents octets are.
///
/// ```text
/// let set = parse_single::<Set<'_>>(alloc, octets)?;
/// set.parse(alloc, |parser: &mut Parser<'_>| -> ParseResult<(bool, u64)> {
///     Ok((parser.read_element::<bool>()?, parser.read_element::<u64>()?))
/// })
/// ```
#[derive(Debug, PartialEq, Eq, Hash, Drop)]
pub struct Set<'a> {
    data: &'a [u8],
    pub ghost is_ordered: { AreOrdered tag_less framed_element «data».now },
}

impl<'a> Set<'a> {
    ghost use Rattle.asn1.specs.InHand.{octets_of_set};

    /// Reads the contents octets by `f`, as [`asn1_core::parse`] does.
    ///
    /// Errors: an error of `f` is returned as it is. If `f` returns a value and octets remain, the error is
    /// `ExtraData`, without a location. The caller has to prove that `f` may always be called (`requires`).
    pub fn parse<T: Drop, E: From<ParseError> + Drop, F: Fn(&mut Parser<'a>) -> Result<T, E>>(
        self,
        alloc: Global,
        f: F,
    ) -> Result<T, E>
        requires { F.IsAlwaysCallable f }
        ensures { ReadsBy F.FnOnce E.from_gives f (octets_of_set self.entry) result }
    {
        parse(alloc, self.data, f)
    }
}

impl<'a> Clone for Set<'a> {
    ghost use Rattle.asn1.specs.InHand.{octets_of_set};

    ghost is_clone = { λ x y. octets_of_set y ≡ octets_of_set x };

    ghost is_infallible = { λ _. Unit {0} };

    fn clone(&self) -> Result<Self, AllocError> {
        Ok(Set { data: self.data })
    }
}

impl<'a> Asn1Type for Set<'a> {
    ghost use Rattle.asn1.specs.InHand.{octets_of_set};

    ghost der = { simple_der octets_of_set set_content set_content_laws };

    fn known(&self) {
        self.data.known();
    }
}

impl<'a> SimpleAsn1Readable<'a> for Set<'a> {
    ghost use Rattle.asn1.specs.InHand.{octets_of_set};

    fn tag() -> Tag
        ensures value { result ≡ set_tag }
        ensures simple { Unit {0} }
        ensures plain { Unit {0} }
        ensures read { Unit {0} }
    {
        Tag::constructed(0x11)
    }

    fn parse_data(alloc: Global, data: &'a [u8]) -> ParseResult<Self>
        ensures { ReadsContents ⟦<Set<'a> as Asn1Type>⟧.der «data».entry.now result }
    {
        check_elements(alloc, data)?;
        Ok(Set { data })
    }
}

impl SimpleAsn1Writable for Set<'_> {
    ghost use Rattle.asn1.specs.InHand.{octets_of_set};

    type Error = WriteError;

    ghost length_known = { λ _. Unit {0} };

    fn tag() -> Tag
        ensures value { result ≡ set_tag }
        ensures simple { Unit {0} }
    {
        Tag::constructed(0x11)
    }

    fn write_data(&self, dest: &mut WriteBuf) -> WriteResult<()> {
        dest.push_slice(self.data)
    }

    fn data_length(&self) -> Option<usize>
        ensures length { GivesLength (Unit {0}) (λ t. t ≡ octets_of_set self.now) result }
        ensures known { result ≡ Some (length (octets_of_set self.now)) }
    {
        Some(self.data.len())
    }

    fn writes_as_read() -> bool
        ensures { IsTrue result }
    {
        true
    }
}

/// SET OF (X.690 8.12, 11.6; universal 17, constructed), as an iterator over the items that remain: items of one type
/// in ascending order of their encodings, equal neighbours allowed.
///
/// Its value is the list of these items, and their encodings are written. Two sets are equal, and have the same hash,
/// if the remaining octets are the same. These are the same exactly if the items are ([`crate::laws::equal_items`]).
/// A clone doesn't allocate.
///
/// Reading a set checks each element in turn. The first error decides: that of framing; then `InvalidSetOrdering` if
/// the element's encoding is less than that of the element before it; then the item's first error on that encoding;
/// then `ExtraData` if octets of the encoding remain. Each has the location `Index(i)`, i being counted from 0. Only
/// reading the items allocates.
///
/// The iterator returns what the iterator of [`crate::SequenceOf`] does, and so do writing and the length.
///
/// ```text
/// const FIVE_TWICE: &[u8] = &[0x31, 0x06, 0x02, 0x01, 0x05, 0x02, 0x01, 0x05];
///
/// let mut set = parse_single::<SetOf<'_, u64>>(alloc, FIVE_TWICE)?;
/// assert!(rt; matches!(set.next(), Some(Ok(5))));
/// ```
#[derive(Drop)]
pub struct SetOf<'a, T: Asn1Type> {
    content: &'a [u8],
    alloc: Global,
    of: PhantomData<T>,
    pub ghost are_octets: { AreOctets content.now },
    pub ghost are_ordered: { AreOrdered encoding_less T.der.read content.now },
}

impl<'a, T: Asn1Readable<'a>> SetOf<'a, T> {
    /// The items that remain, in the order of the set. The only error is `AllocationError`, without a location of this
    /// set, if there is no memory for the vector or if reading an item allocates.
    pub fn to_vec(&self) -> ParseResult<Vec<T>>
        ensures items { IfOk result (λ all. map T.der.meaning all.items
            ≡ ⟦<SetOf<'a, T> as Asn1Type>⟧.der.meaning self.now) }
    {
        let mut all = Vec::new(self.alloc);
        for item in self.clone().unwrap() {
            push_item(&mut all, item?)?;
        }
        Ok(all)
    }

    /// Takes the next item in the order of the set; `None` if none remains. The only error is `AllocationError`, if
    /// reading an item allocates; the next call goes on after this item.
    pub fn take_next(&mut self) -> ParseResult<Option<T>>
        ensures none { IfOk result (λ next. IfNone next
            (⟦<SetOf<'a, T> as Asn1Type>⟧.der.meaning self.old ≡ [])) }
        ensures some { IfOk result (λ next. IfSome next (λ v.
            ⟦<SetOf<'a, T> as Asn1Type>⟧.der.meaning self.old
            ≡ T.der.meaning v ∷ ⟦<SetOf<'a, T> as Asn1Type>⟧.der.meaning self.new)) }

        // If reading an item doesn't allocate, there is no error.
        ensures no_memory_error { ¬ T.der.takes_memory → IsOk result }
    {
        match self.next() {
            None => Ok(None),
            Some(Ok(item)) => Ok(Some(item)),
            Some(Err(error)) => Err(error),
        }
    }

    /// States that each item that remains may be read back: it was read, so it is within its bounds. The call does
    /// nothing at run time.
    pub fn known_items(&self)
        ensures { AllByRecursion T.der.allowed (⟦<SetOf<'a, T> as Asn1Type>⟧.der.meaning self.now) }
    {}
}

impl<'a, T: Asn1Readable<'a> + Asn1Writable> SetOf<'a, T> {
    /// The set of these items, which may come in any order. It has them in ascending order of their encodings, equal
    /// ones as often as the slice has them, and borrows its octets from `store`.
    ///
    /// Errors are those of [`SequenceOf::of`]. A set has no bounds.
    ///
    /// ```text
    /// let mut store = Vec::new(alloc);
    /// let set = SetOf::of(alloc, &[7u64, 5], &mut store)??;
    /// is_written(alloc, &set, &[0x31, 0x06, 0x02, 0x01, 0x05, 0x02, 0x01, 0x07])?;
    /// ```
    pub fn of(
        alloc: Global,
        items: &[T],
        store: &'a mut Vec<u8>,
    ) -> Result<ParseResult<Self>, T::Error>
        // The set is what reading the items' encodings in order returns, if they are short enough to be read.
        ensures read { let sets = ⟦<SetOf<'a, T> as Asn1Type>⟧.der in
            let ordered = in_order T.der.encoding (map T.der.meaning items.now) in
            Fits (sets.encoding ordered)
            → IfOk result (ReadsContents sets (flat_map T.der.encoding ordered)) }

        // The set means the items, in ascending order of their encodings.
        ensures items { let sets = ⟦<SetOf<'a, T> as Asn1Type>⟧.der in
            let meanings = map T.der.meaning items.now in
            T.der.lawful → T.der.is_element → AllByRecursion T.der.allowed meanings
            → IfOk result
            (λ read. IfOk read (λ set. sets.meaning set ≡ in_order T.der.encoding meanings)) }
        ensures unbounded { let sets = ⟦<SetOf<'a, T> as Asn1Type>⟧.der in
            T.der.lawful → T.der.is_element → ¬ T.der.bounded
            → IfOk result (λ read. IfOk read (λ set. sets.meaning set
            ≡ in_order T.der.encoding (map T.der.meaning items.now))) }

        // So it is the set of other items exactly if these have the same encodings, each as often.
        ensures valid { AllByRecursion T.der.valid (map T.der.meaning items.now) }
        ensures tell { let sets = ⟦<SetOf<'a, T> as Asn1Type>⟧.der in
            let meanings = map T.der.meaning items.now in
            T.der.lawful → T.der.is_element → AllByRecursion T.der.allowed meanings
            → (others : List T) → AllByRecursion T.der.valid (map T.der.meaning others)
            → IfOk result (λ read. IfOk read (λ set. (sets.meaning set
            ≡ in_order T.der.encoding (map T.der.meaning others))
            ↔ SameEncodings (map (λ v. T.der.encoding (T.der.meaning v)) items.now)
            (map (λ v. T.der.encoding (T.der.meaning v)) others))) }

        // There is such a set if the items' encodings are short enough to be read.
        ensures made { let sets = ⟦<SetOf<'a, T> as Asn1Type>⟧.der in
            let meanings = map T.der.meaning items.now in
            let ordered = in_order T.der.encoding meanings in
            T.der.lawful → T.der.is_element → AllByRecursion T.der.allowed meanings
            → Fits (sets.encoding ordered)
            → IfOk result (λ read. Returns sets.meaning
            (sets.content.runs_out (flat_map T.der.encoding ordered)) read (Ok ordered)) }

        // If reading an item doesn't allocate, there is one.
        ensures there { let sets = ⟦<SetOf<'a, T> as Asn1Type>⟧.der in
            let meanings = map T.der.meaning items.now in
            T.der.lawful → T.der.is_element → ¬ T.der.takes_memory
            → AllByRecursion T.der.allowed meanings
            → Fits (sets.encoding (in_order T.der.encoding meanings))
            → IfOk result (λ read. IsOk read) }
        ensures error { IfErr result (NamesError T.Error.from_gives
            (AnyNames T.write_errors items.now)) }
    {
        // By this call's contract each item has one encoding.
        let _accepted = T::can_parse(Tag::constructed(0x11));
        let set = SetOfWriter::new(items);
        set.known();
        *store = write_single(alloc, &set)?;
        match contents_of(store.as_slice()) {
            Ok(contents) => Ok(<Self as SimpleAsn1Readable<'a>>::parse_data(alloc, contents)),
            Err(error) => Ok(Err(error)),
        }
    }
}

impl<'a, T: Asn1Type> Clone for SetOf<'a, T> {
    ghost is_clone = { λ x y. y.content.now ≡ x.content.now };

    ghost is_infallible = { λ _. Unit {0} };

    fn clone(&self) -> Result<Self, AllocError> {
        Ok(SetOf {
            content: self.content,
            alloc: self.alloc,
            of: PhantomData,
        })
    }
}

/// The items that remain, as a list.
impl<'a, T: Asn1Readable<'a> + fmt::Debug> fmt::Debug for SetOf<'a, T> {
    fn fmt<W: fmt::Write>(&self, f: &mut fmt::Formatter<W>) -> fmt::Result {
        let mut list = f.debug_list();
        for item in self.clone().unwrap() {
            match item {
                Ok(item) => list.entry(&item),
                Err(error) => list.entry(&error),
            };
        }
        list.finish()
    }
}

impl<'a, T: Asn1Type> PartialEq for SetOf<'a, T> {
    ghost eq = { λ x y. pointwise nat_eq x.content.now y.content.now };

    ghost laws = { on_per (λ x. x.content.now) (partial_equiv_from_equiv nat_list_eq_equiv) };

    fn eq(&self, other: &Self) -> bool
        ensures value { result ≡ pointwise nat_eq self.now.content.now other.now.content.now }
        ensures items { IsTrue result ↔ (set_left encoding_less T.der.read self.now.content.now
            ≡ set_left encoding_less T.der.read other.now.content.now) }

        // Two sets that are made of items are equal exactly if these have the same encodings, each as often.
        ensures tell { T.der.is_read → T.der.lawful → (vs ws : List T) (ts us : List (List ℕ))
            → IsMadeOf T.der self.now.content.now vs ts
            → IsMadeOf T.der other.now.content.now ws us
            → IsTrue result → SameEncodings ts us }
        ensures told { T.der.is_read → T.der.lawful → (vs ws : List T) (ts us : List (List ℕ))
            → IsMadeOf T.der self.now.content.now vs ts
            → IsMadeOf T.der other.now.content.now ws us
            → SameEncodings ts us → IsTrue result }
    {
        self.content == other.content
    }
}

impl<'a, T: Asn1Type> Eq for SetOf<'a, T> {
    ghost laws = { on_equiv (λ x. x.content.now) nat_list_eq_equiv };
}

impl<'a, T: Asn1Type> Hash for SetOf<'a, T> {
    ghost hash_input = { λ x. fed.slice fed.u8 x.content.now };

    ghost respects_eq = { Prim.search (hashing, rules) };

    fn hash<H: Hasher>(&self, state: &mut H) {
        self.content.hash(state);
    }
}

impl<'a, T: Asn1Type> Asn1Type for SetOf<'a, T> {
    ghost der = { set_der T.der
        (λ s. set_left encoding_less T.der.read s.content.now) };

    fn known(&self) {}
}

impl<'a, T: Asn1Readable<'a>> SimpleAsn1Readable<'a> for SetOf<'a, T> {
    fn tag() -> Tag
        ensures value { result ≡ set_tag }
        ensures simple { Unit {0} }
        ensures plain { T.der.plain }
        ensures read { T.der.is_read }
    {
        let tag = Tag::constructed(0x11);
        // By this call's contract each value of the items' type has one encoding.
        let _accepted = T::can_parse(tag);
        tag
    }

    fn parse_data(alloc: Global, data: &'a [u8]) -> ParseResult<Self>
        ensures { ReadsContents ⟦<SetOf<'a, T> as Asn1Type>⟧.der «data».entry.now result }
    {
        check_items::<T>(alloc, data)?;
        Ok(SetOf {
            content: data,
            alloc,
            of: PhantomData,
        })
    }
}

/// Reads the first of the items. The parser is then after this item, also if out of memory.
#[inline(always)]
fn read_first<'a, T: Asn1Readable<'a>>(parser: &mut Parser<'a>) -> ParseResult<T>
    requires some { 0 < length parser.now }
    requires are_ordered { AreOrdered encoding_less T.der.read parser.now }
    ensures item { NextItem (first_out T.der.runs_out parser.old) T.der.meaning
        (set_left encoding_less T.der.read parser.old) (Some result)
        (set_left encoding_less T.der.read parser.new) }
    ensures after { AreOrdered encoding_less T.der.read parser.new }
    ensures shorter { length parser.new < length parser.old }
{
    parser.rest().known();
    let Ok(tlv) = parser.read_element::<Tlv<'a>>() else {
        unreachable!()
    };
    tlv.parse::<T>(parser.alloc())
}

impl<'a, T: Asn1Readable<'a>> Iterator for SetOf<'a, T> {
    type Item = ParseResult<T>;

    ghost next_gives = { λ s r t. NextItem (first_out T.der.runs_out s.content.now) T.der.meaning
        (set_left encoding_less T.der.read s.content.now) r
        (set_left encoding_less T.der.read t.content.now) };

    ghost remaining = { λ s. at_most (length s.content.now) };

    #[inline]
    fn next(&mut self) -> Option<ParseResult<T>> {
        if self.content.is_empty() {
            return None;
        }
        let mut parser = Parser::new(self.alloc, self.content);
        let answer = read_first::<T>(&mut parser);
        let rest = parser.rest();
        are_octets(rest);
        self.content = rest;
        // An error is large. If an item was read, only the item is moved.
        match answer {
            Ok(value) => Some(Ok(value)),
            Err(error) => Some(Err(error)),
        }
    }
}

/// Writes the items of contents octets, in order.
fn write_set_items<'a, T: Asn1Readable<'a> + Asn1Writable>(
    alloc: Global,
    items: &'a [u8],
    writer: &mut Writer<'_>,
) -> Result<(), T::Error>
    requires are_ordered { AreOrdered encoding_less T.der.read items.now }
    requires closures { AllByRecursion T.der.closures (set_left encoding_less T.der.read
        items.now) }
    ensures same_buffer { buffer_name writer.new ≡ buffer_name writer.old }
    ensures ok { OnOk result (Appends
        (Joins T.der.encodings (set_left encoding_less T.der.read items.entry.now))
        (octets_of writer.old) (octets_of writer.new)) }
    ensures err { OnErr result (KeepsPrefix (octets_of writer.old) (octets_of writer.new)) }
    ensures error { IfErr result (NamesError T.Error.from_gives (OneNames T.write_errors)) }
{
    let mut parser = Parser::new(alloc, items);
    'items: while !parser.is_empty() {
        match read_first::<T>(&mut parser) {
            Ok(value) => writer.write_element(&value)?,
            Err(_) => return Err(T::Error::from(WriteError::AllocationError)),
        }
    }
    Ok(())
}

impl<'a, T: Asn1Readable<'a> + Asn1Writable> SimpleAsn1Writable for SetOf<'a, T> {
    type Error = T::Error;

    ghost write_errors = { λ _. OneNames T.write_errors };

    ghost length_known = { λ _. Unit {0} };

    fn tag() -> Tag
        ensures value { result ≡ set_tag }
        ensures simple { Unit {0} }
    {
        Tag::constructed(0x11)
    }

    fn write_data(&self, dest: &mut WriteBuf) -> Result<(), T::Error> {
        if T::writes_as_read() {
            // By this call's contract each item has one encoding, which is the octets that it was read from.
            let _accepted = T::can_parse(Tag::constructed(0x11));
            dest.push_slice(self.content)?;
            return Ok(());
        }
        write_set_items::<T>(self.alloc, self.content, &mut Writer::new(dest))
    }

    fn data_length(&self) -> Option<usize>
        ensures length { GivesLength (Unit {0})
            (Joins T.der.encodings (set_left encoding_less T.der.read self.now.content.now))
            result }
        ensures known { IsSome result }
    {
        // By this call's contract each item has one encoding, which is the octets that it was read from.
        let _accepted = T::can_parse(Tag::constructed(0x11));
        Some(self.content.len())
    }

    fn writes_as_read() -> bool
        ensures { IsTrue result → (e : T.Error) → ¬ OneNames T.write_errors e }
    {
        T::writes_as_read()
    }
}
