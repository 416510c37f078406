//! At which octet of the input an error is.
//!
//! An error keeps no octet, so that reading doesn't compute any. It is found afterwards: by reading copies of the input
//! in which the octets from some place on are replaced. As long as these decide the error, it changes.

ghost use Rattle.std.specs.Prelude.{◌≡◌, ◌⊎◌, ◌<◌, ◌≤◌, ℕ, Option, length, true, false, IfNone, IfSome, IsTrue};
ghost use Rattle.std.specs.Fn.{FnReturnsAt};
ghost use Rattle.asn1_core.specs.ReadError.{ReadError};
ghost use Rattle.asn1_core.specs.Tag.{tag_number};
ghost use Rattle.asn1.specs.ErrorOctets.{Decide, EndsAround, IsBeginning, IsElement, IsEnd, IsErrorOctet};
ghost use Rattle.asn1.specs.ErrorOctets.{IsWrongElement, IsWrongHeader, behind_elements};
ghost use Rattle.asn1.specs.ErrorOctets.{contents_at, contents_with, innermost};
ghost use Rattle.asn1_core.specs.Tlv.{element_of};
ghost use Rattle.asn1.specs.ErrorOctets.{IsFirstLeft, IsInnermost, IsReadThere, IsTurn, element_with, has_wrong_length};
ghost use Rattle.asn1.specs.ErrorOctets.{LeaveOpen, kept, replacement, takes_tag, with_tag};

use asn1_core::{ParseError, ParseErrorKind, Tag, Tlv, strip_tlv};

/// An element of the input: where its parts begin and where it ends, in octets counted from 0.
#[derive(Clone, Copy, Drop)]
struct Frame {
    start: usize,
    length: usize,
    contents: usize,
    end: usize,
    is_constructed: bool,
}

/// An input, what rejects it, and the error.
#[derive(Drop)]
struct Rejected<'a, F> {
    octets: &'a [u8],
    rejects: &'a F,
    error: ParseError,
}

/// The element that begins at `start`, if it ends at `limit` or before.
fn frame_at(octets: &[u8], start: usize, limit: usize) -> Option<Frame> {
    let there = octets.get(start..limit)?;
    let (element, rest) = strip_tlv(there).ok()?;
    let (tag, behind) = Tag::from_bytes(there).ok()?;
    let end = limit.saturating_sub(rest.len());
    Some(Frame {
        start,
        length: limit.saturating_sub(behind.len()),
        contents: end.saturating_sub(element.data().len()),
        end,
        is_constructed: tag.is_constructed(),
    })
}

/// The first of the elements from `start` to `limit` that ends behind this octet; or where one begins that is none.
fn element_behind(octets: &[u8], start: usize, limit: usize, octet: usize) -> Result<Frame, usize> {
    let mut start = start;
    for _ in start..limit {
        match frame_at(octets, start, limit) {
            Some(frame) if octet < frame.end => return Ok(frame),
            Some(frame) => start = frame.end,
            None => break,
        }
    }
    Err(start)
}

/// Of elements one after another, where the one begins that has this octet.
fn element_with(octets: &[u8], octet: usize) -> Option<usize>
    ensures exact { result ≡ element_with (length octets.now) (length octets.now) octet 0
        octets.now }
    ensures within { IfSome result (λ start. start ≤ length octets.now) }
{
    let (mut start, mut rest) = (0, octets);
    'elements: for _turn in 0..octets.len() {
        let Ok((_element, left)) = strip_tlv(rest) else {
            return None;
        };
        let end = octets.len().saturating_sub(left.len());
        if octet < end {
            return Some(start);
        }
        (start, rest) = (end, left);
    }
    None
}

/// The octets behind elements one after another: the first of them begin no element.
fn behind_elements(octets: &[u8]) -> &[u8]
    ensures { result.now ≡ behind_elements (length octets.now) octets.now }
{
    let mut rest = octets;
    'elements: for _turn in 0..octets.len() {
        match strip_tlv(rest) {
            Ok((_element, left)) => rest = left,
            Err(_) => return rest,
        }
    }
    rest
}

/// The contents octets of the first element of the octets that begin at `start`, and where they begin, if the element
/// is constructed and has this octet in them, or is empty.
fn contents_at(octets: &[u8], octet: usize, start: usize) -> Option<(usize, &[u8])>
    requires { start ≤ length octets.now }
    ensures some { IfSome result (λ x. contents_at octets.now octet start ≡ Some (x.0, x.1.now)) }
    ensures none { IfNone result (contents_at octets.now octet start ≡ None) }
{
    let (_before, there) = octets.split_at(start);
    let Ok((element, rest)) = strip_tlv(there) else {
        return None;
    };
    let end = octets.len().saturating_sub(rest.len());
    let begin = end.saturating_sub(element.data().len());
    if element.tag().is_constructed() && (octet >= begin || element.data().is_empty()) {
        Some((begin, element.data()))
    } else {
        None
    }
}

/// Of elements one after another, the contents octets of the constructed one that has this octet in them, or is empty
/// and has it; and where these begin.
fn contents_with(octets: &[u8], octet: usize) -> Option<(usize, &[u8])>
    ensures some { IfSome result (λ x. contents_with octets.now octet ≡ Some (x.0, x.1.now)) }
    ensures none { IfNone result (contents_with octets.now octet ≡ None) }
{
    match element_with(octets, octet) {
        Some(start) => contents_at(octets, octet, start),
        None => None,
    }
}

/// The contents octets of the innermost constructed element that has this octet in them, or all octets if none has:
/// where they begin, they, and where in them the octet is.
fn innermost(octets: &[u8], octet: usize) -> Option<(usize, &[u8], usize)>
    ensures { IfSome result (λ x. innermost (length octets.now) 0 octets.now octet
        ≡ (x.0, (x.1.now, x.2))) }
{
    let (mut begin, mut around, mut octet) = (0usize, octets, octet);
    'elements: for _depth in 0..octets.len() {
        let Some((start, inner)) = contents_with(around, octet) else {
            return Some((begin, around, octet));
        };
        begin = begin.checked_add(start)?;
        (around, octet) = (inner, octet.saturating_sub(start));
    }
    Some((begin, around, octet))
}

/// Whether an element is to begin at this octet, since the elements before it end there.
fn is_beginning(octets: &[u8], octet: usize) -> bool
    ensures { IsTrue result → IsBeginning octets.now octet }
{
    match innermost(octets, octet) {
        Some((_begin, around, octet)) => {
            octet == around.len().saturating_sub(behind_elements(around).len())
        }
        None => false,
    }
}

/// Whether an input in which an element has a wrong length is rejected for that, at the location of the error.
fn has_wrong_length(error: &ParseError, other: Option<ParseError>) -> bool
    ensures { result ≡ has_wrong_length error.now other }
{
    let Some(other) = other else {
        return false;
    };
    match other.kind() {
        ParseErrorKind::InvalidLength => other.places() == error.places(),
        _ => false,
    }
}

/// Where the element that begins at `start` ends.
fn element_end(octets: &[u8], start: usize) -> Option<usize>
    ensures { IfSome result (IsElement octets.now start) }
{
    if start > octets.len() {
        return None;
    }
    let (_before, there) = octets.split_at(start);
    match strip_tlv(there) {
        Ok((_element, rest)) => Some(octets.len().saturating_sub(rest.len())),
        Err(_) => None,
    }
}

/// What is around an octet.
#[derive(Drop)]
struct Around {
    /// The innermost element.
    innermost: Option<Frame>,
    /// The innermost that is read at the location of the error.
    read_there: Option<Frame>,
    /// Where what is around ends.
    limit: usize,
    /// Where an element begins that is broken off.
    broken: Option<usize>,
}

/// A copy in `scratch`, in which the first octets are kept and each other is replaced. `None` if there is no room for
/// it.
fn kept_in<'a>(
    scratch: &'a mut [u8],
    octets: &[u8],
    count: usize,
    other: u8,
) -> Option<&'a mut [u8]>
    ensures copy { IfSome result (λ copy. copy.now ≡ kept count other octets.now) }
    ensures none { IfNone result (length scratch.old < length octets.now) }
{
    let copy = scratch.get_mut(..octets.len())?;
    let count = count.min(copy.len());
    let (first, others) = copy.split_at_mut(count);
    first.copy_from_slice(&octets[..count]);
    others.fill(other);
    Some(copy)
}

/// A copy in `scratch` of the octets up to `end`, in which one is the identifier octet of this tag. `None` if there is
/// no room for it, or if the tag has several octets.
fn with_tag_in<'a>(
    scratch: &'a mut [u8],
    octets: &[u8],
    octet: usize,
    end: usize,
    tag: Tag,
) -> Option<&'a mut [u8]>
    ensures copy { IfSome result (λ copy. copy.now ≡ with_tag octet end tag octets.now) }
    ensures none { IfNone result ((31 ≤ tag_number tag)
        ⊎ ((length scratch.old < length octets.now) ⊎ (length octets.now ≤ octet))) }
{
    let identifier = tag.as_u8()?;
    let copy = kept_in(scratch, octets, end, 0)?;
    if octet >= copy.len() {
        return None;
    }
    copy[octet] = identifier;
    Some(copy)
}

/// What replaces octets to find an error of this kind.
fn replacement(kind: ParseErrorKind) -> u8
    ensures { result ≡ replacement kind }
{
    match kind {
        ParseErrorKind::InvalidTag | ParseErrorKind::InvalidLength => 0x7f,
        ParseErrorKind::ShortData { .. } => 0x00,
        _ => 0xff,
    }
}

impl<F: Fn(&[u8]) -> Option<ParseError>> Rejected<'_, F> {
    /// The error of a copy, in `scratch`, in which only the first octets are kept. `None` if there is no room for it.
    fn error_of(&self, count: usize, other: u8, scratch: &mut [u8]) -> Option<Option<ParseError>>
        requires { F.IsAlwaysCallable self.now.rejects.now }
        ensures { IfSome result (FnReturnsAt F.Fn self.now.rejects.now
            (kept count other self.now.octets.now)) }
    {
        let copy = kept_in(scratch, self.octets, count, other)?;
        Some((self.rejects)(copy))
    }

    /// Whether the first octets decide the error. `None` if there is no room for a copy.
    fn is_same(&self, count: usize, scratch: &mut [u8]) -> Option<bool>
        requires { F.IsAlwaysCallable self.now.rejects.now }
        ensures yes { result ≡ Some true → Decide (FnReturnsAt F.Fn self.now.rejects.now)
            self.now.octets.now self.now.error count }
        ensures no { result ≡ Some false → LeaveOpen (FnReturnsAt F.Fn self.now.rejects.now)
            self.now.octets.now self.now.error count }
    {
        let other = replacement(self.error.kind());
        match self.error_of(count, other, scratch)? {
            Some(error) => Some(error == self.error),
            None => Some(false),
        }
    }

    /// Whether the first octets decide the error, as a copy shows.
    fn is_decided(&self, count: usize, scratch: &mut [u8]) -> bool
        requires { F.IsAlwaysCallable self.now.rejects.now }
        ensures { IsTrue result → Decide (FnReturnsAt F.Fn self.now.rejects.now)
            self.now.octets.now self.now.error count }
    {
        self.is_same(count, scratch) == Some(true)
    }

    /// Whether the first octets leave the error open, as a copy shows.
    fn is_open(&self, count: usize, scratch: &mut [u8]) -> bool
        requires { F.IsAlwaysCallable self.now.rejects.now }
        ensures { IsTrue result → LeaveOpen (FnReturnsAt F.Fn self.now.rejects.now)
            self.now.octets.now self.now.error count }
    {
        self.is_same(count, scratch) == Some(false)
    }

    /// Whether the last of these octets turns the error.
    fn is_turn(&self, count: usize, scratch: &mut [u8]) -> bool
        requires { F.IsAlwaysCallable self.now.rejects.now }
        ensures { IsTrue result → IsTurn (FnReturnsAt F.Fn self.now.rejects.now)
            self.now.octets.now self.now.error count }
    {
        count > 0 && self.is_decided(count, scratch) && self.is_open(count - 1, scratch)
    }

    /// Whether a copy shows that the element at this octet is read at the location of the error, or that it isn't.
    fn is_read_at(&self, start: usize, answer: bool, scratch: &mut [u8]) -> bool
        requires { F.IsAlwaysCallable self.now.rejects.now }
        ensures { IsTrue result → IsReadThere (FnReturnsAt F.Fn self.now.rejects.now)
            self.now.octets.now self.now.error answer start }
    {
        if start > self.octets.len() {
            return false;
        }
        let Ok((_tag, after)) = Tag::from_bytes(&self.octets[start..]) else {
            return false;
        };
        let count = self.octets.len().saturating_sub(after.len());
        match self.error_of(count, 0xff, scratch) {
            Some(other) => has_wrong_length(&self.error, other) == answer,
            None => false,
        }
    }

    /// Whether no element within this one, of those that have the last of `count` octets, is read at the location of
    /// the error. Its contents octets begin at `start`.
    fn is_innermost(
        &self,
        element: &Tlv<'_>,
        start: usize,
        count: usize,
        scratch: &mut [u8],
    ) -> bool
        requires { F.IsAlwaysCallable self.now.rejects.now }
        ensures { IsTrue result → IsInnermost (FnReturnsAt F.Fn self.now.rejects.now)
            self.now.octets.now self.now.error (element_of element.now) start count }
    {
        if !element.tag().is_constructed() || count <= start {
            return true;
        }
        match element_with(element.data(), count - 1 - start) {
            None => true,
            Some(inner) => match start.checked_add(inner) {
                None => false,
                Some(inner) => self.is_read_at(inner, false, scratch),
            },
        }
    }

    /// Whether the element at this octet is the one at which the input is rejected, if so many octets decide the error.
    fn is_at_element(&self, octet: usize, count: usize, scratch: &mut [u8]) -> bool
        requires { F.IsAlwaysCallable self.now.rejects.now }
        ensures { IsTrue result → IsWrongElement (FnReturnsAt F.Fn self.now.rejects.now)
            self.now.octets.now self.now.error octet }
    {
        if octet > self.octets.len() {
            return false;
        }
        let (_before, there) = self.octets.split_at(octet);
        let Ok((element, rest)) = strip_tlv(there) else {
            return false;
        };
        let end = self.octets.len().saturating_sub(rest.len());
        let start = end.saturating_sub(element.data().len());
        if octet >= count || count > end || !self.is_turn(count, scratch) {
            return false;
        }
        if !self.is_open(octet, scratch) || !self.is_decided(end, scratch) {
            return false;
        }
        if !self.is_read_at(octet, true, scratch) {
            return false;
        }
        self.is_innermost(&element, start, count, scratch)
    }

    /// Whether the header at this octet is the one for which the input is rejected.
    fn is_at_header(&self, octet: usize, scratch: &mut [u8]) -> bool
        requires { F.IsAlwaysCallable self.now.rejects.now }
        ensures { IsTrue result → IsWrongHeader (FnReturnsAt F.Fn self.now.rejects.now)
            self.now.octets.now self.now.error octet }
    {
        if octet > self.octets.len() {
            return false;
        }
        match strip_tlv(&self.octets[octet..]) {
            Ok(_) => false,
            Err(error) => {
                error == ParseError::new(self.error.kind())
                    && is_beginning(self.octets, octet)
                    && self.is_open(octet, scratch)
            }
        }
    }

    /// Whether octets from this one on are left over, behind the element that begins at `start` or its header.
    fn is_behind(&self, octet: usize, start: usize, scratch: &mut [u8]) -> bool
        requires { F.IsAlwaysCallable self.now.rejects.now }
        ensures { IsTrue result → IsFirstLeft (FnReturnsAt F.Fn self.now.rejects.now)
            self.now.octets.now self.now.error octet }
    {
        if start > self.octets.len() {
            return false;
        }
        let (_before, there) = self.octets.split_at(start);
        let Ok((element, rest)) = strip_tlv(there) else {
            return false;
        };
        let Ok((_tag, after)) = Tag::from_bytes(there) else {
            return false;
        };
        let end = self.octets.len().saturating_sub(rest.len());
        let contents = end.saturating_sub(element.data().len());
        if octet != end && octet != contents {
            return false;
        }
        if !self.is_open(self.octets.len().saturating_sub(after.len()), scratch) {
            return false;
        }
        self.is_decided(octet, scratch)
    }

    /// Where the innermost constructed element around an octet ends, or the input; or the element in it that has the
    /// octet, if it is read at the location of the error.
    fn end_around(&self, octet: usize, scratch: &mut [u8]) -> Option<usize>
        requires { F.IsAlwaysCallable self.now.rejects.now }
        ensures { IfSome result (EndsAround (FnReturnsAt F.Fn self.now.rejects.now)
            self.now.octets.now self.now.error octet) }
    {
        let (begin, around, octet) = innermost(self.octets, octet)?;
        let Some(start) = element_with(around, octet) else {
            return begin.checked_add(around.len());
        };
        let place = begin.checked_add(start)?;
        if self.is_read_at(place, true, scratch) {
            return begin.checked_add(element_end(around, start)?);
        }
        if self.is_read_at(place, false, scratch) {
            return begin.checked_add(around.len());
        }
        None
    }

    /// Whether the octets before this one decide the error, whatever is in place of the others.
    fn is_always_decided(&self, octet: usize, scratch: &mut [u8]) -> bool
        requires { F.IsAlwaysCallable self.now.rejects.now }
        ensures { IsTrue result → FnReturnsAt F.Fn self.now.rejects.now
            (kept octet 255 self.now.octets.now) (Some self.now.error) }
    {
        match self.error_of(octet, 0xff, scratch) {
            Some(Some(error)) => error == self.error,
            _ => false,
        }
    }

    /// Whether octets are missing at this one, if so many octets decide the error.
    fn is_at_end(&self, octet: usize, count: usize, scratch: &mut [u8]) -> bool
        requires { F.IsAlwaysCallable self.now.rejects.now }
        ensures { IsTrue result → IsEnd (FnReturnsAt F.Fn self.now.rejects.now)
            self.now.octets.now self.now.error octet }
    {
        if !self.is_decided(octet, scratch) || !self.is_always_decided(octet, scratch) {
            return false;
        }
        if count == 0 {
            return octet == self.octets.len() && self.is_decided(0, scratch);
        }
        self.is_turn(count, scratch) && self.end_around(count - 1, scratch) == Some(octet)
    }

    /// Whether the error is at this octet, if so many octets decide it. For `ExtraData` the element at `before`, or its
    /// header, is before the octets that are left over.
    fn is_at(&self, octet: usize, before: usize, count: usize, scratch: &mut [u8]) -> bool
        requires { F.IsAlwaysCallable self.now.rejects.now }
        ensures found { IsTrue result → IsErrorOctet (FnReturnsAt F.Fn self.now.rejects.now)
            self.now.octets.now self.now.error octet }
        ensures within { IsTrue result → octet ≤ length self.now.octets.now }
    {
        if octet > self.octets.len() {
            return false;
        }
        match self.error.kind() {
            ParseErrorKind::ExtraData => self.is_behind(octet, before, scratch),
            ParseErrorKind::ShortData { .. } => self.is_at_end(octet, count, scratch),
            ParseErrorKind::InvalidTag | ParseErrorKind::InvalidLength => {
                self.is_at_header(octet, scratch)
            }
            _ => self.is_at_element(octet, count, scratch),
        }
    }

    /// Whether the element is read at the location of the error, as a wrong length of it shows.
    fn is_read_there(&self, frame: &Frame, scratch: &mut [u8]) -> bool
        requires { F.IsAlwaysCallable self.now.rejects.now }
    {
        match self.error_of(frame.length, 0xff, scratch) {
            Some(Some(error)) => {
                error.kind() == ParseErrorKind::InvalidLength
                    && error.places() == self.error.places()
            }
            _ => false,
        }
    }

    /// How many octets decide the error, if one less leaves it open; at least `low`.
    fn deciding(&self, low: usize, scratch: &mut [u8]) -> usize
        requires { F.IsAlwaysCallable self.now.rejects.now }
    {
        let (mut low, mut high) = (low, self.octets.len());
        // Each turn halves what is between.
        for _ in 0..usize::BITS {
            let middle = low.saturating_add(high.saturating_sub(low) / 2);
            if low >= high {
                break;
            }
            if self.is_same(middle, scratch) == Some(true) {
                high = middle;
            } else {
                low = middle.saturating_add(1);
            }
        }
        high
    }

    /// The elements around an octet.
    fn around(&self, octet: usize, scratch: &mut [u8]) -> Around
        requires { F.IsAlwaysCallable self.now.rejects.now }
    {
        let mut found = Around {
            innermost: None,
            read_there: None,
            limit: self.octets.len(),
            broken: None,
        };
        let mut start = 0;
        for _ in 0..self.octets.len() {
            let frame = match element_behind(self.octets, start, found.limit, octet) {
                Ok(frame) => frame,
                Err(broken) => {
                    found.broken = Some(broken);
                    break;
                }
            };
            found.innermost = Some(frame);
            if self.is_read_there(&frame, scratch) {
                found.read_there = Some(frame);
            }
            let is_empty = frame.contents == frame.end;
            if !frame.is_constructed || (octet < frame.contents && !is_empty) {
                break;
            }
            start = frame.contents;
            found.limit = frame.end;
            if is_empty {
                break;
            }
        }
        found
    }

    /// Where the first element begins within this one that isn't read, or else where this one ends; and where the
    /// element begins that is before that, or around it.
    fn unread_in(&self, frame: Frame, deciding: usize, scratch: &mut [u8]) -> (usize, usize)
        requires { F.IsAlwaysCallable self.now.rejects.now }
    {
        if !frame.is_constructed {
            return (frame.end, frame.start);
        }
        let (mut start, mut before) = (frame.contents, frame.start);
        for _ in frame.contents..frame.end {
            let Some(inner) = frame_at(self.octets, start, frame.end) else {
                return (start, before);
            };
            if inner.length >= deciding && self.is_same(inner.length, scratch) == Some(true) {
                return (start, before);
            }
            (start, before) = (inner.end, inner.start);
        }
        (frame.end, frame.start)
    }

    /// Where octets are missing, if so many octets decide the error.
    fn end(&self, deciding: usize, scratch: &mut [u8]) -> Option<usize>
        requires { F.IsAlwaysCallable self.now.rejects.now }
    {
        match deciding {
            0 => Some(self.octets.len()),
            _ => self.end_around(deciding - 1, scratch),
        }
    }

    /// Where the error is, if so many octets decide it, and what is read is read in the order of the input; and for
    /// `ExtraData` where the element begins that is before that.
    fn octet(&self, deciding: usize, scratch: &mut [u8]) -> Option<(usize, usize)>
        requires { F.IsAlwaysCallable self.now.rejects.now }
    {
        let around = self.around(deciding.saturating_sub(1), scratch);
        let wrong = around.read_there.or(around.innermost);
        match self.error.kind() {
            ParseErrorKind::AllocationError => None,
            ParseErrorKind::ShortData { .. } => Some((self.end(deciding, scratch)?, 0)),
            ParseErrorKind::ExtraData => Some(self.unread_in(wrong?, deciding, scratch)),
            ParseErrorKind::InvalidTag | ParseErrorKind::InvalidLength => match around.broken {
                Some(broken) => Some((broken, 0)),
                None => {
                    let deciding = self.deciding(around.innermost?.contents, scratch);
                    Some((self.around(deciding.saturating_sub(1), scratch).broken?, 0))
                }
            },
            _ => Some((wrong?.start, 0)),
        }
    }
}

/// The octet, counted from 0, at which `data` is rejected: as `openssl asn1parse` counts.
///
/// - For most kinds of errors the element is wrong that begins there: its tag, its contents octets, its count of items,
///   its place in a set, or that it is there though it equals its default. It is the innermost that decides the error,
///   of those that are read at the location of the error.
/// - For `InvalidTag` and `InvalidLength` its identifier or length octets are.
/// - For `ShortData` octets are missing there: it is the end of the element around them, or of the input.
/// - For `ExtraData` the octets from there on are left over, and none before.
///
/// `rejects` reads octets, and returns the error. It is called once for each time that the count of octets can be
/// halved, once for each element around the error, and a few times more, each time with a copy of the input in
/// `scratch`. The caller has to prove that `rejects` may always be called (`requires`).
///
/// `None` if `data` isn't rejected, if memory ran out, or if `scratch` is shorter than `data`; or if the copies show no
/// such octet, as may be if a type of one's own rejects contents octets for some others.
///
/// ```text
/// let octet = error_octet(octets, scratch.as_mut_slice(), |octets: &[u8]| {
///     parse_single::<bool>(alloc, octets).err()
/// });
/// ```
pub fn error_octet<F: Fn(&[u8]) -> Option<ParseError>>(
    data: &[u8],
    scratch: &mut [u8],
    rejects: F,
) -> Option<usize>
    requires { F.IsAlwaysCallable rejects }
    ensures found { IfSome result (λ octet. (error : ReadError)
        × FnReturnsAt F.Fn rejects «data».now (Some error)
        × IsErrorOctet (FnReturnsAt F.Fn rejects) «data».now error octet) }
    ensures within { IfSome result (λ octet. octet ≤ length «data».now) }
{
    let error = rejects(data)?;
    let rejected = Rejected {
        octets: data,
        rejects: &rejects,
        error,
    };
    let count = rejected.deciding(0, scratch);
    let (octet, before) = rejected.octet(count, scratch)?;
    if rejected.is_at(octet, before, count, scratch) {
        Some(octet)
    } else {
        None
    }
}

/// Whether an input with this tag, which is rejected so, or isn't rejected, may have the tag.
fn takes_tag(tag: Tag, error: &ParseError, other: Option<ParseError>) -> bool
    ensures { result ≡ takes_tag tag error.now other }
{
    let Some(other) = other else {
        return true;
    };
    match other.kind() {
        ParseErrorKind::UnexpectedTag { actual } => {
            !(actual == tag && other.places() == error.places())
        }
        ParseErrorKind::InvalidSetOrdering => false,
        _ => true,
    }
}

/// Whether an element with this tag may begin at `octet` of `data`, which is rejected with `error` since one with
/// another tag does.
///
/// `rejects` reads octets, and returns the error. It is called once, with a copy of `data` in `scratch` in which the
/// element has the tag, and zeros follow it. A tag that is out of order in a set isn't expected there.
///
/// `None` if `data` ends before `octet`, if the tag has a number from 31 on, or if `scratch` is shorter than `data`.
///
/// ```text
/// let is_expected = expects_tag(
///     octets,
///     &error,
///     octet,
///     tag,
///     scratch.as_mut_slice(),
///     |octets: &[u8]| { parse_single::<Holder<'_>>(alloc, octets).err() },
/// );
/// ```
pub fn expects_tag<F: Fn(&[u8]) -> Option<ParseError>>(
    data: &[u8],
    error: &ParseError,
    octet: usize,
    tag: Tag,
    scratch: &mut [u8],
    rejects: F,
) -> Option<bool>
    requires { F.IsAlwaysCallable rejects }
    ensures answer { IfSome result (λ yes. (end : ℕ) × (other : Option ReadError)
        × (IsElement «data».now octet end ⊎ (end ≡ octet))
        × FnReturnsAt F.Fn rejects (with_tag octet end tag «data».now) other
        × (yes ≡ takes_tag tag error.now other)) }
    ensures none { IfNone result ((length «data».now ≤ octet)
        ⊎ ((31 ≤ tag_number tag) ⊎ (length scratch.old < length «data».now))) }
{
    // Of an element whose tag has several octets none is kept.
    let end = match data.get(octet)? & 0x1f {
        0x1f => octet,
        _ => element_end(data, octet).unwrap_or(octet),
    };
    let copy = with_tag_in(scratch, data, octet, end, tag)?;
    Some(takes_tag(tag, error, rejects(copy)))
}
