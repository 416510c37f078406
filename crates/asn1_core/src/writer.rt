//! Writing: the buffer, and the writer of elements.

ghost use Rattle.std.specs.Prelude.{◌≡◌, ◌+◌, ◌-◌, ◌^◌, ◌<◌, ◌≤◌, ◌++◌, ◌∷◌};
ghost use Rattle.std.specs.Prelude.{[], length, replicate, take, drop, vec_capacity, vec_len, List, ℕ, Some};
ghost use Rattle.std.specs.Prelude.{IfOk, SomeIff, IfErr, OnOk, OnErr, IsOk, IsOkUnless};
ghost use Rattle.asn1_core.specs.Tag.{explicit_tag_of, implicit_tag_of};
ghost use Rattle.asn1_core.specs.Length.{length_octets};
ghost use Rattle.asn1_core.specs.ReadError.{write_error_text};
ghost use Rattle.asn1_core.specs.Writing.{AlwaysAppends, IsWriter, WriterCall, ClosureMayFailAfter, buffer_name};
ghost use Rattle.asn1_core.specs.Writing.{buffer_of};
ghost use Rattle.asn1_core.specs.Writing.{octets_of, NamesError, IsElementOf, full_count};
ghost use Rattle.asn1_core.specs.Der.{IsWritable, IsWritableContent};
ghost use Rattle.asn1_core.specs.declared.writer.WriteError.TheVariants.{AllocationError};

mod sets;

use crate::tag::{Tag, explicit_tag, implicit_tag};
use crate::types::{Asn1Writable, SimpleAsn1Writable, length_ahead};
use sets::Span;
pub use sets::{SetElementWriter, SetOfWriter, SetWriter};
use std::alloc::{AllocError, Global};
use std::error::Error;
use std::fmt;
use std::marker::Model;

/// Why a write failed.
#[derive(Debug, PartialEq, Eq, Drop)]
pub enum WriteError {
    /// Out of memory.
    AllocationError,
    /// The elements of a SET aren't written in the order of their tags (X.690 10.3), or one of them has no whole tag.
    InvalidSetOrdering,
}

impl fmt::Display for WriteError {
    ghost output = { λ e. Some (write_error_text e) };

    fn fmt<W: fmt::Write>(&self, f: &mut fmt::Formatter<W>) -> fmt::Result {
        match self {
            WriteError::AllocationError => f.write_str("allocation error"),
            WriteError::InvalidSetOrdering => f.write_str("SET elements are not in DER order"),
        }
    }
}

impl Error for WriteError {}

impl From<AllocError> for WriteError {
    ghost from_gives = { λ _ e. e ≡ AllocationError };

    fn from(_e: AllocError) -> WriteError {
        WriteError::AllocationError
    }
}

/// A value, or why a write failed.
pub type WriteResult<T> = Result<T, WriteError>;

/// How many length octets there are at most.
const MAX_LENGTH_OCTETS: usize = 9;

/// The index of the last of them.
const LAST_LENGTH_OCTET: usize = MAX_LENGTH_OCTETS - 1;

/// For how many octets `write` allocates at first, so that what it writes is seldom moved. Most structures of a few
/// fields have fewer.
const FIRST_ROOM: usize = 64;

/// Length octets (X.690 8.1.3), at the end of an array.
#[derive(Drop)]
struct LengthOctets {
    octets: [u8; MAX_LENGTH_OCTETS],
    start: usize,
}

impl Model for LengthOctets {
    ghost use Rattle.std.specs.Prelude.{List, ℕ, drop, length, ◌≤◌, ◌≡◌};
    ghost use Rattle.asn1_core.specs.declared.writer.TheConstants.{MAX_LENGTH_OCTETS};

    ghost Value = { List ℕ };

    ghost view = { λ text. drop text.start text.octets };

    ghost invariant = { λ text. (text.start ≤ MAX_LENGTH_OCTETS)
        × (length text.octets ≡ MAX_LENGTH_OCTETS) };
}

impl LengthOctets {
    /// The length octets of `n`, the fewest (10.1).
    fn new(n: usize) -> LengthOctets
        ensures encoding { result ≡ length_octets n }
        ensures some { 0 < length result }
        ensures most { length result ≤ MAX_LENGTH_OCTETS }
    {
        let mut octets = [0u8; MAX_LENGTH_OCTETS];
        if n < 0x80 {
            octets[LAST_LENGTH_OCTET] = n as u8;
            return LengthOctets {
                octets,
                start: LAST_LENGTH_OCTET,
            };
        }
        let mut start = MAX_LENGTH_OCTETS;
        let mut rest = n;
        while rest > 0 {
            start -= 1;
            octets[start] = (rest & 0xff) as u8;
            rest >>= 8;
        }
        let count = MAX_LENGTH_OCTETS - start;
        start -= 1;
        octets[start] = 0x80 | count as u8;
        LengthOctets { octets, start }
    }

    /// The length octets.
    fn octets(&self) -> &[u8]
        ensures { result.now ≡ self.now }
    {
        &self.octets[self.start..]
    }
}

/// How many length octets `n` has.
#[inline]
fn count_length_octets(n: usize) -> usize
    ensures value { result ≡ length (length_octets n) }
    ensures most { result ≤ MAX_LENGTH_OCTETS }
{
    if n < 0x80 {
        return 1;
    }
    LengthOctets::new(n).octets().len()
}

/// How many octets an element with this tag and this many contents octets has in all. `None` if that is 2^64 or more,
/// which never happens below 2^63 contents octets.
#[inline]
pub fn full_length(tag: Tag, content_length: usize) -> Option<usize>
    ensures value { SomeIff result (full_count tag content_length < 2 ^ 64)
        (full_count tag content_length) }
    ensures fits { content_length < 2 ^ 63 → full_count tag content_length < 2 ^ 64 }
{
    let header = tag.encoded_length() + count_length_octets(content_length);
    content_length.checked_add(header)
}

/// The octets written so far. A call that fails leaves them as they were.
#[derive(Drop)]
pub struct WriteBuf {
    octets: Vec<u8>,
}

impl Model for WriteBuf {
    ghost use Rattle.std.specs.Prelude.{◌-◌, vec_len, vec_capacity};
    ghost use Rattle.asn1_core.specs.Buffer.{Buffer};

    ghost Value = { Buffer };

    ghost view = { λ b. record {
      bytes = b.octets.items;
      room = vec_capacity b.octets - vec_len b.octets;
    } };
}

impl WriteBuf {
    /// A buffer that holds these octets.
    pub(crate) fn new(octets: Vec<u8>) -> WriteBuf
        ensures { result.bytes ≡ octets.items }
    {
        WriteBuf { octets }
    }

    /// An empty buffer, with room for [`FIRST_ROOM`] octets if there is memory for them.
    #[inline(always)]
    fn with_first_room(alloc: Global) -> WriteBuf
        ensures { result.bytes ≡ [] }
    {
        let octets = match Vec::with_capacity(alloc, FIRST_ROOM) {
            Ok(octets) => octets,
            Err(_) => Vec::new(alloc),
        };
        WriteBuf { octets }
    }

    /// An empty buffer with room for this many octets. `AllocationError` if out of memory.
    #[inline(always)]
    fn with_room(alloc: Global, octets: usize) -> WriteResult<WriteBuf>
        ensures ok { IfOk result (λ buf. buf.bytes ≡ []) }
        ensures error { IsOkUnless result WriteError.AllocationError }
    {
        let octets = Vec::with_capacity(alloc, octets)?;
        Ok(WriteBuf { octets })
    }

    /// The octets.
    pub(crate) fn into_octets(self) -> Vec<u8>
        ensures { result.items ≡ self.bytes }
    {
        let WriteBuf { octets } = self;
        octets
    }

    /// How many octets there are.
    pub(crate) fn len(&self) -> usize
        ensures { result ≡ length self.now.bytes }
    {
        self.octets.len()
    }

    /// Makes room: after `Ok`, pushes totalling `additional` octets succeed. `AllocationError` if out of memory.
    #[inline]
    pub fn reserve_additional(&mut self, additional: usize) -> WriteResult<()>
        ensures bytes { self.new.bytes ≡ self.old.bytes }
        ensures ok { OnOk result (additional ≤ self.new.room) }
        ensures room { self.old.room ≤ self.new.room }
        ensures err { OnErr result (self.new ≡ self.old) }
        ensures succeeds { additional ≤ self.old.room → IsOk result }
        ensures error { IsOkUnless result WriteError.AllocationError }
    {
        self.octets.try_reserve(additional)?;
        Ok(())
    }

    /// Appends an octet. `AllocationError` if there is no room for it and no more memory.
    #[inline]
    pub fn push_byte(&mut self, octet: u8) -> WriteResult<()>
        ensures ok { OnOk result (self.new.bytes ≡ self.old.bytes ++ octet ∷ []) }
        ensures room { OnOk result (self.old.room ≤ self.new.room + 1) }
        ensures err { OnErr result (self.new ≡ self.old) }
        ensures succeeds { 0 < self.old.room → IsOk result }
        ensures error { IsOkUnless result WriteError.AllocationError }
    {
        self.octets.try_reserve(1)?;
        self.octets.push_reserved(octet);
        Ok(())
    }

    /// Appends octets. `AllocationError` if there is no room for them and no more memory; then nothing was appended.
    #[inline]
    pub fn push_slice(&mut self, octets: &[u8]) -> WriteResult<()>
        ensures ok { OnOk result (self.new.bytes ≡ self.old.bytes ++ octets.now) }
        ensures room { OnOk result (self.old.room ≤ self.new.room + length octets.now) }
        ensures err { OnErr result (self.new ≡ self.old) }
        ensures succeeds { length octets.now ≤ self.old.room → IsOk result }
        ensures error { IsOkUnless result WriteError.AllocationError }
    {
        self.octets.try_reserve(octets.len())?;
        // There is room now, so all of them are pushed.
        let _pushed = self.octets.extend_from_slice(octets);
        Ok(())
    }

    /// Appends the length octets of `n`. A single one, the usual case, needs no array.
    #[inline(always)]
    fn push_length(&mut self, n: usize) -> WriteResult<()>
        ensures ok { OnOk result (self.new.bytes ≡ self.old.bytes ++ length_octets n) }
        ensures err { OnErr result (self.new ≡ self.old) }
        ensures error { IsOkUnless result WriteError.AllocationError }
    {
        if n > 0x7f {
            return self.push_long_length(n);
        }
        self.push_byte(n as u8)
    }

    /// The same for any number of length octets.
    #[inline(never)]
    fn push_long_length(&mut self, n: usize) -> WriteResult<()>
        ensures ok { OnOk result (self.new.bytes ≡ self.old.bytes ++ length_octets n) }
        ensures err { OnErr result (self.new ≡ self.old) }
        ensures error { IsOkUnless result WriteError.AllocationError }
    {
        self.push_slice(LengthOctets::new(n).octets())
    }

    /// Replaces the octet before `start` by the length octets of everything from `start` on. A single one, the usual
    /// case, moves nothing.
    #[inline]
    pub(crate) fn patch_length(&mut self, start: usize) -> WriteResult<()>
        requires from { 0 < start }
        requires within { start ≤ length self.old.bytes }
        ensures ok { OnOk result (self.new.bytes ≡ take (start - 1) self.old.bytes
            ++ length_octets (length self.old.bytes - start) ++ drop start self.old.bytes) }
        ensures err { OnErr result (self.new.bytes ≡ self.old.bytes) }
        ensures error { IsOkUnless result WriteError.AllocationError }
    {
        let count = self.octets.len() - start;
        if count > 0x7f {
            return self.patch_long_length(start);
        }
        self.octets[start - 1] = count as u8;
        Ok(())
    }

    /// The same for more length octets. The buffer grows once, and the octets that follow are moved once.
    #[inline(never)]
    fn patch_long_length(&mut self, start: usize) -> WriteResult<()>
        requires from { 0 < start }
        requires long { start + 0x7f < length self.old.bytes }
        ensures ok { OnOk result (self.new.bytes ≡ take (start - 1) self.old.bytes
            ++ length_octets (length self.old.bytes - start) ++ drop start self.old.bytes) }
        ensures err { OnErr result (self.new.bytes ≡ self.old.bytes) }
        ensures error { IsOkUnless result WriteError.AllocationError }
    {
        let len = self.octets.len();
        let mut rest = len - start;
        let more = count_length_octets(rest) - 1;
        self.octets.try_reserve(more)?;
        push_zeros(&mut self.octets, more);
        self.octets.copy_within(start..len, start + more);
        for place in (start..start + more).rev() {
            self.octets[place] = (rest & 0xff) as u8;
            rest >>= 8;
        }
        self.octets[start - 1] = 0x80 | more as u8;
        Ok(())
    }

    /// An empty buffer over the same allocator.
    fn spare(&self) -> WriteBuf
        ensures { result.bytes ≡ [] }
    {
        let alloc: Global = *self.octets.allocator();
        WriteBuf {
            octets: Vec::new(alloc),
        }
    }

    /// An empty list over the same allocator.
    fn no_spans(&self) -> Vec<Span>
        ensures { result.items ≡ [] }
    {
        let alloc: Global = *self.octets.allocator();
        Vec::new(alloc)
    }

    /// The octets.
    fn as_slice(&self) -> &[u8]
        ensures { result.now ≡ self.now.bytes }
    {
        self.octets.as_slice()
    }

    /// Appends the octets of a span of the buffer.
    fn push_part(&mut self, span: &Span) -> WriteResult<()>
        requires { span.now.from + span.now.len ≤ length self.old.bytes }
        ensures ok { OnOk result (self.new.bytes
            ≡ self.old.bytes ++ take span.now.len (drop span.now.from self.old.bytes)) }
        ensures err { OnErr result (self.new.bytes ≡ self.old.bytes) }
        ensures error { IsOkUnless result WriteError.AllocationError }
    {
        self.octets
            .extend_from_within(span.from..span.from + span.len)?;
        Ok(())
    }

    /// Moves the octets from `from` on down to `to`, over the octets between.
    fn move_down(&mut self, to: usize, from: usize)
        requires ordered { to ≤ from }
        requires within { from ≤ length self.old.bytes }
        ensures { self.new.bytes ≡ take to self.old.bytes ++ drop from self.old.bytes }
    {
        let len = self.octets.len();
        self.octets.copy_within(from..len, to);
        self.octets.truncate(to + (len - from));
    }

    /// Cuts to the first `len` octets.
    pub(crate) fn truncate(&mut self, len: usize)
        ensures { self.new.bytes ≡ take len self.old.bytes }
    {
        self.octets.truncate(len);
    }
}

/// Appends this many zeros, for which there is room.
#[inline(always)]
fn push_zeros(octets: &mut Vec<u8>, count: usize)
    requires { vec_len octets.old + count ≤ vec_capacity octets.old }
    ensures { octets.new.items ≡ octets.old.items ++ replicate count 0 }
{
    for _ in 0..count {
        octets.push_reserved(0);
    }
}

/// Writes elements into a buffer. A call that fails leaves the buffer's octets as they were.
#[derive(Drop)]
pub struct Writer<'a> {
    // By `same_buffer`, calls state that a writer keeps the buffer that it was made with.
    pub(crate) buf: &'a mut WriteBuf,
}

impl<'a> Writer<'a> {
    ghost use Rattle.asn1_core.specs.Writing.{NamesError, IsElementOf, LeavesPrefix, Announces, Appended, FailsAs};
    ghost use Rattle.asn1_core.specs.Buffer.{Appends, KeepsPrefix};

    /// A writer that appends to the buffer.
    #[inline]
    pub fn new(buf: &'a mut WriteBuf) -> Writer<'a>
        ensures same_buffer { buffer_name result ≡ buf.entry.ghost_name }
        ensures as_passed { buffer_of result ≡ buf.old }
    {
        Writer { buf }
    }

    /// Writes an element with this tag, whose contents octets `body` appends.
    ///
    /// With `Some(n)` the length `n` is written first. With `None` an octet is kept for the length and replaced
    /// afterwards; the encoding is the same. Errors: one of `body`, or `AllocationError` if out of memory.
    ///
    /// The caller has to prove (`requires`) that `body` may always be called, that it leaves the octets before its own
    /// as they were, at `Ok` and at `Err`, and that with `Some(n)` it appends exactly `n` octets at `Ok`.
    #[inline(always)]
    pub fn write_tlv<E: From<WriteError>, F: FnOnce(&mut WriteBuf) -> Result<(), E>>(
        &mut self,
        tag: Tag,
        content_length: Option<usize>,
        body: F,
    ) -> Result<(), E>
        requires callable { F.IsAlwaysCallable body }
        requires front { LeavesPrefix F.FnOnce body }
        requires announced { Announces F.FnOnce body content_length }
        ensures same_buffer { buffer_name self.new ≡ buffer_name self.old }
        ensures ok { OnOk result (Appended F.FnOnce body tag (octets_of self.old)
            (octets_of self.new)) }
        ensures err { OnErr result (octets_of self.new ≡ octets_of self.old) }
        ensures error { IfErr result (FailsAs F.FnOnce body E.From.from_gives) }
    {
        let before = self.buf.len();
        match self.write_tlv_or_part(tag, content_length, body) {
            Ok(()) => Ok(()),
            Err(e) => {
                self.buf.truncate(before);
                Err(e)
            }
        }
    }

    /// Writes a value: its one encoding, or if it holds closures, one that they may append. Errors: `AllocationError`
    /// if out of memory, or one that the type names. The caller has to prove (`requires`) that the closures in the
    /// value keep what is asked of them, or that the type has one encoding for each value, as every type that is read
    /// has.
    #[inline]
    pub fn write_element<T: Asn1Writable>(&mut self, val: &T) -> Result<(), T::Error>
        requires { IsWritable T.der (T.der.meaning val.now) }
        ensures same_buffer { buffer_name self.new ≡ buffer_name self.old }
        ensures ok { OnOk result (Appends (T.der.encodings (T.der.meaning val.now))
            (octets_of self.old) (octets_of self.new)) }
        ensures err { OnErr result (octets_of self.new ≡ octets_of self.old) }
        ensures error { IfErr result (NamesError T.Error.from_gives (T.write_errors val.now)) }
    {
        let before = self.buf.len();
        match self.write_element_or_part(val) {
            Ok(()) => Ok(()),
            Err(e) => {
                self.buf.truncate(before);
                Err(e)
            }
        }
    }

    /// Writes a value under the explicit tag with the number `tag` (X.690 8.14): an element with this tag, whose
    /// contents octets are the encoding of the value. Errors and what the caller has to prove are those of
    /// [`Writer::write_element`].
    pub fn write_explicit_element<T: Asn1Writable>(
        &mut self,
        val: &T,
        tag: u32,
    ) -> Result<(), T::Error>
        requires { IsWritable T.der (T.der.meaning val.now) }
        ensures same_buffer { buffer_name self.new ≡ buffer_name self.old }
        ensures ok { OnOk result (Appends (IsElementOf (explicit_tag_of tag)
            (T.der.encodings (T.der.meaning val.now))) (octets_of self.old) (octets_of self.new)) }
        ensures err { OnErr result (octets_of self.new ≡ octets_of self.old) }
        ensures error { IfErr result (NamesError T.Error.from_gives (T.write_errors val.now)) }
    {
        let tag = explicit_tag(tag);
        self.write_tlv(
            tag,
            None,
            |dest: &mut WriteBuf| -> Result<(), T::Error>
                requires { IsWritable T.der (T.der.meaning val.now) }
            { Writer::new(dest).write_element(val) },
        )
    }

    /// Writes a value whose own tag is replaced by the implicit one with the number `tag` (X.690 8.14). Errors and what
    /// the caller has to prove are those of [`Writer::write_element`].
    pub fn write_implicit_element<T: SimpleAsn1Writable>(
        &mut self,
        val: &T,
        tag: u32,
    ) -> Result<(), T::Error>
        requires { IsWritableContent T.der.content (T.der.meaning val.now) }
        ensures same_buffer { buffer_name self.new ≡ buffer_name self.old }
        ensures ok { OnOk result (Appends
            (IsElementOf (implicit_tag_of tag T.der.content.tag)
            (T.der.content.encodings (T.der.meaning val.now))) (octets_of self.old)
            (octets_of self.new)) }
        ensures err { OnErr result (octets_of self.new ≡ octets_of self.old) }
        ensures error { IfErr result (NamesError T.Error.from_gives (T.write_errors val.now)) }
    {
        let tag = implicit_tag(tag, T::tag());
        self.write_tlv(tag, length_ahead(val), |dest| val.write_data(dest))
    }

    /// The same as [`Writer::write_element`], but on an error a part of the element may stay in the buffer.
    fn write_element_or_part<T: Asn1Writable>(&mut self, val: &T) -> Result<(), T::Error>
        requires { T.der.closures (T.der.meaning val.now) }
        ensures same_buffer { buffer_name self.new ≡ buffer_name self.old }
        ensures ok { OnOk result (Appends (T.der.encodings (T.der.meaning val.now))
            (octets_of self.old) (octets_of self.new)) }
        ensures err { OnErr result (KeepsPrefix (octets_of self.old) (octets_of self.new)) }
        ensures error { IfErr result (NamesError T.Error.from_gives (T.write_errors val.now)) }
    {
        if let Some(len) = val.encoded_length() {
            self.buf.reserve_additional(len)?;
        }
        val.write(self)
    }

    /// The same as [`Writer::write_tlv`], but on an error a part of the element may stay in the buffer.
    #[inline(always)]
    fn write_tlv_or_part<E: From<WriteError>, F: FnOnce(&mut WriteBuf) -> Result<(), E>>(
        &mut self,
        tag: Tag,
        content_length: Option<usize>,
        body: F,
    ) -> Result<(), E>
        requires callable { F.IsAlwaysCallable body }
        requires front { LeavesPrefix F.FnOnce body }
        requires announced { Announces F.FnOnce body content_length }
        ensures same_buffer { buffer_name self.new ≡ buffer_name self.old }
        ensures ok { OnOk result (Appended F.FnOnce body tag (octets_of self.old)
            (octets_of self.new)) }
        ensures err { OnErr result (KeepsPrefix (octets_of self.old) (octets_of self.new)) }
        ensures error { IfErr result (FailsAs F.FnOnce body E.From.from_gives) }
    {
        tag.write_to(self.buf)?;
        match content_length {
            Some(len) => {
                self.buf.push_length(len)?;
                body(self.buf)
            }
            None => {
                self.buf.push_byte(0)?;
                let start = self.buf.len();
                body(self.buf)?;
                self.buf.patch_length(start)?;
                Ok(())
            }
        }
    }
}

/// Calls `f` with a writer into an empty buffer, and returns the octets that `f` wrote, or the error of `f` as it is.
///
/// The caller has to prove (`requires`) that `f` may always be called, and that it leaves the octets before its own as
/// they were, at `Ok` and at `Err`, in the buffer that it was given.
///
/// ```text
/// let tagged = write(alloc, |writer: &mut Writer<'_>| writer.write_explicit_element(&true, 2))?;
///
/// same(tagged.as_slice(), &[0xa2, 3, 1, 1, 0xff])?;
/// ```
#[inline]
pub fn write<E: From<WriteError>, F: Fn(&mut Writer<'_>) -> Result<(), E> + Drop>(
    alloc: Global,
    f: F,
) -> Result<Vec<u8>, E>
    requires { IsWriter F.FnOnce f }
    ensures ok { IfOk result (λ v. WriterCall F.FnOnce f [] (Ok tt) v.items) }

    // What `f` appends whenever it returns `Ok` is returned.
    ensures appends { (text : List ℕ) → AlwaysAppends F.FnOnce f text
        → IfOk result (λ v. v.items ≡ text) }
    ensures error { IfErr result (ClosureMayFailAfter F.FnOnce f []) }
{
    let mut buf = WriteBuf::with_first_room(alloc);
    let mut writer = Writer::new(&mut buf);
    f(&mut writer)?;
    Ok(buf.into_octets())
}

/// Writes one value, and returns its encoding: the one of DER, or if the value holds closures, one that they may
/// append. Errors and what the caller has to prove are those of [`Writer::write_element`].
///
/// ```text
/// let octets = write_single(alloc, &true)?;
///
/// same(octets.as_slice(), &[1, 1, 0xff])?;
/// ```
#[inline(always)]
pub fn write_single<T: Asn1Writable>(alloc: Global, value: &T) -> Result<Vec<u8>, T::Error>
    requires { IsWritable T.der (T.der.meaning value.now) }
    ensures ok { IfOk result (λ v. T.der.encodings (T.der.meaning value.now) v.items) }
    ensures encoding { T.der.plain → IfOk result (λ v. v.items ≡ T.der.encoding
        (T.der.meaning value.now)) }
    ensures error { IfErr result (NamesError T.Error.from_gives (T.write_errors value.now)) }
{
    let mut buf = WriteBuf::with_room(alloc, value.encoded_length().unwrap_or(0))?;
    value.write(&mut Writer::new(&mut buf))?;
    Ok(buf.into_octets())
}
