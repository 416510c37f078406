//! The reply to a line.

ghost use Rattle.std.specs.Prelude.{◌≡◌, ◌++◌, ◌∷◌, [], OnOk, IfOk, IsOkUnless};
ghost use Rattle.std.specs.Io.{StartsWith};
ghost use Rattle.asn1.specs.Reading.{whole};
ghost use Rattle.dercheck.specs.Replies.{IsReply, reply_text, is_written, answer, is_ok_line, reading};

use crate::answers::Fault;
use crate::kinds::push_kind;
use crate::words::{Word, request};
use asn1::{
    Asn1Readable, Asn1Writable, BMPString, BigInt, BigUint, BitString, Enumerated, GeneralizedTime,
    IA5String, Null, ObjectIdentifier, ParseErrorKind, PrintableString, Sequence, SequenceOf, Set,
    SetOf, Tlv, UniversalString, UtcTime, Utf8String, VisibleString, WriteError,
    X509GeneralizedTime, parse_single, write_single,
};
use std::alloc::{AllocError, Global};

/// The reply to a line.
#[derive(Drop)]
pub(crate) enum Reply {
    /// The line doesn't have the form of a request.
    BadLine,
    /// The octets are not the encoding of a value of the type.
    Refused(ParseErrorKind),
    /// The octets are the encoding of a value, which is written as these.
    Written(Vec<u8>),
}

/// Reads a value of the type, and writes it back. `Memory` if there is no room for what is written.
fn reply_as<'a, T: Asn1Readable<'a> + Asn1Writable<Error = WriteError>>(
    alloc: Global,
    octets: &'a [u8],
) -> Result<Reply, Fault>
    requires plain { T.der.plain }
    requires needs_no_memory { T.der.takes_memory → ⊥ }
    ensures ok { IfOk result (IsReply octets.entry.now (whole (T.der.read octets.entry.now))) }
    ensures error { IsOkUnless result Fault.Memory }
{
    match parse_single::<T>(alloc, octets) {
        Ok(value) => match write_single(alloc, &value) {
            Ok(written) => Ok(Reply::Written(written)),
            Err(_) => Err(Fault::Memory),
        },
        Err(error) => Ok(Reply::Refused(error.kind())),
    }
}

/// The reply to octets that should be an encoding of the word's type. `Memory` if there is no room.
fn reply_to_octets(alloc: Global, word: Word, octets: &[u8]) -> Result<Reply, Fault>
    ensures ok { IfOk result (IsReply octets.entry.now (reading word octets.entry.now)) }
    ensures error { IsOkUnless result Fault.Memory }
{
    match word {
        Word::Bool => reply_as::<bool>(alloc, octets),
        Word::Tlv => reply_as::<Tlv<'_>>(alloc, octets),
        Word::I8 => reply_as::<i8>(alloc, octets),
        Word::U8 => reply_as::<u8>(alloc, octets),
        Word::I16 => reply_as::<i16>(alloc, octets),
        Word::U16 => reply_as::<u16>(alloc, octets),
        Word::I32 => reply_as::<i32>(alloc, octets),
        Word::U32 => reply_as::<u32>(alloc, octets),
        Word::I64 => reply_as::<i64>(alloc, octets),
        Word::U64 => reply_as::<u64>(alloc, octets),
        Word::Int => reply_as::<BigInt<'_>>(alloc, octets),
        Word::Uint => reply_as::<BigUint<'_>>(alloc, octets),
        Word::Enum => reply_as::<Enumerated>(alloc, octets),
        Word::Null => reply_as::<Null>(alloc, octets),
        Word::Octets => reply_as::<&[u8]>(alloc, octets),
        Word::Bits => reply_as::<BitString<'_>>(alloc, octets),
        Word::Utf8 => reply_as::<Utf8String<'_>>(alloc, octets),
        Word::Printable => reply_as::<PrintableString<'_>>(alloc, octets),
        Word::Ia5 => reply_as::<IA5String<'_>>(alloc, octets),
        Word::Visible => reply_as::<VisibleString<'_>>(alloc, octets),
        Word::Bmp => reply_as::<BMPString<'_>>(alloc, octets),
        Word::Universal => reply_as::<UniversalString<'_>>(alloc, octets),
        Word::Oid => reply_as::<ObjectIdentifier>(alloc, octets),
        Word::UtcTime => reply_as::<UtcTime>(alloc, octets),
        Word::X509Time => reply_as::<X509GeneralizedTime>(alloc, octets),
        Word::GenTime => reply_as::<GeneralizedTime>(alloc, octets),
        Word::Seq => reply_as::<Sequence<'_>>(alloc, octets),
        Word::Set => reply_as::<Set<'_>>(alloc, octets),
        Word::SeqOfInt => reply_as::<SequenceOf<'_, BigInt<'_>, 0, { usize::MAX }>>(alloc, octets),
        Word::SetOfInt => reply_as::<SetOf<'_, BigInt<'_>>>(alloc, octets),
    }
}

/// The reply to a line. `Memory` if there is no room.
pub(crate) fn reply_to_line(alloc: Global, line: &[u8]) -> Result<Reply, Fault>
    ensures text { IfOk result (λ reply. reply_text reply ≡ answer line.now) }
    ensures written { IfOk result (λ reply. is_written reply ≡ is_ok_line line.now) }
    ensures error { IsOkUnless result Fault.Memory }
{
    match request(alloc, line)? {
        Some((word, octets)) => reply_to_octets(alloc, word, &octets),
        None => Ok(Reply::BadLine),
    }
}

/// Appends the reply's line, with its line feed. At an error some of it may have been appended.
pub(crate) fn push_reply(alloc: Global, out: &mut Vec<u8>, reply: &Reply) -> Result<(), AllocError>
    ensures ok { OnOk result (out.new.items ≡ out.old.items ++ (reply_text reply.now ++ 10 ∷ [])) }
    ensures kept { StartsWith out.new.items out.old.items }
{
    match reply {
        Reply::BadLine => out.extend_from_slice(b"bad line")?,
        Reply::Refused(kind) => {
            out.extend_from_slice(b"err ")?;
            push_kind(out, *kind)?;
        }
        Reply::Written(octets) => {
            out.extend_from_slice(b"ok ")?;
            out.extend_from_slice(hex::encode(alloc, octets)?.as_bytes())?;
        }
    }
    out.push(b'\n')?;
    Ok(())
}
