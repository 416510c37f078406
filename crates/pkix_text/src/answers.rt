//! The result for an input.

ghost use Rattle.std.specs.Prelude.{◌≡◌, ◌⊎◌, IfErr, IfOk};
ghost use Rattle.pkix_text.specs.Program.{IsFaultOf, IsMemoryOrWrite, IsRead, IsShownOnlyIf};
ghost use Rattle.pkix_text.specs.declared.answers.Fault.TheVariants.{Memory};
ghost use Rattle.pkix_text.specs.declared.kinds.Kind.TheVariants as kinds;

use crate::errors::{UNIVERSAL, in_words};
use crate::forms::{BEGINNINGS, around, identifiers, other_document, other_labelled};
use crate::kinds::Kind;
use crate::pem::{Object, PemError, objects};
use crate::show::{Page, Show, escaped, lines_of};
use asn1::{
    Asn1Readable, Asn1Type, Asn1Writable, ParseError, ParseErrorKind, Tag, WriteError, error_octet,
    expects_tag, parse_single, strip_tlv, write_readable,
};
use pkix::certificate::Certificate;
use pkix::common::SubjectPublicKeyInfo;
use pkix::keys::{EcPrivateKey, OneAsymmetricKey, RsaPrivateKey, RsaPublicKey};
use pkix::request::CertificationRequest;
use pkix::revocation::CertificateList;
use pkix::signatures::{ContentInfo, DigestInfo, EcdsaSigValue};
use pkix::timestamps::{TimeStampReq, TimeStampResp};
use sha2::{Digest, Sha256};
use std::alloc::{AllocError, Global};
use std::fmt;
use std::io::{Stdout, Write};

/// Why there is no result.
#[derive(Debug, Drop)]
pub enum Fault {
    /// Out of memory.
    Memory,
    /// The input could not be read.
    Read,
    /// The output could not be written.
    Write,
}

impl fmt::Display for Fault {
    fn fmt<W: fmt::Write>(&self, f: &mut fmt::Formatter<W>) -> fmt::Result {
        match self {
            Fault::Memory => f.write_str("out of memory"),
            Fault::Read => f.write_str("the input could not be read"),
            Fault::Write => f.write_str("the output could not be written"),
        }
    }
}

impl From<AllocError> for Fault {
    ghost from_gives = { λ _ fault. fault ≡ Memory };

    fn from(_error: AllocError) -> Fault {
        Fault::Memory
    }
}

/// The type of an object: that of a kind, or of one of the forms of a kind.
#[derive(Debug, Clone, Copy)]
pub enum Form {
    /// Certificate (RFC 5280, 4.1).
    Certificate,
    /// CertificateList (RFC 5280, 5.1).
    Crl,
    /// CertificationRequest (RFC 2986, 4.2).
    Request,
    /// SubjectPublicKeyInfo (RFC 5280, 4.1).
    PublicKey,
    /// ECPrivateKey (RFC 5915, 3).
    EcKey,
    /// RSAPrivateKey (RFC 8017, A.1.2).
    RsaKey,
    /// RSAPublicKey (RFC 8017, A.1.1).
    RsaPublicKey,
    /// OneAsymmetricKey (RFC 5958, 2).
    PrivateKey,
    /// ECDSA-Sig-Value (RFC 3279, 2.2.3).
    EcdsaSignature,
    /// DigestInfo (RFC 8017, 9.2).
    DigestInfo,
    /// ContentInfo (RFC 5652, 3).
    SignedData,
    /// TimeStampReq (RFC 3161, 2.4.1).
    TimestampRequest,
    /// TimeStampResp (RFC 3161, 2.4.2).
    TimestampResponse,
}

impl Form {
    /// Why the octets are rejected, if they are, as an object of this form.
    fn error_of(self, alloc: Global, octets: &[u8]) -> Option<ParseError> {
        match self {
            Form::Certificate => parse_single::<Certificate<'_>>(alloc, octets).err(),
            Form::Crl => parse_single::<CertificateList<'_>>(alloc, octets).err(),
            Form::Request => parse_single::<CertificationRequest<'_>>(alloc, octets).err(),
            Form::PublicKey => parse_single::<SubjectPublicKeyInfo<'_>>(alloc, octets).err(),
            Form::EcKey => parse_single::<EcPrivateKey<'_>>(alloc, octets).err(),
            Form::RsaKey => parse_single::<RsaPrivateKey<'_>>(alloc, octets).err(),
            Form::RsaPublicKey => parse_single::<RsaPublicKey<'_>>(alloc, octets).err(),
            Form::PrivateKey => parse_single::<OneAsymmetricKey<'_>>(alloc, octets).err(),
            Form::EcdsaSignature => parse_single::<EcdsaSigValue<'_>>(alloc, octets).err(),
            Form::DigestInfo => parse_single::<DigestInfo<'_>>(alloc, octets).err(),
            Form::SignedData => parse_single::<ContentInfo<'_>>(alloc, octets).err(),
            Form::TimestampRequest => parse_single::<TimeStampReq<'_>>(alloc, octets).err(),
            Form::TimestampResponse => parse_single::<TimeStampResp<'_>>(alloc, octets).err(),
        }
    }
}

/// Why an object is rejected.
#[derive(Debug, Drop)]
pub enum Refusal {
    /// No kind was named, and the object is of none.
    NoKind,
    /// No kind was named, and the object has the form of several: it is two integers.
    SeveralKinds,
    /// It is two integers, the second of which is even, and so is no exponent of an RSA key.
    EvenExponent,
    /// Its label is of another kind, of another document, or tells none: this in words.
    Label(String),
    /// It is an encrypted key.
    Encrypted,
    /// It is between the lines of PEM, and has no octets.
    Pem(PemError),
    /// The input has no octets.
    Empty,
    /// It isn't the encoding of a value of this type.
    Der(Form, ParseError),
    /// It doesn't begin with an element.
    NoElement(ParseError),
    /// The same error in words: its location, and why.
    Told(String),
}

/// The reason. Of octets that aren't an encoding it is what their error displays, without a location; `report_on` puts
/// this in other words.
impl fmt::Display for Refusal {
    fn fmt<W: fmt::Write>(&self, f: &mut fmt::Formatter<W>) -> fmt::Result {
        match self {
            Refusal::NoKind => write!(f, "this has the form of none of {}", Kind::NAMES),
            Refusal::SeveralKinds => {
                f.write_str("two integers are a key, a signature or parameters: name the kind")
            }
            Refusal::EvenExponent => {
                f.write_str(
                    "two integers, the second of which is even: no RSA key has such an exponent",
                )
            }
            Refusal::Label(words) => f.write_str(words.as_str()),
            Refusal::Encrypted => f.write_str("an encrypted key; `openssl pkey` decrypts it"),
            Refusal::Pem(error) => write!(f, "{error}"),
            Refusal::Empty => f.write_str("the input has no octets"),
            Refusal::Der(_form, error) => write!(f, "{error}"),
            Refusal::NoElement(error) => write!(f, "this isn't DER: {error}"),
            Refusal::Told(words) => f.write_str(words.as_str()),
        }
    }
}

/// The result for an object.
#[derive(Debug, Drop)]
pub enum Answer {
    /// It is one of the kind, and nothing is shown of it.
    Read,
    /// The last lines of its fields, the SHA-256 of what it is written back as, and `same`: these octets are its own.
    /// The lines before these are written.
    Shown(String),
    /// Why it is rejected.
    Rejected(Refusal),
}

/// The SHA-256, in hex, of what the value is written back as.
fn digest_of<'a, T: Asn1Readable<'a> + Asn1Writable<Error = WriteError>>(
    alloc: Global,
    value: &T,
) -> Result<String, Fault>
    ensures { IfErr result (λ fault. fault ≡ Memory) }
{
    let written = write_readable(alloc, value).or(Err(Fault::Memory))?;
    Ok(hex::encode(alloc, &Sha256::digest(written.as_slice()))?)
}

/// The lines of the value of this form whose encoding the octets are, if there is a page for them. The value has one
/// encoding, so these octets are written back.
fn shown<'a, T: Asn1Readable<'a> + Asn1Writable<Error = WriteError> + Show>(
    alloc: Global,
    form: Form,
    octets: &'a [u8],
    page: Option<Page<'_>>,
) -> Result<Answer, Fault>
    ensures shown { IfOk result (IsShownOnlyIf (IsRead T.der octets.entry.now)) }
    ensures error { IfErr result (IsFaultOf page.entry) }
{
    let value = match parse_single::<T>(alloc, octets) {
        Ok(value) => value,
        Err(error) => return Ok(Answer::Rejected(Refusal::Der(form, error))),
    };
    let Some(page) = page else {
        return Ok(Answer::Read);
    };
    let digest = digest_of(alloc, &value)?;
    let mut text = lines_of(alloc, &value, page)?;
    writeln!(text, "sha256: {digest}")?;
    text.push_str("same\n")?;
    Ok(Answer::Shown(text))
}

/// What tells one form from another.
#[derive(Default, Drop)]
struct Start {
    /// The tag of the first element within an element, if there is one.
    first: Option<Tag>,
    /// The tag of the second.
    second: Option<Tag>,
    /// Whether octets follow these.
    has_more: bool,
    /// Whether the first is the algorithm of an encrypted key.
    is_encrypted: bool,
    /// Whether the last octet of the second is an even number.
    is_even: bool,
}

/// How the algorithms of encrypted keys begin: those of RFC 8018 and of RFC 7292, appendix C.
const ENCRYPTIONS: [&[u8]; 2] = [
    b"\x06\x09\x2a\x86\x48\x86\xf7\x0d\x01\x05",
    b"\x06\x0a\x2a\x86\x48\x86\xf7\x0d\x01\x0c\x01",
];

/// How the contents octets of an element begin. `None` if there is no element in them.
fn start_of(octets: &[u8]) -> Option<Start> {
    let (whole, _) = strip_tlv(octets).ok()?;
    let (first, after) = strip_tlv(whole.data()).ok()?;
    let (second, after, last) = match strip_tlv(after) {
        Ok((second, after)) => (Some(second.tag()), after, second.data().last()),
        Err(_) => (None, after, None),
    };
    Some(Start {
        first: Some(first.tag()),
        second,
        has_more: !after.is_empty(),
        is_encrypted: ENCRYPTIONS.iter().any(|it| first.data().starts_with(it)),
        is_even: matches!(last, Some(octet) if *octet % 2 == 0),
    })
}

/// The lines of a key, whose first elements tell its form: a OneAsymmetricKey has a version and an algorithm, an
/// ECPrivateKey a version and octets, an RSAPublicKey two integers, an RSAPrivateKey more of them, a
/// SubjectPublicKeyInfo begins with an algorithm.
fn key<'a>(
    alloc: Global,
    start: Start,
    octets: &'a [u8],
    page: Option<Page<'_>>,
) -> Result<Answer, Fault>
    ensures shown { IfOk result (IsShownOnlyIf (
        IsRead ⟦<SubjectPublicKeyInfo<'a> as Asn1Type>⟧.der octets.entry.now
        ⊎ IsRead ⟦<EcPrivateKey<'a> as Asn1Type>⟧.der octets.entry.now
        ⊎ IsRead ⟦<RsaPrivateKey<'a> as Asn1Type>⟧.der octets.entry.now
        ⊎ IsRead ⟦<RsaPublicKey<'a> as Asn1Type>⟧.der octets.entry.now
        ⊎ IsRead ⟦<OneAsymmetricKey<'a> as Asn1Type>⟧.der octets.entry.now)) }
    ensures error { IfErr result (IsFaultOf page.entry) }
{
    if start.first == Some(Tag::constructed(0x10)) {
        shown::<SubjectPublicKeyInfo<'_>>(alloc, Form::PublicKey, octets, page)
    } else if start.second == Some(Tag::primitive(0x04)) {
        shown::<EcPrivateKey<'_>>(alloc, Form::EcKey, octets, page)
    } else if start.second != Some(Tag::primitive(0x02)) {
        shown::<OneAsymmetricKey<'_>>(alloc, Form::PrivateKey, octets, page)
    } else if start.has_more {
        shown::<RsaPrivateKey<'_>>(alloc, Form::RsaKey, octets, page)
    } else if start.is_even {
        Ok(Answer::Rejected(Refusal::EvenExponent))
    } else {
        shown::<RsaPublicKey<'_>>(alloc, Form::RsaPublicKey, octets, page)
    }
}

/// The lines of a signature, whose first element tells its form: an ECDSA-Sig-Value begins with an integer, a
/// DigestInfo with an algorithm, a ContentInfo with an identifier.
fn signature<'a>(
    alloc: Global,
    start: Start,
    octets: &'a [u8],
    page: Option<Page<'_>>,
) -> Result<Answer, Fault>
    ensures shown { IfOk result (IsShownOnlyIf (
        IsRead ⟦<EcdsaSigValue<'a> as Asn1Type>⟧.der octets.entry.now
        ⊎ IsRead ⟦<DigestInfo<'a> as Asn1Type>⟧.der octets.entry.now
        ⊎ IsRead ⟦<ContentInfo<'a> as Asn1Type>⟧.der octets.entry.now)) }
    ensures error { IfErr result (IsFaultOf page.entry) }
{
    if start.first == Some(Tag::primitive(0x02)) {
        shown::<EcdsaSigValue<'_>>(alloc, Form::EcdsaSignature, octets, page)
    } else if start.first == Some(Tag::constructed(0x10)) {
        shown::<DigestInfo<'_>>(alloc, Form::DigestInfo, octets, page)
    } else {
        shown::<ContentInfo<'_>>(alloc, Form::SignedData, octets, page)
    }
}

/// The lines of the value of this kind whose encoding the octets are. An encrypted key is rejected as an encrypted key
/// for each kind, and other octets with the first error of the kind's type. The lines are written on the page if there
/// is one, but for the last of them; without a page the value is read alone. `Memory` if out of memory, `Write` if the
/// lines can't be written.
pub fn answer_to<'a>(
    alloc: Global,
    kind: Kind,
    octets: &'a [u8],
    page: Option<Page<'_>>,
) -> Result<Answer, Fault>
    ensures shown { IfOk result (IsShownOnlyIf (elim kind as (λ _. Type 0) [
      | kinds.Certificate ↦ IsRead ⟦<Certificate<'a> as Asn1Type>⟧.der octets.entry.now
      | kinds.Crl ↦ IsRead ⟦<CertificateList<'a> as Asn1Type>⟧.der octets.entry.now
      | kinds.Request ↦ IsRead ⟦<CertificationRequest<'a> as Asn1Type>⟧.der octets.entry.now
      | kinds.Key ↦ IsRead ⟦<SubjectPublicKeyInfo<'a> as Asn1Type>⟧.der octets.entry.now
          ⊎ IsRead ⟦<EcPrivateKey<'a> as Asn1Type>⟧.der octets.entry.now
          ⊎ IsRead ⟦<RsaPrivateKey<'a> as Asn1Type>⟧.der octets.entry.now
          ⊎ IsRead ⟦<RsaPublicKey<'a> as Asn1Type>⟧.der octets.entry.now
          ⊎ IsRead ⟦<OneAsymmetricKey<'a> as Asn1Type>⟧.der octets.entry.now
      | kinds.Signature ↦ IsRead ⟦<EcdsaSigValue<'a> as Asn1Type>⟧.der octets.entry.now
          ⊎ IsRead ⟦<DigestInfo<'a> as Asn1Type>⟧.der octets.entry.now
          ⊎ IsRead ⟦<ContentInfo<'a> as Asn1Type>⟧.der octets.entry.now
      | kinds.TimestampRequest ↦ IsRead ⟦<TimeStampReq<'a> as Asn1Type>⟧.der octets.entry.now
      | kinds.TimestampResponse ↦ IsRead ⟦<TimeStampResp<'a> as Asn1Type>⟧.der octets.entry.now
    ])) }
    ensures error { IfErr result (IsFaultOf page.entry) }
{
    let start = start_of(octets).unwrap_or_default();
    if start.is_encrypted {
        return Ok(Answer::Rejected(Refusal::Encrypted));
    }
    match kind {
        Kind::Certificate => shown::<Certificate<'_>>(alloc, Form::Certificate, octets, page),
        Kind::Crl => shown::<CertificateList<'_>>(alloc, Form::Crl, octets, page),
        Kind::Request => shown::<CertificationRequest<'_>>(alloc, Form::Request, octets, page),
        Kind::Key => key(alloc, start, octets, page),
        Kind::Signature => signature(alloc, start, octets, page),
        Kind::TimestampRequest => shown::<TimeStampReq<'_>>(
            alloc,
            Form::TimestampRequest,
            octets,
            page,
        ),
        Kind::TimestampResponse => shown::<TimeStampResp<'_>>(
            alloc,
            Form::TimestampResponse,
            octets,
            page,
        ),
    }
}

/// The identifier octet of `[0]`, constructed. No other context-specific tag is expected where an error tells a wrong
/// one: elements after the last field that has to be there are left over.
const CONTEXT: u8 = 0xa0;

/// The tags that an element may have at this octet.
fn expected_at(
    alloc: Global,
    form: Form,
    octets: &[u8],
    error: &ParseError,
    octet: usize,
    scratch: &mut [u8],
) -> Result<Vec<Tag>, AllocError> {
    let mut tags = Vec::new(alloc);
    let identifiers = UNIVERSAL.iter().map(|row| row.0);
    for identifier in identifiers.chain([CONTEXT]) {
        let Ok((tag, _)) = Tag::from_bytes(&[identifier]) else {
            continue;
        };
        let is_expected = expects_tag(octets, error, octet, tag, scratch, |octets: &[u8]| {
            form.error_of(alloc, octets)
        });
        if is_expected == Some(true) {
            tags.extend_from_slice(&[tag])?;
        }
    }
    Ok(tags)
}

/// The error in words, with its octet, and with the tags that are expected there in place of another one.
fn words_of(
    alloc: Global,
    form: Form,
    octets: &[u8],
    error: &ParseError,
) -> Result<String, AllocError> {
    let mut scratch = Vec::from_slice(alloc, octets)?;
    let octet = error_octet(octets, scratch.as_mut_slice(), |octets: &[u8]| {
        form.error_of(alloc, octets)
    });
    let Some(octet) = octet else {
        return in_words(alloc, error, &[], None);
    };
    let expected = match error.kind() {
        ParseErrorKind::UnexpectedTag { .. } => {
            expected_at(alloc, form, octets, error, octet, scratch.as_mut_slice())?
        }
        _ => Vec::new(alloc),
    };
    let mut words = in_words(alloc, error, expected.as_slice(), octets.get(octet..))?;
    write!(words, " (octet {octet})")?;
    Ok(words)
}

/// The result for an object in DER if this kind is asked for, with an error in words and its octet.
fn told(alloc: Global, kind: Kind, octets: &[u8], page: Page<'_>) -> Result<Answer, Fault>
    ensures { IfErr result IsMemoryOrWrite }
{
    let answer = answer_to(alloc, kind, octets, Some(page))?;
    let Answer::Rejected(Refusal::Der(form, error)) = &answer else {
        return Ok(answer);
    };
    let words = words_of(alloc, *form, octets, error)?;
    Ok(Answer::Rejected(Refusal::Told(words)))
}

/// Whether each tag is as in this kind: the octets are read, or rejected for another reason.
fn has_tags(alloc: Global, kind: Kind, octets: &[u8]) -> Result<bool, Fault>
    ensures { IfErr result (λ fault. fault ≡ Memory) }
{
    let answer = answer_to(alloc, kind, octets, None)?;
    let Answer::Rejected(Refusal::Der(_form, error)) = &answer else {
        return Ok(true);
    };
    Ok(!matches!(error.kind(), ParseErrorKind::UnexpectedTag { .. }))
}

/// The kind whose objects begin as these octets do: of several the one whose tags they have, or else the likeliest.
fn kind_begun(alloc: Global, octets: &[u8]) -> Result<Option<Kind>, Fault>
    ensures { IfErr result (λ fault. fault ≡ Memory) }
{
    let identifiers = identifiers(alloc, octets)?;
    let mut begun = None;
    for (beginning, kind) in BEGINNINGS {
        if identifiers.as_slice().starts_with(*beginning) {
            if has_tags(alloc, *kind, octets)? {
                return Ok(Some(*kind));
            }
            begun = begun.or(Some(*kind));
        }
    }
    Ok(begun)
}

/// The only kind that reads the octets, if there is one; or why there is none.
fn kind_of(alloc: Global, octets: &[u8]) -> Result<Result<Kind, Refusal>, Fault>
    ensures { IfErr result (λ fault. fault ≡ Memory) }
{
    let mut found = None;
    for kind in Kind::ALL.iter().copied() {
        match answer_to(alloc, kind, octets, None)? {
            Answer::Rejected(Refusal::Encrypted) => return Ok(Err(Refusal::Encrypted)),
            Answer::Rejected(Refusal::EvenExponent) => return Ok(Err(Refusal::SeveralKinds)),
            Answer::Rejected(_refusal) => {}
            _answer => {
                if found.replace(kind).is_some() {
                    return Ok(Err(Refusal::SeveralKinds));
                }
            }
        }
    }
    Ok(match found {
        Some(kind) => Ok(kind),
        None => Err(Refusal::NoKind),
    })
}

/// The result for an object in DER if no kind is named: the lines of the only kind that reads it. If none does, it is
/// rejected as an object of the kind that its first elements tell, whose name comes before the reason.
fn answer_to_any(alloc: Global, octets: &[u8], page: Page<'_>) -> Result<Answer, Fault>
    ensures { IfErr result IsMemoryOrWrite }
{
    match kind_of(alloc, octets)? {
        Ok(kind) => return answer_to(alloc, kind, octets, Some(page)),
        Err(Refusal::NoKind) => {}
        Err(refusal) => return Ok(Answer::Rejected(refusal)),
    }
    let Some(kind) = kind_begun(alloc, octets)? else {
        return Ok(Answer::Rejected(match strip_tlv(octets) {
            Ok(_) => Refusal::NoKind,
            Err(error) => Refusal::NoElement(error),
        }));
    };
    match told(alloc, kind, octets, page)? {
        Answer::Rejected(Refusal::Told(words)) => {
            let name = str::from_utf8(kind.name()).unwrap_or("");
            let words = format!(in alloc; "{name}: {words}")?;
            Ok(Answer::Rejected(Refusal::Told(words)))
        }
        answer => Ok(answer),
    }
}

/// Why an input that isn't in PEM is rejected: it is another document, or else the reason that was found, to which what
/// is around the object is added.
fn explained(alloc: Global, input: &[u8], refusal: Refusal) -> Result<Refusal, AllocError> {
    if let Some(document) = other_document(alloc, input)? {
        return Ok(Refusal::Told(format!(in alloc; "this is {document}")?));
    }
    match refusal {
        Refusal::Told(words) => {
            let around = around(input);
            Ok(Refusal::Told(format!(in alloc; "{words}{around}")?))
        }
        refusal => Ok(refusal),
    }
}

/// The result for an input that isn't in PEM.
fn answer_to_der(
    alloc: Global,
    kind: Option<Kind>,
    input: &[u8],
    page: Page<'_>,
) -> Result<Answer, Fault>
    ensures { IfErr result IsMemoryOrWrite }
{
    if input.is_empty() {
        return Ok(Answer::Rejected(Refusal::Empty));
    }
    let answer = match kind {
        Some(kind) => told(alloc, kind, input, page)?,
        None => answer_to_any(alloc, input, page)?,
    };
    match answer {
        Answer::Rejected(refusal) => Ok(Answer::Rejected(explained(alloc, input, refusal)?)),
        answer => Ok(answer),
    }
}

/// The label as characters, with those escaped that can't be printed.
fn text_of(alloc: Global, label: &[u8]) -> Result<String, AllocError> {
    escaped(alloc, str::from_utf8(label).unwrap_or("?"))
}

/// Why an object with this label isn't read: it is of another kind than the one that is asked for, it is another
/// document, or its label tells nothing.
fn refused_label(alloc: Global, label: &[u8]) -> Result<Refusal, AllocError> {
    let text = text_of(alloc, label)?;
    let words = match (Kind::labelled(label), other_labelled(label)) {
        (Some(kind), _) => {
            let name = str::from_utf8(kind.name()).unwrap_or("");
            format!(in alloc; "the label \"{text}\" is of the kind {name}")?
        }
        (None, Some(document)) => format!(in alloc; "the label \"{text}\" is that of {document}")?,
        (None, None) => format!(in alloc; "the label \"{text}\" tells no kind: name one")?,
    };
    Ok(Refusal::Label(words))
}

/// The lines of an object in PEM, of the kind that is asked for or that its label tells. A label that is not known may
/// be of any kind.
fn answer_to_object(
    alloc: Global,
    asked: Option<Kind>,
    object: &Object<'_>,
    page: Page<'_>,
) -> Result<Answer, Fault>
    ensures { IfErr result IsMemoryOrWrite }
{
    if object.is_encrypted || object.label.starts_with(b"ENCRYPTED") {
        return Ok(Answer::Rejected(Refusal::Encrypted));
    }
    let octets = match object.octets(alloc)? {
        Ok(octets) => octets,
        Err(error) => return Ok(Answer::Rejected(Refusal::Pem(error))),
    };
    let kind = match (Kind::labelled(object.label), asked) {
        (Some(told), Some(asked)) if told != asked => None,
        // Parameters and keys of DSA may have the form of a kind.
        _ if object.label.ends_with(b"PARAMETERS") || object.label.starts_with(b"DSA") => None,
        (told, asked) => told.or(asked),
    };
    match kind {
        Some(kind) => told(alloc, kind, octets.as_slice(), page),
        None => Ok(Answer::Rejected(refused_label(alloc, object.label)?)),
    }
}

/// The name of one of several objects.
fn heading(alloc: Global, number: usize, object: &Object<'_>) -> Result<String, AllocError> {
    let label = text_of(alloc, object.label)?;
    format!(in alloc; "object.{number}: {label}")
}

/// The result for an input.
#[derive(Debug, Drop)]
pub struct Report {
    /// A line for each object that is rejected: why.
    pub reasons: String,
}

impl Report {
    /// Writes the last lines of an object, or adds why it is rejected. It has this page's heading as its name.
    fn add(&mut self, page: Page<'_>, answer: Answer) -> Result<(), Fault>
        ensures { IfErr result IsMemoryOrWrite }
    {
        let name = page.heading;
        let dots = if name.is_empty() { "" } else { ": " };
        let mut out = page.out;
        match answer {
            Answer::Read => {}
            Answer::Shown(last) => out.write_all(last.as_bytes()).or(Err(Fault::Write))?,
            Answer::Rejected(refusal) => writeln!(self.reasons, "pkix: {name}{dots}{refusal}")?,
        }
        Ok(())
    }
}

/// Writes the lines of the objects of an input, and returns why others are rejected. If there are several objects, a
/// line with the number and the label comes before each. The input is in PEM if it has a line that begins with
/// `-----BEGIN ` and only text before that, and else one object in DER. `Memory` if out of memory, `Write` if the lines
/// can't be written; some of them may be written then.
pub fn report_on(
    alloc: Global,
    kind: Option<Kind>,
    input: &[u8],
    out: Stdout,
) -> Result<Report, Fault>
    ensures { IfErr result IsMemoryOrWrite }
{
    let mut report = Report {
        reasons: String::new(alloc),
    };
    let page = Page { out, heading: "" };
    match objects(alloc, input)?.as_slice() {
        [] => report.add(page, answer_to_der(alloc, kind, input, page)?)?,
        [object] => report.add(page, answer_to_object(alloc, kind, object, page)?)?,
        several => {
            for (number, object) in several.iter().enumerate() {
                let name = heading(alloc, number, object)?;
                let heading = name.as_str();
                let page = Page { out, heading };
                report.add(page, answer_to_object(alloc, kind, object, page)?)?;
            }
        }
    }
    Ok(report)
}
