//! The kinds of errors, as words in a line.

ghost use Rattle.std.specs.Prelude.{◌≡◌, ◌++◌, ◌∷◌, decimal, OnOk};
ghost use Rattle.std.specs.Io.{StartsWith};
ghost use Rattle.dercheck.specs.Replies.{kind_name, kind_text, class_text, form_text};

use asn1::{ParseErrorKind, TagClass};
use itoa::Buffer;
use std::alloc::AllocError;

/// The kind's name.
fn kind_name(kind: ParseErrorKind) -> &'static [u8]
    ensures { result.now ≡ kind_name kind }
{
    match kind {
        ParseErrorKind::InvalidValue => b"InvalidValue",
        ParseErrorKind::InvalidTag => b"InvalidTag",
        ParseErrorKind::InvalidLength => b"InvalidLength",
        ParseErrorKind::InvalidSize { .. } => b"InvalidSize",
        ParseErrorKind::UnexpectedTag { .. } => b"UnexpectedTag",
        ParseErrorKind::ShortData { .. } => b"ShortData",
        ParseErrorKind::IntegerOverflow => b"IntegerOverflow",
        ParseErrorKind::ExtraData => b"ExtraData",
        ParseErrorKind::InvalidSetOrdering => b"InvalidSetOrdering",
        ParseErrorKind::EncodedDefault => b"EncodedDefault",
        ParseErrorKind::OidTooLong => b"OidTooLong",
        ParseErrorKind::UnknownDefinedBy => b"UnknownDefinedBy",
        ParseErrorKind::AllocationError => b"AllocationError",
    }
}

/// The name of a class.
fn class_text(class: TagClass) -> &'static [u8]
    ensures { result.now ≡ class_text class }
{
    match class {
        TagClass::Universal => b"universal",
        TagClass::Application => b"application",
        TagClass::ContextSpecific => b"context",
        TagClass::Private => b"private",
    }
}

/// The name of a form.
fn form_text(constructed: bool) -> &'static [u8]
    ensures { result.now ≡ form_text constructed }
{
    if constructed {
        b"constructed"
    } else {
        b"primitive"
    }
}

/// Appends a space and the word.
fn push_word(out: &mut Vec<u8>, word: &[u8]) -> Result<(), AllocError>
    ensures ok { OnOk result (out.new.items ≡ out.old.items ++ 32 ∷ word.now) }
    ensures kept { StartsWith out.new.items out.old.items }
{
    out.push(b' ')?;
    out.extend_from_slice(word)
}

/// Appends a space and the number in decimal.
fn push_number(out: &mut Vec<u8>, number: usize) -> Result<(), AllocError>
    ensures ok { OnOk result (out.new.items ≡ out.old.items ++ 32 ∷ decimal number) }
    ensures kept { StartsWith out.new.items out.old.items }
{
    let mut buffer = Buffer::new();
    push_word(out, buffer.format(number).as_bytes())
}

/// Appends the kind's name and its details, with a space before each. `AllocError` if out of memory; then some of this
/// may have been appended.
pub fn push_kind(out: &mut Vec<u8>, kind: ParseErrorKind) -> Result<(), AllocError>
    ensures ok { OnOk result (out.new.items ≡ out.old.items ++ kind_text kind) }
    ensures kept { StartsWith out.new.items out.old.items }
{
    out.extend_from_slice(kind_name(kind))?;
    match kind {
        ParseErrorKind::InvalidSize { min, max, actual } => {
            push_number(out, min)?;
            push_number(out, max)?;
            push_number(out, actual)
        }
        ParseErrorKind::UnexpectedTag { actual } => {
            push_word(out, class_text(actual.class()))?;
            push_number(out, actual.value() as usize)?;
            push_word(out, form_text(actual.is_constructed()))
        }
        ParseErrorKind::ShortData { needed } => push_number(out, needed),
        _ => Ok(()),
    }
}
