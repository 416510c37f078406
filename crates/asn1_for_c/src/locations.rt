//! The location of an error, in the words of the documents, in a buffer of the caller's.

ghost use Rattle.std.specs.Prelude.{◌≡◌, ◌==◌, [], ◌∷◌, false, option_copied};
ghost use Rattle.std.specs.List.{after_last};
ghost use Rattle.asn1_for_c.specs.Locations.{Appends, colon, document_name, in_capitals, letter, other_name};
ghost use Rattle.asn1_for_c.specs.Locations.{location_text, place_text, shown_location};
ghost use Rattle.asn1_for_c.specs.Texts.{LeavesText};

use asn1::Place;
use itoa::Buffer;

/// Appends an octet to the text at the start of a buffer, if the buffer has room for it, and counts it in each case.
fn push(octet: u8, buffer: &mut [u8], count: &mut usize)
    ensures { Appends (octet ∷ []) buffer.old count.old buffer.new count.new }
{
    if *count < buffer.len() {
        buffer[*count] = octet;
    }
    *count = count.saturating_add(1);
}

/// The same with several octets.
fn push_all(octets: &[u8], buffer: &mut [u8], count: &mut usize)
    ensures { Appends octets.now buffer.old count.old buffer.new count.new }
{
    for octet in octets {
        push(*octet, buffer, count);
    }
}

/// Appends an octet of a field's name, if it isn't `_`, as a capital if it comes after one.
fn push_letter(octet: u8, is_capital: bool, buffer: &mut [u8], count: &mut usize)
    ensures { Appends (letter is_capital octet) buffer.old count.old buffer.new count.new }
{
    if octet == b'_' {
        return;
    }
    if is_capital {
        push(octet.to_ascii_uppercase(), buffer, count);
    } else {
        push(octet, buffer, count);
    }
}

/// Appends the words of a field's name, each but the first with a capital.
fn push_words(field: &[u8], buffer: &mut [u8], count: &mut usize)
    ensures { Appends (in_capitals false field.now) buffer.old count.old buffer.new count.new }
{
    let mut is_capital = false;
    for octet in field {
        push_letter(*octet, is_capital, buffer, count);
        is_capital = *octet == b'_';
    }
}

/// The name of a field in the documents, if it has other capitals than the field's words.
fn other_name(field: &[u8]) -> Option<&'static [u8]>
    ensures { option_copied result ≡ other_name field.now }
{
    let name: &'static [u8] = if field == b"ca".as_slice() {
        b"cA"
    } else if field == b"crl_issuer".as_slice() {
        b"cRLIssuer"
    } else if field == b"extn_id".as_slice() {
        b"extnID"
    } else if field == b"issuer_unique_id".as_slice() {
        b"issuerUniqueID"
    } else if field == b"subject_pk_info".as_slice() {
        b"subjectPKInfo"
    } else if field == b"subject_unique_id".as_slice() {
        b"subjectUniqueID"
    } else if field == b"type_id".as_slice() {
        b"type"
    } else {
        return None;
    };
    Some(name)
}

/// Appends the name of a field in the documents.
fn push_field(field: &[u8], buffer: &mut [u8], count: &mut usize)
    ensures { Appends (document_name field.now) buffer.old count.old buffer.new count.new }
{
    match other_name(field) {
        Some(name) => push_all(name, buffer, count),
        None => push_words(field, buffer, count),
    }
}

/// What follows the last colon of a name: an error has the name of a field after that of its struct.
fn after_colons(name: &[u8]) -> &[u8]
    ensures { result.now ≡ after_last (λ octet. octet == colon) name.now }
{
    let mut start = name.len();
    while start > 0 && name[start - 1] != b':' {
        start -= 1;
    }
    &name[start..]
}

/// Appends a location: the number of an item, or the name of a field.
fn push_place(place: &Place, buffer: &mut [u8], count: &mut usize)
    ensures { Appends (place_text place.now) buffer.old count.old buffer.new count.new }
{
    match place {
        Place::Field(name) => push_field(after_colons(name.as_str().as_bytes()), buffer, count),
        Place::Index(index) => push_all(Buffer::new().format(*index).as_bytes(), buffer, count),
    }
}

/// Appends locations, which are in the order of an error's, the outermost first.
fn push_places(places: &[Place], buffer: &mut [u8], count: &mut usize)
    ensures { Appends (location_text places.now) buffer.old count.old buffer.new count.new }
{
    match places {
        [] => {}
        [place] => push_place(place, buffer, count),
        [place, around @ ..] => {
            push_places(around, buffer, count);
            push(b'.', buffer, count);
            push_place(place, buffer, count);
        }
    }
}

/// Leaves the text of locations in a buffer if it has room for it, and says how many octets the text has.
pub(crate) fn leave_location(places: &[Place], buffer: &mut [u8], count: &mut usize)
    ensures { LeavesText (shown_location places.now) buffer.old buffer.new count.new }
{
    *count = 0;
    push_places(places, &mut [], count);
    if *count <= buffer.len() {
        *count = 0;
        push_places(places, buffer, count);
    }
}
