//! What is read is written back, and what is written is read back. A type that is read holds no closures, so writing
//! requires nothing of its values.

ghost use Rattle.std.specs.Prelude.{◌≡◌, IfOk, IfErr, IsOk};
ghost use Rattle.asn1_core.specs.ReadError.{IsOfInput};
ghost use Rattle.asn1_core.specs.Reading.{Returns, Fits, IsErrorOf, whole};
ghost use Rattle.asn1_core.specs.Writing.{NamesError};
ghost use Rattle.asn1_core.specs.Listing.{OneNames};

use asn1_core::{Asn1Readable, Asn1Writable, ParseResult, Tag, parse_single, write_single};
use std::alloc::Global;

/// Writes a value of a type that is also read, and returns its one encoding. Errors: `AllocationError` if out of
/// memory, or one that the type names. The caller has nothing to prove.
pub fn write_readable<'a, T: Asn1Readable<'a> + Asn1Writable>(
    alloc: Global,
    value: &T,
) -> Result<Vec<u8>, T::Error>
    ensures encoding { IfOk result (λ v. v.items ≡ T.der.encoding (T.der.meaning value.now)) }
    ensures error { IfErr result (NamesError T.Error.from_gives (T.write_errors value.now)) }
{
    // By this call's contract each value has one encoding.
    let _accepted = T::can_parse(Tag::primitive(0));
    write_single(alloc, value)
}

/// Reads one value and writes it back. If both succeed, the result is the same octets. The outer error is that of
/// reading, as [`parse_single`] returns it, and the inner one that of writing.
pub fn read_and_write_back<'a, T: Asn1Readable<'a> + Asn1Writable>(
    alloc: Global,
    data: &'a [u8],
) -> ParseResult<Result<Vec<u8>, T::Error>>
    ensures written { IfOk result (λ written. IfOk written (λ v. v.items ≡ «data».entry.now)) }
    ensures refused { IfErr result (IsErrorOf (T.der.runs_out «data».entry.now)
        (whole (T.der.read «data».entry.now))) }
    ensures error { IfOk result (λ written. IfErr written
        (NamesError T.Error.from_gives (OneNames T.write_errors))) }

    // Reading a type that doesn't allocate is never out of memory.
    ensures no_memory_error { ¬ T.der.takes_memory → IfErr result IsOfInput }
{
    let value = parse_single::<T>(alloc, data)?;
    Ok(write_readable(alloc, &value))
}

/// Writes a value into `store` and reads it back. The result is a value that means the same; a type whose reading
/// allocates may return `AllocationError` instead. The outer error is that of writing.
///
/// The caller has to prove (`requires`) that the type is lawful, that the value may be read back (a list has as many
/// items as its bounds allow), and that its encoding is empty or an element that is short enough to be read.
pub fn write_and_read_back<'a, T: Asn1Readable<'a> + Asn1Writable>(
    alloc: Global,
    value: &T,
    store: &'a mut Vec<u8>,
) -> Result<ParseResult<T>, T::Error>
    requires lawful { T.der.lawful }
    requires allowed { T.der.allowed (T.der.meaning value.now) }
    requires fits { Fits (T.der.encoding (T.der.meaning value.now)) }
    ensures read { IfOk result (λ read. Returns T.der.meaning
        (T.der.runs_out (T.der.encoding (T.der.meaning value.now))) read
        (Ok (T.der.meaning value.now))) }

    // If reading the type doesn't allocate, the value is read.
    ensures no_memory_error { ¬ T.der.takes_memory → IfOk result (λ read. IsOk read) }
    ensures error { IfErr result (NamesError T.Error.from_gives (T.write_errors value.now)) }
{
    value.known();
    *store = write_readable(alloc, value)?;
    Ok(parse_single::<T>(alloc, store.as_slice()))
}
