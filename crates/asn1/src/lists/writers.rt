//! SEQUENCE and SEQUENCE OF that are only written (X.690 8.9, 8.10).

ghost use Rattle.std.specs.Prelude.{◌≡◌, map};
ghost use Rattle.asn1_core.specs.Writing.{ClosureMayFail};
ghost use Rattle.asn1_core.specs.Der.{encoding_of, simple_der};
ghost use Rattle.asn1_core.specs.LawsOf.Contents.{items_laws};
ghost use Rattle.std.specs.List.{AllByRecursion};
ghost use Rattle.asn1_core.specs.Listing.{AnyNames, sequence_tag};
ghost use Rattle.asn1_core.specs.SetWriting.{items_written};
ghost use Rattle.asn1.specs.InHand.{closure_written, sequence_closure, sequence_items};

use asn1_core::{Asn1Type, Asn1Writable, SimpleAsn1Writable, Tag, WriteBuf, WriteError, Writer};
use std::marker::PhantomData;

/// SEQUENCE (X.690 8.9; universal 16, constructed), whose contents octets a closure writes. (`Sequence`, or a user's
/// own type, reads it.)
///
/// The length isn't known before the contents octets are written. Writing returns `AllocationError` if out of memory,
/// or an error that the closure may return.
///
/// ```text
/// let fields = |writer: &mut Writer<'_>| -> WriteResult<()>
///     ensures same_buffer { buffer_name writer.new ≡ buffer_name writer.old }
///     ensures front { KeepsPrefix (octets_of writer.old) (octets_of writer.new) }
/// {
///     writer.write_element(&name)?;
///     writer.write_element(&true)
/// };
/// is_written(alloc, &SequenceWriter::new(&fields), SMITH)
/// ```
#[derive(Drop)]
pub struct SequenceWriter<'a, F: Fn(&mut Writer<'_>) -> Result<(), E>, E> {
    f: &'a F,
    error: PhantomData<E>,
}

impl<'a, F: Fn(&mut Writer<'_>) -> Result<(), E>, E> SequenceWriter<'a, F, E> {
    /// A sequence of what the closure will write. The closure isn't called yet. To write the sequence, the caller has
    /// to prove of the closure what [`asn1_core::write`] requires.
    pub fn new(f: &'a F) -> SequenceWriter<'a, F, E>
        ensures { sequence_closure result ≡ f.now }
    {
        SequenceWriter {
            f,
            error: PhantomData,
        }
    }
}

impl<'a, F: Fn(&mut Writer<'_>) -> Result<(), E>, E> Asn1Type for SequenceWriter<'a, F, E> {
    ghost use Rattle.asn1.specs.LawsOf.InHand.{closure_laws};

    ghost der = { simple_der sequence_closure (closure_written F.FnOnce)
        (closure_laws F.FnOnce) };

    fn known(&self) {}
}

impl<F: Fn(&mut Writer<'_>) -> Result<(), E>, E: From<WriteError>> SimpleAsn1Writable
    for SequenceWriter<'_, F, E> {
    type Error = E;

    ghost write_errors = { λ v. ClosureMayFail F.FnOnce (sequence_closure v) };

    fn tag() -> Tag
        ensures value { result ≡ sequence_tag }
        ensures simple { Unit {0} }
    {
        Tag::constructed(0x10)
    }

    fn write_data(&self, dest: &mut WriteBuf) -> Result<(), E> {
        (self.f)(&mut Writer::new(dest))
    }

    fn data_length(&self) -> Option<usize> {
        None
    }
}

/// SEQUENCE OF (X.690 8.10; universal 16, constructed), written from the items of a slice, in their order.
/// (`SequenceOf` reads it.)
///
/// The length is known if each item's is and their sum fits in a `usize`. Writing returns `AllocationError` if out of
/// memory, or an error of one of the items.
///
/// ```text
/// let items = [1u8, 2, 3];
/// let list = SequenceOfWriter::new(&items);
/// is_written(alloc, &list, ONE_TO_THREE)?;
/// ```
#[derive(Debug, Clone, PartialEq, Eq, Hash, Drop)]
pub struct SequenceOfWriter<'a, T> {
    items: &'a [T],
}

impl<'a, T: Asn1Writable> SequenceOfWriter<'a, T> {
    /// A sequence of these items.
    pub fn new(items: &'a [T]) -> SequenceOfWriter<'a, T>
        ensures { sequence_items result ≡ items.now }
    {
        SequenceOfWriter { items }
    }
}

impl<'a, T: Asn1Type> Asn1Type for SequenceOfWriter<'a, T> {
    ghost der = { simple_der (λ v. map T.der.meaning (sequence_items v))
        (items_written (encoding_of T.der)) (items_laws T.der.laws) };

    fn known(&self) {
        for item in self.items {
            item.known();
        }
    }
}

impl<T: Asn1Writable> SimpleAsn1Writable for SequenceOfWriter<'_, T> {
    type Error = T::Error;

    ghost write_errors = { λ v. AnyNames T.write_errors (sequence_items v) };

    ghost length_known = { λ v. AllByRecursion T.length_known (sequence_items v) };

    fn tag() -> Tag
        ensures value { result ≡ sequence_tag }
        ensures simple { Unit {0} }
    {
        Tag::constructed(0x10)
    }

    fn write_data(&self, dest: &mut WriteBuf) -> Result<(), T::Error> {
        let mut writer = Writer::new(dest);
        for item in self.items {
            writer.write_element(item)?;
        }
        Ok(())
    }

    fn data_length(&self) -> Option<usize> {
        let mut total = 0usize;
        for item in self.items {
            total = total.checked_add(item.encoded_length()?)?;
        }
        Some(total)
    }
}
