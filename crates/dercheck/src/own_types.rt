//! Types that are written by hand, with the public calls of `asn1` alone: the examples of docs/OWN_TYPES.md.

pub mod entry;
pub mod my_sequence;
pub mod reason;
pub mod sealable;
pub mod signature;
pub mod some_sequence;
pub mod time;

ghost use Rattle.asn1.specs.Reads.{HasOneEncoding};

use asn1::Asn1Type;
use entry::Entry;
use my_sequence::MySequence;
use reason::Reason;
use sealable::Sealable;
use signature::Signature;
use some_sequence::SomeSequence;
use time::Time;

/// Each value of the types here has one encoding, which is read back: both round trips of `asn1` hold of them.
#[tactic(auto, using(asn1::specs::Lemmas::Fields::tags_differ))]
pub fn own_types_are_lawful()
    ensures entry { HasOneEncoding ⟦<Entry as Asn1Type>⟧.der }
    ensures my_sequence { HasOneEncoding ⟦<MySequence as Asn1Type>⟧.der }
    ensures reason { HasOneEncoding ⟦<Reason as Asn1Type>⟧.der }
    ensures sealable { HasOneEncoding ⟦<Sealable as Asn1Type>⟧.der }
    ensures signature { HasOneEncoding ⟦<Signature as Asn1Type>⟧.der }
    ensures some_sequence { HasOneEncoding ⟦<SomeSequence<'static> as Asn1Type>⟧.der }
    ensures time { HasOneEncoding ⟦<Time as Asn1Type>⟧.der }
{}
