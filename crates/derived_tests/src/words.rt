//! What contracts say of abstract values by the words that `tools/derive` prints of a module.

ghost use Rattle.std.specs.Prelude.{◌≡◌, pos};
ghost use Rattle.derived_tests.specs.Page.{responder_id_is_by_key, responder_id_is_by_name};
ghost use Rattle.derived_tests.specs.Page.{signature_s, tagged_level};

use crate::page::{ResponderId, Signature, Tagged};
use asn1::Asn1Type;

/// The second number.
pub fn second(signature: &Signature) -> u64
    ensures { signature_s (⟦<Signature as Asn1Type>⟧.der.meaning signature.now) ≡ pos result }
{
    signature.s
}

/// The last field.
pub fn level(tagged: &Tagged<'_>) -> i8
    ensures { tagged_level (⟦<Tagged<'static> as Asn1Type>⟧.der.meaning tagged.now) ≡ result }
{
    tagged.level
}

/// Whether a responder is told by its name.
pub fn is_by_name(id: &ResponderId<'_>) -> bool
    ensures by_name { result
        ≡ responder_id_is_by_name (⟦<ResponderId<'static> as Asn1Type>⟧.der.meaning id.now) }
{
    matches!(id, ResponderId::ByName(_))
}

/// Whether it is told by its key.
pub fn is_by_key(id: &ResponderId<'_>) -> bool
    ensures { result
        ≡ responder_id_is_by_key (⟦<ResponderId<'static> as Asn1Type>⟧.der.meaning id.now) }
{
    matches!(id, ResponderId::ByKey(_))
}
