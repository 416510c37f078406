//! What a call returns for octets that stand in the code. The attribute opens the functions of the definitions, and so
//! the prover computes the result.

ghost use Rattle.std.specs.Prelude.{◌≡◌, IsErrAnd};
ghost use Rattle.asn1_core.specs.declared.parser.ParseErrorKind.TheVariants.{InvalidValue};

use asn1_core::{ParseResult, parse_single};
use std::alloc::Global;

/// These octets are the INTEGER 5.
#[tactic(auto, unfolding(asn1_core::specs::Element::leading_element, asn1_core::specs::Tag::leading_tag, asn1_core::specs::Length::leading_length, asn1_core::specs::Integer::read_sized, asn1_core::specs::Integer::read_integer))]
pub fn five(alloc: Global) -> ParseResult<u8>
    ensures { result ≡ Ok 5 }
{
    parse_single::<u8>(alloc, &[0x02, 0x01, 0x05])
}

/// No BOOLEAN has the contents octet 0x01.
#[tactic(auto, unfolding(asn1_core::specs::Element::leading_element, asn1_core::specs::Tag::leading_tag, asn1_core::specs::Length::leading_length))]
pub fn no_boolean(alloc: Global) -> ParseResult<bool>
    ensures { IsErrAnd result (λ e. e.kind ≡ InvalidValue) }
{
    parse_single::<bool>(alloc, &[0x01, 0x01, 0x01])
}
