//! Values of extensions of revocation lists and of their entries (RFC 5280, 5.2.3, 5.2.4, 5.3.1 and 5.3.2).
// Printed by tools/derive from declarations/revocation/extensions.rs, with the sum fca9bd92.

ghost use Rattle.asn1.specs.Reads.{HasOneEncoding};

use asn1::{BigUint, Enumerated, X509GeneralizedTime};

/// CRLNumber (RFC 5280, 5.2.3), an INTEGER from 0; identifier 2.5.29.20.
pub type CrlNumber<'a> = BigUint<'a>;

/// BaseCRLNumber (RFC 5280, 5.2.4), an INTEGER from 0: the number of the list that this one completes; identifier
/// 2.5.29.27.
pub type BaseCrlNumber<'a> = BigUint<'a>;

/// CRLReason (RFC 5280, 5.3.1), an ENUMERATED of 0 to 6 and 8 to 10, which isn't checked; identifier 2.5.29.21.
pub type CrlReason = Enumerated;

/// InvalidityDate (RFC 5280, 5.3.2), a GeneralizedTime in whole seconds: since when the key may be known to others;
/// identifier 2.5.29.24.
pub type InvalidityDate = X509GeneralizedTime;

/// The laws of the types, which do nothing.
pub mod laws {
    use super::{BaseCrlNumber, CrlNumber, CrlReason, InvalidityDate};
    use asn1::Asn1Type;

    /// Each value of `CrlNumber` has one encoding, which is read back.
    pub fn crl_number_is_lawful()
        ensures { HasOneEncoding ⟦<CrlNumber<'static> as Asn1Type>⟧.der }
    {}

    /// Each value of `BaseCrlNumber` has one encoding, which is read back.
    pub fn base_crl_number_is_lawful()
        ensures { HasOneEncoding ⟦<BaseCrlNumber<'static> as Asn1Type>⟧.der }
    {}

    /// Each value of `CrlReason` has one encoding, which is read back.
    pub fn crl_reason_is_lawful()
        ensures { HasOneEncoding ⟦<CrlReason as Asn1Type>⟧.der }
    {}

    /// Each value of `InvalidityDate` has one encoding, which is read back.
    pub fn invalidity_date_is_lawful()
        ensures { HasOneEncoding ⟦<InvalidityDate as Asn1Type>⟧.der }
    {}
}
