//! Keys (RFC 5958, 2; RFC 8017, A.1; RFC 5915, 3).

use crate::key_sizes::{bits, show_size, size_by_algorithm, size_on};
use crate::show::{Lines, Show, fields};
use pkix::algorithm_parameters::KnownAlgorithm::{self, EcPublicKey, RsaEncryption, RsassaPss};
use pkix::keys::{EcPrivateKey, OneAsymmetricKey, OtherPrimeInfo, RsaPrivateKey, RsaPublicKey};

/// The first line says what two integers are taken for.
impl Show for RsaPublicKey<'_> {
    fn show(&self, lines: &mut Lines) {
        lines.part("form", &"two integers, read as an RSAPublicKey");
        fields!(lines, self, RsaPublicKey: modulus, public_exponent);
        show_size(lines, bits(&self.modulus));
    }
}

impl Show for RsaPrivateKey<'_> {
    fn show(&self, lines: &mut Lines) {
        fields!(lines, self, RsaPrivateKey:
            version, modulus, public_exponent, private_exponent, prime1, prime2, exponent1,
            exponent2, coefficient, other_prime_infos);
        show_size(lines, bits(&self.modulus));
    }
}

impl Show for OtherPrimeInfo<'_> {
    fn show(&self, lines: &mut Lines) {
        fields!(lines, self, OtherPrimeInfo: prime, exponent, coefficient);
    }
}

impl Show for EcPrivateKey<'_> {
    fn show(&self, lines: &mut Lines) {
        fields!(lines, self, EcPrivateKey: version, private_key, parameters, public_key);
        let size = self.parameters.as_ref().and_then(|curve| size_on(curve));
        show_size(lines, size);
    }
}

/// The key itself is shown by its numbers if its algorithm is a known one, and else as octets. The size of an RSA key
/// is among its numbers.
impl Show for OneAsymmetricKey<'_> {
    fn show(&self, lines: &mut Lines) {
        fields!(lines, self, OneAsymmetricKey: version, private_key_algorithm);
        let (name, key) = ("OneAsymmetricKey::private_key", self.private_key);
        match KnownAlgorithm::with_identifier(&self.private_key_algorithm.algorithm) {
            Some(RsaEncryption | RsassaPss) => lines.inner::<RsaPrivateKey<'_>>(name, key),
            Some(EcPublicKey) => lines.inner::<EcPrivateKey<'_>>(name, key),
            _ => lines.part(name, &key),
        }
        fields!(lines, self, OneAsymmetricKey: attributes, public_key);
        let size = size_by_algorithm(lines.alloc, &self.private_key_algorithm);
        show_size(lines, size);
    }
}
