//! Keys, and the parameters of their algorithms.

use crate::boundaries::are_answered;
use pkix::keys::{
    DssParms, EcPrivateKey, EncryptedPrivateKeyInfo, OneAsymmetricKey, OtherPrimeInfo,
    OtherPrimeInfos, RsaPrivateKey, RsaPublicKey, RsassaPssParams,
};
use std::alloc::Global;
use std::test::Fail;

/// OneAsymmetricKey (RFC 5958, 2).
const ONE_ASYMMETRIC_KEY: &str = "\
+ 020100: tag 30 version; tag 02 private_key_algorithm; tag 8e version
= 020200ff: read
= 02020100: IntegerOverflow version
= 0201ff: InvalidValue version
+ 300406022a03: tag 04 private_key_algorithm; tag 30 private_key; tag ae private_key_algorithm
+ 0401ab: tag a0 private_key; ExtraData; tag 8e private_key
= 0400: read
? a000: read; ExtraData; ExtraData
= a0023000: short 1 attributes 0 Attribute::type_id
= a010300606022a043100300606022a033100: InvalidSetOrdering attributes 1
? 81020001: read; ExtraData; ExtraData
= 810200a0: read
= 810207ff: InvalidValue public_key";

/// EncryptedPrivateKeyInfo (RFC 5958, 3).
const ENCRYPTED_PRIVATE_KEY_INFO: &str = "\
+ 300406022a03: tag 04 encryption_algorithm; tag 30 encrypted_data; tag ae encryption_algorithm
+ 0401ab: short 1 encrypted_data; ExtraData; tag 8e encrypted_data
= 0400: read";

/// RsaPublicKey (RFC 8017, A.1.1).
const RSA_PUBLIC_KEY: &str = "\
+ 02010f: short 1 public_exponent; ExtraData; tag 8e modulus
= 020100: read
= 0209010000000000000000: read
= 0201ff: InvalidValue modulus
= 02020005: InvalidValue modulus
+ 020103: short 1 public_exponent; ExtraData; tag 8e public_exponent
= 020100: read
= 0209010000000000000000: read
= 0201ff: InvalidValue public_exponent
= 02020005: InvalidValue public_exponent";

/// RsaPrivateKey (RFC 8017, A.1.2).
const RSA_PRIVATE_KEY: &str = "\
+ 020100: tag 30 coefficient; ExtraData; tag 8e version
= 020200ff: read
= 02020100: IntegerOverflow version
= 0201ff: InvalidValue version
+ 020103: tag 30 coefficient; ExtraData; tag 8e modulus
= 020100: read
= 0209010000000000000000: read
= 0201ff: InvalidValue modulus
= 02020005: InvalidValue modulus
+ 020104: tag 30 coefficient; ExtraData; tag 8e public_exponent
= 020100: read
= 0209010000000000000000: read
= 0201ff: InvalidValue public_exponent
= 02020005: InvalidValue public_exponent
+ 020105: tag 30 coefficient; ExtraData; tag 8e private_exponent
= 020100: read
= 0209010000000000000000: read
= 0201ff: InvalidValue private_exponent
= 02020005: InvalidValue private_exponent
+ 020106: tag 30 coefficient; ExtraData; tag 8e prime1
= 020100: read
= 0209010000000000000000: read
= 0201ff: InvalidValue prime1
= 02020005: InvalidValue prime1
+ 020107: tag 30 coefficient; ExtraData; tag 8e prime2
= 020100: read
= 0209010000000000000000: read
= 0201ff: InvalidValue prime2
= 02020005: InvalidValue prime2
+ 020108: tag 30 coefficient; ExtraData; tag 8e exponent1
= 020100: read
= 0209010000000000000000: read
= 0201ff: InvalidValue exponent1
= 02020005: InvalidValue exponent1
+ 020109: tag 30 coefficient; ExtraData; tag 8e exponent2
= 020100: read
= 0209010000000000000000: read
= 0201ff: InvalidValue exponent2
= 02020005: InvalidValue exponent2
+ 02010a: tag 30 coefficient; ExtraData; tag 8e coefficient
= 020100: read
= 0209010000000000000000: read
= 0201ff: InvalidValue coefficient
= 02020005: InvalidValue coefficient
? 300b3009020105020106020107: read; ExtraData; ExtraData
= 3000: 0 items other_prime_infos
= 30023000: short 1 other_prime_infos 0 OtherPrimeInfo::prime";

/// OtherPrimeInfo (RFC 8017, A.1.2).
const OTHER_PRIME_INFO: &str = "\
+ 020105: short 1 coefficient; ExtraData; tag 8e prime
= 020100: read
= 0209010000000000000000: read
= 0201ff: InvalidValue prime
= 02020005: InvalidValue prime
+ 020106: short 1 coefficient; ExtraData; tag 8e exponent
= 020100: read
= 0209010000000000000000: read
= 0201ff: InvalidValue exponent
= 02020005: InvalidValue exponent
+ 020107: short 1 coefficient; ExtraData; tag 8e coefficient
= 020100: read
= 0209010000000000000000: read
= 0201ff: InvalidValue coefficient
= 02020005: InvalidValue coefficient";

/// OtherPrimeInfos (RFC 8017, A.1.2).
const OTHER_PRIME_INFOS: &str = "\
300b3009020105020106020107: read
3000: 0 items
30023000: short 1 0 OtherPrimeInfo::prime
30163009020105020106020107300902010802010902010a: read
ae0b3009020105020106020107: tag ae
: short 1";

/// EcPrivateKey (RFC 5915, 3).
const EC_PRIVATE_KEY: &str = "\
+ 020101: tag 04 version; tag 02 private_key; tag 8e version
= 020200ff: read
= 02020100: IntegerOverflow version
= 0201ff: InvalidValue version
+ 0401ab: tag a0 private_key; ExtraData; tag 8e private_key
= 0400: read
? a00406022a03: read; ExtraData; ExtraData
= a0020600: InvalidValue parameters
= a000: short 1 parameters
= a00606022a030500: ExtraData parameters
? a10403020001: read; ExtraData; ExtraData
= a104030200a0: read
= a104030207ff: InvalidValue public_key
= a100: short 1 public_key
= a106030200010500: ExtraData public_key";

/// DssParms (RFC 3279, 2.3.2).
const DSS_PARMS: &str = "\
+ 020107: short 1 g; ExtraData; tag 8e p
= 020100: read
= 0209010000000000000000: read
= 0201ff: InvalidValue p
= 02020005: InvalidValue p
+ 020103: short 1 g; ExtraData; tag 8e q
= 020100: read
= 0209010000000000000000: read
= 0201ff: InvalidValue q
= 02020005: InvalidValue q
+ 020102: short 1 g; ExtraData; tag 8e g
= 020100: read
= 0209010000000000000000: read
= 0201ff: InvalidValue g
= 02020005: InvalidValue g";

/// RsassaPssParams (RFC 4055, 3.1).
const RSASSA_PSS_PARAMS: &str = "\
? a006300406022a03: read; ExtraData; ExtraData
= a000: short 1 hash_algorithm
= a008300406022a030500: ExtraData hash_algorithm
? a106300406022a03: read; ExtraData; ExtraData
= a100: short 1 mask_gen_algorithm
= a108300406022a030500: ExtraData mask_gen_algorithm
? a203020120: read; ExtraData; ExtraData
= a203020114: EncodedDefault salt_length
= a207020500ffffffff: read
= a20702050100000000: IntegerOverflow salt_length
= a2030201ff: InvalidValue salt_length
= a200: short 1 salt_length
= a2050201200500: ExtraData salt_length
? a303020102: read; ExtraData; ExtraData
= a303020101: EncodedDefault trailer_field
= a307020500ffffffff: read
= a30702050100000000: IntegerOverflow trailer_field
= a3030201ff: InvalidValue trailer_field
= a300: short 1 trailer_field
= a3050201020500: ExtraData trailer_field
300da00b300906052b0e03021a0500: read";

/// Each of these types answers as its rows say.
pub fn keys_and_parameters(alloc: Global) -> Result<(), Fail> {
    are_answered::<OneAsymmetricKey<'_>>(alloc, "OneAsymmetricKey", ONE_ASYMMETRIC_KEY)?;
    are_answered::<EncryptedPrivateKeyInfo<'_>>(
        alloc,
        "EncryptedPrivateKeyInfo",
        ENCRYPTED_PRIVATE_KEY_INFO,
    )?;
    are_answered::<RsaPublicKey<'_>>(alloc, "RsaPublicKey", RSA_PUBLIC_KEY)?;
    are_answered::<RsaPrivateKey<'_>>(alloc, "RsaPrivateKey", RSA_PRIVATE_KEY)?;
    are_answered::<OtherPrimeInfo<'_>>(alloc, "OtherPrimeInfo", OTHER_PRIME_INFO)?;
    are_answered::<OtherPrimeInfos<'_>>(alloc, "OtherPrimeInfos", OTHER_PRIME_INFOS)?;
    are_answered::<EcPrivateKey<'_>>(alloc, "EcPrivateKey", EC_PRIVATE_KEY)?;
    are_answered::<DssParms<'_>>(alloc, "DssParms", DSS_PARMS)?;
    are_answered::<RsassaPssParams<'_>>(alloc, "RsassaPssParams", RSASSA_PSS_PARAMS)
}
