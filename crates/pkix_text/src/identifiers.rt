//! The names of object identifiers that are met often.

/// Lines of identifiers, each with its name in the document that defines it. One text, since an array of so many texts
/// takes several times as long to prove.
const NAMES: &str = "\
0.9.2342.19200300.100.1.1 userId\n\
0.9.2342.19200300.100.1.25 domainComponent\n\
1.2.840.10040.4.1 dsa\n\
1.2.840.10040.4.3 dsa-with-sha1\n\
1.2.840.10045.2.1 ecPublicKey\n\
1.2.840.10045.3.1.7 secp256r1\n\
1.2.840.10045.4.1 ecdsa-with-SHA1\n\
1.2.840.10045.4.3.1 ecdsa-with-SHA224\n\
1.2.840.10045.4.3.2 ecdsa-with-SHA256\n\
1.2.840.10045.4.3.3 ecdsa-with-SHA384\n\
1.2.840.10045.4.3.4 ecdsa-with-SHA512\n\
1.2.840.113549.1.1.1 rsaEncryption\n\
1.2.840.113549.1.1.10 RSASSA-PSS\n\
1.2.840.113549.1.1.11 sha256WithRSAEncryption\n\
1.2.840.113549.1.1.12 sha384WithRSAEncryption\n\
1.2.840.113549.1.1.13 sha512WithRSAEncryption\n\
1.2.840.113549.1.1.14 sha224WithRSAEncryption\n\
1.2.840.113549.1.1.4 md5WithRSAEncryption\n\
1.2.840.113549.1.1.5 sha1WithRSAEncryption\n\
1.2.840.113549.1.1.7 id-RSAES-OAEP\n\
1.2.840.113549.1.1.8 mgf1\n\
1.2.840.113549.1.5.12 PBKDF2\n\
1.2.840.113549.1.5.13 PBES2\n\
1.2.840.113549.1.7.1 data\n\
1.2.840.113549.1.7.2 signedData\n\
1.2.840.113549.1.7.3 envelopedData\n\
1.2.840.113549.1.9.1 emailAddress\n\
1.2.840.113549.1.9.14 extensionRequest\n\
1.2.840.113549.1.9.15 smimeCapabilities\n\
1.2.840.113549.1.9.16.1.4 tSTInfo\n\
1.2.840.113549.1.9.16.2.12 signingCertificate\n\
1.2.840.113549.1.9.16.2.47 signingCertificateV2\n\
1.2.840.113549.1.9.2 unstructuredName\n\
1.2.840.113549.1.9.3 contentType\n\
1.2.840.113549.1.9.4 messageDigest\n\
1.2.840.113549.1.9.5 signingTime\n\
1.2.840.113549.1.9.7 challengePassword\n\
1.2.840.113549.1.9.8 unstructuredAddress\n\
1.3.101.110 X25519\n\
1.3.101.111 X448\n\
1.3.101.112 Ed25519\n\
1.3.101.113 Ed448\n\
1.3.132.0.10 secp256k1\n\
1.3.132.0.34 secp384r1\n\
1.3.132.0.35 secp521r1\n\
1.3.132.1.12 id-ecDH\n\
1.3.132.1.13 id-ecMQV\n\
1.3.14.3.2.26 sha1\n\
1.3.36.3.3.2.8.1.1.11 brainpoolP384r1\n\
1.3.36.3.3.2.8.1.1.13 brainpoolP512r1\n\
1.3.36.3.3.2.8.1.1.7 brainpoolP256r1\n\
1.3.6.1.4.1.11129.2.4.2 signedCertificateTimestampList\n\
1.3.6.1.4.1.11129.2.4.3 precertificatePoison\n\
1.3.6.1.4.1.311.20.2 enrollCertType\n\
1.3.6.1.4.1.311.20.2.2 smartcardLogon\n\
1.3.6.1.4.1.311.20.2.3 userPrincipalName\n\
1.3.6.1.4.1.311.21.7 certificateTemplate\n\
1.3.6.1.4.1.311.60.2.1.1 jurisdictionLocalityName\n\
1.3.6.1.4.1.311.60.2.1.2 jurisdictionStateOrProvinceName\n\
1.3.6.1.4.1.311.60.2.1.3 jurisdictionCountryName\n\
1.3.6.1.5.5.7.1.1 authorityInfoAccess\n\
1.3.6.1.5.5.7.1.11 subjectInfoAccess\n\
1.3.6.1.5.5.7.1.12 logotype\n\
1.3.6.1.5.5.7.1.24 tlsFeature\n\
1.3.6.1.5.5.7.1.3 qcStatements\n\
1.3.6.1.5.5.7.2.1 cps\n\
1.3.6.1.5.5.7.2.2 unotice\n\
1.3.6.1.5.5.7.3.1 serverAuth\n\
1.3.6.1.5.5.7.3.2 clientAuth\n\
1.3.6.1.5.5.7.3.3 codeSigning\n\
1.3.6.1.5.5.7.3.4 emailProtection\n\
1.3.6.1.5.5.7.3.8 timeStamping\n\
1.3.6.1.5.5.7.3.9 OCSPSigning\n\
1.3.6.1.5.5.7.48.1 ocsp\n\
1.3.6.1.5.5.7.48.1.5 ocspNoCheck\n\
1.3.6.1.5.5.7.48.2 caIssuers\n\
1.3.6.1.5.5.7.48.5 caRepository\n\
2.16.840.1.101.3.4.2.1 sha256\n\
2.16.840.1.101.3.4.2.10 sha3-512\n\
2.16.840.1.101.3.4.2.2 sha384\n\
2.16.840.1.101.3.4.2.3 sha512\n\
2.16.840.1.101.3.4.2.4 sha224\n\
2.16.840.1.101.3.4.2.7 sha3-224\n\
2.16.840.1.101.3.4.2.8 sha3-256\n\
2.16.840.1.101.3.4.2.9 sha3-384\n\
2.16.840.1.101.3.4.3.1 dsa-with-sha224\n\
2.16.840.1.101.3.4.3.2 dsa-with-sha256\n\
2.16.840.1.113730.1.1 netscapeCertType\n\
2.16.840.1.113730.1.13 netscapeComment\n\
2.5.29.14 subjectKeyIdentifier\n\
2.5.29.15 keyUsage\n\
2.5.29.17 subjectAltName\n\
2.5.29.18 issuerAltName\n\
2.5.29.19 basicConstraints\n\
2.5.29.20 cRLNumber\n\
2.5.29.21 cRLReason\n\
2.5.29.24 invalidityDate\n\
2.5.29.27 deltaCRLIndicator\n\
2.5.29.28 issuingDistributionPoint\n\
2.5.29.29 certificateIssuer\n\
2.5.29.30 nameConstraints\n\
2.5.29.31 cRLDistributionPoints\n\
2.5.29.32 certificatePolicies\n\
2.5.29.32.0 anyPolicy\n\
2.5.29.33 policyMappings\n\
2.5.29.35 authorityKeyIdentifier\n\
2.5.29.36 policyConstraints\n\
2.5.29.37 extKeyUsage\n\
2.5.29.46 freshestCRL\n\
2.5.29.54 inhibitAnyPolicy\n\
2.5.29.9 subjectDirectoryAttributes\n\
2.5.4.10 organizationName\n\
2.5.4.11 organizationalUnitName\n\
2.5.4.12 title\n\
2.5.4.13 description\n\
2.5.4.15 businessCategory\n\
2.5.4.17 postalCode\n\
2.5.4.3 commonName\n\
2.5.4.4 surname\n\
2.5.4.41 name\n\
2.5.4.42 givenName\n\
2.5.4.43 initials\n\
2.5.4.44 generationQualifier\n\
2.5.4.46 dnQualifier\n\
2.5.4.5 serialNumber\n\
2.5.4.6 countryName\n\
2.5.4.65 pseudonym\n\
2.5.4.7 localityName\n\
2.5.4.8 stateOrProvinceName\n\
2.5.4.9 streetAddress\n\
2.5.4.97 organizationIdentifier\n";

/// The name of a dotted identifier, if it is a known one.
pub(crate) fn name_of(dotted: &str) -> Option<&'static str> {
    for line in NAMES.split('\n') {
        if let Some((known, name)) = line.split_once(' ') {
            if known == dotted {
                return Some(name);
            }
        }
    }
    None
}
