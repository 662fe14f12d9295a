//! Keys, parameters and kinds of signatures.

use crate::show::answer::Answer;
use crate::show::base::Show;
use x509_fields::X509Error;
use x509_keys::{
    ECPoint, EcdsaSigValue, MaskGenAlgorithm, PublicKey, RSAPublicKey, RsaAesOaepParams,
    RsaSsaPssParams, SignatureAlgorithm, SubjectPublicKeyInfo,
};

impl Show for SubjectPublicKeyInfo<'_> {
    fn show(&self, out: &mut Answer) {
        out.add("spki(");
        self.algorithm.show(out);
        out.add(";");
        self.subject_public_key.show(out);
        out.add(";");
        out.hex(self.raw);
        out.add(")");
    }
}

impl Show for RSAPublicKey<'_> {
    fn show(&self, out: &mut Answer) {
        out.add("rsa(");
        out.hex(self.modulus);
        out.add(";");
        out.hex(self.exponent);
        out.add(";");
        match self.try_exponent() {
            Ok(number) => out.display(&number),
            Err(kind) => out.error(&kind),
        }
        out.add(";");
        out.display(&self.key_size());
        out.add(")");
    }
}

impl Show for ECPoint<'_> {
    fn show(&self, out: &mut Answer) {
        out.add("ec(");
        out.display(&self.key_size());
        out.add(";");
        out.hex(self.bytes());
        out.add(")");
    }
}

impl Show for PublicKey<'_> {
    fn show(&self, out: &mut Answer) {
        out.display(&self.key_size());
        out.add(",");
        match self {
            PublicKey::RSA(key) => {
                out.add("RSA,");
                key.show(out);
            }
            PublicKey::EC(point) => {
                out.add("EC,");
                point.show(out);
            }
            PublicKey::DSA(bytes) => {
                out.add("DSA,");
                out.hex(bytes);
            }
            PublicKey::GostR3410(bytes) => {
                out.add("GostR3410,");
                out.hex(bytes);
            }
            PublicKey::GostR3410_2012(bytes) => {
                out.add("GostR3410_2012,");
                out.hex(bytes);
            }
            PublicKey::Unknown(bytes) => {
                out.add("Unknown,");
                out.hex(bytes);
            }
        }
    }
}

impl Show for EcdsaSigValue<'_> {
    fn show(&self, out: &mut Answer) {
        out.add("ecdsa(");
        self.r.show(out);
        out.add(";");
        self.s.show(out);
        out.add(")");
    }
}

// The two identifiers of a mask generator.
fn put_mask(out: &mut Answer, mask: Result<MaskGenAlgorithm<'_, '_>, X509Error>) {
    match mask {
        Ok(mask) => {
            out.hex(mask.mgf.as_bytes());
            out.add(",");
            out.hex(mask.hash.as_bytes());
        }
        Err(kind) => out.error(&kind),
    }
}

impl Show for RsaSsaPssParams<'_> {
    fn show(&self, out: &mut Answer) {
        out.add("pss(");
        self.hash_algorithm().show(out);
        out.add(";");
        out.hex(self.hash_algorithm_oid().as_bytes());
        out.add(";");
        self.mask_gen_algorithm_raw().show(out);
        out.add(";");
        put_mask(out, self.mask_gen_algorithm());
        let (salt, trailer) = (self.salt_length(), self.trailer_field());
        out.add(";");
        out.display(&salt);
        out.add(";");
        out.display(&trailer);
        out.add(")");
    }
}

impl Show for RsaAesOaepParams<'_> {
    fn show(&self, out: &mut Answer) {
        out.add("oaep(");
        self.hash_algorithm().show(out);
        out.add(";");
        out.hex(self.hash_algorithm_oid().as_bytes());
        out.add(";");
        self.mask_gen_algorithm_raw().show(out);
        out.add(";");
        put_mask(out, self.mask_gen_algorithm());
        out.add(";");
        self.p_source_alg().show(out);
        out.add(")");
    }
}

impl Show for SignatureAlgorithm<'_> {
    fn show(&self, out: &mut Answer) {
        match self {
            SignatureAlgorithm::RSA => out.add("RSA"),
            SignatureAlgorithm::RSASSA_PSS(parameters) => {
                out.add("RSASSA_PSS,");
                parameters.show(out);
            }
            SignatureAlgorithm::RSAAES_OAEP(parameters) => {
                out.add("RSAAES_OAEP,");
                parameters.show(out);
            }
            SignatureAlgorithm::DSA => out.add("DSA"),
            SignatureAlgorithm::ECDSA => out.add("ECDSA"),
            SignatureAlgorithm::ED25519 => out.add("ED25519"),
        }
    }
}
