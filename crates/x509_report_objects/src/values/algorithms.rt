//! What reports say of algorithms and of bits.

ghost use Rattle.x509_der.specs.Primitives.{Bits, bit_string};
ghost use Rattle.x509_der.specs.Reading.{Element, element_of};
ghost use Rattle.x509_fields.specs.Algorithm.{Algorithm, algorithm_of};
ghost use Rattle.x509_report_objects.specs.Algorithms.{algorithm_report, bits_report, parameters_report};

use crate::values::identifiers::oid_members;
use crate::values::said::{Said, optional_under};
use crate::values::under::{count_under, hex_under, null_under, text_under};
use x509_der::{Any, BitString};
use x509_fields::AlgorithmIdentifier;
use x509_keys::signature_hash;
use x509_report_lines::Line;

impl Said for BitString<'_> {
    ghost Value = { Bits };

    ghost view = { bit_string };

    ghost report = { bits_report };

    #[tactic(auto, unfolding(crate::specs::Algorithms::bits_report))]
    fn say(&self, out: &mut Line) {
        out.begin_object();
        hex_under(out, "hex", self.bytes);
        count_under(out, "unused_bits", u64::from(self.unused_bits));
        out.end_object();
    }
}

impl Said for Any<'_> {
    ghost Value = { Element };

    ghost view = { element_of };

    ghost report = { parameters_report };

    #[tactic(auto, unfolding(crate::specs::Algorithms::parameters_report))]
    fn say(&self, out: &mut Line) {
        out.begin_object();
        count_under(out, "tag", u64::from(self.tag().0));
        hex_under(out, "hex", self.as_bytes());
        out.end_object();
    }
}

impl Said for AlgorithmIdentifier<'_> {
    ghost Value = { Algorithm };

    ghost view = { algorithm_of };

    ghost report = { algorithm_report };

    #[tactic(auto, unfolding(crate::specs::Algorithms::algorithm_report))]
    fn say(&self, out: &mut Line) {
        out.begin_object();
        oid_members(out, &self.algorithm);
        match signature_hash(self) {
            Some(hash) => text_under(out, "hash", hash.word()),
            None => null_under(out, "hash"),
        }
        optional_under(out, "parameters", &self.parameters);
        out.end_object();
    }
}
