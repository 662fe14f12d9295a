//! The parsers at both depths, strict and not, and the calls of the facade.

use crate::readers::outcome::{put_located, put_marked, put_outcome, put_uncounted, put_whole};
use crate::show::Answer;
use x509_certs::{
    TbsCertificateParser, X509CertificateParser, parse_x509_certificate_located,
    parse_x509_certificate_strict,
};
use x509_der::{Reader, Tries};
use x509_extensions::X509ExtensionParser;
use x509_lists::{
    parse_crl_der, parse_x509_crl, parse_x509_crl_entries, parse_x509_crl_entries_located,
    parse_x509_crl_entries_strict, parse_x509_crl_located, parse_x509_crl_strict,
};
use x509_requests::{parse_x509_csr_located, parse_x509_csr_strict};

// A signed part by a parser, where the parser takes it.
fn tbs(parser: TbsCertificateParser, i: &[u8], out: &mut Answer) {
    let mut tries = Tries::new();
    let read = parser.read(out.alloc(), &mut tries, i);
    put_outcome(out, i, &tries, read);
}

// A signed part by a parser, with its mark.
fn marked_tbs(parser: TbsCertificateParser, i: &[u8], out: &mut Answer) {
    let mut tries = Tries::new();
    let read = parser.read_marked(out.alloc(), &mut tries, i);
    put_marked(out, i, &tries, read);
}

// A certificate by a parser, where the parser takes it.
fn certificate(parser: X509CertificateParser, i: &[u8], out: &mut Answer) {
    let mut tries = Tries::new();
    let read = parser.read(out.alloc(), &mut tries, i);
    put_outcome(out, i, &tries, read);
}

// A certificate by a parser, with its mark.
fn marked_certificate(parser: X509CertificateParser, i: &[u8], out: &mut Answer) {
    let mut tries = Tries::new();
    let read = parser.read_marked(out.alloc(), &mut tries, i);
    put_marked(out, i, &tries, read);
}

// An extension without what its value says.
fn shallow_extension(i: &[u8], out: &mut Answer) {
    let parser = X509ExtensionParser::new().with_deep_parse_extensions(false);
    let mut tries = Tries::new();
    let read = parser.read_marked(out.alloc(), &mut tries, i);
    put_marked(out, i, &tries, read);
}

// Extensions to the end, in the wrapper of a certificate, without what their values say.
fn shallow_wrapped(i: &[u8], out: &mut Answer) {
    let parser = X509ExtensionParser::new().with_deep_parse_extensions(false);
    let mut tries = Tries::new();
    let read = parser.read_wrapped(out.alloc(), &mut tries, 3, i);
    put_whole(out, i, &tries, read);
}

// What parsers of signed parts answer; a strict one refuses nothing where it marks.
fn tbs_parsers(word: &str, i: &[u8], out: &mut Answer) -> bool {
    let parser = TbsCertificateParser::new();
    let shallow = parser.with_deep_parse_extensions(false);
    match word {
        "tbs_shallow" => marked_tbs(shallow, i, out),
        "tbs_strict" => tbs(parser.with_strict(true), i, out),
        "tbs_strict_marked" => marked_tbs(parser.with_strict(true), i, out),
        "tbs_strict_shallow" => tbs(shallow.with_strict(true), i, out),
        _ => return false,
    }
    true
}

// The same of certificates.
fn certificate_parsers(word: &str, i: &[u8], out: &mut Answer) -> bool {
    let parser = X509CertificateParser::new();
    let strict = parser.with_strict(true);
    match word {
        "certificate_shallow" => {
            marked_certificate(parser.with_deep_parse_extensions(false), i, out);
        }
        "certificate_strict" => certificate(strict, i, out),
        "certificate_strict_marked" => marked_certificate(strict, i, out),
        "certificate_strict_shallow" => {
            certificate(strict.with_deep_parse_extensions(false), i, out);
        }
        _ => return false,
    }
    true
}

// What parsers of extensions answer, those of `default`, and the calls of the facade.
fn calls(word: &str, i: &[u8], out: &mut Answer) -> bool {
    let alloc = out.alloc();
    match word {
        "extension_shallow" => shallow_extension(i, out),
        "wrapped_extensions_shallow" => shallow_wrapped(i, out),
        "extension_default" => {
            put_uncounted(out, i, X509ExtensionParser::default().parse(alloc, i));
        }
        "tbs_default" => put_uncounted(out, i, TbsCertificateParser::default().parse(alloc, i)),
        "certificate_default" => {
            put_uncounted(out, i, X509CertificateParser::default().parse(alloc, i));
        }
        "parse_certificate_strict" => {
            put_uncounted(out, i, parse_x509_certificate_strict(alloc, i));
        }
        _ => return list_calls(word, i, out),
    }
    true
}

// The calls of the facade for lists and requests.
fn list_calls(word: &str, i: &[u8], out: &mut Answer) -> bool {
    let alloc = out.alloc();
    match word {
        "parse_crl" => put_uncounted(out, i, parse_x509_crl(alloc, i)),
        "parse_crl_entries" => put_uncounted(out, i, parse_x509_crl_entries(alloc, i)),
        "parse_crl_strict_entries" => {
            put_uncounted(out, i, parse_x509_crl_entries_strict(alloc, i));
        }
        "parse_crl_der" => put_uncounted(out, i, parse_crl_der(alloc, i)),
        "parse_crl_strict" => put_uncounted(out, i, parse_x509_crl_strict(alloc, i)),
        "parse_csr_strict" => put_uncounted(out, i, parse_x509_csr_strict(alloc, i)),
        _ => return false,
    }
    true
}

// The same of parsers and calls that tell the place of a refusal.
fn places(word: &str, i: &[u8], out: &mut Answer) -> bool {
    let alloc = out.alloc();
    let parser = X509CertificateParser::new();
    let shallow = parser.with_deep_parse_extensions(false);
    let tbs = TbsCertificateParser::new();
    let extension = X509ExtensionParser::new();
    match word {
        "where_certificate_shallow" => put_located(out, i, shallow.parse_located(alloc, i)),
        "where_certificate_strict" => {
            put_located(out, i, parser.with_strict(true).parse_located(alloc, i));
        }
        "where_tbs_shallow" => {
            let shallow = tbs.with_deep_parse_extensions(false);
            put_located(out, i, shallow.parse_located(alloc, i));
        }
        "where_tbs_strict" => put_located(out, i, tbs.with_strict(true).parse_located(alloc, i)),
        "where_extension_shallow" => {
            let shallow = extension.with_deep_parse_extensions(false);
            put_located(out, i, shallow.parse_located(alloc, i));
        }
        "where_parse_certificate" => {
            put_located(out, i, parse_x509_certificate_located(alloc, i));
        }
        _ => return list_places(word, i, out),
    }
    true
}

// The same of calls for lists and requests.
fn list_places(word: &str, i: &[u8], out: &mut Answer) -> bool {
    let alloc = out.alloc();
    match word {
        "where_parse_crl" => put_located(out, i, parse_x509_crl_located(alloc, i)),
        "where_parse_crl_entries" => {
            put_located(out, i, parse_x509_crl_entries_located(alloc, i));
        }
        "where_parse_csr" => put_located(out, i, parse_x509_csr_located(alloc, i)),
        _ => return false,
    }
    true
}

/// Adds the answer of a parser or a call; false where the word names none.
pub fn answer(word: &str, i: &[u8], out: &mut Answer) -> bool {
    tbs_parsers(word, i, out)
        || certificate_parsers(word, i, out)
        || calls(word, i, out)
        || places(word, i, out)
}
