//! The lenient rules that an object uses, and what strict readers tell of them.

use x509_certs::parse_x509_certificate_marked;
use x509_der::Err;
use x509_elements::{
    LenientUse, Part, StrictRefusal, leniencies, parse_x509_certificate_strict_located,
    parse_x509_crl_entries_strict_located, parse_x509_crl_strict_located,
    parse_x509_csr_strict_located, path_to,
};
use x509_fields::X509Error;
use x509_lists::parse_x509_crl_marked;
use x509_probe_answers::{Answer, Show};
use x509_requests::parse_x509_csr_marked;

// Whether a strict reader takes what a reader takes.
fn put_mark<T: Drop>(read: Result<(&[u8], T, bool), Err<X509Error>>, out: &mut Answer) {
    match read {
        Ok((_, _value, true)) => out.add("plain "),
        Ok((_, _value, false)) => out.add("lenient "),
        Err(refusal) if refusal.is_out_of_memory() => out.stop(),
        Err(_) => out.add("refused "),
    }
}

// The octet of a rule, its name, and the path of fields that leads there.
fn put_use(object: Part, a: &[u8], used: &LenientUse, out: &mut Answer) {
    match path_to(out.alloc(), object, a, used.at) {
        Ok(path) => {
            out.display(&used.at);
            out.add(" ");
            out.add(used.rule.word());
            out.add(" ");
            out.add(path.as_str());
            out.add("|");
        }
        Err(_) => out.stop(),
    }
}

// Each rule, in order, with a bar behind it.
fn put_uses(object: Part, a: &[u8], out: &mut Answer) {
    match leniencies(out.alloc(), object, a) {
        Ok(uses) => {
            out.add("|");
            for used in &uses {
                put_use(object, a, used, out);
            }
        }
        Err(_) => out.stop(),
    }
}

// What a strict reader takes: the length of the rest, and the value; or why it refuses, the octet, and the rule.
fn put_strict<T: Show>(read: Result<(&[u8], T), StrictRefusal>, out: &mut Answer) {
    match read {
        Ok((rest, value)) => {
            out.add("ok rest=");
            out.display(&rest.len());
            out.add(" ");
            value.show(out);
        }
        Err(refusal) if refusal.why.is_out_of_memory() => out.stop(),
        Err(refusal) => {
            out.display(&refusal);
            out.add(" ");
            out.refusal(&refusal.why);
        }
    }
}

/// Adds whether an object stands plainly, and the lenient rules that it uses, or what a strict reader says; false where the word names none.
pub fn answer(word: &str, a: &[u8], out: &mut Answer) -> bool {
    let alloc = out.alloc();
    match word {
        "certificate_leniencies" => {
            put_mark(parse_x509_certificate_marked(alloc, a), out);
            put_uses(Part::Certificate, a, out);
        }
        "list_leniencies" => {
            put_mark(parse_x509_crl_marked(alloc, a), out);
            put_uses(Part::List, a, out);
        }
        "request_leniencies" => {
            put_mark(parse_x509_csr_marked(alloc, a), out);
            put_uses(Part::Request, a, out);
        }
        "certificate_strictly" => put_strict(parse_x509_certificate_strict_located(alloc, a), out),
        "list_strictly" => put_strict(parse_x509_crl_strict_located(alloc, a), out),
        "list_entries_strictly" => put_strict(parse_x509_crl_entries_strict_located(alloc, a), out),
        "request_strictly" => put_strict(parse_x509_csr_strict_located(alloc, a), out),
        _ => return false,
    }
    true
}
