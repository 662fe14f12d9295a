//! Values under a key.

ghost use Rattle.std.specs.Prelude.{IfSome, option_map};
ghost use Rattle.json.specs.Json as json;
ghost use Rattle.json.specs.Token.{key, string};
ghost use Rattle.x509_report_lines.specs.Says.{Says, SaysUnder, optional, count};
ghost use Rattle.x509_report_objects.specs.Octets.{fingerprint, hex};

use sha2::{Digest, Sha256};
use std::fmt;
use x509_report_lines::Line;

/// A text under a key.
pub fn text_under(out: &mut Line, name: &str, text: &str)
    ensures { SaysUnder out.old out.new name.now (json.string text.now) }
{
    out.key(name);
    out.string(text);
}

/// A number under a key.
pub fn count_under(out: &mut Line, name: &str, n: u64)
    ensures { SaysUnder out.old out.new name.now (count n) }
{
    out.key(name);
    out.u64(n);
}

/// Whether something holds, under a key.
pub fn truth_under(out: &mut Line, name: &str, b: bool)
    ensures { SaysUnder out.old out.new name.now (json.boolean b) }
{
    out.key(name);
    out.boolean(b);
}

/// A number that may be absent, under a key.
pub fn optional_count_under(out: &mut Line, name: &str, n: Option<u32>)
    ensures { SaysUnder out.old out.new name.now (optional count n) }
{
    out.key(name);
    match n {
        Some(n) => out.u64(u64::from(n)),
        None => out.null(),
    }
}

/// What a value shows, under a key.
pub fn shown_under<T: fmt::Display>(out: &mut Line, name: &str, value: &T)
    ensures { IfSome (T.output value.now) (λ shown. SaysUnder out.old out.new name.now (json.string shown)) }
{
    match format!(in out.alloc(); "{value}") {
        Ok(text) => text_under(out, name, &text),
        Err(_) => out.stop(),
    }
}

/// Octets in hex.
pub fn say_hex(out: &mut Line, octets: &[u8])
    ensures { Says out.old out.new (hex octets.now) }
{
    match hex::encode(out.alloc(), octets) {
        Ok(text) => out.string(&text),
        Err(_) => out.stop(),
    }
}

/// Octets in hex, under a key.
pub fn hex_under(out: &mut Line, name: &str, octets: &[u8])
    ensures { SaysUnder out.old out.new name.now (hex octets.now) }
{
    out.key(name);
    say_hex(out, octets);
}

/// A text that may be absent, under a key.
pub fn optional_text_under(out: &mut Line, name: &str, text: Option<&str>)
    ensures { SaysUnder out.old out.new name.now (optional json.string (option_map (λ s. s.now) text.entry)) }
{
    out.key(name);
    match text {
        Some(text) => out.string(text),
        None => out.null(),
    }
}

/// Octets that may be absent, in hex, under a key.
pub fn optional_hex_under(out: &mut Line, name: &str, octets: Option<&[u8]>)
    ensures { SaysUnder out.old out.new name.now (optional hex (option_map (λ s. s.now) octets.entry)) }
{
    match octets {
        Some(octets) => hex_under(out, name, octets),
        None => {
            out.key(name);
            out.null();
        }
    }
}

/// What isn't there, under a key.
pub fn null_under(out: &mut Line, name: &str)
    ensures { SaysUnder out.old out.new name.now json.null }
{
    out.key(name);
    out.null();
}

/// The SHA-256 of octets where fingerprints are wanted, under a key.
pub fn fingerprint_under(out: &mut Line, name: &str, wanted: bool, octets: &[u8])
    ensures { SaysUnder out.old out.new name.now (fingerprint wanted octets.now) }
{
    if wanted {
        let digest = Sha256::digest(octets);
        hex_under(out, name, &digest)
    } else {
        null_under(out, name)
    }
}

/// A size that may be absent, under a key.
pub fn optional_size_under(out: &mut Line, name: &str, n: Option<usize>)
    ensures { SaysUnder out.old out.new name.now (optional count n) }
{
    out.key(name);
    match n {
        Some(n) => out.u64(n as u64),
        None => out.null(),
    }
}
