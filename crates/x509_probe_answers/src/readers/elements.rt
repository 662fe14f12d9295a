//! The readers of one element.

use crate::readers::outcome::put_outcome;
use crate::show::{Answer, Octets, Show, Text};
use x509_der::{
    BerError, Children, Err, Stop, Tries, read_any, read_any_loose, read_bits, read_bool,
    read_bool_loose, read_enumerated, read_explicit, read_header, read_header_loose, read_ia5,
    read_implicit, read_implicit_bits, read_integer, read_octets, read_oid, read_sequence,
    read_set, read_u32, read_unsigned, read_utf8,
};

// Bytes that were read, to be shown.
fn octets<'a>(
    read: Result<(&'a [u8], &'a [u8]), Err<BerError>>,
) -> Result<(&'a [u8], Octets<'a>), Err<BerError>> {
    match read {
        Ok((rest, bytes)) => Ok((rest, Octets(bytes))),
        Err(refusal) => Err(refusal),
    }
}

// A text that was read, to be shown.
fn text<'a>(
    read: Result<(&'a [u8], &'a str), Err<BerError>>,
) -> Result<(&'a [u8], Text<'a>), Err<BerError>> {
    match read {
        Ok((rest, text)) => Ok((rest, Text(text))),
        Err(refusal) => Err(refusal),
    }
}

// What stands in an element of a certain tag.
fn tagged(word: &str, i: &[u8], out: &mut Answer) -> bool {
    let mut tries = Tries::new();
    let t = &mut tries;
    let read = match word {
        "read_explicit0" => octets(read_explicit(t, 0, i)),
        "read_explicit1" => octets(read_explicit(t, 1, i)),
        "read_explicit2" => octets(read_explicit(t, 2, i)),
        "read_explicit3" => octets(read_explicit(t, 3, i)),
        "read_implicit0" => octets(read_implicit(t, 0, i)),
        "read_implicit1" => octets(read_implicit(t, 1, i)),
        "read_implicit2" => octets(read_implicit(t, 2, i)),
        "read_implicit3" => octets(read_implicit(t, 3, i)),
        "read_sequence" => octets(read_sequence(t, i)),
        "read_set" => octets(read_set(t, i)),
        "read_octets" => octets(read_octets(t, i)),
        _ => return false,
    };
    put_outcome(out, i, &tries, read);
    true
}

// Texts.
fn texts(word: &str, i: &[u8], out: &mut Answer) -> bool {
    let mut tries = Tries::new();
    let t = &mut tries;
    let read = match word {
        "read_utf8" => text(read_utf8(t, i)),
        "read_ia5" => text(read_ia5(t, i)),
        _ => return false,
    };
    put_outcome(out, i, &tries, read);
    true
}

// Numbers of 32 bits.
fn numbers(word: &str, i: &[u8], out: &mut Answer) -> bool {
    let mut tries = Tries::new();
    let t = &mut tries;
    let read = match word {
        "read_u32" => read_u32(t, i),
        "read_enumerated" => read_enumerated(t, i),
        _ => return false,
    };
    put_outcome(out, i, &tries, read);
    true
}

// Truth values.
fn truths(word: &str, i: &[u8], out: &mut Answer) -> bool {
    let mut tries = Tries::new();
    let t = &mut tries;
    let read = match word {
        "read_bool" => read_bool(t, i),
        "read_bool_loose" => read_bool_loose(t, i),
        _ => return false,
    };
    put_outcome(out, i, &tries, read);
    true
}

// Headers and whole elements.
fn elements(word: &str, i: &[u8], out: &mut Answer) -> bool {
    let mut tries = Tries::new();
    let t = &mut tries;
    match word {
        "read_header" => {
            let read = read_header(t, i);
            put_outcome(out, i, &tries, read);
        }
        "read_header_loose" => {
            let read = read_header_loose(t, i);
            put_outcome(out, i, &tries, read);
        }
        "read_any" => {
            let read = read_any(t, i);
            put_outcome(out, i, &tries, read);
        }
        "read_any_loose" => {
            let read = read_any_loose(t, i);
            put_outcome(out, i, &tries, read);
        }
        _ => return false,
    }
    true
}

// Numbers of any size, bits and identifiers.
fn others(word: &str, i: &[u8], out: &mut Answer) -> bool {
    let mut tries = Tries::new();
    let t = &mut tries;
    match word {
        "read_unsigned" => {
            let read = read_unsigned(t, i);
            put_outcome(out, i, &tries, read);
        }
        "read_integer" => {
            let read = read_integer(t, i);
            put_outcome(out, i, &tries, read);
        }
        "read_bits" => {
            let read = read_bits(t, i);
            put_outcome(out, i, &tries, read);
        }
        "read_implicit_bits1" => {
            let read = read_implicit_bits(t, 1, i);
            put_outcome(out, i, &tries, read);
        }
        "read_oid" => {
            let read = read_oid(t, i);
            put_outcome(out, i, &tries, read);
        }
        _ => return false,
    }
    true
}

// The elements of a window, what is left of it, and why no more were cut.
fn put_children(i: &[u8], out: &mut Answer) {
    let mut tries = Tries::new();
    let children = Children::cut(&mut tries, i);
    out.display(&children.count());
    for k in 0..14_usize {
        if let Some(child) = children.get(k) {
            out.add("{");
            child.header.show(out);
            out.add(if child.strict { ";strict;" } else { ";loose;" });
            out.hex(child.whole);
            out.add(";");
            out.hex(child.bytes);
            out.add("}");
        }
    }
    out.add("|");
    out.hex(children.tail());
    out.add("|");
    match children.stop() {
        Stop::Nothing => out.add("nothing"),
        Stop::Full => out.add("full"),
        Stop::Short {
            header,
            strict,
            bytes,
        } => {
            out.add(if strict {
                "short strict "
            } else {
                "short loose "
            });
            header.show(out);
            out.add(" ");
            out.hex(bytes);
        }
        Stop::Bad(kind) => {
            out.add("bad ");
            out.debug(&kind);
        }
    }
    out.add("|");
    out.display(&tries.count());
}

// The elements of a window.
fn cut(word: &str, i: &[u8], out: &mut Answer) -> bool {
    if word != "children" {
        return false;
    }
    put_children(i, out);
    true
}

/// Adds the answer of a reader of one element; false where the word names none.
pub fn answer(word: &str, i: &[u8], out: &mut Answer) -> bool {
    elements(word, i, out)
        || tagged(word, i, out)
        || texts(word, i, out)
        || numbers(word, i, out)
        || truths(word, i, out)
        || others(word, i, out)
        || cut(word, i, out)
}
