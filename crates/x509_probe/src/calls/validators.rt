//! What validators say.

use crate::calls::recorder::Recorder;
use std::alloc::Global;
use std::io;
use std::io::{ErrorKind, Write};
use x509_certs::{TbsCertificate, Validity, X509Certificate};
use x509_der::{Err, FromDer};
use x509_extensions::X509Extension;
use x509_fields::{ASN1Time, X509Error};
use x509_keys::SubjectPublicKeyInfo;
use x509_names::X509Name;
use x509_probe_answers::{Answer, Tells, look_at, look_in, put_result};
use x509_requests::ExtensionRequest;
use x509_validators::{
    StderrLogger, TbsCertificateStructureValidator, Validate, Validator, X509CertificateValidator,
    X509ExtensionsValidator, X509NameStructureValidator, X509PublicKeyValidator,
    X509StructureValidator, chain, validate_to_vec,
};

// All texts, each behind a letter.
fn put_texts(out: &mut Answer, letter: &str, texts: &[String]) {
    for text in texts {
        out.add(letter);
        out.hex(text.as_bytes());
    }
}

/// The answer, the warnings and the errors.
type Report = (bool, Vec<String>, Vec<String>);

// What was found, or that there was no memory for it, the only refusal.
fn put_report<E: Drop>(out: &mut Answer, found: Result<Report, E>) {
    match found {
        Ok((sound, warnings, errors)) => {
            out.truth(sound);
            put_texts(out, " w", &warnings);
            put_texts(out, " e", &errors);
        }
        Err(_) => out.stop(),
    }
}

// The answer, and the messages in order; neither where there was no memory for a message.
fn put_run(out: &mut Answer, outcome: Result<bool, X509Error>, messages: &Answer) {
    if messages.is_stopped() {
        out.stop();
    }
    put_result(out, outcome);
    out.append(messages);
}

// In order, up to the message that is refused; and by level.
fn run<'a, V: Validator<'a>>(out: &mut Answer, validator: &V, item: &V::Item, refused: u32) {
    let alloc = out.alloc();
    let mut logger = Recorder::new(alloc, refused);
    let outcome = validator.validate(alloc, item, &mut logger);
    put_run(out, outcome, logger.log());
    out.add("|");
    put_report(out, validate_to_vec(alloc, validator, item));
}

// By closures, one for each level, up to the warning or the error that is refused.
fn put_closures<T: Validate>(out: &mut Answer, value: &T, warning: u32, error: u32) {
    let alloc = out.alloc();
    let mut warnings = Recorder::new(alloc, warning);
    let mut errors = Recorder::new(alloc, error);
    let outcome = value.validate(
        alloc,
        |text| warnings.keep(" w", text),
        |text| errors.keep(" e", text),
    );
    put_run(out, outcome, warnings.log());
    out.append(errors.log());
}

// By level, and by closures.
fn by_closures<T: Validate>(out: &mut Answer, value: &T) {
    out.add("|");
    put_report(out, value.validate_to_vec(out.alloc()));
    out.add("|");
    put_closures(out, value, 0, 0);
}

/// A writer that keeps what it takes, in hex, up to the line that it refuses; 0 for none. A logger says of a write that fails `Generic`;
/// that there was no memory for it, what was kept tells.
#[derive(Drop)]
struct InHex {
    kept: Answer,
    lines: u32,
    refused: u32,
}

impl Write for InHex {
    fn write(&mut self, buf: &[u8]) -> io::Result<usize> {
        if buf.starts_with(b"[") {
            self.lines = self.lines.wrapping_add(1);
        }
        if self.refused != 0 && self.lines == self.refused {
            return Err(io::Error::from(ErrorKind::StorageFull));
        }
        self.kept.hex(buf);
        self.kept.finish()?;
        Ok(buf.len())
    }

    fn flush(&mut self) -> io::Result<()> {
        Ok(())
    }
}

// As lines of a writer, up to the line that it refuses.
fn put_lines(certificate: &X509Certificate<'_>, refused: u32, out: &mut Answer) {
    let alloc = out.alloc();
    let mut lines = InHex {
        kept: Answer::new(alloc),
        lines: 0,
        refused,
    };
    lines.kept.add(" ");
    let mut logger = StderrLogger::new(&mut lines);
    let outcome = X509StructureValidator.validate(alloc, certificate, &mut logger);
    drop(logger);
    put_run(out, outcome, &lines.kept);
}

/// A writer that takes nothing.
#[derive(Drop)]
struct Full;

impl Write for Full {
    fn write(&mut self, _buf: &[u8]) -> io::Result<usize> {
        Err(io::Error::from(ErrorKind::StorageFull))
    }

    fn flush(&mut self) -> io::Result<()> {
        Ok(())
    }
}

// As lines of a writer that takes nothing.
fn put_untaken(certificate: &X509Certificate<'_>, out: &mut Answer) {
    let mut logger = StderrLogger::new(Full);
    let outcome = X509StructureValidator.validate(out.alloc(), certificate, &mut logger);
    put_result(out, outcome);
}

// By closures, up to the warning that is refused.
fn put_stopped(certificate: &X509Certificate<'_>, refused: u32, out: &mut Answer) {
    let alloc = out.alloc();
    let mut warnings = Recorder::new(alloc, refused);
    let outcome = certificate.validate(alloc, |text| warnings.keep(" w", text), |_| Ok(()));
    put_run(out, outcome, warnings.log());
}

// What a validator of lists says, by level.
fn put_report_by<'a, T, V: Validator<'a, Item = &'a [T]>>(
    out: &mut Answer,
    validator: &V,
    members: &'a [T],
) {
    put_report(out, validate_to_vec(out.alloc(), validator, &members));
}

// What a validator of lists tells a logger.
fn log_by<'a, T, V: Validator<'a, Item = &'a [T]>>(
    alloc: Global,
    validator: &V,
    members: &'a [T],
    logger: &mut Recorder,
) -> Result<bool, X509Error> {
    validator.validate(alloc, &members, logger)
}

// The extensions are never let go.
fn put_extensions<'e>(out: &mut Answer, extensions: Vec<X509Extension<'e>>, refused: u32) {
    let alloc = out.alloc();
    let members: &'e [X509Extension<'e>] = extensions.leak();
    let mut logger = Recorder::new(alloc, refused);
    let outcome = log_by(alloc, &X509ExtensionsValidator, members, &mut logger);
    put_run(out, outcome, logger.log());
    out.add("|");
    put_report_by(out, &X509ExtensionsValidator, members);
}

// By a validator in a chain with itself.
fn put_twice<'e>(out: &mut Answer, extensions: Vec<X509Extension<'e>>) {
    let members: &'e [X509Extension<'e>] = extensions.leak();
    let both = chain(X509ExtensionsValidator, X509ExtensionsValidator);
    put_report_by(out, &both, members);
}

// The number of the message that is refused; 0 for none.
fn number(bytes: &[u8]) -> u32 {
    match bytes {
        [number] => u32::from(*number),
        _ => 0,
    }
}

// What is said of extensions.
fn extensions(out: &mut Answer, a: &[u8], refused: u32) {
    match ExtensionRequest::from_der(out.alloc(), a) {
        Ok((_, value)) => put_extensions(out, value.extensions.into_vec(), refused),
        Err(refusal) => out.refused(&refusal),
    }
}

// What is said of extensions twice.
fn extensions_twice(out: &mut Answer, a: &[u8]) {
    match ExtensionRequest::from_der(out.alloc(), a) {
        Ok((_, value)) => put_twice(out, value.extensions.into_vec()),
        Err(refusal) => out.refused(&refusal),
    }
}

// The time in the other form.
fn in_other_form(time: &ASN1Time) -> ASN1Time {
    if time.is_utctime() {
        ASN1Time::new_generalized(time.to_datetime())
    } else {
        ASN1Time::new_utc(time.to_datetime())
    }
}

// A signed part that was read, with its times in the other form, in which some can't be written.
fn in_other_forms<'a>(
    read: Result<(&'a [u8], TbsCertificate<'a>), Err<X509Error>>,
) -> Result<(&'a [u8], TbsCertificate<'a>), Err<X509Error>> {
    match read {
        Ok((rest, read)) => {
            let mut tbs = read;
            tbs.validity = Validity {
                not_before: in_other_form(&tbs.validity.not_before),
                not_after: in_other_form(&tbs.validity.not_after),
            };
            Ok((rest, tbs))
        }
        Err(refusal) => Err(refusal),
    }
}

/// What is said of a structure, up to the message of this number.
#[derive(Clone, Copy)]
struct Structure(u32);

impl Tells<Structure> for X509Name<'_> {
    fn tell(&self, asked: &Structure, out: &mut Answer) {
        run(out, &X509NameStructureValidator, self, asked.0);
    }
}

impl Tells<Structure> for SubjectPublicKeyInfo<'_> {
    fn tell(&self, asked: &Structure, out: &mut Answer) {
        run(out, &X509PublicKeyValidator, self, asked.0);
    }
}

impl Tells<Structure> for TbsCertificate<'_> {
    fn tell(&self, asked: &Structure, out: &mut Answer) {
        run(out, &TbsCertificateStructureValidator, self, asked.0);
    }
}

/// The same, and by closures.
#[derive(Clone, Copy)]
struct Signed(u32);

impl Tells<Signed> for TbsCertificate<'_> {
    fn tell(&self, asked: &Signed, out: &mut Answer) {
        run(out, &TbsCertificateStructureValidator, self, asked.0);
        by_closures(out, self);
    }
}

// Its extensions, its structure, and by closures.
fn put_certificate(certificate: &X509Certificate<'_>, refused: u32, out: &mut Answer) {
    run(out, &X509CertificateValidator, certificate, refused);
    out.add("|");
    run(out, &X509StructureValidator, certificate, refused);
    by_closures(out, certificate);
}

// By two validators in a chain, and by three.
fn put_chained(certificate: &X509Certificate<'_>, refused: u32, out: &mut Answer) {
    let both = chain(X509StructureValidator, X509CertificateValidator);
    run(out, &both, certificate, refused);
    out.add("|");
    let three = chain(X509CertificateValidator, both);
    run(out, &three, certificate, refused);
}

/// What a word asks of a certificate.
#[derive(Clone, Copy)]
struct Asked<'w> {
    word: &'w str,
    refused: u32,
}

impl Tells<Asked<'_>> for X509Certificate<'_> {
    fn tell(&self, asked: &Asked<'_>, out: &mut Answer) {
        match asked.word {
            "check_certificate" => put_certificate(self, asked.refused, out),
            "check_chain" => put_chained(self, asked.refused, out),
            "check_closures" => put_stopped(self, asked.refused, out),
            "check_closed_errors" => put_closures(out, self, 0, asked.refused),
            "check_untaken_lines" => put_untaken(self, out),
            _ => put_lines(self, asked.refused, out),
        }
    }
}

/// Adds what a validator says; false where the word names none.
pub fn answer(word: &str, a: &[u8], b: &[u8], out: &mut Answer) -> bool {
    let refused = number(b);
    let structure = Structure(refused);
    match word {
        "check_name" => look_in::<X509Name, _>(out, &structure, a),
        "check_key" => look_in::<SubjectPublicKeyInfo, _>(out, &structure, a),
        "check_extensions" => extensions(out, a, refused),
        "check_tbs" => look_in::<TbsCertificate, _>(out, &Signed(refused), a),
        "check_extensions_twice" => extensions_twice(out, a),
        "check_other_forms" => {
            let read = in_other_forms(TbsCertificate::from_der(out.alloc(), a));
            look_at(out, &structure, read);
        }
        "check_certificate"
        | "check_chain"
        | "check_lines"
        | "check_closures"
        | "check_closed_errors"
        | "check_untaken_lines" => {
            look_in::<X509Certificate, _>(out, &Asked { word, refused }, a);
        }
        _ => return false,
    }
    true
}
