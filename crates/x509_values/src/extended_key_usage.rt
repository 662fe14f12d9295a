//! What a key may be used for, by identifiers.

ghost use Rattle.std.specs.Prelude.{◌≡◌, ℕ, List, [], ◌∷◌, ◌++◌, ◌+◌, ◌-◌, OnOk, MatchOption, MatchResult, map, false, true};
ghost use Rattle.std.specs.Prelude.{if◌then◌else◌};
ghost use Rattle.x509_der.specs.Grammar.{allocates, in_primitive, in_sequence};
ghost use Rattle.x509_der.specs.Oid.{oid_bytes};
ghost use Rattle.x509_der.specs.Plan.{marks_of_members};
ghost use Rattle.x509_der.specs.Promises.{ReadsPart, is_excused};
ghost use Rattle.x509_fields.specs.Errors.{is_x509_memory};
ghost use Rattle.x509_values.specs.ExtendedKeyUsage.{AreBehindFirst, Usages, named_purposes, octets_of, holds, usages_in, usages_of, usages_heads};
ghost use Rattle.x509_values.specs.ExtendedKeyUsage.{key_purpose_of, key_purpose, key_purpose_laws, said_at, extended_key_usage, extended_key_usage_laws};

use std::alloc::Global;
use std::collections::BTreeSet;
use x509_der::{BerError, Err, ErrorKind, FromDer, Oid, Outside, Place, Refused, Sequence, Tries};
use x509_fields::{TryClone, X509Error, list_error, sequence_at};

#[derive(Clone, Copy)]
pub(crate) struct KeyPurpose<'a> {
    pub(crate) id: Oid<'a>,
}

impl<'a> FromDer<'a, BerError> for KeyPurpose<'a> {
    ghost Value = { List ℕ };

    ghost view = { key_purpose_of };

    ghost grammar = { in_primitive 6 key_purpose key_purpose_laws };

    #[tactic(auto, unfolding(crate::specs::ExtendedKeyUsage::key_purpose, x509_der::specs::Leaves::oid, x509_der::specs::Primitives::contents_at), using(x509_der::proofs::Marking::marks_of_readers))]
    fn read_at<L: Outside>(
        _alloc: Global,
        _tries: &mut Tries,
        place: &Place<'a, L>,
    ) -> Result<(Self, bool), Refused<BerError, L>> {
        let id = place.oid()?;
        Ok((KeyPurpose { id }, true))
    }

    ghost never_memory = { key_purpose_laws.laws.never_memory };
}

/// What a key may be used for, by identifiers (RFC 5280, section 4.2.1.12).
///
/// ```text
/// ExtKeyUsageSyntax ::= SEQUENCE SIZE (1..MAX) OF KeyPurposeId
///
/// KeyPurposeId ::= OBJECT IDENTIFIER
/// ```
///
/// The SEQUENCE may be empty. It is read to its end: where a member is no identifier, `NomError(Eof)`. An identifier that stands
/// there again says nothing more.
#[derive(Debug, Drop, PartialEq, Eq)]
pub struct ExtendedKeyUsage<'a> {
    /// For any purpose (2.5.29.37.0).
    pub any: bool,
    /// For servers that show who they are (1.3.6.1.5.5.7.3.1).
    pub server_auth: bool,
    /// For clients that show who they are (1.3.6.1.5.5.7.3.2).
    pub client_auth: bool,
    /// For signing code (1.3.6.1.5.5.7.3.3).
    pub code_signing: bool,
    /// For protecting mail (1.3.6.1.5.5.7.3.4).
    pub email_protection: bool,
    /// For binding a hash to a time (1.3.6.1.5.5.7.3.8).
    pub time_stamping: bool,
    /// For signing answers about revocation (1.3.6.1.5.5.7.3.9).
    pub ocsp_signing: bool,
    /// All other purposes, each once, in the order in which they are first seen.
    pub other: Sequence<Oid<'a>>,
}

// The purposes that have a flag.
#[derive(Clone, Copy)]
enum Flag {
    Any,
    ServerAuth,
    ClientAuth,
    CodeSigning,
    EmailProtection,
    TimeStamping,
    OcspSigning,
}

impl Flag {
    // The flag of the purpose with this identifier; none where it has none.
    fn of(octets: &[u8]) -> Option<Flag>
        ensures { MatchOption result (holds named_purposes octets.now ≡ false) (λ f. octets.now ≡ octets_of f) }
    {
        match octets {
            // 2.5.29.37.0
            [0x55, 0x1d, 0x25, 0] => Some(Flag::Any),
            // 1.3.6.1.5.5.7.3
            [0x2b, 6, 1, 5, 5, 7, 3, arc] => match arc {
                1 => Some(Flag::ServerAuth),
                2 => Some(Flag::ClientAuth),
                3 => Some(Flag::CodeSigning),
                4 => Some(Flag::EmailProtection),
                8 => Some(Flag::TimeStamping),
                9 => Some(Flag::OcspSigning),
                _ => None,
            },
            _ => None,
        }
    }
}

impl<'a> ExtendedKeyUsage<'a> {
    // Not for any purpose.
    fn none(alloc: Global) -> Self
        ensures says { usages_of result ≡ usages_in [] }
        ensures other { result.other ≡ [] }
    {
        ExtendedKeyUsage {
            any: false,
            server_auth: false,
            client_auth: false,
            code_signing: false,
            email_protection: false,
            time_stamping: false,
            ocsp_signing: false,
            other: Sequence::new(alloc),
        }
    }

    // Adds a purpose behind others.
    fn add(&mut self, seen: &mut BTreeSet<Oid<'a>>, id: Oid<'a>) -> Result<(), Err<X509Error>>
        requires { AreBehindFirst self.old.other seen.old }
        ensures said { (ids : List (List ℕ)) → usages_of self.old ≡ usages_in ids
            → MatchResult result (λ _. usages_of self.new ≡ usages_in (ids ++ oid_bytes id.entry ∷ [])) (λ e. is_excused is_x509_memory true e ≡ true) }
        ensures seen { OnOk result (AreBehindFirst self.new.other seen.new) }
    {
        match Flag::of(id.as_bytes()) {
            Some(Flag::Any) => self.any = true,
            Some(Flag::ServerAuth) => self.server_auth = true,
            Some(Flag::ClientAuth) => self.client_auth = true,
            Some(Flag::CodeSigning) => self.code_signing = true,
            Some(Flag::EmailProtection) => self.email_protection = true,
            Some(Flag::TimeStamping) => self.time_stamping = true,
            Some(Flag::OcspSigning) => self.ocsp_signing = true,
            None => list_once(&mut self.other, seen, id)?,
        }
        Ok(())
    }
}

// Adds an identifier where it is not listed yet. Those behind the first are in `seen`, so one alone needs no set.
fn list_once<'a>(
    list: &mut Sequence<Oid<'a>>,
    seen: &mut BTreeSet<Oid<'a>>,
    id: Oid<'a>,
) -> Result<(), Err<X509Error>>
    requires { AreBehindFirst list.old seen.old }
    ensures list { MatchResult result
        (λ _. map oid_bytes list.new
        ≡ (if holds (map oid_bytes list.old) (oid_bytes id.entry) then map oid_bytes list.old else map oid_bytes list.old ++ oid_bytes id.entry ∷ []))
        (λ e. is_excused is_x509_memory true e ≡ true) }
    ensures seen { OnOk result (AreBehindFirst list.new seen.new) }
{
    if let [first, ..] = list.as_slice() {
        if *first == id {
            return Ok(());
        }
        match seen.insert(id) {
            Ok(true) => {}
            Ok(false) => return Ok(()),
            Err(_) => return Err(Err::out_of_memory()),
        }
    }
    if list.push(id).is_err() {
        return Err(Err::out_of_memory());
    }
    Ok(())
}

// What the longest run of purposes at the front says, what stands behind it, and whether all of them stand plainly.
fn read_purposes<'a>(
    alloc: Global,
    tries: &mut Tries,
    i: &'a [u8],
) -> Result<(&'a [u8], ExtendedKeyUsage<'a>, bool), Err<X509Error>>
    ensures { ReadsPart is_x509_memory (λ usages. usages_heads usages.1 - 1) (λ x. (x.0.now, usages_of x.1)) (λ x. x.2) (said_at i.now)
        (marks_of_members key_purpose i.now) i.now tries.old tries.new result }
{
    let mut usage = ExtendedKeyUsage::none(alloc);
    let mut seen = BTreeSet::new(alloc);
    let mut rest = i;
    let mut plain = true;
    while let Ok((after, purpose, marked)) = KeyPurpose::read_marked(alloc, tries, rest) {
        usage.add(&mut seen, purpose.id)?;
        plain &= marked;
        rest = after;
    }
    Ok((rest, usage, plain))
}

impl<'a> FromDer<'a, X509Error> for ExtendedKeyUsage<'a> {
    ghost Value = { Usages };

    ghost view = { usages_of };

    ghost grammar = { in_sequence extended_key_usage extended_key_usage_laws usages_heads allocates };

    #[tactic(auto, unfolding(crate::specs::ExtendedKeyUsage::extended_key_usage, crate::specs::ExtendedKeyUsage::key_purposes, crate::specs::ExtendedKeyUsage::key_purpose_run), using(x509_der::proofs::Marking::marks_of_readers))]
    fn read_at<L: Outside>(
        alloc: Global,
        tries: &mut Tries,
        place: &Place<'a, L>,
    ) -> Result<(Self, bool), Refused<X509Error, L>> {
        let contents = sequence_at(place)?;
        let (rest, usage, plain) = place.judge(read_purposes(alloc, tries, contents.bytes()))?;
        if !rest.is_empty() {
            return Err(contents.refuse_at(rest, list_error(ErrorKind::Eof)));
        }
        Ok((usage, plain))
    }

    ghost never_memory = { extended_key_usage_laws.laws.never_memory };
}

impl TryClone for ExtendedKeyUsage<'_> {
    fn try_clone(&self) -> Result<Self, X509Error> {
        let other = self.other.try_copy()?;
        Ok(ExtendedKeyUsage {
            any: self.any,
            server_auth: self.server_auth,
            client_auth: self.client_auth,
            code_signing: self.code_signing,
            email_protection: self.email_protection,
            time_stamping: self.time_stamping,
            ocsp_signing: self.ocsp_signing,
            other,
        })
    }
}
