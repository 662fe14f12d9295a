//! Where more about an issuer or a subject is found.

ghost use Rattle.std.specs.Prelude.{◌≡◌, List, map, true};
ghost use Rattle.x509_der.specs.Grammar.{allocates, in_sequence};
ghost use Rattle.x509_der.specs.Iterating.{Iterates};
ghost use Rattle.x509_der.specs.Place.{at, outside_of};
ghost use Rattle.x509_der.specs.Primitives.{is_constructed};
ghost use Rattle.x509_der.specs.Promises.{ReadsAt};
ghost use Rattle.x509_der.specs.Reading.{strict};
ghost use Rattle.x509_fields.specs.Errors.{is_x509_memory};
ghost use Rattle.x509_fields.specs.Groups.{MapsGroups, held, pointed};
ghost use Rattle.x509_general_names.specs.InformationAccess.{Access, access_of, authority_accesses_of, subject_accesses_of, access_description};
ghost use Rattle.x509_general_names.specs.InformationAccess.{information_access, access_heads, information_access_heads, access_description_laws};
ghost use Rattle.x509_general_names.specs.InformationAccess.{information_access_laws, locations};

use crate::general_name::GeneralName;
use std::alloc::Global;
use std::collections::HashMap;
use std::hash::BuildHasher;
use std::slice;
use x509_der::{
    ErrorKind, Fields, FromDer, Oid, Outside, Place, Refused, Sequence, Tries, converted, read_run,
};
use x509_fields::{TryClone, X509Error, add_to_group, list_error, sequence_at};

/// How and where something is found (RFC 5280, section 4.2.2.1).
///
/// ```text
/// AccessDescription ::= SEQUENCE {
///     accessMethod    OBJECT IDENTIFIER,
///     accessLocation  GeneralName }
/// ```
#[derive(Debug, PartialEq, Drop)]
pub struct AccessDescription<'a> {
    /// The kind of what is found there, as OCSP or the issuer's certificates.
    pub access_method: Oid<'a>,
    /// Where it is found.
    pub access_location: GeneralName<'a>,
}

impl<'a> AccessDescription<'a> {
    /// The description of this method and location.
    pub const fn new(access_method: Oid<'a>, access_location: GeneralName<'a>) -> Self
        ensures method { result.access_method ≡ access_method.entry }
        ensures location { result.access_location ≡ access_location.entry }
    {
        AccessDescription {
            access_method,
            access_location,
        }
    }
}

/// The first field that cannot be read refuses, for its own reason; bytes behind the location are skipped.
impl<'a> FromDer<'a, X509Error> for AccessDescription<'a> {
    ghost Value = { Access };

    ghost view = { access_of };

    ghost grammar = { in_sequence access_description access_description_laws access_heads allocates };

    #[tactic(auto, unfolding(crate::specs::InformationAccess::access_description), using(x509_der::proofs::Marking::marks_of_readers))]
    fn read_at<L: Outside>(
        alloc: Global,
        tries: &mut Tries,
        place: &Place<'a, L>,
    ) -> Result<(Self, bool), Refused<X509Error, L>> {
        let contents = sequence_at(place)?;
        let fields = Fields::of(tries, &contents);
        let (fields, access_method) = converted!(fields.oid(tries));
        let (access_location, plain) = fields.last(alloc, tries)?;
        let description = AccessDescription {
            access_method,
            access_location,
        };
        Ok((description, plain))
    }

    ghost never_memory = { access_description_laws.laws.never_memory };
}

impl TryClone for AccessDescription<'_> {
    fn try_clone(&self) -> Result<Self, X509Error> {
        let access_location = self.access_location.try_clone()?;
        Ok(AccessDescription {
            access_method: self.access_method,
            access_location,
        })
    }
}

/// Where information about the issuer and its services are found (RFC 5280, section 4.2.2.1).
///
/// ```text
/// AuthorityInfoAccessSyntax ::= SEQUENCE SIZE (1..MAX) OF AccessDescription
/// ```
#[derive(Debug, PartialEq, Drop)]
pub struct AuthorityInfoAccess<'a> {
    /// The access descriptions, in order.
    pub accessdescs: Sequence<AccessDescription<'a>>,
}

/// Access descriptions, in order.
pub type AccessIter<'v, 'a> = slice::Iter<'v, AccessDescription<'a>>;

impl<'a> AuthorityInfoAccess<'a> {
    /// The access descriptions, in order.
    pub fn iter(&self) -> AccessIter<'_, 'a>
        ensures { Iterates result self.now.accessdescs }
    {
        self.accessdescs.iter()
    }

    /// The locations under each method, in order, and no other key.
    ///
    /// # Errors
    ///
    /// `OutOfMemory`.
    pub fn as_hashmap<S: BuildHasher + Drop>(
        &self,
        alloc: Global,
        hasher: S,
    ) -> Result<HashMap<Oid<'a>, Vec<&GeneralName<'a>>, S>, X509Error>
        ensures { MapsGroups (λ m q. pointed (held m q)) (locations self.now.accessdescs) result }
    {
        lent(alloc, hasher, self.accessdescs.as_slice())
    }

    /// The locations under each method, in order, and no other key.
    ///
    /// # Errors
    ///
    /// `OutOfMemory`; then nothing is handed back.
    pub fn into_hashmap<S: BuildHasher + Drop>(
        self,
        alloc: Global,
        hasher: S,
    ) -> Result<HashMap<Oid<'a>, Vec<GeneralName<'a>>, S>, X509Error>
        ensures { MapsGroups (λ m q. held m q) (locations self.entry.accessdescs) result }
    {
        owned(alloc, hasher, self.accessdescs.into_vec())
    }
}

/// The descriptions fill the SEQUENCE, which may be empty; else they are `Error(Der(NomError(Eof)))`.
impl<'a> FromDer<'a, X509Error> for AuthorityInfoAccess<'a> {
    ghost Value = { List Access };

    ghost view = { authority_accesses_of };

    ghost grammar = { in_sequence information_access information_access_laws information_access_heads allocates };

    fn read_at<L: Outside>(
        alloc: Global,
        tries: &mut Tries,
        place: &Place<'a, L>,
    ) -> Result<(Self, bool), Refused<X509Error, L>> {
        let (accessdescs, plain) = accesses_at(alloc, tries, place)?;
        Ok((AuthorityInfoAccess { accessdescs }, plain))
    }

    ghost never_memory = { information_access_laws.laws.never_memory };
}

impl TryClone for AuthorityInfoAccess<'_> {
    fn try_clone(&self) -> Result<Self, X509Error> {
        let accessdescs = self.accessdescs.try_clone()?;
        Ok(AuthorityInfoAccess { accessdescs })
    }
}

/// Where information about the subject and its services are found (RFC 5280, section 4.2.2.2).
///
/// ```text
/// SubjectInfoAccessSyntax ::= SEQUENCE SIZE (1..MAX) OF AccessDescription
/// ```
#[derive(Debug, PartialEq, Drop)]
pub struct SubjectInfoAccess<'a> {
    /// The access descriptions, in order.
    pub accessdescs: Sequence<AccessDescription<'a>>,
}

impl<'a> SubjectInfoAccess<'a> {
    /// The access descriptions, in order.
    pub fn iter(&self) -> AccessIter<'_, 'a>
        ensures { Iterates result self.now.accessdescs }
    {
        self.accessdescs.iter()
    }

    /// The locations under each method, in order, and no other key.
    ///
    /// # Errors
    ///
    /// `OutOfMemory`.
    pub fn as_hashmap<S: BuildHasher + Drop>(
        &self,
        alloc: Global,
        hasher: S,
    ) -> Result<HashMap<Oid<'a>, Vec<&GeneralName<'a>>, S>, X509Error>
        ensures { MapsGroups (λ m q. pointed (held m q)) (locations self.now.accessdescs) result }
    {
        lent(alloc, hasher, self.accessdescs.as_slice())
    }

    /// The locations under each method, in order, and no other key.
    ///
    /// # Errors
    ///
    /// `OutOfMemory`; then nothing is handed back.
    pub fn into_hashmap<S: BuildHasher + Drop>(
        self,
        alloc: Global,
        hasher: S,
    ) -> Result<HashMap<Oid<'a>, Vec<GeneralName<'a>>, S>, X509Error>
        ensures { MapsGroups (λ m q. held m q) (locations self.entry.accessdescs) result }
    {
        owned(alloc, hasher, self.accessdescs.into_vec())
    }
}

/// As [`AuthorityInfoAccess`].
impl<'a> FromDer<'a, X509Error> for SubjectInfoAccess<'a> {
    ghost Value = { List Access };

    ghost view = { subject_accesses_of };

    ghost grammar = { in_sequence information_access information_access_laws information_access_heads allocates };

    fn read_at<L: Outside>(
        alloc: Global,
        tries: &mut Tries,
        place: &Place<'a, L>,
    ) -> Result<(Self, bool), Refused<X509Error, L>> {
        let (accessdescs, plain) = accesses_at(alloc, tries, place)?;
        Ok((SubjectInfoAccess { accessdescs }, plain))
    }

    ghost never_memory = { information_access_laws.laws.never_memory };
}

impl TryClone for SubjectInfoAccess<'_> {
    fn try_clone(&self) -> Result<Self, X509Error> {
        let accessdescs = self.accessdescs.try_clone()?;
        Ok(SubjectInfoAccess { accessdescs })
    }
}

// Descriptions in a SEQUENCE that they fill, and their mark.
#[tactic(auto, unfolding(crate::specs::InformationAccess::information_access), using(x509_der::proofs::Marking::marks_of_readers))]
fn accesses_at<'a, L: Outside>(
    alloc: Global,
    tries: &mut Tries,
    place: &Place<'a, L>,
) -> Result<(Sequence<AccessDescription<'a>>, bool), Refused<X509Error, L>>
    ensures { ReadsAt is_x509_memory true strict (is_constructed 16) information_access_heads (λ x. map access_of x) information_access L.adds (at place.now)
        (outside_of place.now) tries.old tries.new result }
{
    let contents = sequence_at(place)?;
    let (rest, accesses, plain) = place.judge(read_run(alloc, tries, contents.bytes()))?;
    if !rest.is_empty() {
        return Err(contents.refuse_at(rest, list_error(ErrorKind::Eof)));
    }
    Ok((accesses, plain))
}

// The locations under each method, in order.
#[tactic(auto, using(x509_fields::proofs::Grouped::grouping))]
fn lent<'v, 'a, S: BuildHasher + Drop>(
    alloc: Global,
    hasher: S,
    accesses: &'v [AccessDescription<'a>],
) -> Result<HashMap<Oid<'a>, Vec<&'v GeneralName<'a>>, S>, X509Error>
    ensures { MapsGroups (λ m q. pointed (held m q)) (locations accesses.now) result }
{
    let mut map = HashMap::with_hasher(alloc, hasher);
    for access in accesses {
        add_to_group(
            alloc,
            &mut map,
            access.access_method,
            &access.access_location,
        )?;
    }
    Ok(map)
}

// The locations under each method, in order.
#[tactic(auto, using(x509_fields::proofs::Grouped::grouping))]
fn owned<'a, S: BuildHasher + Drop>(
    alloc: Global,
    hasher: S,
    accesses: Vec<AccessDescription<'a>>,
) -> Result<HashMap<Oid<'a>, Vec<GeneralName<'a>>, S>, X509Error>
    ensures { MapsGroups (λ m q. held m q) (locations accesses.entry.items) result }
{
    let mut map = HashMap::with_hasher(alloc, hasher);
    for access in accesses {
        add_to_group(
            alloc,
            &mut map,
            access.access_method,
            access.access_location,
        )?;
    }
    Ok(map)
}
