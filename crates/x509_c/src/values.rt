//! Values of extensions without names in them, each from its own octets.

ghost use Rattle.std.specs.Prelude.{◌≡◌, ℕ, List, [], length, map};
ghost use Rattle.x509_der.specs.Oid.{oid_bytes};
ghost use Rattle.x509_values.specs.BasicConstraints.{basic_constraints, basic_constraints_of};
ghost use Rattle.x509_values.specs.ExtendedKeyUsage.{extended_key_usage, usages_of};
ghost use Rattle.x509_values.specs.KeyUsage.{key_usage};
ghost use Rattle.x509_values.specs.Policies.{PolicyQualifierValue, PolicyValue, policies, policy_of, policy_qualifier_of};
ghost use Rattle.x509_c.specs.Tells.{Tells, Done};
ghost use Rattle.x509_c.specs.Values.{AreOctets, IsBasicConstraintsRow, IsPolicyRow, IsUsagesRow, ShowsUsages, FindsQualifiers};
ghost use Rattle.x509_c.specs.Values.{IsPolicyQualifierRow, IsQualifierRow, policy_qualifiers, qualifiers};
ghost use Rattle.x509_c.specs.Options.{there_or};
ghost use Rattle.x509_c.specs.Rows.{CountsAndShows};

use crate::octets::OctetsRow;
use crate::row_writer::{HasNumberedRow, HasRow, ItemsOf, put_rows, tell_items};
use crate::status::{NOT_FOUND, OK, refused};
use std::alloc::Global;
use x509_der::{FromDer, Oid};
use x509_values::{
    BasicConstraints, ExtendedKeyUsage, KeyUsage, PolicyInformation, PolicyList,
    PolicyQualifierInfo,
};

/// What a key may be used for: bit k of the usage is set where bit k of the BIT STRING is (RFC 5280, section 4.2.1.3).
#[unsafe(no_mangle)]
pub extern "C" fn rtv_read_key_usage(
    alloc: Global,
    value: &[u8],
    usage: &mut u32,
    at: &mut usize,
) -> u32
    ensures { Tells key_usage value.now
        (λ flags _. Done (usage.new ≡ flags))
        (usage.new ≡ usage.old)
        at.old at.new result }
{
    match KeyUsage::from_der_located(alloc, value) {
        Ok((_, read)) => {
            *usage = u32::from(read.flags);
            OK
        }
        Err(refusal) => refused(refusal, at),
    }
}

/// Basic constraints: `rtv_basic_constraints` of rushtrivet.h.
#[repr(C)]
#[derive(Clone, Copy)]
pub struct BasicConstraintsRow {
    /// 1 where the subject is a certification authority, and else 0.
    pub ca: u32,
    /// 1 where the length of paths is bounded, and else 0.
    pub has_path_length: u32,
    /// How many more certificates of authorities may follow in a path; 0 where that isn't said.
    pub path_length: u32,
}

fn basic_constraints_row(read: &BasicConstraints) -> BasicConstraintsRow
    ensures { IsBasicConstraintsRow result (basic_constraints_of read.now) }
{
    let (has_path_length, path_length) = match read.path_len_constraint {
        Some(length) => (1, length),
        None => (0, 0),
    };
    BasicConstraintsRow {
        ca: u32::from(read.ca),
        has_path_length,
        path_length,
    }
}

/// Whether a subject is a certification authority, and how long the paths below it may be (RFC 5280, section 4.2.1.9).
#[unsafe(no_mangle)]
pub extern "C" fn rtv_read_basic_constraints(
    alloc: Global,
    value: &[u8],
    constraints: &mut BasicConstraintsRow,
    at: &mut usize,
) -> u32
    ensures { Tells basic_constraints value.now
        (λ read _. Done (IsBasicConstraintsRow constraints.new read))
        (constraints.new ≡ constraints.old)
        at.old at.new result }
{
    match BasicConstraints::from_der_located(alloc, value) {
        Ok((_, read)) => {
            *constraints = basic_constraints_row(&read);
            OK
        }
        Err(refusal) => refused(refusal, at),
    }
}

/// What a key may be used for, by identifiers: `rtv_extended_key_usage` of rushtrivet.h. A field is 1 where the use is named, and else 0.
#[repr(C)]
#[derive(Clone, Copy)]
pub struct UsagesRow {
    /// How many other uses there are.
    pub other_count: usize,
    /// Any purpose (2.5.29.37.0).
    pub any: u32,
    /// Servers that show who they are (1.3.6.1.5.5.7.3.1).
    pub server_auth: u32,
    /// Clients that show who they are (1.3.6.1.5.5.7.3.2).
    pub client_auth: u32,
    /// Signing code (1.3.6.1.5.5.7.3.3).
    pub code_signing: u32,
    /// Protecting mail (1.3.6.1.5.5.7.3.4).
    pub email_protection: u32,
    /// Binding a hash to a time (1.3.6.1.5.5.7.3.8).
    pub time_stamping: u32,
    /// Signing answers about revocation (1.3.6.1.5.5.7.3.9).
    pub ocsp_signing: u32,
}

fn usages_row(read: &ExtendedKeyUsage<'_>) -> UsagesRow
    ensures { IsUsagesRow result (usages_of read.now) }
{
    UsagesRow {
        other_count: read.other.as_slice().len(),
        any: u32::from(read.any),
        server_auth: u32::from(read.server_auth),
        client_auth: u32::from(read.client_auth),
        code_signing: u32::from(read.code_signing),
        email_protection: u32::from(read.email_protection),
        time_stamping: u32::from(read.time_stamping),
        ocsp_signing: u32::from(read.ocsp_signing),
    }
}

impl<'a> HasRow for Oid<'a> {
    type Row = OctetsRow<'a>;

    ghost Value = { List ℕ };

    ghost view = { oid_bytes };

    ghost Shows = { AreOctets };

    fn row(&self) -> OctetsRow<'a> {
        OctetsRow {
            octets: self.as_bytes(),
        }
    }
}

/// What a key may be used for, by identifiers (RFC 5280, section 4.2.1.12). Those that have no field are written in the order in which
/// they are first seen, each once, as many as there are rows, and all of them are counted.
#[unsafe(no_mangle)]
pub extern "C" fn rtv_read_extended_key_usage<'a>(
    alloc: Global,
    value: &'a [u8],
    usages: &mut UsagesRow,
    others: &mut [OctetsRow<'a>],
    at: &mut usize,
) -> u32
    ensures { Tells extended_key_usage value.now
        (λ read _. Done (ShowsUsages usages.new others.new read))
        ((usages.new ≡ usages.old) × (others.new ≡ others.old))
        at.old at.new result }
{
    match ExtendedKeyUsage::from_der_located(alloc, value) {
        Ok((_, read)) => {
            *usages = usages_row(&read);
            put_rows(others, read.other.as_slice());
            OK
        }
        Err(refusal) => refused(refusal, at),
    }
}

/// One policy: `rtv_policy` of rushtrivet.h.
#[repr(C)]
#[derive(Clone, Copy)]
pub struct PolicyRow<'a> {
    /// The contents of its identifier.
    pub oid: &'a [u8],
    /// How many qualifiers it has.
    pub qualifier_count: usize,
}

/// The qualifiers of a policy.
fn qualifiers_of<'v, 'a>(policy: &'v PolicyInformation<'a>) -> &'v [PolicyQualifierInfo<'a>]
    ensures own { result.now ≡ there_or [] policy.now.policy_qualifiers }
    ensures shown { map policy_qualifier_of result.now ≡ qualifiers (policy_of policy.now) }
{
    match &policy.policy_qualifiers {
        Some(qualifiers) => qualifiers.as_slice(),
        None => &[],
    }
}

impl<'a> HasRow for PolicyInformation<'a> {
    type Row = PolicyRow<'a>;

    ghost Value = { PolicyValue };

    ghost view = { policy_of };

    ghost Shows = { IsPolicyRow };

    fn row(&self) -> PolicyRow<'a> {
        PolicyRow {
            oid: self.policy_id.as_bytes(),
            qualifier_count: qualifiers_of(self).len(),
        }
    }
}

/// The policies that a certificate was issued under (RFC 5280, section 4.2.1.4). They are written in order, as many as there are rows,
/// and all of them are counted.
#[unsafe(no_mangle)]
pub extern "C" fn rtv_read_policies<'a>(
    alloc: Global,
    value: &'a [u8],
    rows: &mut [PolicyRow<'a>],
    count: &mut usize,
    at: &mut usize,
) -> u32
    ensures { Tells policies value.now
        (λ read _. Done (CountsAndShows IsPolicyRow rows.new count.new read))
        ((rows.new ≡ rows.old) × (count.new ≡ count.old))
        at.old at.new result }
{
    match PolicyList::from_der_located(alloc, value) {
        Ok((_, read)) => {
            let read = read.policies.as_slice();
            put_rows(rows, read);
            *count = read.len();
            OK
        }
        Err(refusal) => refused(refusal, at),
    }
}

/// One qualifier of a policy: `rtv_qualifier` of rushtrivet.h.
#[repr(C)]
#[derive(Clone, Copy)]
pub struct QualifierRow<'a> {
    /// The contents of the identifier of its kind.
    pub oid: &'a [u8],
    /// The octets behind the identifier.
    pub value: &'a [u8],
}

impl<'a> HasRow for PolicyQualifierInfo<'a> {
    type Row = QualifierRow<'a>;

    ghost Value = { PolicyQualifierValue };

    ghost view = { policy_qualifier_of };

    ghost Shows = { IsQualifierRow };

    fn row(&self) -> QualifierRow<'a> {
        QualifierRow {
            oid: self.policy_qualifier_id.as_bytes(),
            value: self.qualifier,
        }
    }
}

/// Writes the qualifiers of the policy at a position, or tells that no policy stands there.
fn find_qualifiers<'a>(
    policies: &[PolicyInformation<'a>],
    position: usize,
    rows: &mut [QualifierRow<'a>],
    count: &mut usize,
) -> u32
    ensures found { FindsQualifiers (map policy_of policies.now) position rows.new count.new result }
    ensures kept { (result ≡ 0 → ⊥) → (rows.new ≡ rows.old) × (count.new ≡ count.old) }
{
    if position >= policies.len() {
        return NOT_FOUND;
    }
    let qualifiers = qualifiers_of(&policies[position]);
    put_rows(rows, qualifiers);
    *count = qualifiers.len();
    OK
}

/// The qualifiers of the policy at this position, from 0 on (RFC 5280, section 4.2.1.4): they are written in order, as many as there are
/// rows, and all of them are counted; 50 where no policy stands there.
#[unsafe(no_mangle)]
pub extern "C" fn rtv_read_qualifiers<'a>(
    alloc: Global,
    value: &'a [u8],
    position: usize,
    rows: &mut [QualifierRow<'a>],
    count: &mut usize,
    at: &mut usize,
) -> u32
    ensures { Tells policies value.now
        (λ read _. FindsQualifiers read position rows.new count.new)
        ((rows.new ≡ rows.old) × (count.new ≡ count.old))
        at.old at.new result }
{
    match PolicyList::from_der_located(alloc, value) {
        Ok((_, read)) => find_qualifiers(read.policies.as_slice(), position, rows, count),
        Err(refusal) => refused(refusal, at),
    }
}

/// A qualifier, and the position of its policy: `rtv_policy_qualifier` of rushtrivet.h.
#[repr(C)]
#[derive(Clone, Copy)]
pub struct PolicyQualifierRow<'a> {
    /// The contents of the identifier of its kind.
    pub oid: &'a [u8],
    /// The octets behind the identifier.
    pub value: &'a [u8],
    /// The position of its policy, from 0 on.
    pub policy: usize,
}

impl<'a> HasNumberedRow for PolicyQualifierInfo<'a> {
    type Row = PolicyQualifierRow<'a>;

    ghost Value = { PolicyQualifierValue };

    ghost view = { policy_qualifier_of };

    ghost Shows = { IsPolicyQualifierRow };

    fn numbered_row(&self, number: usize) -> PolicyQualifierRow<'a> {
        PolicyQualifierRow {
            oid: self.policy_qualifier_id.as_bytes(),
            value: self.qualifier,
            policy: number,
        }
    }
}

/// The qualifiers of policies.
struct PolicyQualifiers;

impl<'a> ItemsOf<PolicyInformation<'a>, PolicyQualifierInfo<'a>> for PolicyQualifiers {
    ghost own = { λ policy. there_or [] policy.policy_qualifiers };

    fn items<'v>(member: &'v PolicyInformation<'a>) -> &'v [PolicyQualifierInfo<'a>] {
        qualifiers_of(member)
    }
}

/// The qualifiers of all policies (RFC 5280, section 4.2.1.4): they are written in order, as many as there are rows, each with the position
/// of its policy, and all of them are counted.
#[unsafe(no_mangle)]
pub extern "C" fn rtv_read_policy_qualifiers<'a>(
    alloc: Global,
    value: &'a [u8],
    rows: &mut [PolicyQualifierRow<'a>],
    count: &mut usize,
    at: &mut usize,
) -> u32
    ensures { Tells policies value.now
        (λ read _. Done (CountsAndShows IsPolicyQualifierRow rows.new count.new (policy_qualifiers read)))
        ((rows.new ≡ rows.old) × (count.new ≡ count.old))
        at.old at.new result }
{
    match PolicyList::from_der_located(alloc, value) {
        Ok((_, read)) => {
            let read = read.policies.as_slice();
            tell_items::<PolicyQualifierInfo<'a>, _, PolicyQualifiers>(rows, count, read)
        }
        Err(refusal) => refused(refusal, at),
    }
}
