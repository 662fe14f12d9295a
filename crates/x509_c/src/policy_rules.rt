//! What is asked of the policies of a path.

ghost use Rattle.std.specs.Prelude.{◌≡◌};
ghost use Rattle.x509_values.specs.InhibitAnyPolicy.{inhibit_any_policy};
ghost use Rattle.x509_values.specs.PolicyConstraints.{policy_constraints, policy_constraints_of};
ghost use Rattle.x509_values.specs.PolicyMapping.{PolicyMappingValue, policy_mapping_of, policy_mappings};
ghost use Rattle.x509_c.specs.PolicyRules.{IsPolicyConstraintsRow, IsPolicyMappingRow};
ghost use Rattle.x509_c.specs.Rows.{CountsAndShows};
ghost use Rattle.x509_c.specs.Tells.{Tells, Done};

use crate::options::{is_some, or_zero};
use crate::row_writer::{HasRow, put_rows};
use crate::status::{OK, refused};
use std::alloc::Global;
use x509_der::FromDer;
use x509_values::{InhibitAnyPolicy, PolicyConstraints, PolicyMapping, PolicyMappings};

/// From where on policies are asked for: `rtv_policy_constraints` of rushtrivet.h.
#[repr(C)]
#[derive(Clone, Copy)]
pub struct PolicyConstraintsRow {
    /// 1 where it is said from where on each certificate needs a policy, and else 0.
    pub has_require_explicit_policy: u32,
    /// How many more certificates may follow in a path before that; 0 where it isn't said.
    pub require_explicit_policy: u32,
    /// 1 where it is said from where on policies may not be mapped, and else 0.
    pub has_inhibit_policy_mapping: u32,
    /// How many more certificates may follow in a path before that; 0 where it isn't said.
    pub inhibit_policy_mapping: u32,
}

fn policy_constraints_row(read: &PolicyConstraints) -> PolicyConstraintsRow
    ensures { IsPolicyConstraintsRow result (policy_constraints_of read.now) }
{
    PolicyConstraintsRow {
        has_require_explicit_policy: is_some(&read.require_explicit_policy),
        require_explicit_policy: or_zero(read.require_explicit_policy),
        has_inhibit_policy_mapping: is_some(&read.inhibit_policy_mapping),
        inhibit_policy_mapping: or_zero(read.inhibit_policy_mapping),
    }
}

/// From where on a path needs a policy, and from where on policies may not be mapped (RFC 5280, section 4.2.1.11).
#[unsafe(no_mangle)]
pub extern "C" fn rtv_read_policy_constraints(
    alloc: Global,
    value: &[u8],
    constraints: &mut PolicyConstraintsRow,
    at: &mut usize,
) -> u32
    ensures { Tells policy_constraints value.now
        (λ read _. Done (IsPolicyConstraintsRow constraints.new read))
        (constraints.new ≡ constraints.old)
        at.old at.new result }
{
    match PolicyConstraints::from_der_located(alloc, value) {
        Ok((_, read)) => {
            *constraints = policy_constraints_row(&read);
            OK
        }
        Err(refusal) => refused(refusal, at),
    }
}

/// How many more certificates may follow in a path before the policy that stands for any other is ignored (RFC 5280, section 4.2.1.14).
#[unsafe(no_mangle)]
pub extern "C" fn rtv_read_inhibit_any_policy(
    alloc: Global,
    value: &[u8],
    skip_certs: &mut u32,
    at: &mut usize,
) -> u32
    ensures { Tells inhibit_any_policy value.now
        (λ number _. Done (skip_certs.new ≡ number))
        (skip_certs.new ≡ skip_certs.old)
        at.old at.new result }
{
    match InhibitAnyPolicy::from_der_located(alloc, value) {
        Ok((_, read)) => {
            *skip_certs = read.skip_certs;
            OK
        }
        Err(refusal) => refused(refusal, at),
    }
}

/// Two policies that are held for equivalent: `rtv_policy_mapping` of rushtrivet.h.
#[repr(C)]
#[derive(Clone, Copy)]
pub struct PolicyMappingRow<'a> {
    /// The contents of the identifier of the issuer's policy.
    pub issuer_domain_policy: &'a [u8],
    /// The contents of the identifier of the subject's policy.
    pub subject_domain_policy: &'a [u8],
}

impl<'a> HasRow for PolicyMapping<'a> {
    type Row = PolicyMappingRow<'a>;

    ghost Value = { PolicyMappingValue };

    ghost view = { policy_mapping_of };

    ghost Shows = { IsPolicyMappingRow };

    fn row(&self) -> PolicyMappingRow<'a> {
        PolicyMappingRow {
            issuer_domain_policy: self.issuer_domain_policy.as_bytes(),
            subject_domain_policy: self.subject_domain_policy.as_bytes(),
        }
    }
}

/// Policies of an issuer and those of its subject that it holds for equivalent (RFC 5280, section 4.2.1.5). They are written in order, as
/// many as there are rows, and all of them are counted.
#[unsafe(no_mangle)]
pub extern "C" fn rtv_read_policy_mappings<'a>(
    alloc: Global,
    value: &'a [u8],
    rows: &mut [PolicyMappingRow<'a>],
    count: &mut usize,
    at: &mut usize,
) -> u32
    ensures { Tells policy_mappings value.now
        (λ read _. Done (CountsAndShows IsPolicyMappingRow rows.new count.new read))
        ((rows.new ≡ rows.old) × (count.new ≡ count.old))
        at.old at.new result }
{
    match PolicyMappings::from_der_located(alloc, value) {
        Ok((_, read)) => {
            let read = read.mappings.as_slice();
            put_rows(rows, read);
            *count = read.len();
            OK
        }
        Err(refusal) => refused(refusal, at),
    }
}
