//! Extensions of a certificate by their identifiers, and what they say.

ghost use Rattle.std.specs.Prelude.{◌≡◌};
ghost use Rattle.std.specs.List.{find};
ghost use Rattle.std.specs.Option.{option_copied};
ghost use Rattle.x509_der.specs.Oid.{oid_bytes};
ghost use Rattle.x509_names.specs.Objects as objects;
ghost use Rattle.x509_extensions.specs.Lookups.{MapsExtensions, has_oid, unique_of, pointed, typed, typed_or_none, basic_constraints_in, key_usage_in};
ghost use Rattle.x509_extensions.specs.Lookups.{extended_key_usage_in, policy_constraints_in, inhibit_any_policy_in, policy_mappings_in, subject_names_in};
ghost use Rattle.x509_extensions.specs.Lookups.{name_constraints_in};
ghost use Rattle.x509_certs.specs.LookUps.{found, says_ca};

use crate::basic_extension::BasicExtension;
use crate::certificate::X509Certificate;
use crate::tbs_certificate::TbsCertificate;
use std::alloc::Global;
use std::collections::HashMap;
use std::hash::BuildHasher;
use x509_der::Oid;
use x509_extensions::{ParsedExtension, X509Extension};
use x509_fields::X509Error;
use x509_general_names::{NameConstraints, SubjectAlternativeName};
use x509_names::{
    OID_X509_EXT_BASIC_CONSTRAINTS, OID_X509_EXT_EXTENDED_KEY_USAGE,
    OID_X509_EXT_INHIBIT_ANY_POLICY, OID_X509_EXT_KEY_USAGE, OID_X509_EXT_NAME_CONSTRAINTS,
    OID_X509_EXT_POLICY_CONSTRAINTS, OID_X509_EXT_POLICY_MAPPINGS, OID_X509_EXT_SUBJECT_ALT_NAME,
};
use x509_values::{
    BasicConstraints, ExtendedKeyUsage, InhibitAnyPolicy, KeyUsage, PolicyConstraints,
    PolicyMappings,
};

impl<'a> TbsCertificate<'a> {
    /// The first extension with this identifier.
    pub fn find_extension(&self, oid: &Oid<'_>) -> Option<&X509Extension<'a>>
        ensures { option_copied result ≡ find (has_oid (oid_bytes oid.now)) self.now.extensions }
    {
        x509_extensions::find_extension(self.extensions(), oid)
    }

    /// The only extension with this identifier (RFC 5280, section 4.2: a certificate must not have two).
    ///
    /// # Errors
    ///
    /// `DuplicateExtensions` where there are two.
    pub fn get_extension_unique(
        &self,
        oid: &Oid<'_>,
    ) -> Result<Option<&X509Extension<'a>>, X509Error>
        ensures { pointed result ≡ unique_of (oid_bytes oid.now) self.now.extensions }
    {
        x509_extensions::get_extension_unique(self.extensions(), oid)
    }

    /// Each extension under its identifier.
    ///
    /// # Errors
    ///
    /// `DuplicateExtensions` where an identifier stands twice, and `OutOfMemory`.
    pub fn extensions_map<S: BuildHasher + Drop>(
        &self,
        alloc: Global,
        hasher: S,
    ) -> Result<HashMap<Oid<'a>, &X509Extension<'a>, S>, X509Error>
        ensures { MapsExtensions self.now.extensions result }
    {
        x509_extensions::extensions_map(alloc, self.extensions(), hasher)
    }

    /// Whether the subject is a certification authority, and how long a path may be below it (RFC 5280, section 4.2.1.9). An
    /// extension whose value can't be read, or wasn't looked at, is as good as none.
    ///
    /// # Errors
    ///
    /// `DuplicateExtensions` where there are two.
    pub fn basic_constraints(&self) -> Result<Option<BasicExtension<&BasicConstraints>>, X509Error>
        ensures { found result ≡ typed_or_none basic_constraints_in (unique_of objects.basic_constraints self.now.extensions) }
    {
        let oid = Oid::new(OID_X509_EXT_BASIC_CONSTRAINTS);
        let Some(extension) = self.get_extension_unique(&oid)? else {
            return Ok(None);
        };
        match extension.parsed_extension() {
            ParsedExtension::BasicConstraints(value) => {
                Ok(Some(BasicExtension::new(extension.critical, value)))
            }
            _ => Ok(None),
        }
    }

    /// What the key may be used for (RFC 5280, section 4.2.1.3).
    ///
    /// # Errors
    ///
    /// `DuplicateExtensions` where there are two; `InvalidExtensions` where the value can't be read, or wasn't looked at.
    pub fn key_usage(&self) -> Result<Option<BasicExtension<&KeyUsage>>, X509Error>
        ensures { found result ≡ typed key_usage_in (unique_of objects.key_usage self.now.extensions) }
    {
        let oid = Oid::new(OID_X509_EXT_KEY_USAGE);
        let Some(extension) = self.get_extension_unique(&oid)? else {
            return Ok(None);
        };
        match extension.parsed_extension() {
            ParsedExtension::KeyUsage(value) => {
                Ok(Some(BasicExtension::new(extension.critical, value)))
            }
            _ => Err(X509Error::InvalidExtensions),
        }
    }

    /// For which purposes the key may be used (RFC 5280, section 4.2.1.12).
    ///
    /// # Errors
    ///
    /// `DuplicateExtensions` where there are two; `InvalidExtensions` where the value can't be read, or wasn't looked at.
    pub fn extended_key_usage(
        &self,
    ) -> Result<Option<BasicExtension<&ExtendedKeyUsage<'a>>>, X509Error>
        ensures { found result ≡ typed extended_key_usage_in (unique_of objects.extended_key_usage self.now.extensions) }
    {
        let oid = Oid::new(OID_X509_EXT_EXTENDED_KEY_USAGE);
        let Some(extension) = self.get_extension_unique(&oid)? else {
            return Ok(None);
        };
        match extension.parsed_extension() {
            ParsedExtension::ExtendedKeyUsage(value) => {
                Ok(Some(BasicExtension::new(extension.critical, value)))
            }
            _ => Err(X509Error::InvalidExtensions),
        }
    }

    /// What is required of policies on a path (RFC 5280, section 4.2.1.11).
    ///
    /// # Errors
    ///
    /// `DuplicateExtensions` where there are two; `InvalidExtensions` where the value can't be read, or wasn't looked at.
    pub fn policy_constraints(
        &self,
    ) -> Result<Option<BasicExtension<&PolicyConstraints>>, X509Error>
        ensures { found result ≡ typed policy_constraints_in (unique_of objects.policy_constraints self.now.extensions) }
    {
        let oid = Oid::new(OID_X509_EXT_POLICY_CONSTRAINTS);
        let Some(extension) = self.get_extension_unique(&oid)? else {
            return Ok(None);
        };
        match extension.parsed_extension() {
            ParsedExtension::PolicyConstraints(value) => {
                Ok(Some(BasicExtension::new(extension.critical, value)))
            }
            _ => Err(X509Error::InvalidExtensions),
        }
    }

    /// From where on the policy that stands for any other is ignored (RFC 5280, section 4.2.1.14).
    ///
    /// # Errors
    ///
    /// `DuplicateExtensions` where there are two; `InvalidExtensions` where the value can't be read, or wasn't looked at.
    pub fn inhibit_anypolicy(&self) -> Result<Option<BasicExtension<&InhibitAnyPolicy>>, X509Error>
        ensures { found result ≡ typed inhibit_any_policy_in (unique_of objects.inhibit_any_policy self.now.extensions) }
    {
        let oid = Oid::new(OID_X509_EXT_INHIBIT_ANY_POLICY);
        let Some(extension) = self.get_extension_unique(&oid)? else {
            return Ok(None);
        };
        match extension.parsed_extension() {
            ParsedExtension::InhibitAnyPolicy(value) => {
                Ok(Some(BasicExtension::new(extension.critical, value)))
            }
            _ => Err(X509Error::InvalidExtensions),
        }
    }

    /// Which policies of the issuer and of the subject are equivalent (RFC 5280, section 4.2.1.5).
    ///
    /// # Errors
    ///
    /// `DuplicateExtensions` where there are two; `InvalidExtensions` where the value can't be read, or wasn't looked at.
    pub fn policy_mappings(&self) -> Result<Option<BasicExtension<&PolicyMappings<'a>>>, X509Error>
        ensures { found result ≡ typed policy_mappings_in (unique_of objects.policy_mappings self.now.extensions) }
    {
        let oid = Oid::new(OID_X509_EXT_POLICY_MAPPINGS);
        let Some(extension) = self.get_extension_unique(&oid)? else {
            return Ok(None);
        };
        match extension.parsed_extension() {
            ParsedExtension::PolicyMappings(value) => {
                Ok(Some(BasicExtension::new(extension.critical, value)))
            }
            _ => Err(X509Error::InvalidExtensions),
        }
    }

    /// Other names of the subject (RFC 5280, section 4.2.1.6).
    ///
    /// # Errors
    ///
    /// `DuplicateExtensions` where there are two; `InvalidExtensions` where the value can't be read, or wasn't looked at.
    pub fn subject_alternative_name(
        &self,
    ) -> Result<Option<BasicExtension<&SubjectAlternativeName<'a>>>, X509Error>
        ensures { found result ≡ typed subject_names_in (unique_of objects.subject_alt_name self.now.extensions) }
    {
        let oid = Oid::new(OID_X509_EXT_SUBJECT_ALT_NAME);
        let Some(extension) = self.get_extension_unique(&oid)? else {
            return Ok(None);
        };
        match extension.parsed_extension() {
            ParsedExtension::SubjectAlternativeName(value) => {
                Ok(Some(BasicExtension::new(extension.critical, value)))
            }
            _ => Err(X509Error::InvalidExtensions),
        }
    }

    /// Which names a certification authority may certify (RFC 5280, section 4.2.1.10).
    ///
    /// # Errors
    ///
    /// `DuplicateExtensions` where there are two; `InvalidExtensions` where the value can't be read, or wasn't looked at.
    pub fn name_constraints(
        &self,
    ) -> Result<Option<BasicExtension<&NameConstraints<'a>>>, X509Error>
        ensures { found result ≡ typed name_constraints_in (unique_of objects.name_constraints self.now.extensions) }
    {
        let oid = Oid::new(OID_X509_EXT_NAME_CONSTRAINTS);
        let Some(extension) = self.get_extension_unique(&oid)? else {
            return Ok(None);
        };
        match extension.parsed_extension() {
            ParsedExtension::NameConstraints(value) => {
                Ok(Some(BasicExtension::new(extension.critical, value)))
            }
            _ => Err(X509Error::InvalidExtensions),
        }
    }

    /// Whether basic constraints say that the subject is a certification authority; false where there are two of them, or
    /// where they can't be read.
    pub fn is_ca(&self) -> bool
        ensures { result ≡ says_ca (typed_or_none basic_constraints_in (unique_of objects.basic_constraints self.now.extensions)) }
    {
        match self.basic_constraints() {
            Ok(Some(constraints)) => constraints.value.ca,
            _ => false,
        }
    }
}

impl<'a> X509Certificate<'a> {
    /// The first extension with this identifier.
    pub fn find_extension(&self, oid: &Oid<'_>) -> Option<&X509Extension<'a>>
        ensures { option_copied result ≡ find (has_oid (oid_bytes oid.now)) self.now.tbs_certificate.extensions }
    {
        self.tbs_certificate.find_extension(oid)
    }

    /// The only extension with this identifier (RFC 5280, section 4.2: a certificate must not have two).
    ///
    /// # Errors
    ///
    /// `DuplicateExtensions` where there are two.
    pub fn get_extension_unique(
        &self,
        oid: &Oid<'_>,
    ) -> Result<Option<&X509Extension<'a>>, X509Error>
        ensures { pointed result ≡ unique_of (oid_bytes oid.now) self.now.tbs_certificate.extensions }
    {
        self.tbs_certificate.get_extension_unique(oid)
    }

    /// Each extension under its identifier.
    ///
    /// # Errors
    ///
    /// `DuplicateExtensions` where an identifier stands twice, and `OutOfMemory`.
    pub fn extensions_map<S: BuildHasher + Drop>(
        &self,
        alloc: Global,
        hasher: S,
    ) -> Result<HashMap<Oid<'a>, &X509Extension<'a>, S>, X509Error>
        ensures { MapsExtensions self.now.tbs_certificate.extensions result }
    {
        self.tbs_certificate.extensions_map(alloc, hasher)
    }

    /// Whether the subject is a certification authority, and how long a path may be below it (RFC 5280, section 4.2.1.9). An
    /// extension whose value can't be read, or wasn't looked at, is as good as none.
    ///
    /// # Errors
    ///
    /// `DuplicateExtensions` where there are two.
    pub fn basic_constraints(&self) -> Result<Option<BasicExtension<&BasicConstraints>>, X509Error>
        ensures { found result ≡ typed_or_none basic_constraints_in (unique_of objects.basic_constraints self.now.tbs_certificate.extensions) }
    {
        self.tbs_certificate.basic_constraints()
    }

    /// What the key may be used for (RFC 5280, section 4.2.1.3).
    ///
    /// # Errors
    ///
    /// `DuplicateExtensions` where there are two; `InvalidExtensions` where the value can't be read, or wasn't looked at.
    pub fn key_usage(&self) -> Result<Option<BasicExtension<&KeyUsage>>, X509Error>
        ensures { found result ≡ typed key_usage_in (unique_of objects.key_usage self.now.tbs_certificate.extensions) }
    {
        self.tbs_certificate.key_usage()
    }

    /// For which purposes the key may be used (RFC 5280, section 4.2.1.12).
    ///
    /// # Errors
    ///
    /// `DuplicateExtensions` where there are two; `InvalidExtensions` where the value can't be read, or wasn't looked at.
    pub fn extended_key_usage(
        &self,
    ) -> Result<Option<BasicExtension<&ExtendedKeyUsage<'a>>>, X509Error>
        ensures { found result ≡ typed extended_key_usage_in (unique_of objects.extended_key_usage self.now.tbs_certificate.extensions) }
    {
        self.tbs_certificate.extended_key_usage()
    }

    /// What is required of policies on a path (RFC 5280, section 4.2.1.11).
    ///
    /// # Errors
    ///
    /// `DuplicateExtensions` where there are two; `InvalidExtensions` where the value can't be read, or wasn't looked at.
    pub fn policy_constraints(
        &self,
    ) -> Result<Option<BasicExtension<&PolicyConstraints>>, X509Error>
        ensures { found result ≡ typed policy_constraints_in (unique_of objects.policy_constraints self.now.tbs_certificate.extensions) }
    {
        self.tbs_certificate.policy_constraints()
    }

    /// From where on the policy that stands for any other is ignored (RFC 5280, section 4.2.1.14).
    ///
    /// # Errors
    ///
    /// `DuplicateExtensions` where there are two; `InvalidExtensions` where the value can't be read, or wasn't looked at.
    pub fn inhibit_anypolicy(&self) -> Result<Option<BasicExtension<&InhibitAnyPolicy>>, X509Error>
        ensures { found result ≡ typed inhibit_any_policy_in (unique_of objects.inhibit_any_policy self.now.tbs_certificate.extensions) }
    {
        self.tbs_certificate.inhibit_anypolicy()
    }

    /// Which policies of the issuer and of the subject are equivalent (RFC 5280, section 4.2.1.5).
    ///
    /// # Errors
    ///
    /// `DuplicateExtensions` where there are two; `InvalidExtensions` where the value can't be read, or wasn't looked at.
    pub fn policy_mappings(&self) -> Result<Option<BasicExtension<&PolicyMappings<'a>>>, X509Error>
        ensures { found result ≡ typed policy_mappings_in (unique_of objects.policy_mappings self.now.tbs_certificate.extensions) }
    {
        self.tbs_certificate.policy_mappings()
    }

    /// Other names of the subject (RFC 5280, section 4.2.1.6).
    ///
    /// # Errors
    ///
    /// `DuplicateExtensions` where there are two; `InvalidExtensions` where the value can't be read, or wasn't looked at.
    pub fn subject_alternative_name(
        &self,
    ) -> Result<Option<BasicExtension<&SubjectAlternativeName<'a>>>, X509Error>
        ensures { found result ≡ typed subject_names_in (unique_of objects.subject_alt_name self.now.tbs_certificate.extensions) }
    {
        self.tbs_certificate.subject_alternative_name()
    }

    /// Which names a certification authority may certify (RFC 5280, section 4.2.1.10).
    ///
    /// # Errors
    ///
    /// `DuplicateExtensions` where there are two; `InvalidExtensions` where the value can't be read, or wasn't looked at.
    pub fn name_constraints(
        &self,
    ) -> Result<Option<BasicExtension<&NameConstraints<'a>>>, X509Error>
        ensures { found result ≡ typed name_constraints_in (unique_of objects.name_constraints self.now.tbs_certificate.extensions) }
    {
        self.tbs_certificate.name_constraints()
    }

    /// Whether basic constraints say that the subject is a certification authority; false where there are two of them, or
    /// where they can't be read.
    pub fn is_ca(&self) -> bool
        ensures { result ≡ says_ca (typed_or_none basic_constraints_in (unique_of objects.basic_constraints self.now.tbs_certificate.extensions)) }
    {
        self.tbs_certificate.is_ca()
    }
}
