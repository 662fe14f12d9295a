//! What holds of the values that are read.

ghost use Rattle.std.specs.Prelude.{◌≡◌, ℕ, List, None};
ghost use Rattle.x509_extensions.specs.Kinds.{kind_of};
ghost use Rattle.x509_extensions.specs.Parsed.{IsRow, IsWholeRow, Unsupported, parsed_value, SubjectKeyIdentifier, KeyUsage, SubjectAlternativeName};
ghost use Rattle.x509_extensions.specs.Parsed.{IssuerAlternativeName, BasicConstraints, CRLNumber, ReasonCode, InvalidityDate, IssuingDistributionPoint};
ghost use Rattle.x509_extensions.specs.Parsed.{NameConstraints, CRLDistributionPoints, CertificatePolicies, PolicyMappings, AuthorityKeyIdentifier};
ghost use Rattle.x509_extensions.specs.Parsed.{PolicyConstraints, ExtendedKeyUsage, InhibitAnyPolicy, AuthorityInfoAccess, SubjectInfoAccess, SCT, NSCertType};
ghost use Rattle.x509_extensions.specs.Parsed.{NsCertComment};
ghost use Rattle.x509_names.specs.Objects as objects;
ghost use Rattle.x509_fields.specs.Fields.{lifted};
ghost use Rattle.x509_general_names.specs.KeyIdentifier.{key_identifier};
ghost use Rattle.x509_values.specs.KeyUsage.{key_usage};
ghost use Rattle.x509_general_names.specs.AlternativeNames.{general_names};
ghost use Rattle.x509_values.specs.BasicConstraints.{basic_constraints};
ghost use Rattle.x509_values.specs.CrlNumber.{crl_number};
ghost use Rattle.x509_values.specs.ReasonCode.{reason_code};
ghost use Rattle.x509_values.specs.InvalidityDate.{invalidity_date};
ghost use Rattle.x509_general_names.specs.IssuingDistributionPoint.{issuing_distribution_point};
ghost use Rattle.x509_general_names.specs.NameConstraints.{name_constraints};
ghost use Rattle.x509_general_names.specs.DistributionPoints.{crl_distribution_points};
ghost use Rattle.x509_values.specs.Policies.{policies};
ghost use Rattle.x509_values.specs.PolicyMapping.{policy_mappings};
ghost use Rattle.x509_general_names.specs.AuthorityKeyIdentifier.{authority_key_identifier};
ghost use Rattle.x509_values.specs.PolicyConstraints.{policy_constraints};
ghost use Rattle.x509_values.specs.ExtendedKeyUsage.{extended_key_usage};
ghost use Rattle.x509_values.specs.InhibitAnyPolicy.{inhibit_any_policy};
ghost use Rattle.x509_general_names.specs.InformationAccess.{information_access};
ghost use Rattle.x509_values.specs.TimestampList.{timestamps};
ghost use Rattle.x509_values.specs.NsCertType.{ns_cert_type};
ghost use Rattle.x509_values.specs.NsComment.{ns_comment};

/// The table of values: under its own identifier, what the value of an extension says is a value of a type exactly where that
/// type's `from_der` takes the value bytes, and it is the same value; where `from_der` refuses them, it is a `ParseError`
/// for that reason. Under an identifier of none of them it is unsupported. The body is empty: the contract is what is proved.
pub const fn value_laws()
    ensures subject_key_identifier { IsRow objects.subject_key_identifier key_identifier (λ v. SubjectKeyIdentifier v) }
    ensures key_usage { IsRow objects.key_usage key_usage (λ v. KeyUsage v) }
    ensures subject_alt_name { IsRow objects.subject_alt_name general_names (λ v. SubjectAlternativeName v) }
    ensures issuer_alt_name { IsRow objects.issuer_alt_name general_names (λ v. IssuerAlternativeName v) }
    ensures basic_constraints { IsRow objects.basic_constraints basic_constraints (λ v. BasicConstraints v) }
    ensures crl_number { IsRow objects.crl_number crl_number (λ v. CRLNumber v) }
    ensures reason_code { IsRow objects.reason_code reason_code (λ v. ReasonCode v) }
    ensures invalidity_date { IsRow objects.invalidity_date invalidity_date (λ v. InvalidityDate v) }
    ensures issuing_distribution_point { IsRow objects.issuing_distribution_point issuing_distribution_point (λ v. IssuingDistributionPoint v) }
    ensures name_constraints { IsRow objects.name_constraints name_constraints (λ v. NameConstraints v) }
    ensures crl_distribution_points { IsRow objects.crl_distribution_points crl_distribution_points (λ v. CRLDistributionPoints v) }
    ensures certificate_policies { IsRow objects.certificate_policies policies (λ v. CertificatePolicies v) }
    ensures policy_mappings { IsRow objects.policy_mappings policy_mappings (λ v. PolicyMappings v) }
    ensures authority_key_identifier { IsRow objects.authority_key_identifier authority_key_identifier (λ v. AuthorityKeyIdentifier v) }
    ensures policy_constraints { IsRow objects.policy_constraints policy_constraints (λ v. PolicyConstraints v) }
    ensures extended_key_usage { IsRow objects.extended_key_usage extended_key_usage (λ v. ExtendedKeyUsage v) }
    ensures inhibit_any_policy { IsRow objects.inhibit_any_policy inhibit_any_policy (λ v. InhibitAnyPolicy v) }
    ensures authority_info_access { IsRow objects.authority_info_access information_access (λ v. AuthorityInfoAccess v) }
    ensures subject_info_access { IsRow objects.subject_info_access information_access (λ v. SubjectInfoAccess v) }
    ensures ct_list_sct { IsRow objects.ct_list_sct (lifted timestamps) (λ v. SCT v) }
    ensures ns_cert_type { IsRow objects.ns_cert_type ns_cert_type (λ v. NSCertType v) }
    ensures ns_comment { IsWholeRow objects.ns_comment ns_comment (λ v. NsCertComment v) }
    ensures unknown { (id value : List ℕ) → kind_of id ≡ None → parsed_value id value ≡ Unsupported id }
{}
