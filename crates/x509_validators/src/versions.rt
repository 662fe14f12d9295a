//! What a certificate may have by its version.

ghost use Rattle.std.specs.Prelude.{◌≡◌, map};
ghost use Rattle.x509_certs.specs.UniqueIdentifier.{bits_of_uid};
ghost use Rattle.x509_der.specs.Promises.{option_view};
ghost use Rattle.x509_extensions.specs.Extension.{extension_of};
ghost use Rattle.x509_validators.specs.Rules.{row_of};
ghost use Rattle.x509_validators.specs.Versions.{is_too_early, is_version, may_have, presence_rule, uid_rule, version_rule};

use crate::rule::{Rule, error_where, field_warning_where};
use x509_certs::UniqueIdentifier;
use x509_extensions::X509Extension;
use x509_fields::X509Version;

/// A version that there is (RFC 5280, section 4.1.2.1).
pub(crate) fn version_rule(version: X509Version) -> Rule<'static>
    ensures { row_of result ≡ version_rule version.0 }
{
    error_where(!is_version(version), "Invalid version")
}

/// No unique identifier in the first version (RFC 5280, section 4.1.2.8), of a field by its name.
pub(crate) fn uid_rule<'a>(
    field: &'a str,
    version: X509Version,
    id: &Option<UniqueIdentifier<'_>>,
) -> Rule<'a>
    ensures { row_of result ≡ uid_rule field.now version.0 (option_view bits_of_uid id.now) }
{
    field_warning_where(
        is_too_early(version, id),
        "",
        field,
        " present but version 1",
    )
}

/// Extensions in the third version alone (RFC 5280, section 4.1.2.9).
pub(crate) fn presence_rule(version: X509Version, extensions: &[X509Extension<'_>]) -> Rule<'static>
    ensures { row_of result ≡ presence_rule version.0 (map extension_of extensions.now) }
{
    error_where(
        !may_have(version, extensions),
        "Extensions present but version is not 3",
    )
}

/// Whether there is such a version.
pub(crate) fn is_version(version: X509Version) -> bool
    ensures { result ≡ is_version version.0 }
{
    version.0 < 3
}

fn is_too_early(version: X509Version, id: &Option<UniqueIdentifier<'_>>) -> bool
    ensures { result ≡ is_too_early version.0 (option_view bits_of_uid id.now) }
{
    version == X509Version::V1 && id.is_some()
}

/// Whether a certificate of this version may have these extensions.
pub(crate) fn may_have(version: X509Version, extensions: &[X509Extension<'_>]) -> bool
    ensures { result ≡ may_have version.0 (map extension_of extensions.now) }
{
    version == X509Version::V3 || extensions.is_empty()
}
