//! Attribute types of names.

use super::Named;

/// Attribute types of names.
pub(super) const ATTRIBUTE_TYPES: [Named; 47] = [
    // RFC 4519, section 2
    (&[0x55, 0x04, 0x04], "surname", "Surname"),
    (&[0x55, 0x04, 0x05], "serialNumber", "Serial Number"),
    (&[0x55, 0x04, 0x09], "streetAddress", "Street Address"),
    (&[0x55, 0x04, 0x0c], "title", "Title"),
    (&[0x55, 0x04, 0x0d], "description", "Description"),
    (&[0x55, 0x04, 0x0e], "searchGuide", "Search Guide"),
    (&[0x55, 0x04, 0x0f], "businessCategory", "Business Category"),
    (&[0x55, 0x04, 0x10], "postalAddress", "Postal Address"),
    (&[0x55, 0x04, 0x11], "postalCode", "Postal Code"),
    (&[0x55, 0x04, 0x12], "postOfficeBox", "Post Office Box"),
    (
        &[0x55, 0x04, 0x13],
        "physicalDeliveryOfficeName",
        "Physical Delivery Office Name",
    ),
    (&[0x55, 0x04, 0x14], "telephoneNumber", "Telephone Number"),
    (&[0x55, 0x04, 0x15], "telexNumber", "Telex Number"),
    (
        &[0x55, 0x04, 0x16],
        "teletexTerminalIdentifier",
        "Teletex Terminal Identifier",
    ),
    (
        &[0x55, 0x04, 0x17],
        "facsimileTelephoneNumber",
        "Facsimile Telephone Number",
    ),
    (&[0x55, 0x04, 0x18], "x121Address", "X.121 Address"),
    (
        &[0x55, 0x04, 0x19],
        "internationalISDNNumber",
        "International ISDN Number",
    ),
    (
        &[0x55, 0x04, 0x1a],
        "registeredAddress",
        "Registered Address",
    ),
    (
        &[0x55, 0x04, 0x1b],
        "destinationIndicator",
        "Destination Indicator",
    ),
    (
        &[0x55, 0x04, 0x1c],
        "preferredDeliveryMethod",
        "Preferred Delivery Method",
    ),
    (&[0x55, 0x04, 0x1f], "member", "Member"),
    (&[0x55, 0x04, 0x20], "owner", "Owner"),
    (&[0x55, 0x04, 0x21], "roleOccupant", "Role Occupant"),
    (&[0x55, 0x04, 0x22], "seeAlso", "See Also"),
    (&[0x55, 0x04, 0x23], "userPassword", "User Password"),
    (&[0x55, 0x04, 0x29], "name", "Name"),
    (&[0x55, 0x04, 0x2a], "givenName", "Given Name"),
    (&[0x55, 0x04, 0x2b], "initials", "Initials"),
    (
        &[0x55, 0x04, 0x2c],
        "generationQualifier",
        "Generation Qualifier",
    ),
    (
        &[0x55, 0x04, 0x2d],
        "x500UniqueIdentifier",
        "X.500 Unique Identifier",
    ),
    (&[0x55, 0x04, 0x2e], "dnQualifier", "DN Qualifier"),
    (
        &[0x55, 0x04, 0x2f],
        "enhancedSearchGuide",
        "Enhanced Search Guide",
    ),
    (
        &[0x55, 0x04, 0x31],
        "distinguishedName",
        "Distinguished Name",
    ),
    (&[0x55, 0x04, 0x32], "uniqueMember", "Unique Member"),
    (&[0x55, 0x04, 0x33], "houseIdentifier", "House Identifier"),
    (
        &[0x09, 0x92, 0x26, 0x89, 0x93, 0xf2, 0x2c, 0x64, 0x01, 0x01],
        "uid",
        "User Identifier",
    ),
    // RFC 5280, appendix A.1
    (&[0x55, 0x04, 0x41], "pseudonym", "Pseudonym"),
    // X.520, as ETSI EN 319 412-1 uses it
    (
        &[0x55, 0x04, 0x61],
        "organizationIdentifier",
        "Organization Identifier",
    ),
    // RFC 2985
    (
        &[0x2a, 0x86, 0x48, 0x86, 0xf7, 0x0d, 0x01, 0x09, 0x02],
        "unstructuredName",
        "Unstructured Name",
    ),
    (
        &[0x2a, 0x86, 0x48, 0x86, 0xf7, 0x0d, 0x01, 0x09, 0x03],
        "contentType",
        "Content Type",
    ),
    (
        &[0x2a, 0x86, 0x48, 0x86, 0xf7, 0x0d, 0x01, 0x09, 0x04],
        "messageDigest",
        "Message Digest",
    ),
    (
        &[0x2a, 0x86, 0x48, 0x86, 0xf7, 0x0d, 0x01, 0x09, 0x05],
        "signingTime",
        "Signing Time",
    ),
    (
        &[0x2a, 0x86, 0x48, 0x86, 0xf7, 0x0d, 0x01, 0x09, 0x06],
        "countersignature",
        "Countersignature",
    ),
    (
        &[0x2a, 0x86, 0x48, 0x86, 0xf7, 0x0d, 0x01, 0x09, 0x08],
        "unstructuredAddress",
        "Unstructured Address",
    ),
    // CA/Browser Forum, guidelines for extended validation
    (
        &[
            0x2b, 0x06, 0x01, 0x04, 0x01, 0x82, 0x37, 0x3c, 0x02, 0x01, 0x01,
        ],
        "jurisdictionLocalityName",
        "Jurisdiction Locality Name",
    ),
    (
        &[
            0x2b, 0x06, 0x01, 0x04, 0x01, 0x82, 0x37, 0x3c, 0x02, 0x01, 0x02,
        ],
        "jurisdictionStateOrProvinceName",
        "Jurisdiction State or Province Name",
    ),
    (
        &[
            0x2b, 0x06, 0x01, 0x04, 0x01, 0x82, 0x37, 0x3c, 0x02, 0x01, 0x03,
        ],
        "jurisdictionCountryName",
        "Jurisdiction Country Name",
    ),
];
