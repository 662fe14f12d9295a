//! Addresses of hosts in general names.

ghost use Rattle.x509_general_names.specs.Addresses.{IsAddressOf};

use std::net::IpAddr;

/// The address with these octets: of IPv4 where there are four, of IPv6 where there are sixteen, and else none (RFC 5280, section
/// 4.2.1.6). The eight or thirty-two octets of a name constraint (section 4.2.1.10) are an address, and then its mask.
pub fn ip_address(octets: &[u8]) -> Option<IpAddr>
    ensures { IsAddressOf octets.now result }
{
    if let Ok(octets) = <[u8; 4]>::try_from(octets) {
        return Some(IpAddr::from(octets));
    }
    match <[u8; 16]>::try_from(octets) {
        Ok(octets) => Some(IpAddr::from(octets)),
        Err(_) => None,
    }
}
