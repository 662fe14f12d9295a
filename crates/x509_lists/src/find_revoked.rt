//! The entry of a serial.

ghost use Rattle.std.specs.Prelude.{◌≡◌};
ghost use Rattle.x509_der.specs.Unsigned.{unsigned_number};
ghost use Rattle.x509_lists.specs.FindRevoked.{first_of, serial_numbers};
ghost use Rattle.x509_lists.specs.TbsCertList.{tbs_list_of};

use crate::tbs_cert_list::TbsCertList;
use x509_der::UnsignedBytes;

impl<'a> TbsCertList<'a> {
    /// The position of the first revoked certificate with this serial, as a number (RFC 5280, section 5.1.2.6); none where no
    /// certificate has it. Each entry is looked at in turn: for many look-ups on one list there is an index in `x509_revoked`. On an
    /// indirect list entries may be of other issuers (RFC 5280, section 5.3.3), who have serials of their own.
    pub fn find_revoked(&self, serial: &UnsignedBytes<'_>) -> Option<usize>
        ensures { result ≡ first_of (serial_numbers (tbs_list_of self.now).revoked_certificates) (unsigned_number serial.now) }
    {
        self.revoked_certificates
            .as_slice()
            .iter()
            .position(|revoked| revoked.user_certificate == *serial)
    }
}
