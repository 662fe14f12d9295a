//! Extensions, each as it stands.

ghost use Rattle.x509_extensions.specs.Extension.{Extension, extension_of};
ghost use Rattle.x509_c.specs.Extensions.{IsExtensionRow};

use crate::row_writer::HasRow;
use x509_extensions::X509Extension;

/// One extension: `rtv_extension` of rushtrivet.h.
#[repr(C)]
#[derive(Clone, Copy)]
pub struct ExtensionRow<'a> {
    /// The contents of its identifier.
    pub oid: &'a [u8],
    /// The contents of the OCTET STRING that holds its value.
    pub value: &'a [u8],
    /// 1 where it is critical, and else 0.
    pub critical: u32,
}

impl<'a> HasRow for X509Extension<'a> {
    type Row = ExtensionRow<'a>;

    ghost Value = { Extension };

    ghost view = { extension_of };

    ghost Shows = { IsExtensionRow };

    fn row(&self) -> ExtensionRow<'a> {
        ExtensionRow {
            oid: self.oid.as_bytes(),
            value: self.value,
            critical: u32::from(self.critical),
        }
    }
}
