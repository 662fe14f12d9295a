//! The kinds of objects, and what is told of each.

ghost use Rattle.std.specs.Prelude.{◌≡◌, true, IfOk};
ghost use Rattle.x509_der.specs.Laws.{IsLawful};
ghost use Rattle.x509_der.specs.Promises.{ReadsWhere};
ghost use Rattle.x509_fields.specs.Errors.{is_x509_memory};
ghost use Rattle.x509_fields.specs.Signed.{Signed};
ghost use Rattle.x509_certs.specs.Certificate.{Certificate, certificate_laws, certificate_of};
ghost use Rattle.x509_lists.specs.CertificateList.{certificate_list_laws, list_of};
ghost use Rattle.x509_lists.specs.TbsCertList.{TbsList};
ghost use Rattle.x509_requests.specs.Request.{certification_request_laws, certification_request_of};
ghost use Rattle.x509_requests.specs.RequestInfo.{RequestInfo};
ghost use Rattle.x509_report_lines.specs.Says.{SaysMembers};
ghost use Rattle.x509_report_objects.specs.Certificates.{certificate_members};
ghost use Rattle.x509_report_objects.specs.Lists.{list_members};
ghost use Rattle.x509_report_objects.specs.Objects.{Telling, kind_word, of_certificates, of_lists, of_requests, part_of};
ghost use Rattle.x509_report_objects.specs.RefusedValues.{any_in_list, any_in_request, any_refused};
ghost use Rattle.x509_report_objects.specs.Requests.{request_members};
ghost use Rattle.x509_report_objects.specs.declared.kind.Kind.TheVariants as kinds;

use crate::certificates::certificate_members;
use crate::lists::list_members;
use crate::refused_values::{any_in_list, any_in_request, any_refused};
use crate::requests::request_members;
use std::alloc::Global;
use x509_certs::X509Certificate;
use x509_der::{FromDer, Located};
use x509_elements::Part;
use x509_fields::X509Error;
use x509_lists::CertificateRevocationList;
use x509_report_lines::Line;
use x509_requests::X509CertificationRequest;

/// What an object is.
#[derive(Clone, Copy, Debug, PartialEq, Eq)]
pub enum Kind {
    /// A certificate (RFC 5280, section 4.1).
    Certificate,
    /// A list of revoked certificates (RFC 5280, section 5.1).
    List,
    /// A certification request (RFC 2986, section 4.2).
    Request,
}

impl Kind {
    /// Its word in a line.
    pub(crate) fn word(self) -> &'static str
        ensures { result.now ≡ kind_word self }
    {
        match self {
            Kind::Certificate => "certificate",
            Kind::List => "list",
            Kind::Request => "request",
        }
    }

    /// Which part of an inventory of fields it is, whole.
    pub(crate) fn part(self) -> Part
        ensures { result ≡ part_of self }
    {
        match self {
            Kind::Certificate => Part::Certificate,
            Kind::List => Part::List,
            Kind::Request => Part::Request,
        }
    }
}

/// What a line may tell of.
pub(crate) trait Reported<'a>: Sized + Drop {
    /// What a value is, without where it lies in memory.
    ghost Value: { Type 0 };

    ghost view: { Self → Value };

    /// Its kind, its grammar, its members in a line, and whether a value of its extensions can't be read.
    ghost telling: { Telling Value };

    ghost laws: { IsLawful telling.field };

    /// Which kind it is.
    fn kind() -> Kind
        ensures { result ≡ telling.kind };

    /// Reads it, and tells whether it stands plainly, or where it is refused.
    fn read(alloc: Global, octets: &'a [u8]) -> Result<(&'a [u8], Self, bool), Located<X509Error>>
        ensures exact { ReadsWhere is_x509_memory true (λ x. (x.0.now, view x.1)) telling.field octets.now result }
        ensures marks { IfOk result (λ x. x.2 ≡ telling.field.marks octets.now) };

    /// Writes its own members; with fingerprints where these are wanted.
    fn say_members(&self, out: &mut Line, fingerprints: bool)
        ensures { SaysMembers out.old out.new (telling.members fingerprints (view self.now)) };

    /// Whether a value of its extensions can't be read.
    fn refuses(&self) -> bool
        ensures { result ≡ telling.refuses (view self.now) };
}

impl<'a> Reported<'a> for X509Certificate<'a> {
    ghost Value = { Certificate };

    ghost view = { certificate_of };

    ghost telling = { of_certificates };

    ghost laws = { (certificate_laws true).laws.lawful };

    fn kind() -> Kind
        ensures { result ≡ kinds.Certificate }
    {
        Kind::Certificate
    }

    fn read(
        alloc: Global,
        octets: &'a [u8],
    ) -> Result<(&'a [u8], X509Certificate<'a>, bool), Located<X509Error>> {
        X509Certificate::from_der_marked_located(alloc, octets)
    }

    fn say_members(&self, out: &mut Line, fingerprints: bool)
        ensures { SaysMembers out.old out.new (certificate_members fingerprints (certificate_of self.now)) }
    {
        certificate_members(out, fingerprints, self);
    }

    fn refuses(&self) -> bool
        ensures { result ≡ any_refused (certificate_of self.now).tbs.extensions }
    {
        any_refused(self.extensions())
    }
}

impl<'a> Reported<'a> for CertificateRevocationList<'a> {
    ghost Value = { Signed TbsList };

    ghost view = { list_of };

    ghost telling = { of_lists };

    ghost laws = { certificate_list_laws.laws.lawful };

    fn kind() -> Kind
        ensures { result ≡ kinds.List }
    {
        Kind::List
    }

    fn read(
        alloc: Global,
        octets: &'a [u8],
    ) -> Result<(&'a [u8], CertificateRevocationList<'a>, bool), Located<X509Error>> {
        CertificateRevocationList::from_der_marked_located(alloc, octets)
    }

    fn say_members(&self, out: &mut Line, _fingerprints: bool)
        ensures { SaysMembers out.old out.new (list_members (list_of self.now)) }
    {
        list_members(out, self);
    }

    fn refuses(&self) -> bool
        ensures { result ≡ any_in_list (list_of self.now).tbs }
    {
        any_in_list(self)
    }
}

impl<'a> Reported<'a> for X509CertificationRequest<'a> {
    ghost Value = { Signed RequestInfo };

    ghost view = { certification_request_of };

    ghost telling = { of_requests };

    ghost laws = { certification_request_laws.laws.lawful };

    fn kind() -> Kind
        ensures { result ≡ kinds.Request }
    {
        Kind::Request
    }

    fn read(
        alloc: Global,
        octets: &'a [u8],
    ) -> Result<(&'a [u8], X509CertificationRequest<'a>, bool), Located<X509Error>> {
        X509CertificationRequest::from_der_marked_located(alloc, octets)
    }

    fn say_members(&self, out: &mut Line, fingerprints: bool)
        ensures { SaysMembers out.old out.new (request_members fingerprints (certification_request_of self.now)) }
    {
        request_members(out, fingerprints, self);
    }

    fn refuses(&self) -> bool
        ensures { result ≡ any_in_request (certification_request_of self.now).tbs }
    {
        any_in_request(self)
    }
}
