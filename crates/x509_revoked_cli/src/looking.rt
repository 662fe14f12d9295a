//! What a list says of serials, by the index that is kept of it, where one is asked for.

ghost use Rattle.std.specs.Prelude.{◌≡◌, IfErr, MatchResult, Some, option_map};
ghost use Rattle.x509_lists.specs.ListEntries.{tbs_entries_of};
ghost use Rattle.x509_revoked.specs.OctetsIndex.{indexed_entries};
ghost use Rattle.x509_revoked_cli.specs.Runs.{IsReportOf, Stopped};
ghost use Rattle.x509_revoked_cli.specs.Search.{LooksThrough};

use crate::issuers::entries_under;
use crate::options::Options;
use crate::report::{Report, report_serials};
use crate::search::Search;
use crate::serials::Serial;
use crate::stop::Stop;
use std::{fmt, fs, io};
use x509_lists::{TbsCertListEntries, parse_x509_crl_entries_located};
use x509_revoked::{EntriesIndex, IndexError, RevocationIndex};

/// Reading, writing or memory failed, or the list was refused.
pub const STOPPED: u8 = 3;

/// With more serials than these an index is built, if none is kept.
const FEW: usize = 16;

/// Tells on standard error why the program stops, and gives its status.
pub fn stopped<W: fmt::Display>(rt: &HostRuntime, of: &str, why: &W) -> u8
    ensures { Stopped result }
{
    let _ = eprintln!(rt; "x509_revoked: {of}: {why}");
    STOPPED
}

/// Writes an index into its file.
fn keep(rt: &HostRuntime, file: &str, index: &EntriesIndex<'_>) -> Result<(), u8>
    ensures { IfErr result Stopped }
{
    match index.to_bytes(rt.alloc()) {
        Ok(octets) => match fs::write(rt, file, octets.as_slice()) {
            Ok(()) => Ok(()),
            Err(why) => Err(stopped(rt, file, &why)),
        },
        Err(why) => Err(stopped(rt, file, &why)),
    }
}

/// The index of a list: the kept one, where it fits, else one made anew, which is kept then. A file that is no index stays as it is, and ends the run.
fn kept_index<'a>(
    rt: &HostRuntime,
    file: &str,
    tbs: &TbsCertListEntries<'a>,
) -> Result<EntriesIndex<'a>, u8>
    ensures { MatchResult result (λ index. indexed_entries index ≡ (tbs_entries_of tbs.now).revoked_certificates) Stopped }
{
    let entries = &tbs.revoked_certificates;
    match fs::read(rt, file) {
        Ok(octets) => match EntriesIndex::from_bytes(rt.alloc(), entries, octets.as_slice()) {
            Ok(index) => return Ok(index),
            Err(IndexError::OutOfMemory) => return Err(stopped(rt, file, &Stop::Memory.why())),
            // what isn't an index may be anything of the user's
            Err(IndexError::NotAnIndex) => return Err(stopped(rt, file, &IndexError::NotAnIndex)),
            Err(why) => {
                let _ = eprintln!(rt; "x509_revoked: {file}: {why}; made anew");
            }
        },
        Err(why) => {
            if why.kind() != io::ErrorKind::NotFound {
                return Err(stopped(rt, file, &why));
            }
        }
    }
    match EntriesIndex::build(rt.alloc(), entries) {
        Ok(index) => {
            keep(rt, file, &index)?;
            Ok(index)
        }
        Err(why) => Err(stopped(rt, file, &why)),
    }
}

/// The entries of issuers with this text, and their index.
fn search_under<'a>(
    rt: &HostRuntime,
    list: &str,
    tbs: &TbsCertListEntries<'a>,
    text: &str,
) -> Result<Search<'a>, u8>
    ensures { MatchResult result (LooksThrough (tbs_entries_of tbs.now) (Some text.now)) Stopped }
{
    let entries = match entries_under(rt.alloc(), tbs, text) {
        Ok(entries) => entries,
        Err(stop) => return Err(stopped(rt, list, &stop.why())),
    };
    if entries.is_empty() {
        let _ = eprintln!(rt; "x509_revoked: {text}: no entry is of an issuer of this name");
    }
    match RevocationIndex::from_entries(rt.alloc(), entries.as_slice()) {
        Ok(index) => Ok(Search::OfIssuer(entries, index)),
        Err(_) => Err(stopped(rt, list, &Stop::Memory.why())),
    }
}

/// Where the entries are looked for.
fn search_for<'a>(
    rt: &HostRuntime,
    options: &Options<'_>,
    tbs: &TbsCertListEntries<'a>,
    count: usize,
) -> Result<Search<'a>, u8>
    ensures { MatchResult result (LooksThrough (tbs_entries_of tbs.now) (option_map (λ text. text.now) options.now.issuer)) Stopped }
{
    let entries = &tbs.revoked_certificates;
    if let Some(text) = options.issuer {
        return search_under(rt, options.list, tbs, text);
    }
    if let Some(file) = options.index {
        return Ok(Search::Index(kept_index(rt, file, tbs)?));
    }
    if count > FEW {
        if let Ok(index) = EntriesIndex::build(rt.alloc(), entries) {
            return Ok(Search::Index(index));
        }
    }
    Ok(Search::Scan(*entries))
}

/// The lines of serials by the list at the front of the octets. The error is the status, where there are none.
pub fn lines_of_list(
    rt: &HostRuntime,
    options: &Options<'_>,
    octets: &[u8],
    serials: &[Serial<'_>],
) -> Result<Report, u8>
    ensures { MatchResult result (IsReportOf octets.now (option_map (λ text. text.now) options.now.issuer) serials.now) Stopped }
{
    let list = match parse_x509_crl_entries_located(rt.alloc(), octets) {
        Ok((_, list)) => list,
        Err(why) => return Err(stopped(rt, options.list, &why)),
    };
    let search = search_for(rt, options, &list.tbs_cert_list, serials.len())?;
    match report_serials(rt.alloc(), &search, serials) {
        Ok(report) => Ok(report),
        Err(stop) => Err(stopped(rt, options.list, &stop.why())),
    }
}
