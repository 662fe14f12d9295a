//! From a command and what a source gives to what a sink takes.

ghost use Rattle.std.specs.Prelude.{◌≡◌, ◌<◌, ◌≤◌, IfOk, OnOk, IfErr};
ghost use Rattle.std.specs.Io.KnownBytes.{Appends};
ghost use Rattle.x509_show.specs.Parts.{IsDrainedOf};
ghost use Rattle.x509_show.specs.Runs.{IsAnswered, IsStopped, IsOnlyCause, ReadStops, WriteStops};
ghost use Rattle.x509_show.specs.Commands.{IsCommand};
ghost use Rattle.x509_show.specs.declared.stop.Stop.{Stop};

use crate::commands::Command;
use crate::parts::{Sink, Source};
use crate::report::{USAGE, WRONG_WORDS};
use crate::stop::Stop;
use std::alloc::Global;

/// The exit status of a run that could not read its input or write its text, or that had no memory.
pub const STOPPED: u8 = 3;

/// All that the source has still to give: a read of no bytes is the end.
#[tactic(auto, using(crate::proofs::Transfers::transfers))]
fn read_whole<S: Source>(alloc: Global, reader: &mut S) -> Result<Vec<u8>, Stop>
    ensures all { IfOk result
        (λ v. IsDrainedOf (S.remaining reader.old) (S.remaining reader.new) v.items) }
    ensures well { OnOk result (S.has_failed reader.new ≡ S.has_failed reader.old) }
    ensures stopped { IfErr result (ReadStops (S.has_failed reader.old) (S.has_failed reader.new)) }
{
    let mut held = Vec::new(alloc);
    let mut chunk = [0u8; 4096];
    'chunks: loop {
        match reader.read(&mut chunk) {
            Err(_) => return Err(Stop::Read),
            Ok(0) => return Ok(held),
            Ok(n) => held.extend_from_slice(&chunk[..n])?,
        }
    }
}

/// Writes all of the text. A write that takes no byte has failed.
fn write_whole<W: Sink>(writer: &mut W, text: &[u8]) -> Result<(), Stop>
    ensures all { OnOk result (Appends (W.written writer.old) (W.written writer.new) text.now) }
    ensures well { OnOk result (W.has_failed writer.new ≡ W.has_failed writer.old) }
    ensures stopped { IfErr result
        (WriteStops (W.has_failed writer.new) (W.written writer.old) (W.written writer.new) text.now) }
{
    let mut taken = 0;
    'text: while taken < text.len() {
        match writer.write(&text[taken..]) {
            Err(_) => return Err(Stop::Write),
            Ok(0) => return Err(Stop::Write),
            Ok(n) => taken += n,
        }
    }
    Ok(())
}

/// Writes the report of a command on what the source gives, and answers its status: 0 accepted, 1 refused, 2 where the
/// command is no word of ours, and then nothing was read. The errors are those of [`Stop`].
pub fn respond<S: Source, W: Sink>(
    alloc: Global,
    command: &str,
    reader: &mut S,
    writer: &mut W,
) -> Result<u8, Stop>
    ensures status { IfOk result (λ status. status < 3) }
    ensures answered { IfOk result
        (IsAnswered command.now (S.remaining reader.old) (S.remaining reader.new)
        (W.written writer.old) (W.written writer.new)) }
    ensures unread { ¬ IsCommand command.now → reader.new ≡ reader.old }
    ensures unread_at_2 { IfOk result (λ status. status ≡ 2 → reader.new ≡ reader.old) }
    ensures reader_well { OnOk result (S.has_failed reader.new ≡ S.has_failed reader.old) }
    ensures writer_well { OnOk result (W.has_failed writer.new ≡ W.has_failed writer.old) }
    ensures stopped { IfErr result
        (IsStopped command.now (S.has_failed reader.old) (S.has_failed reader.new)
        (S.remaining reader.old) (S.remaining reader.new)
        (W.has_failed writer.old) (W.has_failed writer.new)
        (W.written writer.old) (W.written writer.new)) }
{
    let Some(command) = Command::of_word(command) else {
        write_whole(writer, USAGE)?;
        return Ok(WRONG_WORDS);
    };
    let input = read_whole(alloc, reader)?;
    let report = command.report(alloc, &input)?;
    write_whole(writer, report.text().as_bytes())?;
    Ok(report.status())
}

/// Writes the report of a command on what the source gives, and answers the exit status: that of the report, or 3
/// where a read or a write failed or memory was refused, with no further text.
pub fn run<S: Source, W: Sink>(alloc: Global, command: &str, reader: &mut S, writer: &mut W) -> u8
    ensures range { result ≤ 3 }
    ensures answered { result < 3
        → IsAnswered command.now (S.remaining reader.old) (S.remaining reader.new)
        (W.written writer.old) (W.written writer.new) result }
    ensures unread { ¬ IsCommand command.now → reader.new ≡ reader.old }
    ensures unread_at_2 { result ≡ 2 → reader.new ≡ reader.old }
    ensures reader_well { result < 3 → S.has_failed reader.new ≡ S.has_failed reader.old }
    ensures writer_well { result < 3 → W.has_failed writer.new ≡ W.has_failed writer.old }
    ensures stopped { result ≡ 3 → (stop : Stop)
        × IsStopped command.now (S.has_failed reader.old) (S.has_failed reader.new)
        (S.remaining reader.old) (S.remaining reader.new)
        (W.has_failed writer.old) (W.has_failed writer.new)
        (W.written writer.old) (W.written writer.new) stop }
{
    match respond(alloc, command, reader, writer) {
        Ok(status) => status,
        Err(_) => STOPPED,
    }
}

/// Why a run stopped, by what its reader and its writer remember. Neither had failed before the run.
pub fn cause<S: Source, W: Sink>(reader: &S, writer: &W) -> Stop
    ensures { IsOnlyCause (S.has_failed reader.now) (W.has_failed writer.now) result }
{
    if reader.failed() {
        Stop::Read
    } else if writer.failed() {
        Stop::Write
    } else {
        Stop::Memory
    }
}
