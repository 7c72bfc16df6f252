//! The verdict on what was done to a service, as a value, and the lines that tell it.
ghost use Rattle.std.specs.Prelude.{◌≡◌, ◌≤◌, IfErr, IfOk, OnOk, string_bytes};
ghost use Rattle.sq_audit.specs.Matched.{AreMatched, ArePaired, HasFault};
ghost use Rattle.sq_program.specs.Results.{line_of, race_text, verdict_text};
ghost use Rattle.sq_program.specs.Streams.{stream, EndsWritten};
ghost use Rattle.sq_server.specs.Verdicts.{IsOneRun};
ghost use Rattle.sq_server.specs.inside.Outcomes.{HasToldVerdict};

use sq_audit::check::AuditFault;
use sq_audit::merge::merge;
use sq_audit::parts::Parts;
use sq_lines::counted::Counted;
use sq_program::reports::{no_memory, report_audit};
use sq_program::results::print_line;
use std::alloc::{AllocError, Global};
use std::io::Write;
use std::marker::Model;

/// That what was done to a service is one run: the parts that it left, after an audit of them that found no fault. Its field is of this
/// file alone, and `judged` is the only function here that makes one. The lines that say yes are printed for one alone.
#[derive(Drop)]
pub struct OneRun {
    parts: Box<Parts>,
}

impl Model for OneRun {
    ghost use Rattle.sq_audit.specs.declared.parts.Parts.{Parts};

    ghost Value = { Parts };

    ghost view = { λ r. r.parts.value };
}

// Whether what was done to these parts, sorted by stamp, is one run that leaves them as they are.
fn checked(alloc: Global, parts: &Parts) -> Result<(), AuditFault>
    ensures run { OnOk result (IsOneRun parts.now) }
    ensures fault { IfErr result (HasFault parts.now) }
    ensures out_of_memory { IfErr result (λ f. f ≡ AuditFault.NoMemory → AreMatched parts.now × ArePaired parts.now) }
{
    let _run = merge(alloc, parts)?;
    Ok(())
}

/// These parts, where what was done to them, sorted by stamp, is one run that leaves them as they are. Refused with the fault, or as
/// NoMemory.
pub fn judged(alloc: Global, parts: Box<Parts>) -> Result<OneRun, AuditFault>
    ensures of { IfOk result (λ run. run ≡ parts.value) }
    ensures run { OnOk result (IsOneRun parts.value) }
    ensures fault { IfErr result (HasFault parts.value) }
    ensures out_of_memory { IfErr result (λ f. f ≡ AuditFault.NoMemory → AreMatched parts.value × ArePaired parts.value) }
{
    checked(alloc, &parts)?;
    Ok(OneRun { parts })
}

/// Prints that what was done is one run. Status 0, or 1 for a fault, which standard error is told.
pub fn print_verdict<W: Write, E: Write>(
    _run: &OneRun,
    output: &mut Counted<W>,
    errors: &mut E,
) -> u8
    ensures line { EndsWritten (λ line. line ≡ line_of verdict_text) (stream W.contents output.old output.new) result }
    ensures within { result ≤ 1 }
{
    print_line("{\"Verdict\":\"yes\"}", output, errors)
}

/// Prints that it is one run, or reports why it is none: status 0; 1 where memory is out, or for an output that cannot be written;
/// 3 where the audit found a fault.
pub fn tell_verdict<W: Write, E: Write>(
    judged: Result<OneRun, AuditFault>,
    output: &mut Counted<W>,
    errors: &mut E,
) -> u8
    ensures { HasToldVerdict judged (stream W.contents output.old output.new) result }
{
    match judged {
        Ok(run) => print_verdict(&run, output, errors),
        Err(fault) => report_audit(errors, fault),
    }
}

// What a race prints, without its line feed.
fn race_text(alloc: Global, calls: u64, sent: u64) -> Result<String, AllocError>
    ensures { IfOk result (λ text. string_bytes text ≡ race_text calls sent) }
{
    format!(in alloc; "{{\"Calls\":{calls},\"Sent\":{sent},\"Verdict\":\"yes\"}}")
}

/// Prints the same of a race, with its calls and the sends among them that gave an id. Status 0, or 1 for a fault, which
/// standard error is told.
pub fn print_race<W: Write, E: Write>(
    alloc: Global,
    _run: &OneRun,
    calls: u64,
    sent: u64,
    output: &mut Counted<W>,
    errors: &mut E,
) -> u8
    ensures line { EndsWritten (λ line. line ≡ line_of (race_text calls sent)) (stream W.contents output.old output.new) result }
    ensures within { result ≤ 1 }
{
    let Ok(text) = race_text(alloc, calls, sent) else {
        return no_memory(errors);
    };
    print_line(text.as_str(), output, errors)
}
