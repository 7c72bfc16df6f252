//! How the lines are answered, and what is told at the end.
ghost use Rattle.std.specs.Prelude.{◌≡◌};
ghost use Rattle.sq_queue.specs.Seats.{IsNamedBy};

use crate::memory::{ByWorld, serve_from_memory};
use crate::stage::Stage;
use crate::trial::{Failures, Trial};
use sq_audit::merge::merge;
use sq_audit::parts::Parts;
use sq_base::refusal::Refusal;
use sq_flags::flags::ScriptMode;
use sq_lines::counted::Counted;
use sq_lines::put::put_line;
use sq_program::reports::{Failure, fail, no_memory, report, report_audit};
use sq_server::served::Blanks;
use sq_server::verdict::{judged, tell_verdict};
use sq_store::slots::SlotStore;
use sq_wire::audit::audit_text;
use sq_wire::run::{ServeFault, answer_lines};
use std::alloc::Global;
use std::io::{Read, Write};
use std::sync::Wait;
use std::sync::atomic::AtomicU64;
use std::sync::ledger::Ledger;

// Answers all lines.
fn answered<'a, I: Read, W: Write, R: Wait, D: Ledger, T: Ledger>(
    rt: &R,
    alloc: Global,
    stage: &mut Stage<'a, R, D, T, SlotStore>,
    trial: Trial,
    input: &mut Counted<I>,
    output: &mut Counted<W>,
) -> Result<u64, ServeFault> {
    match trial {
        Trial::Serve(calls) => serve_from_memory(rt, alloc, stage, calls, input, output),
        _ => answer_lines(alloc, input, output, stage),
    }
}

// What is told where no world or service can be made.
fn not_made<E: Write>(refusal: Refusal, errors: &mut E) -> u8 {
    match refusal {
        Refusal::InvalidParameterValue => fail(errors, Failure::BadOptions),
        _ => no_memory(errors),
    }
}

// The status of a run that told this.
fn status_of<E: Write>(told: Result<u64, ServeFault>, errors: &mut E) -> u8 {
    match told {
        Ok(_) => 0,
        Err(fault) => report(errors, fault),
    }
}

// After how many answers the run is told: after all, where that is asked for; of lines from memory also after a fault.
fn asked_after(mode: &ScriptMode, trial: Trial, told: Result<u64, ServeFault>) -> Option<u64> {
    if !mode.audit {
        return None;
    }
    match (told, trial) {
        (Ok(answered), _) => Some(answered),
        (Err(_), Trial::Serve(_) | Trial::World(_)) => Some(0),
        (Err(_), _) => None,
    }
}

// Holds the parts against one another, and tells the run after so many answers where that is asked for.
fn audited<W: Write, E: Write>(
    alloc: Global,
    parts: &Parts,
    asked_after: Option<u64>,
    output: &mut Counted<W>,
    errors: &mut E,
) -> u8 {
    let run = match merge(alloc, parts) {
        Ok(run) => run,
        Err(fault) => return report_audit(errors, fault),
    };
    let Some(answered) = asked_after else {
        return 0;
    };
    let Ok(text) = audit_text(alloc, &run) else {
        return no_memory(errors);
    };
    match put_line(output, text.as_bytes()) {
        Ok(()) => 0,
        Err(_) => report(errors, ServeFault::Write(answered)),
    }
}

// What a server tells of these parts, without one record.
fn verdict_without<W: Write, E: Write>(
    alloc: Global,
    parts: Box<Parts>,
    dropped: (u32, u64),
    output: &mut Counted<W>,
    errors: &mut E,
) -> u8 {
    let mut parts = parts;
    parts.drop_record(dropped.0, dropped.1);
    tell_verdict(judged(alloc, parts), output, errors)
}

// Answers each line by a world, from memory.
fn answer_by_world<I: Read, W: Write, E: Write>(
    alloc: Global,
    mode: &ScriptMode,
    calls: Failures,
    input: &mut Counted<I>,
    output: &mut Counted<W>,
    errors: &mut E,
) -> u8 {
    let mut world = match ByWorld::new(alloc, mode.options) {
        Ok(world) => world,
        Err(refusal) => return not_made(refusal, errors),
    };
    let told = world.answer(alloc, calls, input, output);
    let status = status_of(told, errors);
    let Some(parts) = world.parts(alloc) else {
        return no_memory(errors);
    };
    let asked_after = asked_after(mode, Trial::World(calls), told);
    audited(alloc, &parts, asked_after, output, errors).max(status)
}

// Answers each line by a service.
fn answer_by_service<R: Wait, I: Read, W: Write, E: Write, D: Ledger, T: Ledger>(
    rt: &R,
    alloc: Global,
    mode: &ScriptMode,
    trial: Trial,
    blanks: Blanks,
    input: &mut Counted<I>,
    output: &mut Counted<W>,
    errors: &mut E,
) -> u8
    requires of_directory { IsNamedBy D.name D.parts blanks.directory }
    requires of_ledger { IsNamedBy T.name T.parts blanks.ledger }
{
    let time = AtomicU64::new(0);
    let made: Result<Stage<'_, R, D, T, SlotStore>, Refusal> = Stage::new(
        rt,
        alloc,
        mode.options,
        trial,
        &time,
        blanks,
    );
    let mut stage = match made {
        Ok(stage) => stage,
        Err(refusal) => return not_made(refusal, errors),
    };
    let told = answered(rt, alloc, &mut stage, trial, input, output);
    let status = status_of(told, errors);
    let Some(parts) = stage.finish(alloc) else {
        return no_memory(errors);
    };
    match trial {
        Trial::Drop { actor, number } => {
            verdict_without(alloc, parts, (actor, number), output, errors)
        }
        _ => audited(
            alloc,
            &parts,
            asked_after(mode, trial, told),
            output,
            errors,
        )
        .max(status),
    }
}

/// Answers each line of a reader by a service, whose counts have names, or by a world, and tells how it ended: as `sqd script`, but that a
/// fault of the audit is status 3.
pub fn answer_all<R: Wait, I: Read, W: Write, E: Write, D: Ledger, T: Ledger>(
    rt: &R,
    alloc: Global,
    mode: &ScriptMode,
    trial: Trial,
    blanks: Blanks,
    input: &mut Counted<I>,
    output: &mut Counted<W>,
    errors: &mut E,
) -> u8
    requires of_directory { IsNamedBy D.name D.parts blanks.directory }
    requires of_ledger { IsNamedBy T.name T.parts blanks.ledger }
{
    match trial {
        Trial::World(calls) => answer_by_world(alloc, mode, calls, input, output, errors),
        _ => answer_by_service::<_, _, _, _, D, T>(
            rt, alloc, mode, trial, blanks, input, output, errors,
        ),
    }
}
