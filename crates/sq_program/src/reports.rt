//! What standard error is told, and the status that goes with it.
ghost use Rattle.std.specs.Prelude.{◌≡◌, ◌≢◌, ◌⊎◌, ℕ, codes};
ghost use Rattle.sq_base.specs.StampValue.{StampValue};
ghost use Rattle.sq_program.specs.Faults.{failure_status};
ghost use Rattle.sq_program.specs.inside.Faults.{fault_name, fault_count, failure_text};

use clap::Error;
use sq_merge::AuditFault;
use sq_wire::run::ServeFault;
use std::io::Write;

/// Why the program ends, where no requests are counted.
#[derive(Clone, Copy, PartialEq, Eq, Debug)]
pub enum Failure {
    /// Options outside their ranges, or too few queues for a race.
    BadOptions,
    /// No connections can be taken at the address, or it is none.
    CannotListen,
    /// A connection could not be taken.
    AcceptFailed,
}

// What standard error calls a fault.
fn name_of(fault: ServeFault) -> &'static str
    ensures { result.now ≡ fault_name fault }
{
    match fault {
        ServeFault::Read(_) => "read failed",
        ServeFault::Write(_) => "write failed",
        ServeFault::NoMemory(_) => "no memory",
        ServeFault::TooLong(_) => "line too long",
    }
}

// How many lines were answered before a fault.
fn count_of(fault: ServeFault) -> u64
    ensures { result ≡ fault_count fault }
{
    match fault {
        ServeFault::Read(count)
        | ServeFault::Write(count)
        | ServeFault::NoMemory(count)
        | ServeFault::TooLong(count) => count,
    }
}

/// Reports why a run ended early. Nobody can be told that this failed.
pub fn report<E: Write>(errors: &mut E, fault: ServeFault) -> u8
    ensures { result ≡ 1 }
{
    let (name, count) = (name_of(fault), count_of(fault));
    let _ = writeln!(errors, "sqd: {name} after {count} requests");
    let _ = errors.flush();
    1
}

/// Reports that there was no memory before the first request.
pub fn no_memory<E: Write>(errors: &mut E) -> u8
    ensures { result ≡ 1 }
{
    report(errors, ServeFault::NoMemory(0))
}

/// Reports that the words are no text.
pub fn no_text<E: Write>(errors: &mut E) -> u8
    ensures { result ≡ 2 }
{
    let _ = errors.write_all(b"error: invalid UTF-8 was detected in one or more arguments\n");
    let _ = errors.flush();
    2
}

/// Reports a mistake in the words.
pub fn explain<E: Write>(error: &Error, errors: &mut E) -> u8
    ensures { result ≡ 2 }
{
    let _ = write!(errors, "{error}");
    let _ = errors.flush();
    2
}

// What standard error calls a failure, and the status that goes with it.
fn told(failure: Failure) -> (&'static str, u8)
    ensures text { result.0.now ≡ failure_text failure }
    ensures status { result.1 ≡ failure_status failure }
{
    match failure {
        Failure::BadOptions => ("bad options", 2),
        Failure::CannotListen => ("cannot listen", 1),
        Failure::AcceptFailed => ("accept failed", 1),
    }
}

/// Reports a failure.
pub fn fail<E: Write>(errors: &mut E, failure: Failure) -> u8
    ensures { result ≡ failure_status failure }
{
    let (text, status) = told(failure);
    let _ = writeln!(errors, "sqd: {text}");
    let _ = errors.flush();
    status
}

// What standard error calls a fault of an audit.
fn audit_fault_name(fault: AuditFault) -> &'static str
    ensures memory { fault ≡ AuditFault.NoMemory → result.now ≡ codes "no memory in audit" }
    ensures missing { (actor index : ℕ) → fault ≡ AuditFault.RecordMissing actor index → result.now ≡ codes "audit: RecordMissing" }
    ensures twice { (actor index : ℕ) → fault ≡ AuditFault.RecordTwice actor index → result.now ≡ codes "audit: RecordTwice" }
    ensures leave { (stamp : StampValue) → fault ≡ AuditFault.LeaveUnmatched stamp → result.now ≡ codes "audit: LeaveUnmatched" }
    ensures enter { (stamp : StampValue) → fault ≡ AuditFault.EnterUnmatched stamp → result.now ≡ codes "audit: EnterUnmatched" }
{
    match fault {
        AuditFault::NoMemory => "no memory in audit",
        AuditFault::RecordMissing(_, _) => "audit: RecordMissing",
        AuditFault::RecordTwice(_, _) => "audit: RecordTwice",
        AuditFault::LeaveUnmatched(_) => "audit: LeaveUnmatched",
        AuditFault::EnterUnmatched(_) => "audit: EnterUnmatched",
    }
}

/// Reports why there is no audit: memory was out, or the audit found a fault.
pub fn report_audit<E: Write>(errors: &mut E, fault: AuditFault) -> u8
    ensures { ((fault ≡ AuditFault.NoMemory) × (result ≡ 1)) ⊎ ((fault ≢ AuditFault.NoMemory) × (result ≡ 3)) }
{
    let name = audit_fault_name(fault);
    let _ = writeln!(errors, "sqd: {name}");
    let _ = errors.flush();
    match &fault {
        AuditFault::NoMemory => 1,
        AuditFault::RecordMissing(_, _)
        | AuditFault::RecordTwice(_, _)
        | AuditFault::LeaveUnmatched(_)
        | AuditFault::EnterUnmatched(_) => 3,
    }
}
