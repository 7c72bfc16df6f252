//! Lines that are answered from memory, by a session of a service or by a world.
use crate::stage::Stage;
use crate::trial::Failures;
use sq_audit::parts::Parts;
use sq_base::refusal::Refusal;
use sq_lines::counted::Counted;
use sq_lines::put::put_out;
use sq_merge::world::World;
use sq_model::options::Options;
use sq_store::slots::SlotStore;
use sq_tests_kit::hidden::Hidden;
use sq_tests_kit::streams::{Bytewise, Piecewise};
use sq_wire::long_lines::LongLines;
use sq_wire::run::{ServeFault, run_script};
use sq_wire::serve::serve;
use std::alloc::Global;
use std::io::{Read, Write};
use std::sync::Wait;
use std::sync::ledger::Ledger;

// All that a reader gives.
fn all_of<I: Read>(alloc: Global, input: &mut I) -> Result<Vec<u8>, ServeFault> {
    let mut bytes = Vec::new(alloc);
    match input.read_to_end(&mut bytes) {
        Ok(_) => Ok(bytes),
        Err(_) => Err(ServeFault::Read(0)),
    }
}

// A reader of these bytes, a byte a call.
fn reader<'a>(bytes: &'a Vec<u8>, calls: Failures) -> Counted<Piecewise<'a>> {
    Counted::new(Piecewise::new(bytes.as_slice(), 1, calls.read))
}

// A writer that takes a byte a call.
fn writer(alloc: Global, calls: Failures) -> Counted<Bytewise> {
    Counted::new(if calls.is_silent {
        Bytewise::silent(alloc, calls.write)
    } else {
        Bytewise::new(alloc, calls.write)
    })
}

// What a run told, once what it wrote is written.
fn shown<W: Write>(
    output: &mut Counted<W>,
    writer: &Counted<Bytewise>,
    told: Result<u64, ServeFault>,
) -> Result<u64, ServeFault> {
    match put_out(output, writer.inner().written.as_slice(), b"") {
        Ok(()) => told,
        Err(_) => Err(ServeFault::Write(0)),
    }
}

/// Serves the lines of a reader as a server does those of a connection, with a reader and a writer of one byte a call, of which
/// these calls fail; then it writes what was written.
pub fn serve_from_memory<'a, I: Read, W: Write, R: Wait, D: Ledger, T: Ledger>(
    rt: &R,
    alloc: Global,
    stage: &mut Stage<'a, R, D, T, SlotStore>,
    calls: Failures,
    input: &mut I,
    output: &mut Counted<W>,
) -> Result<u64, ServeFault> {
    let bytes = all_of(alloc, input)?;
    let mut reader = reader(&bytes, calls);
    let mut writer = writer(alloc, calls);
    let Ok(long_lines) = LongLines::new(alloc) else {
        return Err(ServeFault::NoMemory(0));
    };
    let Ok((service, session)) = stage.first(alloc) else {
        return Err(ServeFault::NoMemory(0));
    };
    let told = serve(
        alloc,
        rt,
        &mut reader,
        &mut writer,
        service,
        session,
        &long_lines,
    );
    shown(output, &writer, told)
}

/// A world that answers lines from memory.
#[derive(Drop)]
pub struct ByWorld {
    world: Hidden<World>,
}

impl ByWorld {
    /// A world by these options.
    pub fn new(alloc: Global, options: Options) -> Result<ByWorld, Refusal> {
        Ok(ByWorld {
            world: Hidden::new(alloc, World::new(alloc, options)?)?,
        })
    }

    /// Answers the lines of a reader as a script, with a reader and a writer of one byte a call, of which these calls fail; then
    /// it writes what was written.
    pub fn answer<I: Read, W: Write>(
        &mut self,
        alloc: Global,
        calls: Failures,
        input: &mut I,
        output: &mut Counted<W>,
    ) -> Result<u64, ServeFault> {
        let bytes = all_of(alloc, input)?;
        let mut reader = reader(&bytes, calls);
        let mut writer = writer(alloc, calls);
        let told = run_script(alloc, &mut reader, &mut writer, self.world.get_mut());
        shown(output, &writer, told)
    }

    /// Its parts. None for want of memory.
    pub fn parts(self, alloc: Global) -> Option<Box<Parts>> {
        Box::new(alloc, self.world.into_inner().parts()).ok()
    }
}
