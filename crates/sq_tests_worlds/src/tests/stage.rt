//! A world under test, hidden. A function that has a step, a call or an answer on its own stack is proved with all that it is made of too:
//! few functions have.
use super::evidence::Evidence;
use sq_base::refusal::Refusal;
use sq_calls::calls::{Answer, Call};
use sq_calls::turns::Turn;
use sq_lines::counted::Counted;
use sq_merge::world::World;
use sq_model::directory::DirectoryReply;
use sq_model::ledger::LedgerReply;
use sq_model::options::Options;
use sq_model::replies::HomeReply;
use sq_model::task::NamedQueue;
use sq_steps::act::{Act, Outcome, Step};
use sq_tests_kit::asks::{Answers, answer_of};
use sq_tests_kit::hidden::Hidden;
use sq_tests_kit::streams::{Bytewise, Piecewise};
use sq_wire::run::{ServeFault, run_script};
use std::alloc::Global;
use std::io::{Read, Write};
use std::process::Abort;

/// A world, by which a service is tried.
#[derive(Drop)]
pub struct Stage {
    alloc: Global,
    world: Hidden<World>,
}

/// Four queues of so many homes, all of which are asked.
pub fn options(homes: u32, rows: u32, flights: u32) -> Options {
    Options {
        homes,
        sample: homes,
        queues: 4,
        rows,
        flights,
        transit: 10,
        seed: 7,
    }
}

fn answer_of_home(reply: &HomeReply) -> Answers {
    match reply {
        HomeReply::Left(_) | HomeReply::Entered(_) => Answers::Moved,
        _ => answer_of(reply),
    }
}

// Of each queue the number, as six digits, and the first letter of its name.
fn numbers_of(queues: &[NamedQueue]) -> u64 {
    let mut all = 0u64;
    for queue in queues {
        let letter = queue.name.as_bytes()[0] as u64;
        all = all
            .saturating_mul(1_000_000)
            .saturating_add(queue.number.get() * 1000 + letter);
    }
    all
}

fn answer_of_step(outcome: &Outcome) -> Answers {
    match outcome {
        Outcome::Home(reply) => answer_of_home(reply),
        Outcome::Directory(DirectoryReply::Made(made)) => Answers::Number(made.queue.get()),
        Outcome::Ledger(LedgerReply::Started(number)) => Answers::Number(number.get()),
        Outcome::Ledger(LedgerReply::Finished) => Answers::Done,
        Outcome::Task(task) | Outcome::LastTask(Some(task)) => Answers::Number(task.number.get()),
        Outcome::LastTask(None) | Outcome::Nothing => Answers::Nothing,
        Outcome::Named(queues) => Answers::Number(numbers_of(queues.as_slice())),
        _ => Answers::Other,
    }
}

impl Stage {
    pub fn new(rt: &impl Abort, alloc: Global, options: Options) -> Stage {
        let world = World::new(alloc, options).expect(rt, "a world");
        Stage {
            alloc,
            world: Hidden::new(alloc, world).expect(rt, "memory"),
        }
    }

    /// What an actor is answered that does this at a clock reading in ms.
    pub fn told(&mut self, actor: u32, clock: u64, act: Act) -> Answers {
        self.answer_to(&Step { actor, clock, act })
    }

    // What is answered to a step.
    fn answer_to(&mut self, step: &Step) -> Answers {
        match self.world.get_mut().step(self.alloc, step) {
            Ok(outcome) => answer_of_step(&outcome),
            Err(refusal) => Answers::Refused(refusal),
        }
    }

    /// Does steps, and tells how many were not refused.
    pub fn run(&mut self, steps: &[Step]) -> u64 {
        self.world.get_mut().run(self.alloc, steps)
    }

    /// Does what a client asks, up to so many steps.
    pub fn until(
        &mut self,
        actor: u32,
        clock: u64,
        call: &Call,
        steps: u64,
    ) -> Result<Option<Answer>, Refusal> {
        self.world
            .get_mut()
            .call_until(self.alloc, actor, clock, call, steps)
    }

    /// Does a turn, whatever it is answered.
    pub fn turn(&mut self, actor: u32, clock: u64, turn: &Turn) {
        let _ = self.world.get_mut().turn(self.alloc, actor, clock, turn);
    }

    /// Answers the lines of a reader.
    pub fn answer<R: Read, W: Write>(
        &mut self,
        reader: &mut Counted<R>,
        writer: &mut Counted<W>,
    ) -> Result<u64, ServeFault> {
        run_script(self.alloc, reader, writer, self.world.get_mut())
    }

    /// Whether a line of a client or a mover is done, and answered with this reply where one is named.
    pub fn is_answered(&mut self, line: &str, want: Option<&str>) -> bool {
        let mut reader = Counted::new(Piecewise::new(line.as_bytes(), 4, 0));
        let mut writer = Counted::new(Bytewise::new(self.alloc, 0));
        let done = self.answer(&mut reader, &mut writer).is_ok();
        match (writer.inner().written.as_slice(), want) {
            ([text @ .., b'\n'], Some(want)) => done && text == want.as_bytes(),
            (_, want) => done && want.is_none(),
        }
    }

    /// What it leaves.
    pub fn evidence(self, rt: &impl Abort) -> Evidence {
        let parts = self.world.into_inner().parts();
        Evidence::new(rt, self.alloc, parts)
    }
}
