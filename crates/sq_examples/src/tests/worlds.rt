//! A world, which is a service of one thread, and the actors that call it.
use super::clients::Client;
use sq_audit::merge::merge;
use sq_audit::parts::Parts;
use sq_base::message_id::MessageId;
use sq_base::refusal::Refusal;
use sq_calls::calls::{Answer, Call};
use sq_calls::turns::{Turn, Turned};
use sq_merge::world::World;
use sq_model::options::Options;
use sq_model::place::Place;
use sq_places::message_pass::place_of;
use std::alloc::Global;
use std::marker::Model;
use std::process::Abort;

/// Queues of one partition each.
pub fn options() -> Options {
    Options {
        homes: 1,
        sample: 1,
        queues: 64,
        rows: 1000,
        flights: 100,
        transit: 10,
        seed: 0,
    }
}

/// A world, in a box: a function that has one on its own stack is proved with all that it is made of.
#[derive(Drop)]
pub struct Opened {
    alloc: Global,
    world: Box<World>,
}

impl Model for Opened {
    ghost use Rattle.std.specs.Prelude.{⊤};

    ghost Value = { ⊤ };

    ghost view = { λ o. tt };
}

/// An actor of a world, whose clock says so many ms.
#[derive(Drop)]
pub struct Actor<'a> {
    opened: &'a mut Opened,
    number: u32,
    now: u64,
}

impl Opened {
    /// Without queues.
    pub fn new(rt: &impl Abort, alloc: Global) -> Opened {
        let world = World::new(alloc, options()).expect(rt, "options in their ranges");
        Opened {
            alloc,
            world: Box::new(alloc, world).expect(rt, "memory"),
        }
    }

    /// Who calls next, and when.
    pub fn at(&mut self, number: u32, now: u64) -> Actor<'_> {
        Actor {
            opened: self,
            number,
            now,
        }
    }

    // Does what an actor asks.
    fn call(&mut self, number: u32, now: u64, call: &Call) -> Result<Answer, Refusal> {
        self.world.call(self.alloc, number, now, call)
    }

    /// Does a turn of a mover when its clock says so many ms; whether this is what it did.
    pub fn does(&mut self, now: u64, turn: Turn, what: Turned) -> bool {
        matches!(self.world.turn(self.alloc, 9, now, &turn), Ok(did) if did == what)
    }

    /// Ends it, holds what all actors did against the histories, and says where a message is.
    pub fn place(self, rt: &impl Abort, id: &MessageId) -> Option<Place> {
        let parts = Box::into_inner(self.world).parts();
        let parts = Box::new(self.alloc, parts).expect(rt, "memory");
        place_in(rt, self.alloc, &parts, id)
    }
}

// Where a message is in the one run of all that was done.
fn place_in(rt: &impl Abort, alloc: Global, parts: &Parts, id: &MessageId) -> Option<Place> {
    let run = merge(alloc, parts).expect(rt, "one run");
    place_of(&run, id)
}

impl<'a> Client for Actor<'a> {
    fn call(&mut self, call: &Call) -> Result<Answer, Refusal> {
        self.opened.call(self.number, self.now, call)
    }
}
