//! A line of a script and its reply.
ghost use Rattle.std.proofs.Common.{◌∙◌};
ghost use Rattle.std.specs.Prelude.{◌≡◌, refl, IfOk, OnErr};
ghost use Rattle.sq_wire.specs.Scripts.{script_at, IsDoneAt, LineAnswered, LineReplies, LineUnanswered};

use crate::answering::Answering;
use sq_base::refusal::Refusal;
use sq_calls::calls::{Answered, Asked};
use sq_json::Scratch;
use sq_merge::world::World;
use sq_replies::reply::reply_text;
use sq_replies::text::Text;
use sq_requests::request::read_request;
use std::alloc::{AllocError, Global};

// Does what a line asks; its clock reading stands for the lines after it that have none.
fn tell(
    alloc: Global,
    scratch: &mut Scratch,
    world: &mut World,
    clock: &mut u64,
    line: &[u8],
) -> Result<Answered, Refusal>
    ensures { LineAnswered (script_at world.old clock.old) line.now result (script_at world.new clock.new) }
{
    let request = read_request(alloc, scratch, line)?;
    if let Some(reading) = request.clock {
        *clock = reading;
    }
    do_at(alloc, world, request.actor, *clock, &request.asked)
}

// Does a call or a turn by an actor at a clock reading.
fn do_at(
    alloc: Global,
    world: &mut World,
    actor: u32,
    clock: u64,
    asked: &Asked,
) -> Result<Answered, Refusal>
    ensures { IsDoneAt actor clock world.old asked.now result world.new }
{
    match asked {
        Asked::Call(call) => {
            let answer = world.call(alloc, actor, clock, call)?;
            Ok(Answered::Call(answer))
        }
        Asked::Turn(turn) => {
            let turned = world.turn(alloc, actor, clock, turn)?;
            Ok(Answered::Turn(turned))
        }
    }
}

/// Does what a line asks, and gives the text of its reply, without its line feed. Where there is no memory for
/// the text of an answer, the call is done all the same; the word of a turn takes none.
#[tactic(auto, unfolding(crate::specs::Scripts::LineReplies, crate::specs::Scripts::LineUnanswered))]
pub fn answer(
    alloc: Global,
    scratch: &mut Scratch,
    world: &mut World,
    clock: &mut u64,
    line: &[u8],
) -> Result<Text, AllocError>
    ensures ok { IfOk result (λ text. LineReplies (script_at world.old clock.old) line.now text (script_at world.new clock.new)) }
    ensures err { OnErr result (LineUnanswered (script_at world.old clock.old) line.now (script_at world.new clock.new)) }
{
    let answered = tell(alloc, scratch, world, clock, line);
    reply_text(alloc, &answered)
}

/// A world that is asked by the lines of a script, with the clock reading of the last of them.
#[derive(Drop)]
pub(crate) struct Scripted<'a> {
    pub(crate) scratch: &'a mut Scratch,
    pub(crate) world: &'a mut World,
    pub(crate) clock: u64,
}

impl<'a> Answering for Scripted<'a> {
    ghost replies = { λ s line text t. LineReplies (script_at s.world.now s.clock) line text (script_at t.world.now t.clock) };

    ghost unanswered = { λ s line t. LineUnanswered (script_at s.world.now s.clock) line (script_at t.world.now t.clock) };

    ghost keeps = { λ s t. t.world.ghost_name ≡ s.world.ghost_name };

    fn answer(&mut self, alloc: Global, line: &[u8]) -> Result<Text, AllocError> {
        answer(
            alloc,
            &mut *self.scratch,
            &mut *self.world,
            &mut self.clock,
            line,
        )
    }

    ghost keeps_none = { λ s. refl };

    ghost keeps_more = { λ a b c first then. then ∙ first };
}
