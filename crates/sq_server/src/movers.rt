//! The movers of a service: round after round, with a rest after one in which nothing moved; and those of a race.
ghost use Rattle.std.specs.Prelude.{◌≡◌, ◌*◌, min};
ghost use Rattle.sq_server.specs.Around.{around_all};
ghost use Rattle.sq_server.specs.Rounds.{HasMadeRound, MovesForRace, MovesWhileOpen};

use crate::served::{Client, Served};
use sq_mover::mover::Mover;
use sq_store::slots::SlotStore;
use std::sync::Wait;
use std::sync::atomic::{AtomicU64, Ordering};
use std::sync::ledger::Ledger;
use std::thread;
use std::time::{Clock, Duration};

/// How many turns a round has.
const ROUND: u64 = 100;

/// How many turns a mover of a race makes.
const TURNS: u64 = 1000;

/// The longest rest after a round in which no message moved and no task ended, in ms.
const LONGEST: u64 = 50;

/// Makes rounds of turns until no connection is open. After one in which no message moved and no task ended, or that was refused,
/// it rests, twice as long each time, from 1 ms up to `LONGEST`.
pub(crate) fn move_while_open<R: Clock + Wait, D: Ledger, T: Ledger>(
    service: &Served<'_, R, D, T, SlotStore>,
    client: &mut Client<D, T>,
    open: &AtomicU64,
)
    ensures { MovesWhileOpen (around_all service.now.service.value) client.old client.new }
{
    let mut mover = Mover::new(service.alloc);
    let mut rest = 1;
    for _ in service.rt.forever() {
        if open.load(Ordering::SeqCst) == 0 {
            break;
        }
        rest = round(service, client, &mut mover, rest);
    }
}

// A round of turns, and a rest of so many ms after it where no message moved and no task ended. The next rest.
fn round<R: Clock + Wait, D: Ledger, T: Ledger>(
    service: &Served<'_, R, D, T, SlotStore>,
    client: &mut Client<D, T>,
    mover: &mut Mover,
    rest: u64,
) -> u64
    ensures { HasMadeRound (around_all service.now.service.value) rest mover.old client.old result mover.new client.new }
{
    if service.turns(client, mover, ROUND) {
        return 1;
    }
    thread::sleep(service.rt, Duration::from_millis(rest));
    longer(rest)
}

/// Makes as many turns as a mover of a race makes.
pub(crate) fn move_for_a_race<R: Clock + Wait, D: Ledger, T: Ledger>(
    service: &Served<'_, R, D, T, SlotStore>,
    client: &mut Client<D, T>,
)
    ensures { MovesForRace (around_all service.now.service.value) client.old client.new }
{
    let mut mover = Mover::new(service.alloc);
    service.turns(client, &mut mover, TURNS);
}

// The rest after one of so many ms.
fn longer(rest: u64) -> u64
    ensures { result ≡ min (2 * rest) 50 }
{
    rest.saturating_mul(2).min(LONGEST)
}
