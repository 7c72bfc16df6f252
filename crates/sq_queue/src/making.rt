//! What a new service is made of, before it lies under locks.
ghost use Rattle.std.specs.Prelude.{◌≡◌, ◌*◌, ◌≤◌, [], IfErr, IfOk, length};
ghost use Rattle.sq_base.specs.Stamps.{start};
ghost use Rattle.sq_model.specs.Directories.{opening_directory};
ghost use Rattle.sq_model.specs.Ledgers.{opening_ledger};
ghost use Rattle.sq_model.specs.Options.{IsServed, limits_of};
ghost use Rattle.sq_history.specs.HomeIds.{never_opened_homes};
ghost use Rattle.sq_queue.specs.Seats.{IsNamedBy};

use crate::actors::Actors;
use crate::parts::{CountedDirectory, CountedLedger};
use sq_base::refusal::Refusal;
use sq_directory::directory::Directory;
use sq_history::homes::never_opened_homes;
use sq_history::recorded::Home;
use sq_ledger::ledger::TransitLedger;
use sq_model::options::Options;
use sq_sample::sampler::HomeCount;
use std::alloc::Global;
use std::sync::ledger::{Blank, Ledger};

/// The parts of a service.
#[derive(Drop)]
pub(crate) struct NewParts<D: Ledger, T: Ledger> {
    pub(crate) homes: Vec<Home>,
    pub(crate) directory: CountedDirectory<D>,
    pub(crate) ledger: CountedLedger<T>,
    pub(crate) actors: Actors<D, T>,
}

/// The parts by options that are served: no queue, no event, no item, no session, each part as large as its own option says.
/// Refused as NoMemory.
pub(crate) fn new_parts<D: Ledger, T: Ledger>(
    alloc: Global,
    options: &Options,
    of_directory: Blank,
    of_ledger: Blank,
) -> Result<NewParts<D, T>, Refusal>
    requires served { IsServed options.now }
    requires of_directory { IsNamedBy D.name D.parts of_directory }
    requires of_ledger { IsNamedBy T.name T.parts of_ledger }
    ensures homes { IfOk result (λ m. m.homes.items ≡ never_opened_homes options.now.homes (limits_of options.now) (options.now.queues * options.now.homes)) }
    ensures many { IfOk result (λ m. length m.homes.items ≡ options.now.queues * options.now.homes) }
    ensures few { IfOk result (λ m. length m.homes.items ≤ 16384) }
    ensures directory { IfOk result (λ m. m.directory.directory ≡ record { directory = opening_directory options.now.queues; last = start; events = []; spare = 0 }) }
    ensures ledger { IfOk result (λ m. m.ledger.ledger.history ≡ record { ledger = opening_ledger options.now.transit; last = start; events = []; spare = 0; spare_tasks = 0 }) }
    ensures seed { IfOk result (λ m. m.actors.seed ≡ options.now.seed) }
    ensures none { IfOk result (λ m. (m.actors.made ≡ 0) × (m.actors.retired.items ≡ [])) }
    ensures refused { IfErr result (λ e. e ≡ Refusal.NoMemory) }
{
    let per_queue = HomeCount::of(options.homes);
    let (of_directory, directory_left) = of_directory.open::<D>();
    let (of_ledger, ledger_left) = of_ledger.open::<T>();
    Ok(NewParts {
        homes: never_opened_homes(alloc, options.queues, per_queue, &options.limits())?,
        directory: CountedDirectory {
            directory: Directory::new(alloc, options.queues)?,
            tallies: of_directory,
        },
        ledger: CountedLedger {
            ledger: TransitLedger::new(alloc, options.transit),
            tallies: of_ledger,
        },
        actors: Actors {
            seed: options.seed,
            made: 0,
            of_directory: directory_left,
            of_ledger: ledger_left,
            retired: Vec::new(alloc),
        },
    })
}
