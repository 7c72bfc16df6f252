//! Runs of queues that are made, purged and deleted, each step with its answer. Each is the contract of a function without code.
#![tactic(auto, unfolding(sq_model::specs::Directories::directory_refusal))]

ghost use Rattle.std.specs.Prelude.{◌≡◌, Some, None, Err, codes};
ghost use Rattle.sq_base.specs.declared.refusal.Refusal.TheVariants.{InvalidAttributeValue, PurgeQueueInProgress, QueueDeletedRecently, QueueDoesNotExist, ResourceNotFoundException, TableFull, UnsupportedOperation};
ghost use Rattle.sq_model.specs.declared.directory.DirectoryCall.TheVariants.{Create, PurgeTicket, Set};
ghost use Rattle.sq_model.specs.Directories.{can_redrive, directory_refusal, resolved};
ghost use Rattle.sq_model.specs.Policies.{nothing_given};
ghost use Rattle.sq_model.specs.Systems.{IsRun};
ghost use Rattle.sq_laws.specs.WorkedDirectory.{dead_to, redrive_given};
ghost use Rattle.sq_laws.specs.WorkedRun.{IsWorked, both_sites, opened_for};
ghost use Rattle.sq_laws.specs.WorkedQueues.{after_again, after_deletion, after_permits, after_purge, again_run, permits_run, until_deleted, until_purged};

/// A queue permits one other queue alone to choose it for dead letters. The policy of a queue that it does not permit is refused, and so is
/// one of a queue for itself: it has none then. So no messages are moved from the first queue, nor from one that is not there.
pub fn a_policy_is_refused_in_one_run()
    ensures run { IsRun (opened_for 4 both_sites) permits_run after_permits }
    ensures not_permitted { directory_refusal after_permits.directory 0 (Set (codes "q") (redrive_given (Some (dead_to (codes "d"))))) ≡ Some InvalidAttributeValue }
    ensures itself { directory_refusal after_permits.directory 0 (Set (codes "q") (redrive_given (Some (dead_to (codes "q"))))) ≡ Some InvalidAttributeValue }
    ensures no_source { can_redrive (codes "d") None after_permits.directory ≡ Err UnsupportedOperation }
    ensures unknown { can_redrive (codes "z") None after_permits.directory ≡ Err ResourceNotFoundException }
{}

/// A queue is purged at 1000, not at 60,999, and again at 61,000, and is deleted. Its name is not free at 120,999, but at 121,000, where
/// another queue may be made: that one has the next number, and a message that is sent to it an id of that number.
pub fn a_queue_is_made_again_in_one_run()
    ensures run { IsWorked again_run after_again }
    ensures until { IsWorked until_purged after_purge × IsWorked until_deleted (after_deletion 64) × IsRun (opened_for 1 both_sites) until_deleted (after_deletion 1) }
    ensures early_purge { directory_refusal after_purge.directory 60999 (PurgeTicket (codes "q")) ≡ Some PurgeQueueInProgress }
    ensures no_queue { resolved (codes "q") (after_deletion 64).directory ≡ Err QueueDoesNotExist }
    ensures early_name { directory_refusal (after_deletion 64).directory 120999 (Create (codes "q") nothing_given) ≡ Some QueueDeletedRecently }
    ensures full { directory_refusal (after_deletion 1).directory 121000 (Create (codes "q") nothing_given) ≡ Some TableFull }
{}
