//! Runs of dead letters, from a send to where they are in the end: steps of the directory, two homes and the ledger, each with its
//! answer. Each is the contract of a function without code.
#![tactic(auto, unfolding(sq_model::specs::Shared::shared_refusal))]

ghost use Rattle.std.specs.Prelude.{◌≡◌, [], ◌∷◌, Some, Ok, Err};
ghost use Rattle.sq_base.specs.declared.refusal.Refusal.TheVariants.{ClockRange, OverLimit, Worn};
ghost use Rattle.sq_model.specs.declared.place.Place.TheVariants.{Dropped};
ghost use Rattle.sq_model.specs.declared.shared.SharedAct.TheVariants.{Enter};
ghost use Rattle.sq_model.specs.Lineages.{items_with};
ghost use Rattle.sq_model.specs.Places.{homes_with, place_in, run_ends, run_sends};
ghost use Rattle.sq_model.specs.Shared.{shared_refusal, shared_stamp};
ghost use Rattle.sq_model.specs.Systems.{IsRun, opening};
ghost use Rattle.sq_laws.specs.Worked.{worked_id, plain, with_rows};
ghost use Rattle.sq_laws.specs.WorkedRun.{IsWorked, after_all, after_back, after_drop, after_full, after_leave, after_receive, after_waiting, back_run, both_sites, dropped_run, full_run, message_x, narrow_letters, narrow_sites, stamp, until_dead, until_full, until_left, worked_run, opened_for};

/// Two queues are made and opened; a message is sent, received once, and is dead at 31,000. It leaves, comes in and is received again.
/// At each point it is in one place. A step of a home and the ledger is stamped above both and above what its actor had seen.
pub fn a_dead_letter_moves_in_one_run()
    ensures run { IsWorked worked_run after_all }
    ensures until { IsWorked until_dead after_receive × IsWorked until_left after_leave }
    ensures at_its_source { homes_with (worked_id 0) after_receive.homes ≡ 1 }
    ensures not_in_transit { items_with (worked_id 0) after_receive.ledger.items ≡ 0 }
    ensures in_no_home { homes_with (worked_id 0) after_leave.homes ≡ 0 }
    ensures in_transit { items_with (worked_id 0) after_leave.ledger.items ≡ 1 }
    ensures at_its_target { homes_with (worked_id 0) after_all.homes ≡ 1 }
    ensures arrived { items_with (worked_id 0) after_all.ledger.items ≡ 0 }
    ensures leave { shared_stamp (stamp 31000 0) (stamp 0 0) (stamp 0 3) 31000 ≡ Ok (stamp 31000 2) }
    ensures no_clock { shared_stamp (stamp 0 2) (stamp 0 1) (stamp 0 3) 4611686018427387904 ≡ Err ClockRange }
    ensures last_count { shared_stamp (stamp 5 0) (stamp 5 4611686018427387903) (stamp 0 3) 5 ≡ Err Worn }
    ensures enter { shared_stamp (stamp 0 2) (stamp 31000 2) (stamp 31000 2) 31000 ≡ Ok (stamp 31000 4) }
{}

/// The dead-letter queue is deleted while the message is on its way: it is turned, comes back to its queue with the next serial, and is
/// received there again.
pub fn a_dead_letter_comes_back_from_a_deleted_queue()
    ensures { IsWorked back_run after_back }
{}

/// Both queues are deleted while the message is on its way: it is turned, and then dropped, and that is where it ends.
pub fn a_dead_letter_without_a_queue_is_dropped()
    ensures { (run : IsWorked dropped_run after_drop) × (place_in (worked_id 0) (run_sends dropped_run) (run_ends (opening (opened_for 64 both_sites)) dropped_run after_drop run.steps) after_drop.ledger.items ≡ Some Dropped) }
{}

/// Where a home holds one message at most, a dead letter does not come in while another one is there. Once that one is received and
/// deleted, it does.
pub fn a_dead_letter_waits_for_room()
    ensures run { IsRun (opened_for 64 narrow_sites) full_run after_waiting }
    ensures until { IsRun (opened_for 64 narrow_sites) until_full after_full }
    ensures full { shared_refusal narrow_letters (with_rows plain 1 (message_x ∷ [])) after_full.ledger 31000 (Enter 1) ≡ Some OverLimit }
{}
