//! Runs of message move tasks, each step with its answer. Each is the contract of a function without code.
#![tactic(auto, unfolding(sq_model::specs::Ledgers::ledger_refusal))]

ghost use Rattle.std.specs.Prelude.{◌≡◌, [], ◌∷◌, Some, None, Ok};
ghost use Rattle.sq_base.specs.declared.refusal.Refusal.TheVariants.{OverLimit, UnsupportedOperation};
ghost use Rattle.sq_model.specs.declared.ledger.LedgerCall.TheVariants.{CancelTask, FinishTask, StartTask};
ghost use Rattle.sq_model.specs.declared.shared.SharedAct.TheVariants.{LeaveTask};
ghost use Rattle.sq_model.specs.Directories.{can_redrive};
ghost use Rattle.sq_model.specs.Ledgers.{ledger_refusal, peek};
ghost use Rattle.sq_model.specs.Shared.{IsUnrecorded};
ghost use Rattle.sq_model.specs.Systems.{IsRun};
ghost use Rattle.sq_laws.specs.WorkedMoves.{letters_site};
ghost use Rattle.sq_laws.specs.WorkedRun.{IsWorked, opened_for};
ghost use Rattle.sq_laws.specs.WorkedTasks.{after_cancel, after_cancelled, after_chain, after_deleted, after_no_origin, after_origin, after_turned, after_two_left, cancelled_run, chain_name, chain_named, chain_run, chain_sites, deleted_run, no_origin_run, origin_run, turned_letter, until_cancelled, until_turned, until_two_left, with_letters};

/// A task of rate 2 takes two of five messages in one second, none more at 1999, and the next at 2000. Two came in when it is cancelled.
/// It waits for the third, and ends once that came in. Three messages are received at their destination, and two stay.
pub fn a_task_is_cancelled_in_one_run()
    ensures run { IsWorked cancelled_run after_cancelled }
    ensures until { IsWorked until_two_left after_two_left × IsWorked until_cancelled after_cancel }
    ensures throttled { IsUnrecorded letters_site (with_letters (2 ∷ 3 ∷ 4 ∷ [])) after_two_left.ledger 1999 (LeaveTask 1) }
    ensures once { ledger_refusal after_cancel.ledger 2001 (CancelTask 1) ≡ Some UnsupportedOperation }
    ensures waiting { ledger_refusal after_cancel.ledger 2001 (FinishTask 1) ≡ Some UnsupportedOperation }
{}

/// The destination is deleted while two messages are on their way: they are turned, the task fails, and they come back to its source. A
/// mover that tried the second one last goes on with the first.
pub fn a_task_fails_when_its_destination_is_deleted()
    ensures run { IsWorked deleted_run after_deleted }
    ensures until { IsWorked until_turned after_turned }
    ensures again { peek 2 after_turned.ledger ≡ Some (turned_letter 0) }
{}

/// A task without a destination fails at a message that was sent to its source. A dead letter it moves back to the queue that it came
/// from, as a new message; then it finds no message, and is completed.
pub fn a_task_without_a_destination_goes_to_origins()
    ensures no_origin { IsWorked no_origin_run after_no_origin }
    ensures back { IsWorked origin_run after_origin }
{}

/// Of 102 queues, each but the first has the one before it for its dead letters. A hundred tasks are started, each of another source.
/// Another one of the first source is refused as such, and one of the hundred and first source for the number of tasks.
pub fn a_hundred_tasks_are_active_in_one_run()
    ensures run { IsRun (opened_for 102 chain_sites) chain_run after_chain }
    ensures one_a_source { ledger_refusal after_chain.ledger 0 (StartTask (chain_named 0) None None) ≡ Some UnsupportedOperation }
    ensures is_source { can_redrive (chain_name 100) None after_chain.directory ≡ Ok (record { source = chain_named 100; destination = None }) }
    ensures too_many { ledger_refusal after_chain.ledger 0 (StartTask (chain_named 100) None None) ≡ Some OverLimit }
{}
