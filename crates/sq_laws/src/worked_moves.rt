//! Worked cases of messages that move between queues, each the contract of a function without code.
#![tactic(auto, unfolding(sq_model::specs::Homes::HomeStep, sq_model::specs::Ledgers::LedgerStep, sq_model::specs::Ledgers::ledger_refusal, sq_model::specs::Shared::shared_refusal))]

ghost use Rattle.std.specs.Prelude.{◌≡◌, true, false, [], ◌∷◌, Some, None, codes};
ghost use Rattle.sq_base.specs.declared.refusal.Refusal.TheVariants.{OverLimit, QueueDoesNotExist, ResourceNotFoundException, UnsupportedOperation};
ghost use Rattle.sq_model.specs.declared.calls.HomeCall.TheVariants as asks;
ghost use Rattle.sq_model.specs.declared.ledger.LedgerCall.TheVariants.{StartTask, CancelTask, FinishTask};
ghost use Rattle.sq_model.specs.declared.ledger.LedgerReply.TheVariants.{Cancelled, Finished, Started};
ghost use Rattle.sq_model.specs.declared.replies.HomeReply.TheVariants.{Done, Left, NoOrigin, SourceClosed, Entered};
ghost use Rattle.sq_model.specs.declared.shared.SharedAct.TheVariants.{LeaveDead, LeaveTask, Enter, TurnBack};
ghost use Rattle.sq_model.specs.declared.task.FailureReason.TheVariants as because;
ghost use Rattle.sq_model.specs.declared.task.TaskStatus.TheVariants.{Running, Cancelling, Cancelled as StatusCancelled, Failed};
ghost use Rattle.sq_model.specs.Homes.{Unopened, Closed};
ghost use Rattle.sq_model.specs.Tasks.{may_leave};
ghost use Rattle.sq_model.specs.Ledgers.{LedgerStep, ledger_refusal};
ghost use Rattle.sq_model.specs.Shared.{IsUnrecorded, SharedStep, shared_refusal};
ghost use Rattle.sq_laws.specs.Worked.{hello, hello_once, worked_id, narrow, plain, strict, wide, with_rows};
ghost use Rattle.sq_laws.specs.WorkedMoves.{dead_item, full_ledger, worked_ledger, letter, letters, letters_site, letters_with, new_task_1, no_moves, source, task_at, task_item, turned_task_item, with_dead_item, with_running, with_task, with_task_item, with_turned_item};

/// A dead letter leaves at 31,000 and comes in with its id, its age and its source. Where its target is closed it goes back as it
/// was, and comes in at its source anew; where that is closed too, it is dropped.
pub fn a_dead_letter_goes_there_or_back()
    ensures leaves { SharedStep wide (with_rows strict 1 (hello_once ∷ [])) no_moves 31000 asks.LeaveDead (Left (dead_item false)) (with_rows strict 1 []) (with_dead_item false) }
    ensures enters { SharedStep letters_site (with_rows plain 0 []) (with_dead_item false) 31000 (asks.Enter (dead_item false)) (Entered (record { serial = 0; slot = 0 })) (letters_with (letter ∷ [])) (worked_ledger [] 2 [] 1) }
    ensures turned { SharedStep letters_site Closed (with_dead_item false) 31000 (asks.TurnBack (dead_item false)) Done Closed (with_dead_item true) }
    ensures returned { SharedStep wide (with_rows strict 1 []) (with_dead_item true) 40000 (asks.GiveBack (dead_item true)) (Entered (record { serial = 1; slot = 0 })) (with_rows strict 2 (record hello { serial = 1; visible_from = 40000 } ∷ [])) (worked_ledger [] 2 [] 1) }
    ensures dropped { SharedStep wide Closed (with_dead_item true) 40000 (asks.Drop (dead_item true)) Done Closed (worked_ledger [] 2 [] 1) }
{}

/// A full ledger refuses a dead row, and not a home without one, which is no event then. An item is asked for after what the home refuses.
pub fn a_full_ledger_refuses_what_may_leave()
    ensures full { shared_refusal wide (with_rows strict 1 (hello_once ∷ [])) full_ledger 31000 LeaveDead ≡ Some OverLimit }
    ensures not_yet_dead { shared_refusal wide (with_rows strict 1 (hello_once ∷ [])) full_ledger 30999 LeaveDead ≡ None }
    ensures unrecorded { IsUnrecorded wide (with_rows strict 1 (hello_once ∷ [])) full_ledger 30999 LeaveDead }
    ensures unopened { shared_refusal letters_site Unopened no_moves 0 (Enter 7) ≡ Some QueueDoesNotExist }
    ensures full_home { shared_refusal narrow (with_rows plain 1 (hello ∷ [])) no_moves 1000 (Enter 7) ≡ Some OverLimit }
    ensures unknown { shared_refusal letters_site (with_rows plain 0 []) no_moves 0 (Enter 7) ≡ Some UnsupportedOperation }
    ensures homeward { shared_refusal letters_site (with_rows plain 0 []) (with_dead_item true) 0 (Enter 1) ≡ Some UnsupportedOperation }
    ensures other_queue { shared_refusal wide (with_rows plain 0 []) (with_dead_item false) 0 (Enter 1) ≡ Some UnsupportedOperation }
    ensures still_serving { shared_refusal letters_site (with_rows plain 0 []) (with_dead_item false) 0 (TurnBack 1) ≡ Some UnsupportedOperation }
{}

/// A task of rate 2 takes two messages in the second from 31,000 on, none more at 31,999, and the next at 32,000. Its message comes
/// in as a new one of the same lineage. Where its target is closed it comes back, and the task fails. A message without origin has
/// nowhere to go, and a closed source ends the task too.
pub fn a_task_goes_at_its_rate()
    ensures leaves { SharedStep letters_site (letters_with (letter ∷ [])) (with_task 1 new_task_1) 31000 (asks.LeaveTask 1) (Left task_item) (letters_with []) (with_task_item (task_at Running 1 0 31 1)) }
    ensures at_its_rate { may_leave 31999 (task_at Running 2 0 31 2) ≡ false }
    ensures throttled { IsUnrecorded letters_site (letters_with (letter ∷ [])) (with_task 3 (task_at Running 2 0 31 2)) 31999 (LeaveTask 1) }
    ensures next_second { may_leave 32000 (task_at Running 2 0 31 2) ≡ true }
    ensures enters { SharedStep wide (with_rows plain 1 []) (with_task_item (task_at Running 1 0 31 1)) 40000 (asks.Enter task_item) (Entered (record { serial = 1; slot = 0 }))
        (with_rows plain 2 (record hello { id = worked_id 1; serial = 1; enqueued = 40000; visible_from = 40000 } ∷ [])) (with_task 2 (task_at Running 1 1 31 1)) }
    ensures no_origin { SharedStep letters_site (letters_with (record letter { origin = None } ∷ [])) (with_task 1 new_task_1) 31000 (asks.LeaveTask 1) (NoOrigin 0) (letters_with (record letter { origin = None } ∷ [])) (with_task 1 (task_at (Failed because.NoOrigin) 0 0 0 0)) }
    ensures turned { SharedStep wide Closed (with_task_item (task_at Running 1 0 31 1)) 32000 (asks.TurnBack task_item) Done Closed (with_turned_item (task_at (Failed because.DestinationClosed) 1 0 31 1)) }
    ensures returned { SharedStep letters_site (letters_with []) (with_turned_item (task_at (Failed because.DestinationClosed) 1 0 31 1)) 32000 (asks.GiveBack turned_task_item) (Entered (record { serial = 1; slot = 0 }))
        (with_rows plain 2 (record letter { serial = 1; visible_from = 32000 } ∷ [])) (with_task 2 (record (task_at (Failed because.DestinationClosed) 1 0 31 1) { back = 1 })) }
    ensures source_closed { SharedStep letters_site Closed (with_task 1 new_task_1) 31000 (asks.LeaveTask 1) SourceClosed Closed (with_task 1 (task_at (Failed because.SourceClosed) 0 0 0 0)) }
{}

/// A source has one active task, and 100 sources may. It is cancelled once, and ends once none of its messages is in transit.
pub fn a_task_ends_once_nothing_is_in_transit()
    ensures started { LedgerStep no_moves 1000 (StartTask letters None (Some 2)) (Started 1) (with_task 1 new_task_1) }
    ensures one_a_source { ledger_refusal (with_task 1 new_task_1) 1000 (StartTask letters (Some source) None) ≡ Some UnsupportedOperation }
    ensures cancelled { LedgerStep (with_task_item (task_at Running 1 0 31 1)) 32000 (CancelTask 1) (Cancelled 0) (with_task_item (task_at Cancelling 1 0 31 1)) }
    ensures once { ledger_refusal (with_task_item (task_at Cancelling 1 0 31 1)) 32000 (CancelTask 1) ≡ Some UnsupportedOperation }
    ensures takes_none { shared_refusal letters_site (letters_with (letter ∷ [])) (with_task_item (task_at Cancelling 1 0 31 1)) 32000 (LeaveTask 1) ≡ Some UnsupportedOperation }
    ensures waits { ledger_refusal (with_task_item (task_at Cancelling 1 0 31 1)) 32000 (FinishTask 1) ≡ Some UnsupportedOperation }
    ensures finished { LedgerStep (with_task 2 (task_at Cancelling 1 1 31 1)) 40000 (FinishTask 1) Finished (with_task 2 (task_at StatusCancelled 1 1 31 1)) }
    ensures unknown { ledger_refusal no_moves 0 (CancelTask 1) ≡ Some ResourceNotFoundException }
    ensures hundredth { ledger_refusal (with_running 99) 0 (StartTask (record { number = 100; name = codes "q" }) None None) ≡ None }
    ensures too_many { ledger_refusal (with_running 100) 0 (StartTask (record { number = 101; name = codes "q" }) None None) ≡ Some OverLimit }
    ensures one_a_source_of_many { ledger_refusal (with_running 100) 0 (StartTask (record { number = 7; name = codes "q" }) None None) ≡ Some UnsupportedOperation }
{}
