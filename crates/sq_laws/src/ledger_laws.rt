//! Theorems of the ledger and of its tasks, each the contract of a function without code.
ghost use Rattle.std.specs.Prelude.{◌≡◌, ◌≤◌, ◌⊎◌, ℕ, List, [], true, None, Some, Ok};
ghost use Rattle.std.specs.List.{list_any};
ghost use Rattle.sq_base.specs.StampValue.{StampValue};
ghost use Rattle.sq_base.specs.Stamps.{Below, start};
ghost use Rattle.sq_model.specs.declared.calls.HomeCall.{HomeCall};
ghost use Rattle.sq_model.specs.declared.ledger.LedgerCall.{LedgerCall};
ghost use Rattle.sq_model.specs.declared.ledger.LedgerReply.{LedgerReply};
ghost use Rattle.sq_model.specs.declared.place.Site.{Site};
ghost use Rattle.sq_model.specs.declared.replies.HomeReply.{HomeReply};
ghost use Rattle.sq_model.specs.declared.shared.SharedAct.{SharedAct};
ghost use Rattle.sq_model.specs.declared.task.Task.{Task as TaskValue};
ghost use Rattle.sq_model.specs.Homes.{Home};
ghost use Rattle.sq_model.specs.Replays.{Replays, NoMomentFalls, StampsRise};
ghost use Rattle.sq_model.specs.Tasks.{rate_of};
ghost use Rattle.sq_model.specs.Ledgers.{Ledger, LedgerEvent, LedgerStep, IsLastTask, IsLedger, IsAfter, NumbersRise, all_given, is_active_at, is_own, is_still_active, item_given, last_task, leaves_in, ledger_refusal, opening_ledger, peek, task_given, task_of};
ghost use Rattle.sq_model.specs.Shared.{HasSharedStep, IsCallOf, IsUnrecorded, SharedStep, shared_refusal, shared_stamp};

/// A step that is the ledger's own is given only where no check of it fails; `shared_steps_are_allowed` says so of the others.
pub fn ledger_steps_are_allowed()
    ensures { (l : Ledger) (m : ℕ) (call : LedgerCall) (reply : LedgerReply) (after : Ledger) → LedgerStep l m call reply after → ledger_refusal l m call ≡ None }
{}

/// Where no check fails, a step that is the ledger's own can be done.
pub fn ledger_steps_are_possible()
    ensures { (l : Ledger) (m : ℕ) (call : LedgerCall) → is_own call ≡ true → ledger_refusal l m call ≡ None
        → (reply : LedgerReply) × (after : Ledger) × LedgerStep l m call reply after }
{}

/// A step of a home and the ledger is given only where no check of either fails.
pub fn shared_steps_are_allowed()
    ensures { (site : Site) (home : Home) (l : Ledger) (m : ℕ) (act : SharedAct) (call : HomeCall) (reply : HomeReply) (after : Home) (l_after : Ledger)
        → IsCallOf l act call → SharedStep site home l m call reply after l_after → shared_refusal site home l m act ≡ None }
{}

/// Where no check fails there is a step, but for a dead letter's leave that finds no dead row, a drain's that finds none at rest and a
/// task's leave that is throttled.
pub fn shared_steps_are_possible()
    ensures { (site : Site) (home : Home) (l : Ledger) (m : ℕ) (act : SharedAct) → shared_refusal site home l m act ≡ None
        → IsUnrecorded site home l m act ⊎ HasSharedStep site home l m act }
{}

/// What is such a leave is no step.
pub fn unrecorded_leaves_are_no_steps()
    ensures { (site : Site) (home : Home) (l : Ledger) (m : ℕ) (act : SharedAct) (call : HomeCall) (reply : HomeReply) (after : Home) (l_after : Ledger)
        → IsCallOf l act call → SharedStep site home l m call reply after l_after → IsUnrecorded site home l m act → ⊥ }
{}

/// In each ledger that is the replay of its history: what left for a task came in, came back, was dropped or is in transit; a task
/// that is completed or cancelled has none in transit; one task is active at most for a source, and 100 in all. Tasks are numbered
/// without a gap, the task of each item is there, each leave took a number, and no number passes the last one.
pub fn ledgers_add_up()
    ensures { (limit : ℕ) (events : List LedgerEvent) (l : Ledger) → Replays LedgerStep (opening_ledger limit) events l → IsLedger l }
{}

/// The item after a number is the least above it, and where none is above, the least of all. There is none only where no item is.
pub fn items_go_round()
    ensures { (number : ℕ) (l : Ledger) → IsLedger l → IsAfter number l.items (peek number l) }
{}

/// The last task of a source is the one of it with the greatest number. There is none only where the source has no task.
pub fn last_tasks_are_the_latest()
    ensures { (source : ℕ) (l : Ledger) → IsLedger l → IsLastTask source l.tasks (last_task source l) }
{}

/// A task is active for a source exactly where the last one of it is.
pub fn only_last_tasks_are_active()
    ensures { (source : ℕ) (l : Ledger) → IsLedger l → list_any (is_active_at source) l.tasks ≡ is_still_active (last_task source l) }
{}

/// The stamp of a step of a home and the ledger is above the last one of each and the last one that the actor has seen, and not before m.
pub fn shared_stamps_are_above()
    ensures { (home ledger seen : StampValue) (m : ℕ) (stamp : StampValue) → shared_stamp home ledger seen m ≡ Ok stamp
        → Below home stamp × Below ledger stamp × Below seen stamp × (m ≤ stamp.moment) }
{}

/// No number of an item or of a task is given twice.
pub fn numbers_are_given_once()
    ensures items { (limit : ℕ) (events : List LedgerEvent) (l : Ledger) → Replays LedgerStep (opening_ledger limit) events l → NumbersRise 1 (all_given item_given events) }
    ensures tasks { (limit : ℕ) (events : List LedgerEvent) (l : Ledger) → Replays LedgerStep (opening_ledger limit) events l → NumbersRise 1 (all_given task_given events) }
{}

/// In each second no more messages leave for a task than its rate, where moments do not fall, as those of a history do not,
/// whose stamps rise.
pub fn rates_are_kept()
    ensures rate { (number second limit : ℕ) (events : List LedgerEvent) (l : Ledger) (task : TaskValue) → Replays LedgerStep (opening_ledger limit) events l → NoMomentFalls 0 events
        → task_of number l ≡ Some task → leaves_in number second events ≤ rate_of task }
    ensures of_histories { (number second limit : ℕ) (events : List LedgerEvent) (last : StampValue) (l : Ledger) (task : TaskValue) → Replays LedgerStep (opening_ledger limit) events l → StampsRise start events last
        → task_of number l ≡ Some task → leaves_in number second events ≤ rate_of task }
{}
