//! Worked cases of a home that is drained, each the contract of a function without code.
#![tactic(auto, unfolding(sq_model::specs::Homes::HomeStep, sq_model::specs::Homes::home_refusal, sq_model::specs::Ledgers::LedgerStep, sq_model::specs::Shared::shared_refusal))]

ghost use Rattle.std.specs.Prelude.{◌≡◌, [], ◌∷◌, Some, None, true};
ghost use Rattle.sq_base.specs.declared.refusal.Refusal.TheVariants.{HomeDraining, OverLimit, QueueDoesNotExist, UnsupportedOperation};
ghost use Rattle.sq_model.specs.declared.calls.HomeCall.TheVariants as asks;
ghost use Rattle.sq_model.specs.declared.home_mode.HomeMode.TheVariants.{Accepting, Draining, Drained};
ghost use Rattle.sq_model.specs.declared.replies.HomeReply.TheVariants.{Done, Looked, Left, Entered, Sent};
ghost use Rattle.sq_model.specs.declared.shared.SharedAct.TheVariants.{LeaveDrain, Enter, GiveBack};
ghost use Rattle.sq_model.specs.Homes.{Home, Unopened, Serving, Closed, HomeStep, home_refusal};
ghost use Rattle.sq_model.specs.Lineages.{items_with};
ghost use Rattle.sq_model.specs.Places.{homes_with};
ghost use Rattle.sq_model.specs.Shared.{IsUnrecorded, SharedStep, shared_refusal};
ghost use Rattle.sq_laws.specs.Worked.{delayed_hello, hello, hello_once, hello_text, narrow, strict, wide, worked_id, worked_receipt};
ghost use Rattle.sq_laws.specs.WorkedDrain.{IsDrainRun, after_drained, drain_run, drained, hello_seen, hello_seen_again, in_mode, second_home, until_drained, until_draining, until_received, when_drained, when_draining, when_received, with_drained};
ghost use Rattle.sq_laws.specs.WorkedMoves.{no_moves};

/// A message is sent to home 0 at 1000 and received there with a timeout of 0. Home 0 is drained at 2000: the message leaves, and the
/// drain ends. It comes in at home 1 as it was, and is received there for the second time. Its first receipt then deletes nothing.
pub fn a_drain_moves_a_message_to_another_home()
    ensures sent { HomeStep wide (in_mode Accepting 0 []) 1000 (asks.Send hello_text None) (Sent (record { id = worked_id 0; slot = 0 })) (in_mode Accepting 1 (hello ∷ [])) }
    ensures seen { HomeStep wide (in_mode Accepting 1 (hello ∷ [])) 1000 (asks.Look 1 (Some 0)) (Looked (hello_seen ∷ [])) (in_mode Accepting 1 (hello_seen ∷ [])) }
    ensures started { HomeStep wide (in_mode Accepting 1 (hello_seen ∷ [])) 2000 asks.StartDrain Done (in_mode Draining 1 (hello_seen ∷ [])) }
    ensures leaves { SharedStep wide (in_mode Draining 1 (hello_seen ∷ [])) no_moves 2000 asks.LeaveDrain (Left (drained hello_seen)) (in_mode Draining 1 []) (with_drained hello_seen) }
    ensures finished { HomeStep wide (in_mode Draining 1 []) 2000 asks.FinishDrain Done (in_mode Drained 1 []) }
    ensures enters { SharedStep second_home (in_mode Accepting 0 []) (with_drained hello_seen) 2000 (asks.Enter (drained hello_seen)) (Entered (record { serial = 0; slot = 0 })) (in_mode Accepting 1 (hello_seen ∷ [])) after_drained }
    ensures received { HomeStep second_home (in_mode Accepting 1 (hello_seen ∷ [])) 2000 (asks.Look 1 None) (Looked (hello_seen_again ∷ [])) (in_mode Accepting 1 (hello_seen_again ∷ [])) }
    ensures deletes_nothing { (after : Home) → HomeStep wide (in_mode Drained 1 []) 2000 (asks.Delete (worked_receipt 1)) Done after → after ≡ in_mode Drained 1 [] }
    ensures may_delete { HomeStep wide (in_mode Drained 1 []) 2000 (asks.Delete (worked_receipt 1)) Done (in_mode Drained 1 []) }
{}

/// The same as one run of the whole system. At each point the message is in one place, and what is handed to home 0 in the end changes
/// nothing.
pub fn a_drain_moves_a_message_in_one_run()
    ensures run { IsDrainRun until_received when_received }
    ensures until { IsDrainRun until_draining when_draining × IsDrainRun until_drained when_drained }
    ensures deletes_nothing { IsDrainRun drain_run when_received }
    ensures at_its_home { homes_with (worked_id 0) when_draining.homes ≡ 1 }
    ensures not_in_transit { items_with (worked_id 0) when_draining.ledger.items ≡ 0 }
    ensures in_no_home { homes_with (worked_id 0) when_drained.homes ≡ 0 }
    ensures in_transit { items_with (worked_id 0) when_drained.ledger.items ≡ 1 }
    ensures at_another_home { homes_with (worked_id 0) when_received.homes ≡ 1 }
    ensures arrived { items_with (worked_id 0) when_received.ledger.items ≡ 0 }
{}

/// A message in flight stays until it is visible again, and then leaves with its receive number; a delayed one leaves at once, and
/// keeps its delay where it comes in.
pub fn a_message_in_flight_leaves_later()
    ensures waits { IsUnrecorded wide (in_mode Draining 1 (hello_once ∷ [])) no_moves 30999 LeaveDrain }
    ensures no_step { (after : Home) → HomeStep wide (in_mode Draining 1 (hello_once ∷ [])) 30999 asks.LeaveDrain (Left (drained hello_once)) after → ⊥ }
    ensures leaves { SharedStep wide (in_mode Draining 1 (hello_once ∷ [])) no_moves 31000 asks.LeaveDrain (Left (drained hello_once)) (in_mode Draining 1 []) (with_drained hello_once) }
    ensures enters { SharedStep second_home (in_mode Accepting 0 []) (with_drained hello_once) 31000 (asks.Enter (drained hello_once)) (Entered (record { serial = 0; slot = 0 })) (in_mode Accepting 1 (hello_once ∷ [])) after_drained }
    ensures delayed_leaves { SharedStep wide (in_mode Draining 1 (delayed_hello ∷ [])) no_moves 2000 asks.LeaveDrain (Left (drained delayed_hello)) (in_mode Draining 1 []) (with_drained delayed_hello) }
    ensures delayed_enters { SharedStep second_home (in_mode Accepting 0 []) (with_drained delayed_hello) 2000 (asks.Enter (drained delayed_hello)) (Entered (record { serial = 0; slot = 0 })) (in_mode Accepting 1 (delayed_hello ∷ [])) after_drained }
{}

/// Nothing is sent to a home that drains, or is drained, nothing comes in and nothing comes back. That is so before it is full, and
/// whatever settings it is given.
pub fn a_home_that_drains_takes_nothing()
    ensures send { home_refusal wide (in_mode Draining 1 (hello_seen ∷ [])) 2000 (asks.Send hello_text None) ≡ Some HomeDraining }
    ensures enter { home_refusal wide (in_mode Draining 1 (hello_seen ∷ [])) 2000 (asks.Enter (drained hello)) ≡ Some HomeDraining }
    ensures give_back { home_refusal wide (in_mode Draining 1 (hello_seen ∷ [])) 2000 (asks.GiveBack (record (drained hello) { homeward = true })) ≡ Some HomeDraining }
    ensures shared_enter { shared_refusal wide (in_mode Draining 1 (hello_seen ∷ [])) (with_drained hello) 2000 (Enter 1) ≡ Some HomeDraining }
    ensures shared_give_back { shared_refusal wide (in_mode Draining 1 (hello_seen ∷ [])) (with_drained hello) 2000 (GiveBack 1) ≡ Some HomeDraining }
    ensures once_drained { home_refusal wide (in_mode Drained 1 []) 2000 (asks.Send hello_text None) ≡ Some HomeDraining }
    ensures full { home_refusal narrow (in_mode Draining 1 (hello_seen ∷ [])) 2000 (asks.Send hello_text None) ≡ Some HomeDraining }
    ensures full_else { home_refusal narrow (in_mode Accepting 1 (hello_seen ∷ [])) 2000 (asks.Send hello_text None) ≡ Some OverLimit }
    ensures configured { (after : Home) → HomeStep wide (in_mode Draining 1 (hello_seen ∷ [])) 2000 (asks.Configure strict 2) Done after
        → after ≡ Serving (record { settings = strict; version = 2; mode = Draining; next = 1; rows = hello_seen ∷ [] }) }
    ensures configured_late { (after : Home) → HomeStep wide (in_mode Drained 1 []) 2000 (asks.Configure strict 2) Done after → after ≡ Serving (record { settings = strict; version = 2; mode = Drained; next = 1; rows = [] }) }
{}

/// A drain ends at a home that drains and holds no message, and no message leaves by it elsewhere. It is asked for at a home that
/// serves, and at one that is drained that changes nothing.
pub fn a_drain_ends_without_a_message()
    ensures row_left { home_refusal wide (in_mode Draining 1 (hello_seen ∷ [])) 2000 asks.FinishDrain ≡ Some UnsupportedOperation }
    ensures not_asked { home_refusal wide (in_mode Accepting 1 []) 2000 asks.FinishDrain ≡ Some UnsupportedOperation }
    ensures ended { home_refusal wide (in_mode Drained 1 []) 2000 asks.FinishDrain ≡ Some UnsupportedOperation }
    ensures none_leaves { home_refusal wide (in_mode Accepting 1 (hello_seen ∷ [])) 2000 asks.LeaveDrain ≡ Some UnsupportedOperation }
    ensures none_leaves_shared { shared_refusal wide (in_mode Accepting 1 (hello_seen ∷ [])) no_moves 2000 LeaveDrain ≡ Some UnsupportedOperation }
    ensures none_leaves_late { home_refusal wide (in_mode Drained 1 []) 2000 asks.LeaveDrain ≡ Some UnsupportedOperation }
    ensures unopened { (home_refusal wide Unopened 0 asks.StartDrain ≡ Some QueueDoesNotExist) × (home_refusal wide Unopened 0 asks.FinishDrain ≡ Some QueueDoesNotExist) × (home_refusal wide Unopened 0 asks.LeaveDrain ≡ Some QueueDoesNotExist) }
    ensures closed { (home_refusal wide Closed 0 asks.StartDrain ≡ Some QueueDoesNotExist) × (home_refusal wide Closed 0 asks.FinishDrain ≡ Some QueueDoesNotExist) × (home_refusal wide Closed 0 asks.LeaveDrain ≡ Some QueueDoesNotExist) }
    ensures shared_unopened { shared_refusal wide Unopened no_moves 0 LeaveDrain ≡ Some QueueDoesNotExist }
    ensures shared_closed { shared_refusal wide Closed no_moves 0 LeaveDrain ≡ Some QueueDoesNotExist }
    ensures again { (after : Home) → HomeStep wide (in_mode Drained 1 []) 3000 asks.StartDrain Done after → after ≡ in_mode Drained 1 [] }
    ensures again_draining { (after : Home) → HomeStep wide (in_mode Draining 1 (hello_seen ∷ [])) 3000 asks.StartDrain Done after → after ≡ in_mode Draining 1 (hello_seen ∷ []) }
{}
