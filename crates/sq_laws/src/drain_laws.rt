//! Theorems of homes that drain, each the contract of a function without code.
ghost use Rattle.std.specs.Prelude.{◌≡◌, ◌≤◌, ◌⊎◌, ℕ, List, Option, false, Some};
ghost use Rattle.std.specs.List.{AllByRecursion};
ghost use Rattle.sq_base.specs.declared.message_id.MessageId.{MessageId};
ghost use Rattle.sq_base.specs.declared.refusal.Refusal.TheVariants.{HomeDraining};
ghost use Rattle.sq_model.specs.declared.calls.HomeCall.{HomeCall};
ghost use Rattle.sq_model.specs.declared.calls.HomeCall.TheVariants.{Send, StartDrain, FinishDrain, LeaveDrain, Enter, GiveBack};
ghost use Rattle.sq_model.specs.declared.home_mode.HomeMode.TheVariants.{Accepting, Draining, Drained};
ghost use Rattle.sq_model.specs.declared.item.Item.{Item};
ghost use Rattle.sq_model.specs.declared.item.Reason.TheVariants.{Drain};
ghost use Rattle.sq_model.specs.declared.place.Site.{Site};
ghost use Rattle.sq_model.specs.declared.replies.EnteredRow.{EnteredRow};
ghost use Rattle.sq_model.specs.declared.replies.HomeReply.{HomeReply};
ghost use Rattle.sq_model.specs.declared.replies.HomeReply.TheVariants.{Done, Left, Entered};
ghost use Rattle.sq_model.specs.Homes.{Contents, Home, Unopened, Serving, HomeStep, accepts, home_refusal, unexpired_rows};
ghost use Rattle.sq_model.specs.Lineages.{rows_of, rows_with};
ghost use Rattle.sq_model.specs.Replays.{HomeEvent, Replays};
ghost use Rattle.sq_model.specs.Systems.{Opening, RunFrom, System, Tag, opening};
ghost use Rattle.sq_laws.specs.Drains.{AreAllInFlight, ComesInAsItWas, IsDrainedOrClosed, IsEmptyOnceDrained, LeavesByDrain, TakesNone};

/// Nothing comes into a home that drains, or is drained: no message is sent to it, comes in or comes back. Each is refused as
/// HomeDraining before any other check of the home, and after a step the home holds no message more often than before.
pub fn nothing_comes_into_a_home_that_drains()
    ensures sends { (site : Site) (its : Contents) (m : ℕ) (body : List ℕ) (delay : Option ℕ) (reply : HomeReply) (after : Home) → HomeStep site (Serving its) m (Send body delay) reply after → its.mode ≡ Accepting }
    ensures enters { (site : Site) (its : Contents) (m : ℕ) (item : Item) (reply : HomeReply) (after : Home) → HomeStep site (Serving its) m (Enter item) reply after → its.mode ≡ Accepting }
    ensures gives_back { (site : Site) (its : Contents) (m : ℕ) (item : Item) (reply : HomeReply) (after : Home) → HomeStep site (Serving its) m (GiveBack item) reply after → its.mode ≡ Accepting }
    ensures send_refused { (site : Site) (its : Contents) (m : ℕ) (body : List ℕ) (delay : Option ℕ) → accepts its.mode ≡ false → home_refusal site (Serving its) m (Send body delay) ≡ Some HomeDraining }
    ensures enter_refused { (site : Site) (its : Contents) (m : ℕ) (item : Item) → accepts its.mode ≡ false → home_refusal site (Serving its) m (Enter item) ≡ Some HomeDraining }
    ensures give_back_refused { (site : Site) (its : Contents) (m : ℕ) (item : Item) → accepts its.mode ≡ false → home_refusal site (Serving its) m (GiveBack item) ≡ Some HomeDraining }
    ensures no_more { (x : MessageId) (site : Site) (its : Contents) (m : ℕ) (call : HomeCall) (reply : HomeReply) (after : Home) → accepts its.mode ≡ false → HomeStep site (Serving its) m call reply after
        → rows_with x (rows_of after) ≤ rows_with x its.rows }
{}

/// A home that is drained holds no message: where it is the replay of its history, and in each run of the whole system.
pub fn a_drained_home_is_empty()
    ensures replayed { (site : Site) (events : List HomeEvent) (home : Home) → Replays (HomeStep site) Unopened events home → IsEmptyOnceDrained home }
    ensures in_a_run { (o : Opening) (run : List Tag) (after : System) → RunFrom (opening o) run after → AllByRecursion (λ at. IsEmptyOnceDrained at.home) after.homes }
{}

/// What leaves by a drain is a message at rest of a home that drains, for another home of its queue; the others stay.
pub fn a_drain_takes_a_message_at_rest()
    ensures { (site : Site) (its : Contents) (m : ℕ) (item : Item) (after : Home) → HomeStep site (Serving its) m LeaveDrain (Left item) after → LeavesByDrain site its m item after }
{}

/// What comes in by a drain, or comes back, is the message as it was: its id, its lineage, its body, its age, the moment from which
/// on it is visible, its receive number, its last receive and its origin.
pub fn a_drained_message_keeps_what_it_had()
    ensures entered { (site : Site) (its : Contents) (m : ℕ) (item : Item) (entered : EnteredRow) (after : Home) → item.reason ≡ Drain → HomeStep site (Serving its) m (Enter item) (Entered entered) after
        → ComesInAsItWas its m item.row entered after }
    ensures given_back { (site : Site) (its : Contents) (m : ℕ) (item : Item) (entered : EnteredRow) (after : Home) → item.reason ≡ Drain → HomeStep site (Serving its) m (GiveBack item) (Entered entered) after
        → ComesInAsItWas its m item.row entered after }
{}

/// A home that drains never takes messages again, whatever settings it is given, and one that is drained stays so until it is closed.
pub fn a_drain_ends_in_close_alone()
    ensures draining { (site : Site) (its : Contents) (m : ℕ) (call : HomeCall) (reply : HomeReply) (after : Home) → its.mode ≡ Draining → HomeStep site (Serving its) m call reply after → TakesNone after }
    ensures drained { (site : Site) (its : Contents) (m : ℕ) (call : HomeCall) (reply : HomeReply) (after : Home) → its.mode ≡ Drained → HomeStep site (Serving its) m call reply after → IsDrainedOrClosed after }
    ensures for_good { (site : Site) (its : Contents) (events : List HomeEvent) (after : Home) → accepts its.mode ≡ false → Replays (HomeStep site) (Serving its) events after → TakesNone after }
{}

/// A drain is never stuck: a message may leave, or the drain may end, or each message that is left is in flight.
pub fn a_drain_goes_on()
    ensures { (site : Site) (its : Contents) (m : ℕ) → its.mode ≡ Draining
        → ((item : Item) × (after : Home) × HomeStep site (Serving its) m LeaveDrain (Left item) after) ⊎ (((after : Home) × HomeStep site (Serving its) m FinishDrain Done after) ⊎ AreAllInFlight its m) }
{}

/// A drain that is asked for again changes nothing, but that what has expired goes.
pub fn a_drain_is_asked_for_once()
    ensures { (site : Site) (its : Contents) (m : ℕ) (after : Home) → accepts its.mode ≡ false → HomeStep site (Serving its) m StartDrain Done after → after ≡ Serving (record its { rows = unexpired_rows its m }) }
{}
