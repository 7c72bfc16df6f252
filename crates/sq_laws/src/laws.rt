//! Theorems of the model, each the contract of a function without code.
ghost use Rattle.std.specs.Prelude.{◌≡◌, ◌+◌, ◌≤◌, ◌⊎◌, ℕ, List, None, slice_get};
ghost use Rattle.sq_base.specs.StampValue.{StampValue};
ghost use Rattle.sq_base.specs.declared.message_id.MessageId.{MessageId};
ghost use Rattle.sq_model.specs.declared.place.Site.{Site};
ghost use Rattle.sq_model.specs.declared.calls.HomeCall.{HomeCall};
ghost use Rattle.sq_model.specs.declared.replies.HomeReply.{HomeReply};
ghost use Rattle.std.specs.List.{All};
ghost use Rattle.sq_model.specs.Rows.{IsCounted};
ghost use Rattle.sq_model.specs.Homes.{Home, Unopened, HomeStep, home_refusal, IsRising, IsIdle, HasSlot};
ghost use Rattle.sq_model.specs.Systems.{System, Tag, DirectoryEvent, RunFrom, IsRun, opening, IsOnePlace, HomeGoes, AreDirectory, AreLedger, Opening};
ghost use Rattle.sq_model.specs.Directories.{DirectoryStep};
ghost use Rattle.sq_model.specs.Ledgers.{LedgerEvent, LedgerStep};
ghost use Rattle.sq_model.specs.Replays.{HomeEvent, Replays};
ghost use Rattle.sq_model.specs.Matches.{HomeHistory, IsPaired, IsUnmatched, is_of_item};
ghost use Rattle.sq_model.specs.Passages.{is_leave};
ghost use Rattle.sq_model.specs.Merges.{LedgerIsAlone, of_home, of_directory, of_ledger, history_at, IsMerged};
ghost use Rattle.sq_model.specs.Places.{run_ends, run_sends, homes_with};
ghost use Rattle.sq_laws.specs.Receives.{DrainsCameInCounted, IsSystemCounted};
ghost use Rattle.sq_model.specs.Lineages.{home_ends, home_sends, home_outs, home_ins, items_with, rows_of, rows_with, ends_with, sends_with};

/// A step is given only where no check fails.
pub fn steps_are_allowed()
    ensures { (site : Site) (home : Home) (m : ℕ) (call : HomeCall) (reply : HomeReply) (after : Home)
        → HomeStep site home m call reply after → home_refusal site home m call ≡ None }
{}

/// Where no check fails there is a step, but for a dead letter's leave that finds no dead row, or a drain's that finds none at rest.
pub fn steps_are_possible()
    ensures { (site : Site) (home : Home) (m : ℕ) (call : HomeCall) → IsRising home → home_refusal site home m call ≡ None
        → IsIdle home m call ⊎ ((reply : HomeReply) × (after : Home) × HasSlot reply × HomeStep site home m call reply after) }
{}

/// In a step of a home no message is lost and none is made twice: for each message, what is in the home
/// after it, left the system in it or went into transit, is what was there, was sent or came in.
pub fn steps_lose_nothing()
    ensures { (x : MessageId) (site : Site) (home : Home) (m : ℕ) (call : HomeCall) (reply : HomeReply) (after : Home)
        → HomeStep site home m call reply after
        → rows_with x (rows_of after) + ends_with x (home_ends home m call) + rows_with x (home_outs reply)
        ≡ rows_with x (rows_of home) + sends_with x (home_sends reply) + rows_with x (home_ins call) }
{}

/// In a run of the whole system each message is in one place: a message that was sent is in one home, once, or in transit,
/// once, or left the system in one way, and no id is sent twice. A message that was not sent is nowhere.
pub fn each_message_is_in_one_place()
    ensures { (x : MessageId) (o : Opening) (run : List Tag) (after : System) (r : RunFrom (opening o) run after) → IsOnePlace o.sites
        → (homes_with x after.homes + items_with x after.ledger.items + ends_with x (run_ends (opening o) run after r) ≡ sends_with x (run_sends run)) × (sends_with x (run_sends run) ≤ 1) }
{}

/// Histories make a run: a list in which the events of each part stand as in its history, where each history leads from the
/// opening to that part's value, is a run of the whole system.
pub fn histories_make_a_run()
    ensures { (before after : System) (run : List Tag)
        → ((i : ℕ) → HomeGoes (slice_get before.homes i) (of_home i run) (slice_get after.homes i))
        → AreDirectory (of_directory run) → Replays DirectoryStep before.directory (of_directory run) after.directory
        → LedgerIsAlone run → AreLedger (of_ledger run) → Replays LedgerStep before.ledger (of_ledger run) after.ledger
        → RunFrom before run after }
{}

/// Histories that are merged are one run: where the history of each part leads from the opening to that part's value, the list
/// of all events sorted by stamp is a run of the whole system, and its moments never fall.
pub fn merged_histories_are_a_run()
    ensures { (o : Opening) (directory : List DirectoryEvent) (ledger : List LedgerEvent) (homes : List (List HomeEvent)) (run : List Tag) (after : System)
        → IsMerged directory ledger homes run
        → ((i : ℕ) → HomeGoes (slice_get (opening o).homes i) (history_at homes i) (slice_get after.homes i))
        → AreDirectory directory → Replays DirectoryStep (opening o).directory directory after.directory
        → AreLedger ledger → Replays LedgerStep (opening o).ledger ledger after.ledger
        → IsRun o run after }
{}

/// The last receive of a row is none exactly where its receive number is 0: in a run of the whole system, of each row of each home and
/// of each message in transit. In a home that is the replay of its history it is so of each row, where it was so of each message that
/// came in, or came back, by a drain: such a one keeps both.
pub fn receives_are_counted()
    ensures in_a_run { (o : Opening) (run : List Tag) (after : System) → RunFrom (opening o) run after → IsSystemCounted after }
    ensures at_a_home { (site : Site) (events : List HomeEvent) (home : Home) → Replays (HomeStep site) Unopened events home → DrainsCameInCounted events → All IsCounted (rows_of home) }
{}

/// Where the steps that homes and the ledger share are paired, none is without its partner.
pub fn paired_steps_have_their_partners()
    ensures leaves { (ledger : List LedgerEvent) (homes : List HomeHistory) (stamp : StampValue) → IsPaired ledger homes → IsUnmatched is_leave ledger homes stamp → ⊥ }
    ensures items { (ledger : List LedgerEvent) (homes : List HomeHistory) (stamp : StampValue) → IsPaired ledger homes → IsUnmatched is_of_item ledger homes stamp → ⊥ }
{}
