//! Worked cases: what the model says of one message or two at given moments, each the contract of a function without code.
#![tactic(auto, unfolding(sq_model::specs::Homes::HomeStep, sq_model::specs::Homes::home_refusal))]

ghost use Rattle.std.specs.Prelude.{◌≡◌, ℕ, true, false, List, [], ◌∷◌, Some, None, length};
ghost use Rattle.sq_base.specs.declared.refusal.Refusal.TheVariants.{InvalidParameterValue, MessageNotInflight, OverLimit, ReceiptHandleIsInvalid};
ghost use Rattle.sq_base.specs.declared.message_id.MessageId.{MessageId};
ghost use Rattle.sq_base.specs.declared.row.Row.{Row};
ghost use Rattle.sq_model.specs.declared.home_mode.HomeMode.TheVariants.{Accepting};
ghost use Rattle.sq_model.specs.declared.calls.HomeCall.TheVariants.{Configure, Send, Look, Delete, Change, Purge};
ghost use Rattle.sq_model.specs.declared.replies.HomeReply.TheVariants.{Done, Sent, Looked, Over};
ghost use Rattle.sq_model.specs.Rows.{is_delayed, is_in_flight, is_dead, is_live, is_expired};
ghost use Rattle.sq_model.specs.Homes.{Home, Serving, HomeStep, home_refusal, entered_row, returned_row};
ghost use Rattle.sq_laws.specs.Worked.{plain, kept_for, strict, worked_home, wide, narrow, careful, hello_text, worked_id, sent_as, hello, delayed_hello, hello_once, hello_twice, hello_late, worked_receipt, with_rows, dead_hello, moved_hello};

/// The first message of a home has serial 0, and may be received at its moment.
pub fn a_sent_message_is_received_at_once()
    ensures sent { HomeStep wide (with_rows plain 0 []) 1000 (Send hello_text None) (Sent (record { id = worked_id 0; slot = 0 })) (with_rows plain 1 (hello ∷ [])) }
    ensures received { HomeStep wide (with_rows plain 1 (hello ∷ [])) 1000 (Look 1 None) (Looked (hello_once ∷ [])) (with_rows plain 1 (hello_once ∷ [])) }
{}

/// A message that was received at 1000 for 30 seconds is in flight at 30,999 and live at 31,000.
pub fn a_received_message_is_hidden_until_its_timeout()
    ensures hidden { is_live plain 30999 hello_once ≡ false }
    ensures in_flight { is_in_flight 30999 hello_once ≡ true }
    ensures live { is_live plain 31000 hello_once ≡ true }
    ensures landed { is_in_flight 31000 hello_once ≡ false }
    ensures none_is_given { (picked : List Row) (after : Home) → HomeStep wide (with_rows plain 1 (hello_once ∷ [])) 30999 (Look 10 None) (Looked picked) after → length picked ≡ 0 }
{}

/// At 31,000 the same message is received for the second time; a look that gives nothing then is no step.
pub fn a_second_receive_has_number_two()
    ensures received { HomeStep wide (with_rows plain 1 (hello_once ∷ [])) 31000 (Look 1 None) (Looked (hello_twice ∷ [])) (with_rows plain 1 (hello_twice ∷ [])) }
    ensures not_withheld { (after : Home) → HomeStep wide (with_rows plain 1 (hello_once ∷ [])) 31000 (Look 1 None) (Looked []) after → ⊥ }
{}

/// After the second receive the receipt of the first deletes nothing, and that of the second takes the message.
/// A serial that was never given is refused.
pub fn only_the_last_receipt_deletes()
    ensures older { HomeStep wide (with_rows plain 1 (hello_twice ∷ [])) 31000 (Delete (worked_receipt 1)) Done (with_rows plain 1 (hello_twice ∷ [])) }
    ensures last { HomeStep wide (with_rows plain 1 (hello_twice ∷ [])) 31000 (Delete (worked_receipt 2)) Done (with_rows plain 1 []) }
    ensures again { HomeStep wide (with_rows plain 1 []) 31000 (Delete (worked_receipt 2)) Done (with_rows plain 1 []) }
    ensures never_given { home_refusal wide (with_rows plain 1 (hello_twice ∷ [])) 31000 (Delete (record { slot = 0; serial = 1; receive = 2 })) ≡ Some ReceiptHandleIsInvalid }
{}

/// A message that is sent at 1000 with a delay of 900 seconds is delayed at 900,999 and live at 901,000.
pub fn a_delayed_message_is_live_at_the_end_of_its_delay()
    ensures sent { HomeStep wide (with_rows plain 0 []) 1000 (Send hello_text (Some 900)) (Sent (record { id = worked_id 0; slot = 0 })) (with_rows plain 1 (delayed_hello ∷ [])) }
    ensures delayed { is_delayed 900999 delayed_hello ≡ true }
    ensures hidden { is_live plain 900999 delayed_hello ≡ false }
    ensures live { is_live plain 901000 delayed_hello ≡ true }
    ensures due { is_delayed 901000 delayed_hello ≡ false }
{}

/// A message that is sent at 1000 and kept for 60 seconds is there at 60,999 and expired at 61,000. A longer
/// retention that is set at 60,999 keeps it; set at 61,000 it comes too late: what expires goes by the settings before.
pub fn a_longer_retention_brings_no_message_back()
    ensures kept { is_expired (kept_for 60) 60999 hello ≡ false }
    ensures expired { is_expired (kept_for 60) 61000 hello ≡ true }
    ensures in_time { HomeStep wide (Serving (record { settings = kept_for 60; version = 1; mode = Accepting; next = 1; rows = hello ∷ [] })) 60999 (Configure (kept_for 120) 2) Done (Serving (record { settings = kept_for 120; version = 2; mode = Accepting; next = 1; rows = hello ∷ [] })) }
    ensures too_late { (after : Home) → HomeStep wide (Serving (record { settings = kept_for 60; version = 1; mode = Accepting; next = 1; rows = hello ∷ [] })) 61000 (Configure (kept_for 120) 2) Done after → after ≡ Serving (record { settings = kept_for 120; version = 2; mode = Accepting; next = 1; rows = [] }) }
{}

/// Settings whose version is not above the home's set nothing, and what has expired goes.
pub fn an_older_version_sets_nothing()
    ensures older { (after : Home) → HomeStep wide (Serving (record { settings = plain; version = 2; mode = Accepting; next = 1; rows = hello ∷ [] })) 2000 (Configure strict 1) Done after → after ≡ Serving (record { settings = plain; version = 2; mode = Accepting; next = 1; rows = hello ∷ [] }) }
    ensures unchanged { (after : Home) → HomeStep wide (Serving (record { settings = plain; version = 2; mode = Accepting; next = 1; rows = hello ∷ [] })) 2000 (Configure strict 2) Done after → after ≡ Serving (record { settings = plain; version = 2; mode = Accepting; next = 1; rows = hello ∷ [] }) }
    ensures expires { (after : Home) → HomeStep wide (Serving (record { settings = kept_for 60; version = 2; mode = Accepting; next = 1; rows = hello ∷ [] })) 61000 (Configure strict 2) Done after → after ≡ Serving (record { settings = kept_for 60; version = 2; mode = Accepting; next = 1; rows = [] }) }
{}

/// With one message in flight, where no more may be, and another one live, a look answers `Over` and nothing else.
pub fn too_many_in_flight_are_refused()
    ensures over { HomeStep careful (with_rows plain 2 (hello_once ∷ sent_as 1 ∷ [])) 2000 (Look 10 None) Over (with_rows plain 2 (hello_once ∷ sent_as 1 ∷ [])) }
    ensures nothing_else { (picked : List Row) (after : Home) → HomeStep careful (with_rows plain 2 (hello_once ∷ sent_as 1 ∷ [])) 2000 (Look 10 None) (Looked picked) after → ⊥ }
    ensures only_then { (after : Home) → HomeStep careful (with_rows plain 1 (hello_once ∷ [])) 2000 (Look 10 None) Over after → ⊥ }
    ensures one_of_two { HomeStep careful (with_rows plain 2 (hello ∷ sent_as 1 ∷ [])) 1000 (Look 10 None) (Looked (hello_once ∷ [])) (with_rows plain 2 (hello_once ∷ sent_as 1 ∷ [])) }
{}

/// A home that may hold one message refuses the second; one that is past its retention does not count.
pub fn a_full_home_refuses_a_send()
    ensures full { home_refusal narrow (with_rows plain 1 (hello ∷ [])) 2000 (Send hello_text None) ≡ Some OverLimit }
    ensures no_step { (id : MessageId) (slot : ℕ) (after : Home) → HomeStep narrow (with_rows plain 1 (hello ∷ [])) 2000 (Send hello_text None) (Sent (record { id = id; slot = slot })) after → ⊥ }
    ensures after_expire { home_refusal narrow (with_rows (kept_for 60) 1 (hello ∷ [])) 61000 (Send hello_text None) ≡ None }
{}

/// A timeout changed to 0 at 2000 makes the message live at 2000; a further change is refused, since it is not in flight.
pub fn a_change_to_zero_shows_the_message()
    ensures changed { HomeStep wide (with_rows plain 1 (hello_once ∷ [])) 2000 (Change (worked_receipt 1) 0) Done (with_rows plain 1 (record hello_once { visible_from = 2000 } ∷ [])) }
    ensures live { is_live plain 2000 (record hello_once { visible_from = 2000 }) ≡ true }
    ensures not_in_flight { home_refusal wide (with_rows plain 1 (record hello_once { visible_from = 2000 } ∷ [])) 2000 (Change (worked_receipt 1) 5) ≡ Some MessageNotInflight }
    ensures older_receipt { home_refusal wide (with_rows plain 1 (hello_twice ∷ [])) 31000 (Change (worked_receipt 1) 10) ≡ Some MessageNotInflight }
{}

/// A message that was received at 2000 may be hidden for 12 hours from 2000 on, and not 1 ms longer.
pub fn twelve_hours_count_from_the_last_receive()
    ensures allowed { home_refusal wide (with_rows plain 1 (hello_late ∷ [])) 2000 (Change (worked_receipt 1) 43200) ≡ None }
    ensures changed { HomeStep wide (with_rows plain 1 (hello_late ∷ [])) 2000 (Change (worked_receipt 1) 43200) Done (with_rows plain 1 (record hello_late { visible_from = 43202000 } ∷ [])) }
    ensures late { home_refusal wide (with_rows plain 1 (hello_late ∷ [])) 2001 (Change (worked_receipt 1) 43200) ≡ Some InvalidParameterValue }
{}

/// With one receive allowed, a message that was received once is dead from the moment at which it would be visible.
pub fn a_message_is_dead_after_its_last_receive()
    ensures not_yet { is_dead strict 30999 hello_once ≡ false }
    ensures dead { is_dead strict 31000 hello_once ≡ true }
    ensures not_live { is_live strict 31000 hello_once ≡ false }
    ensures fresh { is_live strict 1000 hello ≡ true }
    ensures none_is_given { (picked : List Row) (after : Home) → HomeStep wide (with_rows strict 1 (hello_once ∷ [])) 31000 (Look 10 None) (Looked picked) after → length picked ≡ 0 }
{}

/// A purge leaves no message, in flight or not, and serials go on.
pub fn a_purge_leaves_nothing()
    ensures { (after : Home) → HomeStep wide (with_rows plain 2 (hello_once ∷ sent_as 1 ∷ [])) 2000 Purge Done after → after ≡ with_rows plain 2 [] }
{}

/// A dead letter keeps its id and its age and remembers its queue; a task makes a new message; neither loses its lineage.
pub fn a_moved_message_starts_anew()
    ensures dead_letter { entered_row (worked_home 1) 7 3 40000 dead_hello ≡ record hello { serial = 7; slot = 3; visible_from = 40000; origin = Some 2 } }
    ensures of_a_task { entered_row (worked_home 1) 7 3 40000 moved_hello ≡ record hello { id = record { queue = 1; home = 0; serial = 7 }; serial = 7; slot = 3; enqueued = 40000; visible_from = 40000 } }
    ensures returned { returned_row 1 0 40000 dead_hello ≡ record hello { serial = 1; visible_from = 40000 } }
{}
