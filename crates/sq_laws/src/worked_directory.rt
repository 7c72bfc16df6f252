//! Worked cases of queues that are made, changed and deleted, each the contract of a function without code.
#![tactic(auto, unfolding(sq_model::specs::Directories::DirectoryStep, sq_model::specs::Directories::directory_refusal))]

ghost use Rattle.std.specs.Prelude.{◌≡◌, [], ◌∷◌, Some, None, Ok, Err, codes};
ghost use Rattle.sq_base.specs.declared.refusal.Refusal.TheVariants.{InvalidAttributeValue, PurgeQueueInProgress, QueueDeletedRecently, QueueDoesNotExist, QueueNameExists, ResourceNotFoundException, TableFull, UnsupportedOperation, Worn};
ghost use Rattle.sq_model.specs.declared.directory.DirectoryCall.TheVariants as asks;
ghost use Rattle.sq_model.specs.declared.directory.DirectoryReply.TheVariants as answers;
ghost use Rattle.sq_model.specs.declared.directory.NamePrefix.TheVariants.{Any, Text, NoName};
ghost use Rattle.sq_model.specs.declared.policy.AllowPolicy.TheVariants.{AllowAll, ByQueue, DenyAll};
ghost use Rattle.sq_model.specs.Directories.{DirectoryStep, all_named, can_redrive, directory_refusal, opening_directory, resolved, settings_at, attributes_at, with_attributes};
ghost use Rattle.sq_model.specs.Policies.{nothing_given};
ghost use Rattle.sq_laws.specs.WorkedDirectory.{allow_given, both, dead_to, delay_given, deleted_twice, denying, directory_with, letters_again, letters_for, letters_gone, letters_queue, made_queue, numbered, numbers_given, one_queue, only_x, purged_at, redrawn, redrive_given, source_queue, unset_source};

/// The first queue has number 1 and version 1. It is found again where what is given is its own, a policy as it is printed, and
/// is refused else; the fifth queue is too many.
pub fn a_queue_is_made_once()
    ensures made { DirectoryStep (opening_directory 4) 0 (asks.Create (codes "d") nothing_given) (answers.Made (settings_at letters_queue)) (record (opening_directory 4) { queues = letters_queue ∷ []; made = 1 }) }
    ensures found { DirectoryStep both 0 (asks.Create (codes "q") nothing_given) (answers.Made (settings_at source_queue)) both }
    ensures found_with_policy { DirectoryStep both 0 (asks.Create (codes "q") (redrive_given (Some (dead_to (codes "d"))))) (answers.Made (settings_at source_queue)) both }
    ensures also_when_gone { directory_refusal letters_gone 61000 (asks.Create (codes "q") (redrive_given (Some (dead_to (codes "d"))))) ≡ None }
    ensures other_delay { directory_refusal both 0 (asks.Create (codes "q") (delay_given 1)) ≡ Some QueueNameExists }
    ensures other_policy { directory_refusal both 0 (asks.Create (codes "q") (redrive_given None)) ≡ Some QueueNameExists }
    ensures same_order { directory_refusal (letters_for (Some (ByQueue (codes "x" ∷ codes "q" ∷ [])))) 0 (asks.Create (codes "d") (allow_given (ByQueue (codes "x" ∷ codes "q" ∷ [])))) ≡ None }
    ensures other_order { directory_refusal (letters_for (Some (ByQueue (codes "x" ∷ codes "q" ∷ [])))) 0 (asks.Create (codes "d") (allow_given (ByQueue (codes "q" ∷ codes "x" ∷ [])))) ≡ Some QueueNameExists }
    ensures said_and_unsaid { directory_refusal (letters_for None) 0 (asks.Create (codes "d") (allow_given AllowAll)) ≡ Some QueueNameExists }
    ensures differs_before_policy { directory_refusal both 0 (asks.Create (codes "q") (record (redrive_given (Some (dead_to (codes "x")))) { delay = Some 1 })) ≡ Some QueueNameExists }
    ensures last_one { directory_refusal (record both { most = 3 }) 0 (asks.Create (codes "x") nothing_given) ≡ None }
    ensures full { directory_refusal (record both { most = 2 }) 0 (asks.Create (codes "x") nothing_given) ≡ Some TableFull }
{}

/// A queue that was purged at 1000 is purged again from 61,000 on.
pub fn a_purge_comes_once_in_a_minute()
    ensures first { DirectoryStep one_queue 1000 (asks.PurgeTicket (codes "d")) (answers.Ticket 1) (purged_at 1000) }
    ensures early { directory_refusal (purged_at 1000) 60999 (asks.PurgeTicket (codes "d")) ≡ Some PurgeQueueInProgress }
    ensures in_time { DirectoryStep (purged_at 1000) 61000 (asks.PurgeTicket (codes "d")) (answers.Ticket 1) (purged_at 61000) }
    ensures unknown { directory_refusal one_queue 1000 (asks.PurgeTicket (codes "x")) ≡ Some QueueDoesNotExist }
{}

/// The name of a queue that was deleted at 61,000 is free from 121,000 on, for a queue with another number. Of two causes the name
/// comes first, then the policy, then whether the table is full.
pub fn a_deleted_name_is_not_free_at_once()
    ensures gone { DirectoryStep both 61000 (asks.Remove (codes "d")) (answers.Removed 1) letters_gone }
    ensures unknown { resolved (codes "d") letters_gone ≡ Err QueueDoesNotExist }
    ensures early { directory_refusal letters_gone 120999 (asks.Create (codes "d") nothing_given) ≡ Some QueueDeletedRecently }
    ensures in_time { DirectoryStep letters_gone 121000 (asks.Create (codes "d") nothing_given) (answers.Made (settings_at (made_queue 3 (codes "d"))))
        (record letters_gone { queues = source_queue ∷ made_queue 3 (codes "d") ∷ []; made = 3 }) }
    ensures early_the_second_time { directory_refusal (deleted_twice 61000) 120999 (asks.Create (codes "d") nothing_given) ≡ Some QueueDeletedRecently }
    ensures in_time_the_second_time { directory_refusal (deleted_twice 61000) 121000 (asks.Create (codes "d") nothing_given) ≡ None }
    ensures name_before_policy { directory_refusal (record letters_gone { most = 2 }) 120999 (asks.Create (codes "d") (redrive_given (Some (dead_to (codes "x"))))) ≡ Some QueueDeletedRecently }
    ensures policy_before_full { directory_refusal (record letters_gone { most = 2 }) 121000 (asks.Create (codes "d") (redrive_given (Some (dead_to (codes "x"))))) ≡ Some InvalidAttributeValue }
    ensures full_last { directory_refusal (record letters_gone { most = 2 }) 121000 (asks.Create (codes "d") nothing_given) ≡ Some TableFull }
{}

/// A queue is chosen for dead letters by another one that it permits, and only while it is there. The number that its name has then
/// is what homes go by.
pub fn a_dead_letter_queue_permits_its_sources()
    ensures chosen { DirectoryStep (letters_for None) 0 (asks.Set (codes "q") (redrive_given (Some (dead_to (codes "d"))))) (answers.Changed (settings_at (record source_queue { version = 2 }))) (directory_with (letters_queue ∷ record source_queue { version = 2 } ∷ []) []) }
    ensures all_allowed { directory_refusal (letters_for (Some AllowAll)) 0 (asks.Set (codes "q") (redrive_given (Some (dead_to (codes "d"))))) ≡ None }
    ensures none_allowed { directory_refusal (letters_for (Some DenyAll)) 0 (asks.Set (codes "q") (redrive_given (Some (dead_to (codes "d"))))) ≡ Some InvalidAttributeValue }
    ensures other_allowed { directory_refusal (letters_for (Some only_x)) 0 (asks.Set (codes "q") (redrive_given (Some (dead_to (codes "d"))))) ≡ Some InvalidAttributeValue }
    ensures allowed_by_name { directory_refusal (letters_for (Some only_x)) 0 (asks.Create (codes "x") (redrive_given (Some (dead_to (codes "d"))))) ≡ None }
    ensures itself { directory_refusal (letters_for None) 0 (asks.Set (codes "q") (redrive_given (Some (dead_to (codes "q"))))) ≡ Some InvalidAttributeValue }
    ensures unknown { directory_refusal (letters_for None) 0 (asks.Set (codes "q") (redrive_given (Some (dead_to (codes "x"))))) ≡ Some InvalidAttributeValue }
    ensures gone { directory_refusal letters_gone 61000 (asks.Set (codes "q") (redrive_given (Some (dead_to (codes "d"))))) ≡ Some InvalidAttributeValue }
    ensures denied_later { directory_refusal both 0 (asks.Set (codes "d") (record nothing_given { allow = Some (Some DenyAll) })) ≡ None }
    ensures still_served { directory_refusal denying 0 (asks.Set (codes "q") (delay_given 1)) ≡ None }
    ensures not_again { directory_refusal denying 0 (asks.Set (codes "q") (redrive_given (Some (dead_to (codes "d"))))) ≡ Some InvalidAttributeValue }
    ensures unset { DirectoryStep both 0 (asks.Set (codes "q") (redrive_given None)) (answers.Changed (settings_at unset_source)) (directory_with (letters_queue ∷ unset_source ∷ []) []) }
    ensures queue_before_policy { directory_refusal (letters_for None) 0 (asks.Set (codes "x") (redrive_given (Some (dead_to (codes "x"))))) ≡ Some QueueDoesNotExist }
{}

/// The sources of a queue are those whose policy has its number: a queue that is made later by the same name has none. Only a queue
/// that has sources is one that messages are moved from.
pub fn sources_go_by_the_number()
    ensures sources { DirectoryStep both 0 (asks.Sources (codes "d")) (answers.Sources (codes "q" ∷ [])) both }
    ensures none { DirectoryStep letters_again 0 (asks.Sources (codes "d")) (answers.Sources []) letters_again }
    ensures listed { DirectoryStep both 0 (asks.List Any) (answers.Listed (codes "d" ∷ codes "q" ∷ [])) both }
    ensures begun { DirectoryStep both 0 (asks.List (Text (codes "q"))) (answers.Listed (codes "q" ∷ [])) both }
    ensures no_name { DirectoryStep both 0 (asks.List NoName) (answers.Listed []) both }
    ensures read { DirectoryStep both 0 (asks.Read (codes "q")) (answers.Read (attributes_at source_queue)) both }
    ensures found { DirectoryStep both 0 (asks.Url (codes "q")) (answers.Found 2) both }
    ensures resolved { resolved (codes "q") both ≡ Ok 2 }
    ensures named { all_named both ≡ record { number = 1; name = codes "d" } ∷ record { number = 2; name = codes "q" } ∷ [] }
    ensures moved { can_redrive (codes "d") (Some (codes "q")) both ≡ Ok (record { source = record { number = 1; name = codes "d" }; destination = Some (record { number = 2; name = codes "q" }) }) }
    ensures home { can_redrive (codes "d") None both ≡ Ok (record { source = record { number = 1; name = codes "d" }; destination = None }) }
    ensures no_source { can_redrive (codes "q") None both ≡ Err UnsupportedOperation }
    ensures unknown_source { can_redrive (codes "x") None both ≡ Err ResourceNotFoundException }
    ensures unknown_destination { can_redrive (codes "q") (Some (codes "x")) both ≡ Err ResourceNotFoundException }
{}

/// What is given is set, each attribute in its place, and the version is one more, also where nothing is given. A policy keeps the
/// number that its name had when it was set, until it is set again.
pub fn attributes_are_set()
    ensures numbers { DirectoryStep one_queue 0 (asks.Set (codes "d") numbers_given) (answers.Changed (settings_at numbered)) (record one_queue { queues = numbered ∷ [] }) }
    ensures made_with { DirectoryStep (opening_directory 4) 0 (asks.Create (codes "d") numbers_given) (answers.Made (settings_at (record numbered { version = 1 }))) (record one_queue { queues = record numbered { version = 1 } ∷ [] }) }
    ensures nothing { with_attributes one_queue.queues nothing_given letters_queue ≡ record letters_queue { version = 2 } }
    ensures number_stays { with_attributes letters_again.queues (delay_given 1) source_queue ≡ redrawn 1 1 }
    ensures number_is_new { with_attributes letters_again.queues (redrive_given (Some (dead_to (codes "d")))) source_queue ≡ redrawn 0 3 }
    ensures last_version { directory_refusal (record one_queue { queues = record letters_queue { version = 18446744073709551614 } ∷ [] }) 0 (asks.Set (codes "d") nothing_given) ≡ None }
    ensures worn { directory_refusal (record one_queue { queues = record letters_queue { version = 18446744073709551615 } ∷ [] }) 0 (asks.Set (codes "d") (redrive_given (Some (dead_to (codes "x"))))) ≡ Some Worn }
{}
