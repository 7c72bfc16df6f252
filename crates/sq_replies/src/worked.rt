//! Worked cases: the texts of some answers, each the contract of a function without code.
#![tactic(auto, unfolding(crate::proofs::OnLiterals::replies_on_literals))]

ghost use Rattle.std.specs.Prelude.{◌≡◌, List, [], ◌∷◌, ◌++◌, codes, map, Some, None, Ok};
ghost use Rattle.sq_base.specs.declared.refusal.Refusal.TheVariants.{NoMemory, ClockRange, HomeDraining, Worn, InvalidParameterValue};
ghost use Rattle.sq_calls.specs.declared.calls.Answer.TheVariants.{Queues, Sources, Batch, Started, Cancelled, Tasks};
ghost use Rattle.sq_calls.specs.declared.calls.Answered.TheVariants.{Turn};
ghost use Rattle.sq_model.specs.declared.task.FailureReason.TheVariants.{NoOrigin};
ghost use Rattle.sq_model.specs.declared.task.TaskStatus.TheVariants.{Running, Cancelling, Failed};
ghost use Rattle.sq_replies.specs.Replies.{reply_text_of};
ghost use Rattle.sq_replies.specs.Worked.{text_of, every_turned, none_asked, all_asked, redrive_asked, q_shown, back_from_d, moved_to_q, deleted, sent_with, failed_with};

/// The URLs of no queue, of two queues, and of one queue that has another one for its dead letters.
pub fn queues_are_listed_by_their_urls()
    ensures none { text_of (Queues []) ≡ codes "{\"QueueUrls\":[]}" }
    ensures two { text_of (Queues (codes "d" ∷ codes "q" ∷ [])) ≡ codes "{\"QueueUrls\":[\"http://localhost/000000000000/d\",\"http://localhost/000000000000/q\"]}" }
    ensures source { text_of (Sources (codes "q" ∷ [])) ≡ codes "{\"queueUrls\":[\"http://localhost/000000000000/q\"]}" }
{}

/// A queue without messages and policies, where nothing is asked for, and where everything is.
pub fn a_new_queue_is_shown_with_its_defaults()
    ensures nothing { text_of (q_shown none_asked None) ≡ codes "{\"Attributes\":{}}" }
    ensures everything { text_of (q_shown all_asked None) ≡ codes "{\"Attributes\":{\"ApproximateNumberOfMessages\":\"0\",\"ApproximateNumberOfMessagesDelayed\":\"0\",\"ApproximateNumberOfMessagesNotVisible\":\"0\",\"DelaySeconds\":\"0\",\"MessageRetentionPeriod\":\"345600\",\"QueueArn\":\"arn:aws:sqs:local:000000000000:q\",\"ReceiveMessageWaitTimeSeconds\":\"0\",\"VisibilityTimeout\":\"30\"}}" }
{}

/// A policy is JSON in a text. It is shown only where it is set.
pub fn a_policy_is_a_text_within_a_text()
    ensures set { text_of (q_shown redrive_asked (Some (record { target = codes "d"; max_receives = 1000 }))) ≡ codes "{\"Attributes\":{\"RedrivePolicy\":\"{\\\"deadLetterTargetArn\\\":\\\"arn:aws:sqs:local:000000000000:d\\\",\\\"maxReceiveCount\\\":1000}\"}}" }
    ensures unset { text_of (q_shown redrive_asked None) ≡ codes "{\"Attributes\":{}}" }
{}

/// What came of a turn is one word.
pub fn a_turn_is_answered_by_one_word()
    ensures { map (λ turned. reply_text_of (Ok (Turn turned))) every_turned ≡ map (λ word. codes "{\"Turn\":\"" ++ (word ++ codes "\"}"))
        (codes "left" ∷ codes "nothing" ∷ codes "entered" ∷ codes "turned" ∷ codes "back" ∷ codes "dropped" ∷ codes "full" ∷ codes "throttled" ∷ codes "failed" ∷ codes "finished" ∷ codes "waiting" ∷ codes "ended" ∷ []) }
{}

/// A task is started and cancelled: its handle, and what it had moved.
pub fn a_task_goes_by_its_handle()
    ensures started { text_of (Started 1) ≡ codes "{\"TaskHandle\":\"task-0000000000000001\"}" }
    ensures later { text_of (Started 171) ≡ codes "{\"TaskHandle\":\"task-00000000000000ab\"}" }
    ensures cancelled { text_of (Cancelled 2) ≡ codes "{\"ApproximateNumberOfMessagesMoved\":2}" }
{}

/// Tasks are listed with the members that each has: the handle of one that runs alone, and the reason of one that failed.
pub fn a_task_is_listed_with_what_it_has()
    ensures none { text_of (Tasks []) ≡ codes "{\"Results\":[]}" }
    ensures running { text_of (Tasks (moved_to_q Running ∷ [])) ≡ codes "{\"Results\":[{\"ApproximateNumberOfMessagesMoved\":2,\"DestinationArn\":\"arn:aws:sqs:local:000000000000:q\",\"MaxNumberOfMessagesPerSecond\":2,\"SourceArn\":\"arn:aws:sqs:local:000000000000:d\",\"StartedTimestamp\":1000,\"Status\":\"RUNNING\",\"TaskHandle\":\"task-0000000000000001\"}]}" }
    ensures cancelling { text_of (Tasks (moved_to_q Cancelling ∷ [])) ≡ codes "{\"Results\":[{\"ApproximateNumberOfMessagesMoved\":2,\"DestinationArn\":\"arn:aws:sqs:local:000000000000:q\",\"MaxNumberOfMessagesPerSecond\":2,\"SourceArn\":\"arn:aws:sqs:local:000000000000:d\",\"StartedTimestamp\":1000,\"Status\":\"CANCELLING\"}]}" }
    ensures failed { text_of (Tasks (back_from_d 1 (Failed NoOrigin) ∷ [])) ≡ codes "{\"Results\":[{\"ApproximateNumberOfMessagesMoved\":0,\"FailureReason\":\"CouldNotDetermineMessageSource\",\"SourceArn\":\"arn:aws:sqs:local:000000000000:d\",\"StartedTimestamp\":1000,\"Status\":\"FAILED\"}]}" }
{}

/// Two deletes of which none failed; a send that failed between two that did not; and entries that all failed, none of them by
/// the fault of who sent them.
pub fn a_batch_tells_failures_and_successes_apart()
    ensures deleted { text_of (Batch (deleted (codes "x") ∷ deleted (codes "y") ∷ [])) ≡ codes "{\"Failed\":[],\"Successful\":[{\"Id\":\"x\"},{\"Id\":\"y\"}]}" }
    ensures sent { text_of (Batch (sent_with (codes "a") 0 (codes "0cc175b9c0f1b6a831c399e269772661") ∷ failed_with (codes "b") InvalidParameterValue ∷ sent_with (codes "c") 1 (codes "4a8a08f09d37b73795649038408b5f33") ∷ [])) ≡ codes "{\"Failed\":[{\"Code\":\"InvalidParameterValue\",\"Id\":\"b\",\"SenderFault\":true}],\"Successful\":[{\"Id\":\"a\",\"MD5OfMessageBody\":\"0cc175b9c0f1b6a831c399e269772661\",\"MessageId\":\"00000000-0001-8000-8000-000000000000\"},{\"Id\":\"c\",\"MD5OfMessageBody\":\"4a8a08f09d37b73795649038408b5f33\",\"MessageId\":\"00000000-0001-8000-8000-000000000001\"}]}" }
    ensures failed { text_of (Batch (failed_with (codes "x") NoMemory ∷ failed_with (codes "y") ClockRange ∷ failed_with (codes "z") Worn ∷ failed_with (codes "w") HomeDraining ∷ [])) ≡ codes "{\"Failed\":[{\"Code\":\"NoMemory\",\"Id\":\"x\",\"SenderFault\":false},{\"Code\":\"ClockRange\",\"Id\":\"y\",\"SenderFault\":false},{\"Code\":\"Worn\",\"Id\":\"z\",\"SenderFault\":false},{\"Code\":\"HomeDraining\",\"Id\":\"w\",\"SenderFault\":false}],\"Successful\":[]}" }
{}
