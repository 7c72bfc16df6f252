//! Theorems of the directory, each the contract of a function without code.
ghost use Rattle.std.specs.Prelude.{◌≡◌, ◌-◌, ◌↔◌, ℕ, List, None, Some, slice_get};
ghost use Rattle.std.specs.List.{Contains};
ghost use Rattle.sq_model.specs.declared.directory.DirectoryCall.{DirectoryCall};
ghost use Rattle.sq_model.specs.declared.directory.DirectoryCall.TheVariants.{List as ListNames, Remove, Sources};
ghost use Rattle.sq_model.specs.declared.directory.DirectoryReply.{DirectoryReply};
ghost use Rattle.sq_model.specs.declared.directory.DirectoryReply.TheVariants.{Listed, Removed, Sources as SourcesAre};
ghost use Rattle.sq_model.specs.declared.directory.NamePrefix.{NamePrefix};
ghost use Rattle.sq_model.specs.declared.directory.Queue.{Queue};
ghost use Rattle.sq_model.specs.Directories.{Directory, DirectoryStep, IsDirectory, IsGone, IsThere, directory_refusal, opening_directory};
ghost use Rattle.sq_model.specs.Replays.{Replays};
ghost use Rattle.sq_model.specs.Systems.{DirectoryEvent};
ghost use Rattle.sq_laws.specs.Creations.{IsBegunBy, IsSource, NamedByPolicy, AreInOrder, made_in};

/// A step is given only where no check fails.
pub fn directory_steps_are_allowed()
    ensures { (d : Directory) (m : ℕ) (call : DirectoryCall) (reply : DirectoryReply) (after : Directory) → DirectoryStep d m call reply after → directory_refusal d m call ≡ None }
{}

/// Where no check fails there is a step.
pub fn directory_steps_are_possible()
    ensures { (d : Directory) (m : ℕ) (call : DirectoryCall) → directory_refusal d m call ≡ None → (reply : DirectoryReply) × (after : Directory) × DirectoryStep d m call reply after }
{}

/// At a moment a directory has one answer to a call, and one directory to go on to.
pub fn a_directory_has_one_answer()
    ensures { (d : Directory) (m : ℕ) (call : DirectoryCall) (reply : DirectoryReply) (after : Directory) → DirectoryStep d m call reply after
        → (other : DirectoryReply) (again : Directory) → DirectoryStep d m call other again → (reply ≡ other) × (after ≡ again) }
{}

/// In each directory that is the replay of its history no two queues have one number, and no two one name. A queue's policy names
/// another queue that was made once. All that were made are there or deleted, and no more were made than may be.
pub fn queues_differ()
    ensures { (most : ℕ) (events : List DirectoryEvent) (d : Directory) → Replays DirectoryStep (opening_directory most) events d → IsDirectory d }
{}

/// The number of a queue that is deleted is no queue's after it, and is never given again.
pub fn numbers_of_queues_are_given_once()
    ensures gone { (d : Directory) (m : ℕ) (name : List ℕ) (number : ℕ) (after : Directory) → IsDirectory d → DirectoryStep d m (Remove name) (Removed number) after → IsGone number after }
    ensures stays { (number : ℕ) (d after : Directory) (events : List DirectoryEvent) → Replays DirectoryStep d events after → IsGone number d → IsGone number after }
{}

/// The queue of number n is the n-th that was made: the numbers of queues are their order of creation.
pub fn numbers_are_the_order_of_creation()
    ensures { (most : ℕ) (events : List DirectoryEvent) (d : Directory) (history : Replays DirectoryStep (opening_directory most) events d) (name : List ℕ) (queue : Queue) → IsThere d name queue
        → slice_get (made_in (opening_directory most) events d history) (queue.number - 1) ≡ Some name }
{}

/// ListQueues names the queues that are there and whose names begin as asked, each of them and no other, in order of creation.
pub fn queues_are_listed_in_order_of_creation()
    ensures in_order { (most : ℕ) (events : List DirectoryEvent) (d : Directory) → Replays DirectoryStep (opening_directory most) events d → (m : ℕ) (prefix : NamePrefix) (names : List (List ℕ)) (after : Directory)
        → DirectoryStep d m (ListNames prefix) (Listed names) after → AreInOrder d.queues 1 names }
    ensures exactly { (most : ℕ) (events : List DirectoryEvent) (d : Directory) → Replays DirectoryStep (opening_directory most) events d → (m : ℕ) (prefix : NamePrefix) (names : List (List ℕ)) (after : Directory)
        → DirectoryStep d m (ListNames prefix) (Listed names) after → (name : List ℕ) → Contains names name ↔ IsBegunBy prefix d name }
{}

/// ListDeadLetterSourceQueues names the queues that are there and have a policy whose target is this queue's number, each of them and
/// no other, in order of creation. Each has a policy that names this queue, as it is printed.
pub fn sources_are_listed_in_order_of_creation()
    ensures in_order { (most : ℕ) (events : List DirectoryEvent) (d : Directory) → Replays DirectoryStep (opening_directory most) events d → (m : ℕ) (asked : List ℕ) (names : List (List ℕ)) (after : Directory)
        → DirectoryStep d m (Sources asked) (SourcesAre names) after → AreInOrder d.queues 1 names }
    ensures exactly { (most : ℕ) (events : List DirectoryEvent) (d : Directory) → Replays DirectoryStep (opening_directory most) events d → (m : ℕ) (asked : List ℕ) (queue : Queue) (names : List (List ℕ)) (after : Directory)
        → IsThere d asked queue → DirectoryStep d m (Sources asked) (SourcesAre names) after → (name : List ℕ) → Contains names name ↔ IsSource queue.number d name }
    ensures by_name { (most : ℕ) (events : List DirectoryEvent) (d : Directory) → Replays DirectoryStep (opening_directory most) events d → (m : ℕ) (asked : List ℕ) (names : List (List ℕ)) (after : Directory)
        → DirectoryStep d m (Sources asked) (SourcesAre names) after → (name : List ℕ) → Contains names name → NamedByPolicy asked d name }
{}
