//! Where the directory's history first has each queue.
ghost use Rattle.std.specs.Prelude.{◌<◌, length, All};

use sq_directory::directory::Directory;
use sq_model::directory::DirectoryReply;
use std::alloc::Global;

/// For each queue, by its number less 1, the index of the first event that made it. It tells where to look first, and
/// no more: it ends early where memory was not found. It takes 8 bytes a queue.
pub fn creations(alloc: Global, directory: &Directory) -> Vec<usize>
    ensures { All (λ index. index < length directory.now.events) result.items }
{
    let mut creations = Vec::new(alloc);
    let events = directory.events();
    for index in 0..events.len() {
        if let DirectoryReply::Made(made) = &events[index].reply
            && made.queue.get() > creations.len() as u64
            && creations.push(index).is_err()
        {
            return creations;
        }
    }
    creations
}
