//! How many threads are started.
ghost use Rattle.std.specs.Prelude.{◌≡◌, max};

/// A thread for each; one where there is none.
pub(crate) fn threads_for(each: usize) -> usize
    ensures { result ≡ max each 1 }
{
    each.max(1)
}
