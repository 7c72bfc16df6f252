//! Whether a home takes the messages that come to it.

/// What a home that serves does with messages that come to it. Own.
#[derive(Clone, Copy, PartialEq, Eq, Debug)]
pub enum HomeMode {
    /// It takes them.
    Accepting,
    /// It takes none, and those that it holds leave for other homes of its queue.
    Draining,
    /// It takes none, and held none when its drain ended.
    Drained,
}
