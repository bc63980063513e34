use std::time::Duration;

/// How long a link over a socket waits before it has failed.
#[derive(Clone, Copy, Debug, PartialEq, Eq)]
pub struct Patience {
    /// For the next bytes, and for room for those that are written.
    pub idle: Duration,
    /// For the rest of a request, from the first of its bytes on: whoever sends a byte a second isn't idle.
    pub whole: Duration,
}
