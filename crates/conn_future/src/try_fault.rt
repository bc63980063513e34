/// Why no bytes could be brought in.
#[derive(Clone, Copy, Debug, PartialEq, Eq)]
pub(crate) enum TryFault {
    /// The link would have to wait.
    Waits,
    /// Reading failed.
    Failed,
    /// Memory ran out, and the bytes that were read are lost.
    NoMemory,
}
