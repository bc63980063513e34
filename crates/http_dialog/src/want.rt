use crate::ending::DialogEnd;

/// What a connection wants next.
#[derive(Clone, Copy, Debug, PartialEq, Eq)]
pub enum Want {
    /// Bytes to read, or to be told that no more come. All that was due is written.
    Read,
    /// That bytes that are due are written.
    Write,
    /// To go on: a request was answered, and its reply is due.
    Served,
    /// Nothing more: it has ended, and all that was due is written.
    End(DialogEnd),
    /// Memory. All that was due is written.
    Memory,
}
