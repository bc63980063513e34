//! The steps of a net.

/// One move of one cell.
#[derive(Clone, Copy, Debug, PartialEq, Eq)]
pub enum Step {
    /// The cell takes a message from one of its inputs.
    Take {
        /// The number of the cell.
        cell: u32,
        /// The number of the input.
        input: u32,
    },
    /// The cell puts the first message that waits at one of its outs on its edge.
    Put {
        /// The number of the cell.
        cell: u32,
        /// The number of the out.
        out: u32,
    },
}
