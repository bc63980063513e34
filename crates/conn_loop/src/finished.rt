use http_dialog::LinkEnd;

/// A link that has ended.
#[derive(Drop)]
pub struct Finished<L> {
    /// Its number.
    pub number: u32,
    /// How it ended.
    pub end: LinkEnd,
    /// The link.
    pub link: L,
}

/// Why a link wasn't added. It is given back.
#[derive(Drop)]
pub enum AddFault<L> {
    /// As many links are open as a loop has at once, or as many were added as there are numbers.
    Full(L),
    /// Memory ran out.
    NoMemory(L),
}
