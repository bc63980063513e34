use http_dialog::Dialog;

/// An open link.
#[derive(Drop)]
pub struct Slot<L> {
    /// Its number.
    pub(crate) number: u32,
    /// The link.
    pub(crate) link: L,
    /// What its connection holds.
    pub(crate) dialog: Dialog,
    /// Whether it waits for its next turn alone.
    pub(crate) woken: bool,
}
