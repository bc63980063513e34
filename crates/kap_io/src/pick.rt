/// What a crash leaves of the writes that aren't synced.
#[derive(Clone, Copy, Debug, PartialEq, Eq)]
pub enum Pick {
    /// Nothing: each file holds what it held at its last sync.
    Old,
    /// All: each file holds what a read gives.
    New,
    /// Other bytes: each file holds what a read gives, with each byte that was written since its last sync
    /// replaced by this one.
    Fill(u8),
}
