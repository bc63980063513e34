use crate::item_list::ItemList;
use crate::text::Text;

/// A database and a retention policy that a task sees (Kapacitor 1.6 TICKscript language reference: dbrp).
#[derive(Debug, PartialEq, Eq, Drop)]
pub struct Dbrp {
    /// The database.
    pub db: Text,
    /// The retention policy.
    pub rp: Text,
}

/// The databases and retention policies that a task sees, in the order of the script; all where there are
/// none.
pub type Dbrps = ItemList<Dbrp>;
