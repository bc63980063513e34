ghost use Rattle.std.specs.Prelude.{◌≡◌, ◌++◌, [], ◌∷◌, OnErr, OnOk};
ghost use Rattle.node_core.specs.FewItems.{few_items};

use kap_base::NoMemory;
use std::alloc::Global;
use std::marker::Model;

/// A list that mostly has one item at most, and takes memory from the second one on. Contracts see its items
/// in order.
#[derive(Debug, Drop)]
pub struct Few<T> {
    first: Option<T>,
    more: Vec<T>,
}

impl<T> Model for Few<T> {
    ghost use Rattle.std.specs.Prelude.{List};
    ghost use Rattle.node_core.specs.FewItems.{few_items};

    ghost Value = { List T };

    ghost view = { λ f. few_items f.first f.more.items };
}

impl<T: Drop> Few<T> {
    /// No items.
    pub fn new(alloc: Global) -> Few<T>
        ensures { result ≡ [] }
    {
        Few {
            first: None,
            more: Vec::new(alloc),
        }
    }

    /// One item, which takes no memory.
    pub fn one(alloc: Global, item: T) -> Few<T>
        ensures { result ≡ item ∷ [] }
    {
        Few {
            first: Some(item),
            more: Vec::new(alloc),
        }
    }

    /// These items.
    pub fn from_items(items: Vec<T>) -> Few<T>
        ensures { result ≡ items.items }
    {
        Few {
            first: None,
            more: items,
        }
    }

    /// Adds an item at the end. An `Err` changes nothing.
    #[tactic(auto, using(crate::proofs::FewLaws::few_more))]
    pub fn push(&mut self, item: T) -> Result<(), NoMemory>
        ensures ok { OnOk result (self.new ≡ self.old ++ item ∷ []) }
        ensures err { OnErr result (self.new ≡ self.old) }
    {
        if self.first.is_none() && self.more.is_empty() {
            self.first = Some(item);
            return Ok(());
        }
        self.more.push(item)?;
        Ok(())
    }

    /// Its items: the first of them and the others, or all of them behind no first one.
    pub fn into_parts(self) -> (Option<T>, Vec<T>)
        ensures { few_items result.0 result.1.items ≡ self }
    {
        (self.first, self.more)
    }
}
