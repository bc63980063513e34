ghost use Rattle.std.specs.Prelude.{◌≡◌, [], nat_eq, IfOk};
ghost use Rattle.std.specs.Cmp.{partial_equiv_from_equiv};
ghost use Rattle.std.specs.Cmp.Lexicographic.{lists_equiv, lists_per, nat_list_eq_equiv, pointwise};

use crate::Names;
use crate::duplicate::Duplicate;
use crate::memory::NoMemory;
use crate::shared::Shared;
use crate::text::Text;
use std::alloc::Global;
use std::marker::Model;

/// The names of the tags by which points are grouped, which many points share. Contracts see the list. No
/// names take no room, and neither does a copy.
#[derive(Debug, Drop)]
pub struct PointDims {
    names: Option<Shared<Names>>,
}

impl Model for PointDims {
    ghost use Rattle.std.specs.Prelude.{List, ℕ};
    ghost use Rattle.kap_base.specs.Points.{names_in};

    ghost Value = { List (List ℕ) };

    ghost view = { λ d. names_in d.names };
}

impl PointDims {
    /// No names.
    pub fn none() -> PointDims
        ensures { result ≡ [] }
    {
        PointDims { names: None }
    }

    /// These names.
    pub fn new(alloc: Global, names: Names) -> Result<PointDims, NoMemory>
        ensures { IfOk result (λ dims. dims ≡ names) }
    {
        if names.is_empty() {
            return Ok(PointDims::none());
        }
        Ok(PointDims {
            names: Some(Shared::new(alloc, names)?),
        })
    }

    /// The names, lent.
    pub fn as_slice(&self) -> &[Text]
        ensures { result.now ≡ self.now }
    {
        match &self.names {
            Some(names) => names.value().as_slice(),
            None => &[],
        }
    }
}

impl PartialEq for PointDims {
    ghost eq = { λ x y. pointwise (pointwise nat_eq) x y };

    ghost laws = { lists_per (partial_equiv_from_equiv nat_list_eq_equiv) };

    fn eq(&self, other: &PointDims) -> bool {
        self.as_slice() == other.as_slice()
    }
}

impl Eq for PointDims {
    ghost laws = { lists_equiv nat_list_eq_equiv };
}

impl Duplicate for PointDims {
    fn copy(&self, alloc: Global) -> Result<PointDims, NoMemory> {
        match &self.names {
            Some(names) => Ok(PointDims {
                names: Some(names.copy(alloc)?),
            }),
            None => Ok(PointDims::none()),
        }
    }
}
