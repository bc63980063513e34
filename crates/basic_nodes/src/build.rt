//! What rules are given of what a script hands over.

ghost use Rattle.std.specs.Prelude.{◌≡◌, IfOk};
ghost use Rattle.basic_nodes.specs.Nodes.{deletion_of, grouping_of, regrouping_of, selection_of};

use crate::deletions::Deletion;
use crate::dimensions::{Dimensions, Grouping, Regrouping};
use crate::selection::{Conditions, Selection};
use kap_base::{ItemList, NoMemory};
use lambda_types::Lambda;
use std::alloc::Global;
use task_graph::{DeleteSetting, Dims, FromSpec, GroupBySpec};

/// The dimensions, as a point needs them.
fn grouping_of(alloc: Global, dims: Dims) -> Result<Grouping, NoMemory>
    ensures { IfOk result (λ grouping. grouping ≡ grouping_of dims) }
{
    match dims {
        Dims::Names(names) => Ok(Grouping::By(Dimensions::from_names(alloc, names.as_slice())?)),
        Dims::All => Ok(Grouping::ByAll),
    }
}

/// What `from` does that a script hands this to. `NoMemory` comes where an allocation fails.
pub fn selection_of(alloc: Global, spec: FromSpec<Lambda>) -> Result<Selection, NoMemory>
    ensures { IfOk result (λ selection. selection ≡ selection_of spec) }
{
    Ok(Selection {
        database: spec.database,
        policy: spec.retention_policy,
        measurement: spec.measurement,
        conditions: Conditions::from_lambdas(spec.conditions.into_items()),
        grouping: grouping_of(alloc, spec.dims)?,
        by_measurement: spec.by_measurement,
    })
}

/// What `groupBy` does that a script hands this to. `NoMemory` comes where an allocation fails.
pub fn regrouping_of(alloc: Global, spec: GroupBySpec) -> Result<Regrouping, NoMemory>
    ensures { IfOk result (λ regrouping. regrouping ≡ regrouping_of spec) }
{
    Ok(Regrouping {
        grouping: grouping_of(alloc, spec.dims)?,
        by_measurement: spec.by_measurement,
    })
}

/// What `delete` does that has these properties, in order. `NoMemory` comes where an allocation fails.
pub fn deletion_of(alloc: Global, settings: ItemList<DeleteSetting>) -> Result<Deletion, NoMemory>
    ensures { IfOk result (λ deletion. deletion ≡ deletion_of settings) }
{
    let mut fields = Vec::new(alloc);
    let mut tags = Vec::new(alloc);
    'sorting: for setting in settings.into_items() {
        match setting {
            DeleteSetting::Field(name) => fields.push(name)?,
            DeleteSetting::Tag(name) => tags.push(name)?,
        }
    }
    Ok(Deletion {
        fields: ItemList::from_items(fields),
        tags: ItemList::from_items(tags),
    })
}
