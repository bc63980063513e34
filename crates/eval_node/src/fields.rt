//! The fields that an `eval` keeps.

ghost use Rattle.std.specs.Prelude.{◌≡◌, bytes_eq, filter, IfOk};
ghost use Rattle.std.specs.FinMap as map;
ghost use Rattle.std.specs.List.{list_all, list_any};
ghost use Rattle.eval_node.specs.Evals.{is_kept};

use kap_base::{Duplicate, Fields, NoMemory, SharedText, Text, Value};
use lambda_types::Lambda;
use std::alloc::Global;
use task_graph::{EvalResult, Keep};

/// Whether it is the name of a result.
fn is_result(results: &[EvalResult<Lambda>], name: &Text) -> bool
    ensures { result ≡ list_any (λ x. bytes_eq x.name name.now) results.now }
{
    results.iter().any(|x| x.name.text() == name)
}

/// Whether it is one of these names.
fn is_among(names: &[SharedText], name: &Text) -> bool
    ensures { result ≡ list_any (λ n. bytes_eq n name.now) names.now }
{
    names.iter().any(|n| n.text() == name)
}

/// Whether a field of this name is kept.
fn is_kept(keep: &Keep, results: &[EvalResult<Lambda>], name: &Text) -> bool
    ensures { result ≡ is_kept keep.now results.now name.now }
{
    match keep {
        Keep::Results => is_result(results, name),
        Keep::All => true,
        Keep::Names(names) => is_among(names.as_slice(), name),
    }
}

/// The fields that are kept, copied.
fn copies_of_kept(
    alloc: Global,
    keep: &Keep,
    results: &[EvalResult<Lambda>],
    fields: &[(Text, Value)],
) -> Result<Vec<(Text, Value)>, NoMemory>
    ensures { IfOk result (λ left. left.items
        ≡ filter (λ e. is_kept keep.now results.now e.0) fields.now) }
{
    let mut left = Vec::new(alloc);
    'copying: for field in fields {
        if is_kept(keep, results, &field.0) {
            left.push((field.0.copy(alloc)?, field.1.copy(alloc)?))?;
        }
    }
    Ok(left)
}

/// Whether each field is kept.
fn are_kept(keep: &Keep, results: &[EvalResult<Lambda>], fields: &[(Text, Value)]) -> bool
    ensures { result ≡ list_all (λ e. is_kept keep.now results.now e.0) fields.now }
{
    fields.iter().all(|field| is_kept(keep, results, &field.0))
}

/// The fields that are kept. They are moved where all are.
pub(crate) fn kept_fields(
    alloc: Global,
    keep: &Keep,
    results: &[EvalResult<Lambda>],
    fields: Fields,
) -> Result<Fields, NoMemory>
    ensures { IfOk result (λ left. left ≡ map.retain_keys fields (is_kept keep.now results.now)) }
{
    if are_kept(keep, results, fields.entries()) {
        return Ok(fields);
    }
    let left = copies_of_kept(alloc, keep, results, fields.entries())?;
    Fields::from_entries(alloc, left)
}
