//! The values of queries.

ghost use Rattle.std.specs.Prelude.{◌≡◌, ◌≤◌, length, map, IfOk};
ghost use Rattle.form_urlencoded.specs.Form.{decode, plus_to_space, raw_pairs};
ghost use Rattle.kap_http.specs.Queries.{value_of};

use form_urlencoded::raw_pairs;
use kap_base::NoMemory;
use percent_encoding::percent_decode;
use std::alloc::Global;

fn plus_to_space(alloc: Global, raw: &[u8]) -> Result<Vec<u8>, NoMemory>
    ensures { IfOk result (λ v. v.items ≡ map plus_to_space raw.now) }
{
    let spaced = raw
        .iter()
        .map(|b| if *b == b'+' { b' ' } else { *b })
        .collect(alloc)?;
    Ok(spaced)
}

/// The bytes that a name or a value of a query stands for: `+` is a space, and escapes are replaced.
fn decode(alloc: Global, raw: &[u8]) -> Result<Vec<u8>, NoMemory>
    ensures { IfOk result (λ v. v.items ≡ decode raw.now) }
{
    let spaced = plus_to_space(alloc, raw)?;
    let mut out = Vec::new(alloc);
    percent_decode(spaced.as_slice()).append_to(&mut out)?;
    Ok(out)
}

/// The value of the first pair of the query that has this name; no bytes where there is none.
fn find_value(alloc: Global, query: &[u8], name: &[u8]) -> Result<Vec<u8>, NoMemory>
    ensures { IfOk result (λ v. v.items ≡ value_of name.now (raw_pairs query.now)) }
{
    'pairs: for (key, value) in raw_pairs(query) {
        let found = decode(alloc, key)?;
        if found.as_slice() == name {
            return decode(alloc, value);
        }
    }
    Ok(Vec::new(alloc))
}

/// The value of the first pair of the query that has this name; no bytes where there is none.
#[tactic(auto, using(crate::proofs::QueryLaws::value_len))]
pub(crate) fn value_of(alloc: Global, query: &[u8], name: &[u8]) -> Result<Vec<u8>, NoMemory>
    ensures value { IfOk result (λ v. v.items ≡ value_of name.now (raw_pairs query.now)) }
    ensures len { IfOk result (λ v. length v.items ≤ length query.now) }
{
    find_value(alloc, query, name)
}
