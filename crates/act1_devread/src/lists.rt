ghost use Rattle.std.specs.Prelude.{◌≡◌, IfOk};
ghost use Rattle.toml.specs.Data.{as_integer};
ghost use Rattle.toml.specs.View.{view};
ghost use Rattle.act1_devread.specs.Document.{list_of, pair_of};

use act1_base::{Items, Memory};
use std::alloc::Global;
use toml::Value;

// The integers of an array of integers, or `None` for another value.
pub fn integers(alloc: Global, value: &Value) -> Result<Option<Items<i64>>, Memory>
    ensures { IfOk result (λ o. o ≡ list_of as_integer (view value.now)) }
{
    let items = match value.as_array() {
        Some(items) => items,
        None => return Ok(None),
    };
    let mut found = Items::new(alloc);
    for item in items {
        match item.as_integer() {
            Some(integer) => found.push(integer)?,
            None => return Ok(None),
        }
    }
    Ok(Some(found))
}

// The lists of an array of arrays of integers, or `None` for another value.
pub fn integer_lists(alloc: Global, value: &Value) -> Result<Option<Items<Items<i64>>>, Memory>
    ensures { IfOk result (λ o. o ≡ list_of (list_of as_integer) (view value.now)) }
{
    let items = match value.as_array() {
        Some(items) => items,
        None => return Ok(None),
    };
    let mut found = Items::new(alloc);
    for item in items {
        match integers(alloc, item)? {
            Some(list) => found.push(list)?,
            None => return Ok(None),
        }
    }
    Ok(Some(found))
}

// The same one level higher.
pub fn lists_of_lists(
    alloc: Global,
    value: &Value,
) -> Result<Option<Items<Items<Items<i64>>>>, Memory>
    ensures { IfOk result (λ o. o ≡ list_of (list_of (list_of as_integer)) (view value.now)) }
{
    let items = match value.as_array() {
        Some(items) => items,
        None => return Ok(None),
    };
    let mut found = Items::new(alloc);
    for item in items {
        match integer_lists(alloc, item)? {
            Some(lists) => found.push(lists)?,
            None => return Ok(None),
        }
    }
    Ok(Some(found))
}

// The two integers of an array of two integers, or `None` for another value.
#[tactic(auto, using(crate::proofs::PairLemmas::no_pair))]
fn pair(value: &Value) -> Option<(i64, i64)>
    ensures { result ≡ pair_of (view value.now) }
{
    let items = value.as_array()?;
    if items.len() != 2 {
        return None;
    }
    let first = items[0].as_integer()?;
    let second = items[1].as_integer()?;
    Some((first, second))
}

// The pairs of an array of arrays of two integers, or `None` for another value.
pub fn pairs(alloc: Global, value: &Value) -> Result<Option<Items<(i64, i64)>>, Memory>
    ensures { IfOk result (λ o. o ≡ list_of pair_of (view value.now)) }
{
    let items = match value.as_array() {
        Some(items) => items,
        None => return Ok(None),
    };
    let mut found = Items::new(alloc);
    for item in items {
        match pair(item) {
            Some(pair) => found.push(pair)?,
            None => return Ok(None),
        }
    }
    Ok(Some(found))
}
