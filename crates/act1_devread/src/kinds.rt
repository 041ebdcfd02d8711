ghost use Rattle.std.specs.Prelude.{◌≡◌, [], is_some, unwrap_or, pos};
ghost use Rattle.toml.specs.View.{table_view};
ghost use Rattle.act1_devread.specs.Document.{integer_at, text_at, tracks_at, pairs_at, values_of};
ghost use Rattle.act1_devread.specs.Rules.{kind_rules};
ghost use Rattle.act1_devread.specs.ReadingSteps.{fault, Asks, AsksWithMemory, Follows};

use crate::fault::{DeviceFault, DeviceKind};
use crate::keys::value_at;
use crate::lists::{lists_of_lists, pairs};
use crate::values::Values;
use act1_base::{Items, Name};
use std::alloc::Global;
use toml::Table;

// What the table has at the ten keys, each of its kind. The first value of another kind is refused.
#[tactic(auto, unfolding(crate::specs::Rules::kind_rules, crate::specs::Rules::first_fault, crate::specs::Document::values_of))]
pub fn values_in(alloc: Global, table: &Table) -> Result<Values, DeviceFault>
    ensures { Follows (kind_rules (table_view table.now))
        (λ v. v ≡ values_of (table_view table.now)) result }
{
    let format = integer(table, "format", 1)?;
    let name = text(alloc, table, "name", 2)?;
    let rows = integer(table, "rows", 3)?;
    let columns = integer(table, "columns", 4)?;
    let pins = text(alloc, table, "pins", 5)?;
    let below = integer(table, "below", 6)?;
    let above = integer(table, "above", 7)?;
    let tracks = track_lists(alloc, table, "tracks", 8)?;
    let longs = pair_list(alloc, table, "longs", 9)?;
    let pads = pair_list(alloc, table, "pads", 10)?;
    Ok(Values {
        format,
        name,
        rows,
        columns,
        pins,
        below,
        above,
        tracks,
        longs,
        pads,
    })
}

// The fault of a value of another kind.
fn other_kind(number: u8) -> DeviceFault
    ensures { result ≡ fault DeviceKind.Kind number }
{
    DeviceFault::new(DeviceKind::Kind, number)
}

// The integer at a key.
#[tactic(auto, unfolding(crate::specs::Document::integer_at))]
fn integer(table: &Table, key: &str, number: u8) -> Result<i64, DeviceFault>
    ensures { Asks (is_some (integer_at key.now (table_view table.now)))
        (unwrap_or (integer_at key.now (table_view table.now)) (pos 0))
        (fault DeviceKind.Kind number) result }
{
    match value_at(table, key) {
        Some(value) => match value.as_integer() {
            Some(integer) => Ok(integer),
            None => Err(other_kind(number)),
        },
        None => Err(other_kind(number)),
    }
}

// The text at a key.
#[tactic(auto, unfolding(crate::specs::Document::text_at))]
fn text(alloc: Global, table: &Table, key: &str, number: u8) -> Result<Name, DeviceFault>
    ensures { AsksWithMemory (is_some (text_at key.now (table_view table.now)))
        (unwrap_or (text_at key.now (table_view table.now)) [])
        (fault DeviceKind.Kind number) result }
{
    match value_at(table, key) {
        Some(value) => match value.as_str() {
            Some(text) => Ok(Name::new(alloc, text.as_bytes())?),
            None => Err(other_kind(number)),
        },
        None => Err(other_kind(number)),
    }
}

// The list of lists of lists of integers at a key.
#[tactic(auto, unfolding(crate::specs::Document::tracks_at))]
fn track_lists(
    alloc: Global,
    table: &Table,
    key: &str,
    number: u8,
) -> Result<Items<Items<Items<i64>>>, DeviceFault>
    ensures { AsksWithMemory (is_some (tracks_at key.now (table_view table.now)))
        (unwrap_or (tracks_at key.now (table_view table.now)) [])
        (fault DeviceKind.Kind number) result }
{
    match value_at(table, key) {
        Some(value) => match lists_of_lists(alloc, value)? {
            Some(lists) => Ok(lists),
            None => Err(other_kind(number)),
        },
        None => Err(other_kind(number)),
    }
}

// The list of lists of two integers at a key.
#[tactic(auto, unfolding(crate::specs::Document::pairs_at))]
fn pair_list(
    alloc: Global,
    table: &Table,
    key: &str,
    number: u8,
) -> Result<Items<(i64, i64)>, DeviceFault>
    ensures { AsksWithMemory (is_some (pairs_at key.now (table_view table.now)))
        (unwrap_or (pairs_at key.now (table_view table.now)) [])
        (fault DeviceKind.Kind number) result }
{
    match value_at(table, key) {
        Some(value) => match pairs(alloc, value)? {
            Some(pairs) => Ok(pairs),
            None => Err(other_kind(number)),
        },
        None => Err(other_kind(number)),
    }
}
