ghost use Rattle.std.specs.Prelude.{⊤, ◌≡◌, is_some, option_map, string_bytes};
ghost use Rattle.std.specs.BTreeMap.{keys};
ghost use Rattle.std.specs.List.{list_all};
ghost use Rattle.toml.specs.Data.{get_member};
ghost use Rattle.toml.specs.View.{view, table_view};
ghost use Rattle.act1_devread.specs.ReadingSteps.{fault, Asks, Follows};
ghost use Rattle.act1_devread.specs.Rules.{missing_rules, unknown_rules, is_known, has_only_known};

use crate::fault::{DeviceFault, DeviceKind};
use toml::{Table, Value};

// The value at a key.
pub fn value_at<'a>(table: &'a Table, key: &str) -> Option<&'a Value>
    ensures { option_map (λ v. view v.now) result ≡ get_member key.now (table_view table.now) }
{
    table.get(key)
}

// Asks that a key is there.
fn check_key(table: &Table, key: &str, number: u8) -> Result<(), DeviceFault>
    ensures { Asks (is_some (get_member key.now (table_view table.now)))
        tt
        (fault DeviceKind.Missing number) result }
{
    match value_at(table, key) {
        Some(_) => Ok(()),
        None => Err(DeviceFault::new(DeviceKind::Missing, number)),
    }
}

// Asks that each key of a device file is there.
#[tactic(auto, unfolding(crate::specs::Rules::missing_rules, crate::specs::Rules::first_fault))]
pub fn check_present(table: &Table) -> Result<(), DeviceFault>
    ensures { Follows (missing_rules (table_view table.now)) (λ _. ⊤) result }
{
    check_key(table, "format", 1)?;
    check_key(table, "name", 2)?;
    check_key(table, "rows", 3)?;
    check_key(table, "columns", 4)?;
    check_key(table, "pins", 5)?;
    check_key(table, "below", 6)?;
    check_key(table, "above", 7)?;
    check_key(table, "tracks", 8)?;
    check_key(table, "longs", 9)?;
    check_key(table, "pads", 10)
}

// Whether a device file has this key.
fn is_known(key: &str) -> bool
    ensures { result ≡ is_known key.now }
{
    key == "format"
        || key == "name"
        || key == "rows"
        || key == "columns"
        || key == "pins"
        || key == "below"
        || key == "above"
        || key == "tracks"
        || key == "longs"
        || key == "pads"
}

// Whether each key of the table is one of a device file.
fn are_known(table: &Table) -> bool
    ensures { result ≡ list_all (λ k. is_known (string_bytes k)) (keys table.now) }
{
    table.keys().all(|key| is_known(key.as_str()))
}

// The same, said of the document's members.
fn has_only_known(table: &Table) -> bool
    ensures { result ≡ has_only_known (table_view table.now) }
{
    are_known(table)
}

// Asks that there is no key beside those of a device file.
#[tactic(auto, unfolding(crate::specs::Rules::unknown_rules, crate::specs::Rules::first_fault))]
pub fn check_known(table: &Table) -> Result<(), DeviceFault>
    ensures { Follows (unknown_rules (table_view table.now)) (λ _. ⊤) result }
{
    if has_only_known(table) {
        Ok(())
    } else {
        Err(DeviceFault::new(DeviceKind::Unknown, 0))
    }
}
