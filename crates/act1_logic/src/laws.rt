ghost use Rattle.act1_logic.specs.OnSets.{OnSetsHaveValues};

/// The law of on-sets: a cover with output 1 and one row for each of the inputs at which a function is 1
/// has the function's value.
pub fn on_sets_have_values()
    ensures { OnSetsHaveValues }
{}
