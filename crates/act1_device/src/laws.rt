ghost use Rattle.act1_device.specs.Laws.{DevicesAreSmall};

/// The law of sizes: a device has at most 32 rows, 64 columns, 63 breaks in each track and 2,112
/// pads.
pub fn devices_are_small()
    ensures { DevicesAreSmall }
{}
