ghost use Rattle.act1_devread.specs.Laws.{EachText, NeverBoth, OneFault, OneDevice};

/// The law of device texts: each text is a device's or refused, none is both, none is refused with
/// two faults, and none is of two devices.
pub fn texts_are_exact()
    ensures each_text { EachText }
    ensures never_both { NeverBoth }
    ensures one_fault { OneFault }
    ensures one_device { OneDevice }
{}
