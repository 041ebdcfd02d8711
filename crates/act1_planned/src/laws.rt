ghost use Rattle.act1_planned.specs.Laws.{OrderKeepsClear, OrderKeepsForm, OrderKeepsMeaning, OrderKeepsRange, OrderKeepsSources, OrderKeepsSums, PlacedIsStable, PlansAreLegal, PortsAreNamed};

/// The law of meaning: a circuit whose modules are numbered in the order of their spots means what the
/// circuit means, in every order of firing, and has its sources.
pub fn meaning_is_kept()
    ensures means { OrderKeepsMeaning }
    ensures range { OrderKeepsRange }
{}

/// The law of names: a circuit with the ports of a netlist has names, which are the netlist's, its inits are
/// those of latches, and its starts stand at different modules.
pub fn ports_are_named()
    ensures { PortsAreNamed }
{}

/// The law of legal plans: the plan of a circuit with names, with its starts at different modules and no
/// output that is the clock, is legal, where its modules stand at different sites of the device and there
/// are pads enough.
pub fn plans_are_legal()
    ensures { PlansAreLegal }
{}

/// The law of sums: numbering modules in the order of their spots changes no sum of half perimeters; so where
/// no exchange of the contents of two sites lessens it, none does so then.
pub fn sums_are_kept()
    ensures { OrderKeepsSums }
{}

/// The law of placed circuits: where the modules have a numbering under which their spots are those of a
/// seed's placement, no exchange of the contents of two sites lessens the sum of the half perimeters.
pub fn placed_are_stable()
    ensures { PlacedIsStable }
{}

/// The law of sources: where each module of a circuit is the source of some pin or output, each module is so
/// when they are numbered in the order of their spots.
pub fn sources_are_kept()
    ensures { OrderKeepsSources }
{}

/// The law of pair form: where the clock of a circuit enters pairs alone, no module outside them depends on
/// itself and the starts are those of the pairs, all this is so when the modules are numbered in the order of
/// their spots.
pub fn form_is_kept()
    ensures { OrderKeepsForm }
{}

/// The law of clear names: where no output has the name of an input or a latch but another source, none has when
/// the modules are numbered in the order of their spots.
pub fn clear_is_kept()
    ensures { OrderKeepsClear }
{}
