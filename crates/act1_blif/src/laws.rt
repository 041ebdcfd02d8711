ghost use Rattle.act1_blif.specs.Laws.{EachHasOneValuation, EachHasSignals, EachIsWhole, LatchNamesDiffer, PortsAreFew};

/// The law of valuations: a netlist has exactly one at each of its states and each of its inputs.
pub fn one_valuation()
    ensures { EachHasOneValuation }
{}

/// The law of signals: a valuation has the inputs first, then the latch outputs, and then what each node
/// gives.
pub fn valuations_have_signals()
    ensures { EachHasSignals }
{}

/// The law of latches: no two latches of a netlist have one name.
pub fn latch_names_differ()
    ensures { LatchNamesDiffer }
{}

/// The law of ports: a netlist has at most 65,535 inputs and as many outputs, so that a circuit with
/// the same ports can number them.
pub fn ports_are_few()
    ensures { PortsAreFew }
{}

/// The law of ranges: each netlist has at most 65,535 signals, and all that it reads is one of them.
pub fn netlists_are_whole()
    ensures { EachIsWhole }
{}
