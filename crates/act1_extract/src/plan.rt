use act1_base::Items;

/// Where the signals of a circuit stand in its netlist: inputs, latches, the nodes of modules, those of
/// the constants that latches take, and those of outputs.
#[derive(Debug, Drop)]
pub struct Layout {
    /// The signal of each module.
    pub signals: Items<u16>,
    /// How many modules are outside pairs.
    pub outside: usize,
    /// Whether some latch takes ground.
    pub has_zero: bool,
    /// Whether some latch takes power.
    pub has_one: bool,
    /// The signal of ground, if some latch takes it, which comes behind those of modules.
    pub zero_at: u16,
    /// The signal of power, if some latch takes it.
    pub one_at: u16,
    /// The first signal of an output's own node.
    pub outputs_at: u16,
}
