use act1_base::Memory;
use act1_circuit::Source;
use act1_farm::Tally;
use act1_fuses::FuseFile;
use act1_place::PlaceStop;
use act1_plan::Plan;
use act1_report::Report;

/// What the flow is told beside the device and the netlist.
#[derive(Clone, Copy, Debug, PartialEq, Eq)]
pub struct Settings {
    /// The most segments of its track that a connection may occupy, 1 to 64.
    pub k: u8,
    /// The most conflicts of the search of a channel, at least 1.
    pub budget: u64,
    /// The seed of the placement.
    pub seed: u64,
    /// How many helpers may run at a time; with 0 none is asked.
    pub jobs: u8,
}

/// What the flow gives.
#[derive(Drop)]
pub struct Routed {
    /// The antifuse file.
    pub fuses: FuseFile,
    /// How many modules of the array are used.
    pub modules: u16,
    /// What came of the helpers.
    pub tally: Tally,
}

/// Why the flow gives no antifuse file.
#[derive(Drop)]
pub enum FlowStop {
    /// The netlist needs more pads than the device has: one for each input and one for each output.
    Pads {
        /// How many it needs.
        needed: u32,
        /// How many there are.
        have: u32,
    },
    /// The netlist needs more modules than the device has sites.
    Full {
        /// How many it needs, at most its least count. A count beyond 32 bits is the greatest number of these.
        needed: u32,
        /// How many sites there are.
        have: u32,
    },
    /// The rule of routes finds no long wire for this net in this channel.
    Vertical {
        /// The net, by its source.
        net: Source,
        /// The channel.
        channel: u8,
        /// The plan.
        plan: Plan,
    },
    /// A channel has no assignment, which the log of the report shows.
    Refuted {
        /// The plan, the channel and the log.
        report: Report,
        /// How many connections the channel has.
        connections: u16,
        /// What came of the helpers.
        tally: Tally,
    },
    /// The search of a channel met as many conflicts as it may, and no usable answer of a helper came for it.
    Spent {
        /// The plan.
        plan: Plan,
        /// The channel.
        channel: u8,
        /// How many conflicts: the budget.
        conflicts: u64,
        /// How many tracks the channel has.
        tracks: u8,
        /// How many connections it has.
        connections: u16,
        /// What came of the helpers.
        tally: Tally,
    },
    /// A call found no memory.
    Memory,
}

impl From<Memory> for FlowStop {
    ghost use Rattle.std.specs.Prelude.{◌≡◌};
    ghost use Rattle.act1_flow.specs.declared.answer.FlowStop.TheVariants as variant;

    ghost from_gives = { λ _ stop. stop ≡ variant.Memory };

    fn from(_: Memory) -> Self {
        FlowStop::Memory
    }
}

impl From<PlaceStop> for FlowStop {
    ghost use Rattle.std.specs.Prelude.{◌≡◌};
    ghost use Rattle.act1_flow.specs.Steps.{stop_of};

    ghost from_gives = { λ why stop. stop ≡ stop_of why };

    fn from(why: PlaceStop) -> Self {
        match why {
            PlaceStop::Pads { needed, have } => FlowStop::Pads { needed, have },
            PlaceStop::Full { needed, have } => FlowStop::Full { needed, have },
            PlaceStop::Memory => FlowStop::Memory,
        }
    }
}
