use act1_base::Memory;
use act1_circuit::Source;

/// Why a plan has no routes.
#[derive(Clone, Copy, Debug, PartialEq, Eq)]
pub enum RouteStop {
    /// A net needs a channel that its source doesn't cover, that no long wire of its own crosses, and for which no
    /// long wire is left.
    Vertical {
        /// The net, by its source.
        net: Source,
        /// The channel.
        channel: u8,
    },
    /// The call found no memory.
    Memory,
}

impl From<Memory> for RouteStop {
    ghost use Rattle.std.specs.Prelude.{◌≡◌};
    ghost use Rattle.act1_groute.specs.declared.stop.RouteStop.TheVariants.{Memory as no_memory};

    ghost from_gives = { λ _ e. e ≡ no_memory };

    fn from(_: Memory) -> Self {
        RouteStop::Memory
    }
}
