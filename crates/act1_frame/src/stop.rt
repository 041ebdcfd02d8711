ghost use Rattle.std.specs.Prelude.{◌≡◌};
ghost use Rattle.act1_frame.specs.declared.stop.Stop.TheVariants as stop;

use crate::ending::Ending;
use act1_base::Memory;

/// Why a stage of a command doesn't go on: the command ends here, or there was no memory.
#[derive(Debug, Drop)]
pub enum Stop {
    /// The command ends so.
    Ends(Ending),
    /// There was no memory.
    Memory,
}

impl From<Memory> for Stop {
    ghost from_gives = { λ _ s. s ≡ stop.Memory };

    fn from(_: Memory) -> Self {
        Stop::Memory
    }
}
