ghost use Rattle.std.specs.Prelude.{◌≡◌};

use act1_base::Memory;

/// Why a device file is refused. A file that breaks several rules is refused by the first kind that
/// applies, in this order; want of memory may come at any time.
#[derive(Clone, Copy, Debug, PartialEq, Eq)]
pub enum DeviceKind {
    /// The bytes aren't UTF-8, or the grammar of TOML refuses them.
    Text,
    /// A key is missing.
    Missing,
    /// The value at a key is of another kind than the key asks for.
    Kind,
    /// The value at a key is out of its range.
    Range,
    /// The breaks of a track don't rise.
    Order,
    /// Two pads are at one place.
    Pads,
    /// There is a key that no device file has.
    Unknown,
    /// There was no memory. It is the one kind that says nothing of the file.
    Memory,
}

/// Why a device file is refused, and at which key.
#[derive(Clone, Copy, Debug, PartialEq, Eq)]
pub struct DeviceFault {
    /// The first kind that applies.
    pub kind: DeviceKind,
    /// The number of the key, from 1: `format`, `name`, `rows`, `columns`, `pins`, `below`, `above`,
    /// `tracks`, `longs`, `pads`. It is 0 where the kind is of the whole file: `Text`, `Unknown` and
    /// `Memory`.
    pub key: u8,
}

impl DeviceFault {
    /// The fault of a kind at a key.
    pub(crate) fn new(kind: DeviceKind, key: u8) -> DeviceFault
        ensures { result ≡ record { kind = kind; key = key } }
    {
        DeviceFault { kind, key }
    }
}

impl From<Memory> for DeviceFault {
    ghost use Rattle.act1_devread.specs.declared.fault.DeviceKind.TheVariants as kinds;

    ghost from_gives = { λ _ e. e ≡ record { kind = kinds.Memory; key = 0 } };

    fn from(_: Memory) -> Self {
        DeviceFault::new(DeviceKind::Memory, 0)
    }
}
