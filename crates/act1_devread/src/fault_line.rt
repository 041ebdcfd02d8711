ghost use Rattle.std.specs.Prelude.{◌≡◌, ◌++◌, OnOk};
ghost use Rattle.act1_base.specs.Words.{text_line};
ghost use Rattle.act1_devread.specs.FaultWords.{kind_word, key_word, device_fault_words};

use crate::fault::{DeviceFault, DeviceKind};
use act1_base::{Memory, add_word};

// The word of a kind.
fn kind_word(kind: DeviceKind) -> &'static [u8]
    ensures { result.now ≡ kind_word kind }
{
    match kind {
        DeviceKind::Text => b"Text",
        DeviceKind::Missing => b"Missing",
        DeviceKind::Kind => b"Kind",
        DeviceKind::Range => b"Range",
        DeviceKind::Order => b"Order",
        DeviceKind::Pads => b"Pads",
        DeviceKind::Unknown => b"Unknown",
        DeviceKind::Memory => b"Memory",
    }
}

// The word of a key, by its number, or `-` where it is the number of none.
fn key_word(key: u8) -> &'static [u8]
    ensures { result.now ≡ key_word key }
{
    match key {
        1 => b"format",
        2 => b"name",
        3 => b"rows",
        4 => b"columns",
        5 => b"pins",
        6 => b"below",
        7 => b"above",
        8 => b"tracks",
        9 => b"longs",
        10 => b"pads",
        _ => b"-",
    }
}

/// Adds the line of a refusal: `device KIND KEY`, where KEY is `-` for a refusal of the whole file.
/// The one error is `Memory`, after which a part of the line may have been added.
pub fn write_device_fault(text: &mut Vec<u8>, fault: DeviceFault) -> Result<(), Memory>
    ensures { OnOk result (text.new.items ≡ text.old.items ++ text_line (device_fault_words fault)) }
{
    text.extend_from_slice(b"device")?;
    add_word(text, kind_word(fault.kind))?;
    add_word(text, key_word(fault.key))?;
    text.push(b'\n')?;
    Ok(())
}
