ghost use Rattle.std.specs.Prelude.{◌≡◌};
ghost use Rattle.act1_device.specs.Pins.{pin_name};

/// The name of a pin, by its number: A0, A1, SA, B0, B1, SB, S0, S1. It is empty above 7, where no
/// device has a pin. It takes no memory.
pub fn name_of_pin(pin: u8) -> &'static [u8]
    ensures { result.now ≡ pin_name pin }
{
    match pin {
        0 => b"A0",
        1 => b"A1",
        2 => b"SA",
        3 => b"B0",
        4 => b"B1",
        5 => b"SB",
        6 => b"S0",
        7 => b"S1",
        _ => b"",
    }
}
