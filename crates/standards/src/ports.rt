// The port status word, xHCI 5.4.8, by the Rust's masks.
ghost use Rattle.std.specs.Prelude.{◌≡◌};
ghost use Rattle.standards.specs.Ports.{port_connected, port_speed, port_status_of};

use crate::PortStatus;

// Port Reset, and Warm Port Reset.
const RESETTING: u32 = 1 << 4 | 1 << 31;

// The code of low speed in a port's word, xHCI 7.2.2.1.1.
pub const LOW_SPEED: u8 = 2;

pub fn port_connected(raw: u32) -> bool
    ensures { result ≡ port_connected raw }
{
    raw & 1 != 0
}

pub fn port_speed(raw: u32) -> u8
    ensures { result ≡ port_speed raw }
{
    ((raw >> 10) & 15) as u8
}

pub fn port_status(raw: u32) -> PortStatus
    ensures { result ≡ port_status_of raw }
{
    PortStatus {
        connected: port_connected(raw),
        enabled: raw & 2 != 0,
        resetting: raw & RESETTING != 0,
        speed_code: port_speed(raw),
        change_bits: raw & 0x00fe_0000,
    }
}
