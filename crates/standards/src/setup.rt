// The SETUP packet and the endpoint address, USB 2.0 chapter 9.
ghost use Rattle.std.specs.Prelude.{◌≡◌};
ghost use Rattle.standards.specs.Fields.{field, bit};
ghost use Rattle.standards.specs.Setup.{packet_of, setup_bytes, same_bytes, in_if, request_direction, request_kind, recipient_of, endpoint_number, endpoint_reserved, endpoint_direction};

use models::{Direction, SetupPacket};

// The packet, or one of zeros.
pub fn packet_of(s: Option<SetupPacket>) -> SetupPacket
    ensures { result ≡ packet_of s }
{
    s.unwrap_or_default()
}

fn low_byte(x: u16) -> u8
    ensures { result ≡ field 0 8 x }
{
    (x & 255) as u8
}

fn high_byte(x: u16) -> u8
    ensures { result ≡ field 8 8 x }
{
    (x >> 8) as u8
}

// The eight bytes that a SETUP packet is sent as.
pub fn setup_bytes(packet: SetupPacket) -> [u8; 8]
    ensures { result ≡ setup_bytes packet }
{
    [
        packet.request_type,
        packet.request,
        low_byte(packet.value),
        high_byte(packet.value),
        low_byte(packet.index),
        high_byte(packet.index),
        low_byte(packet.length),
        high_byte(packet.length),
    ]
}

// Whether the two are the same bytes.
pub fn same_setup(a: &[u8; 8], b: &[u8; 8]) -> bool
    ensures { result ≡ same_bytes a.now b.now }
{
    a == b
}

// Bit 7 is the direction, of a request and of an endpoint alike.
fn direction_of(byte: u8) -> Direction
    ensures { result ≡ in_if (bit 7 byte) }
{
    if byte & 128 != 0 {
        Direction::In
    } else {
        Direction::Out
    }
}

pub fn request_direction(request_type: u8) -> Direction
    ensures { result ≡ request_direction request_type }
{
    direction_of(request_type)
}

// 0 standard, 1 class, 2 vendor, 3 reserved.
pub fn request_kind(request_type: u8) -> u8
    ensures { result ≡ request_kind request_type }
{
    (request_type >> 5) & 3
}

pub fn recipient(request_type: u8) -> u8
    ensures { result ≡ recipient_of request_type }
{
    request_type & 31
}

pub fn endpoint_number(address: u8) -> u8
    ensures { result ≡ endpoint_number address }
{
    address & 15
}

pub fn endpoint_reserved(address: u8) -> u8
    ensures { result ≡ endpoint_reserved address }
{
    (address >> 4) & 7
}

pub fn endpoint_direction(address: u8) -> Direction
    ensures { result ≡ endpoint_direction address }
{
    direction_of(address)
}
