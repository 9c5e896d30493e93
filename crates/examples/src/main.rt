// Worked cases of USB 2.0 chapter 9, of xHCI 5.4.8 and of docs/CALLS.md. Each prints its name, what is computed, and whether that is the value written here.
#![tactic(auto)]

ghost use Rattle.std.specs.Prelude.{◌≡◌};

use models::SetupPacket;
use standards::PortStatus;
use standards::ports::port_status;
use standards::setup::{same_setup, setup_bytes};
use std::io;
use std::io::Write;
use texts::print::{hex, hex_bytes, number, text};
use words::{option_i32_word, to_option_i32};

fn print_verdict<W: Write>(out: &mut W, right: bool) -> io::Result<()> {
    if right {
        text(out, b" ok\n")
    } else {
        text(out, b" WRONG\n")
    }
}

fn print_number<W: Write>(out: &mut W, name: &[u8], n: u64) -> io::Result<()> {
    text(out, name)?;
    number(out, n)
}

fn packet(request_type: u8, request: u8, value: u16, index: u16, length: u16) -> SetupPacket {
    SetupPacket {
        request_type,
        request,
        value,
        index,
        length,
    }
}

fn setup_case<W: Write>(
    out: &mut W,
    name: &[u8],
    packet: SetupPacket,
    expected: &[u8; 8],
) -> io::Result<()> {
    let bytes = setup_bytes(packet);
    text(out, name)?;
    hex_bytes(out, &bytes)?;
    print_verdict(out, same_setup(&bytes, expected))
}

// USB 2.0, tables 9-3 to 9-6: what a host sends a new device.
fn enumeration_cases<W: Write>(out: &mut W) -> io::Result<()> {
    setup_case(
        out,
        b"GET_DESCRIPTOR(device)",
        packet(0x80, 6, 0x0100, 0, 18),
        b"\x80\x06\x00\x01\x00\x00\x12\x00",
    )?;
    setup_case(
        out,
        b"GET_DESCRIPTOR(configuration)",
        packet(0x80, 6, 0x0200, 0, 512),
        b"\x80\x06\x00\x02\x00\x00\x00\x02",
    )?;
    setup_case(
        out,
        b"SET_ADDRESS(5)",
        packet(0, 5, 5, 0, 0),
        b"\x00\x05\x05\x00\x00\x00\x00\x00",
    )?;
    setup_case(
        out,
        b"SET_CONFIGURATION(1)",
        packet(0, 9, 1, 0, 0),
        b"\x00\x09\x01\x00\x00\x00\x00\x00",
    )
}

// Tables 9-3 to 9-6: what it sends a device that is there.
fn state_cases<W: Write>(out: &mut W) -> io::Result<()> {
    setup_case(
        out,
        b"SET_INTERFACE(2, 1)",
        packet(1, 11, 1, 2, 0),
        b"\x01\x0b\x01\x00\x02\x00\x00\x00",
    )?;
    setup_case(
        out,
        b"GET_STATUS(device)",
        packet(0x80, 0, 0, 0, 2),
        b"\x80\x00\x00\x00\x00\x00\x02\x00",
    )?;
    setup_case(
        out,
        b"CLEAR_FEATURE(ENDPOINT_HALT, 81h)",
        packet(2, 1, 0, 0x81, 0),
        b"\x02\x01\x00\x00\x81\x00\x00\x00",
    )
}

fn status(
    connected: bool,
    enabled: bool,
    resetting: bool,
    speed_code: u8,
    change_bits: u32,
) -> PortStatus {
    PortStatus {
        connected,
        enabled,
        resetting,
        speed_code,
        change_bits,
    }
}

fn port_case<W: Write>(out: &mut W, name: &[u8], raw: u32, expected: PortStatus) -> io::Result<()> {
    let found = port_status(raw);
    text(out, name)?;
    text(out, b" ")?;
    hex(out, raw as u64, 8)?;
    print_number(out, b": connected", found.connected as u64)?;
    print_number(out, b" enabled", found.enabled as u64)?;
    print_number(out, b" resetting", found.resetting as u64)?;
    print_number(out, b" speed", found.speed_code as u64)?;
    text(out, b" changes ")?;
    hex(out, found.change_bits as u64, 6)?;
    print_verdict(out, found == expected)
}

// xHCI 5.4.8. The last has bits 16 and 24 too, which are no changes.
fn port_cases<W: Write>(out: &mut W) -> io::Result<()> {
    port_case(
        out,
        b"full speed",
        0x0000_0403,
        status(true, true, false, 1, 0),
    )?;
    port_case(
        out,
        b"low speed",
        0x0000_0803,
        status(true, true, false, 2, 0),
    )?;
    port_case(
        out,
        b"just connected",
        0x0002_0c01,
        status(true, false, false, 3, 0x02_0000),
    )?;
    port_case(
        out,
        b"port reset",
        0x0000_0411,
        status(true, false, true, 1, 0),
    )?;
    port_case(
        out,
        b"warm port reset",
        0x8000_1001,
        status(true, false, true, 4, 0),
    )?;
    port_case(
        out,
        b"every change",
        0x01ff_0403,
        status(true, true, false, 1, 0xfe_0000),
    )
}

fn says(o: Option<i32>, value: i32) -> bool {
    match o {
        None => false,
        Some(v) => v == value,
    }
}

fn number_case<W: Write>(out: &mut W, name: &[u8], value: i32, expected: u64) -> io::Result<()> {
    let word = option_i32_word(Some(value));
    text(out, name)?;
    number(out, word)?;
    print_verdict(
        out,
        (word == expected) & says(to_option_i32(expected), value),
    )
}

// docs/CALLS.md: the word of a signed number is one more than its two's complement in 32 bits.
fn number_cases<W: Write>(out: &mut W) -> io::Result<()> {
    number_case(out, b"system number -5", -5, 4294967292)?;
    number_case(out, b"system number -1", -1, 4294967296)?;
    number_case(out, b"system number 0", 0, 1)?;
    number_case(out, b"greatest system number", 2147483647, 2147483648)?;
    number_case(out, b"least system number", -2147483648, 2147483649)
}

fn main(rt: HostRuntime) -> io::Result<()> {
    let mut out = rt.stdout();
    enumeration_cases(&mut out)?;
    state_cases(&mut out)?;
    port_cases(&mut out)?;
    number_cases(&mut out)
}
