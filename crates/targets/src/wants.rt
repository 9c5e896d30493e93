// Which port reading a submission lacks: the checks before it, in the order of document 01's table, with nothing written.
ghost use Rattle.std.specs.Prelude.{◌≡◌, length};
ghost use Rattle.bus.specs.Layout.{bus_words};
ghost use Rattle.bus.specs.Tables.{bus_of};
ghost use Rattle.targets.specs.Wants.{is_missing, second_wanted, after_first, first_wanted, device_wanted, wanted_reading};

use crate::Readings;
use crate::target::{known_device, prepared_device};
use bus::ports::{peek_word, validate};
use models::{DeviceSnapshot, OperationError, Ports, RequestMetadata, kinds};

// Which reading is wanted, with its port's number.
#[derive(Clone, Copy)]
pub enum Wanted {
    First(u8),
    Second(u8),
}

// A reading that was not taken yet is given as failed.
fn is_missing(reading: Result<u32, OperationError>) -> bool
    ensures { result ≡ is_missing reading }
{
    reading.is_err()
}

// The second reading is wanted if 36 does not refuse, and not for control.
fn second_wanted(
    device: DeviceSnapshot,
    metadata: RequestMetadata,
    second: Result<u32, OperationError>,
) -> Option<Wanted>
    ensures { result ≡ second_wanted device metadata second }
{
    if kinds::is_control(metadata.transfer_type) {
        return None;
    }
    if !kinds::is_configured(device.state) {
        return None;
    }
    if !is_missing(second) {
        return None;
    }
    Some(Wanted::Second(device.port.number))
}

// What is wanted behind the first reading: nothing if 34, 31 or 35 refuses, else by the second.
fn after_first(
    bus: &[u64],
    ports: Option<Ports>,
    device: DeviceSnapshot,
    metadata: RequestMetadata,
    raw: u32,
    second: Result<u32, OperationError>,
) -> Option<Wanted>
    requires { length bus.now ≡ bus_words }
    ensures { result ≡ after_first raw second ports device metadata (bus_of bus.now) }
{
    let port = peek_word(bus, ports, device.port, raw);
    let device = prepared_device(port, device).ok()?;
    second_wanted(device, metadata, second)
}

fn first_wanted(
    bus: &[u64],
    ports: Option<Ports>,
    device: DeviceSnapshot,
    metadata: RequestMetadata,
    readings: Readings,
) -> Option<Wanted>
    requires { length bus.now ≡ bus_words }
    ensures { result
        ≡ first_wanted readings.first readings.second ports device metadata (bus_of bus.now) }
{
    let first = readings.first;
    let second = readings.second;
    match first {
        Err(_) => Some(Wanted::First(device.port.number)),
        Ok(raw) => after_first(bus, ports, device, metadata, raw, second),
    }
}

// What is wanted of a known device: nothing if 29 to 32 refuse, else by the first reading.
fn device_wanted(
    bus: &[u64],
    ports: Option<Ports>,
    device: DeviceSnapshot,
    metadata: RequestMetadata,
    readings: Readings,
) -> Option<Wanted>
    requires { length bus.now ≡ bus_words }
    ensures { result ≡ device_wanted device ports metadata readings (bus_of bus.now) }
{
    validate(bus, ports, device.port).ok()?;
    first_wanted(bus, ports, device, metadata, readings)
}

// The reading that is wanted next: nothing if 26 to 28 refuse, else by the device's port.
pub fn wanted_reading(
    bus: &[u64],
    initialized: bool,
    ports: Option<Ports>,
    metadata: RequestMetadata,
    readings: Readings,
) -> Option<Wanted>
    requires { length bus.now ≡ bus_words }
    ensures { result ≡ wanted_reading initialized ports metadata readings (bus_of bus.now) }
{
    let device = known_device(bus, initialized, metadata.device).ok()?;
    device_wanted(bus, ports, device, metadata, readings)
}
