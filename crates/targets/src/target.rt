// The places device and not control of the table: the Rust's `prepared_device`, and what follows it for an endpoint other than 0.
ghost use Rattle.std.specs.Prelude.{◌≡◌, length};
ghost use Rattle.chain.specs.After.{after};
ghost use Rattle.models.specs.Said.{Tabled, verdict_said};
ghost use Rattle.bus.specs.Layout.{bus_words};
ghost use Rattle.bus.specs.Tables.{bus_of};
ghost use Rattle.targets.specs.Said.{target_numbers};
ghost use Rattle.targets.specs.Target.{known_device, prepared_device, fresh_device, check_device, speed_checked, check_endpoint, check_target};

use crate::Readings;
use bus::ports::fresh_port;
use bus::{devices, endpoints};
use models::{
    Cause, DeviceId, DeviceSnapshot, OperationError, Ports, Refusal, RequestMetadata, TransferType,
    kinds, reject,
};
use standards::ports::{LOW_SPEED, port_speed};

// The device of this id. Refuses by 26 if its slot is marked, by 27 if it is unknown or stale, by 28 if the controller is not Initialized.
pub(crate) fn known_device(
    bus: &[u64],
    initialized: bool,
    id: DeviceId,
) -> Result<DeviceSnapshot, Refusal>
    requires { length bus.now ≡ bus_words }
    ensures { result ≡ known_device initialized id (bus_of bus.now) }
{
    if devices::needs_reconcile(bus, id.slot) {
        return Err(models::refuse(Cause::SlotMarked));
    }
    let device = devices::read_device(bus, id.slot).ok_or(models::refuse(Cause::UnknownDevice))?;
    if device.id != id {
        return Err(models::refuse(Cause::UnknownDevice));
    }
    if !initialized {
        return Err(models::refuse(Cause::NotInitialized));
    }
    Ok(device)
}

// Refuses by 35 a device that is not prepared; else passes on the port's refusal or the device.
pub(crate) fn prepared_device(
    port: Result<u32, Refusal>,
    device: DeviceSnapshot,
) -> Result<DeviceSnapshot, Refusal>
    ensures { result ≡ prepared_device port device }
{
    port?;
    if !kinds::is_prepared(device.state) {
        return Err(models::refuse(Cause::NotPrepared));
    }
    Ok(device)
}

// Takes the port's reading. Refuses by 29 to 34, then by 35.
fn fresh_device(
    bus: &mut [u64],
    ports: Option<Ports>,
    device: DeviceSnapshot,
    reading: Result<u32, OperationError>,
) -> Result<DeviceSnapshot, Refusal>
    requires { length bus.old ≡ bus_words }
    ensures { after result (bus_of bus.new) ≡ fresh_device ports device reading (bus_of bus.old) }
{
    let port = fresh_port(bus, ports, device.port, reading);
    prepared_device(port, device)
}

// Refuses by 26 to 35. A reading taken before a refusal stays written.
fn check_device(
    bus: &mut [u64],
    initialized: bool,
    ports: Option<Ports>,
    id: DeviceId,
    reading: Result<u32, OperationError>,
) -> Result<DeviceSnapshot, Refusal>
    requires { length bus.old ≡ bus_words }
    ensures { after result (bus_of bus.new)
        ≡ check_device initialized ports id reading (bus_of bus.old) }
{
    let device = known_device(bus, initialized, id)?;
    fresh_device(bus, ports, device, reading)
}

// Refuses by 37 bulk at low speed, by 58 isochronous at low speed, by 38 an endpoint that was not placed.
fn check_speed(
    bus: &[u64],
    raw: u32,
    slot: u8,
    endpoint: u8,
    transfer_type: TransferType,
) -> Result<(), Refusal>
    requires { length bus.now ≡ bus_words }
    ensures { result ≡ speed_checked raw slot endpoint transfer_type (bus_of bus.now) }
{
    let speed = port_speed(raw);
    let bulk = kinds::is_bulk(transfer_type);
    if (speed == LOW_SPEED) & bulk {
        return reject(Cause::BulkAtLowSpeed);
    }
    let isochronous = kinds::is_isochronous(transfer_type);
    if (speed == LOW_SPEED) & isochronous {
        return reject(Cause::IsochronousAtLowSpeed);
    }
    let placed = endpoints::has_endpoint(bus, slot, endpoint, transfer_type);
    if !placed {
        return reject(Cause::UnknownEndpoint);
    }
    Ok(())
}

// Refuses by 36 a device that is not Configured, then by what the second reading refuses by, then by 37, 58 and 38.
fn check_endpoint(
    bus: &mut [u64],
    ports: Option<Ports>,
    device: DeviceSnapshot,
    metadata: RequestMetadata,
    reading: Result<u32, OperationError>,
) -> Result<(), Refusal>
    requires { length bus.old ≡ bus_words }
    ensures { after result (bus_of bus.new)
        ≡ check_endpoint ports device metadata reading (bus_of bus.old) }
{
    if !kinds::is_configured(device.state) {
        return reject(Cause::NotConfigured);
    }
    let raw = fresh_port(bus, ports, device.port, reading)?;
    check_speed(
        bus,
        raw,
        metadata.device.slot,
        metadata.endpoint,
        metadata.transfer_type,
    )
}

// Checks the device, and of a request that is not control its endpoint.
pub fn check_target(
    bus: &mut [u64],
    initialized: bool,
    ports: Option<Ports>,
    metadata: RequestMetadata,
    readings: Readings,
) -> Result<(), Refusal>
    requires { length bus.old ≡ bus_words }
    ensures step { after result (bus_of bus.new)
        ≡ check_target initialized ports metadata readings (bus_of bus.old) }
    ensures table { Tabled target_numbers (verdict_said result) }
{
    let id = metadata.device;
    let device = check_device(bus, initialized, ports, id, readings.first)?;
    if kinds::is_control(metadata.transfer_type) {
        return Ok(());
    }
    check_endpoint(bus, ports, device, metadata, readings.second)
}
