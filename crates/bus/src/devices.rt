// Device rows and reconciliation marks, one of each for a slot.
ghost use Rattle.std.specs.Prelude.{◌≡◌, length, Some};
ghost use Rattle.bus.specs.Layout.{bus_words, read_device, device_record};
ghost use Rattle.bus.specs.Tables.{bus_of, device_at, put_device, mark_at, put_mark};

use crate::{DEVICE_WORDS, DEVICES, MARKS};
use models::{DeviceId, DeviceSnapshot, DeviceState, PortId};
use words::slices;

fn encode_device(d: DeviceSnapshot) -> [u64; DEVICE_WORDS]
    ensures { (read_device result ≡ Some d) × (result ≡ device_record d) }
{
    [
        1,
        d.id.session,
        d.id.generation,
        d.id.slot as u64,
        d.port.session,
        d.port.generation,
        d.port.number as u64,
        u64::from(d.state),
    ]
}

pub fn read_device(bus: &[u64], slot: u8) -> Option<DeviceSnapshot>
    requires { length bus.now ≡ bus_words }
    ensures { result ≡ device_at (bus_of bus.now) slot }
{
    let at = DEVICES + slot as usize * DEVICE_WORDS;
    if bus[at] == 0 {
        return None;
    }
    let id = DeviceId {
        session: bus[at + 1],
        generation: bus[at + 2],
        slot: (bus[at + 3] % 256) as u8,
    };
    let port = PortId {
        session: bus[at + 4],
        generation: bus[at + 5],
        number: (bus[at + 6] % 256) as u8,
    };
    let state = DeviceState::from(bus[at + 7]);
    Some(DeviceSnapshot { id, port, state })
}

// The device replaces its slot's.
pub fn set_device(bus: &mut [u64], d: DeviceSnapshot)
    requires { length bus.old ≡ bus_words }
    ensures { bus_of bus.new ≡ put_device (bus_of bus.old) d }
{
    let at = DEVICES + d.id.slot as usize * DEVICE_WORDS;
    let w = encode_device(d);
    slices::copy(bus, at, &w, DEVICE_WORDS);
}

// The slot waits for a raw reconciliation.
pub fn needs_reconcile(bus: &[u64], slot: u8) -> bool
    requires { length bus.now ≡ bus_words }
    ensures { result ≡ mark_at (bus_of bus.now) slot }
{
    words::to_flag(bus[MARKS + slot as usize])
}

pub fn set_reconcile(bus: &mut [u64], slot: u8, mark: bool)
    requires { length bus.old ≡ bus_words }
    ensures { bus_of bus.new ≡ put_mark (bus_of bus.old) slot mark }
{
    bus[MARKS + slot as usize] = words::flag_word(mark);
}
