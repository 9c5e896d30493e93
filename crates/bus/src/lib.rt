// Ports, devices, endpoint lists and reconciliation marks (the Rust's `raw_coherence.slots`), in lent words of a fixed number.
#![tactic(auto)]

ghost use Rattle.std.specs.Prelude.{◌≡◌, ◌++◌, length, drop};
ghost use Rattle.bus.specs.Layout.{port_count, devices_at, bus_words};
ghost use Rattle.bus.specs.Tables.{bus_of, new_ports, cleared};

use words::slices;

pub mod devices; // devices.rt: device rows and reconciliation marks
pub mod endpoints; // endpoints.rt: the endpoints of a slot
pub mod ports; // ports.rt: root ports, their readings and 29 to 34

// How many words a bus has: 255 port rows of 2, 256 device rows of 8, 256 endpoint lists of 31, 256 marks.
pub const WORDS: usize = 10750;

// How many ports there are.
const PORTS: usize = 255;

// The words of a port row.
const PORT_WORDS: usize = 2;

// The words of a device row.
const DEVICE_WORDS: usize = 8;

// The words of an endpoint list: a count and the endpoints.
const LIST_WORDS: usize = 31;

// Where each table but the ports' starts.
const DEVICES: usize = 510;

const ENDPOINTS: usize = 2558;

const MARKS: usize = 10494;

// The words behind the ports.
const SLOTS: usize = WORDS - DEVICES;

// A root port: its generation, and its last reading or none.
#[derive(Clone, Copy)]
pub struct PortRow {
    pub generation: u64,
    pub reading: Option<u32>,
}

// Each port has generation 1 and no reading.
fn begin_ports(bus: &mut [u64])
    requires { length bus.old ≡ bus_words }
    ensures { bus.new ≡ new_ports port_count ++ drop devices_at bus.old }
{
    for i in 0..PORTS {
        bus[i * PORT_WORDS] = 1;
        bus[i * PORT_WORDS + 1] = 0;
    }
}

// Every device absent, every endpoint list empty, every mark clear, every port of generation 1 and without a reading.
pub fn clear(bus: &mut [u64])
    requires { length bus.old ≡ bus_words }
    ensures { bus_of bus.new ≡ cleared }
{
    slices::fill(bus, DEVICES, SLOTS, 0);
    begin_ports(bus);
}
