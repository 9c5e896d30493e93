// Root ports: the Rust's `Ports`.
ghost use Rattle.std.specs.Prelude.{◌≡◌, ◌<◌, length};
ghost use Rattle.chain.specs.After.{after};
ghost use Rattle.models.specs.Said.{Tabled, verdict_said};
ghost use Rattle.bus.specs.Layout.{bus_words};
ghost use Rattle.bus.specs.Tables.{bus_of, port_index, port_at, put_port};
ghost use Rattle.bus.specs.Ports.{number_checked, set_port, of_opening, validated_row, validated, raised_row, observed_row, observe_port, fresh_word, fresh_reading, fresh_port};
ghost use Rattle.bus.specs.Said.{port_said, placed_port_numbers, fresh_port_numbers};

use crate::{PORT_WORDS, PortRow};
use models::{Cause, OperationError, PortId, Ports, Refusal};
use standards::ports::port_connected;
use words::slices;

// Ports are numbered from 1; number 0, which no port has, is given port 1's row.
fn port_index(number: u8) -> usize
    ensures { (result ≡ port_index number) × (result < 255) }
{
    number.saturating_sub(1) as usize
}

fn read_port(bus: &[u64], number: u8) -> PortRow
    requires { length bus.now ≡ bus_words }
    ensures { result ≡ port_at (bus_of bus.now) number }
{
    let at = port_index(number) * PORT_WORDS;
    PortRow {
        generation: bus[at],
        reading: words::to_option_u32(bus[at + 1]),
    }
}

fn write_port(bus: &mut [u64], number: u8, row: PortRow)
    requires { length bus.old ≡ bus_words }
    ensures { bus_of bus.new ≡ put_port (bus_of bus.old) number row }
{
    let at = port_index(number) * PORT_WORDS;
    let w = [row.generation, words::option_u32_word(row.reading)];
    slices::copy(bus, at, &w, PORT_WORDS);
}

// Refuses by 29 if there are no ports, by 30 if the number is 0 or above the count.
fn check_number(ports: Option<Ports>, number: u8) -> Result<(), Refusal>
    ensures { result ≡ number_checked ports number }
{
    let p = ports.ok_or(models::refuse(Cause::NoPorts))?;
    if (number == 0) | (number > p.count) {
        return Err(models::refuse(Cause::NoSuchPort));
    }
    Ok(())
}

// Puts a port row, whatever its old words. Refuses by 29 and 30.
pub fn set_port(
    bus: &mut [u64],
    ports: Option<Ports>,
    number: u8,
    row: PortRow,
) -> Result<(), Refusal>
    requires { length bus.old ≡ bus_words }
    ensures step { after result (bus_of bus.new) ≡ set_port ports number row (bus_of bus.old) }
    ensures table { Tabled placed_port_numbers (verdict_said result) }
{
    check_number(ports, number)?;
    write_port(bus, number, row);
    Ok(())
}

// The session number that port ids carry is the opening's.
fn is_session(ports: Option<Ports>, session: u64) -> bool
    ensures { result ≡ of_opening ports session }
{
    ports.is_some_and(|p| session == p.session)
}

// Refuses by 31 an id of another session or generation, then by 32 a port without a reading.
fn validate_row(ports: Option<Ports>, id: PortId, row: PortRow) -> Result<u32, Refusal>
    ensures { result ≡ validated_row ports id row }
{
    let same = is_session(ports, id.session);
    if !same | (id.generation != row.generation) {
        return Err(models::refuse(Cause::StalePort));
    }
    row.reading.ok_or(models::refuse(Cause::PortNeverRead))
}

// The port's reading, or its refusal by 29, 30, 31 or 32.
pub fn validate(bus: &[u64], ports: Option<Ports>, id: PortId) -> Result<u32, Refusal>
    requires { length bus.now ≡ bus_words }
    ensures { result ≡ validated ports id (bus_of bus.now) }
{
    check_number(ports, id.number)?;
    validate_row(ports, id, read_port(bus, id.number))
}

// The row with the reading and the next generation. Refuses by 34 if that is past the maximum.
fn raise(row: PortRow, raw: u32) -> Result<PortRow, Refusal>
    ensures { result ≡ raised_row row raw }
{
    let generation = row
        .generation
        .checked_add(1)
        .ok_or(models::refuse(Cause::GenerationsSpent))?;
    Ok(PortRow {
        generation,
        reading: Some(raw),
    })
}

// A reading whose connected bit differs from the row's raises the generation.
fn observe_row(row: PortRow, raw: u32) -> Result<PortRow, Refusal>
    ensures { result ≡ observed_row row raw }
{
    let now = port_connected(raw);
    if row.reading.is_some_and(|old| port_connected(old) != now) {
        return raise(row, raw);
    }
    Ok(PortRow {
        reading: Some(raw),
        ..row
    })
}

// Writes a reading to its port's row, unless 34 refuses it.
fn observe(bus: &mut [u64], number: u8, raw: u32) -> Result<PortRow, Refusal>
    requires { length bus.old ≡ bus_words }
    ensures { after result (bus_of bus.new) ≡ observe_port number raw (bus_of bus.old) }
{
    let next = observe_row(read_port(bus, number), raw)?;
    write_port(bus, number, next);
    Ok(next)
}

// Writes a word to its port's row. Refuses by 34 with nothing written, or by 31 with the row written.
fn observe_word(bus: &mut [u64], ports: Option<Ports>, id: PortId, raw: u32) -> Result<u32, Refusal>
    requires { length bus.old ≡ bus_words }
    ensures { after result (bus_of bus.new) ≡ fresh_word raw ports id (bus_of bus.old) }
{
    let row = observe(bus, id.number, raw)?;
    validate_row(ports, id, row)
}

// The answer that `observe_word` would give, without writing the reading.
pub fn peek_word(bus: &[u64], ports: Option<Ports>, id: PortId, raw: u32) -> Result<u32, Refusal>
    requires { length bus.now ≡ bus_words }
    ensures { result ≡ (fresh_word raw ports id (bus_of bus.now)).result }
{
    let row = observe_row(read_port(bus, id.number), raw)?;
    validate_row(ports, id, row)
}

// Writes a reading to its port's row. Refuses by 33, 34 and 31.
fn observe_reading(
    bus: &mut [u64],
    ports: Option<Ports>,
    id: PortId,
    reading: Result<u32, OperationError>,
) -> Result<u32, Refusal>
    requires { length bus.old ≡ bus_words }
    ensures { after result (bus_of bus.new) ≡ fresh_reading reading ports id (bus_of bus.old) }
{
    let raw = reading.map_err(|error| models::refuse_backend(Cause::PortUnreadable, error))?;
    observe_word(bus, ports, id, raw)
}

// Validates the id, writes the reading, and validates the id again.
pub fn fresh_port(
    bus: &mut [u64],
    ports: Option<Ports>,
    id: PortId,
    reading: Result<u32, OperationError>,
) -> Result<u32, Refusal>
    requires { length bus.old ≡ bus_words }
    ensures step { after result (bus_of bus.new) ≡ fresh_port ports id reading (bus_of bus.old) }
    ensures table { Tabled fresh_port_numbers (port_said result) }
{
    validate(bus, ports, id)?;
    observe_reading(bus, ports, id, reading)
}
