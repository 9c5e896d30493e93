// The endpoints of a slot, one word each: the address in the low 8 bits, the transfer type above them.
ghost use Rattle.std.specs.Prelude.{◌≡◌, length};
ghost use Rattle.chain.specs.After.{after};
ghost use Rattle.models.specs.Said.{Tabled, verdict_said};
ghost use Rattle.bus.specs.Layout.{bus_words, endpoint_word};
ghost use Rattle.bus.specs.Tables.{bus_of};
ghost use Rattle.bus.specs.Endpoints.{has_endpoint, set_endpoints};
ghost use Rattle.bus.specs.Said.{placed_list_numbers};

use crate::{ENDPOINTS, LIST_WORDS};
use models::{Cause, Refusal, TransferType};
use words::slices;

// The most endpoints of a slot.
const ENDPOINTS_MOST: usize = 30;

// The list replaces the slot's. Refuses by 53 if it is over 30.
pub fn set_endpoints(bus: &mut [u64], slot: u8, list: &[u64]) -> Result<(), Refusal>
    requires { length bus.old ≡ bus_words }
    ensures step { after result (bus_of bus.new)
        ≡ set_endpoints slot list.now (bus_of bus.old) }
    ensures table { Tabled placed_list_numbers (verdict_said result) }
{
    if list.len() > ENDPOINTS_MOST {
        return Err(models::refuse(Cause::TooManyEndpoints));
    }
    let at = ENDPOINTS + slot as usize * LIST_WORDS;
    let n = list.len();
    bus[at] = n as u64;
    slices::copy(bus, at + 1, list, n);
    Ok(())
}

fn endpoint_word(address: u8, transfer_type: TransferType) -> u64
    ensures { result ≡ endpoint_word address transfer_type }
{
    address as u64 + 256 * u64::from(transfer_type)
}

pub fn has_endpoint(bus: &[u64], slot: u8, address: u8, transfer_type: TransferType) -> bool
    requires { length bus.now ≡ bus_words }
    ensures { result ≡ has_endpoint slot address transfer_type (bus_of bus.now) }
{
    let word = endpoint_word(address, transfer_type);
    let at = ENDPOINTS + slot as usize * LIST_WORDS;
    let n = (bus[at] as usize).min(ENDPOINTS_MOST);
    bus[at + 1..at + 1 + n].contains(&word)
}
