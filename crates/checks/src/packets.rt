// Isochronous packet lengths: the place packets of the table.
ghost use Rattle.std.specs.Prelude.{[], ◌≡◌, eqb, is_some, unwrap_or};
ghost use Rattle.std.specs.Option.{option_copied};
ghost use Rattle.models.specs.Said.{Tabled, verdict_said};
ghost use Rattle.checks.specs.Packets.{total, packets_checked};
ghost use Rattle.checks.specs.Said.{packets_numbers};

use models::{Cause, Refusal, TransferType, kinds, reject};

// The most packets of a request.
const PACKETS_MOST: usize = 128;

// The packets sum to the length. A sum that passes the length ends the walk, so it can't wrap.
fn sums_to(packets: &[u64], length: u64) -> bool
    ensures { result ≡ eqb (total packets.now) length }
{
    let mut sum: u64 = 0;
    for next in packets {
        if *next > length - sum {
            return false;
        }
        sum += *next;
    }
    sum == length
}

// Refuses by 4 packets that are given and not isochronous, not 1 to 128, or not of the length together.
pub fn check_packets(
    packets: Option<&[u64]>,
    transfer_type: TransferType,
    length: u64,
) -> Result<(), Refusal>
    ensures step { result ≡ packets_checked (is_some packets.entry) (unwrap_or (option_copied packets.entry) []) transfer_type length }
    ensures table { Tabled packets_numbers (verdict_said result) }
{
    let Some(packets) = packets else {
        return Ok(());
    };
    if !kinds::is_isochronous(transfer_type) {
        return reject(Cause::BadPackets);
    }
    let n = packets.len();
    if (n == 0) | (n > PACKETS_MOST) {
        return reject(Cause::BadPackets);
    }
    if !sums_to(packets, length) {
        return reject(Cause::BadPackets);
    }
    Ok(())
}
