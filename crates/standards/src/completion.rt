// The completion codes of a transfer event, xHCI 6.4.5.
ghost use Rattle.std.specs.Prelude.{◌≡◌};
ghost use Rattle.standards.specs.Completion.{is_finished, is_stall};

const SUCCESS: u32 = 1;

const STALL_ERROR: u32 = 6;

// Fewer bytes came than the buffer holds.
const SHORT_PACKET: u32 = 13;

// The transfer is complete: success, or a short packet.
pub fn is_finished(code: u32) -> bool
    ensures { result ≡ is_finished code }
{
    matches!(code, SUCCESS | SHORT_PACKET)
}

pub fn is_stall(code: u32) -> bool
    ensures { result ≡ is_stall code }
{
    code == STALL_ERROR
}
