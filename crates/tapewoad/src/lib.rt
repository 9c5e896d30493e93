// The C boundary: functions over numbers and slices. Each slice is a pointer and a length. include/tapewoad.h has their prototypes.
#![tactic(auto)]

ghost use Rattle.std.specs.Prelude.{◌≡◌};
ghost use Rattle.chain.specs.After.{after};
ghost use Rattle.dispatch.specs.Apply.{dispatch_of};
ghost use Rattle.session.specs.Lent.{lent_of};
ghost use Rattle.session_words.specs.State.{kept_of};
ghost use Rattle.dispatch.specs.Read.{reading_of};
ghost use Rattle.dispatch.specs.Slices.{buffers_of};
ghost use Rattle.tapewoad.specs.Version.{version};

// Makes the call that the words say. Answers a status; unless it is 0, nothing changes.
#[unsafe(no_mangle)]
pub extern "C" fn tapewoad_apply(
    session: &mut [u64],
    bus: &mut [u64],
    rows: &mut [u64],
    area: &mut [u8],
    call: &[u64],
    bytes: &[u8],
    out: &mut [u64],
    lists: &mut [u64],
) -> u64
    ensures { after result (buffers_of session.new bus.new rows.new area.new out.new lists.new)
        ≡ dispatch_of call.now bytes.now (buffers_of session.old bus.old rows.old area.old out.old lists.old) }
{
    dispatch::apply(session, bus, rows, area, call, bytes, out, lists)
}

// Read-only calls and questions: `tapewoad_apply` without write access.
#[unsafe(no_mangle)]
pub extern "C" fn tapewoad_read(
    session: &[u64],
    bus: &[u64],
    rows: &[u64],
    area: &[u8],
    call: &[u64],
    bytes: &[u8],
    out: &mut [u64],
) -> u64
    ensures { after result out.new ≡ reading_of call.now bytes.now
        (kept_of session.now) (lent_of bus.now rows.now area.now) out.old }
{
    dispatch::read::read(session, bus, rows, area, call, bytes, out)
}

// The version of the words: the major number times 2^32, and the minor number.
#[unsafe(no_mangle)]
pub extern "C" fn tapewoad_version() -> u64
    ensures { result ≡ version }
{
    4294967298
}
