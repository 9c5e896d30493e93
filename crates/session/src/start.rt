// The start of a call: refuses by 1 while an operation is in flight, by 3 if a lent slice has not the size that the session records.
// A report has the second alone.
ghost use Rattle.std.specs.Prelude.{◌≡◌};
ghost use Rattle.session.specs.Sizes.{rows_fit, bus_fits, memory_sizes, lent_sizes};
ghost use Rattle.session.specs.Start.{sized_of, ready_of};

use crate::{Session, is_busy, sizes};
use models::{Cause, Refusal, reject};

fn sized(fits: bool) -> Result<(), Refusal>
    ensures { result ≡ sized_of fits }
{
    if !fits {
        return reject(Cause::WrongSize);
    }
    Ok(())
}

pub fn rows_sized(session: Session, words: usize) -> Result<(), Refusal>
    ensures { result ≡ sized_of (rows_fit session.size words) }
{
    sized(sizes::rows_fit(session.size, words))
}

pub fn memory_sized(session: Session, words: usize, bytes: usize) -> Result<(), Refusal>
    ensures { result ≡ sized_of (memory_sizes session.size words bytes) }
{
    sized(sizes::memory_fits(session.size, words, bytes))
}

fn ready(session: Session, fits: bool) -> Result<(), Refusal>
    ensures { result ≡ ready_of session fits }
{
    if is_busy(session.in_flight) {
        return reject(Cause::OperationInFlight);
    }
    sized(fits)
}

pub fn rows_ready(session: Session, words: usize) -> Result<(), Refusal>
    ensures { result ≡ ready_of session (rows_fit session.size words) }
{
    ready(session, sizes::rows_fit(session.size, words))
}

pub(crate) fn bus_ready(session: Session, words: usize) -> Result<(), Refusal>
    ensures { result ≡ ready_of session (bus_fits words) }
{
    ready(session, sizes::bus_fits(words))
}

pub fn lent_ready(
    session: Session,
    words: usize,
    bytes: usize,
    bus_words: usize,
) -> Result<(), Refusal>
    ensures { result ≡ ready_of session (lent_sizes session.size words bytes bus_words) }
{
    let fits = sizes::lent_fits(session.size, words, bytes, bus_words);
    ready(session, fits)
}
