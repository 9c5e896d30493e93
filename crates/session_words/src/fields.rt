// Single fields of a session, read from its words and written there.
ghost use Rattle.std.specs.Prelude.{true, false, ◌≡◌};
ghost use Rattle.session.specs.Session.{is_busy, is_initialized, with_flight};
ghost use Rattle.session.specs.declared.InFlight.TheVariants as InFlight;
ghost use Rattle.session_words.specs.Fields.{is_submit_flight, is_poll_flight, flight_id};
ghost use Rattle.session_words.specs.State.{read_session, is_session, kept_of, kept_as};

use crate::state::{FLIGHT, REQUEST};
use models::values::id_at;
use models::{ControllerState, RequestId};
use session::Size;
use words::slices;
use words::slices::word_at;

pub fn size(w: &[u64]) -> Size
    ensures { result ≡ (read_session w.now).size }
{
    Size {
        row_count: word_at(w, 24),
        row_bytes: word_at(w, 25),
    }
}

// Something is in flight.
pub fn is_busy(w: &[u64]) -> bool
    ensures { result ≡ is_busy (read_session w.now).in_flight }
{
    let tag = word_at(w, FLIGHT);
    tag != 0
}

pub fn is_submitting(w: &[u64]) -> bool
    ensures { result ≡ is_submit_flight (read_session w.now).in_flight }
{
    let tag = word_at(w, FLIGHT);
    tag == 1
}

pub fn is_polling(w: &[u64]) -> bool
    ensures { result ≡ is_poll_flight (read_session w.now).in_flight }
{
    let tag = word_at(w, FLIGHT);
    tag == 2
}

// The request of what is in flight.
pub fn flight_id(w: &[u64]) -> RequestId
    requires { is_busy (read_session w.now).in_flight ≡ true }
    ensures { result ≡ flight_id (read_session w.now).in_flight }
{
    id_at(w, REQUEST)
}

pub fn is_initialized(w: &[u64]) -> bool
    ensures { result ≡ is_initialized (read_session w.now).state }
{
    let controller = ControllerState::from(word_at(w, 6));
    session::is_initialized(controller)
}

// Puts a poll of the id in flight. Needs canonical words: where nothing is in flight, the words that a poll does not use are 0.
pub fn begin_poll(w: &mut [u64], id: RequestId)
    requires { (is_session w.old ≡ true) × (is_busy (read_session w.old).in_flight ≡ false) }
    ensures { kept_of w.new
        ≡ kept_as w.old (with_flight (read_session w.old) (InFlight.Poll id)) }
{
    let flight = [2, id.session, id.generation, id.sequence];
    slices::copy(w, FLIGHT, &flight, 4);
}

// Ends what is in flight.
pub fn end_flight(w: &mut [u64])
    requires { is_session w.old ≡ true }
    ensures { kept_of w.new
        ≡ kept_as w.old (with_flight (read_session w.old) InFlight.Nothing) }
{
    slices::fill(w, FLIGHT, 9, 0);
}
