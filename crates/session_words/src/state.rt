// The session as words, one a field.
ghost use Rattle.std.specs.Prelude.{◌≡◌, [], ◌∷◌};
ghost use Rattle.words.specs.Words.{option_u64_words};
ghost use Rattle.models.specs.Values.{read_request_words, read_device_words};
ghost use Rattle.session.specs.Said.{recovery_word};
ghost use Rattle.session_words.specs.State.{read_ports, ports_in, ports_words, revision_in, read_stall, stall_in, stall_words, read_kind, read_flight, flight_in, id_flight, recovery_flight, flight_words, read_session, session_words, ports_tail, revision_tail, stall_tail, flight_tail, stands_at, is_session, kept_of, kept_as};

use models::values::{device_at, id_at};
use models::{ControllerState, Ports, RequestId};
use session::{InFlight, RecoverableStall, Recovery, RecoveryKind, Session, Size};
use words::slices;
use words::slices::word_at;

// How many words a session has.
pub const WORDS: usize = 26;

// Where what is in flight stands: its tag, the request, and the device of a recovery.
pub(crate) const FLIGHT: usize = 15;

pub(crate) const REQUEST: u8 = 16;

const DEVICE: u8 = 19;

// The words of optional ports, of an optional stall and of what is in flight, as C has them: a flag or a tag, and zeros where there is none.
#[derive(Clone, Copy)]
pub struct PortsWords {
    pub present: u64,
    pub session: u64,
    pub count: u64,
}

#[derive(Clone, Copy)]
pub struct StallWords {
    pub present: u64,
    pub revision: u64,
    pub session: u64,
    pub generation: u64,
    pub slot: u64,
    pub endpoint: u64,
}

#[derive(Clone, Copy)]
pub struct FlightWords {
    pub tag: u64,
    pub session: u64,
    pub generation: u64,
    pub sequence: u64,
    pub device_session: u64,
    pub device_generation: u64,
    pub slot: u64,
    pub endpoint: u64,
    pub kind: u64,
}

fn to_ports(w: &[u64]) -> Option<Ports>
    ensures { result ≡ ports_in w.now }
{
    let present = word_at(w, 3);
    if present == 0 {
        return None;
    }
    Some(Ports {
        session: word_at(w, 4),
        count: (word_at(w, 5) % 256) as u8,
    })
}

fn ports_words(ports: Option<Ports>) -> PortsWords
    ensures { (read_ports result.present result.session result.count ≡ ports) × (result ≡ ports_words ports) }
{
    match ports {
        None => PortsWords {
            present: 0,
            session: 0,
            count: 0,
        },
        Some(p) => PortsWords {
            present: 1,
            session: p.session,
            count: p.count as u64,
        },
    }
}

fn to_stall(w: &[u64]) -> Option<RecoverableStall>
    ensures { result ≡ stall_in w.now }
{
    let present = word_at(w, 9);
    if present == 0 {
        return None;
    }
    Some(RecoverableStall {
        revision: word_at(w, 10),
        device: device_at(w, 11),
        endpoint: (word_at(w, 14) % 256) as u8,
    })
}

fn stall_words(stall: Option<RecoverableStall>) -> StallWords
    ensures { (read_stall result.present result.revision (read_device_words result.session result.generation result.slot)
        result.endpoint ≡ stall) × (result ≡ stall_words stall) }
{
    match stall {
        None => StallWords {
            present: 0,
            revision: 0,
            session: 0,
            generation: 0,
            slot: 0,
            endpoint: 0,
        },
        Some(s) => StallWords {
            present: 1,
            revision: s.revision,
            session: s.device.session,
            generation: s.device.generation,
            slot: s.device.slot as u64,
            endpoint: s.endpoint as u64,
        },
    }
}

fn to_kind(w: u64) -> RecoveryKind
    ensures { result ≡ read_kind w }
{
    if w == 0 {
        return RecoveryKind::Abort;
    }
    RecoveryKind::Reset(words::to_flag(w - 1))
}

pub fn kind_word(kind: RecoveryKind) -> u64
    ensures { (read_kind result ≡ kind) × (result ≡ recovery_word kind) }
{
    match kind {
        RecoveryKind::Abort => 0,
        RecoveryKind::Reset(preserve) => {
            if preserve {
                return 2;
            }
            1
        }
    }
}

fn to_flight(w: &[u64]) -> InFlight
    ensures { result ≡ flight_in w.now }
{
    let tag = word_at(w, FLIGHT);
    if tag == 0 {
        return InFlight::Nothing;
    }
    let id = id_at(w, REQUEST);
    if tag == 1 {
        return InFlight::Submission(id);
    }
    if tag == 2 {
        return InFlight::Poll(id);
    }
    let device = device_at(w, DEVICE);
    let kind = to_kind(word_at(w, 23));
    let endpoint = (word_at(w, 22) % 256) as u8;
    InFlight::Recovery(Recovery {
        target: id,
        device,
        endpoint,
        kind,
    })
}

fn id_flight(tag: u64, id: RequestId) -> FlightWords
    ensures { result ≡ id_flight tag id }
{
    FlightWords {
        tag,
        session: id.session,
        generation: id.generation,
        sequence: id.sequence,
        device_session: 0,
        device_generation: 0,
        slot: 0,
        endpoint: 0,
        kind: 0,
    }
}

fn recovery_flight(x: Recovery) -> FlightWords
    ensures { (read_kind result.kind ≡ x.kind) × (result ≡ recovery_flight x) }
{
    let kind = x.kind;
    FlightWords {
        tag: 3,
        session: x.target.session,
        generation: x.target.generation,
        sequence: x.target.sequence,
        device_session: x.device.session,
        device_generation: x.device.generation,
        slot: x.device.slot as u64,
        endpoint: x.endpoint as u64,
        kind: kind_word(kind),
    }
}

fn flight_words(flight: InFlight) -> FlightWords
    ensures { (read_flight result.tag (read_request_words result.session result.generation result.sequence)
        (read_device_words result.device_session result.device_generation result.slot) result.endpoint result.kind ≡ flight)
        × (result ≡ flight_words flight) }
{
    match flight {
        InFlight::Nothing => id_flight(
            0,
            RequestId {
                session: 0,
                generation: 0,
                sequence: 0,
            },
        ),
        InFlight::Submission(id) => id_flight(1, id),
        InFlight::Poll(id) => id_flight(2, id),
        InFlight::Recovery(x) => recovery_flight(x),
    }
}

// The session that the words say; a word that is missing says 0.
pub fn to_session(w: &[u64]) -> Session
    ensures { result ≡ read_session w.now }
{
    Session {
        number: word_at(w, 0),
        generation: word_at(w, 1),
        next_sequence: word_at(w, 2),
        ports: to_ports(w),
        state: ControllerState::from(word_at(w, 6)),
        recovery_revision: words::to_option_u64(word_at(w, 7), word_at(w, 8)),
        recoverable_stall: to_stall(w),
        in_flight: to_flight(w),
        size: Size {
            row_count: word_at(w, 24),
            row_bytes: word_at(w, 25),
        },
    }
}

// The words of a session, and the session that they say.
pub fn session_words(session: Session) -> [u64; 26]
    ensures { (read_session result ≡ session) × (result ≡ session_words session) }
{
    let ports = session.ports;
    let state = session.state;
    let revision = session.recovery_revision;
    let stall = session.recoverable_stall;
    let flight = session.in_flight;
    let size = session.size;
    let p = ports_words(ports);
    let r = words::option_u64_words(revision);
    let x = stall_words(stall);
    let f = flight_words(flight);
    [
        session.number,
        session.generation,
        session.next_sequence,
        p.present,
        p.session,
        p.count,
        u64::from(state),
        r.present,
        r.value,
        x.present,
        x.revision,
        x.session,
        x.generation,
        x.slot,
        x.endpoint,
        f.tag,
        f.session,
        f.generation,
        f.sequence,
        f.device_session,
        f.device_generation,
        f.slot,
        f.endpoint,
        f.kind,
        size.row_count,
        size.row_bytes,
    ]
}

fn is_ports(w: &[u64]) -> bool
    ensures { result ≡ stands_at w.now 3 (ports_tail (ports_words (ports_in w.now)) []) }
{
    let present = word_at(w, 3);
    let session = word_at(w, 4);
    let count = word_at(w, 5);
    if present == 0 {
        return (session == 0) & (count == 0);
    }
    (present == 1) & (count < 256)
}

fn is_revision(w: &[u64]) -> bool
    ensures { result
        ≡ stands_at w.now 7 (revision_tail (option_u64_words (revision_in w.now)) []) }
{
    let present = word_at(w, 7);
    let value = word_at(w, 8);
    if present == 0 {
        return value == 0;
    }
    present == 1
}

fn are_five_zeros(w: &[u64], at: u8) -> bool
    ensures { result ≡ stands_at w.now at (0 ∷ 0 ∷ 0 ∷ 0 ∷ 0 ∷ []) }
{
    let i = at as usize;
    let a = word_at(w, i);
    let b = word_at(w, i + 1);
    let c = word_at(w, i + 2);
    let d = word_at(w, i + 3);
    let e = word_at(w, i + 4);
    (a == 0) & (b == 0) & (c == 0) & (d == 0) & (e == 0)
}

fn is_stall(w: &[u64]) -> bool
    ensures { result ≡ stands_at w.now 9 (stall_tail (stall_words (stall_in w.now)) []) }
{
    let present = word_at(w, 9);
    if present == 0 {
        return are_five_zeros(w, 10);
    }
    let slot = word_at(w, 13);
    let endpoint = word_at(w, 14);
    (present == 1) & (slot < 256) & (endpoint < 256)
}

// A submission and a poll have an id alone.
fn is_flight(w: &[u64]) -> bool
    ensures { result ≡ stands_at w.now 15 (flight_tail (flight_words (flight_in w.now)) []) }
{
    let tag = word_at(w, FLIGHT);
    if tag == 3 {
        let slot = word_at(w, 21);
        let endpoint = word_at(w, 22);
        let kind = word_at(w, 23);
        return (slot < 256) & (endpoint < 256) & (kind < 3);
    }
    let alone = are_five_zeros(w, DEVICE);
    if tag == 0 {
        let session = word_at(w, 16);
        let generation = word_at(w, 17);
        let sequence = word_at(w, 18);
        return (session == 0) & (generation == 0) & (sequence == 0) & alone;
    }
    (tag < 3) & alone
}

// Whether the words are a session's own, word by word: flags are 0 or 1, what a flag or a tag says is missing is 0, and every other word is
// in its field's range.
pub fn is_session(w: &[u64]) -> bool
    ensures { result ≡ is_session w.now }
{
    let state = word_at(w, 6);
    (w.len() == WORDS) & is_ports(w) & (state < 5) & is_revision(w) & is_stall(w) & is_flight(w)
}

// Writes the session to its words; slices of another size stay as they are.
pub fn write_session(w: &mut [u64], session: Session)
    ensures { kept_of w.new ≡ kept_as w.old session }
{
    if w.len() != WORDS {
        return;
    }
    let next = session_words(session);
    slices::copy(w, 0, &next, 26);
}
