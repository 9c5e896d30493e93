// The submission of a request.
ghost use Rattle.std.specs.Prelude.{◌≡◌};
ghost use Rattle.chain.specs.After.{after};
ghost use Rattle.models.specs.Said.{Tabled};
ghost use Rattle.session.specs.Lent.{lent_of};
ghost use Rattle.submissions.specs.Begin.{draft, Placed};
ghost use Rattle.submissions.specs.Said.{submit_said, submit_numbers};
ghost use Rattle.submissions.specs.Submit.{request_in, packets_in, submitted_by, submit_target, submit_of};

use crate::admit::Admitted;
use crate::begin::Start;
use crate::{NewRequest, Submission, admit, begin};
use models::{Refusal, RequestMetadata, RequestSpec};
use session::sizes::Place;
use session::{Called, Session};
use targets::Readings;

fn submitted(started: Called<Start>, metadata: RequestMetadata, given: bool) -> Called<Submission>
    ensures { result ≡ submitted_by started.answer started.session metadata given }
{
    let answer = started.answer;
    let session = started.session;
    match answer {
        Err(refusal) => Called::refused(session, refusal),
        Ok(start) => Called {
            answer: Ok(Submission {
                id: start.id,
                row: start.row,
                metadata,
                has_packets: given,
            }),
            session,
        },
    }
}

// Submits an admitted request. Refuses by 26 to 37, 58, 38 and 39.
fn submit_target(
    session: Session,
    bus: &mut [u64],
    rows: &mut [u64],
    area: &mut [u8],
    own: Admitted,
    q: NewRequest<'_>,
) -> Called<Submission>
    requires { Placed (draft own.place own.metadata q.bytes.now) bus.old rows.old area.old }
    ensures { after result (lent_of bus.new rows.new area.new)
        ≡ submit_target (draft own.place own.metadata q.entry.bytes.now) (request_in q.entry).given q.entry.readings session
        (lent_of bus.old rows.old area.old) }
{
    let metadata = own.metadata;
    let started = begin::begin_target(
        session, bus, rows, area, own.place, metadata, q.bytes, q.readings,
    );
    submitted(started, metadata, q.packets.is_some())
}

// Submits a request. Passing, it is in flight, and the answer is what the backend is to do. Refuses by 1, 3, 4, 5, 6 to 17, 26 to 37, 58,
// 38 and 39, in this order.
pub fn submit_request_packets(
    session: Session,
    bus: &mut [u64],
    rows: &mut [u64],
    area: &mut [u8],
    q: NewRequest<'_>,
) -> Called<Submission>
    ensures step { after result (lent_of bus.new rows.new area.new)
        ≡ submit_of (packets_in q.entry) (request_in q.entry) session (lent_of bus.old rows.old area.old) }
    ensures table { Tabled submit_numbers (submit_said result.answer) }
{
    let admitted = admit::admit(session, bus, rows, area, q);
    match admitted {
        Err(refusal) => Called::refused(session, refusal),
        Ok(own) => submit_target(session, bus, rows, area, own, q),
    }
}
