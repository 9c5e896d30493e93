// The admission of a submission: the session's start, its packets, a free row and its own fields, all before its device is looked at. Both
// the submission and the question which port reading it lacks begin with it.
ghost use Rattle.std.specs.Prelude.{true, ◌≡◌, length};
ghost use Rattle.session.specs.Lent.{lent_of};
ghost use Rattle.session.specs.Sizes.{memory_sizes};
ghost use Rattle.submissions.specs.Admit.{place_in, admit_of, admit_plan_of};
ghost use Rattle.submissions.specs.Submit.{request_in, packets_in};
ghost use Rattle.rows.specs.Table.{read_rows};

use crate::{NewPlan, NewRequest, begin};
use checks::plan::ValidatedControlPlan;
use checks::{packets, plan, prepare};
use models::{Cause, ControlPlan, Refusal, RequestMetadata};
use session::sizes::Place;
use session::{Session, start};

// An admitted request with its row.
#[derive(Clone, Copy)]
pub struct Admitted {
    pub place: Place,
    pub metadata: RequestMetadata,
}

// An admitted control plan with its row.
#[derive(Clone, Copy)]
pub struct AdmittedPlan {
    pub place: Place,
    pub plan: ValidatedControlPlan,
}

// Refuses by 5 if no row is free or 128 are held.
fn find_place(session: Session, rows: &[u64], area: &[u8]) -> Result<Place, Refusal>
    requires { memory_sizes session.size (length rows.now) (length area.now) ≡ true }
    ensures { result ≡ place_in session (read_rows rows.now) }
{
    let found = begin::find_room(rows);
    let Some(row) = found else {
        return Err(models::refuse(Cause::NoRoom));
    };
    let size = session.size;
    let start = row * size.row_bytes as usize;
    Ok(Place { row, start })
}

// Admits a request. Refuses by 1 while an operation is in flight, by 3 if a slice has not the session's size, then by 4, 5 and 6 to 17.
pub(crate) fn admit(
    session: Session,
    bus: &[u64],
    rows: &[u64],
    area: &[u8],
    q: NewRequest<'_>,
) -> Result<Admitted, Refusal>
    ensures { result ≡ admit_of (packets_in q.entry) (request_in q.entry).given q.entry.spec
        (length q.entry.bytes.now) session (lent_of bus.now rows.now area.now) }
{
    start::lent_ready(session, rows.len(), area.len(), bus.len())?;
    packets::check_packets(q.packets, q.spec.transfer_type, q.spec.length)?;
    let place = find_place(session, rows, area)?;
    let metadata = prepare::prepare(q.spec, q.bytes.len() as u64, session.size.row_bytes)?;
    Ok(Admitted { place, metadata })
}

// Admits a control plan. Refuses by 1 and 3 as a request, then by 5 and 18 to 25 with 6 and 7.
pub(crate) fn admit_plan(
    session: Session,
    bus: &[u64],
    rows: &[u64],
    area: &[u8],
    q: NewPlan<'_>,
) -> Result<AdmittedPlan, Refusal>
    ensures { result ≡ admit_plan_of q.entry.plan (length q.entry.bytes.now) session (lent_of bus.now rows.now area.now) }
{
    start::lent_ready(session, rows.len(), area.len(), bus.len())?;
    let place = find_place(session, rows, area)?;
    let plan = plan::validate_plan(q.plan, q.bytes.len() as u64, session.size.row_bytes)?;
    Ok(AdmittedPlan { place, plan })
}
