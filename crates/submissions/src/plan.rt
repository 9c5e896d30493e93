// The submission of a control plan.
ghost use Rattle.std.specs.Prelude.{◌≡◌};
ghost use Rattle.chain.specs.After.{after};
ghost use Rattle.models.specs.Said.{Tabled};
ghost use Rattle.session.specs.Lent.{lent_of};
ghost use Rattle.submissions.specs.Begin.{draft, Placed};
ghost use Rattle.submissions.specs.Said.{plan_said, submit_plan_numbers};
ghost use Rattle.submissions.specs.Plan.{plan_started, plan_target, submit_plan_of};

use crate::admit::AdmittedPlan;
use crate::begin::Start;
use crate::{NewPlan, PlanSubmission, admit, begin};
use checks::plan::ValidatedControlPlan;
use models::Refusal;
use session::{Called, Session};
use targets::Readings;

fn plan_started(started: Called<Start>, p: ValidatedControlPlan) -> Called<PlanSubmission>
    ensures { result ≡ plan_started started.answer started.session p }
{
    let answer = started.answer;
    let session = started.session;
    match answer {
        Err(refusal) => Called::refused(session, refusal),
        Ok(start) => Called {
            answer: Ok(PlanSubmission {
                id: start.id,
                row: start.row,
                plan: p,
            }),
            session,
        },
    }
}

// Submits an admitted plan. It is control, so its one reading serves for both. Refuses by 26 to 35 and 39.
fn plan_target(
    session: Session,
    bus: &mut [u64],
    rows: &mut [u64],
    area: &mut [u8],
    own: AdmittedPlan,
    q: NewPlan<'_>,
) -> Called<PlanSubmission>
    requires { Placed (draft own.place own.plan.metadata q.bytes.now) bus.old rows.old area.old }
    ensures { after result (lent_of bus.new rows.new area.new)
        ≡ plan_target own.place own.plan q.entry.bytes.now q.entry.reading session (lent_of bus.old rows.old area.old) }
{
    let p = own.plan;
    let readings = Readings {
        first: q.reading,
        second: q.reading,
    };
    let started = begin::begin_target(
        session, bus, rows, area, own.place, p.metadata, q.bytes, readings,
    );
    plan_started(started, p)
}

// Submits a control plan. Passing, it is in flight, and the answer is what the backend is to do. Refuses by 1, 3, 5, 18 to 25 with 6 and 7,
// 26 to 35 and 39, in this order.
pub fn submit_control_plan(
    session: Session,
    bus: &mut [u64],
    rows: &mut [u64],
    area: &mut [u8],
    q: NewPlan<'_>,
) -> Called<PlanSubmission>
    ensures step { after result (lent_of bus.new rows.new area.new)
        ≡ submit_plan_of q.entry.plan q.entry.bytes.now q.entry.reading session (lent_of bus.old rows.old area.old) }
    ensures table { Tabled submit_plan_numbers (plan_said result.answer) }
{
    let admitted = admit::admit_plan(session, bus, rows, area, q);
    match admitted {
        Err(refusal) => Called::refused(session, refusal),
        Ok(own) => plan_target(session, bus, rows, area, own, q),
    }
}
