// Which port reading a submission lacks, given those that it has. Nothing is written; a submission that is refused earlier lacks none.
ghost use Rattle.std.specs.Prelude.{◌≡◌, length};
ghost use Rattle.bus.specs.Layout.{bus_words};
ghost use Rattle.session.specs.Lent.{lent_of};
ghost use Rattle.submissions.specs.Submit.{request_in, packets_in};
ghost use Rattle.submissions.specs.Wants.{target_wants, submit_wants, plan_wants};
ghost use Rattle.bus.specs.Tables.{bus_of};

use crate::{NewPlan, NewRequest, admit};
use models::{ControlPlan, OperationError, RequestMetadata, RequestSpec};
use session::Session;
use targets::wants::Wanted;
use targets::{Readings, wants};

// The reading that an admitted submission lacks: the first one for 33, the second one behind 36.
fn target_wants(
    session: Session,
    bus: &[u64],
    metadata: RequestMetadata,
    readings: Readings,
) -> Option<Wanted>
    requires { length bus.now ≡ bus_words }
    ensures { result ≡ target_wants metadata readings session (bus_of bus.now) }
{
    let state = session.state;
    let ports = session.ports;
    let initialized = session::is_initialized(state);
    wants::wanted_reading(bus, initialized, ports, metadata, readings)
}

// What `submit_request_packets` lacks.
pub fn submit_wants(
    session: Session,
    bus: &[u64],
    rows: &[u64],
    area: &[u8],
    q: NewRequest<'_>,
) -> Option<Wanted>
    ensures { result ≡ submit_wants (packets_in q.entry) (request_in q.entry) session (lent_of bus.now rows.now area.now) }
{
    let admitted = admit::admit(session, bus, rows, area, q).ok()?;
    target_wants(session, bus, admitted.metadata, q.readings)
}

// What `submit_control_plan` lacks.
pub fn plan_wants(
    session: Session,
    bus: &[u64],
    rows: &[u64],
    area: &[u8],
    q: NewPlan<'_>,
) -> Option<Wanted>
    ensures { result ≡ plan_wants q.entry.plan q.entry.bytes.now q.entry.reading session (lent_of bus.now rows.now area.now) }
{
    let admitted = admit::admit_plan(session, bus, rows, area, q).ok()?;
    let readings = Readings {
        first: q.reading,
        second: q.reading,
    };
    target_wants(session, bus, admitted.plan.metadata, readings)
}
