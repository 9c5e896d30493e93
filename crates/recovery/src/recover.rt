// A recovery's start: abort, or reset of an endpoint.
ghost use Rattle.std.specs.Prelude.{◌≡◌};
ghost use Rattle.models.specs.Causes.{number_of};
ghost use Rattle.models.specs.Refusals.{refusal_of};
ghost use Rattle.models.specs.Said.{Tabled};
ghost use Rattle.session.specs.declared.RecoveryKind.TheVariants as RecoveryKind;
ghost use Rattle.recovery.specs.Recover.{begin_refused, recovery_of, begun_as, begin_row, recover_of};
ghost use Rattle.recovery.specs.Said.{begin_said, recover_numbers};
ghost use Rattle.rows.specs.Store.{store_of};
ghost use Rattle.rows.specs.Table.{read_rows};

use crate::Begun;
use ledger::search;
use models::{Cause, Refusal, RequestId};
use rows::Row;
use scope::affected;
use session::{InFlight, Recovery, RecoveryKind, Session, start};

fn refused(session: Session, refusal: Refusal) -> Begun
    ensures { result ≡ begin_refused session refusal }
{
    Begun {
        answer: Err(refusal),
        session,
        tokens: [0; 128],
        count: 0,
    }
}

fn refused_by(session: Session, cause: Cause) -> Begun
    ensures { result ≡ begin_refused session (refusal_of (number_of cause)) }
{
    refused(session, models::refuse(cause))
}

fn recovery_of(id: RequestId, kind: RecoveryKind, row: Row) -> Recovery
    ensures { result ≡ recovery_of id kind row }
{
    let metadata = row.metadata;
    let device = metadata.device;
    Recovery {
        target: id,
        device,
        endpoint: metadata.endpoint,
        kind,
    }
}

// The operation is in flight; the affected tokens by ascending id.
fn begin(session: Session, rows: &[u64], recovery: Recovery) -> Begun
    ensures { result ≡ begun_as recovery session (read_rows rows.now) }
{
    let device = recovery.device;
    let mut list = [0usize; 128];
    let count = affected::collect(rows, &mut list, device, recovery.endpoint);
    Begun {
        answer: Ok(recovery),
        session: session::with_flight(session, InFlight::Recovery(recovery)),
        tokens: affected::tokens_of(rows, &list[..count]),
        count: count as u64,
    }
}

// Refuses by 43 if the request is not held, by 44 if the controller is neither Initialized nor RecoveryRequired.
fn begin_row(session: Session, rows: &[u64], row: Row, id: RequestId, kind: RecoveryKind) -> Begun
    ensures { result ≡ begin_row id kind row session (read_rows rows.now) }
{
    let state = row.state;
    let controller = session.state;
    if !models::device_may_access(state) {
        return refused_by(session, Cause::NotHeld);
    }
    if !session::may_recover(controller) {
        return refused_by(session, Cause::NotRecoverable);
    }
    let recovery = recovery_of(id, kind, row);
    begin(session, rows, recovery)
}

// Refuses by 1 while an operation waits for its reply, by 3 if the rows have not the session's size, by 40 if none has the id.
fn begin_recovery(session: Session, rows: &[u64], id: RequestId, kind: RecoveryKind) -> Begun
    ensures step { result ≡ recover_of id kind session (store_of rows.now) }
    ensures table { Tabled recover_numbers (begin_said result.answer) }
{
    let verdict = start::rows_ready(session, rows.len());
    match verdict {
        Err(refusal) => refused(session, refusal),
        Ok(()) => {
            let found = search::find(rows, id);
            let Some(i) = found else {
                return refused_by(session, Cause::UnknownRequest);
            };
            let row = rows::read_row(rows, i);
            begin_row(session, rows, row, id, kind)
        }
    }
}

pub fn abort_request(session: Session, rows: &[u64], target: RequestId) -> Begun
    ensures step { result ≡ recover_of target RecoveryKind.Abort session (store_of rows.now) }
    ensures table { Tabled recover_numbers (begin_said result.answer) }
{
    begin_recovery(session, rows, target, RecoveryKind::Abort)
}

pub fn reset_endpoint_request(
    session: Session,
    rows: &[u64],
    target: RequestId,
    preserve: bool,
) -> Begun
    ensures step { result ≡ recover_of target (RecoveryKind.Reset preserve) session (store_of rows.now) }
    ensures table { Tabled recover_numbers (begin_said result.answer) }
{
    begin_recovery(session, rows, target, RecoveryKind::Reset(preserve))
}
