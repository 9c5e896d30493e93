// The backend's reply to a recovery.
ghost use Rattle.std.specs.Prelude.{◌≡◌, ◌+◌, ◌≤◌, length, take, drop, Ok};
ghost use Rattle.chain.specs.After.{after};
ghost use Rattle.chain.specs.Lists.{listed};
ghost use Rattle.models.specs.Causes.{number_of};
ghost use Rattle.models.specs.Refusals.{refusal_of};
ghost use Rattle.models.specs.Requests.{no_id};
ghost use Rattle.models.specs.Said.{Tabled};
ghost use Rattle.scope.specs.Scope.{meant};
ghost use Rattle.session.specs.Lent.{memory_of};
ghost use Rattle.recovery.specs.Entries.{itself};
ghost use Rattle.recovery.specs.Places.{Below, Fit, Places, Agree};
ghost use Rattle.recovery.specs.Reports.{ids_of, id_lists, many_in, filled, with_ids};
ghost use Rattle.recovery.specs.RecoveryReply.{reply_lists, lists_in, apply_all, is_whole, matching, restored_by, reset_by, session_after, refused_after, abort_report, recovery_refused, concluded_by, settled_of, done_of, reply_by, reply_sized, recovery_reply_of};
ghost use Rattle.recovery.specs.Said.{recovery_said, recovery_reply_numbers};
ghost use Rattle.rows.specs.Table.{read_rows};

use crate::{AbortReport, BackendAbort, BackendLists, Ids, Recovered, Replied, entries};
use ledger::search;
use models::{Cause, ControllerState, OperationError, Refusal, RequestId};
use rows::columns;
use scope::{affected, returned, tokens};
use session::{InFlight, RecoverableStall, Recovery, RecoveryKind, Session, Size, sizes};

// A recovery whose reply is in: the session without it, the recovery, and what the backend says.
#[derive(Clone, Copy)]
pub struct Ended {
    pub idle: Session,
    pub recovery: Recovery,
    pub outcome: BackendAbort,
}

fn refused(session: Session, refusal: Refusal) -> Replied
    ensures { result ≡ recovery_refused session refusal }
{
    Replied {
        answer: Err(refusal),
        session,
        places: [0; 128],
    }
}

fn refused_by(session: Session, cause: Cause) -> Replied
    ensures { result ≡ recovery_refused session (refusal_of (number_of cause)) }
{
    refused(session, models::refuse(cause))
}

// Ready, and without an error.
fn is_whole(o: BackendAbort) -> bool
    ensures { result ≡ is_whole o }
{
    o.restart_ready & o.error.is_none()
}

// The stall is that of the recovery's device and endpoint, no row is in doubt, and the revision is the stall's.
fn matches(note: RecoverableStall, recovery: Recovery, certain: bool, session: Session) -> bool
    ensures { result ≡ matching note recovery certain session }
{
    note.device == recovery.device
        && note.endpoint == recovery.endpoint
        && certain
        && session.recovery_revision == Some(note.revision)
}

// A reset takes the stall; where it matches, the controller is Initialized again.
fn restore(recovery: Recovery, certain: bool, session: Session) -> Session
    ensures { result ≡ restored_by session.recoverable_stall recovery certain session }
{
    let taken = session::with_stall(session, None);
    let Some(note) = session.recoverable_stall else {
        return taken;
    };
    if matches(note, recovery, certain, session) {
        return session::with_state(
            taken,
            ControllerState::Initialized,
            session.recovery_revision,
        );
    }
    taken
}

fn reset(recovery: Recovery, rows: &[u64], session: Session) -> Session
    ensures { result ≡ reset_by recovery.kind recovery (read_rows rows.now) session }
{
    let kind = recovery.kind;
    match kind {
        RecoveryKind::Abort => session,
        RecoveryKind::Reset(_) => {
            let uncertain = search::any_uncertain(rows);
            restore(recovery, !uncertain, session)
        }
    }
}

// The session after the entries: an error or not ready marks recovery.
fn session_after(ended: Ended, rows: &[u64]) -> Session
    ensures { result ≡ session_after ended (read_rows rows.now) }
{
    let idle = ended.idle;
    let recovery = ended.recovery;
    let outcome = ended.outcome;
    if !is_whole(outcome) {
        return session::mark(idle);
    }
    reset(recovery, rows, idle)
}

// A refusal by 48 marks recovery; those by 47 and 41 do not. By its number, as `refused_after` has it: a refusal may come from any caller.
fn refused_after(refusal: Refusal, idle: Session) -> Session
    ensures { result ≡ refused_after refusal idle }
{
    if refusal.number == 48 {
        return session::mark(idle);
    }
    idle
}

fn report_of(ended: Ended, completed: u64, aborted: u64) -> AbortReport
    ensures { result ≡ abort_report ended completed aborted }
{
    let recovery = ended.recovery;
    let outcome = ended.outcome;
    let target = recovery.target;
    let device = recovery.device;
    let error = outcome.error;
    AbortReport {
        target,
        device,
        endpoint: recovery.endpoint,
        completed,
        aborted,
        restart_ready: outcome.restart_ready,
        error,
    }
}

fn ids_of(rows: &[u64], places: &[usize]) -> [RequestId; 128]
    ensures { result ≡ listed 128 no_id (ids_of (read_rows rows.now) places.now) }
{
    let mut ids = [RequestId::default(); 128];
    for k in 0..places.len().min(128) {
        ids[k] = columns::id_in(rows, places[k]);
    }
    ids
}

// The completions of the first n rows, in order, then the aborts of the others.
fn apply_all(
    rows: &mut [u64],
    area: &mut [u8],
    size: Size,
    places: &[usize],
    n: usize,
    completions: &[u64],
    bytes: &[u8],
) -> Result<(), Refusal>
    requires { (n ≤ length places.now) × Places size rows.old area.old (take n places.now)
        × Below rows.old (drop n places.now) × Agree (take n places.now) completions.now bytes.now }
    ensures { after result (memory_of rows.new area.new) ≡ apply_all size itself (reply_lists (take n places.now)
        completions.now (drop n places.now) bytes.now) (memory_of rows.old area.old) }
{
    entries::complete_all(rows, area, size, &places[..n], completions, bytes)?;
    entries::abort_all(rows, &places[n..])
}

// The refusal of an entry, or the report with the places of its rows.
fn conclude(
    verdict: Result<(), Refusal>,
    ended: Ended,
    rows: &[u64],
    report: AbortReport,
    places: [usize; 128],
) -> Replied
    ensures { result ≡ concluded_by verdict ended report places (read_rows rows.now) }
{
    let idle = ended.idle;
    match verdict {
        Err(refusal) => refused(refused_after(refusal, idle), refusal),
        Ok(()) => Replied {
            answer: Ok(report),
            session: session_after(ended, rows),
            places,
        },
    }
}

// The tokens are in scope: the entries at the rows that they mean, then the session and the report.
fn settle(
    ended: Ended,
    rows: &mut [u64],
    area: &mut [u8],
    affected: &[usize],
    own: &[u64],
    lists: BackendLists<'_>,
) -> Replied
    requires { Places ended.idle.size rows.old area.old affected.now
        × Agree lists.tokens.now lists.completions.now lists.bytes.now
        × (length lists.tokens.now + length lists.aborted.now ≤ 128) }
    ensures { after result (memory_of rows.new area.new)
        ≡ settled_of ended (meant affected.now own.now) (lists_in lists.entry) (memory_of rows.old area.old) }
{
    let idle = ended.idle;
    let size = idle.size;
    let places = entries::places_of(affected, own, lists.tokens, lists.aborted);
    let n = lists.tokens.len();
    let end = n + lists.aborted.len();
    let report = report_of(ended, n as u64, lists.aborted.len() as u64);
    let verdict = apply_all(
        rows,
        area,
        size,
        &places[..end],
        n,
        lists.completions,
        lists.bytes,
    );
    conclude(verdict, ended, rows, report, places)
}

// Refuses by 46, with a mark, if the tokens are not in scope.
fn reply_affected(
    ended: Ended,
    rows: &mut [u64],
    area: &mut [u8],
    affected: &[usize],
    own: &[u64],
    lists: BackendLists<'_>,
) -> Replied
    requires { Places ended.idle.size rows.old area.old affected.now
        × Agree lists.tokens.now lists.completions.now lists.bytes.now
        × (length own.now ≤ 128) }
    ensures { after result (memory_of rows.new area.new)
        ≡ done_of ended affected.now own.now (lists_in lists.entry) (memory_of rows.old area.old) }
{
    let idle = ended.idle;
    let outcome = ended.outcome;
    let whole = is_whole(outcome);
    if !tokens::in_scope(whole, own, lists.tokens, lists.aborted) {
        return refused_by(session::mark(idle), Cause::WrongTokens);
    }
    settle(ended, rows, area, affected, own, lists)
}

// The affected rows by ascending id, and their tokens.
fn reply_done(ended: Ended, rows: &mut [u64], area: &mut [u8], lists: BackendLists<'_>) -> Replied
    requires { Fit ended.idle.size rows.old area.old × Agree lists.tokens.now lists.completions.now lists.bytes.now }
    ensures { after result (memory_of rows.new area.new)
        ≡ reply_by (Ok ended.outcome) ended.recovery (lists_in lists.entry) ended.idle (memory_of rows.old area.old) }
{
    let recovery = ended.recovery;
    let device = recovery.device;
    let mut list = [0usize; 128];
    let count = affected::collect(rows, &mut list, device, recovery.endpoint);
    let own = affected::tokens_of(rows, &list[..count]);
    reply_affected(ended, rows, area, &list[..count], &own[..count], lists)
}

// Refuses by 45, always with a mark, if the backend failed.
fn reply_to(
    idle: Session,
    rows: &mut [u64],
    area: &mut [u8],
    recovery: Recovery,
    reply: Result<BackendAbort, OperationError>,
    lists: BackendLists<'_>,
) -> Replied
    requires { Fit idle.size rows.old area.old × Agree lists.tokens.now lists.completions.now lists.bytes.now }
    ensures { after result (memory_of rows.new area.new)
        ≡ reply_by reply recovery (lists_in lists.entry) idle (memory_of rows.old area.old) }
{
    match reply {
        Err(error) => {
            refused(
                session::mark(idle),
                models::refuse_backend(Cause::BackendError, error),
            )
        }
        Ok(outcome) => {
            let ended = Ended {
                idle,
                recovery,
                outcome,
            };
            reply_done(ended, rows, area, lists)
        }
    }
}

// Refuses by 3 if a slice has not the session's size, by 49 if the lists disagree; the recovery goes on waiting.
fn reply_sized(
    session: Session,
    rows: &mut [u64],
    area: &mut [u8],
    recovery: Recovery,
    reply: Result<BackendAbort, OperationError>,
    lists: BackendLists<'_>,
) -> Replied
    ensures { after result (memory_of rows.new area.new)
        ≡ reply_sized reply recovery (lists_in lists.entry) session (memory_of rows.old area.old) }
{
    let size = session.size;
    if !sizes::memory_fits(size, rows.len(), area.len()) {
        return refused_by(session, Cause::WrongSize);
    }
    if !returned::lists_agree(lists.tokens, lists.completions, lists.bytes.len()) {
        return refused_by(session, Cause::ListsDisagree);
    }
    let idle = session::with_flight(session, InFlight::Nothing);
    reply_to(idle, rows, area, recovery, reply, lists)
}

// The reply by row indices. Refuses by 2 if no recovery waits for one.
pub fn reply_by_places(
    session: Session,
    rows: &mut [u64],
    area: &mut [u8],
    reply: Result<BackendAbort, OperationError>,
    lists: BackendLists<'_>,
) -> Replied
    ensures step { after result (memory_of rows.new area.new)
        ≡ recovery_reply_of reply (lists_in lists.entry) session (memory_of rows.old area.old) }
    ensures table { Tabled recovery_reply_numbers (recovery_said result.answer) }
{
    let flight = session.in_flight;
    match flight {
        InFlight::Nothing => refused_by(session, Cause::NothingWaits),
        InFlight::Submission(_) => refused_by(session, Cause::NothingWaits),
        InFlight::Poll(_) => refused_by(session, Cause::NothingWaits),
        InFlight::Recovery(recovery) => reply_sized(session, rows, area, recovery, reply, lists),
    }
}

// The ids of the rows at the first n places, and at the next m.
fn ids_at(rows: &[u64], places: [usize; 128], n: usize, m: usize) -> Ids
    requires { n + m ≤ 128 }
    ensures { result ≡ id_lists (read_rows rows.now) (take n places) (take m (drop n places)) }
{
    let end = n + m;
    let completed = ids_of(rows, &places[..n]);
    let aborted = ids_of(rows, &places[n..end]);
    Ids { completed, aborted }
}

// Adds the ids of the rows at `places`; a refusal has none.
fn fill(rows: &[u64], replied: Replied) -> Recovered
    requires { many_in replied.answer ≤ 128 }
    ensures { result ≡ filled replied (read_rows rows.now) }
{
    let answer = replied.answer;
    let session = replied.session;
    let places = replied.places;
    match answer {
        Err(_) => Recovered {
            answer,
            session,
            ids: ids_at(rows, places, 0, 0),
        },
        Ok(report) => {
            let ids = ids_at(
                rows,
                places,
                report.completed as usize,
                report.aborted as usize,
            );
            Recovered {
                answer: Ok(report),
                session,
                ids,
            }
        }
    }
}

// `reply_by_places`, the result listing request ids instead of row indices.
pub fn recovery_reply(
    session: Session,
    rows: &mut [u64],
    area: &mut [u8],
    reply: Result<BackendAbort, OperationError>,
    lists: BackendLists<'_>,
) -> Recovered
    ensures step { after result (memory_of rows.new area.new)
        ≡ with_ids (recovery_reply_of reply (lists_in lists.entry) session (memory_of rows.old area.old)) }
    ensures table { Tabled recovery_reply_numbers (recovery_said result.answer) }
{
    let replied = reply_by_places(session, rows, area, reply, lists);
    fill(rows, replied)
}
