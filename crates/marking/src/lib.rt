// The calls of an event, made one by one, each with the backend's reply that the event brings.
#![tactic(auto)]

ghost use Rattle.std.specs.Prelude.{◌<◌, ◌≤◌, ◌≡◌, [], take};
ghost use Rattle.chain.specs.After.{after};
ghost use Rattle.session.specs.Lent.{lent_of, memory_of};
ghost use Rattle.submissions.specs.Submit.{submit_of};
ghost use Rattle.polls.specs.PollReply.{poll_reply_of};
ghost use Rattle.recovery.specs.RecoveryReply.{reply_lists, recovery_reply_of};
ghost use Rattle.calls.specs.Said.{answer_said};
ghost use Rattle.calls.specs.Step.{world};
ghost use Rattle.marking.specs.Marking.{event_request, event_reply, event_bytes, ready_reply, leaves, calls_marked, event_marked, MarksMemory, MarksRows};

use calls::{Answer, Outcome, answers};
use models::{Cause, RequestId, RequestReport};
use paper::{PaperEvent, form};
use polls::{PollAnswer, poll, poll_reply};
use recovery::{BackendLists, Replied, recover, recovery_reply};
use reports::change;
use session::{Called, Session};
use submissions::{NewRequest, Submission, submit, submit_reply};

mod said; // said.rt: what an event's fields say

// What an event's calls leave: the refusal's number or 0, the id whose state is shown, and the session.
#[derive(Clone, Copy)]
pub struct Marked {
    pub refusal: u16,
    pub id: Option<RequestId>,
    pub session: Session,
}

// The number of a refusal; 0 of any other answer.
fn refusal_number(a: Answer) -> u16
    ensures { result ≡ (answer_said a).number }
{
    match a {
        Answer::Refused(refusal) => refusal.number,
        _ => 0,
    }
}

// What the last of an event's calls leaves.
fn marked_as(last: Outcome, id: Option<RequestId>) -> Marked
    ensures { result ≡ leaves (answer_said last.answer).number id last.session }
{
    let answer = last.answer;
    let session = last.session;
    Marked {
        refusal: refusal_number(answer),
        id,
        session,
    }
}

// The submission of an event: no bytes and no packets.
fn begin_submission(
    session: Session,
    bus: &mut [u64],
    rows: &mut [u64],
    area: &mut [u8],
    e: PaperEvent,
) -> Called<Submission>
    ensures { after result (lent_of bus.new rows.new area.new) ≡ submit_of [] (event_request e) session (lent_of bus.old rows.old area.old) }
{
    let q = NewRequest {
        spec: said::spec_of(e),
        bytes: b"",
        packets: None,
        readings: said::readings(),
    };
    submit::submit_request_packets(session, bus, rows, area, q)
}

// A submission that began is taken under its sequence as token.
fn submit_event(
    session: Session,
    bus: &mut [u64],
    rows: &mut [u64],
    area: &mut [u8],
    e: PaperEvent,
) -> Marked
    requires { e.kind ≡ 0 }
    ensures { after result (lent_of bus.new rows.new area.new) ≡ calls_marked e (world session (lent_of bus.old rows.old area.old)) }
{
    let done = begin_submission(session, bus, rows, area, e);
    let answer = done.answer;
    let next = done.session;
    match answer {
        Err(refusal) => Marked {
            refusal: refusal.number,
            id: None,
            session: next,
        },
        Ok(x) => {
            let id = x.id;
            let reply = Ok(id.sequence);
            let last = answers::of_called(submit_reply::submit_reply(next, rows, reply));
            marked_as(last, Some(id))
        }
    }
}

// The reply to a poll that asked for it.
fn reply_to_poll(
    session: Session,
    rows: &mut [u64],
    area: &mut [u8],
    e: PaperEvent,
) -> Called<RequestReport>
    ensures { after result (memory_of rows.new area.new) ≡ poll_reply_of (event_reply e) (event_bytes e) session (memory_of rows.old area.old) }
{
    let zeros = [0u8; 256];
    let n = (e.length as usize).min(256);
    let reply = said::reply_of(e);
    poll_reply::poll_reply(session, rows, area, reply, &zeros[..n])
}

fn poll_event(session: Session, rows: &mut [u64], area: &mut [u8], e: PaperEvent) -> Marked
    requires { e.kind ≡ 1 }
    ensures { MarksMemory result e session rows.old rows.new area.old area.new }
{
    let id = said::id_of(e);
    let polled = poll::poll_request(session, rows, id);
    let answer = polled.answer;
    let next = polled.session;
    match answer {
        Err(refusal) => Marked {
            refusal: refusal.number,
            id: Some(id),
            session: next,
        },
        Ok(PollAnswer::Report(_)) => Marked {
            refusal: 0,
            id: Some(id),
            session: next,
        },
        Ok(PollAnswer::Asked(_)) => {
            let last = answers::of_called(reply_to_poll(next, rows, area, e));
            marked_as(last, Some(id))
        }
    }
}

// Kinds 2 to 4.
fn change_event(session: Session, rows: &mut [u64], e: PaperEvent) -> Marked
    requires { (1 < e.kind) × (e.kind ≤ 4) }
    ensures { MarksRows result e session rows.old rows.new }
{
    let id = said::id_of(e);
    if e.kind == 2 {
        let last = answers::of_called(change::logical_cancel_request(session, rows, id));
        return marked_as(last, Some(id));
    }
    if e.kind == 3 {
        let last = answers::of_called(change::timeout_request(session, rows, id));
        return marked_as(last, Some(id));
    }
    let last = answers::of_called(change::reclaim_request(session, rows, id));
    marked_as(last, Some(id))
}

// The reply to an abort that began: every affected token aborted, ready.
fn reply_to_abort(
    session: Session,
    rows: &mut [u64],
    area: &mut [u8],
    tokens: [u64; 128],
    count: u64,
) -> Replied
    ensures { after result (memory_of rows.new area.new) ≡ recovery_reply_of ready_reply
        (reply_lists [] [] (take count tokens) []) session (memory_of rows.old area.old) }
{
    let none: [u64; 0] = [];
    let n = (count as usize).min(128);
    let reply = said::ready_reply();
    let lists = BackendLists {
        tokens: &none,
        completions: &none,
        aborted: &tokens[..n],
        bytes: b"",
    };
    recovery_reply::reply_by_places(session, rows, area, reply, lists)
}

fn abort_event(session: Session, rows: &mut [u64], area: &mut [u8], e: PaperEvent) -> Marked
    requires { 4 < e.kind }
    ensures { MarksMemory result e session rows.old rows.new area.old area.new }
{
    let id = said::id_of(e);
    let begun = recover::abort_request(session, rows, id);
    let answer = begun.answer;
    let next = begun.session;
    let tokens = begun.tokens;
    match answer {
        Err(refusal) => Marked {
            refusal: refusal.number,
            id: Some(id),
            session: next,
        },
        Ok(_) => {
            let replied = reply_to_abort(next, rows, area, tokens, begun.count);
            marked_as(answers::of_replied(replied), Some(id))
        }
    }
}

// The calls of an event that is not damaged.
fn mark_calls(
    session: Session,
    bus: &mut [u64],
    rows: &mut [u64],
    area: &mut [u8],
    e: PaperEvent,
) -> Marked
    ensures { after result (lent_of bus.new rows.new area.new) ≡ calls_marked e (world session (lent_of bus.old rows.old area.old)) }
{
    if e.kind == 0 {
        return submit_event(session, bus, rows, area, e);
    }
    if e.kind == 1 {
        return poll_event(session, rows, area, e);
    }
    if e.kind > 4 {
        return abort_event(session, rows, area, e);
    }
    change_event(session, rows, e)
}

// Refuses a damaged event by 57, which makes no call.
pub fn mark(
    session: Session,
    bus: &mut [u64],
    rows: &mut [u64],
    area: &mut [u8],
    e: PaperEvent,
) -> Marked
    ensures { after result (lent_of bus.new rows.new area.new) ≡ event_marked e (world session (lent_of bus.old rows.old area.old)) }
{
    if form::is_damaged(e) {
        return Marked {
            refusal: Cause::DamagedEvent.number(),
            id: None,
            session,
        };
    }
    mark_calls(session, bus, rows, area, e)
}
