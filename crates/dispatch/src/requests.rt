// Calls 8, 9, 13 to 24 and 29: requests, what is reported of them, and recoveries.
ghost use Rattle.std.specs.Prelude.{true, ◌≡◌, drop, get_or, option_copied};
ghost use Rattle.std.specs.Bool.{then_some};
ghost use Rattle.chain.specs.After.{after};
ghost use Rattle.words.specs.Words.{read_flag};
ghost use Rattle.models.specs.Values.{read_request_id};
ghost use Rattle.session.specs.Lent.{lent_of};
ghost use Rattle.submissions.specs.Submit.{request_in};
ghost use Rattle.recovery.specs.RecoveryReply.{lists_in};
ghost use Rattle.session_words.specs.State.{is_session};
ghost use Rattle.calls.specs.Answers.{outcome};
ghost use Rattle.calls.specs.Calls.{Change, Withdraw, plan_request};
ghost use Rattle.calls.specs.Step.{step_of, world};
ghost use Rattle.call_words.specs.Arguments.{read_request, read_plan_request, read_lists};
ghost use Rattle.call_words.specs.Decode.{read_submission, read_changing, read_reporting, read_recovering};
ghost use Rattle.dispatch.specs.Slices.{StepsRows, ReadsMemory, RunsMemory, WritesRows, WritesAnswer};

use answer_words::{encode, lists};
use call_words::arguments;
use calls::{Answer, Outcome, answers};
use models::values::id_at;
use recovery::{BackendLists, recover, recovery_reply};
use reports::{change, status};
use session::Session;
use session_words::state;
use submissions::{NewPlan, NewRequest, plan, submit};
use words::slices;
use words::slices::word_at;

// What the words of call 8 and of question 27 ask for.
pub(crate) fn new_request<'a>(call: &'a [u64], bytes: &'a [u8]) -> NewRequest<'a>
    ensures { (request_in result ≡ read_request call.now bytes.now)
        × (option_copied result.packets ≡ then_some (read_flag (get_or call.now 26 0)) (drop 27 call.now)) }
{
    NewRequest {
        spec: arguments::spec(call),
        bytes,
        packets: words::to_flag(word_at(call, 26)).then_some(slices::rest(call, 27)),
        readings: arguments::readings(call),
    }
}

// What the words of call 9 and of question 28 ask for.
pub(crate) fn new_plan<'a>(call: &[u64], bytes: &'a [u8]) -> NewPlan<'a>
    ensures { plan_request result.plan result.bytes.now result.reading ≡ read_plan_request call.now bytes.now }
{
    NewPlan {
        plan: arguments::plan(call),
        bytes,
        reading: arguments::reading_at(call, 14),
    }
}

// 8 and 9: submissions.
pub(crate) fn submit_call(
    number: u64,
    session: Session,
    bus: &mut [u64],
    rows: &mut [u64],
    area: &mut [u8],
    call: &[u64],
    bytes: &[u8],
) -> Outcome
    ensures { after result (lent_of bus.new rows.new area.new)
        ≡ step_of (read_submission number call.now bytes.now) (world session (lent_of bus.old rows.old area.old)) }
{
    if number == 8 {
        let q = new_request(call, bytes);
        return answers::of_called(submit::submit_request_packets(session, bus, rows, area, q));
    }
    let q = new_plan(call, bytes);
    answers::of_called(plan::submit_control_plan(session, bus, rows, area, q))
}

// 13 to 15: changes of one request, in place, whatever the bus, the area and the lists.
pub(crate) fn change_call(
    number: u64,
    session: &[u64],
    rows: &mut [u64],
    call: &[u64],
    out: &mut [u64],
)
    requires { is_session session.now ≡ true }
    ensures { WritesRows (read_changing number call.now) session.now rows.old rows.new out.old out.new }
{
    let id = id_at(call, 1);
    match number {
        13 => direct::logical_cancel_request(session, rows, id, out),
        14 => direct::timeout_request(session, rows, id, out),
        _ => direct::reclaim_request(session, rows, id, out),
    }
}

// 29: a cancel is taken back, whatever the bus and the area.
pub(crate) fn withdraw_call(session: Session, rows: &mut [u64], call: &[u64]) -> Outcome
    ensures { StepsRows result (Change (read_request_id call.now 1) Withdraw) session rows.old rows.new }
{
    let id = id_at(call, 1);
    answers::of_called(change::withdraw_cancel_request(session, rows, id))
}

// 16 to 21: what leaves all as it is, whatever the bus and the lists.
pub(crate) fn report_call(
    number: u64,
    session: &[u64],
    rows: &[u64],
    area: &[u8],
    call: &[u64],
    out: &mut [u64],
)
    requires { is_session session.now ≡ true }
    ensures { WritesAnswer (read_reporting number call.now) session.now rows.now area.now out.old out.new }
{
    if number == 16 {
        let id = id_at(call, 1);
        return direct::request_status(session, rows, id, out);
    }
    let before = state::to_session(session);
    let answer = report_answer(number, before, rows, area, call);
    encode::write_answer(out, answer)
}

fn report_answer(number: u64, session: Session, rows: &[u64], area: &[u8], call: &[u64]) -> Answer
    requires { number ≡ 16 → ⊥ }
    ensures { ReadsMemory (outcome result session) (read_reporting number call.now) session rows.now area.now }
{
    match number {
        17 => {
            let after = arguments::option_id(call);
            answers::of_result(status::request_reports(session, rows, after))
        }
        18 => answers::of_result(status::count_reports(session, rows)),
        19 => {
            let id = id_at(call, 1);
            answers::of_result(status::completed_part(session, rows, area.len(), id))
        }
        20 => {
            let count = status::held_count(session, rows);
            answers::of_result(status::tally_of(count))
        }
        _ => answers::of_result(status::held_bytes(session, rows)),
    }
}

// 22 to 24: recoveries, whatever the bus.
pub(crate) fn recover_call(
    number: u64,
    session: Session,
    rows: &mut [u64],
    area: &mut [u8],
    call: &[u64],
    bytes: &[u8],
    lists: &mut [u64],
) -> Outcome
    ensures { RunsMemory result (read_recovering number call.now bytes.now) session rows.old rows.new area.old area.new lists.old lists.new }
{
    let id = id_at(call, 1);
    match number {
        22 => {
            let begun = recover::abort_request(session, rows, id);
            lists::write_begun(lists, begun);
            answers::of_begun(begun)
        }
        23 => {
            let preserve = words::to_flag(word_at(call, 4));
            let begun = recover::reset_endpoint_request(session, rows, id, preserve);
            lists::write_begun(lists, begun);
            answers::of_begun(begun)
        }
        _ => recovered(session, rows, area, call, bytes, lists),
    }
}

// What the words of call 24 bring beside the backend's answer.
fn backend_lists<'a>(call: &'a [u64], bytes: &'a [u8]) -> BackendLists<'a>
    ensures { lists_in result ≡ read_lists call.now bytes.now }
{
    BackendLists {
        tokens: arguments::completed(call),
        completions: arguments::completions(call),
        aborted: arguments::aborted(call),
        bytes,
    }
}

fn recovered(
    session: Session,
    rows: &mut [u64],
    area: &mut [u8],
    call: &[u64],
    bytes: &[u8],
    lists: &mut [u64],
) -> Outcome
    ensures { RunsMemory result (read_recovering 24 call.now bytes.now) session rows.old rows.new area.old area.new lists.old lists.new }
{
    let answer = arguments::backend_abort(call);
    let returned = backend_lists(call, bytes);
    let replied = recovery_reply::reply_by_places(session, rows, area, answer, returned);
    lists::write_replied(lists, rows, replied);
    answers::of_replied(replied)
}
