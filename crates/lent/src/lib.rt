// Document 01's lent form: poll, cancel, its withdrawal, timeout and reclaim over a session that is lent for change. Each is the
// call by value.
#![tactic(auto)]

ghost use Rattle.std.specs.Prelude.{◌≡◌};
ghost use Rattle.chain.specs.After.{after};
ghost use Rattle.models.specs.Said.{Tabled};
ghost use Rattle.rules.specs.declared.Change.TheVariants as Change;
ghost use Rattle.reports.specs.Change.{change_of};
ghost use Rattle.reports.specs.Said.{report_said, cancel_numbers, withdraw_numbers, reclaim_numbers};
ghost use Rattle.polls.specs.Poll.{poll_of};
ghost use Rattle.polls.specs.Said.{poll_said, poll_numbers};
ghost use Rattle.lent.specs.Lent.{polled_as, reported_as};
ghost use Rattle.rows.specs.Store.{store_of};

use models::{Refusal, RequestId, RequestReport};
use polls::{PollAnswer, poll};
use reports::change;
use session::Session;

// The rows are lent again, as the others lend theirs.
pub fn poll_request(
    session: &mut Session,
    rows: &[u64],
    id: RequestId,
) -> Result<PollAnswer, Refusal>
    ensures step { polled_as result session.new ≡ poll_of id session.old (store_of rows.now) }
    ensures table { Tabled poll_numbers (poll_said result) }
{
    let done = poll::poll_request(*session, &*rows, id);
    *session = done.session;
    done.answer
}

pub fn logical_cancel_request(
    session: &mut Session,
    rows: &mut [u64],
    id: RequestId,
) -> Result<RequestReport, Refusal>
    ensures step { after (reported_as result session.new) (store_of rows.new)
        ≡ change_of id Change.LogicalCancel session.old (store_of rows.old) }
    ensures table { Tabled cancel_numbers (report_said result) }
{
    let done = change::logical_cancel_request(*session, rows, id);
    *session = done.session;
    done.answer
}

pub fn withdraw_cancel_request(
    session: &mut Session,
    rows: &mut [u64],
    id: RequestId,
) -> Result<RequestReport, Refusal>
    ensures step { after (reported_as result session.new) (store_of rows.new)
        ≡ change_of id Change.WithdrawCancel session.old (store_of rows.old) }
    ensures table { Tabled withdraw_numbers (report_said result) }
{
    let done = change::withdraw_cancel_request(*session, rows, id);
    *session = done.session;
    done.answer
}

pub fn timeout_request(
    session: &mut Session,
    rows: &mut [u64],
    id: RequestId,
) -> Result<RequestReport, Refusal>
    ensures step { after (reported_as result session.new) (store_of rows.new)
        ≡ change_of id Change.Timeout session.old (store_of rows.old) }
    ensures table { Tabled cancel_numbers (report_said result) }
{
    let done = change::timeout_request(*session, rows, id);
    *session = done.session;
    done.answer
}

pub fn reclaim_request(
    session: &mut Session,
    rows: &mut [u64],
    id: RequestId,
) -> Result<RequestReport, Refusal>
    ensures step { after (reported_as result session.new) (store_of rows.new)
        ≡ change_of id Change.Reclaim session.old (store_of rows.old) }
    ensures table { Tabled reclaim_numbers (report_said result) }
{
    let done = change::reclaim_request(*session, rows, id);
    *session = done.session;
    done.answer
}
