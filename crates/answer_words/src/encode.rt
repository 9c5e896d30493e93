// Answers as words: a tag, then the answer's fields, then zeros.
ghost use Rattle.std.specs.Prelude.{◌≡◌, [], ◌∷◌};
ghost use Rattle.models.specs.Values.{option_error_words, metadata_tail};
ghost use Rattle.standards.specs.Setup.{setup_bytes};
ghost use Rattle.checks.specs.Said.{stage_tail};
ghost use Rattle.answer_words.specs.Encode.{refusal_words, begun_words, plan_words, report_words, recovering_words, recovered_words, answer_words, written};

use calls::Answer;
use checks::plan::ValidatedControlPlan;
use models::{OperationError, Refusal, RequestMetadata, RequestReport, SetupPacket};
use recovery::AbortReport;
use rows::codec;
use session::Recovery;
use session_words::state;
use standards::setup;
use submissions::{PlanSubmission, Submission};
use words::slices;

// How many words an answer has.
pub const WORDS: usize = 32;

fn refusal_words(r: Refusal) -> [u64; 6]
    ensures { result ≡ refusal_words r }
{
    let error = r.error;
    let category = error.category;
    let os_code = error.os_code;
    let code = error.completion_code;
    [
        0,
        r.number as u64,
        u64::from(category),
        error.message as u64,
        words::option_i32_word(os_code),
        words::option_u32_word(code),
    ]
}

// Thirteen words: device, endpoint, type, direction, length, SETUP.
fn metadata_words(m: RequestMetadata) -> [u64; 13]
    ensures { result ≡ metadata_tail m [] }
{
    let transfer_type = m.transfer_type;
    let direction = m.direction;
    let packet = m.setup;
    let p = codec::setup_words(packet);
    [
        m.device.session,
        m.device.generation,
        m.device.slot as u64,
        m.endpoint as u64,
        u64::from(transfer_type),
        u64::from(direction),
        m.requested_length,
        p.present,
        p.request_type,
        p.request,
        p.value,
        p.index,
        p.length,
    ]
}

fn begun_words(x: Submission) -> [u64; 19]
    ensures { result ≡ begun_words x }
{
    let metadata = x.metadata;
    let m = metadata_words(metadata);
    let head = [2, x.id.session, x.id.generation, x.id.sequence, x.row];
    let tail = [words::flag_word(x.has_packets)];
    let mut w = [0; 19];
    slices::copy(&mut w, 0, &head, 5);
    slices::copy(&mut w, 5, &m, 13);
    slices::copy(&mut w, 18, &tail, 1);
    w
}

// The SETUP bytes, a word each.
fn byte_words(packet: SetupPacket) -> [u64; 8]
    ensures { result ≡ setup_bytes packet }
{
    let b = setup::setup_bytes(packet);
    [
        b[0] as u64,
        b[1] as u64,
        b[2] as u64,
        b[3] as u64,
        b[4] as u64,
        b[5] as u64,
        b[6] as u64,
        b[7] as u64,
    ]
}

// Has data, its direction, the status stage's, profile.
fn stage_words(plan: ValidatedControlPlan) -> [u64; 4]
    ensures { result ≡ stage_tail plan [] }
{
    let data_direction = plan.data_direction;
    let status_direction = plan.status_direction;
    let profile = plan.profile;
    [
        words::flag_word(plan.has_data),
        u64::from(data_direction),
        u64::from(status_direction),
        u64::from(profile),
    ]
}

// The eight SETUP bytes stand last.
fn plan_words(x: PlanSubmission) -> [u64; 30]
    ensures { result ≡ plan_words x }
{
    let plan = x.plan;
    let metadata = plan.metadata;
    let packet = metadata.setup;
    let m = metadata_words(metadata);
    let b = byte_words(setup::packet_of(packet));
    let head = [3, x.id.session, x.id.generation, x.id.sequence, x.row];
    let stages = stage_words(plan);
    let mut w = [0; 30];
    slices::copy(&mut w, 0, &head, 5);
    slices::copy(&mut w, 5, &m, 13);
    slices::copy(&mut w, 18, &stages, 4);
    slices::copy(&mut w, 22, &b, 8);
    w
}

pub fn report_words(x: RequestReport) -> [u64; 26]
    ensures { result ≡ report_words x }
{
    let metadata = x.metadata;
    let state = x.state;
    let m = metadata_words(metadata);
    let s = codec::state_words(state);
    let head = [4, x.id.session, x.id.generation, x.id.sequence];
    let state_words = [s.tag, s.a, s.b, s.c, s.d, s.e, s.f];
    let flags = [
        words::flag_word(x.logical_cancel),
        words::flag_word(x.timed_out),
    ];
    let mut w = [0; 26];
    slices::copy(&mut w, 0, &head, 4);
    slices::copy(&mut w, 4, &m, 13);
    slices::copy(&mut w, 17, &state_words, 7);
    slices::copy(&mut w, 24, &flags, 2);
    w
}

fn recovering_words(x: Recovery) -> [u64; 9]
    ensures { result ≡ recovering_words x }
{
    let kind = x.kind;
    [
        9,
        x.target.session,
        x.target.generation,
        x.target.sequence,
        x.device.session,
        x.device.generation,
        x.device.slot as u64,
        x.endpoint as u64,
        state::kind_word(kind),
    ]
}

fn option_error_words(error: Option<OperationError>) -> [u64; 5]
    ensures { result ≡ option_error_words error }
{
    match error {
        None => [0, 0, 0, 0, 0],
        Some(e) => {
            let category = e.category;
            let os_code = e.os_code;
            let code = e.completion_code;
            [
                1,
                u64::from(category),
                e.message as u64,
                words::option_i32_word(os_code),
                words::option_u32_word(code),
            ]
        }
    }
}

fn recovered_words(x: AbortReport) -> [u64; 16]
    ensures { result ≡ recovered_words x }
{
    let error = x.error;
    let e = option_error_words(error);
    [
        10,
        x.target.session,
        x.target.generation,
        x.target.sequence,
        x.device.session,
        x.device.generation,
        x.device.slot as u64,
        x.endpoint as u64,
        x.completed,
        x.aborted,
        words::flag_word(x.restart_ready),
        e[0],
        e[1],
        e[2],
        e[3],
        e[4],
    ]
}

// The words and then zeros, as an answer's.
pub fn put(out: &mut [u64], w: &[u64])
    ensures { out.new ≡ written w.now out.old }
{
    if out.len() < WORDS {
        return;
    }
    let n = w.len();
    if n > WORDS {
        return;
    }
    slices::fill(out, 0, 32, 0);
    slices::copy(out, 0, w, n);
}

// A report by its values, put behind its tag.
pub fn put_report(out: &mut [u64], values: &[u64])
    ensures { out.new ≡ written (4 ∷ values.now) out.old }
{
    if out.len() < WORDS {
        return;
    }
    let n = values.len();
    if n >= WORDS {
        return;
    }
    put(out, &[4]);
    slices::copy(out, 1, values, n);
}

// Writes the answer; a slice of fewer than 32 words stays as it is.
pub fn write_answer(out: &mut [u64], answer: Answer)
    ensures { out.new ≡ written (answer_words answer) out.old }
{
    match answer {
        Answer::Refused(r) => put(out, &refusal_words(r)),
        Answer::Pass => put(out, &[1]),
        Answer::Begun(x) => put(out, &begun_words(x)),
        Answer::PlanBegun(x) => put(out, &plan_words(x)),
        Answer::Report(x) => put(out, &report_words(x)),
        Answer::NoReport => put(out, &[5]),
        Answer::Asked(token) => put(out, &[6, token]),
        Answer::Number(n) => put(out, &[7, n]),
        Answer::Bytes(p) => put(out, &[8, p.start, p.length]),
        Answer::Recovering(x) => put(out, &recovering_words(x)),
        Answer::Recovered(x) => put(out, &recovered_words(x)),
    }
}
