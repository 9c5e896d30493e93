// Changes rows in their encoding, and reads reports there. Words that are not canonical are canonicalised.
ghost use Rattle.std.specs.Prelude.{◌≡◌, ◌<◌, true, ◌∷◌, length};
ghost use Rattle.words.specs.Words.{read_flag, flag_word};
ghost use Rattle.models.specs.Codes.{read_transfer, transfer_word, read_direction, direction_word};
ghost use Rattle.models.specs.Values.{setup_words};
ghost use Rattle.models.specs.declared.RequestState.TheVariants as RequestState;
ghost use Rattle.rows.specs.Codec.{state_words, read_row, record_of};
ghost use Rattle.rows.specs.Table.{record_words, read_rows, row_at, empty_row, is_pending_row, report_of, with_token, restated, with_state};
ghost use Rattle.rows.specs.Store.{store_of, put_in};
ghost use Rattle.rows.specs.Values.{report_values};
ghost use Rattle.rows.specs.InPlace.{setup_at, state_at, cancelled, timed_out, completed_row};

use crate::codec::StateWords;
use crate::{RECORD_WORDS, ROW_WORDS, SEQUENCE, STATUS, codec, columns};
use models::{Direction, RequestState, SetupWords, TransferType};
use words::slices;

// The word of a record that has the cancel flag of a Pending state.
const CANCEL: usize = 18;

// How many values a report has.
const REPORT_WORDS: usize = 25;

// The canonical encoding of the flag that w decodes to.
fn renewed_flag(w: u64) -> u64
    ensures { result ≡ flag_word (read_flag w) }
{
    words::flag_word(words::to_flag(w))
}

fn renewed_transfer(w: u64) -> u64
    ensures { result ≡ transfer_word (read_transfer w) }
{
    u64::from(TransferType::from(w))
}

fn renewed_direction(w: u64) -> u64
    ensures { result ≡ direction_word (read_direction w) }
{
    u64::from(Direction::from(w))
}

// Canonical words of the record's SETUP packet.
fn renewed_setup(w: &[u64]) -> SetupWords
    requires { length w.now ≡ record_words }
    ensures { result ≡ setup_words (setup_at w.now) }
{
    let setup = codec::to_setup(w[9], w[10], w[11], w[12], w[13], w[14]);
    codec::setup_words(setup)
}

// Canonical words of the state of a row with this status word and this record, as a report has them.
fn renewed_state(status: u64, w: &[u64]) -> StateWords
    requires { length w.now ≡ record_words }
    ensures { result ≡ state_words (state_at status w.now) }
{
    let kind = codec::kind_by(status, w[20]);
    let state = codec::to_state(kind, w[18], w[19], w[21], w[22], w[23]);
    codec::state_words(state)
}

// The values of the report of the row that has these two column words and this record.
fn values(sequence: u64, status: u64, w: &[u64]) -> [u64; REPORT_WORDS]
    requires { length w.now ≡ record_words }
    ensures { result ≡ report_values (report_of (read_row (sequence ∷ status ∷ w.now))) }
{
    let p = renewed_setup(w);
    let s = renewed_state(status, w);
    [
        w[0],
        w[1],
        sequence,
        w[2],
        w[3],
        w[4] % 256,
        w[5] % 256,
        renewed_transfer(w[6]),
        renewed_direction(w[7]),
        w[8],
        p.present,
        p.request_type,
        p.request,
        p.value,
        p.index,
        p.length,
        s.tag,
        s.a,
        s.b,
        s.c,
        s.d,
        s.e,
        s.f,
        renewed_flag(w[16]),
        renewed_flag(w[17]),
    ]
}

// The values of the report of row i.
pub fn report_values(rows: &[u64], i: usize) -> [u64; REPORT_WORDS]
    requires { i < length (read_rows rows.now) }
    ensures { result ≡ report_values (report_of (row_at rows.now i)) }
{
    let sequence = columns::column(rows, i, SEQUENCE);
    let status = columns::column(rows, i, STATUS);
    let at = columns::record_at(rows, i);
    let end = at + RECORD_WORDS;
    values(sequence, status, &rows[at..end])
}

// The record w of a request's row, with another token, the flags c and t, and another state. A record has no sequence number;
// it is 0 in the contract.
fn renewed(w: &[u64], token: u64, c: bool, t: bool, state: RequestState) -> [u64; RECORD_WORDS]
    requires { length w.now ≡ record_words }
    ensures { result ≡ record_of (restated (with_token (read_row (0 ∷ 1 ∷ w.now)) token) c t state) }
{
    let p = renewed_setup(w);
    let s = codec::status_words(true, state);
    [
        w[0],
        w[1],
        w[2],
        w[3],
        w[4] % 256,
        w[5] % 256,
        renewed_transfer(w[6]),
        renewed_direction(w[7]),
        w[8],
        p.present,
        p.request_type,
        p.request,
        p.value,
        p.index,
        p.length,
        token,
        words::flag_word(c),
        words::flag_word(t),
        s.a,
        s.b,
        s.rest,
        s.d,
        s.e,
        s.f,
    ]
}

fn pending(logical_cancel: bool, timed_out: bool) -> RequestState
    ensures { result ≡ RequestState.Pending logical_cancel timed_out }
{
    RequestState::Pending {
        logical_cancel,
        timed_out,
    }
}

fn cancelled_record(w: &[u64]) -> [u64; RECORD_WORDS]
    requires { length w.now ≡ record_words }
    ensures { result ≡ record_of (cancelled (read_row (0 ∷ 1 ∷ w.now))) }
{
    let late = words::to_flag(w[19]);
    let timed_out = words::to_flag(w[17]);
    renewed(w, w[15], true, timed_out, pending(true, late))
}

fn timed_out_record(w: &[u64]) -> [u64; RECORD_WORDS]
    requires { length w.now ≡ record_words }
    ensures { result ≡ record_of (timed_out (read_row (0 ∷ 1 ∷ w.now))) }
{
    let cancel = words::to_flag(w[18]);
    let logical_cancel = words::to_flag(w[16]);
    renewed(w, w[15], logical_cancel, true, pending(cancel, true))
}

fn accepted_record(w: &[u64], token: u64) -> [u64; RECORD_WORDS]
    requires { length w.now ≡ record_words }
    ensures { result ≡ record_of (with_token (read_row (0 ∷ 1 ∷ w.now)) token) }
{
    let cancel = words::to_flag(w[18]);
    let late = words::to_flag(w[19]);
    let logical_cancel = words::to_flag(w[16]);
    let timed_out = words::to_flag(w[17]);
    renewed(w, token, logical_cancel, timed_out, pending(cancel, late))
}

fn ended_record(w: &[u64], state: RequestState) -> [u64; RECORD_WORDS]
    requires { length w.now ≡ record_words }
    ensures { result ≡ record_of (with_state (read_row (0 ∷ 1 ∷ w.now)) state) }
{
    let logical_cancel = words::to_flag(w[16]);
    let timed_out = words::to_flag(w[17]);
    renewed(w, w[15], logical_cancel, timed_out, state)
}

// Row i, which is Pending, is cancelled; its column words stay.
pub fn cancel_row(rows: &mut [u64], i: usize)
    requires { (i < length (read_rows rows.old)) × (is_pending_row (row_at rows.old i) ≡ true) }
    ensures { store_of rows.new
        ≡ put_in (store_of rows.old) i (cancelled (row_at rows.old i)) }
{
    let at = columns::record_at(rows, i);
    let end = at + RECORD_WORDS;
    let w = cancelled_record(&rows[at..end]);
    slices::copy(rows, at, &w, RECORD_WORDS);
}

// Row i, which is Pending, is timed out; its column words stay.
pub fn time_out_row(rows: &mut [u64], i: usize)
    requires { (i < length (read_rows rows.old)) × (is_pending_row (row_at rows.old i) ≡ true) }
    ensures { store_of rows.new
        ≡ put_in (store_of rows.old) i (timed_out (row_at rows.old i)) }
{
    let at = columns::record_at(rows, i);
    let end = at + RECORD_WORDS;
    let w = timed_out_record(&rows[at..end]);
    slices::copy(rows, at, &w, RECORD_WORDS);
}

// Row i, which is Pending, has the backend's token; its column words stay.
pub fn accept_row(rows: &mut [u64], i: usize, token: u64)
    requires { (i < length (read_rows rows.old)) × (is_pending_row (row_at rows.old i) ≡ true) }
    ensures { store_of rows.new
        ≡ put_in (store_of rows.old) i (with_token (row_at rows.old i) token) }
{
    let at = columns::record_at(rows, i);
    let end = at + RECORD_WORDS;
    let w = accepted_record(&rows[at..end], token);
    slices::copy(rows, at, &w, RECORD_WORDS);
}

// Row i, which is Pending, has another state.
pub fn end_row(rows: &mut [u64], i: usize, state: RequestState)
    requires { (i < length (read_rows rows.old)) × (is_pending_row (row_at rows.old i) ≡ true) }
    ensures { store_of rows.new
        ≡ put_in (store_of rows.old) i (with_state (row_at rows.old i) state) }
{
    let n = rows.len() / ROW_WORDS;
    let at = columns::record_at(rows, i);
    let end = at + RECORD_WORDS;
    let w = ended_record(&rows[at..end], state);
    let s = codec::status_words(true, state);
    let sequence = columns::column(rows, i, SEQUENCE);
    crate::put_columns(rows, n, i, sequence, s.status);
    slices::copy(rows, at, &w, RECORD_WORDS);
}

// Row i, which is Pending, is completed.
pub fn complete_row(rows: &mut [u64], i: usize, actual_length: u64, completion_code: u32)
    requires { (i < length (read_rows rows.old)) × (is_pending_row (row_at rows.old i) ≡ true) }
    ensures { store_of rows.new ≡ put_in (store_of rows.old) i
        (completed_row (row_at rows.old i) actual_length completion_code) }
{
    let logical_cancel = words::to_flag(columns::field(rows, i, CANCEL));
    let state = RequestState::Completed {
        actual_length,
        completion_code,
        logical_cancel,
    };
    end_row(rows, i, state)
}

// Row i is free.
pub fn free_row(rows: &mut [u64], i: usize)
    requires { i < length (read_rows rows.old) }
    ensures { store_of rows.new ≡ put_in (store_of rows.old) i empty_row }
{
    let n = rows.len() / ROW_WORDS;
    let at = columns::record_at(rows, i);
    crate::put_columns(rows, n, i, 0, 0);
    slices::fill(rows, at, RECORD_WORDS, 0);
}
