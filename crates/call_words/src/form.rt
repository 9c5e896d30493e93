// Which lists of words are calls: the number is known, the words are as many as the call has, each is in its field's range, and one that
// the call does not read is 0.
ghost use Rattle.std.specs.Prelude.{◌≡◌, ◌+◌, ◌*◌, ◌≤◌, length, ltb};
ghost use Rattle.chain.specs.Lists.{any_in};
ghost use Rattle.scope.specs.Returned.{completion_words};
ghost use Rattle.call_words.specs.Parts.{at_most, is_zero, is_flag, is_byte, is_half, is_option, are_zero, by_flag, is_bus_id, is_option_number, is_error, is_option_error, is_setup, is_option_setup, is_reading, is_completion, is_stage};
ghost use Rattle.call_words.specs.Form.{has, is_open_call, is_set_device, is_set_port, is_set_endpoints, is_set_reconcile, is_acquire, is_initialize, is_close, is_submit, is_plan, is_submit_reply, is_poll_reply, is_reports, is_reset, are_completions, is_recovered, is_recovery_reply, is_placing, is_moving, is_submission, is_replying, is_reporting, is_recovery_call, is_call};

use crate::arguments::COMPLETION;
use words::slices;
use words::slices::word_at;

fn at_most(w: &[u64], i: usize, limit: u64) -> bool
    ensures { result ≡ at_most w.now i limit }
{
    word_at(w, i) <= limit
}

fn is_zero(w: &[u64], i: usize) -> bool
    ensures { result ≡ is_zero w.now i }
{
    word_at(w, i) == 0
}

fn is_flag(w: &[u64], i: usize) -> bool
    ensures { result ≡ is_flag w.now i }
{
    at_most(w, i, 1)
}

fn is_byte(w: &[u64], i: usize) -> bool
    ensures { result ≡ is_byte w.now i }
{
    at_most(w, i, 255)
}

fn is_half(w: &[u64], i: usize) -> bool
    ensures { result ≡ is_half w.now i }
{
    at_most(w, i, 65535)
}

fn is_option(w: &[u64], i: usize) -> bool
    ensures { result ≡ is_option w.now i }
{
    at_most(w, i, 4294967296)
}

fn are_zero(w: &[u64], at: u16, n: u8) -> bool
    ensures { result ≡ are_zero w.now at n }
{
    (0..n).all(|k| is_zero(w, usize::from(at) + usize::from(k)))
}

// By a flag: the one test where it is 0, the other where it is 1.
fn by_flag(flag: u64, unset: bool, set: bool) -> bool
    ensures { result ≡ by_flag flag unset set }
{
    if flag == 0 {
        return unset;
    }
    (flag == 1) & set
}

// A device's or a port's id.
fn is_bus_id(w: &[u64], at: u8) -> bool
    ensures { result ≡ is_bus_id w.now at }
{
    is_byte(w, at as usize + 2)
}

fn is_option_number(w: &[u64], at: u8) -> bool
    ensures { result ≡ is_option_number w.now at }
{
    let i = at as usize;
    by_flag(word_at(w, i), is_zero(w, i + 1), true)
}

fn is_error(w: &[u64], at: u16) -> bool
    ensures { result ≡ is_error w.now at }
{
    let i = at as usize;
    at_most(w, i, 6) & is_half(w, i + 1) & is_option(w, i + 2) & is_option(w, i + 3)
}

fn is_option_error(w: &[u64], at: u8) -> bool
    ensures { result ≡ is_option_error w.now at }
{
    let past = at as u16 + 1;
    by_flag(
        word_at(w, at as usize),
        are_zero(w, past, 4),
        is_error(w, past),
    )
}

fn is_setup(w: &[u64], at: u16) -> bool
    ensures { result ≡ is_setup w.now at }
{
    let i = at as usize;
    is_byte(w, i) & is_byte(w, i + 1) & is_half(w, i + 2) & is_half(w, i + 3) & is_half(w, i + 4)
}

fn is_option_setup(w: &[u64], at: u8) -> bool
    ensures { result ≡ is_option_setup w.now at }
{
    let past = at as u16 + 1;
    by_flag(
        word_at(w, at as usize),
        are_zero(w, past, 5),
        is_setup(w, past),
    )
}

fn is_reading(w: &[u64], at: u8) -> bool
    ensures { result ≡ is_reading w.now at }
{
    let i = at as usize;
    let past = at as u16 + 2;
    let port = at_most(w, i + 1, 4294967295) & are_zero(w, past, 4);
    let error = is_zero(w, i + 1) & is_error(w, past);
    by_flag(word_at(w, i), port, error)
}

fn is_completion(w: &[u64]) -> bool
    ensures { result ≡ is_completion w.now }
{
    is_option_error(w, 0) & is_option_number(w, 5) & is_option(w, 7) & is_flag(w, 8) & is_flag(w, 9)
}

fn is_stage(w: &[u64], at: u8) -> bool
    ensures { result ≡ is_stage w.now at }
{
    let i = at as usize;
    by_flag(
        word_at(w, i),
        are_zero(w, at as u16 + 1, 2),
        is_flag(w, i + 1),
    )
}

pub fn has(w: &[u64], n: usize) -> bool
    ensures { result ≡ has w.now n }
{
    w.len() == n
}

fn is_open_call(w: &[u64]) -> bool
    ensures { result ≡ is_open_call w.now }
{
    has(w, 9) & is_option_number(w, 3) & by_flag(word_at(w, 5), is_zero(w, 6), is_byte(w, 6))
}

fn is_set_device(w: &[u64]) -> bool
    ensures { result ≡ is_set_device w.now }
{
    has(w, 8) & is_bus_id(w, 1) & is_bus_id(w, 4) & at_most(w, 7, 6)
}

fn is_set_port(w: &[u64]) -> bool
    ensures { result ≡ is_set_port w.now }
{
    has(w, 4) & is_byte(w, 1) & is_option(w, 3)
}

fn any_above(w: &[u64], limit: u64) -> bool
    ensures { result ≡ any_in (ltb limit) w.now }
{
    w.iter().any(|x| *x > limit)
}

fn is_set_endpoints(w: &[u64]) -> bool
    ensures { result ≡ is_set_endpoints w.now }
{
    (w.len() >= 2) & is_byte(w, 1) & !any_above(w, 1023)
}

fn is_set_reconcile(w: &[u64]) -> bool
    ensures { result ≡ is_set_reconcile w.now }
{
    has(w, 3) & is_byte(w, 1) & is_flag(w, 2)
}

fn is_acquire(w: &[u64]) -> bool
    ensures { result ≡ is_acquire w.now }
{
    let failed = is_flag(w, 2) & is_error(w, 3);
    has(w, 7) & by_flag(word_at(w, 1), are_zero(w, 2, 5), failed)
}

fn is_initialize(w: &[u64]) -> bool
    ensures { result ≡ is_initialize w.now }
{
    has(w, 6) & is_option_error(w, 1)
}

fn is_close(w: &[u64]) -> bool
    ensures { result ≡ is_close w.now }
{
    has(w, 8) & is_option_number(w, 1) & is_option_error(w, 3)
}

pub fn is_submit(w: &[u64]) -> bool
    ensures { result ≡ is_submit w.now }
{
    let target = is_bus_id(w, 1)
        & is_byte(w, 4)
        & at_most(w, 5, 3)
        & is_flag(w, 6)
        & is_option_setup(w, 8);
    let readings = is_reading(w, 14) & is_reading(w, 20);
    let packets = by_flag(word_at(w, 26), has(w, 27), w.len() >= 27);
    target & readings & packets
}

pub fn is_plan(w: &[u64]) -> bool
    ensures { result ≡ is_plan w.now }
{
    let target = has(w, 20) & is_bus_id(w, 1) & is_flag(w, 4) & is_setup(w, 5);
    let stages = is_stage(w, 10) & at_most(w, 13, 2) & is_reading(w, 14);
    target & stages
}

fn is_submit_reply(w: &[u64]) -> bool
    ensures { result ≡ is_submit_reply w.now }
{
    let failed = is_zero(w, 2) & is_error(w, 3);
    has(w, 7) & by_flag(word_at(w, 1), are_zero(w, 3, 4), failed)
}

fn is_poll_reply(w: &[u64]) -> bool
    ensures { result ≡ is_poll_reply w.now }
{
    match word_at(w, 1) {
        0 => has(w, 12) & are_zero(w, 2, 10),
        1 => has(w, 12) & is_zero(w, 2) & is_error(w, 3) & are_zero(w, 7, 5),
        2 => has(w, 12) & is_completion(slices::rest(w, 2)),
        _ => false,
    }
}

fn is_reports(w: &[u64]) -> bool
    ensures { result ≡ is_reports w.now }
{
    has(w, 5) & by_flag(word_at(w, 1), are_zero(w, 2, 3), true)
}

fn is_reset(w: &[u64]) -> bool
    ensures { result ≡ is_reset w.now }
{
    has(w, 5) & is_flag(w, 4)
}

// The first n completions from `at` on.
fn are_completions(w: &[u64], at: usize, n: usize) -> bool
    requires { at + n * completion_words ≤ length w.now }
    ensures { result ≡ are_completions w.now at n }
{
    let mut good = true;
    for k in 0..n {
        let start = at + k * COMPLETION;
        good &= is_completion(&w[start..start + COMPLETION]);
    }
    good
}

fn is_recovered(w: &[u64]) -> bool
    ensures { result ≡ is_recovered w.now }
{
    let done = is_flag(w, 2) & is_option_error(w, 3);
    let failed = are_zero(w, 2, 2) & is_error(w, 4);
    by_flag(word_at(w, 1), done, failed)
}

fn is_recovery_reply(w: &[u64]) -> bool
    ensures { result ≡ is_recovery_reply w.now }
{
    if w.len() < 10 {
        return false;
    }
    let n = word_at(w, 8) as usize;
    let m = word_at(w, 9) as usize;
    let left = w.len() - 10;
    if n > left {
        return false;
    }
    if m > (left - n) / COMPLETION {
        return false;
    }
    is_recovered(w) & are_completions(w, 10 + n, m)
}

fn is_placing(number: u64, w: &[u64]) -> bool
    ensures { result ≡ is_placing number w.now }
{
    match number {
        0 => is_open_call(w),
        1 => is_set_device(w),
        2 => is_set_port(w),
        3 => is_set_endpoints(w),
        _ => is_set_reconcile(w),
    }
}

fn is_moving(number: u64, w: &[u64]) -> bool
    ensures { result ≡ is_moving number w.now }
{
    match number {
        5 => is_acquire(w),
        6 => is_initialize(w),
        _ => is_close(w),
    }
}

fn is_submission(number: u64, w: &[u64]) -> bool
    ensures { result ≡ is_submission number w.now }
{
    match number {
        8 => is_submit(w),
        _ => is_plan(w),
    }
}

// A poll takes an id.
fn is_replying(number: u64, w: &[u64]) -> bool
    ensures { result ≡ is_replying number w.now }
{
    match number {
        10 => is_submit_reply(w),
        11 => has(w, 4),
        _ => is_poll_reply(w),
    }
}

// Status and completed bytes take an id; counts take nothing.
pub fn is_reporting(number: u64, w: &[u64]) -> bool
    ensures { result ≡ is_reporting number w.now }
{
    match number {
        16 => has(w, 4),
        17 => is_reports(w),
        18 => has(w, 1),
        19 => has(w, 4),
        _ => has(w, 1),
    }
}

fn is_recovery_call(number: u64, w: &[u64]) -> bool
    ensures { result ≡ is_recovery_call number w.now }
{
    match number {
        22 => has(w, 4),
        23 => is_reset(w),
        _ => is_recovery_reply(w),
    }
}

pub fn is_call(w: &[u64]) -> bool
    ensures { result ≡ is_call w.now }
{
    let number = word_at(w, 0);
    match number {
        0..=4 => is_placing(number, w),
        5..=7 => is_moving(number, w),
        8 | 9 => is_submission(number, w),
        10..=12 => is_replying(number, w),
        13..=15 | 29 => has(w, 4),
        16..=21 => is_reporting(number, w),
        22..=24 => is_recovery_call(number, w),
        _ => false,
    }
}
