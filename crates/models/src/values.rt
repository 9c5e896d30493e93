// Ids and errors read from words, one word a field. Total: a missing word counts as 0.
ghost use Rattle.std.specs.Prelude.{◌≡◌};
ghost use Rattle.models.specs.Values.{read_request_id, read_device_id, read_error_words, read_error, read_option_error};

use crate::{DeviceId, ErrorCategory, OperationError, RequestId};
use words::slices::word_at;

pub fn id_at(w: &[u64], at: u8) -> RequestId
    ensures { result ≡ read_request_id w.now at }
{
    let i = at as usize;
    RequestId {
        session: word_at(w, i),
        generation: word_at(w, i + 1),
        sequence: word_at(w, i + 2),
    }
}

pub fn device_at(w: &[u64], at: u8) -> DeviceId
    ensures { result ≡ read_device_id w.now at }
{
    let i = at as usize;
    DeviceId {
        session: word_at(w, i),
        generation: word_at(w, i + 1),
        slot: (word_at(w, i + 2) % 256) as u8,
    }
}

pub fn to_error(category: u64, message: u64, os_code: u64, code: u64) -> OperationError
    ensures { result ≡ read_error_words category message os_code code }
{
    OperationError {
        category: ErrorCategory::from(category),
        message: (message % 65536) as u16,
        os_code: words::to_option_i32(os_code),
        completion_code: words::to_option_u32(code),
    }
}

pub fn error_at(w: &[u64], at: u16) -> OperationError
    ensures { result ≡ read_error w.now at }
{
    let i = at as usize;
    to_error(
        word_at(w, i),
        word_at(w, i + 1),
        word_at(w, i + 2),
        word_at(w, i + 3),
    )
}

pub fn option_error_at(w: &[u64], at: u8) -> Option<OperationError>
    ensures { result ≡ read_option_error w.now at }
{
    if word_at(w, at as usize) == 0 {
        return None;
    }
    Some(error_at(w, at as u16 + 1))
}
