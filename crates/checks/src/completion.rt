// The test of a completion, for poll and recovery alike.
ghost use Rattle.std.specs.Prelude.{◌≡◌};
ghost use Rattle.models.specs.Said.{Tabled};
ghost use Rattle.checks.specs.Completion.{test_code, test_completion};
ghost use Rattle.checks.specs.Said.{test_said, completion_numbers};

use models::BackendCompletion;
use standards::completion::is_finished;

// What a valid completion brings beside its data.
#[derive(Clone, Copy)]
pub struct ValidCompletion {
    pub actual_length: u64,
    pub completion_code: u32,
}

// Why a completion is not valid.
#[derive(Clone, Copy)]
pub enum CompletionFault {
    MissingLength,
    Invalid,
}

// Quiescent, without an error, of a finished code, at most as long as requested, with data of just that length.
fn test_code(
    completion: BackendCompletion,
    actual: u64,
    data_length: u64,
    requested: u64,
) -> Result<ValidCompletion, CompletionFault>
    ensures { result ≡ test_code completion actual data_length requested }
{
    if !completion.quiescent | completion.error.is_some() | (actual > requested) {
        return Err(CompletionFault::Invalid);
    }
    if !completion.has_data | (data_length != actual) {
        return Err(CompletionFault::Invalid);
    }
    let code = completion.completion_code.ok_or(CompletionFault::Invalid)?;
    if !is_finished(code) {
        return Err(CompletionFault::Invalid);
    }
    Ok(ValidCompletion {
        actual_length: actual,
        completion_code: code,
    })
}

// Tests a completion with `data_length` bytes of data of a request for `requested` bytes.
pub fn test_completion(
    completion: BackendCompletion,
    data_length: u64,
    requested: u64,
) -> Result<ValidCompletion, CompletionFault>
    ensures step { result ≡ test_completion completion data_length requested }
    ensures table { Tabled completion_numbers (test_said completion.completion_code result) }
{
    let actual = completion
        .actual_length
        .ok_or(CompletionFault::MissingLength)?;
    test_code(completion, actual, data_length, requested)
}
