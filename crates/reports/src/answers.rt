// What several calls answer, and what a backend's error does.
ghost use Rattle.std.specs.Prelude.{◌≡◌};
ghost use Rattle.reports.specs.Answers.{is_mild, effect};

use models::{ErrorCategory, OperationError, Refusal};
use session::Session;

// A backend's error of such a category marks nothing.
pub fn is_mild(c: ErrorCategory) -> bool
    ensures { result ≡ is_mild c }
{
    matches!(c, ErrorCategory::Validation | ErrorCategory::Unsupported)
}

// A backend's error of a category other than Validation or Unsupported marks recovery.
pub fn take_effect(session: Session, error: OperationError) -> Session
    ensures { result ≡ effect error session }
{
    let category = error.category;
    if is_mild(category) {
        return session;
    }
    session::mark(session)
}
