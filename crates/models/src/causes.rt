// Why a call is refused, with the number of each cause: docs/REFUSALS.md says when each comes and what is left after it.
ghost use Rattle.std.specs.Prelude.{◌≡◌};
ghost use Rattle.models.specs.Causes.{number_of};
ghost use Rattle.models.specs.Refusals.{table_category};

use crate::ErrorCategory;

#[derive(Clone, Copy, Debug, PartialEq, Eq)]
pub enum Cause {
    OperationInFlight = 1,
    NothingWaits = 2,
    WrongSize = 3,
    BadPackets = 4,
    NoRoom = 5,
    TooLong = 6,
    OverRow = 7,
    ReservedEndpointBits = 8,
    BadControl = 9,
    NoSetup = 10,
    SetupLength = 11,
    SetupDirection = 12,
    ReservedSetup = 13,
    LifecycleRequest = 14,
    ControlOnly = 15,
    EndpointDirection = 16,
    DataLength = 17,
    NoStatusStage = 18,
    SetsAddress = 19,
    SetsConfiguration = 20,
    ReservedPlanSetup = 21,
    DataStageMismatch = 22,
    StatusDirection = 23,
    StageData = 24,
    DataWithoutStage = 25,
    SlotMarked = 26,
    UnknownDevice = 27,
    NotInitialized = 28,
    NoPorts = 29,
    NoSuchPort = 30,
    StalePort = 31,
    PortNeverRead = 32,
    PortUnreadable = 33,
    GenerationsSpent = 34,
    NotPrepared = 35,
    NotConfigured = 36,
    BulkAtLowSpeed = 37,
    UnknownEndpoint = 38,
    SequencesSpent = 39,
    UnknownRequest = 40,
    NotPending = 41,
    StillHeld = 42,
    NotHeld = 43,
    NotRecoverable = 44,
    BackendError = 45,
    WrongTokens = 46,
    MissingLength = 47,
    InvalidCompletion = 48,
    ListsDisagree = 49,
    NotClosed = 50,
    NotAcquired = 51,
    NoFreshSession = 52,
    TooManyEndpoints = 53,
    PaperSize = 56,
    DamagedEvent = 57,
    IsochronousAtLowSpeed = 58,
    NotCancelled = 59,
}

impl Cause {
    pub fn number(self) -> u16
        ensures { result ≡ number_of self }
    {
        self as u16
    }

    // The category of the error. 33 and 45 have the backend's instead.
    #[tactic(auto, using(chain::proofs::Chain::chain), unfolding(crate::specs::Refusals::table_category))]
    pub(crate) fn category(self) -> ErrorCategory
        ensures { result ≡ table_category (number_of self) }
    {
        match self {
            Cause::TooLong
            | Cause::SetupLength
            | Cause::ReservedSetup
            | Cause::LifecycleRequest
            | Cause::NoStatusStage
            | Cause::SetsAddress
            | Cause::SetsConfiguration
            | Cause::ReservedPlanSetup
            | Cause::BulkAtLowSpeed
            | Cause::IsochronousAtLowSpeed => ErrorCategory::Unsupported,
            Cause::InvalidCompletion => ErrorCategory::RecoveryRequired,
            _ => ErrorCategory::Validation,
        }
    }
}
