// Codes of the fieldless enums, in the order of their declaration. Decoding is total: a code out of range decodes to the last variant.
ghost use Rattle.std.specs.Prelude.{◌≡◌};
ghost use Rattle.models.specs.Codes.{read_category, category_word, read_transfer, transfer_word, read_direction, direction_word, read_profile, profile_word, read_device_state, device_state_word, read_controller, controller_word};

use crate::{ControlProfile, ControllerState, DeviceState, Direction, ErrorCategory, TransferType};

impl From<ErrorCategory> for u64 {
    ghost from_gives = { λ c w. (read_category w ≡ c) × (w ≡ category_word c) };

    fn from(c: ErrorCategory) -> u64 {
        c as u64
    }
}

impl From<u64> for ErrorCategory {
    ghost from_gives = { λ w c. c ≡ read_category w };

    fn from(w: u64) -> Self {
        match w {
            0 => ErrorCategory::Validation,
            1 => ErrorCategory::Unsupported,
            2 => ErrorCategory::OperatingSystem,
            3 => ErrorCategory::Controller,
            4 => ErrorCategory::Timeout,
            5 => ErrorCategory::Disconnect,
            _ => ErrorCategory::RecoveryRequired,
        }
    }
}

impl From<TransferType> for u64 {
    ghost from_gives = { λ t w. (read_transfer w ≡ t) × (w ≡ transfer_word t) };

    fn from(t: TransferType) -> u64 {
        t as u64
    }
}

impl From<u64> for TransferType {
    ghost from_gives = { λ w t. t ≡ read_transfer w };

    fn from(w: u64) -> Self {
        match w {
            0 => TransferType::Control,
            1 => TransferType::Bulk,
            2 => TransferType::Interrupt,
            _ => TransferType::Isochronous,
        }
    }
}

impl From<Direction> for u64 {
    ghost from_gives = { λ d w. (read_direction w ≡ d) × (w ≡ direction_word d) };

    fn from(d: Direction) -> u64 {
        d as u64
    }
}

impl From<u64> for Direction {
    ghost from_gives = { λ w d. d ≡ read_direction w };

    fn from(w: u64) -> Self {
        match w {
            0 => Direction::In,
            _ => Direction::Out,
        }
    }
}

impl From<ControlProfile> for u64 {
    ghost from_gives = { λ p w. (read_profile w ≡ p) × (w ≡ profile_word p) };

    fn from(p: ControlProfile) -> u64 {
        p as u64
    }
}

impl From<u64> for ControlProfile {
    ghost from_gives = { λ w p. p ≡ read_profile w };

    fn from(w: u64) -> Self {
        match w {
            0 => ControlProfile::Compliant,
            _ => ControlProfile::DeviceCompatibility,
        }
    }
}

impl From<DeviceState> for u64 {
    ghost from_gives = { λ s w. (read_device_state w ≡ s) × (w ≡ device_state_word s) };

    fn from(s: DeviceState) -> u64 {
        s as u64
    }
}

impl From<u64> for DeviceState {
    ghost from_gives = { λ w s. s ≡ read_device_state w };

    fn from(w: u64) -> Self {
        match w {
            0 => DeviceState::Observed,
            1 => DeviceState::PortReset,
            2 => DeviceState::SlotEnabled,
            3 => DeviceState::DefaultAddress,
            4 => DeviceState::Addressed,
            5 => DeviceState::Configured,
            _ => DeviceState::Disconnected,
        }
    }
}

impl From<ControllerState> for u64 {
    ghost from_gives = { λ s w. (read_controller w ≡ s) × (w ≡ controller_word s) };

    fn from(s: ControllerState) -> u64 {
        s as u64
    }
}

impl From<u64> for ControllerState {
    ghost from_gives = { λ w s. s ≡ read_controller w };

    fn from(w: u64) -> Self {
        match w {
            0 => ControllerState::Closed,
            1 => ControllerState::AcquiredUnknown,
            2 => ControllerState::Initialized,
            3 => ControllerState::Closing,
            _ => ControllerState::RecoveryRequired,
        }
    }
}
