// Tests on the fieldless enums.
ghost use Rattle.std.specs.Prelude.{◌≡◌};
ghost use Rattle.models.specs.Kinds.{is_in, is_control, is_bulk, is_isochronous, is_prepared, is_configured};

use crate::{DeviceState, Direction, TransferType};

pub fn is_in(d: Direction) -> bool
    ensures { result ≡ is_in d }
{
    d == Direction::In
}

pub fn is_control(t: TransferType) -> bool
    ensures { result ≡ is_control t }
{
    t == TransferType::Control
}

pub fn is_bulk(t: TransferType) -> bool
    ensures { result ≡ is_bulk t }
{
    t == TransferType::Bulk
}

pub fn is_isochronous(t: TransferType) -> bool
    ensures { result ≡ is_isochronous t }
{
    t == TransferType::Isochronous
}

// The device has a default control endpoint.
pub fn is_prepared(s: DeviceState) -> bool
    ensures { result ≡ is_prepared s }
{
    matches!(
        s,
        DeviceState::DefaultAddress | DeviceState::Addressed | DeviceState::Configured
    )
}

pub fn is_configured(s: DeviceState) -> bool
    ensures { result ≡ is_configured s }
{
    s == DeviceState::Configured
}
