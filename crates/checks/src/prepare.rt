// The place prepare of the table: the Rust's `RequestSpec::prepare`.
ghost use Rattle.std.specs.Prelude.{◌≡◌};
ghost use Rattle.models.specs.Said.{Tabled};
ghost use Rattle.checks.specs.Prepare.{spec_facts, is_reserved, is_wrong_data, data_checked, control_checked, other_checked, spec_checked, metadata_of, prepared};
ghost use Rattle.checks.specs.Said.{prepared_said, prepare_numbers};

use models::{Cause, Refusal, RequestMetadata, RequestSpec, kinds, reject};
use standards::setup;

// The longest request.
pub(crate) const LONGEST: u64 = 65536;

// What the checks look at: the request's fields, and the parts of its bytes that the standard names. Flags and parts stand side by side, as in
// `spec_facts` (specs/Prepare.antt): a check reads single ones.
#[derive(Clone, Copy)]
pub struct SpecFacts {
    pub length: u64,
    pub row_bytes: u64,
    pub data_length: u64,
    pub control: bool,
    pub inward: bool,
    pub endpoint: u8,
    pub reserved: u8,
    pub number: u8,
    pub endpoint_in: bool,
    pub has_setup: bool,
    pub setup_length: u64,
    pub setup_in: bool,
    pub recipient: u8,
    pub kind: u8,
    pub request: u8,
}

fn spec_facts(q: RequestSpec, data_length: u64, row_bytes: u64) -> SpecFacts
    ensures { result ≡ spec_facts q data_length row_bytes }
{
    let p = setup::packet_of(q.setup);
    let endpoint_direction = setup::endpoint_direction(q.endpoint);
    let setup_direction = setup::request_direction(p.request_type);
    SpecFacts {
        length: q.length,
        row_bytes,
        data_length,
        control: kinds::is_control(q.transfer_type),
        inward: kinds::is_in(q.direction),
        endpoint: q.endpoint,
        reserved: setup::endpoint_reserved(q.endpoint),
        number: setup::endpoint_number(q.endpoint),
        endpoint_in: kinds::is_in(endpoint_direction),
        has_setup: q.setup.is_some(),
        setup_length: p.length as u64,
        setup_in: kinds::is_in(setup_direction),
        recipient: setup::recipient(p.request_type),
        kind: setup::request_kind(p.request_type),
        request: p.request,
    }
}

// The standard reserves the recipient or the type: refused by 13, in a plan by 21.
pub(crate) fn is_reserved(recipient: u8, kind: u8) -> bool
    ensures { result ≡ is_reserved recipient kind }
{
    (recipient > 3) | (kind == 3)
}

// IN with data, or OUT with data of another length: refused by 17, in a plan by 24.
pub(crate) fn is_wrong_data(inward: bool, data_length: u64, length: u64) -> bool
    ensures { result ≡ is_wrong_data inward data_length length }
{
    (inward & (data_length != 0)) | (!inward & (data_length != length))
}

// Refuses by 17, any request.
fn check_data(v: SpecFacts) -> Result<(), Refusal>
    ensures { result ≡ data_checked v }
{
    if is_wrong_data(v.inward, v.data_length, v.length) {
        return reject(Cause::DataLength);
    }
    Ok(())
}

// Refuses a control request by 9 to 14, then by its data.
fn check_control(v: SpecFacts) -> Result<(), Refusal>
    ensures { result ≡ control_checked v }
{
    let length = v.length;
    let kind = v.kind;
    let request = v.request;
    if (v.endpoint != 0) | (length > 65535) {
        return reject(Cause::BadControl);
    }
    if !v.has_setup {
        return reject(Cause::NoSetup);
    }
    if v.setup_length != length {
        return reject(Cause::SetupLength);
    }
    if v.setup_in != v.inward {
        return reject(Cause::SetupDirection);
    }
    if is_reserved(v.recipient, kind) {
        return reject(Cause::ReservedSetup);
    }
    if (kind == 0) & ((request == 5) | (request == 9) | (request == 11)) {
        return reject(Cause::LifecycleRequest);
    }
    check_data(v)
}

// Refuses a request of another type by 15 and 16, then by its data.
fn check_other(v: SpecFacts) -> Result<(), Refusal>
    ensures { result ≡ other_checked v }
{
    if (v.number == 0) | v.has_setup {
        return reject(Cause::ControlOnly);
    }
    if v.endpoint_in != v.inward {
        return reject(Cause::EndpointDirection);
    }
    check_data(v)
}

// Refuses by 6, 7 and 8, then by the transfer type's checks.
fn check_spec(v: SpecFacts) -> Result<(), Refusal>
    ensures { result ≡ spec_checked v }
{
    if v.length > LONGEST {
        return reject(Cause::TooLong);
    }
    if v.length > v.row_bytes {
        return reject(Cause::OverRow);
    }
    if v.reserved != 0 {
        return reject(Cause::ReservedEndpointBits);
    }
    if v.control {
        return check_control(v);
    }
    check_other(v)
}

fn metadata_of(q: RequestSpec) -> RequestMetadata
    ensures { result ≡ metadata_of q }
{
    RequestMetadata {
        device: q.device,
        endpoint: q.endpoint,
        transfer_type: q.transfer_type,
        direction: q.direction,
        requested_length: q.length,
        setup: q.setup,
    }
}

// Checks a request with `data_length` bytes of data against a store whose rows have `row_bytes`.
pub fn prepare(q: RequestSpec, data_length: u64, row_bytes: u64) -> Result<RequestMetadata, Refusal>
    ensures step { result ≡ prepared q data_length row_bytes }
    ensures table { Tabled prepare_numbers (prepared_said result) }
{
    check_spec(spec_facts(q, data_length, row_bytes))?;
    Ok(metadata_of(q))
}
