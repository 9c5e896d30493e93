// The place plan of the table: the Rust's `ControlPlan::validate`.
ghost use Rattle.std.specs.Prelude.{◌≡◌};
ghost use Rattle.models.specs.Kinds.{is_in};
ghost use Rattle.models.specs.Said.{Tabled};
ghost use Rattle.checks.specs.Plan.{is_compliant, stage_of, plan_facts, payload_checked, compliant_status, stages_checked, size_checked, plan_checked, plan_of, planned};
ghost use Rattle.checks.specs.Said.{planned_said, plan_numbers};

use crate::prepare::{LONGEST, is_reserved, is_wrong_data};
use models::{
    Cause, ControlPlan, ControlProfile, DataStage, Direction, Refusal, RequestMetadata,
    TransferType, kinds, reject,
};
use standards::setup;

// A plan that passed. Its SETUP bytes are `standards::setup::setup_bytes` of the metadata's packet.
#[derive(Clone, Copy)]
pub struct ValidatedControlPlan {
    pub metadata: RequestMetadata,
    pub has_data: bool,
    pub data_direction: Direction,
    pub status_direction: Direction,
    pub profile: ControlProfile,
}

// What the checks look at, as `plan_facts` (specs/Plan.antt) has it: a check reads single ones.
#[derive(Clone, Copy)]
pub struct PlanFacts {
    pub has_status: bool,
    pub status_in: bool,
    pub request_type: u8,
    pub request: u8,
    pub recipient: u8,
    pub kind: u8,
    pub setup_in: bool,
    pub setup_length: u64,
    pub compliant: bool,
    pub compliant_in: bool,
    pub has_stage: bool,
    pub inward: bool,
    pub length: u64,
    pub data_length: u64,
    pub row_bytes: u64,
}

fn is_compliant(p: ControlProfile) -> bool
    ensures { result ≡ is_compliant p }
{
    match p {
        ControlProfile::Compliant => true,
        ControlProfile::DeviceCompatibility => false,
    }
}

// The data stage; none means length 0 in the SETUP's direction.
fn stage_of(s: Option<DataStage>, request_type: u8) -> DataStage
    ensures { result ≡ stage_of s request_type }
{
    s.unwrap_or(DataStage {
        direction: setup::request_direction(request_type),
        length: 0,
    })
}

// Whether the status of a Compliant plan is IN: it is OUT after an IN stage that is not empty, else IN.
fn is_compliant_in(stage: DataStage) -> bool
    ensures { result ≡ is_in (compliant_status stage) }
{
    !(kinds::is_in(stage.direction) & (stage.length > 0))
}

fn plan_facts(q: ControlPlan, data_length: u64, row_bytes: u64) -> PlanFacts
    ensures { result ≡ plan_facts q data_length row_bytes }
{
    let p = q.setup;
    let stage = stage_of(q.data_stage, p.request_type);
    let status = q.status_direction.unwrap_or(Direction::In);
    let setup_direction = setup::request_direction(p.request_type);
    PlanFacts {
        has_status: q.status_direction.is_some(),
        status_in: kinds::is_in(status),
        request_type: p.request_type,
        request: p.request,
        recipient: setup::recipient(p.request_type),
        kind: setup::request_kind(p.request_type),
        setup_in: kinds::is_in(setup_direction),
        setup_length: p.length as u64,
        compliant: is_compliant(q.profile),
        compliant_in: is_compliant_in(stage),
        has_stage: q.data_stage.is_some(),
        inward: kinds::is_in(stage.direction),
        length: stage.length,
        data_length,
        row_bytes,
    }
}

// Refuses any plan by 24 and 25.
fn check_payload(v: PlanFacts) -> Result<(), Refusal>
    ensures { result ≡ payload_checked v }
{
    if is_wrong_data(v.inward, v.data_length, v.length) {
        return reject(Cause::StageData);
    }
    if !v.has_stage & (v.data_length != 0) {
        return reject(Cause::DataWithoutStage);
    }
    Ok(())
}

// Refuses a Compliant plan by 21, 22 and 23, then by its data.
fn check_stages(v: PlanFacts) -> Result<(), Refusal>
    ensures { result ≡ stages_checked v }
{
    if is_reserved(v.recipient, v.kind) {
        return reject(Cause::ReservedPlanSetup);
    }
    if (v.length != v.setup_length)
        | (v.has_stage != (v.setup_length != 0))
        | (v.inward != v.setup_in)
    {
        return reject(Cause::DataStageMismatch);
    }
    if v.status_in != v.compliant_in {
        return reject(Cause::StatusDirection);
    }
    check_payload(v)
}

// Refuses by 6 and 7, then by the profile's checks.
fn check_size(v: PlanFacts) -> Result<(), Refusal>
    ensures { result ≡ size_checked v }
{
    if v.length > LONGEST {
        return reject(Cause::TooLong);
    }
    if v.length > v.row_bytes {
        return reject(Cause::OverRow);
    }
    if v.compliant {
        return check_stages(v);
    }
    check_payload(v)
}

// Refuses by 18, 19 and 20, then by the size.
fn check_plan(v: PlanFacts) -> Result<(), Refusal>
    ensures { result ≡ plan_checked v }
{
    if !v.has_status {
        return reject(Cause::NoStatusStage);
    }
    if (v.request_type == 0) & (v.request == 5) {
        return reject(Cause::SetsAddress);
    }
    if ((v.request_type == 0) & (v.request == 9)) | ((v.request_type == 1) & (v.request == 11)) {
        return reject(Cause::SetsConfiguration);
    }
    check_size(v)
}

fn plan_of(q: ControlPlan) -> ValidatedControlPlan
    ensures { result ≡ plan_of q }
{
    let stage = stage_of(q.data_stage, q.setup.request_type);
    let metadata = RequestMetadata {
        device: q.device,
        endpoint: 0,
        transfer_type: TransferType::Control,
        direction: stage.direction,
        requested_length: stage.length,
        setup: Some(q.setup),
    };
    ValidatedControlPlan {
        metadata,
        has_data: q.data_stage.is_some(),
        data_direction: stage.direction,
        status_direction: q.status_direction.unwrap_or(Direction::In),
        profile: q.profile,
    }
}

// Checks a plan with `data_length` bytes of data against a store whose rows have `row_bytes`.
pub fn validate_plan(
    q: ControlPlan,
    data_length: u64,
    row_bytes: u64,
) -> Result<ValidatedControlPlan, Refusal>
    ensures step { result ≡ planned q data_length row_bytes }
    ensures table { Tabled plan_numbers (planned_said result) }
{
    check_plan(plan_facts(q, data_length, row_bytes))?;
    Ok(plan_of(q))
}
