// The reasons that replies give, and the replies that are a status alone (000).
ghost use Rattle.std.specs.Prelude.{◌≡◌};
ghost use Rattle.zigbee_types.specs.Outcome.{Wrote};
ghost use Rattle.zigbee_types.specs.Answers.{says};
ghost use Rattle.zdo_replies.specs.Codes.{bind_code, discovery_code, leave_status};
ghost use Rattle.zdo_replies.specs.Replies.{status_rsp};

use crate::management::NlmeLeaveStatus;
use byte::Field;
use zigbee_types::Refusal;

// ZDP status codes (2.4.5). (Numbers under the Rust's names: a reply that is read may have any other.)
pub const STATUS_SUCCESS: u8 = 0x00;

const STATUS_INV_REQUESTTYPE: u8 = 0x80;

const STATUS_DEVICE_NOT_FOUND: u8 = 0x81;

const STATUS_INVALID_EP: u8 = 0x82;

pub const STATUS_NOT_ACTIVE: u8 = 0x83;

const STATUS_NOT_SUPPORTED: u8 = 0x84;

const STATUS_NO_ENTRY: u8 = 0x88;

const STATUS_NOT_PERMITTED: u8 = 0x8b;

const STATUS_TABLE_FULL: u8 = 0x8c;

const STATUS_NOT_AUTHORIZED: u8 = 0x8d;

// ---- reasons

// Outcome of a Bind_req or Unbind_req, as reported in the response (2.4.4.3.2, 2.4.4.3.3).
#[derive(Clone, Copy, PartialEq, Eq, Debug)]
pub enum BindStatus {
    Success,
    InvalidEndpoint,
    TableFull,
    NoEntry,
    NotSupported,
}

impl BindStatus {
    // The status that reports it. (`code` is the Rust's name, here and below.)
    pub fn code(self) -> u8
        ensures { result ≡ bind_code self }
    {
        match self {
            BindStatus::Success => STATUS_SUCCESS,
            BindStatus::InvalidEndpoint => STATUS_INVALID_EP,
            BindStatus::TableFull => STATUS_TABLE_FULL,
            BindStatus::NoEntry => STATUS_NO_ENTRY,
            BindStatus::NotSupported => STATUS_NOT_SUPPORTED,
        }
    }
}

// Why a discovery request could not be answered with data (2.4.4.2).
#[derive(Clone, Copy, PartialEq, Eq, Debug)]
pub enum DiscoveryError {
    // The request is none that this device answers: it names another device, or asks for an unknown kind of address reply.
    InvalidRequestType,
    // The request names a device that this one knows nothing about.
    DeviceNotFound,
}

impl DiscoveryError {
    // The status that reports it.
    pub fn code(self) -> u8
        ensures { result ≡ discovery_code self }
    {
        match self {
            DiscoveryError::InvalidRequestType => STATUS_INV_REQUESTTYPE,
            DiscoveryError::DeviceNotFound => STATUS_DEVICE_NOT_FOUND,
        }
    }
}

// Maps an NLME-LEAVE.confirm status onto the ZDP status enumeration (2.4.5), as Mgmt_Leave_rsp says it (2.4.4.4.5). (The Rust's function.)
pub fn leave_status(status: NlmeLeaveStatus) -> u8
    ensures { result ≡ leave_status status }
{
    match status {
        NlmeLeaveStatus::Success => STATUS_SUCCESS,
        NlmeLeaveStatus::InvalidRequest => STATUS_INV_REQUESTTYPE,
        NlmeLeaveStatus::UnknownDevice => STATUS_DEVICE_NOT_FOUND,
        NlmeLeaveStatus::MacError => STATUS_NOT_PERMITTED,
        NlmeLeaveStatus::NotAuthorized => STATUS_NOT_AUTHORIZED,
    }
}

// ---- bind, unbind and leave

// Builds a reply of seq and status alone.
fn status_rsp(seq: u8, status: u8, out: &mut [u8]) -> Result<usize, Refusal>
    ensures { Wrote (status_rsp seq status) out.old (says result) out.new }
{
    if out.len() < 2 {
        return Err(Refusal::ShortBuffer);
    }
    let at = u8::write(out, 0, seq);
    let at = u8::write(out, at, status);
    Ok(at)
}

// Builds a Bind_rsp or Unbind_rsp (2.4.4.3.2, 2.4.4.3.3): seq, status.
pub fn bind_rsp(seq: u8, status: BindStatus, out: &mut [u8]) -> Result<usize, Refusal>
    ensures { Wrote (status_rsp seq (bind_code status)) out.old (says result) out.new }
{
    status_rsp(seq, status.code(), out)
}

// Builds a Mgmt_Leave_rsp (2.4.4.4.5): seq, status.
pub fn mgmt_leave_rsp(seq: u8, status: u8, out: &mut [u8]) -> Result<usize, Refusal>
    ensures { Wrote (status_rsp seq status) out.old (says result) out.new }
{
    status_rsp(seq, status, out)
}
