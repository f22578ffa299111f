// What the network layer says of a leave (the Rust's nwk/nlme/management.rs, the one type that 000 uses).

// Status codes for NLME-LEAVE.confirm; `leave_status` has what Mgmt_Leave_rsp says of each.
#[derive(Clone, Copy, PartialEq, Eq, Debug)]
pub enum NlmeLeaveStatus {
    Success,
    // Not currently joined, or the request is otherwise malformed.
    InvalidRequest,
    // The device address does not name a known end-device child.
    UnknownDevice,
    // The MAC sub-layer failed to transmit the leave command frame.
    MacError,
    // The requester is not allowed to remove this device.
    NotAuthorized,
}
