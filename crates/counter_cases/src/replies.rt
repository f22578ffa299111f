// The replies of K1 and K10, some of every other kind that needs no endpoint records, and the statuses (document 01, "Replies"). A
// line has how much room the buffer has, then the reply's length or the refusal, and the buffer, which held 0xEE before.
ghost use Rattle.std.specs.Prelude.{◌≤◌};

use crate::{descriptors, print};
use std::io;
use zdo_addr_rsp::descriptor::{addr_rsp, addr_rsp_error};
use zdo_desc_rsp::descriptor::{
    active_ep_rsp_error, descriptor_rsp_error, node_desc_rsp, power_desc_rsp, simple_desc_rsp_error,
};
use zdo_match_rsp::descriptor::{match_desc_rsp, match_desc_rsp_error};
use zdo_replies::descriptor::{BindStatus, DiscoveryError, bind_rsp, leave_status, mgmt_leave_rsp};
use zdo_replies::management::NlmeLeaveStatus;
use zdo_requests::descriptor::node_desc_req;
use zigbee_types::{IeeeAddress, ShortAddress};

// Our device's addresses, which are in the replies, and another device's, which are in the request and the errors.
const OUR_IEEE: IeeeAddress = IeeeAddress(0x0102030405060708);

const OUR_SHORT: ShortAddress = ShortAddress(0x1234);

const OTHER_IEEE: IeeeAddress = IeeeAddress(0xF8F7F6F5F4F3F2F1);

const OTHER_SHORT: ShortAddress = ShortAddress(0x5678);

// K1's node reply.
pub(crate) fn k1(rt: &impl Print) -> io::Result<()> {
    print::in_three_rooms(rt, "K1 reply", 17, |out| {
        node_desc_rsp(descriptors::our_node(), 7, OUR_SHORT, out)
    })
}

// K10's bind reply, and one with another status.
pub(crate) fn k10(rt: &impl Print) -> io::Result<()> {
    print::in_three_rooms(rt, "K10 reply", 2, |out| {
        bind_rsp(0x0A, BindStatus::Success, out)
    })?;
    print::in_room(rt, "bind reply", 2, |out| {
        bind_rsp(0x0B, BindStatus::TableFull, out)
    })
}

// The others, the errors each with both reasons.
pub(crate) fn others(rt: &impl Print) -> io::Result<()> {
    print::in_three_rooms(rt, "node request", 3, |out| {
        node_desc_req(0x10, OTHER_SHORT, out)
    })?;
    print::in_three_rooms(rt, "power reply", 6, |out| {
        power_desc_rsp(descriptors::our_power(), 0x16, OUR_SHORT, out)
    })?;
    matches(rt)?;
    addresses(rt)?;
    print::in_three_rooms(rt, "leave reply", 2, |out| mgmt_leave_rsp(0x1B, 0x8B, out))?;
    errors(rt, DiscoveryError::InvalidRequestType)?;
    errors(rt, DiscoveryError::DeviceNotFound)
}

// A match reply of two endpoints, and one of none.
fn matches(rt: &impl Print) -> io::Result<()> {
    print::in_three_rooms(rt, "match reply", 7, |out| {
        match_desc_rsp(0x17, OUR_SHORT, &[0x03, 0xF0], out)
    })?;
    print::in_room(rt, "empty match reply", 5, |out| {
        match_desc_rsp(0x18, OUR_SHORT, &[], out)
    })
}

// The address replies, the second an extended one.
fn addresses(rt: &impl Print) -> io::Result<()> {
    print::in_three_rooms(rt, "address reply", 12, |out| {
        addr_rsp(0x19, OUR_IEEE, OUR_SHORT, false, out)
    })?;
    print::in_three_rooms(rt, "extended address reply", 14, |out| {
        addr_rsp(0x1A, OUR_IEEE, OUR_SHORT, true, out)
    })
}

// The replies that report an error. Node and power replies are one kind.
fn errors(rt: &impl Print, error: DiscoveryError) -> io::Result<()> {
    print::in_three_rooms(rt, "node error", 4, |out| {
        descriptor_rsp_error(0x1C, error, OTHER_SHORT, out)
    })?;
    print::in_three_rooms(rt, "active error", 5, |out| {
        active_ep_rsp_error(0x1D, error, OTHER_SHORT, out)
    })?;
    print::in_three_rooms(rt, "simple error", 5, |out| {
        simple_desc_rsp_error(0x1E, error, OTHER_SHORT, out)
    })?;
    print::in_three_rooms(rt, "match error", 3, |out| {
        match_desc_rsp_error(0x1F, error, out)
    })?;
    print::in_three_rooms(rt, "address error", 12, |out| {
        addr_rsp_error(0x20, error, OTHER_IEEE, OTHER_SHORT, out)
    })
}

// Match replies of 256 endpoints, in a buffer that is long enough and in one that is not, and one of 255.
pub(crate) fn many_matches(rt: &impl Print) -> io::Result<()> {
    print_many(rt, "256 matches", 256, 261)?;
    print_many(rt, "256 matches", 256, 260)?;
    print_many(rt, "255 matches", 255, 261)
}

// A line for the match reply of so many endpoints. Of the buffer it has the byte of the count, that of the first endpoint, and the last
// two.
fn print_many(rt: &impl Print, name: &str, count: usize, room: usize) -> io::Result<()>
    requires { (count ≤ 256) × ((2 ≤ room) × (room ≤ 261)) }
{
    print!(rt; "{name} room {room}")?;
    let mut matches = [0x77u8; 256];
    matches[0] = 0xF1;
    matches[255] = 0xF2;
    let mut out = [0xEEu8; 261];
    let written = match_desc_rsp(0x21, OUR_SHORT, &matches[..count], &mut out[..room]);
    print::written(rt, written, &[out[4], out[5], out[room - 2], out[room - 1]])
}

// The status for each of the Rust's reasons.
pub(crate) fn codes(rt: &impl Print) -> io::Result<()> {
    println!(rt;
        "bind codes {:02x} {:02x} {:02x} {:02x} {:02x}",
        BindStatus::Success.code(),
        BindStatus::InvalidEndpoint.code(),
        BindStatus::TableFull.code(),
        BindStatus::NoEntry.code(),
        BindStatus::NotSupported.code()
    )?;
    println!(rt;
        "discovery codes {:02x} {:02x}",
        DiscoveryError::InvalidRequestType.code(),
        DiscoveryError::DeviceNotFound.code()
    )?;
    println!(rt;
        "leave codes {:02x} {:02x} {:02x} {:02x} {:02x}",
        leave_status(NlmeLeaveStatus::Success),
        leave_status(NlmeLeaveStatus::InvalidRequest),
        leave_status(NlmeLeaveStatus::UnknownDevice),
        leave_status(NlmeLeaveStatus::MacError),
        leave_status(NlmeLeaveStatus::NotAuthorized)
    )
}
