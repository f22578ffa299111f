// The requests of K7, K8 and K10, and some of every other kind (document 01, "Payloads"). A line has the payload's length, and its
// fields or the refusal.
ghost use Rattle.std.specs.Prelude.{◌≤◌, length};

use crate::print;
use std::io;
use zdo_bind_req::descriptor::parse_bind_req;
use zdo_leave_req::descriptor::parse_mgmt_leave_req;
use zdo_match_req::descriptor::parse_match_desc_req;
use zdo_requests::descriptor;
use zdo_requests::descriptor::{BindReqDestination, MgmtLeaveReq};

// The match requests of K7 and K8, and one with two inputs and an output.
pub(crate) fn k7_k8(rt: &impl Print) -> io::Result<()> {
    three_lengths(
        rt,
        "K7",
        print_match,
        b"\x09\x34\x12\x04\x01\x01\x02\x04\x00\xEE",
    )?;
    three_lengths(rt, "K8", print_match, b"\x0B\x78\x56\xFF\xFF\x00\x00\xEE")?;
    three_lengths(
        rt,
        "match",
        print_match,
        b"\x0C\xBC\x9A\x05\x01\x02\x22\x11\x44\x33\x01\x66\x55\xEE",
    )
}

// K10's bind request; one to a device, by mode 3; and the same with other modes.
pub(crate) fn k10(rt: &impl Print) -> io::Result<()> {
    three_lengths(
        rt,
        "K10",
        print_bind,
        b"\x0A\x08\x07\x06\x05\x04\x03\x02\x01\x01\x02\x04\x01\x03\x00\xEE",
    )?;
    three_lengths(
        rt,
        "bind",
        print_bind,
        b"\x11\x18\x17\x16\x15\x14\x13\x12\x11\x02\x06\x05\x03\xF1\xF2\xF3\xF4\xF5\xF6\xF7\xF8\x09\xEE",
    )?;
    bind_mode(rt, 2)?;
    bind_mode(rt, 0)?;
    bind_mode(rt, 7)
}

// A line for the request to a device with another mode.
fn bind_mode(rt: &impl Print, mode: u8) -> io::Result<()> {
    print!(rt; "bind mode {mode}")?;
    print::of_bytes(
        rt,
        "",
        print_bind,
        &[
            0x11, 0x18, 0x17, 0x16, 0x15, 0x14, 0x13, 0x12, 0x11, 0x02, 0x06, 0x05, mode, 0xF1,
            0xF2, 0xF3, 0xF4, 0xF5, 0xF6, 0xF7, 0xF8, 0x09,
        ],
    )
}

// The other discovery requests, those about addresses with StartIndex as the byte too many.
pub(crate) fn discovery(rt: &impl Print) -> io::Result<()> {
    three_lengths(
        rt,
        "NWK address",
        print_nwk_addr,
        b"\x0D\xF1\xF2\xF3\xF4\xF5\xF6\xF7\xF8\x02\x05",
    )?;
    three_lengths(rt, "IEEE address", print_ieee_addr, b"\x0E\x22\x11\x03\x05")?;
    three_lengths(rt, "node", print_node, b"\x0F\x44\x33\xEE")?;
    three_lengths(rt, "simple", print_simple, b"\x10\x66\x55\xF0\xEE")
}

// Leave requests for no device and for some. Of the options, each of the bits 6 and 7 is set alone, and with all but the other.
pub(crate) fn leave(rt: &impl Print) -> io::Result<()> {
    three_lengths(
        rt,
        "leave",
        print_leave,
        b"\x12\x00\x00\x00\x00\x00\x00\x00\x00\x40\xEE",
    )?;
    print::of_bytes(
        rt,
        "leave",
        print_leave,
        b"\x13\xF1\xF2\xF3\xF4\xF5\xF6\xF7\xF8\x80",
    )?;
    print::of_bytes(
        rt,
        "leave",
        print_leave,
        b"\x14\x00\x00\x00\x00\x00\x00\x00\x01\x7F",
    )?;
    print::of_bytes(
        rt,
        "leave",
        print_leave,
        b"\x15\x01\x00\x00\x00\x00\x00\x00\x00\xBF",
    )
}

// The clusters of 000's ten requests, those of their replies, which are 0x8000 more, and the two types of an address request.
pub(crate) fn numbers(rt: &impl Print) -> io::Result<()> {
    request_clusters(rt)?;
    reply_clusters(rt)?;
    println!(rt;
        "request types {:02x} {:02x}",
        descriptor::ADDR_REQUEST_SINGLE,
        descriptor::ADDR_REQUEST_EXTENDED
    )
}

// The clusters of the requests. (The two lists have nothing in common but their length.)
fn request_clusters(rt: &impl Print) -> io::Result<()> {
    let clusters = [
        descriptor::NWK_ADDR_REQ,
        descriptor::IEEE_ADDR_REQ,
        descriptor::NODE_DESC_REQ,
        descriptor::POWER_DESC_REQ,
        descriptor::SIMPLE_DESC_REQ,
        descriptor::ACTIVE_EP_REQ,
        descriptor::MATCH_DESC_REQ,
        descriptor::BIND_REQ,
        descriptor::UNBIND_REQ,
        descriptor::MGMT_LEAVE_REQ,
    ];
    println!(rt; "request clusters{}", print::words(&clusters))
}

// The clusters of the replies.
fn reply_clusters(rt: &impl Print) -> io::Result<()> {
    let clusters = [
        descriptor::NWK_ADDR_RSP,
        descriptor::IEEE_ADDR_RSP,
        descriptor::NODE_DESC_RSP,
        descriptor::POWER_DESC_RSP,
        descriptor::SIMPLE_DESC_RSP,
        descriptor::ACTIVE_EP_RSP,
        descriptor::MATCH_DESC_RSP,
        descriptor::BIND_RSP,
        descriptor::UNBIND_RSP,
        descriptor::MGMT_LEAVE_RSP,
    ];
    println!(rt; "reply clusters{}", print::words(&clusters))
}

// Lines for a request with a byte too many, without that, and without the last byte that it needs.
fn three_lengths<P: Print, F: Fn(&P, &[u8]) -> io::Result<()>>(
    rt: &P,
    name: &str,
    print: F,
    asdu: &[u8],
) -> io::Result<()>
    requires callable { F.IsAlwaysCallable print }
    requires two_bytes { 2 ≤ length asdu.now }
{
    print::of_three_lengths(rt, name, print, asdu, asdu.len() - 1)
}

// The fields of a NWK_addr_req. (Each of these prints its own fields, by one format.)
fn print_nwk_addr(rt: &impl Print, asdu: &[u8]) -> io::Result<()> {
    print::or_refusal(rt, descriptor::parse_nwk_addr_req(asdu), |request| {
        print!(rt;
            " {:02x} {:016x} {:02x}",
            request.seq, request.ieee_addr.0, request.request_type
        )
    })
}

// The fields of an IEEE_addr_req.
fn print_ieee_addr(rt: &impl Print, asdu: &[u8]) -> io::Result<()> {
    print::or_refusal(rt, descriptor::parse_ieee_addr_req(asdu), |request| {
        print!(rt;
            " {:02x} {:04x} {:02x}",
            request.seq, request.nwk_addr_of_interest.0, request.request_type
        )
    })
}

// The fields of a node, power or active request, and then what is read for its address alone.
fn print_node(rt: &impl Print, asdu: &[u8]) -> io::Result<()> {
    print::or_refusal(
        rt,
        descriptor::parse_addr_of_interest_req(asdu),
        |request| {
            print!(rt;
                " {:02x} {:04x}",
                request.seq, request.nwk_addr_of_interest.0
            )
        },
    )?;
    print::or_refusal(rt, descriptor::parse_addr_of_interest(asdu), |address| {
        print!(rt; " {:04x}", address.0)
    })
}

// The fields of a simple request.
fn print_simple(rt: &impl Print, asdu: &[u8]) -> io::Result<()> {
    print::or_refusal(rt, descriptor::parse_simple_desc_req(asdu), |request| {
        print!(rt;
            " {:02x} {:04x} {:02x}",
            request.seq, request.nwk_addr_of_interest.0, request.endpoint
        )
    })
}

// The fields of a match request, each list by its place and its count.
fn print_match(rt: &impl Print, asdu: &[u8]) -> io::Result<()> {
    print::or_refusal(rt, parse_match_desc_req(asdu), |request| {
        print!(rt;
            " {:02x} {:04x} {:04x} {} {} {} {}",
            request.seq,
            request.nwk_addr_of_interest.0,
            request.profile_id,
            request.input_clusters.start,
            request.input_clusters.count,
            request.output_clusters.start,
            request.output_clusters.count
        )
    })
}

// The fields of a bind request, the last a group, or a device and its endpoint.
fn print_bind(rt: &impl Print, asdu: &[u8]) -> io::Result<()> {
    print::or_refusal(rt, parse_bind_req(asdu), |request| {
        print!(rt;
            " {:02x} {:016x} {:02x} {:04x}",
            request.seq, request.src_address.0, request.src_endpoint, request.cluster_id
        )?;
        print_destination(rt, request.destination)
    })
}

// A group, or a device and its endpoint.
fn print_destination(rt: &impl Print, destination: BindReqDestination) -> io::Result<()> {
    match destination {
        BindReqDestination::Group(group) => print!(rt; " group {:04x}", group.0),
        BindReqDestination::Device { ieee, endpoint } => {
            print!(rt; " device {:016x} {endpoint:02x}", ieee.0)
        }
    }
}

// The fields of a leave request, or the refusal.
fn print_leave(rt: &impl Print, asdu: &[u8]) -> io::Result<()> {
    print::or_refusal(rt, parse_mgmt_leave_req(asdu), |request| {
        print_leave_fields(rt, request)
    })
}

// The fields of a leave request that was read.
pub(crate) fn print_leave_fields(rt: &impl Print, request: MgmtLeaveReq) -> io::Result<()> {
    print!(rt; " {:02x}", request.seq)?;
    print::or_none(rt, request.device_address, |address| {
        print!(rt; " {:016x}", address.0)
    })?;
    print!(rt;
        " {} {}",
        request.remove_children as u8, request.rejoin as u8
    )
}
