// The questions about requests (oracle/README.md, "Requests").
use crate::out::{Text, put_read};
use crate::{bindings, replies, words};
use byte::Field;
use std::io;
use std::io::Write;
use zdo_bind_req::descriptor::parse_bind_req;
use zdo_leave_req::descriptor::parse_mgmt_leave_req;
use zdo_match_req::descriptor::parse_match_desc_req;
use zdo_requests::descriptor;
use zdo_requests::descriptor::{BindReq, IeeeAddrReq, MatchDescReq, MgmtLeaveReq, NwkAddrReq};
use zigbee_types::{Places, ShortAddress};

// Puts the answer to a question about requests, or hands the line on.
pub(crate) fn answer(line: &[u8], text: &mut Text) -> io::Result<()> {
    let questions = b"parse_nwk_addr_req b;\
        parse_ieee_addr_req b;\
        parse_addr_of_interest b;\
        parse_match_desc_req b;\
        parse_bind_req b;\
        parse_mgmt_leave_req b;\
        node_desc_req 1 2 b;\
        constants";
    match words::which(line, questions) {
        Some(0) => put_read(line, descriptor::parse_nwk_addr_req, put_nwk_addr, text),
        Some(1) => put_read(line, descriptor::parse_ieee_addr_req, put_ieee_addr, text),
        Some(2) => put_read(line, descriptor::parse_addr_of_interest, put_address, text),
        Some(3) => match_desc(line, text),
        Some(4) => put_read(line, parse_bind_req, put_bind, text),
        Some(5) => put_read(line, parse_mgmt_leave_req, put_leave, text),
        Some(6) => node_desc(line, text),
        Some(7) => constants(text),
        _ => replies::answer(line, text),
    }
}

// Puts a request for a short address. (Each of these puts its own fields, in its own order.)
fn put_nwk_addr(request: NwkAddrReq, text: &mut Text) -> io::Result<()> {
    let address = request.ieee_addr.0;
    write!(
        text,
        "{:02X} {address:016X} {:02X}",
        request.seq, request.request_type
    )
}

// Puts a request for an IEEE address.
fn put_ieee_addr(request: IeeeAddrReq, text: &mut Text) -> io::Result<()> {
    let address = request.nwk_addr_of_interest.0;
    write!(
        text,
        "{:02X} {address:04X} {:02X}",
        request.seq, request.request_type
    )
}

// Puts the address that a request is about.
fn put_address(address: ShortAddress, text: &mut Text) -> io::Result<()> {
    write!(text, "{:04X}", address.0)
}

// Puts a match request, or `R`: behind the question's name stand BYTES.
fn match_desc(line: &[u8], text: &mut Text) -> io::Result<()> {
    let mut space = [0u8; words::BYTES];
    let bytes = words::bytes_in(line, 1, &mut space);
    match parse_match_desc_req(bytes) {
        Ok(request) => put_match_desc(request, bytes, text),
        Err(_) => text.refused(),
    }
}

// Puts a match request, and its clusters, which stand in a payload.
fn put_match_desc(request: MatchDescReq, bytes: &[u8], text: &mut Text) -> io::Result<()> {
    let address = request.nwk_addr_of_interest.0;
    write!(
        text,
        "{:02X} {address:04X} {:04X}",
        request.seq, request.profile_id
    )?;
    put_places(request.input_clusters, text)?;
    put_places(request.output_clusters, text)?;
    put_list(bytes, request.input_clusters, text)?;
    put_list(bytes, request.output_clusters, text)
}

// Puts where a list stands, and how many entries it has, each after a space.
pub(crate) fn put_places(list: Places, text: &mut Text) -> io::Result<()> {
    write!(text, " {} {}", list.start, list.count)
}

// Puts the clusters of a list in a payload after a space: `-` where there are none, and `?` for one past the end.
fn put_list(bytes: &[u8], list: Places, text: &mut Text) -> io::Result<()> {
    if list.count == 0 {
        return text.none();
    }
    write!(text, " ")?;
    let mut place = list.start;
    for _ in 0..list.count {
        if bytes.len() < 2 || bytes.len() - 2 < place {
            return text.unknown();
        }
        let cluster = u16::read(bytes, place);
        text.hex(&cluster.value.to_be_bytes())?;
        place = cluster.next;
    }
    Ok(())
}

// Puts a request to bind or unbind.
fn put_bind(request: BindReq, text: &mut Text) -> io::Result<()> {
    write!(text, "{:02X} {:016X} ", request.seq, request.src_address.0)?;
    bindings::put_entry(request.binding(), text)
}

// Puts a leave request, with `-` for no address.
fn put_leave(request: MgmtLeaveReq, text: &mut Text) -> io::Result<()> {
    write!(text, "{:02X}", request.seq)?;
    match request.device_address {
        Some(address) => write!(text, " {:016X}", address.0)?,
        None => text.none()?,
    }
    write!(
        text,
        " {} {}",
        u8::from(request.remove_children),
        u8::from(request.rejoin)
    )
}

// Puts the answer to a write: behind its name stand NUMBER SHORT BUFFER.
fn node_desc(line: &[u8], text: &mut Text) -> io::Result<()> {
    let address = ShortAddress(words::u16_in(line, 2));
    let mut space = [0u8; words::BYTES];
    let buffer = words::bytes_in(line, 3, &mut space);
    let answer = descriptor::node_desc_req(words::u8_in(line, 1), address, buffer);
    text.written(answer, words::word_of(line, 3), buffer)
}

// Puts the clusters of the requests and of the replies, and the types of an address request.
fn constants(text: &mut Text) -> io::Result<()> {
    let clusters = [
        descriptor::NWK_ADDR_REQ,
        descriptor::IEEE_ADDR_REQ,
        descriptor::NODE_DESC_REQ,
        descriptor::POWER_DESC_REQ,
        descriptor::SIMPLE_DESC_REQ,
        descriptor::ACTIVE_EP_REQ,
        descriptor::MATCH_DESC_REQ,
        descriptor::BIND_REQ,
        descriptor::UNBIND_REQ,
        descriptor::MGMT_LEAVE_REQ,
        descriptor::NWK_ADDR_RSP,
        descriptor::IEEE_ADDR_RSP,
        descriptor::NODE_DESC_RSP,
        descriptor::POWER_DESC_RSP,
        descriptor::SIMPLE_DESC_RSP,
        descriptor::ACTIVE_EP_RSP,
        descriptor::MATCH_DESC_RSP,
        descriptor::BIND_RSP,
        descriptor::UNBIND_RSP,
        descriptor::MGMT_LEAVE_RSP,
    ];
    for cluster in clusters {
        write!(text, "{cluster:04X} ")?;
    }
    write!(
        text,
        "{:02X} {:02X}",
        descriptor::ADDR_REQUEST_SINGLE,
        descriptor::ADDR_REQUEST_EXTENDED
    )
}
