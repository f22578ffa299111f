// The questions about replies, and about the statuses in them (oracle/README.md, "Replies").
use crate::out::Text;
use crate::{bits, node, power, readers, words};
use std::io;
use std::io::Write;
use zdo_addr_rsp::descriptor::{addr_rsp, addr_rsp_error};
use zdo_desc_rsp::descriptor::{
    active_ep_rsp_error, descriptor_rsp_error, node_desc_rsp, power_desc_rsp, simple_desc_rsp_error,
};
use zdo_match_rsp::descriptor::{match_desc_rsp, match_desc_rsp_error};
use zdo_replies::descriptor::{BindStatus, DiscoveryError, bind_rsp, leave_status, mgmt_leave_rsp};
use zdo_replies::management::NlmeLeaveStatus;
use zigbee_types::{IeeeAddress, Refusal, ShortAddress};

// Puts the answer to a question about replies, or hands the line on.
pub(crate) fn answer(line: &[u8], text: &mut Text) -> io::Result<()> {
    let questions = b"node_desc_rsp 1 2 N b;\
        power_desc_rsp 1 2 P S b;\
        addr_rsp 1 8 2 f b;\
        match_desc_rsp 1 2 b b;\
        bind_rsp 1 R b;\
        mgmt_leave_rsp 1 1 b";
    match words::which(line, questions) {
        Some(0) => write(line, write_node, text),
        Some(1) => write(line, write_power, text),
        Some(2) => write(line, write_addr, text),
        Some(3) => write(line, write_match, text),
        Some(4) => write(line, write_bind, text),
        Some(5) => write(line, write_leave, text),
        _ => answer_error(line, text),
    }
}

// Puts the answer to a question about a reply that reports an error, or hands the line on.
fn answer_error(line: &[u8], text: &mut Text) -> io::Result<()> {
    let questions = b"addr_rsp_error 1 r 8 2 b;\
        descriptor_rsp_error 1 r 2 b;\
        active_ep_rsp_error 1 r 2 b;\
        simple_desc_rsp_error 1 r 2 b;\
        match_desc_rsp_error 1 r b";
    match words::which(line, questions) {
        Some(0) => write(line, write_addr_error, text),
        Some(1) => write_error(line, descriptor_rsp_error, text),
        Some(2) => write_error(line, active_ep_rsp_error, text),
        Some(3) => write_error(line, simple_desc_rsp_error, text),
        Some(4) => write(line, write_match_error, text),
        _ => answer_status(line, text),
    }
}

// Puts the answer to a question about the status of a reason, or hands the line on.
fn answer_status(line: &[u8], text: &mut Text) -> io::Result<()> {
    let reason = words::u8_in(line, 1);
    let questions = b"DiscoveryError::code r;\
        BindStatus::code R;\
        leave_status R";
    match words::which(line, questions) {
        Some(0) => write!(text, "{:02X}", discovery_error(reason).code()),
        Some(1) => write!(text, "{:02X}", bind_status(reason).code()),
        Some(2) => write!(text, "{:02X}", leave_status(leave(reason))),
        _ => readers::answer(line, text),
    }
}

// Puts the answer to a write: behind its name stand NUMBER, arguments of its own, and BUFFER.
fn write<W>(line: &[u8], writer: W, text: &mut Text) -> io::Result<()>
where
    W: FnOnce(&[u8], u8, &mut [u8]) -> Result<usize, Refusal>,
    requires { W.IsAlwaysCallable writer }
{
    let last = words::arguments(line);
    let mut space = [0u8; words::BYTES];
    let buffer = words::bytes_in(line, last, &mut space);
    let answer = writer(line, words::u8_in(line, 1), buffer);
    text.written(answer, words::word_of(line, last), buffer)
}

// Writes a node reply: behind the question's name stand NUMBER SHORT NODE BUFFER.
fn write_node(line: &[u8], seq: u8, buffer: &mut [u8]) -> Result<usize, Refusal> {
    let node = node::node_of(words::word_of(line, 3));
    node_desc_rsp(node, seq, ShortAddress(words::u16_in(line, 2)), buffer)
}

// Writes a power reply: behind the question's name stand NUMBER SHORT POWER NAMEDS BUFFER.
fn write_power(line: &[u8], seq: u8, buffer: &mut [u8]) -> Result<usize, Refusal> {
    let available = bits::bitmap(line, 4);
    let power = power::power_of(words::word_of(line, 3), available);
    power_desc_rsp(power, seq, ShortAddress(words::u16_in(line, 2)), buffer)
}

// Writes an address reply: behind the question's name stand NUMBER IEEE SHORT FLAG BUFFER.
fn write_addr(line: &[u8], seq: u8, buffer: &mut [u8]) -> Result<usize, Refusal> {
    addr_rsp(
        seq,
        IeeeAddress(words::hex_in(line, 2)),
        ShortAddress(words::u16_in(line, 3)),
        words::decimal_in(line, 4) == 1,
        buffer,
    )
}

// Writes a match reply: behind the question's name stand NUMBER SHORT BYTES BUFFER.
fn write_match(line: &[u8], seq: u8, buffer: &mut [u8]) -> Result<usize, Refusal> {
    let mut space = [0u8; words::BYTES];
    let endpoints = words::bytes_in(line, 3, &mut space);
    match_desc_rsp(seq, ShortAddress(words::u16_in(line, 2)), endpoints, buffer)
}

// Writes a bind reply: behind the question's name stand NUMBER REASON BUFFER.
fn write_bind(line: &[u8], seq: u8, buffer: &mut [u8]) -> Result<usize, Refusal> {
    bind_rsp(seq, bind_status(words::u8_in(line, 2)), buffer)
}

// Writes a leave reply: behind the question's name stand NUMBER NUMBER BUFFER.
fn write_leave(line: &[u8], seq: u8, buffer: &mut [u8]) -> Result<usize, Refusal> {
    mgmt_leave_rsp(seq, words::u8_in(line, 2), buffer)
}

// Puts the answer to a write of an error about an address: behind its name stand NUMBER REASON SHORT BUFFER.
fn write_error<W>(line: &[u8], writer: W, text: &mut Text) -> io::Result<()>
where
    W: FnOnce(u8, DiscoveryError, ShortAddress, &mut [u8]) -> Result<usize, Refusal>,
    requires { W.IsAlwaysCallable writer }
{
    let why = discovery_error(words::u8_in(line, 2));
    let address = ShortAddress(words::u16_in(line, 3));
    write(
        line,
        |_line, seq, buffer| writer(seq, why, address, buffer),
        text,
    )
}

// Writes an address reply that reports an error: behind the question's name stand NUMBER REASON IEEE SHORT BUFFER.
fn write_addr_error(line: &[u8], seq: u8, buffer: &mut [u8]) -> Result<usize, Refusal> {
    let why = discovery_error(words::u8_in(line, 2));
    let ieee = IeeeAddress(words::hex_in(line, 3));
    addr_rsp_error(seq, why, ieee, ShortAddress(words::u16_in(line, 4)), buffer)
}

// Writes a match reply that reports an error: behind the question's name stand NUMBER REASON BUFFER.
fn write_match_error(line: &[u8], seq: u8, buffer: &mut [u8]) -> Result<usize, Refusal> {
    match_desc_rsp_error(seq, discovery_error(words::u8_in(line, 2)), buffer)
}

// The error of discovery at a place of its enum.
fn discovery_error(place: u8) -> DiscoveryError {
    match place {
        0 => DiscoveryError::InvalidRequestType,
        _ => DiscoveryError::DeviceNotFound,
    }
}

// The status of a bind at a place of its enum. (A reason by its place is how the input names it, here and in the two like it.)
fn bind_status(place: u8) -> BindStatus {
    match place {
        0 => BindStatus::Success,
        1 => BindStatus::InvalidEndpoint,
        2 => BindStatus::TableFull,
        3 => BindStatus::NoEntry,
        _ => BindStatus::NotSupported,
    }
}

// The status of a leave at a place of its enum.
fn leave(place: u8) -> NlmeLeaveStatus {
    match place {
        0 => NlmeLeaveStatus::Success,
        1 => NlmeLeaveStatus::InvalidRequest,
        2 => NlmeLeaveStatus::UnknownDevice,
        3 => NlmeLeaveStatus::MacError,
        _ => NlmeLeaveStatus::NotAuthorized,
    }
}
