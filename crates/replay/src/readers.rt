// The questions about the readers of replies (oracle/README.md, "Readers of replies"), and the replies that are not in
// `list_readers`.
use crate::list_readers::{put_list, put_match, put_simple};
use crate::out::{Text, put_read};
use crate::requests::put_places;
use crate::{bindings, node, power, words};
use node_descriptor::NodeDescriptor;
use node_power_descriptor::NodePowerDescriptor;
use std::io;
use std::io::Write;
use zdo_list_readers::readers::{ListReply, MatchReply, SimpleReply};
use zdo_readers::descriptor::{NodeDescRsp, parse_node_desc_rsp};
use zdo_readers::readers::{
    AddrReply, Associated, NodeReply, PowerReply, ReplyHeader, StatusReply,
};
use zigbee_types::ShortAddress;

// Puts the answer to a question about a reader, or hands the line on.
pub(crate) fn answer(line: &[u8], text: &mut Text) -> io::Result<()> {
    let questions = b"parse_node_desc_rsp b;\
        NodeReply::try_read b;\
        PowerReply::try_read b;\
        AddrReply::try_read b;\
        StatusReply::try_read b;\
        ListReply::try_read b;\
        MatchReply::try_read b;\
        SimpleReply::try_read b;\
        stack_revision M";
    match words::which(line, questions) {
        Some(0) => put_read(line, parse_node_desc_rsp, put_node_desc, text),
        Some(1) => put_read(line, NodeReply::try_read, put_node, text),
        Some(2) => put_read(line, PowerReply::try_read, put_power, text),
        Some(3) => put_read(line, AddrReply::try_read, put_addr, text),
        Some(4) => put_read(line, StatusReply::try_read, put_status, text),
        Some(5) => put_read(line, ListReply::try_read, put_list, text),
        Some(6) => put_read(line, MatchReply::try_read, put_match, text),
        Some(7) => put_read(line, SimpleReply::try_read, put_simple, text),
        Some(8) => put_revision(revision(line), text),
        _ => bindings::answer(line, text),
    }
}

// Puts what the Rust's reader gives of a node reply, and its server mask or `-` for none.
fn put_node_desc(reply: NodeDescRsp, text: &mut Text) -> io::Result<()> {
    let address = reply.nwk_addr_of_interest.0;
    write!(text, "{:02X} {:02X} {address:04X}", reply.seq, reply.status)?;
    match reply.server_mask {
        Some(mask) => write!(text, " {mask:04X}"),
        None => text.none(),
    }
}

// The stack revision of a node reply with the mask that stands behind the question's name.
fn revision(line: &[u8]) -> Option<u8> {
    let reply = NodeDescRsp {
        seq: 0,
        status: 0,
        nwk_addr_of_interest: ShortAddress(0),
        server_mask: mask_of(words::word_of(line, 1)),
    };
    reply.stack_revision()
}

// The server mask that a word says, or none.
fn mask_of(word: &[u8]) -> Option<u16> {
    if word.len() < 4 {
        return None;
    }
    Some(words::u16_at(word, 0))
}

// Puts a stack revision, or `-` for none.
fn put_revision(revision: Option<u8>, text: &mut Text) -> io::Result<()> {
    match revision {
        Some(revision) => write!(text, "{revision:02X}"),
        None => write!(text, "-"),
    }
}

// Puts a node reply, its descriptor after a space, or `-` for none.
fn put_node(reply: NodeReply, text: &mut Text) -> io::Result<()> {
    put_header(reply.header, text)?;
    match reply.descriptor {
        Some(descriptor) => {
            write!(text, " ")?;
            node::put_descriptor(descriptor, text)
        }
        None => text.none(),
    }
}

// Puts a power reply, its descriptor and the available sources each after a space, or `-` for none.
fn put_power(reply: PowerReply, text: &mut Text) -> io::Result<()> {
    put_header(reply.header, text)?;
    match reply.descriptor {
        Some(descriptor) => {
            write!(text, " ")?;
            power::put_descriptor(descriptor, text)?;
            write!(text, " {:02X}", descriptor.available_power_sources())
        }
        None => text.none(),
    }
}

// Puts an address reply, and what an extended one adds, each after a space, or `-` for none.
fn put_addr(reply: AddrReply, text: &mut Text) -> io::Result<()> {
    write!(text, "{:02X} {:02X}", reply.seq, reply.status)?;
    write!(text, " {:016X} {:04X}", reply.ieee_addr.0, reply.nwk_addr.0)?;
    match reply.associated {
        Some(associated) => put_associated(associated, text),
        None => text.none(),
    }
}

// Puts what an extended address reply adds, each after a space.
fn put_associated(associated: Associated, text: &mut Text) -> io::Result<()> {
    let count = associated.num_assoc_dev;
    write!(text, " {count:02X} {:02X}", associated.start_index)?;
    put_places(associated.devices, text)
}

// Puts a reply that is a status alone.
fn put_status(reply: StatusReply, text: &mut Text) -> io::Result<()> {
    write!(text, "{:02X} {:02X}", reply.seq, reply.status)
}

// Puts what most replies begin with.
pub(crate) fn put_header(header: ReplyHeader, text: &mut Text) -> io::Result<()> {
    let address = header.nwk_addr_of_interest.0;
    write!(
        text,
        "{:02X} {:02X} {address:04X}",
        header.seq, header.status
    )
}
