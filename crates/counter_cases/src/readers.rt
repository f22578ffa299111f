// The readers of replies (document 01, "Reply readers"): on the replies of K1, K4 and K5, and on each form that a reply may have. A
// line has how many bytes the reader was lent, and the reply's fields or the refusal. Lists are places in the reply and counts.
ghost use Rattle.std.specs.Prelude.{◌≤◌, length};

use crate::{descriptors, print};
use std::io;
use zdo_list_readers::readers::{ListReply, MatchReply, SimpleReply};
use zdo_readers::descriptor::parse_node_desc_rsp;
use zdo_readers::readers::{AddrReply, NodeReply, PowerReply, ReplyHeader, StatusReply};
use zigbee_types::Places;

// K1's node reply, whose stack revision K2 has, by the Rust's reader; its first bytes, without a mask; and an error, also with all of
// K1's bytes behind its four.
pub(crate) fn k2_mask(rt: &impl Print) -> io::Result<()> {
    println!(rt; "K2 mask replies")?;
    three_lengths(
        rt,
        print_mask,
        b"\x07\x00\x34\x12\x02\x40\x80\xCD\xAB\x52\x80\x00\x00\x2C\x80\x00\x00",
        14,
    )?;
    three_lengths(rt, print_mask, b"\x07\x00\x34\x12\x02", 4)?;
    three_lengths(
        rt,
        print_mask,
        b"\x1C\x81\x78\x56\x02\x40\x80\xCD\xAB\x52\x80\x00\x00\x2C\x80\x00\x00",
        4,
    )
}

// The same reply by the reader of whole ones, and the same error.
pub(crate) fn k2_node(rt: &impl Print) -> io::Result<()> {
    println!(rt; "K2 node replies")?;
    three_lengths(
        rt,
        print_node,
        b"\x07\x00\x34\x12\x02\x40\x80\xCD\xAB\x52\x80\x00\x00\x2C\x80\x00\x00\xEE",
        17,
    )?;
    three_lengths(
        rt,
        print_node,
        b"\x1C\x81\x78\x56\x02\x40\x80\xCD\xAB\x52\x80\x00\x00\x2C\x80\x00\x00",
        4,
    )
}

// Power replies with K4's three pairs, and an error with a refused pair behind its four bytes.
pub(crate) fn k4(rt: &impl Print) -> io::Result<()> {
    println!(rt; "K4 power replies")?;
    three_lengths(rt, print_power, b"\x07\x00\x34\x12\x42\x84\xEE", 6)?;
    print::of_bytes(rt, " ", print_power, b"\x07\x00\x34\x12\x22\x84")?;
    print::of_bytes(rt, " ", print_power, b"\x07\x00\x34\x12\x32\x83")?;
    three_lengths(rt, print_power, b"\x1C\x80\x78\x56\x22\x84", 4)
}

// K5's simple reply, and replies of length 0, the last with NOT_ACTIVE.
pub(crate) fn k5(rt: &impl Print) -> io::Result<()> {
    println!(rt; "K5 simple replies")?;
    three_lengths(
        rt,
        print_simple,
        b"\x07\x00\x34\x12\x0E\x01\x04\x01\x02\x03\x01\x02\x00\x00\x02\x04\x01\x19\x00\xEE",
        19,
    )?;
    three_lengths(rt, print_simple, b"\x07\x00\x34\x12\x00\xEE", 5)?;
    print::of_bytes(rt, " ", print_simple, b"\x07\x83\x34\x12\x00")
}

// The other readers, and more of the simple replies.
pub(crate) fn others(rt: &impl Print) -> io::Result<()> {
    simple_lengths(rt)?;
    active_lists(rt)?;
    matches(rt)?;
    addresses(rt)?;
    println!(rt; "status replies")?;
    three_lengths(rt, print_status, b"\x0A\x8C\xEE", 2)
}

// Simple replies of a length that is one less than the descriptor's, its own, and one more, which is past the reply.
fn simple_lengths(rt: &impl Print) -> io::Result<()> {
    println!(rt; "simple replies of 7, 8, 9")?;
    simple_length(rt, 7)?;
    simple_length(rt, 8)?;
    simple_length(rt, 9)
}

// A line for a simple reply that ends with a descriptor of 8 bytes and says this length.
fn simple_length(rt: &impl Print, length: u8) -> io::Result<()> {
    print::of_bytes(
        rt,
        " ",
        print_simple,
        &[
            0x07, 0x00, 0x34, 0x12, length, 0x01, 0x04, 0x01, 0x02, 0x03, 0x11, 0x00, 0x00,
        ],
    )
}

// An active list of two endpoints, and an error, whose list is empty.
fn active_lists(rt: &impl Print) -> io::Result<()> {
    println!(rt; "active replies")?;
    three_lengths(rt, print_active, b"\x07\x00\x34\x12\x02\x01\x02\xEE", 7)?;
    three_lengths(rt, print_active, b"\x1D\x80\x78\x56\x00\xEE", 5)
}

// A match reply with its list, one in the form of an error but with SUCCESS, and an error with a list behind, whose third byte is
// ignored.
fn matches(rt: &impl Print) -> io::Result<()> {
    println!(rt; "match replies")?;
    three_lengths(rt, print_match, b"\x17\x00\x34\x12\x02\x03\xF0\xEE", 7)?;
    print::of_bytes(rt, " ", print_match, b"\x17\x00\x00")?;
    three_lengths(rt, print_match, b"\x1F\x80\x05\x12\x02\x03\xF0", 3)
}

// An address reply, extended from 14 bytes on, with room for one address from 16 on; and an error, which never is extended.
fn addresses(rt: &impl Print) -> io::Result<()> {
    println!(rt; "address replies")?;
    three_lengths(
        rt,
        print_address,
        b"\x19\x00\x08\x07\x06\x05\x04\x03\x02\x01\x34\x12\x02\x01\x78\x56\x9A",
        14,
    )?;
    three_lengths(
        rt,
        print_address,
        b"\x19\x00\x08\x07\x06\x05\x04\x03\x02\x01\x34\x12\x02\x01\x78\x56",
        12,
    )?;
    three_lengths(
        rt,
        print_address,
        b"\x20\x81\xF1\xF2\xF3\xF4\xF5\xF6\xF7\xF8\x78\x56\x02\x01",
        12,
    )
}

// Lines for a reply as a reader prints it, for so many bytes of it, and for one less.
fn three_lengths<P: Print, F: Fn(&P, &[u8]) -> io::Result<()>>(
    rt: &P,
    print: F,
    reply: &[u8],
    shortest: usize,
) -> io::Result<()>
    requires callable { F.IsAlwaysCallable print }
    requires within { (1 ≤ shortest) × (shortest ≤ length reply.now) }
{
    print::of_three_lengths(rt, " ", print, reply, shortest)
}

// What the Rust's reader gives of a node reply: the header, the server mask and the stack revision.
fn print_mask(rt: &impl Print, reply: &[u8]) -> io::Result<()> {
    print::or_refusal(rt, parse_node_desc_rsp(reply), |rsp| {
        print!(rt;
            " {:02x} {:02x} {:04x}",
            rsp.seq, rsp.status, rsp.nwk_addr_of_interest.0
        )?;
        print::or_none(rt, rsp.server_mask, |mask| print!(rt; " {mask:04x}"))?;
        print::or_none(
            rt,
            rsp.stack_revision(),
            |revision| print!(rt; " {revision}"),
        )
    })
}

// What most replies begin with.
fn print_header(rt: &impl Print, header: ReplyHeader) -> io::Result<()> {
    print!(rt;
        " {:02x} {:02x} {:04x}",
        header.seq, header.status, header.nwk_addr_of_interest.0
    )
}

// The header of a node reply, and the stack revision in its descriptor.
fn print_node(rt: &impl Print, reply: &[u8]) -> io::Result<()> {
    print::or_refusal(rt, NodeReply::try_read(reply), |node| {
        print_header(rt, node.header)?;
        print::or_none(rt, node.descriptor, |d| {
            print!(rt; " {}", descriptors::revision(d))
        })
    })
}

// The header of a power reply, and its descriptor's fields. (Each of these prints its own fields.)
fn print_power(rt: &impl Print, reply: &[u8]) -> io::Result<()> {
    print::or_refusal(rt, PowerReply::try_read(reply), |power| {
        print_header(rt, power.header)?;
        print::or_none(rt, power.descriptor, |d| {
            descriptors::print_power_fields(rt, d)
        })
    })
}

// The fields of an active reply.
fn print_active(rt: &impl Print, reply: &[u8]) -> io::Result<()> {
    print::or_refusal(rt, ListReply::try_read(reply), |list| print_list(rt, list))
}

// A header, and where a list stands.
fn print_list(rt: &impl Print, list: ListReply) -> io::Result<()> {
    print_header(rt, list.header)?;
    print_places(rt, list.list)
}

// Where a list stands, and its count.
fn print_places(rt: &impl Print, places: Places) -> io::Result<()> {
    print!(rt; " {} {}", places.start, places.count)
}

// The fields of a match reply; of an error the first two bytes alone.
fn print_match(rt: &impl Print, reply: &[u8]) -> io::Result<()> {
    print::or_refusal(rt, MatchReply::try_read(reply), |matched| match matched {
        MatchReply::Matched(list) => print_list(rt, list),
        MatchReply::Failed(error) => print_two_bytes(rt, error),
    })
}

// The header of a simple reply, and its descriptor's fields.
fn print_simple(rt: &impl Print, reply: &[u8]) -> io::Result<()> {
    print::or_refusal(rt, SimpleReply::try_read(reply), |simple| {
        print_header(rt, simple.header)?;
        print::or_none(rt, simple.descriptor, |d| {
            descriptors::print_simple_fields(rt, d)
        })
    })
}

// The fields of an address reply.
fn print_address(rt: &impl Print, reply: &[u8]) -> io::Result<()> {
    print::or_refusal(rt, AddrReply::try_read(reply), |address| {
        print!(rt;
            " {:02x} {:02x} {:016x} {:04x}",
            address.seq, address.status, address.ieee_addr.0, address.nwk_addr.0
        )?;
        print::or_none(rt, address.associated, |more| {
            print!(rt; " {:02x} {:02x}", more.num_assoc_dev, more.start_index)?;
            print_places(rt, more.devices)
        })
    })
}

// The fields of a bind, unbind or leave reply.
fn print_status(rt: &impl Print, reply: &[u8]) -> io::Result<()> {
    print::or_refusal(rt, StatusReply::try_read(reply), |status| {
        print_two_bytes(rt, status)
    })
}

// The two bytes of a reply that is a status alone.
fn print_two_bytes(rt: &impl Print, reply: StatusReply) -> io::Result<()> {
    print!(rt; " {:02x} {:02x}", reply.seq, reply.status)
}
