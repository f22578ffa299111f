// Discovery requests to the dispatcher (document 01, "Binding and dispatch"): about us, K1, K5 and K7 among them; for addresses; and
// about another device. The lines are those of the module `dispatcher`.
ghost use Rattle.std.specs.Prelude.{◌≤◌};

use crate::bindings;
use crate::device::{self, Tables};
use crate::dispatcher::{ask, print_answer, print_ieee, print_link};
use node_descriptor::LogicalType;
use std::io;

// Requests for our descriptors and our active list, for an endpoint that we have not, and for what matches.
pub(crate) fn ours(rt: &impl Print) -> io::Result<()> {
    two_rooms(rt, "K1", 0x0002, b"\x07\x34\x12", 17)?;
    two_rooms(rt, "power", 0x0003, b"\x07\x34\x12", 6)?;
    two_rooms(rt, "K5", 0x0004, b"\x07\x34\x12\x01", 19)?;
    two_rooms(rt, "active", 0x0005, b"\x07\x34\x12", 7)?;
    two_rooms(rt, "unknown endpoint", 0x0004, b"\x07\x34\x12\x03", 5)?;
    matches(rt)
}

// Lines for a request about us: in a buffer with a byte to spare, and in one of a byte less than the reply.
fn two_rooms(
    rt: &impl Print,
    name: &str,
    cluster: u16,
    payload: &[u8],
    reply: usize,
) -> io::Result<()>
    requires { (1 ≤ reply) × (reply ≤ 36) }
{
    let ours = device::ours(2);
    print_answer(rt, ours, ask(name, cluster, payload, reply + 1))?;
    print_answer(rt, ours, ask(name, cluster, payload, reply - 1))
}

// Match requests: K7's, and again with other bindings; K8's, which finds none; and one for the input 0x0000, which 32 records have.
fn matches(rt: &impl Print) -> io::Result<()> {
    let ours = device::ours(2);
    let k7 = b"\x09\x34\x12\x04\x01\x01\x02\x04\x00";
    let k8 = b"\x0B\x34\x12\xFF\xFF\x00\x00";
    print_answer(rt, ours, ask("K7", 0x0006, k7, 7))?;
    print_answer(rt, ours, ask("K7", 0x0006, k7, 5))?;
    let table = bindings::table_of(3, 3, b"ABC");
    print_link(rt, table, ask("other bindings", 0x0006, k7, 7))?;
    print_answer(rt, ours, ask("K8", 0x0006, k8, 6))?;
    many_matches(rt)
}

// The request that all of 32 records match.
fn many_matches(rt: &impl Print) -> io::Result<()> {
    let of_32 = device::ours(32);
    let request = b"\x0C\x34\x12\x04\x01\x01\x00\x00\x00";
    print_answer(rt, of_32, ask("32 matches", 0x0006, request, 37))?;
    print_answer(rt, of_32, ask("32 matches", 0x0006, request, 36))
}

// Requests for addresses: ours, by the types 0, 1 and 2, and another device's, which is found out before the type is looked at.
pub(crate) fn addresses(rt: &impl Print) -> io::Result<()> {
    nwk_addresses(rt)?;
    ieee_addresses(rt)
}

// Requests for a short address. The extended reply is asked for without room too.
fn nwk_addresses(rt: &impl Print) -> io::Result<()> {
    let name = "NWK address";
    print_ieee(rt, name, 0x0000, 0x0102030405060708, 0, 15)?;
    print_ieee(rt, name, 0x0000, 0x0102030405060708, 1, 15)?;
    print_ieee(rt, name, 0x0000, 0x0102030405060708, 1, 13)?;
    print_ieee(rt, name, 0x0000, 0x0102030405060708, 2, 15)?;
    print_ieee(rt, name, 0x0000, 0xF8F7F6F5F4F3F2F1, 1, 15)?;
    print_ieee(rt, name, 0x0000, 0xF8F7F6F5F4F3F2F1, 2, 15)
}

// Requests for an IEEE address, in the same way.
fn ieee_addresses(rt: &impl Print) -> io::Result<()> {
    let name = "IEEE address";
    let ours = device::ours(2);
    print_answer(rt, ours, ask(name, 0x0001, b"\x07\x34\x12\x00", 15))?;
    print_answer(rt, ours, ask(name, 0x0001, b"\x07\x34\x12\x01", 15))?;
    print_answer(rt, ours, ask(name, 0x0001, b"\x07\x34\x12\x01", 13))?;
    print_answer(rt, ours, ask(name, 0x0001, b"\x07\x34\x12\x02", 15))?;
    print_answer(rt, ours, ask(name, 0x0001, b"\x07\x78\x56\x01", 15))?;
    print_answer(rt, ours, ask(name, 0x0001, b"\x07\x78\x56\x02", 15))
}

// Requests about another short address, by our type. A reserved type is neither a router nor a coordinator, though 9 and 1 are both
// written as a router's number.
pub(crate) fn about_another(rt: &impl Print) -> io::Result<()> {
    by_type(rt, "end device", LogicalType::EndDevice)?;
    by_type(rt, "router", LogicalType::Router)?;
    by_type(rt, "coordinator", LogicalType::Coordinator)?;
    by_type(rt, "reserved 9", LogicalType::Reserved(9))?;
    by_type(rt, "reserved 1", LogicalType::Reserved(1))?;
    short_errors(rt)
}

// Lines for the five requests, where we have this type.
fn by_type(rt: &impl Print, name: &str, logical_type: LogicalType) -> io::Result<()> {
    let ours = device::ours(2);
    let mut device = ours.device;
    device.node.logical_type = logical_type;
    let tables = Tables { device, ..ours };
    print_answer(rt, tables, ask(name, 0x0002, b"\x07\x78\x56", 6))?;
    print_answer(rt, tables, ask(name, 0x0003, b"\x07\x78\x56", 6))?;
    print_answer(rt, tables, ask(name, 0x0004, b"\x07\x78\x56\x01", 6))?;
    print_answer(rt, tables, ask(name, 0x0005, b"\x07\x78\x56", 6))?;
    print_answer(rt, tables, ask(name, 0x0006, OTHER_MATCH, 6))
}

// A match request about another short address.
const OTHER_MATCH: &[u8] = b"\x07\x78\x56\x04\x01\x00\x00";

// Errors that do not fit; and a request about the broadcast address, which is another too.
fn short_errors(rt: &impl Print) -> io::Result<()> {
    let name = "error";
    let ours = device::ours(2);
    print_answer(rt, ours, ask(name, 0x0002, b"\x07\x78\x56", 3))?;
    print_answer(rt, ours, ask(name, 0x0004, b"\x07\x78\x56\x01", 4))?;
    print_answer(rt, ours, ask(name, 0x0005, b"\x07\x78\x56", 4))?;
    print_answer(rt, ours, ask(name, 0x0006, OTHER_MATCH, 2))?;
    print_answer(rt, ours, ask(name, 0x0002, b"\x07\xFF\xFF", 6))
}
