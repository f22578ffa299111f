// The dispatcher (document 01, "Binding and dispatch"): K10 whole, the other rules of bind and unbind, and leave. A line has a name,
// the request's cluster and payload, how much room the buffer has, what the request came to, and the buffer, which held 0xEE
// before. Where the binding table matters it follows, as it is then.
ghost use Rattle.std.specs.Prelude.{◌≤◌};

use crate::device::{self, Tables};
use crate::{bindings, print, requests};
use aps_binding_table::binding::BindingTable;
use byte::Field;
use std::io;
use zdo_dispatcher::dispatcher::{Responded, Response, dispatch};
use zigbee_types::{IeeeAddress, Refusal, ShortAddress};

// A request by the name of its lines: its cluster and payload, and how much room there is for the reply.
#[derive(Clone, Copy)]
pub(crate) struct Request<'a> {
    name: &'a str,
    cluster: u16,
    payload: &'a [u8],
    room: usize,
    ghost fits: { room ≤ 37 },
}

// The request of this name, cluster, payload and room.
pub(crate) fn ask<'a>(name: &'a str, cluster: u16, payload: &'a [u8], room: usize) -> Request<'a>
    requires { room ≤ 37 }
{
    Request {
        name,
        cluster,
        payload,
        room,
    }
}

// K10's request without its last byte, and whole; the same again; and an unbind of it, twice.
pub(crate) fn k10(rt: &impl Print) -> io::Result<()> {
    let short = &k10_request(0x08, 0x01)[..14];
    let table = print_link(rt, BindingTable::new(32), ask("K10", 0x0021, short, 4))?;
    let table = bind_a(rt, "K10", table)?;
    let table = bind_a(rt, "K10", table)?;
    let table = unbind_a(rt, "K10", table)?;
    unbind_a(rt, "K10", table)?;
    Ok(())
}

// K10's request, but with this lowest byte of the source address and this source endpoint.
fn k10_request(address: u8, endpoint: u8) -> [u8; 15] {
    [
        0x0A, address, 0x07, 0x06, 0x05, 0x04, 0x03, 0x02, 0x01, endpoint, 0x02, 0x04, 0x01, 0x03,
        0x00,
    ]
}

// Lines for a bind of A, the entry of K10's request.
pub(crate) fn bind_a(rt: &impl Print, name: &str, table: BindingTable) -> io::Result<BindingTable> {
    print_link(rt, table, ask(name, 0x0021, &k10_request(0x08, 0x01), 4))
}

// Lines for an unbind of A. (It stands beside `bind_a`: one function of both would name the cluster again at each call.)
fn unbind_a(rt: &impl Print, name: &str, table: BindingTable) -> io::Result<BindingTable> {
    print_link(rt, table, ask(name, 0x0022, &k10_request(0x08, 0x01), 4))
}

// The other rules of bind and unbind.
pub(crate) fn links(rt: &impl Print) -> io::Result<()> {
    bind_sources(rt)?;
    unbind_sources(rt)?;
    full_tables(rt)?;
    short_buffers(rt)?;
    to_device(rt)?;
    unbind_a(rt, "first of three", bindings::table_of(32, 3, b"ABC"))?;
    Ok(())
}

// Binds from another address, from an endpoint that is not ours, and from both: the address is looked at first.
fn bind_sources(rt: &impl Print) -> io::Result<()> {
    let name = "bind source";
    let table = BindingTable::new(32);
    print_link(rt, table, ask(name, 0x0021, &k10_request(0x09, 0x01), 4))?;
    print_link(rt, table, ask(name, 0x0021, &k10_request(0x08, 0x03), 4))?;
    print_link(rt, table, ask(name, 0x0021, &k10_request(0x09, 0x03), 4))?;
    Ok(())
}

// Unbinds from another address and from an endpoint that is not ours. But for the address the first names A.
fn unbind_sources(rt: &impl Print) -> io::Result<()> {
    let name = "unbind source";
    let table = holds_a(32);
    print_link(rt, table, ask(name, 0x0022, &k10_request(0x09, 0x01), 4))?;
    print_link(rt, table, ask(name, 0x0022, &k10_request(0x08, 0x03), 4))?;
    Ok(())
}

// Binds of A in full tables: of limit 0, with B, and with A itself.
fn full_tables(rt: &impl Print) -> io::Result<()> {
    let name = "full table";
    bind_a(rt, name, BindingTable::new(0))?;
    bind_a(rt, name, bindings::table_of(1, 1, b"B--"))?;
    bind_a(rt, name, holds_a(1))?;
    Ok(())
}

// A table of a limit that holds A.
fn holds_a(limit: usize) -> BindingTable {
    bindings::table_of(limit, 1, b"A--")
}

// A bind and an unbind whose replies do not fit: nothing is stored, and nothing goes.
fn short_buffers(rt: &impl Print) -> io::Result<()> {
    let name = "short buffer";
    let request = &k10_request(0x08, 0x01);
    print_link(rt, BindingTable::new(32), ask(name, 0x0021, request, 1))?;
    print_link(rt, holds_a(32), ask(name, 0x0022, request, 1))?;
    Ok(())
}

// Binds from endpoint 2 to a device: by mode 3, by the same without the last byte, and by mode 2.
fn to_device(rt: &impl Print) -> io::Result<()> {
    print_to_device(rt, 3, 22)?;
    print_to_device(rt, 3, 21)?;
    print_to_device(rt, 2, 22)
}

// Lines for the first bytes of a bind from endpoint 2 to a device.
fn print_to_device(rt: &impl Print, mode: u8, length: usize) -> io::Result<()>
    requires { length ≤ 22 }
{
    let payload = [
        0x11, 0x08, 0x07, 0x06, 0x05, 0x04, 0x03, 0x02, 0x01, 0x02, 0x06, 0x05, mode, 0xF1, 0xF2,
        0xF3, 0xF4, 0xF5, 0xF6, 0xF7, 0xF8, 0x09,
    ];
    let request = ask("to a device", 0x0021, &payload[..length], 2);
    print_link(rt, BindingTable::new(32), request)?;
    Ok(())
}

// Leaves of no device and of one, this in an empty buffer too.
pub(crate) fn leave(rt: &impl Print) -> io::Result<()> {
    print_ieee(rt, "leave", 0x0034, 0x0000000000000000, 0x40, 2)?;
    print_ieee(rt, "leave", 0x0034, 0xF8F7F6F5F4F3F2F1, 0x80, 2)?;
    print_ieee(rt, "leave", 0x0034, 0xF8F7F6F5F4F3F2F1, 0x80, 0)
}

// A line for a request that is a number, an IEEE address and a byte: an address request's type, a leave's options.
pub(crate) fn print_ieee(
    rt: &impl Print,
    name: &str,
    cluster: u16,
    ieee: u64,
    last: u8,
    room: usize,
) -> io::Result<()>
    requires { room ≤ 37 }
{
    let mut payload = [7u8; 10];
    u64::write(&mut payload, 1, ieee);
    payload[9] = last;
    print_answer(rt, device::ours(2), ask(name, cluster, &payload, room))
}

// Lines for a request to our device with this binding table, and for the table then, which is given.
pub(crate) fn print_link<'a>(
    rt: &impl Print,
    table: BindingTable,
    request: Request<'a>,
) -> io::Result<BindingTable> {
    let table = print_dispatch(rt, device::ours(2), table, request)?;
    bindings::print_table(rt, table)?;
    Ok(table)
}

// A line for a request to a device that has no bindings.
pub(crate) fn print_answer<'a>(
    rt: &impl Print,
    tables: Tables<'a>,
    request: Request<'a>,
) -> io::Result<()> {
    print_dispatch(rt, tables, BindingTable::new(32), request)?;
    println!(rt)
}

// A request to a device that has this binding table, what it comes to and the buffer then, without the end of the line; gives the table
// then.
fn print_dispatch<'a>(
    rt: &impl Print,
    tables: Tables<'a>,
    table: BindingTable,
    request: Request<'a>,
) -> io::Result<BindingTable> {
    let Request {
        name,
        cluster,
        payload,
        room,
    } = request;
    print!(rt; "{name} {cluster:04x}{} room {room}", print::bytes(payload))?;
    let mut out = [0xEEu8; 37];
    let buffer = &mut out[..room];
    let Responded { table, response } = dispatch(
        tables.device,
        IeeeAddress(0x0102030405060708),
        ShortAddress(0x1234),
        tables.pools,
        table,
        cluster,
        payload,
        buffer,
    );
    print_response(rt, response)?;
    print!(rt; "{}", print::bytes(buffer))?;
    Ok(table)
}

// A reply's cluster and length, a leave's fields, or the refusal.
fn print_response(rt: &impl Print, response: Result<Response, Refusal>) -> io::Result<()> {
    print::or_refusal(rt, response, |response| match response {
        Response::Reply { cluster, length } => print!(rt; " {cluster:04x} {length}"),
        Response::Leave(request) => {
            print!(rt; " leave")?;
            requests::print_leave_fields(rt, request)
        }
    })
}
