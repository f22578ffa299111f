// The order of the dispatcher's refusals (document 01, "Refusal numbers"): each is given where those after it would be too. The lines
// are those of the module `dispatcher`.
ghost use Rattle.std.specs.Prelude.{◌≤◌};

use crate::dispatcher::{ask, bind_a, print_answer, print_link};
use crate::{bindings, device};
use aps_binding_table::binding::BindingTable;
use std::io;

// The refusals by their numbers.
pub(crate) fn in_order(rt: &impl Print) -> io::Result<()> {
    bad_devices(rt)?;
    bad_bindings(rt)?;
    unknown_clusters(rt)?;
    short_payloads(rt)?;
    more_short_payloads(rt)?;
    many_clusters(rt)
}

// Refusal 1: too many records, with an unknown cluster and with a leave, which looks at none; and a record past its pool.
fn bad_devices(rt: &impl Print) -> io::Result<()> {
    let name = "bad device";
    print_answer(rt, device::ours(33), ask(name, 0x0033, b"", 0))?;
    print_answer(rt, device::ours(33), ask(name, 0x0034, b"", 0))?;
    print_answer(rt, device::of_inputs(5), ask(name, 0x0033, b"", 0))
}

// Refusal 1: a limit that is too high, and a count above its limit, with an unknown cluster; this with a node request too, which does
// not look at bindings, and with a bind.
fn bad_bindings(rt: &impl Print) -> io::Result<()> {
    let name = "bad bindings";
    let table = bindings::table_of(1, 2, b"AB-");
    print_link(rt, BindingTable::new(33), ask(name, 0x0033, b"", 0))?;
    print_link(rt, table, ask(name, 0x0033, b"", 0))?;
    print_link(rt, table, ask(name, 0x0002, b"\x0A\x08\x07", 4))?;
    bind_a(rt, name, table)?;
    Ok(())
}

// Refusal 2: a cluster of no request, and a reply's; the first also without payload and buffer.
fn unknown_clusters(rt: &impl Print) -> io::Result<()> {
    let name = "unknown cluster";
    let ours = device::ours(2);
    print_answer(rt, ours, ask(name, 0x0033, b"\x07\x34\x12", 4))?;
    print_answer(rt, ours, ask(name, 0x8005, b"\x07\x34\x12", 4))?;
    print_answer(rt, ours, ask(name, 0x0033, b"", 0))
}

// Refusal 3, and 5 with a byte more, which a leave never gets: the shortest payload of each request. (A list of cases, in two halves.)
fn short_payloads(rt: &impl Print) -> io::Result<()> {
    shortest(rt, 0x0000, 10)?;
    shortest(rt, 0x0001, 4)?;
    shortest(rt, 0x0002, 3)?;
    shortest(rt, 0x0003, 3)?;
    shortest(rt, 0x0004, 4)
}

// The other five.
fn more_short_payloads(rt: &impl Print) -> io::Result<()> {
    shortest(rt, 0x0005, 3)?;
    shortest(rt, 0x0006, 7)?;
    shortest(rt, 0x0021, 15)?;
    shortest(rt, 0x0022, 15)?;
    shortest(rt, 0x0034, 10)
}

// Lines for so many bytes of a payload from which each request can be read, and for one less, in an empty buffer.
fn shortest(rt: &impl Print, cluster: u16, length: usize) -> io::Result<()>
    requires { (1 ≤ length) × (length ≤ 15) }
{
    let ours = device::ours(2);
    let payload = b"\x0A\x34\x12\x04\x01\x00\x00\x00\x00\x01\x02\x04\x01\x03\x00";
    print_answer(rt, ours, ask("shortest", cluster, &payload[..length], 0))?;
    print_answer(
        rt,
        ours,
        ask("shortest", cluster, &payload[..length - 1], 0),
    )
}

// Refusal 4, between 3 and 5: simple requests for 29 clusters, without the last byte and with it, and for 28, in an empty buffer. One
// about another address writes no descriptor, and so is answered.
fn many_clusters(rt: &impl Print) -> io::Result<()> {
    let of_28 = device::of_inputs(27).with_inputs(&[0; 28]);
    let of_29 = device::of_inputs(28).with_inputs(&[0; 28]);
    print_answer(rt, of_29, ask("29 clusters", 0x0004, b"\x07\x34\x12", 0))?;
    print_answer(
        rt,
        of_29,
        ask("29 clusters", 0x0004, b"\x07\x34\x12\x01", 0),
    )?;
    print_answer(
        rt,
        of_29,
        ask("29 clusters", 0x0004, b"\x07\x78\x56\x01", 6),
    )?;
    print_answer(
        rt,
        of_28,
        ask("28 clusters", 0x0004, b"\x07\x34\x12\x01", 0),
    )
}
