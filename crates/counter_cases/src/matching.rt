// What match requests find in our device: K7 to K9, and the other rules of matching; and what each function over the records makes
// of tables that break document 01's sizes, or just keep them. A line of matching has how much room the buffer has, then how many
// endpoints were written or the refusal, and the buffer, which held 0xEE before.
ghost use Rattle.std.specs.Prelude.{◌≤◌};

use crate::device::{self, Tables};
use crate::print;
use std::io;
use zdo_device::descriptor::EndpointDescriptor;
use zdo_match_req::descriptor::parse_match_desc_req;
use zdo_matching::descriptor::matching_endpoints;
use zdo_requests::descriptor::MatchDescReq;
use zigbee_types::{ClusterLists, Places, ShortAddress};

// The requests of K7, K8 and K9, this in three buffers, and then the others.
pub(crate) fn k7_k9(rt: &impl Print) -> io::Result<()> {
    print_asked(rt, "K7 match", b"\x09\x34\x12\x04\x01\x01\x02\x04\x00", 3)?;
    print_asked(rt, "K8 match", b"\x0B\x34\x12\xFF\xFF\x00\x00", 3)?;
    let k9 = b"\x0C\x34\x12\x04\x01\x01\x00\x00\x00";
    print_asked(rt, "K9 match", k9, 3)?;
    print_asked(rt, "K9 match", k9, 1)?;
    print_asked(rt, "K9 match", k9, 0)?;
    profiles(rt)?;
    sides(rt)?;
    last_clusters(rt)?;
    two_inputs(rt)
}

// Requests for every profile, and for another than ours. (This and the three below are lists of cases.)
fn profiles(rt: &impl Print) -> io::Result<()> {
    print_asked(
        rt,
        "every profile",
        b"\x0D\x34\x12\xFF\xFF\x01\x00\x05\x00",
        3,
    )?;
    print_asked(
        rt,
        "other profile",
        b"\x0D\x34\x12\x05\x01\x01\x00\x00\x00",
        3,
    )
}

// An output; an output asked for as an input, and an input as an output.
fn sides(rt: &impl Print) -> io::Result<()> {
    print_asked(rt, "output", b"\x0D\x34\x12\x04\x01\x00\x01\x19\x00", 3)?;
    print_asked(rt, "as input", b"\x0D\x34\x12\x04\x01\x01\x19\x00\x00", 3)?;
    print_asked(rt, "as output", b"\x0D\x34\x12\x04\x01\x00\x01\x02\x04", 3)
}

// Lists whose last cluster alone is ours.
fn last_clusters(rt: &impl Print) -> io::Result<()> {
    print_asked(
        rt,
        "last input",
        b"\x0D\x34\x12\x04\x01\x03\x01\x00\x02\x00\x00\x05\x00",
        3,
    )?;
    print_asked(
        rt,
        "last output",
        b"\x0D\x34\x12\x04\x01\x00\x02\x01\x00\x19\x00",
        3,
    )
}

// An input of endpoint 2 with an output of endpoint 1; and inputs that have one byte of ours each.
fn two_inputs(rt: &impl Print) -> io::Result<()> {
    print_asked(
        rt,
        "either",
        b"\x0D\x34\x12\x04\x01\x01\x00\x05\x01\x19\x00",
        3,
    )?;
    print_asked(
        rt,
        "bytes",
        b"\x0D\x34\x12\x04\x01\x02\x02\x00\x00\x04\x00",
        3,
    )
}

// K7's request, with its lists at other places: within the payload, at its end, and past it; and no. 11 of docs/DIFFERENCES.md.
pub(crate) fn places(rt: &impl Print) -> io::Result<()> {
    k7_places(rt, lists(6, 1, 9, 0))?;
    k7_places(rt, lists(7, 1, 9, 0))?;
    k7_places(rt, lists(8, 1, 9, 0))?;
    k7_places(rt, lists(9, 0, 9, 0))?;
    k7_places(rt, lists(10, 0, 9, 0))?;
    k7_places(rt, lists(6, 1, 7, 1))?;
    k7_places(rt, lists(6, 1, 8, 1))?;
    k7_places(rt, lists(6, 1, 10, 0))?;
    k7_places(rt, lists(0, 0x8000000000000000, 9, 0))?;
    k7_places(rt, lists(0xFFFFFFFFFFFFFFFF, 1, 9, 0))?;
    print_places(rt, "difference 11", b"", lists(1, 0, 0, 0))
}

// A line for K7's request, with its lists at these places.
fn k7_places(rt: &impl Print, lists: ClusterLists) -> io::Result<()> {
    print_places(rt, "places", b"\x09\x34\x12\x04\x01\x01\x02\x04\x00", lists)
}

// Two lists: the place and the count of either, as document 01's form has them.
fn lists(
    input_start: usize,
    input_count: usize,
    output_start: usize,
    output_count: usize,
) -> ClusterLists {
    ClusterLists {
        input_clusters: Places {
            start: input_start,
            count: input_count,
        },
        output_clusters: Places {
            start: output_start,
            count: output_count,
        },
    }
}

// Tables of three records, of which two have one number, of 32, and of 33 (no. 5 of docs/DIFFERENCES.md); and pools of 512
// clusters, and of 513 (no. 6).
pub(crate) fn sizes(rt: &impl Print) -> io::Result<()> {
    print_tables(rt, "number 1 twice", device::ours(3), 20, 6)?;
    print_tables(rt, "32 records", device::ours(32), 20, 6)?;
    print_tables(rt, "difference 5", device::ours(33), 4, 8)?;
    long_pools(rt)
}

// Pools of 512 clusters, and of 513.
fn long_pools(rt: &impl Print) -> io::Result<()> {
    let ours = device::ours(2);
    let zeros = [0; 513];
    let both = ours.with_inputs(&zeros[..512]).with_outputs(&zeros[..512]);
    print_tables(rt, "512 clusters", both, 20, 6)?;
    print_tables(rt, "513 inputs", ours.with_inputs(&zeros), 4, 8)?;
    print_tables(rt, "513 outputs", ours.with_outputs(&zeros), 4, 8)
}

// Pools that are a cluster short; a record far past its pool, once behind the records in use, where it is free; and records
// without clusters that start at the end of their pools, and past it (no. 6 of docs/DIFFERENCES.md).
pub(crate) fn past_pools(rt: &impl Print) -> io::Result<()> {
    let ours = device::ours(2);
    print_tables(rt, "short inputs", ours.with_inputs(&[0; 3]), 4, 8)?;
    print_tables(rt, "short outputs", ours.with_outputs(&[]), 4, 8)?;
    print_tables(rt, "unused record", parts(0, 2, 0, 1), 20, 6)?;
    print_tables(rt, "far inputs", parts(0xFFFF, 1, 0, 1), 4, 8)?;
    print_tables(rt, "start at the end", parts(4, 0, 1, 0), 20, 6)?;
    print_tables(rt, "difference 6, inputs", parts(5, 0, 1, 0), 4, 8)?;
    print_tables(rt, "difference 6, outputs", parts(4, 0, 2, 0), 4, 8)
}

// A device whose one record in use has these parts of our pools, each a start and a count. Behind it stands a record far past them.
fn parts<'a>(
    input_start: u16,
    input_count: u16,
    output_start: u16,
    output_count: u16,
) -> Tables<'a> {
    let mut tables = device::ours(1);
    tables.device.endpoints[0] = EndpointDescriptor {
        input_start,
        input_count,
        output_start,
        output_count,
        ..device::ENDPOINT_1
    };
    tables.device.endpoints[1] = EndpointDescriptor {
        input_start: 0xFFFF,
        input_count: 1,
        ..device::ENDPOINT_1
    };
    tables
}

// Lines for a device and its pools: endpoint 1, the active reply, endpoint 1's simple reply in a buffer of so many bytes, and a match
// request for the input 0x0000, which is said to start at a byte of its payload: at 6 it does, at 8 it would run past the payload.
// So refusal 1 comes before 3 and 5.
fn print_tables<'a>(
    rt: &impl Print,
    name: &str,
    tables: Tables<'a>,
    room: usize,
    start: usize,
) -> io::Result<()>
    requires { room ≤ 71 }
{
    println!(rt; "{name}")?;
    device::print_endpoint(rt, " ", tables, 1)?;
    device::print_active(rt, "  active", tables, 8)?;
    device::print_simple(rt, "  simple", tables, 1, room)?;
    let request = request_of(lists(start, 1, 9, 0));
    let payload = b"\x09\x34\x12\x04\x01\x01\x00\x00\x00";
    print_matching(rt, "  match", tables, request, payload, 4)
}

// A request for our endpoints' profile, whose lists stand at these places of its payload.
fn request_of(lists: ClusterLists) -> MatchDescReq {
    MatchDescReq {
        seq: 9,
        nwk_addr_of_interest: ShortAddress(0x1234),
        profile_id: 0x0104,
        input_clusters: lists.input_clusters,
        output_clusters: lists.output_clusters,
    }
}

// A line for what our device answers to a request whose lists stand at these places of a payload.
fn print_places(
    rt: &impl Print,
    name: &str,
    payload: &[u8],
    lists: ClusterLists,
) -> io::Result<()> {
    print!(rt;
        "{name} {} {} {} {}",
        lists.input_clusters.start,
        lists.input_clusters.count,
        lists.output_clusters.start,
        lists.output_clusters.count
    )?;
    print_matching(rt, "", device::ours(2), request_of(lists), payload, 3)
}

// A line for what our device answers to the request in a payload.
fn print_asked(rt: &impl Print, name: &str, payload: &[u8], room: usize) -> io::Result<()>
    requires { room ≤ 71 }
{
    print::or_refusal(
        rt,
        parse_match_desc_req(payload),
        |request|
            requires { room ≤ 71 }
        { print_matching(rt, name, device::ours(2), request, payload, room) },
    )
}

// A line for what a device answers to a request, in a buffer of so many bytes.
fn print_matching<'a>(
    rt: &impl Print,
    name: &str,
    tables: Tables<'a>,
    request: MatchDescReq,
    payload: &[u8],
    room: usize,
) -> io::Result<()>
    requires { room ≤ 71 }
{
    let Tables { device, pools } = tables;
    print::in_room(rt, name, room, |out| {
        let matching = matching_endpoints(device, pools, request, payload, out);
        matching.map(|matched| matched.written)
    })
}
