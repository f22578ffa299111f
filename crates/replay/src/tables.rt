// The questions about device tables (oracle/README.md, "Device tables"). TABLES are three words: CLUSTERS CLUSTERS RECORDS.
ghost use Rattle.std.specs.Prelude.{◌*◌, ◌≤◌, length};

use crate::out::Text;
use crate::words::{u8_at, u16_at};
use crate::{power, requests, words};
use node_descriptor::descriptor::NodeDescriptorConfig;
use std::io;
use std::io::Write;
use zdo_device::descriptor::{DeviceDescriptorConfig, EndpointDescriptor, Pools, Side};
use zdo_device_rsp::descriptor::{active_ep_rsp, simple_desc_rsp};
use zdo_lent_records::descriptor::{lend_active_ep_rsp, lend_matching_endpoints};
use zdo_match_req::descriptor::parse_match_desc_req;
use zdo_matching::descriptor::matching_endpoints;
use zigbee_types::{Refusal, ShortAddress};

// The most records that are lent: one more than a run may have.
const LENT: usize = 33;

// Tables: the two pools, and the word that says the records.
#[derive(Clone, Copy)]
struct Tables<'a> {
    pools: Pools<'a>,
    records: &'a [u8],
}

// Puts the answer to a question about tables, or hands the line on.
pub(crate) fn answer(line: &[u8], text: &mut Text) -> io::Result<()> {
    let questions = b"endpoint c c T 1;\
        supports_endpoint c c T 1;\
        matching_endpoints b c c T b;\
        active_ep_rsp 1 2 c c T b;\
        simple_desc_rsp 1 2 1 c c T b";
    match words::which(line, questions) {
        Some(0) => endpoint(line, text),
        Some(1) => supports_endpoint(line, text),
        Some(2) => write(line, 2, matching, lent_matching, text),
        Some(3) => write(line, 3, active_ep, lent_active_ep, text),
        Some(4) => write(line, 4, simple_desc, simple_desc, text),
        _ => requests::answer(line, text),
    }
}

// The tables of which a word is the first, in these spaces for the pools.
fn tables_in<'a>(
    line: &'a [u8],
    first: usize,
    inputs: &'a mut [u16],
    outputs: &'a mut [u16],
) -> Tables<'a>
    requires { first ≤ 4 }
{
    let pools = Pools {
        inputs: words::clusters_in(line, first, inputs),
        outputs: words::clusters_in(line, first + 1, outputs),
    };
    Tables {
        pools,
        records: words::word_of(line, first + 2),
    }
}

// Puts the record of an endpoint with its two lists, or `-`: behind the question's name stand TABLES NUMBER.
fn endpoint(line: &[u8], text: &mut Text) -> io::Result<()> {
    let mut inputs = [0u16; words::CLUSTERS];
    let mut outputs = [0u16; words::CLUSTERS];
    let tables = tables_in(line, 1, &mut inputs, &mut outputs);
    let number = words::u8_in(line, 4);
    let device = device_of(tables, number, 0);
    match device.endpoint(number) {
        Some(ep) => {
            put_record(ep, text)?;
            put_pools(device, number, tables, text)
        }
        None => write!(text, "-"),
    }
}

// Puts the fields of a record that stand before its parts of the pools.
fn put_record(ep: EndpointDescriptor, text: &mut Text) -> io::Result<()> {
    write!(
        text,
        "{:02X}{:04X}{:04X}{:02X}",
        ep.endpoint, ep.profile_id, ep.device_id, ep.device_version
    )
}

// Puts an endpoint's parts of the two pools.
fn put_pools(
    device: DeviceDescriptorConfig,
    number: u8,
    tables: Tables<'_>,
    text: &mut Text,
) -> io::Result<()> {
    let Pools { inputs, outputs } = tables.pools;
    put_clusters(
        device.endpoint_clusters(Side::Input, number, inputs, outputs),
        text,
    )?;
    put_clusters(
        device.endpoint_clusters(Side::Output, number, inputs, outputs),
        text,
    )
}

// Puts clusters after a space, or `-` where there are none.
fn put_clusters(clusters: &[u16], text: &mut Text) -> io::Result<()> {
    if clusters.is_empty() {
        return text.none();
    }
    write!(text, " ")?;
    for cluster in clusters {
        text.hex(&cluster.to_be_bytes())?;
    }
    Ok(())
}

// Puts whether there is an endpoint: behind the question's name stand TABLES NUMBER.
fn supports_endpoint(line: &[u8], text: &mut Text) -> io::Result<()> {
    let pools = Pools {
        inputs: &[],
        outputs: &[],
    };
    let tables = Tables {
        pools,
        records: words::word_of(line, 3),
    };
    let number = words::u8_in(line, 4);
    text.flag(device_of(tables, number, 0).supports_endpoint(number))
}

// Puts the answer to a write: behind its name stand arguments of its own, then from a word on TABLES, and BUFFER. It is written in two
// forms, from records that a device holds and from records that are lent, each on a buffer of its own, and where they do not agree the
// answer is `differ`. (A simple reply has one form only.)
fn write<H, L>(line: &[u8], first: usize, held: H, lent: L, text: &mut Text) -> io::Result<()>
where
    H: FnOnce(&[u8], Tables<'_>, &mut [u8]) -> Result<usize, Refusal>,
    L: FnOnce(&[u8], Tables<'_>, &mut [u8]) -> Result<usize, Refusal>,
    requires place { first ≤ 4 }
    requires holds { H.IsAlwaysCallable held }
    requires lends { L.IsAlwaysCallable lent }
{
    let mut inputs = [0u16; words::CLUSTERS];
    let mut outputs = [0u16; words::CLUSTERS];
    let tables = tables_in(line, first, &mut inputs, &mut outputs);
    let last = words::arguments(line);
    let mut space = [0u8; words::BYTES];
    let buffer = words::bytes_in(line, last, &mut space);
    let mut lent_space = [0u8; words::BYTES];
    let lent_buffer = words::bytes_in(line, last, &mut lent_space);
    let answer = held(line, tables, buffer);
    let lent_answer = lent(line, tables, lent_buffer);
    if answer == lent_answer && *buffer == *lent_buffer {
        return text.written(answer, words::word_of(line, last), buffer);
    }
    write!(text, "differ")
}

// Writes the endpoints that match: behind the question's name stand BYTES TABLES BUFFER.
fn matching(line: &[u8], tables: Tables<'_>, buffer: &mut [u8]) -> Result<usize, Refusal> {
    let mut space = [0u8; words::BYTES];
    let payload = words::bytes_in(line, 1, &mut space);
    let request = parse_match_desc_req(payload)?;
    let device = device_of(tables, 0xEE, request.profile_id);
    let matched = matching_endpoints(device, tables.pools, request, payload, buffer)?;
    Ok(matched.written)
}

// The same from records that are lent.
fn lent_matching(line: &[u8], tables: Tables<'_>, buffer: &mut [u8]) -> Result<usize, Refusal> {
    let mut space = [0u8; words::BYTES];
    let payload = words::bytes_in(line, 1, &mut space);
    let request = parse_match_desc_req(payload)?;
    let matched = lend_matching_endpoints(
        records_of(tables, 0xEE, request.profile_id),
        count_of(tables),
        tables.pools,
        request,
        payload,
        buffer,
    )?;
    Ok(matched.written)
}

// Writes an active reply: behind the question's name stand NUMBER SHORT TABLES BUFFER.
fn active_ep(line: &[u8], tables: Tables<'_>, buffer: &mut [u8]) -> Result<usize, Refusal> {
    let address = ShortAddress(words::u16_in(line, 2));
    active_ep_rsp(
        device_of(tables, 0xEE, 0),
        words::u8_in(line, 1),
        address,
        buffer,
    )
}

// The same from records that are lent.
fn lent_active_ep(line: &[u8], tables: Tables<'_>, buffer: &mut [u8]) -> Result<usize, Refusal> {
    let seq = words::u8_in(line, 1);
    let address = ShortAddress(words::u16_in(line, 2));
    lend_active_ep_rsp(
        records_of(tables, 0xEE, 0),
        count_of(tables),
        seq,
        address,
        buffer,
    )
}

// Writes a simple reply: behind the question's name stand NUMBER SHORT NUMBER TABLES BUFFER.
fn simple_desc(line: &[u8], tables: Tables<'_>, buffer: &mut [u8]) -> Result<usize, Refusal> {
    let seq = words::u8_in(line, 1);
    let address = ShortAddress(words::u16_in(line, 2));
    let number = words::u8_in(line, 3);
    let device = device_of(tables, number, 0);
    simple_desc_rsp(device, seq, address, number, tables.pools, buffer)
}

// A record of this endpoint and profile that has the whole of both pools. It stands behind the records of the tables: no answer may go
// by it.
fn unused_record(tables: Tables<'_>, endpoint: u8, profile_id: u16) -> EndpointDescriptor {
    EndpointDescriptor {
        endpoint,
        device_version: 0,
        profile_id,
        device_id: 0,
        input_start: 0,
        input_count: (tables.pools.inputs.len() % 65536) as u16,
        output_start: 0,
        output_count: (tables.pools.outputs.len() % 65536) as u16,
    }
}

// The device that holds the records of the tables, and behind them the unused one of this endpoint and profile. No answer may go by its
// node and power. Of more than 32 records the first are held, and the count says all.
fn device_of(tables: Tables<'_>, endpoint: u8, profile_id: u16) -> DeviceDescriptorConfig {
    let mut endpoints = [unused_record(tables, endpoint, profile_id); 32];
    let _held = words::items_in(tables.records, words::RECORD, record_of, &mut endpoints);
    DeviceDescriptorConfig {
        node: NodeDescriptorConfig::default(),
        power: power::power_of(tables.records, 0),
        endpoints,
        endpoint_count: count_of(tables),
    }
}

// The records of the tables, to be lent, and behind them the unused one: of more than 33 the first.
fn records_of(tables: Tables<'_>, endpoint: u8, profile_id: u16) -> [EndpointDescriptor; LENT] {
    let mut endpoints = [unused_record(tables, endpoint, profile_id); LENT];
    let _lent = words::items_in(tables.records, words::RECORD, record_of, &mut endpoints);
    endpoints
}

// How many records the tables have.
fn count_of(tables: Tables<'_>) -> usize
    ensures { result * 28 ≤ length tables.entry.records.now }
{
    tables.records.len() / words::RECORD
}

// The record that its digits say.
fn record_of(digits: &[u8]) -> EndpointDescriptor {
    EndpointDescriptor {
        endpoint: u8_at(digits, 0),
        device_version: u8_at(digits, 5),
        profile_id: u16_at(digits, 1),
        device_id: u16_at(digits, 3),
        input_start: u16_at(digits, 6),
        input_count: u16_at(digits, 8),
        output_start: u16_at(digits, 10),
        output_count: u16_at(digits, 12),
    }
}
