// Active and simple replies (000).
ghost use Rattle.std.specs.Prelude.{length};
ghost use Rattle.zigbee_types.specs.Outcome.{Wrote};
ghost use Rattle.zigbee_types.specs.Answers.{says};
ghost use Rattle.simple_descriptor.specs.SimpleDescriptor.{simple_written};
ghost use Rattle.zdo_replies.specs.Replies.{described_rsp};
ghost use Rattle.zdo_device.specs.Tables.{endpoint_of};
ghost use Rattle.zdo_device.specs.Checked.{pools_of};
ghost use Rattle.zdo_device_rsp.specs.TableReplies.{active_begun, active_ep_rsp, simple_rsp_of, simple_desc_rsp};

use byte::Field;
use simple_descriptor::descriptor::write;
use zdo_desc_rsp::descriptor::{empty_rsp, write_header};
use zdo_device::descriptor::{DeviceDescriptorConfig, Pools, Side};
use zdo_device::tables::{Record, Tables};
use zdo_match_rsp::descriptor::list_rsp;
use zdo_replies::descriptor::{STATUS_NOT_ACTIVE, STATUS_SUCCESS};
use zigbee_types::{Refusal, ShortAddress};

// Builds an Active_EP_rsp (2.4.4.2.6): seq, status, NWKAddrOfInterest, endpoint count and list. A count above 32 is refused, and then
// too short a buffer; nothing is written in either case.
pub fn active_ep_rsp(
    device: DeviceDescriptorConfig,
    seq: u8,
    nwk_addr: ShortAddress,
    out: &mut [u8],
) -> Result<usize, Refusal>
    ensures { Wrote (active_ep_rsp seq nwk_addr device) out.old (says result) out.new }
{
    let count = device.endpoint_count;
    let mut at = begin_active_ep_rsp(count, seq, nwk_addr, out)?;
    for ep in &device.endpoints[..count] {
        at = u8::write(out, at, ep.endpoint);
    }
    Ok(at)
}

// Begins an Active_EP_rsp (2.4.4.2.6) of so many endpoints: what stands before the list. A count above 32 is refused, and then a buffer too short
// for the whole reply; nothing is written in either case. (A count alone: those of a device and of a lent run stand in different places.)
pub fn begin_active_ep_rsp(
    count: usize,
    seq: u8,
    nwk_addr: ShortAddress,
    out: &mut [u8],
) -> Result<usize, Refusal>
    ensures { Wrote (active_begun seq nwk_addr count (length out.old)) out.old (says result) out.new }
{
    if count > 32 {
        return Err(Refusal::BadTables);
    }
    if out.len() < 5 + count {
        return Err(Refusal::ShortBuffer);
    }
    let at = write_header(out, seq, STATUS_SUCCESS, nwk_addr);
    let at = u8::write(out, at, count as u8);
    Ok(at)
}

// Builds a Simple_Desc_rsp (2.4.4.2.5): seq, status, NWKAddrOfInterest, length, simple descriptor. An unknown endpoint yields
// NOT_ACTIVE with length 0. Bad tables are refused, then more than 28 clusters, then too short a buffer; nothing is written in any of
// these cases.
pub fn simple_desc_rsp(
    device: DeviceDescriptorConfig,
    seq: u8,
    nwk_addr: ShortAddress,
    endpoint: u8,
    lent: Pools,
    out: &mut [u8],
) -> Result<usize, Refusal>
    ensures { Wrote (simple_desc_rsp seq nwk_addr (pools_of lent.entry) device endpoint) out.old (says result) out.new }
{
    let Some(tables) = Tables::checked(&device, lent) else {
        return Err(Refusal::BadTables);
    };
    simple_desc_rsp_checked(tables, seq, nwk_addr, endpoint, out)
}

// The same, of tables that were checked.
pub fn simple_desc_rsp_checked(
    tables: Tables,
    seq: u8,
    nwk_addr: ShortAddress,
    endpoint: u8,
    out: &mut [u8],
) -> Result<usize, Refusal>
    ensures { Wrote (simple_rsp_of seq nwk_addr (pools_of tables.entry.pools) tables.entry.device.now endpoint) out.old (says result) out.new }
{
    let pools = tables.pools;
    let found = tables.endpoint(endpoint);
    match found {
        Some(ep) => described_rsp(Record { ep, pools }, seq, nwk_addr, out),
        None => empty_rsp(seq, STATUS_NOT_ACTIVE, nwk_addr, out),
    }
}

// Builds the Simple_Desc_rsp of a record. The longest descriptor that is written has 64 bytes.
fn described_rsp(
    row: Record,
    seq: u8,
    nwk_addr: ShortAddress,
    out: &mut [u8],
) -> Result<usize, Refusal>
    ensures { Wrote (described_rsp seq nwk_addr (endpoint_of (pools_of row.entry.pools) row.entry.ep)) out.old (says result) out.new }
{
    let mut desc = [0u8; 64];
    let len = write_record(row, &mut desc)?;
    list_rsp(seq, nwk_addr, &desc[..len], out)
}

// Writes the simple descriptor of a record (2.3.2.5) at the front of a buffer: its fields, and its parts of the two pools.
fn write_record(row: Record, out: &mut [u8]) -> Result<usize, Refusal>
    ensures { Wrote (simple_written (endpoint_of (pools_of row.entry.pools) row.entry.ep)) out.old (says result) out.new }
{
    let ep = row.ep;
    let input_clusters = row.clusters(Side::Input);
    let output_clusters = row.clusters(Side::Output);
    write(
        ep.endpoint,
        ep.profile_id,
        ep.device_id,
        ep.device_version,
        input_clusters,
        output_clusters,
        out,
    )
}
