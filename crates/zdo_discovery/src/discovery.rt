// The seven discovery requests, from payload to reply. (Added by document 01; 2.4.3.1, 2.4.4.2.)
ghost use Rattle.std.specs.Prelude.{◌≡◌, true};
ghost use Rattle.zigbee_types.specs.Outcome.{and_then, Wrote};
ghost use Rattle.zigbee_types.specs.Answers.{says};
ghost use Rattle.zdo_requests.specs.Requests.{nwk_addr_req_in, ieee_addr_req_in, addr_of_interest_req_in, simple_desc_req_in, match_desc_req_in};
ghost use Rattle.zdo_replies.specs.Codes.{discovery_code};
ghost use Rattle.zdo_replies.specs.Replies.{list_rsp};
ghost use Rattle.zdo_device.specs.Tables.{used, resolved_in};
ghost use Rattle.zdo_device.specs.Checked.{pools_of};
ghost use Rattle.zdo_matching.specs.Matching.{wanted, match_list};
ghost use Rattle.zdo_discovery.specs.Hosted.{host_of};
ghost use Rattle.zdo_discovery.specs.Discovery.{our_address, on_nwk_addr, on_ieee_addr, not_ours, on_node, on_power, on_simple, on_active, on_match, discovery};

use crate::host::Host;
use node_descriptor::LogicalType;
use node_descriptor::descriptor::NodeDescriptorConfig;
use node_power_descriptor::descriptor::PowerDescriptorConfig;
use zdo_addr_rsp::descriptor::{addr_rsp, addr_rsp_error};
use zdo_desc_rsp::descriptor::{
    active_ep_rsp_error, descriptor_rsp_error, node_desc_rsp, power_desc_rsp, simple_desc_rsp_error,
};
use zdo_device::tables::Tables;
use zdo_device_rsp::descriptor::{active_ep_rsp, simple_desc_rsp_checked};
use zdo_match_req::descriptor::parse_match_desc_req;
use zdo_match_rsp::descriptor::{match_desc_rsp, match_desc_rsp_error};
use zdo_matching::descriptor::matching_endpoints_checked;
use zdo_matching::sought::Sought;
use zdo_replies::descriptor::DiscoveryError;
use zdo_requests::descriptor::{
    ACTIVE_EP_REQ, ADDR_REQUEST_EXTENDED, ADDR_REQUEST_SINGLE, IEEE_ADDR_REQ, MATCH_DESC_REQ,
    NODE_DESC_REQ, NWK_ADDR_REQ, POWER_DESC_REQ, SIMPLE_DESC_REQ, parse_addr_of_interest_req,
    parse_ieee_addr_req, parse_nwk_addr_req, parse_simple_desc_req,
};
use zigbee_types::{IeeeAddress, Refusal, ShortAddress};

// The most endpoints that can match: as many as there are records (document 01, "Device tables and sizes").
const MATCHES: usize = 32;

// ---- addresses

// Replies to an address request about us, by its type: single, extended, and any other is an error with our two addresses.
fn our_address(
    ieee_addr: IeeeAddress,
    nwk_addr: ShortAddress,
    seq: u8,
    request_type: u8,
    out: &mut [u8],
) -> Result<usize, Refusal>
    ensures { Wrote (our_address ieee_addr nwk_addr seq request_type) out.old (says result) out.new }
{
    match request_type {
        ADDR_REQUEST_SINGLE => addr_rsp(seq, ieee_addr, nwk_addr, false, out),
        ADDR_REQUEST_EXTENDED => addr_rsp(seq, ieee_addr, nwk_addr, true, out),
        _ => addr_rsp_error(
            seq,
            DiscoveryError::InvalidRequestType,
            ieee_addr,
            nwk_addr,
            out,
        ),
    }
}

// Replies to a NWK_addr_req (2.4.3.1.1). One about another device is told that it is not known: the address asked for is echoed,
// and the other is all ones.
fn on_nwk_addr(
    ieee_addr: IeeeAddress,
    nwk_addr: ShortAddress,
    payload: &[u8],
    out: &mut [u8],
) -> Result<usize, Refusal>
    ensures { Wrote (and_then (nwk_addr_req_in payload.now) (on_nwk_addr ieee_addr nwk_addr)) out.old (says result) out.new }
{
    let request = parse_nwk_addr_req(payload)?;
    let asked = request.ieee_addr;
    if asked == ieee_addr {
        return our_address(ieee_addr, nwk_addr, request.seq, request.request_type, out);
    }
    let error = DiscoveryError::DeviceNotFound;
    addr_rsp_error(request.seq, error, asked, ShortAddress(0xFFFF), out)
}

// Replies to an IEEE_addr_req (2.4.3.1.2). One about another device is told the same.
fn on_ieee_addr(
    ieee_addr: IeeeAddress,
    nwk_addr: ShortAddress,
    payload: &[u8],
    out: &mut [u8],
) -> Result<usize, Refusal>
    ensures { Wrote (and_then (ieee_addr_req_in payload.now) (on_ieee_addr ieee_addr nwk_addr)) out.old (says result) out.new }
{
    let request = parse_ieee_addr_req(payload)?;
    let asked = request.nwk_addr_of_interest;
    if asked == nwk_addr {
        return our_address(ieee_addr, nwk_addr, request.seq, request.request_type, out);
    }
    let error = DiscoveryError::DeviceNotFound;
    let unknown = IeeeAddress(0xFFFF_FFFF_FFFF_FFFF);
    addr_rsp_error(request.seq, error, unknown, asked, out)
}

// ---- descriptors and lists. Each handler has the same steps over what it goes by. (One over them all would take two functions that
// write to one buffer, and say in its contract what both write.)

// Why a node does not answer for another short address, by its type. A reserved type is neither a router nor a coordinator.
fn not_ours(node: NodeDescriptorConfig) -> DiscoveryError
    ensures { discovery_code result ≡ not_ours node.logical_type }
{
    let logical_type = node.logical_type;
    match logical_type {
        LogicalType::Coordinator => DiscoveryError::DeviceNotFound,
        LogicalType::Router => DiscoveryError::DeviceNotFound,
        LogicalType::EndDevice => DiscoveryError::InvalidRequestType,
        LogicalType::Reserved(_) => DiscoveryError::InvalidRequestType,
    }
}

// Replies to a Node_Desc_req (2.4.3.1.3).
fn on_node(
    node: NodeDescriptorConfig,
    nwk_addr: ShortAddress,
    payload: &[u8],
    out: &mut [u8],
) -> Result<usize, Refusal>
    ensures { Wrote (and_then (addr_of_interest_req_in payload.now) (on_node node nwk_addr)) out.old (says result) out.new }
{
    let request = parse_addr_of_interest_req(payload)?;
    let asked = request.nwk_addr_of_interest;
    if asked == nwk_addr {
        return node_desc_rsp(node, request.seq, asked, out);
    }
    descriptor_rsp_error(request.seq, not_ours(node), asked, out)
}

// Replies to a Power_Desc_req (2.4.3.1.4).
fn on_power(
    node: NodeDescriptorConfig,
    power: PowerDescriptorConfig,
    nwk_addr: ShortAddress,
    payload: &[u8],
    out: &mut [u8],
) -> Result<usize, Refusal>
    ensures { Wrote (and_then (addr_of_interest_req_in payload.now) (on_power node.logical_type power nwk_addr)) out.old (says result) out.new }
{
    let request = parse_addr_of_interest_req(payload)?;
    let asked = request.nwk_addr_of_interest;
    if asked == nwk_addr {
        return power_desc_rsp(power, request.seq, asked, out);
    }
    descriptor_rsp_error(request.seq, not_ours(node), asked, out)
}

// Replies to a Simple_Desc_req (2.4.3.1.5).
fn on_simple(
    tables: Tables,
    nwk_addr: ShortAddress,
    payload: &[u8],
    out: &mut [u8],
) -> Result<usize, Refusal>
    ensures { Wrote (and_then (simple_desc_req_in payload.now) (on_simple (pools_of tables.entry.pools) tables.entry.device.now nwk_addr)) out.old (says result) out.new }
{
    let request = parse_simple_desc_req(payload)?;
    let asked = request.nwk_addr_of_interest;
    if asked == nwk_addr {
        return simple_desc_rsp_checked(tables, request.seq, asked, request.endpoint, out);
    }
    simple_desc_rsp_error(request.seq, not_ours(tables.device.node), asked, out)
}

// Replies to an Active_EP_req (2.4.3.1.6).
fn on_active(
    tables: Tables,
    nwk_addr: ShortAddress,
    payload: &[u8],
    out: &mut [u8],
) -> Result<usize, Refusal>
    ensures { Wrote (and_then (addr_of_interest_req_in payload.now) (on_active tables.entry.device.now nwk_addr)) out.old (says result) out.new }
{
    let request = parse_addr_of_interest_req(payload)?;
    let asked = request.nwk_addr_of_interest;
    if asked == nwk_addr {
        return active_ep_rsp(*tables.device, request.seq, asked, out);
    }
    active_ep_rsp_error(request.seq, not_ours(tables.device.node), asked, out)
}

// Builds the Match_Desc_rsp to a request about us: the list is made in places of its own, of which there are enough, so it is
// whole.
fn matched_rsp(tables: Tables, sought: Sought, out: &mut [u8]) -> Result<usize, Refusal>
    ensures { Wrote (list_rsp sought.entry.request.seq sought.entry.request.nwk_addr_of_interest (match_list (wanted sought.entry.request sought.entry.payload.now) (resolved_in (pools_of tables.entry.pools) (used tables.entry.device.now)))) out.old (says result) out.new }
{
    let mut matches = [0u8; MATCHES];
    let matched = matching_endpoints_checked(tables, sought, &mut matches);
    let written = matched.written;
    let request = sought.request;
    let asked = request.nwk_addr_of_interest;
    match_desc_rsp(request.seq, asked, &matches[..written], out)
}

// Replies to a Match_Desc_req (2.4.3.1.7).
fn on_match(
    tables: Tables,
    nwk_addr: ShortAddress,
    payload: &[u8],
    out: &mut [u8],
) -> Result<usize, Refusal>
    ensures { Wrote (and_then (match_desc_req_in payload.now) (on_match tables.entry.device.now.node.logical_type (resolved_in (pools_of tables.entry.pools) (used tables.entry.device.now)) nwk_addr payload.now)) out.old (says result) out.new }
{
    let request = parse_match_desc_req(payload)?;
    if request.nwk_addr_of_interest == nwk_addr {
        return matched_rsp(tables, Sought { request, payload }, out);
    }
    match_desc_rsp_error(request.seq, not_ours(tables.device.node), out)
}

// ---- by the cluster

// Replies to a discovery request, by its cluster; any other cluster is refused. A malformed payload is refused, then a descriptor of
// too many clusters, then too short a buffer; nothing is written in any of these cases.
pub fn discovery(host: Host, cluster: u16, payload: &[u8], out: &mut [u8]) -> Result<usize, Refusal>
    ensures { Wrote (discovery (host_of host.entry) cluster payload.now) out.old (says result) out.new }
{
    let tables = host.tables;
    let ieee_addr = host.ieee_addr;
    let nwk_addr = host.nwk_addr;
    let node = tables.device.node;
    let power = tables.device.power;
    match cluster {
        NWK_ADDR_REQ => on_nwk_addr(ieee_addr, nwk_addr, payload, out),
        IEEE_ADDR_REQ => on_ieee_addr(ieee_addr, nwk_addr, payload, out),
        NODE_DESC_REQ => on_node(node, nwk_addr, payload, out),
        POWER_DESC_REQ => on_power(node, power, nwk_addr, payload, out),
        SIMPLE_DESC_REQ => on_simple(tables, nwk_addr, payload, out),
        ACTIVE_EP_REQ => on_active(tables, nwk_addr, payload, out),
        MATCH_DESC_REQ => on_match(tables, nwk_addr, payload, out),
        _ => Err(Refusal::UnknownCluster),
    }
}
