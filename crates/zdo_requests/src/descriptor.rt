// Requests as they are parsed, and the one that is written (000).
ghost use Rattle.std.specs.Prelude.{◌≡◌};
ghost use Rattle.zigbee_types.specs.Outcome.{Wrote};
ghost use Rattle.zigbee_types.specs.Answers.{says};
ghost use Rattle.zdo_requests.specs.Requests.{nwk_addr_req_in, ieee_addr_req_in, addr_of_interest_req_in, addr_of_interest_in, simple_desc_req_in, node_desc_req, binding_of};

use aps_binding::binding::Binding;
use byte::Field;
use zigbee_types::{GroupAddress, IeeeAddress, Places, Refusal, ShortAddress};

// ZDP request cluster identifiers (2.4.3). (Numbers under the Rust's names, here and below: a request may have any other number.)
pub const NWK_ADDR_REQ: u16 = 0x0000;

pub const IEEE_ADDR_REQ: u16 = 0x0001;

pub const NODE_DESC_REQ: u16 = 0x0002;

pub const POWER_DESC_REQ: u16 = 0x0003;

pub const SIMPLE_DESC_REQ: u16 = 0x0004;

pub const ACTIVE_EP_REQ: u16 = 0x0005;

pub const MATCH_DESC_REQ: u16 = 0x0006;

pub const BIND_REQ: u16 = 0x0021;

pub const UNBIND_REQ: u16 = 0x0022;

pub const MGMT_LEAVE_REQ: u16 = 0x0034;

// ZDP response cluster identifiers (2.4.4): request id + 0x8000.
pub const NWK_ADDR_RSP: u16 = 0x8000;

pub const IEEE_ADDR_RSP: u16 = 0x8001;

pub const NODE_DESC_RSP: u16 = 0x8002;

pub const POWER_DESC_RSP: u16 = 0x8003;

pub const SIMPLE_DESC_RSP: u16 = 0x8004;

pub const ACTIVE_EP_RSP: u16 = 0x8005;

pub const MATCH_DESC_RSP: u16 = 0x8006;

pub const BIND_RSP: u16 = 0x8021;

pub const UNBIND_RSP: u16 = 0x8022;

pub const MGMT_LEAVE_RSP: u16 = 0x8034;

// Address request type: report only the addressed device (2.4.3.1.1).
pub const ADDR_REQUEST_SINGLE: u8 = 0x00;

// Address request type: also report the associated devices (2.4.3.1.1).
pub const ADDR_REQUEST_EXTENDED: u8 = 0x01;

// A parsed NWK_addr_req (2.4.3.1.1).
#[derive(Clone, Copy, PartialEq, Eq, Debug)]
pub struct NwkAddrReq {
    // ZDP transaction sequence number to echo in the response.
    pub seq: u8,
    // The address the responder must match against its own.
    pub ieee_addr: IeeeAddress,
    pub request_type: u8,
}

// A parsed IEEE_addr_req (2.4.3.1.2).
#[derive(Clone, Copy, PartialEq, Eq, Debug)]
pub struct IeeeAddrReq {
    pub seq: u8,
    // The address the responder must match against its own.
    pub nwk_addr_of_interest: ShortAddress,
    pub request_type: u8,
}

// A parsed Node_Desc_req, Power_Desc_req or Active_EP_req (2.4.3.1.3, 2.4.3.1.4, 2.4.3.1.6). (The Rust reads the address
// alone.)
#[derive(Clone, Copy, PartialEq, Eq, Debug)]
pub struct AddrOfInterestReq {
    pub seq: u8,
    pub nwk_addr_of_interest: ShortAddress,
}

// A parsed Simple_Desc_req (2.4.3.1.5). (Added: the Rust reads the address alone.)
#[derive(Clone, Copy, PartialEq, Eq, Debug)]
pub struct SimpleDescReq {
    pub seq: u8,
    pub nwk_addr_of_interest: ShortAddress,
    pub endpoint: u8,
}

// A parsed Match_Desc_req (2.4.3.1.7), its two lists as places in the payload.
#[derive(Clone, Copy)]
pub struct MatchDescReq {
    pub seq: u8,
    pub nwk_addr_of_interest: ShortAddress,
    pub profile_id: u16,
    pub input_clusters: Places,
    pub output_clusters: Places,
}

// A parsed Bind_req or Unbind_req (2.4.3.2.2, 2.4.3.2.3).
#[derive(Clone, Copy, PartialEq, Eq, Debug)]
pub struct BindReq {
    pub seq: u8,
    // Device the binding applies to; must be this device.
    pub src_address: IeeeAddress,
    pub src_endpoint: u8,
    pub cluster_id: u16,
    pub destination: BindReqDestination,
}

// Destination of a Bind_req, by addressing mode (2.4.3.2.2).
#[derive(Clone, Copy, PartialEq, Eq, Debug)]
pub enum BindReqDestination {
    Group(GroupAddress),
    Device { ieee: IeeeAddress, endpoint: u8 },
}

impl BindReq {
    // The entry that the request names. (Added: the Rust's files have none. A method and no `From`, as `stack_revision` is one.)
    pub fn binding(self) -> Binding
        ensures { result ≡ binding_of self }
    {
        let destination = self.destination;
        match destination {
            BindReqDestination::Group(group) => {
                Binding::group(self.src_endpoint, self.cluster_id, group)
            }
            BindReqDestination::Device { ieee, endpoint } => {
                Binding::device(self.src_endpoint, self.cluster_id, ieee, endpoint)
            }
        }
    }
}

// A parsed Mgmt_Leave_req (2.4.3.3.5).
#[derive(Clone, Copy, PartialEq, Eq, Debug)]
pub struct MgmtLeaveReq {
    pub seq: u8,
    // Device to remove; `None` for the NULL address, which targets the recipient itself.
    pub device_address: Option<IeeeAddress>,
    pub remove_children: bool,
    pub rejoin: bool,
}

// ---- addresses. Each parser is the Rust's: its own fields, in their order.

// Parses a NWK_addr_req (2.4.3.1.1): seq, IEEEAddress(8), RequestType(1). StartIndex is not read.
pub fn parse_nwk_addr_req(asdu: &[u8]) -> Result<NwkAddrReq, Refusal>
    ensures { says result ≡ nwk_addr_req_in asdu.now }
{
    if asdu.len() < 10 {
        return Err(Refusal::Malformed);
    }
    let seq = u8::read(asdu, 0);
    let ieee_addr = u64::read(asdu, seq.next);
    let request_type = u8::read(asdu, ieee_addr.next);
    Ok(NwkAddrReq {
        seq: seq.value,
        ieee_addr: IeeeAddress(ieee_addr.value),
        request_type: request_type.value,
    })
}

// Parses an IEEE_addr_req (2.4.3.1.2): seq, NWKAddrOfInterest(2), RequestType(1). StartIndex is not read.
pub fn parse_ieee_addr_req(asdu: &[u8]) -> Result<IeeeAddrReq, Refusal>
    ensures { says result ≡ ieee_addr_req_in asdu.now }
{
    if asdu.len() < 4 {
        return Err(Refusal::Malformed);
    }
    let seq = u8::read(asdu, 0);
    let nwk_addr_of_interest = u16::read(asdu, seq.next);
    let request_type = u8::read(asdu, nwk_addr_of_interest.next);
    Ok(IeeeAddrReq {
        seq: seq.value,
        nwk_addr_of_interest: ShortAddress(nwk_addr_of_interest.value),
        request_type: request_type.value,
    })
}

// ---- the address of interest

// Parses a Node_Desc_req, Power_Desc_req or Active_EP_req (2.4.3.1.3, 2.4.3.1.4, 2.4.3.1.6): seq, NWKAddrOfInterest(2).
#[tactic(auto, using(zigbee_types::proofs::Runs::run_short), unfolding(zigbee_types::specs::Layout::size, crate::specs::Requests::addr_of_interest_widths, crate::specs::Requests::addr_of_interest_req_in, zigbee_types::specs::Answers::says))]
pub fn parse_addr_of_interest_req(asdu: &[u8]) -> Result<AddrOfInterestReq, Refusal>
    ensures { says result ≡ addr_of_interest_req_in asdu.now }
{
    if asdu.len() < 3 {
        return Err(Refusal::Malformed);
    }
    let seq = u8::read(asdu, 0);
    let nwk_addr_of_interest = u16::read(asdu, seq.next);
    Ok(AddrOfInterestReq {
        seq: seq.value,
        nwk_addr_of_interest: ShortAddress(nwk_addr_of_interest.value),
    })
}

// Reads the NWKAddrOfInterest a discovery request is about (2.4.3.1.3 to 2.4.3.1.6); of a simple request it needs no endpoint.
pub fn parse_addr_of_interest(asdu: &[u8]) -> Result<ShortAddress, Refusal>
    ensures { says result ≡ addr_of_interest_in asdu.now }
{
    let request = parse_addr_of_interest_req(asdu)?;
    let nwk_addr_of_interest = request.nwk_addr_of_interest;
    Ok(nwk_addr_of_interest)
}

// Parses a Simple_Desc_req (2.4.3.1.5): seq, NWKAddrOfInterest(2), EndPoint(1). (An IEEE_addr_req's reads, into the type and the fields
// that the Rust names.)
pub fn parse_simple_desc_req(asdu: &[u8]) -> Result<SimpleDescReq, Refusal>
    ensures { says result ≡ simple_desc_req_in asdu.now }
{
    if asdu.len() < 4 {
        return Err(Refusal::Malformed);
    }
    let seq = u8::read(asdu, 0);
    let nwk_addr_of_interest = u16::read(asdu, seq.next);
    let endpoint = u8::read(asdu, nwk_addr_of_interest.next);
    Ok(SimpleDescReq {
        seq: seq.value,
        nwk_addr_of_interest: ShortAddress(nwk_addr_of_interest.value),
        endpoint: endpoint.value,
    })
}

// Writes a Node_Desc_req (2.4.3.1.3) at the front of a buffer: seq, NWKAddrOfInterest(2). Too short a buffer is refused, and
// nothing is written. (The place is passed and returned, document 01's form.)
#[tactic(auto, using(zigbee_types::proofs::Runs::run_cut), unfolding(zigbee_types::specs::Outcome::mapped, zigbee_types::specs::Outcome::written, zigbee_types::specs::Answers::says, zigbee_types::specs::Layout::size, crate::specs::Requests::addr_of_interest_fields, crate::specs::Requests::node_desc_req))]
pub fn node_desc_req(
    seq: u8,
    nwk_addr_of_interest: ShortAddress,
    out: &mut [u8],
) -> Result<usize, Refusal>
    ensures { Wrote (node_desc_req seq nwk_addr_of_interest) out.old (says result) out.new }
{
    if out.len() < 3 {
        return Err(Refusal::ShortBuffer);
    }
    let at = u8::write(out, 0, seq);
    let at = u16::write(out, at, nwk_addr_of_interest.0);
    Ok(at)
}
