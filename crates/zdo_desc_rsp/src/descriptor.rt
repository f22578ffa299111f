// Node and power replies, and the errors of these, of active and of simple (000).
ghost use Rattle.std.specs.Prelude.{◌≤◌, length};
ghost use Rattle.zigbee_types.specs.Outcome.{Wrote};
ghost use Rattle.zigbee_types.specs.Answers.{says};
ghost use Rattle.zigbee_types.specs.Layout.{FieldsPut};
ghost use Rattle.zdo_replies.specs.Codes.{discovery_code};
ghost use Rattle.zdo_replies.specs.Replies.{header, node_desc_rsp, power_desc_rsp, descriptor_rsp_error, empty_rsp};

use byte::Field;
use node_descriptor::descriptor::NodeDescriptorConfig;
use node_power_descriptor::descriptor::PowerDescriptorConfig;
use zdo_replies::descriptor::{DiscoveryError, STATUS_SUCCESS};
use zigbee_types::{Refusal, ShortAddress};

// ---- node and power

// Puts at the front of a buffer what most replies begin with: seq, status, NWKAddrOfInterest. The replies that call it have tested
// the room.
pub fn write_header(out: &mut [u8], seq: u8, status: u8, nwk_addr: ShortAddress) -> usize
    requires { 4 ≤ length out.old }
    ensures { FieldsPut (header seq status nwk_addr) out.old 0 result out.new }
{
    let at = u8::write(out, 0, seq);
    let at = u8::write(out, at, status);
    u16::write(out, at, nwk_addr.0)
}

// Builds a Node_Desc_rsp (2.4.4.2.3): seq, status, NWKAddrOfInterest, node descriptor. Too short a buffer is refused, here as in
// every writer below, and nothing is written.
pub fn node_desc_rsp(
    node: NodeDescriptorConfig,
    seq: u8,
    nwk_addr: ShortAddress,
    out: &mut [u8],
) -> Result<usize, Refusal>
    ensures { Wrote (node_desc_rsp seq nwk_addr node) out.old (says result) out.new }
{
    if out.len() < 17 {
        return Err(Refusal::ShortBuffer);
    }
    let at = write_header(out, seq, STATUS_SUCCESS, nwk_addr);
    Ok(at + node.write(&mut out[at..])?)
}

// Builds a Power_Desc_rsp (2.4.4.2.4): seq, status, NWKAddrOfInterest, power descriptor.
// (One function for both is no plainer: it would take the descriptor's writer and say in its contract what that writes, in more lines.)
pub fn power_desc_rsp(
    power: PowerDescriptorConfig,
    seq: u8,
    nwk_addr: ShortAddress,
    out: &mut [u8],
) -> Result<usize, Refusal>
    ensures { Wrote (power_desc_rsp seq nwk_addr power) out.old (says result) out.new }
{
    if out.len() < 6 {
        return Err(Refusal::ShortBuffer);
    }
    let at = write_header(out, seq, STATUS_SUCCESS, nwk_addr);
    Ok(at + power.write(&mut out[at..])?)
}

// Builds a Node_Desc_rsp or Power_Desc_rsp reporting an error (2.4.4.2.3, 2.4.4.2.4): seq, status, NWKAddrOfInterest; the
// descriptor is only present on success.
#[tactic(auto, using(zigbee_types::proofs::Runs::run_cut), unfolding(zigbee_types::specs::Outcome::mapped, zigbee_types::specs::Outcome::written, zigbee_types::specs::Answers::says, zigbee_types::specs::Layout::size, zdo_replies::specs::Replies::header, zdo_replies::specs::Replies::descriptor_rsp_error))]
pub fn descriptor_rsp_error(
    seq: u8,
    error: DiscoveryError,
    nwk_addr_of_interest: ShortAddress,
    out: &mut [u8],
) -> Result<usize, Refusal>
    ensures { Wrote (descriptor_rsp_error seq (discovery_code error) nwk_addr_of_interest) out.old (says result) out.new }
{
    if out.len() < 4 {
        return Err(Refusal::ShortBuffer);
    }
    let at = write_header(out, seq, error.code(), nwk_addr_of_interest);
    Ok(at)
}

// ---- active and simple

// Builds a reply that carries a zero in place of its list or descriptor.
pub fn empty_rsp(
    seq: u8,
    status: u8,
    nwk_addr: ShortAddress,
    out: &mut [u8],
) -> Result<usize, Refusal>
    ensures { Wrote (empty_rsp seq status nwk_addr) out.old (says result) out.new }
{
    if out.len() < 5 {
        return Err(Refusal::ShortBuffer);
    }
    let at = write_header(out, seq, status, nwk_addr);
    let at = u8::write(out, at, 0);
    Ok(at)
}

// Builds an Active_EP_rsp reporting an error (2.4.4.2.6), which carries a zero endpoint count in place of the endpoint list.
pub fn active_ep_rsp_error(
    seq: u8,
    error: DiscoveryError,
    nwk_addr_of_interest: ShortAddress,
    out: &mut [u8],
) -> Result<usize, Refusal>
    ensures { Wrote (empty_rsp seq (discovery_code error) nwk_addr_of_interest) out.old (says result) out.new }
{
    empty_rsp(seq, error.code(), nwk_addr_of_interest, out)
}

// Builds a Simple_Desc_rsp reporting an error (2.4.4.2.5), which carries a zero descriptor length in place of the descriptor. (The Rust
// has a name for each of the two; what they share is `empty_rsp`.)
pub fn simple_desc_rsp_error(
    seq: u8,
    error: DiscoveryError,
    nwk_addr_of_interest: ShortAddress,
    out: &mut [u8],
) -> Result<usize, Refusal>
    ensures { Wrote (empty_rsp seq (discovery_code error) nwk_addr_of_interest) out.old (says result) out.new }
{
    empty_rsp(seq, error.code(), nwk_addr_of_interest, out)
}
