// Address replies (000).
ghost use Rattle.std.specs.Prelude.{◌≤◌, length};
ghost use Rattle.zigbee_types.specs.Outcome.{Wrote};
ghost use Rattle.zigbee_types.specs.Answers.{says};
ghost use Rattle.zigbee_types.specs.Layout.{FieldsPut};
ghost use Rattle.zdo_replies.specs.Codes.{discovery_code};
ghost use Rattle.zdo_replies.specs.Replies.{addr_header, addr_rsp_single, addr_rsp};

use byte::Field;
use zdo_replies::descriptor::{DiscoveryError, STATUS_SUCCESS};
use zigbee_types::{IeeeAddress, Refusal, ShortAddress};

// Puts at the front of a buffer what an address reply begins with: seq, status, IEEEAddrRemoteDev, NWKAddrRemoteDev.
fn write_addr_header(
    out: &mut [u8],
    seq: u8,
    status: u8,
    ieee_addr: IeeeAddress,
    nwk_addr: ShortAddress,
) -> usize
    requires { 12 ≤ length out.old }
    ensures { FieldsPut (addr_header seq status ieee_addr nwk_addr) out.old 0 result out.new }
{
    let at = u8::write(out, 0, seq);
    let at = u8::write(out, at, status);
    let at = u64::write(out, at, ieee_addr.0);
    u16::write(out, at, nwk_addr.0)
}

// Builds an address reply without associated-device fields.
fn addr_rsp_single(
    seq: u8,
    status: u8,
    ieee_addr: IeeeAddress,
    nwk_addr: ShortAddress,
    out: &mut [u8],
) -> Result<usize, Refusal>
    ensures { Wrote (addr_rsp_single seq status ieee_addr nwk_addr) out.old (says result) out.new }
{
    if out.len() < 12 {
        return Err(Refusal::ShortBuffer);
    }
    let at = write_addr_header(out, seq, status, ieee_addr, nwk_addr);
    Ok(at)
}

// Builds a NWK_addr_rsp or IEEE_addr_rsp (2.4.4.2.1, 2.4.4.2.2). An extended response adds NumAssocDev and StartIndex; this
// device reports no associated devices, as only a parent keeps that list. Too short a buffer is refused, here as in every writer
// below, and nothing is written.
pub fn addr_rsp(
    seq: u8,
    ieee_addr: IeeeAddress,
    nwk_addr: ShortAddress,
    extended: bool,
    out: &mut [u8],
) -> Result<usize, Refusal>
    ensures { Wrote (addr_rsp seq ieee_addr nwk_addr extended) out.old (says result) out.new }
{
    if !extended {
        return addr_rsp_single(seq, STATUS_SUCCESS, ieee_addr, nwk_addr, out);
    }
    if out.len() < 14 {
        return Err(Refusal::ShortBuffer);
    }
    let at = write_addr_header(out, seq, STATUS_SUCCESS, ieee_addr, nwk_addr);
    // NumAssocDev, StartIndex; the device list is empty
    let at = u8::write(out, at, 0);
    let at = u8::write(out, at, 0);
    Ok(at)
}

// Builds a NWK_addr_rsp or IEEE_addr_rsp reporting an error (2.4.4.2.1, 2.4.4.2.2): the associated-device fields are omitted, the echoed
// addresses are not.
pub fn addr_rsp_error(
    seq: u8,
    error: DiscoveryError,
    ieee_addr: IeeeAddress,
    nwk_addr: ShortAddress,
    out: &mut [u8],
) -> Result<usize, Refusal>
    ensures { Wrote (addr_rsp_single seq (discovery_code error) ieee_addr nwk_addr) out.old (says result) out.new }
{
    addr_rsp_single(seq, error.code(), ieee_addr, nwk_addr, out)
}
