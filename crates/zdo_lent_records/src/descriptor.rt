// Matching and the active list over a lent run of endpoint records (000; document 01, "Device tables and sizes"): the same answers as
// over a device that holds them.
ghost use Rattle.std.specs.Prelude.{◌≡◌, take};
ghost use Rattle.zigbee_types.specs.Outcome.{Wrote, Begun};
ghost use Rattle.zigbee_types.specs.Answers.{says};
ghost use Rattle.zdo_device.specs.Tables.{good_records};
ghost use Rattle.zdo_device.specs.Checked.{pools_of};
ghost use Rattle.zdo_matching.specs.Matching.{matched_records};
ghost use Rattle.zdo_matching.specs.Answers.{matching_says};
ghost use Rattle.zdo_device_rsp.specs.TableReplies.{active_records};

use byte::Field;
use zdo_device::descriptor::{EndpointDescriptor, Pools, good_sizes};
use zdo_device_rsp::descriptor::begin_active_ep_rsp;
use zdo_matching::descriptor::{Matched, match_record};
use zdo_matching::sought::Sought;
use zdo_requests::descriptor::MatchDescReq;
use zigbee_types::{Refusal, ShortAddress};

// The most records that can be lent from an array: one more than a run may have.
const LENT: usize = 33;

// ---- over a lent run

// Whether a run of records is good, with these pools (document 01, refusal 1).
pub fn good_records(endpoints: &[EndpointDescriptor], lent: Pools) -> bool
    ensures { result ≡ good_records (pools_of lent.entry) endpoints.now }
{
    if !good_sizes(endpoints.len(), lent.inputs.len(), lent.outputs.len()) {
        return false;
    }
    endpoints.iter().all(|ep| ep.fits(lent))
}

// Writes the endpoints matching the request (2.4.4.2.7.1.1) at the front of `out`, as `matching_endpoints` does. A bad run is refused,
// and then lists that run past the payload; nothing is written in either case.
pub fn matching_endpoints_lent(
    endpoints: &[EndpointDescriptor],
    lent: Pools,
    request: MatchDescReq,
    payload: &[u8],
    out: &mut [u8],
) -> Result<Matched, Refusal>
    ensures { Begun (matched_records (pools_of lent.entry) endpoints.now request payload.now) out.old (matching_says result) out.new }
{
    if !good_records(endpoints, lent) {
        return Err(Refusal::BadTables);
    }
    let Some(sought) = Sought::checked(request, payload) else {
        return Err(Refusal::Malformed);
    };
    let mut matched = Matched { written: 0 };
    for ep in endpoints {
        matched = match_record(matched, *ep, lent, sought, out);
    }
    Ok(matched)
}

// Builds an Active_EP_rsp (2.4.4.2.6), as `active_ep_rsp` does. A run of more than 32 is refused, and then too short a buffer; nothing
// is written in either case.
pub fn active_ep_rsp_lent(
    endpoints: &[EndpointDescriptor],
    seq: u8,
    nwk_addr: ShortAddress,
    out: &mut [u8],
) -> Result<usize, Refusal>
    ensures { Wrote (active_records seq nwk_addr endpoints.now) out.old (says result) out.new }
{
    let mut at = begin_active_ep_rsp(endpoints.len(), seq, nwk_addr, out)?;
    for ep in endpoints {
        at = u8::write(out, at, ep.endpoint);
    }
    Ok(at)
}

// ---- a run that is lent from an array, with a count beside it: for code that holds records by value (document 01's form, no heap)

// Lends the first records of an array to matching (2.4.4.2.7.1.1): for those who hold them by value.
pub fn lend_matching_endpoints(
    endpoints: [EndpointDescriptor; 33],
    count: usize,
    lent: Pools,
    request: MatchDescReq,
    payload: &[u8],
    out: &mut [u8],
) -> Result<Matched, Refusal>
    ensures { Begun (matched_records (pools_of lent.entry) (take count endpoints) request payload.now) out.old (matching_says result) out.new }
{
    matching_endpoints_lent(&endpoints[..count.min(LENT)], lent, request, payload, out)
}

// Lends them to the active list (2.4.4.2.6).
pub fn lend_active_ep_rsp(
    endpoints: [EndpointDescriptor; 33],
    count: usize,
    seq: u8,
    nwk_addr: ShortAddress,
    out: &mut [u8],
) -> Result<usize, Refusal>
    ensures { Wrote (active_records seq nwk_addr (take count endpoints)) out.old (says result) out.new }
{
    active_ep_rsp_lent(&endpoints[..count.min(LENT)], seq, nwk_addr, out)
}
