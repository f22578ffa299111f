// Matching of a request with the device's records (000; document 01, "Matching").
ghost use Rattle.std.specs.Prelude.{◌≤◌, ◌≡◌, true, leb, length};
ghost use Rattle.zigbee_types.specs.Outcome.{answer, Begun};
ghost use Rattle.zigbee_types.specs.Layout.{behind, entries_at};
ghost use Rattle.zdo_device.specs.Tables.{used, endpoint_of, resolved_in};
ghost use Rattle.zdo_device.specs.Checked.{pools_of};
ghost use Rattle.zdo_matching.specs.Matching.{wanted, profile_matches, shared, matches, match_list, good_places, matching_endpoints, may_match, matched_with};
ghost use Rattle.zdo_matching.specs.Answers.{matching_says};

use crate::sought::Sought;
use byte::Field;
use zdo_device::descriptor::{DeviceDescriptorConfig, EndpointDescriptor, Pools, Side};
use zdo_device::tables::{Record, Tables};
use zdo_requests::descriptor::MatchDescReq;
use zigbee_types::{Places, Refusal};

// The profile that stands for every profile (2.4.4.2.7), under the Rust's name.
const WILDCARD_PROFILE_ID: u16 = 0xFFFF;

// What matching found: how many endpoint numbers were written.
#[derive(Clone, Copy)]
pub struct Matched {
    pub written: usize,
}

// Writes the endpoints matching the request (2.4.4.2.7.1.1) at the front of `out`, in table order, as many as there is room for;
// what stands behind them stays. The request's lists stand in the payload. Bad tables are refused, and then lists that run past the
// payload; nothing is written in either case.
pub fn matching_endpoints(
    device: DeviceDescriptorConfig,
    lent: Pools,
    request: MatchDescReq,
    payload: &[u8],
    out: &mut [u8],
) -> Result<Matched, Refusal>
    ensures { Begun (matching_endpoints (pools_of lent.entry) device request payload.now) out.old (matching_says result) out.new }
{
    let Some(tables) = Tables::checked(&device, lent) else {
        return Err(Refusal::BadTables);
    };
    let Some(sought) = Sought::checked(request, payload) else {
        return Err(Refusal::Malformed);
    };
    Ok(matching_endpoints_checked(tables, sought, out))
}

// The same, of tables and lists that were checked.
pub fn matching_endpoints_checked(tables: Tables, sought: Sought, out: &mut [u8]) -> Matched
    ensures { Begun (answer (match_list (wanted sought.entry.request sought.entry.payload.now) (resolved_in (pools_of tables.entry.pools) (used tables.entry.device.now)))) out.old (answer result.written) out.new }
{
    let device = tables.device;
    let mut matched = Matched { written: 0 };
    for ep in &device.endpoints[..device.endpoint_count] {
        matched = match_record(matched, *ep, tables.pools, sought, out);
    }
    matched
}

// What was found, with one record more (2.4.4.2.7.1.1): where that matches, its number goes behind those that stand in `out`, if there
// is room.
pub fn match_record(
    matched: Matched,
    ep: EndpointDescriptor,
    lent: Pools,
    sought: Sought,
    out: &mut [u8],
) -> Matched
    requires { may_match (pools_of lent) ep sought.request sought.payload.now (length out.old) (answer matched.written) ≡ true }
    ensures { Begun (matched_with (wanted sought.entry.request sought.entry.payload.now) (endpoint_of (pools_of lent.entry) ep) out.old (answer matched.written)) out.old (answer result.written) out.new }
{
    let written = matched.written;
    if !record_matches(Record { ep, pools: lent }, sought) {
        return matched;
    }
    if written >= out.len() {
        return matched;
    }
    out[written] = ep.endpoint;
    Matched {
        written: written + 1,
    }
}

// Whether a record matches: its profile, and an input or an output that is asked for.
fn record_matches(row: Record, sought: Sought) -> bool
    ensures { result ≡ matches (wanted sought.entry.request sought.entry.payload.now) (endpoint_of (pools_of row.entry.pools) row.entry.ep) }
{
    let request = sought.request;
    let payload = sought.payload;
    if !profile_matches(request.profile_id, row.ep.profile_id) {
        return false;
    }
    let requested = request.input_clusters;
    let own = row.clusters(Side::Input);
    if shares(payload, requested, own) {
        return true;
    }
    let requested = request.output_clusters;
    let own = row.clusters(Side::Output);
    shares(payload, requested, own)
}

// Whether a requested profile is a record's own, or stands for every profile.
fn profile_matches(profile_id: u16, own: u16) -> bool
    ensures { result ≡ profile_matches profile_id own }
{
    (profile_id == WILDCARD_PROFILE_ID) | (profile_id == own)
}

// Whether some requested cluster is among a record's own. The search stops at the first that both sides share. (Document 01's form: "nested
// loops over requested and own clusters, left by a label".)
fn shares(payload: &[u8], requested: Places, own: &[u16]) -> bool
    requires { behind 2 requested ≤ length payload.now }
    ensures { result ≡ shared (entries_at 2 payload.now requested) own.now }
{
    let mut found = false;
    'search: for k in 0..requested.count {
        let asked = u16::read(payload, requested.start + 2 * k);
        for cluster in own {
            if *cluster == asked.value {
                found = true;
                break 'search;
            }
        }
    }
    found
}

// Whether a request's two lists lie within the payload (document 01, refusal 3).
pub fn good_places(request: MatchDescReq, payload: &[u8]) -> bool
    ensures { result ≡ good_places request payload.now }
{
    let input_clusters = request.input_clusters;
    let output_clusters = request.output_clusters;
    let length = payload.len();
    within(input_clusters, length) & within(output_clusters, length)
}

// Whether a list of clusters ends within so many bytes. The end itself may be too large a number for the machine.
fn within(list: Places, length: usize) -> bool
    ensures { result ≡ leb (behind 2 list) length }
{
    if list.start > length {
        return false;
    }
    list.count <= (length - list.start) / 2
}
