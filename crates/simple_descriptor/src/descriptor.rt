// The writer of a simple descriptor (000, `EndpointDescriptor::write`; 2.3.2.5).
ghost use Rattle.std.specs.Prelude.{◌+◌, ◌*◌, ◌≤◌, length};
ghost use Rattle.zigbee_types.specs.Outcome.{Wrote};
ghost use Rattle.zigbee_types.specs.Answers.{says};
ghost use Rattle.zigbee_types.specs.Layout.{FieldsPut, listed};
ghost use Rattle.simple_descriptor.specs.SimpleDescriptor.{endpoint_with, simple_written};

use byte::{Field, nibble};
use zigbee_types::Refusal;

// The most clusters of a descriptor that is written (document 01, refusal 4).
const CLUSTERS: usize = 28;

// Writes the simple descriptor of an endpoint (2.3.2.5) at the front of a buffer, clusters as little-endian u16. More than 28
// clusters are refused, and then too short a buffer; nothing is written in either case.
pub fn write(
    endpoint: u8,
    profile_id: u16,
    device_id: u16,
    device_version: u8,
    input_clusters: &[u16],
    output_clusters: &[u16],
    out: &mut [u8],
) -> Result<usize, Refusal>
    ensures { Wrote (simple_written (endpoint_with endpoint profile_id device_id device_version input_clusters.now output_clusters.now)) out.old (says result) out.new }
{
    let count = input_clusters.len() + output_clusters.len();
    if count > CLUSTERS {
        return Err(Refusal::TooManyClusters);
    }
    if out.len() < 8 + 2 * count {
        return Err(Refusal::ShortBuffer);
    }
    let at = u8::write(out, 0, endpoint);
    let at = u16::write(out, at, profile_id);
    let at = u16::write(out, at, device_id);
    let at = u8::write(out, at, nibble(device_version));
    let at = write_clusters(out, at, input_clusters);
    let at = write_clusters(out, at, output_clusters);
    Ok(at)
}

// Puts a list of clusters at a place: how many, then two bytes each.
fn write_clusters(out: &mut [u8], at: usize, clusters: &[u16]) -> usize
    requires { (length clusters.now ≤ 255) × (at + 1 + 2 * length clusters.now ≤ length out.old) }
    ensures { FieldsPut (listed 2 clusters.now) out.old at result out.new }
{
    let mut at = u8::write(out, at, clusters.len() as u8);
    for &cluster in clusters {
        at = u16::write(out, at, cluster);
    }
    at
}
