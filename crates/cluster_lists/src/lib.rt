// Two counted lists of clusters in a frame (document 01, modules 4 and 5).
#![tactic(auto)]

ghost use Rattle.std.specs.Prelude.{◌≡◌, ◌+◌, ◌≤◌, length};
ghost use Rattle.zigbee_types.specs.Layout.{ListRead, lists_in};
ghost use Rattle.zigbee_types.specs.Answers.{says};

use byte::{Field, Read};
use zigbee_types::{ClusterLists, Places, Refusal};

// The list of clusters, two bytes each, whose count is the byte at a place. The list may run past the end.
fn read_list(bytes: &[u8], at: usize) -> Read<Places>
    requires { at + 1 ≤ length bytes.now }
    ensures { ListRead 2 bytes.now at result.value result.next }
{
    let read = u8::read(bytes, at);
    let start = read.next;
    let count = read.value as usize;
    Read {
        value: Places { start, count },
        next: start + 2 * count,
    }
}

// Reads the two lists of which the first is counted at a place, the second behind it. Refused as malformed where the bytes end
// before the second does.
pub fn try_read(bytes: &[u8], at: usize) -> Result<ClusterLists, Refusal>
    ensures { says result ≡ lists_in bytes.now at }
{
    if bytes.len() <= at {
        return Err(Refusal::Malformed);
    }
    let inputs = read_list(bytes, at);
    if bytes.len() <= inputs.next {
        return Err(Refusal::Malformed);
    }
    let outputs = read_list(bytes, inputs.next);
    if bytes.len() < outputs.next {
        return Err(Refusal::Malformed);
    }
    let input_clusters = inputs.value;
    let output_clusters = outputs.value;
    Ok(ClusterLists {
        input_clusters,
        output_clusters,
    })
}
