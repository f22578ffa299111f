// The simple descriptor as it is read (2.3.2.5).
#![tactic(auto)]

pub mod descriptor;

ghost use Rattle.std.specs.Prelude.{◌≡◌, ◌≤◌, length};
ghost use Rattle.zigbee_types.specs.Layout.{field_of};
ghost use Rattle.simple_descriptor.specs.SimpleDescriptor.{simple_widths, simple_of, simple_descriptor_in};
ghost use Rattle.zigbee_types.specs.Answers.{says};

use byte::{Field, nibble};
use zigbee_types::{ClusterLists, Places, Refusal};

// A simple descriptor's fields, its two cluster lists as places in the bytes that it was read from.
#[derive(Clone, Copy)]
pub struct SimpleDescriptorFields {
    pub endpoint: u8,
    pub profile_id: u16,
    pub device_id: u16,
    pub device_version: u8,
    pub input_clusters: Places,
    pub output_clusters: Places,
}

impl SimpleDescriptorFields {
    // Reads the descriptor at the front of bytes, two for each cluster (2.3.2.5).
    pub fn try_read(bytes: &[u8]) -> Result<SimpleDescriptorFields, Refusal>
        ensures { says result ≡ simple_descriptor_in bytes.now }
    {
        let lists = cluster_lists::try_read(bytes, 6)?;
        Ok(SimpleDescriptorFields::read(bytes, lists))
    }

    // The descriptor that has these lists, its other fields read from before them.
    fn read(bytes: &[u8], lists: ClusterLists) -> SimpleDescriptorFields
        requires { 6 ≤ length bytes.now }
        ensures { result ≡ simple_of (field_of simple_widths bytes.now) lists }
    {
        let endpoint = u8::read(bytes, 0);
        let profile_id = u16::read(bytes, endpoint.next);
        let device_id = u16::read(bytes, profile_id.next);
        let device_version = u8::read(bytes, device_id.next);
        let input_clusters = lists.input_clusters;
        let output_clusters = lists.output_clusters;
        SimpleDescriptorFields {
            endpoint: endpoint.value,
            profile_id: profile_id.value,
            device_id: device_id.value,
            device_version: nibble(device_version.value),
            input_clusters,
            output_clusters,
        }
    }
}
