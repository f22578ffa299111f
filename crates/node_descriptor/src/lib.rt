// The node descriptor as it is read (001; 2.3.2.3).
#![tactic(auto)]

pub mod descriptor;

ghost use Rattle.std.specs.Prelude.{◌≡◌, ◌%◌};
ghost use Rattle.node_descriptor.specs.NodeDescriptor.{type_number, type_bits, logical_type_of, node_descriptor_in, node_fields};
ghost use Rattle.zigbee_types.specs.Answers.{says};

use byte::{Field, bit_at};
use node_flags::{DescriptorCapabilities, FrequencyBands, MacCapabilities, ServerMask};
use zigbee_types::Refusal;

pub(crate) const NODE_DESCRIPTOR_SIZE: usize = 13;

// Logical type field (2.3.2.3.1): device type of the Zigbee node.
#[derive(Clone, Copy, PartialEq, Eq, Debug, Default)]
pub enum LogicalType {
    Coordinator,
    // The type of a device that says nothing else (document 01, module 2; specs/Defaults.antt).
    #[default]
    Router,
    EndDevice,
    Reserved(u8),
}

// The three bits of the logical type field (2.3.2.3.1).
fn type_bits(x: u8) -> u8
    ensures { result ≡ x % 8 }
{
    x & 0b111
}

impl LogicalType {
    // The three bits that are written for a type (2.3.2.3.1).
    pub(crate) fn bits(self) -> u8
        ensures { result ≡ type_bits self }
    {
        type_bits(self.number())
    }

    // The number of a name, or the one that is reserved: a table, as `from_bits` is one. `bits` is the Rust's name.
    fn number(self) -> u8
        ensures { result ≡ type_number self }
    {
        match self {
            LogicalType::Coordinator => 0b000,
            LogicalType::Router => 0b001,
            LogicalType::EndDevice => 0b010,
            LogicalType::Reserved(v) => v,
        }
    }

    // The type that a number names (2.3.2.3.1).
    #[tactic(auto, unfolding(crate::specs::NodeDescriptor::logical_type_of, zigbee_types::specs::Named::named, zigbee_types::specs::Lists::option, zigbee_types::specs::Lists::find))]
    fn from_bits(bits: u8) -> LogicalType
        ensures { result ≡ logical_type_of bits }
    {
        match bits {
            0b000 => LogicalType::Coordinator,
            0b001 => LogicalType::Router,
            0b010 => LogicalType::EndDevice,
            _ => LogicalType::Reserved(bits),
        }
    }
}

// A node descriptor, as it was sent: several fields share byte 0 and byte 1, and each other field has bytes of its own. (The
// Rust keeps a slice of the thirteen bytes.)
#[derive(Clone, Copy)]
pub struct NodeDescriptor {
    pub byte0: u8,
    pub byte1: u8,
    pub mac_capability_flags: u8,
    pub manufacturer_code: u16,
    pub maximum_buffer_size: u8,
    pub maximum_incoming_transfer_size: u16,
    pub server_mask: u16,
    pub maximum_outgoing_transfer_size: u16,
    pub descriptor_capability_field: u8,
}

impl NodeDescriptor {
    // Reads the descriptor at the front of bytes: thirteen, field by field (2.3.2.3).
    pub fn try_read(bytes: &[u8]) -> Result<NodeDescriptor, Refusal>
        ensures { says result ≡ node_descriptor_in bytes.now }
    {
        if bytes.len() < NODE_DESCRIPTOR_SIZE {
            return Err(Refusal::Malformed);
        }
        let byte0 = u8::read(bytes, 0);
        let byte1 = u8::read(bytes, byte0.next);
        let mac_capability_flags = u8::read(bytes, byte1.next);
        let manufacturer_code = u16::read(bytes, mac_capability_flags.next);
        let maximum_buffer_size = u8::read(bytes, manufacturer_code.next);
        let maximum_incoming_transfer_size = u16::read(bytes, maximum_buffer_size.next);
        let server_mask = u16::read(bytes, maximum_incoming_transfer_size.next);
        let maximum_outgoing_transfer_size = u16::read(bytes, server_mask.next);
        let descriptor_capability_field = u8::read(bytes, maximum_outgoing_transfer_size.next);
        Ok(NodeDescriptor {
            byte0: byte0.value,
            byte1: byte1.value,
            mac_capability_flags: mac_capability_flags.value,
            manufacturer_code: manufacturer_code.value,
            maximum_buffer_size: maximum_buffer_size.value,
            maximum_incoming_transfer_size: maximum_incoming_transfer_size.value,
            server_mask: server_mask.value,
            maximum_outgoing_transfer_size: maximum_outgoing_transfer_size.value,
            descriptor_capability_field: descriptor_capability_field.value,
        })
    }

    // ---- an accessor for each field, under the Rust's names: each says its own

    // Device type of the node (2.3.2.3.1).
    pub fn logical_type(self) -> LogicalType
        ensures { result ≡ (node_fields self).logical_type }
    {
        LogicalType::from_bits(type_bits(self.byte0))
    }

    // Whether the node has a complex descriptor (2.3.2.3.2).
    pub fn complex_descriptor_available(self) -> bool
        ensures { result ≡ (node_fields self).complex_descriptor_available }
    {
        bit_at(3, self.byte0 as u16)
    }

    // Whether the node has a user descriptor (2.3.2.3.3).
    pub fn user_descriptor_available(self) -> bool
        ensures { result ≡ (node_fields self).user_descriptor_available }
    {
        bit_at(4, self.byte0 as u16)
    }

    // The bands of the node's radio (2.3.2.3.5).
    pub fn frequency_bands(self) -> FrequencyBands
        ensures { result ≡ record { 0 = (node_fields self).frequency_band } }
    {
        FrequencyBands(self.byte1 >> 3)
    }

    // What the MAC sub-layer can do (2.3.2.3.6).
    pub fn mac_capabilities(self) -> MacCapabilities
        ensures { result ≡ record { 0 = (node_fields self).mac_capability_flags } }
    {
        MacCapabilities(self.mac_capability_flags)
    }

    // The manufacturer field.
    pub fn manufacturer_code(self) -> u16
        ensures { result ≡ (node_fields self).manufacturer_code }
    {
        self.manufacturer_code
    }

    // The buffer size field.
    pub fn maximum_buffer_size(self) -> u8
        ensures { result ≡ (node_fields self).maximum_buffer_size }
    {
        self.maximum_buffer_size
    }

    // The incoming size field.
    pub fn maximum_incoming_transfer_size(self) -> u16
        ensures { result ≡ (node_fields self).maximum_incoming_transfer_size }
    {
        self.maximum_incoming_transfer_size
    }

    // Which servers of the system the node is, and the stack that it complies with (2.3.2.3.10).
    pub fn server_mask(self) -> ServerMask
        ensures { result ≡ record { 0 = (node_fields self).server_mask } }
    {
        ServerMask(self.server_mask)
    }

    // The outgoing size field.
    pub fn maximum_outgoing_transfer_size(self) -> u16
        ensures { result ≡ (node_fields self).maximum_outgoing_transfer_size }
    {
        self.maximum_outgoing_transfer_size
    }

    // The descriptor capability field.
    pub fn descriptor_capabilities(self) -> DescriptorCapabilities
        ensures { result ≡ record { 0 = (node_fields self).descriptor_capability_field } }
    {
        DescriptorCapabilities(self.descriptor_capability_field)
    }
}
