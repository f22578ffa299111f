// The node power descriptor as it is read (002; 2.3.2.4).
#![tactic(auto)]

pub mod descriptor;

ghost use Rattle.std.specs.Prelude.{◌≡◌, ◌/◌, ◌%◌};
ghost use Rattle.node_power_descriptor.specs.PowerDescriptor.{power_descriptor_in, power_fields, supports, usable};
ghost use Rattle.zigbee_types.specs.Answers.{says};

use byte::{Field, nibble};
use power_names::{CurrentPowerMode, CurrentPowerSourceLevel, PowerSource};
use zigbee_types::Refusal;

pub(crate) const NODE_POWER_DESCRIPTOR_SIZE: usize = 2;

// The two bytes of a node power descriptor. (The Rust keeps a slice of them.)
#[derive(Clone, Copy)]
pub struct NodePowerDescriptor {
    pub byte0: u8,
    pub byte1: u8,
}

impl NodePowerDescriptor {
    // Reads the descriptor at the front of bytes: two, whose current source has a name and is available (2.3.2.4;
    // document 01, module 3).
    pub fn try_read(bytes: &[u8]) -> Result<NodePowerDescriptor, Refusal>
        ensures { says result ≡ power_descriptor_in bytes.now }
    {
        if bytes.len() < NODE_POWER_DESCRIPTOR_SIZE {
            return Err(Refusal::Malformed);
        }
        let byte0 = u8::read(bytes, 0);
        let byte1 = u8::read(bytes, byte0.next);
        let descriptor = NodePowerDescriptor {
            byte0: byte0.value,
            byte1: byte1.value,
        };
        if !descriptor.is_usable() {
            return Err(Refusal::Malformed);
        }
        Ok(descriptor)
    }

    // Whether the current source has a name and is available.
    fn is_usable(self) -> bool
        ensures { result ≡ usable (self.byte0 / 16) (self.byte1 % 16) }
    {
        let current_power_source = self.current_power_source();
        if let PowerSource::Reserved(_) = current_power_source {
            return false;
        }
        self.supports(current_power_source)
    }

    // ---- an accessor for each field, under the Rust's names: each says its own

    // Sleep and power-saving mode (2.3.2.4.1).
    pub fn current_power_mode(self) -> CurrentPowerMode
        ensures { result ≡ (power_fields self).current_power_mode }
    {
        CurrentPowerMode::from_bits(nibble(self.byte0))
    }

    // Whether the node declares a power source as available (2.3.2.4.2).
    #[tactic(auto, using(crate::proofs::Common::supports_told))]
    pub fn supports(self, power_source: PowerSource) -> bool
        ensures { result ≡ supports self power_source }
    {
        (self.byte0 >> 4) & power_source.bits() != 0
    }

    // The power sources that the node declares as available, as the union of their bits (2.3.2.4.2).
    pub fn available_power_sources(self) -> u8
        ensures { result ≡ (power_fields self).available_power_sources }
    {
        self.byte0 >> 4
    }

    // The source currently in use (2.3.2.4.3).
    pub fn current_power_source(self) -> PowerSource
        ensures { result ≡ (power_fields self).current_power_source }
    {
        PowerSource::from_bits(nibble(self.byte1))
    }

    // Charge level of that source (2.3.2.4.4).
    pub fn current_power_source_level(self) -> CurrentPowerSourceLevel
        ensures { result ≡ (power_fields self).current_power_source_level }
    {
        CurrentPowerSourceLevel::from_bits(self.byte1 >> 4)
    }
}
