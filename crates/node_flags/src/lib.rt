// The flags of the node descriptor's fields, and the stack revision in its server mask (001; 2.3.2.3).
// Each kind has an `is_set` of one line, as in the Rust: a trait is no plainer, since its impl for each kind would be that line again.
#![tactic(auto)]

ghost use Rattle.std.specs.Prelude.{◌≡◌};
ghost use Rattle.zigbee_types.specs.Bytes.{bit_at};
ghost use Rattle.node_flags.specs.Flags.{frequency_band_flag_of, mac_capability_flag_of, server_mask_flag_of, descriptor_capability_flag_of, stack_revision};

use byte::bit_at;

// Frequency band field (2.3.2.3.5): frequency bands supported by the underlying IEEE 802.15.4 radio(s).
#[derive(Clone, Copy)]
pub struct FrequencyBands(pub u8);

// The flags of the frequency band field, each with the number of its bit.
#[derive(Clone, Copy)]
pub enum FrequencyBandFlag {
    // 868 - 868.6 MHz
    Low = 0,
    // 902 - 928 MHz
    Mid = 2,
    // 2400 - 2483.5 MHz
    High = 3,
    // European FSK sub-GHz bands: (863-876MHz and 915-921MHz)
    EuropeanFSK = 4,
}

impl FrequencyBands {
    // Whether a flag is set.
    pub fn is_set(self, frequency_band_flag: FrequencyBandFlag) -> bool
        ensures { result ≡ bit_at (frequency_band_flag_of frequency_band_flag) self.0 }
    {
        bit_at(frequency_band_flag as u8, self.0 as u16)
    }
}

// MAC capability flags field (2.3.2.3.6), as required by the IEEE 802.15.4-2015 MAC sub-layer.
#[derive(Clone, Copy)]
pub struct MacCapabilities(pub u8);

// The flags of the MAC capability flags field, each with the number of its bit.
#[derive(Clone, Copy)]
pub enum MacCapabilityFlag {
    // Set if this node is capable of becoming a PAN coordinator.
    AlternatePanCoordinator = 0,
    // Set if this node is a full function device (FFD), unset for a reduced function device (RFD).
    DeviceType = 1,
    // Set if the current power source is mains power.
    PowerSource = 2,
    // Set if the device does not disable its receiver to conserve power during idle periods.
    ReceiverOnWhenIdle = 3,
    // Set if the device supports the Zigbee security suite.
    SecurityCapability = 6,
    AllocateAddress = 7,
}

impl MacCapabilities {
    // Whether a flag is set.
    pub fn is_set(self, mac_capability_flag: MacCapabilityFlag) -> bool
        ensures { result ≡ bit_at (mac_capability_flag_of mac_capability_flag) self.0 }
    {
        bit_at(mac_capability_flag as u8, self.0 as u16)
    }
}

// Server mask field (2.3.2.3.10).
#[derive(Clone, Copy)]
pub struct ServerMask(pub u16);

// The flags of the server mask field, each with the number of its bit.
#[derive(Clone, Copy)]
pub enum ServerMaskFlag {
    PrimaryTrustCenter = 0,
    BackupTrustCenter = 1,
    PrimaryBindingTableCache = 2,
    BackupBindingTableCache = 3,
    PrimaryDiscoveryCache = 4,
    BackupDiscoveryCache = 5,
    NetworkManager = 6,
}

impl ServerMask {
    // Whether a flag is set.
    pub fn is_set(self, server_mask_flag: ServerMaskFlag) -> bool
        ensures { result ≡ bit_at (server_mask_flag_of server_mask_flag) self.0 }
    {
        bit_at(server_mask_flag as u8, self.0)
    }

    // The revision of the stack that the node complies with.
    pub fn get_stack_compliance_revision(self) -> u8
        ensures { result ≡ stack_revision self.0 }
    {
        (self.0 >> 9) as u8
    }
}

// Descriptor capability field.
#[derive(Clone, Copy)]
pub struct DescriptorCapabilities(pub u8);

// The flags of the descriptor capability field as the Rust spells them, each with the number of its bit.
#[derive(Clone, Copy)]
pub enum DescriptorCapabilityFlag {
    ExtendedActiveEndpontListAvailable = 0,
    ExtendedSimpleDescriptorListAvailable = 1,
}

impl DescriptorCapabilities {
    // Whether a flag is set.
    pub fn is_set(self, descriptor_capability_flag: DescriptorCapabilityFlag) -> bool
        ensures { result ≡ bit_at (descriptor_capability_flag_of descriptor_capability_flag) self.0 }
    {
        bit_at(descriptor_capability_flag as u8, self.0 as u16)
    }
}
