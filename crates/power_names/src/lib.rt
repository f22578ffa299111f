// The names in the node power descriptor's fields: modes, sources and levels, each with its number (002; 2.3.2.4).
// `bits` and `from_bits` are the Rust's names. The three stay three: each is a table of its own names, and all that a trait could share
// is one call of `nibble`.
#![tactic(auto)]

ghost use Rattle.std.specs.Prelude.{◌≡◌};
ghost use Rattle.power_names.specs.Names.{mode_number, mode_bits, current_power_mode_of, source_number, source_bits, power_source_of, source_bitmap, level_number, level_bits, current_power_source_level_of};

use byte::nibble;

// Current power mode field (2.3.2.4.1).
#[derive(Clone, Copy, PartialEq, Eq, Debug)]
pub enum CurrentPowerMode {
    // Synchronized with the receiver-on-when-idle subfield of the node descriptor.
    Synchronized,
    // Comes on periodically as defined by the node power descriptor.
    Periodically,
    // Comes on when stimulated, e.g. by a user pressing a button.
    Stimulated,
    Reserved(u8),
}

impl CurrentPowerMode {
    // The 4-bit field value.
    pub fn bits(self) -> u8
        ensures { result ≡ mode_bits self }
    {
        nibble(self.number())
    }

    // The number of a name, or the one that is reserved.
    fn number(self) -> u8
        ensures { result ≡ mode_number self }
    {
        match self {
            CurrentPowerMode::Synchronized => 0b0000,
            CurrentPowerMode::Periodically => 0b0001,
            CurrentPowerMode::Stimulated => 0b0010,
            CurrentPowerMode::Reserved(bits) => bits,
        }
    }

    // The mode that a number names.
    #[tactic(auto, unfolding(crate::specs::Names::current_power_mode_of, zigbee_types::specs::Named::named, zigbee_types::specs::Lists::option, zigbee_types::specs::Lists::find))]
    pub fn from_bits(bits: u8) -> CurrentPowerMode
        ensures { result ≡ current_power_mode_of bits }
    {
        match bits {
            0b0000 => CurrentPowerMode::Synchronized,
            0b0001 => CurrentPowerMode::Periodically,
            0b0010 => CurrentPowerMode::Stimulated,
            _ => CurrentPowerMode::Reserved(bits),
        }
    }
}

// A power source of the node, as its bit in the available power sources (2.3.2.4.2) and current power source (2.3.2.4.3)
// fields, which share a bit assignment.
#[derive(Clone, Copy, PartialEq, Eq, Debug)]
pub enum PowerSource {
    ConstantMainPower,
    RechargeableBattery,
    DisposableBattery,
    Reserved(u8),
}

impl PowerSource {
    // The 4-bit field value, in which a named source has its bit set.
    pub fn bits(self) -> u8
        ensures { result ≡ source_bits self }
    {
        nibble(self.number())
    }

    // The number of a name, or the one that is reserved.
    fn number(self) -> u8
        ensures { result ≡ source_number self }
    {
        match self {
            PowerSource::ConstantMainPower => 0b0001,
            PowerSource::RechargeableBattery => 0b0010,
            PowerSource::DisposableBattery => 0b0100,
            PowerSource::Reserved(bits) => bits,
        }
    }

    // The source that a number names.
    #[tactic(auto, unfolding(crate::specs::Names::power_source_of, zigbee_types::specs::Named::named, zigbee_types::specs::Lists::option, zigbee_types::specs::Lists::find))]
    pub fn from_bits(bits: u8) -> PowerSource
        ensures { result ≡ power_source_of bits }
    {
        match bits {
            0b0001 => PowerSource::ConstantMainPower,
            0b0010 => PowerSource::RechargeableBattery,
            0b0100 => PowerSource::DisposableBattery,
            _ => PowerSource::Reserved(bits),
        }
    }

    // The 4-bit field value covering every source in a list of their numbers (2.3.2.4.2).
    pub fn bitmap(sources: &[u8]) -> u8
        ensures { result ≡ source_bitmap sources.now }
    {
        let mut bits: u8 = 0;
        for source in sources {
            bits |= nibble(*source);
        }
        bits
    }
}

// Current power source level field (2.3.2.4.4).
#[derive(Clone, Copy, PartialEq, Eq, Debug)]
pub enum CurrentPowerSourceLevel {
    Critical,
    OneThird,
    TwoThirds,
    Full,
    Reserved(u8),
}

impl CurrentPowerSourceLevel {
    // The 4-bit field value.
    pub fn bits(self) -> u8
        ensures { result ≡ level_bits self }
    {
        nibble(self.number())
    }

    // The number of a name, or the one that is reserved.
    fn number(self) -> u8
        ensures { result ≡ level_number self }
    {
        match self {
            CurrentPowerSourceLevel::Critical => 0b0000,
            CurrentPowerSourceLevel::OneThird => 0b0100,
            CurrentPowerSourceLevel::TwoThirds => 0b1000,
            CurrentPowerSourceLevel::Full => 0b1100,
            CurrentPowerSourceLevel::Reserved(bits) => bits,
        }
    }

    // The level that a number names.
    #[tactic(auto, unfolding(crate::specs::Names::current_power_source_level_of, zigbee_types::specs::Named::named, zigbee_types::specs::Lists::option, zigbee_types::specs::Lists::find))]
    pub fn from_bits(bits: u8) -> CurrentPowerSourceLevel
        ensures { result ≡ current_power_source_level_of bits }
    {
        match bits {
            0b0000 => CurrentPowerSourceLevel::Critical,
            0b0100 => CurrentPowerSourceLevel::OneThird,
            0b1000 => CurrentPowerSourceLevel::TwoThirds,
            0b1100 => CurrentPowerSourceLevel::Full,
            _ => CurrentPowerSourceLevel::Reserved(bits),
        }
    }
}
