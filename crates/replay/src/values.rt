// The values that have names, or hold a number that is reserved (oracle/README.md, "Lines", named). A number of two bytes stands
// for each: that of its name, or 256 more than the one that is reserved.
use node_descriptor::LogicalType;
use power_names::{CurrentPowerMode, CurrentPowerSourceLevel, PowerSource};

// A kind of such values. (Not by the library's `bits` and `from_bits`, since these are asked about; and no `From`, since the numbers are the
// questions' own.)
pub(crate) trait Named {
    // The value that a number stands for.
    fn of_number(number: u16) -> Self;

    // The number that stands for the value.
    fn number(self) -> u16;
}

// Whether a number stands for a value.
pub(crate) fn is_value<T: Named>(number: u16) -> bool {
    T::of_number(number).number() == number
}

// The number that is reserved, of those that stand for values that hold one.
fn reserved(number: u16) -> u8 {
    (number % 256) as u8
}

// The number that stands for the value that holds a reserved one.
fn of_reserved(number: u8) -> u16 {
    256 + u16::from(number)
}

impl Named for LogicalType {
    fn of_number(number: u16) -> LogicalType {
        match number {
            0 => LogicalType::Coordinator,
            1 => LogicalType::Router,
            2 => LogicalType::EndDevice,
            _ => LogicalType::Reserved(reserved(number)),
        }
    }

    fn number(self) -> u16 {
        match self {
            LogicalType::Coordinator => 0,
            LogicalType::Router => 1,
            LogicalType::EndDevice => 2,
            LogicalType::Reserved(number) => of_reserved(number),
        }
    }
}

impl Named for CurrentPowerMode {
    fn of_number(number: u16) -> CurrentPowerMode {
        match number {
            0 => CurrentPowerMode::Synchronized,
            1 => CurrentPowerMode::Periodically,
            2 => CurrentPowerMode::Stimulated,
            _ => CurrentPowerMode::Reserved(reserved(number)),
        }
    }

    fn number(self) -> u16 {
        match self {
            CurrentPowerMode::Synchronized => 0,
            CurrentPowerMode::Periodically => 1,
            CurrentPowerMode::Stimulated => 2,
            CurrentPowerMode::Reserved(number) => of_reserved(number),
        }
    }
}

impl Named for PowerSource {
    fn of_number(number: u16) -> PowerSource {
        match number {
            1 => PowerSource::ConstantMainPower,
            2 => PowerSource::RechargeableBattery,
            4 => PowerSource::DisposableBattery,
            _ => PowerSource::Reserved(reserved(number)),
        }
    }

    fn number(self) -> u16 {
        match self {
            PowerSource::ConstantMainPower => 1,
            PowerSource::RechargeableBattery => 2,
            PowerSource::DisposableBattery => 4,
            PowerSource::Reserved(number) => of_reserved(number),
        }
    }
}

impl Named for CurrentPowerSourceLevel {
    fn of_number(number: u16) -> CurrentPowerSourceLevel {
        match number {
            0 => CurrentPowerSourceLevel::Critical,
            4 => CurrentPowerSourceLevel::OneThird,
            8 => CurrentPowerSourceLevel::TwoThirds,
            12 => CurrentPowerSourceLevel::Full,
            _ => CurrentPowerSourceLevel::Reserved(reserved(number)),
        }
    }

    fn number(self) -> u16 {
        match self {
            CurrentPowerSourceLevel::Critical => 0,
            CurrentPowerSourceLevel::OneThird => 4,
            CurrentPowerSourceLevel::TwoThirds => 8,
            CurrentPowerSourceLevel::Full => 12,
            CurrentPowerSourceLevel::Reserved(number) => of_reserved(number),
        }
    }
}
