// The questions about the bits of power modes, sources and levels (oracle/README.md, "Descriptors").
use crate::out::Text;
use crate::values::Named;
use crate::{simple, words};
use power_names::{CurrentPowerMode, CurrentPowerSourceLevel, PowerSource};
use std::io;
use std::io::Write;

// Puts the answer to a question about bits, or hands the line on.
pub(crate) fn answer(line: &[u8], text: &mut Text) -> io::Result<()> {
    let number = words::u16_in(line, 1);
    let questions = b"CurrentPowerMode::bits m;\
        PowerSource::bits s;\
        CurrentPowerSourceLevel::bits l;\
        PowerSource::bitmap S";
    match words::which(line, questions) {
        Some(0) => put_bits(CurrentPowerMode::of_number(number).bits(), text),
        Some(1) => put_bits(PowerSource::of_number(number).bits(), text),
        Some(2) => put_bits(CurrentPowerSourceLevel::of_number(number).bits(), text),
        Some(3) => put_bits(bitmap(line, 1), text),
        _ => simple::answer(line, text),
    }
}

// Puts bits as a number of one byte.
fn put_bits(bits: u8, text: &mut Text) -> io::Result<()> {
    write!(text, "{bits:02X}")
}

// The bits of all power sources in a word of a line.
pub(crate) fn bitmap(line: &[u8], word: usize) -> u8 {
    let mut space = [0u8; words::BYTES];
    PowerSource::bitmap(words::numbers_in(line, word, &mut space))
}
