// The questions about the node power descriptor as a whole (oracle/README.md, "Descriptors").
use crate::out::Text;
use crate::values::Named;
use crate::words::u16_at;
use crate::{bits, out, words};
use node_power_descriptor::NodePowerDescriptor;
use node_power_descriptor::descriptor::PowerDescriptorConfig;
use power_names::{CurrentPowerMode, CurrentPowerSourceLevel, PowerSource};
use std::io;
use std::io::Write;

// Puts the answer to a question about the node power descriptor, or hands the line on.
pub(crate) fn answer(line: &[u8], text: &mut Text) -> io::Result<()> {
    let questions = b"PowerDescriptorConfig::write P S b;\
        NodePowerDescriptor::try_read b;\
        NodePowerDescriptor::accessors b;\
        NodePowerDescriptor::supports b s";
    match words::which(line, questions) {
        Some(0) => write(line, text),
        Some(1) => out::put_read(line, NodePowerDescriptor::try_read, put_length, text),
        Some(2) => accessors(line, text),
        Some(3) => supports(line, text),
        _ => bits::answer(line, text),
    }
}

// Puts the answer to a write: behind its name stand POWER NAMEDS BUFFER.
fn write(line: &[u8], text: &mut Text) -> io::Result<()> {
    let power = power_of(words::word_of(line, 1), bits::bitmap(line, 2));
    let mut space = [0u8; words::BYTES];
    let buffer = words::bytes_in(line, 3, &mut space);
    let answer = power.write(buffer);
    text.written(answer, words::word_of(line, 3), buffer)
}

// The configuration that a word says, with the bits of the available sources.
pub(crate) fn power_of(word: &[u8], available_power_sources: u8) -> PowerDescriptorConfig {
    PowerDescriptorConfig {
        current_power_mode: CurrentPowerMode::of_number(u16_at(word, 0)),
        available_power_sources,
        current_power_source: PowerSource::of_number(u16_at(word, 2)),
        current_power_source_level: CurrentPowerSourceLevel::of_number(u16_at(word, 4)),
    }
}

// Puts how many bytes a descriptor was read from, always two.
fn put_length(_descriptor: NodePowerDescriptor, text: &mut Text) -> io::Result<()> {
    write!(text, "2")
}

// Puts the power that a descriptor says: behind the question's name stand BYTES. Fewer than two are no question.
fn accessors(line: &[u8], text: &mut Text) -> io::Result<()> {
    if words::word_of(line, 1).len() < 4 {
        return text.unknown();
    }
    put_descriptor(descriptor_of(line), text)
}

// Puts what the accessors of a descriptor say, as a power.
pub(crate) fn put_descriptor(descriptor: NodePowerDescriptor, text: &mut Text) -> io::Result<()> {
    write!(
        text,
        "{:04X}{:04X}{:04X}",
        descriptor.current_power_mode().number(),
        descriptor.current_power_source().number(),
        descriptor.current_power_source_level().number(),
    )
}

// Puts whether a descriptor has a source available: behind the question's name stand BYTES NAMED. Fewer than two bytes are no
// question.
fn supports(line: &[u8], text: &mut Text) -> io::Result<()> {
    if words::word_of(line, 1).len() < 4 {
        return text.unknown();
    }
    let source = PowerSource::of_number(words::u16_in(line, 2));
    text.flag(descriptor_of(line).supports(source))
}

// The descriptor that is read from the BYTES behind the name of a question, or made of the first two where they are refused.
fn descriptor_of(line: &[u8]) -> NodePowerDescriptor {
    let mut space = [0u8; words::BYTES];
    let bytes = words::bytes_in(line, 1, &mut space);
    NodePowerDescriptor::try_read(bytes).unwrap_or(made_of(words::word_of(line, 1)))
}

// The descriptor of a word's first two bytes.
fn made_of(word: &[u8]) -> NodePowerDescriptor {
    NodePowerDescriptor {
        byte0: words::u8_at(word, 0),
        byte1: words::u8_at(word, 1),
    }
}
