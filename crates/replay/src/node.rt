// The questions about the node descriptor as a whole (oracle/README.md, "Descriptors").
use crate::out::Text;
use crate::values::Named;
use crate::words::{u8_at, u16_at};
use crate::{flags, out, words};
use node_descriptor::descriptor::NodeDescriptorConfig;
use node_descriptor::{LogicalType, NodeDescriptor};
use std::io;
use std::io::Write;
use zigbee_types::Refusal;

// Puts the answer to a question about the node descriptor, or hands the line on.
pub(crate) fn answer(line: &[u8], text: &mut Text) -> io::Result<()> {
    let questions = b"NodeDescriptorConfig::default;\
        NodeDescriptorConfig::write N b;\
        NodeDescriptor::try_read b;\
        NodeDescriptor::logical_type b;\
        NodeDescriptor::accessors b";
    match words::which(line, questions) {
        Some(0) => put_node(NodeDescriptorConfig::default(), text),
        Some(1) => write(line, text),
        Some(2) => out::put_read(line, NodeDescriptor::try_read, put_length, text),
        Some(3) => logical_type(read(line), text),
        Some(4) => accessors(read(line), text),
        _ => flags::answer(line, text),
    }
}

// Puts the answer to a write: behind its name stand NODE BUFFER.
fn write(line: &[u8], text: &mut Text) -> io::Result<()> {
    let node = node_of(words::word_of(line, 1));
    let mut space = [0u8; words::BYTES];
    let buffer = words::bytes_in(line, 2, &mut space);
    let answer = node.write(buffer);
    text.written(answer, words::word_of(line, 2), buffer)
}

// The configuration that a word says.
pub(crate) fn node_of(word: &[u8]) -> NodeDescriptorConfig {
    NodeDescriptorConfig {
        logical_type: LogicalType::of_number(u16_at(word, 0)),
        complex_descriptor_available: u8_at(word, 2) == 1,
        user_descriptor_available: u8_at(word, 3) == 1,
        frequency_band: u8_at(word, 4),
        mac_capability_flags: u8_at(word, 5),
        manufacturer_code: u16_at(word, 6),
        maximum_buffer_size: u8_at(word, 8),
        maximum_incoming_transfer_size: u16_at(word, 9),
        server_mask: u16_at(word, 11),
        maximum_outgoing_transfer_size: u16_at(word, 13),
        descriptor_capability_field: u8_at(word, 15),
    }
}

// Puts how many bytes a descriptor was read from, always thirteen.
fn put_length(_descriptor: NodeDescriptor, text: &mut Text) -> io::Result<()> {
    write!(text, "13")
}

// What is read from the BYTES that stand behind the name of a question.
fn read(line: &[u8]) -> Result<NodeDescriptor, Refusal> {
    let mut space = [0u8; words::BYTES];
    NodeDescriptor::try_read(words::bytes_in(line, 1, &mut space))
}

// Puts the logical type of a descriptor. Bytes that are none are no question.
fn logical_type(found: Result<NodeDescriptor, Refusal>, text: &mut Text) -> io::Result<()> {
    match found {
        Ok(descriptor) => put_type(descriptor.logical_type(), text),
        Err(_) => text.unknown(),
    }
}

// Puts what the other accessors say of a descriptor. Bytes that are none are no question.
fn accessors(found: Result<NodeDescriptor, Refusal>, text: &mut Text) -> io::Result<()> {
    match found {
        Ok(descriptor) => put_fields(fields(descriptor), text),
        Err(_) => text.unknown(),
    }
}

// The configuration that the accessors of a descriptor say.
fn fields(descriptor: NodeDescriptor) -> NodeDescriptorConfig {
    let frequency_bands = descriptor.frequency_bands();
    let mac_capabilities = descriptor.mac_capabilities();
    let server_mask = descriptor.server_mask();
    let descriptor_capabilities = descriptor.descriptor_capabilities();
    NodeDescriptorConfig {
        logical_type: descriptor.logical_type(),
        complex_descriptor_available: descriptor.complex_descriptor_available(),
        user_descriptor_available: descriptor.user_descriptor_available(),
        frequency_band: frequency_bands.0,
        mac_capability_flags: mac_capabilities.0,
        manufacturer_code: descriptor.manufacturer_code(),
        maximum_buffer_size: descriptor.maximum_buffer_size(),
        maximum_incoming_transfer_size: descriptor.maximum_incoming_transfer_size(),
        server_mask: server_mask.0,
        maximum_outgoing_transfer_size: descriptor.maximum_outgoing_transfer_size(),
        descriptor_capability_field: descriptor_capabilities.0,
    }
}

// Puts what all accessors of a descriptor say, as a node.
pub(crate) fn put_descriptor(descriptor: NodeDescriptor, text: &mut Text) -> io::Result<()> {
    put_node(fields(descriptor), text)
}

// Puts a node.
fn put_node(node: NodeDescriptorConfig, text: &mut Text) -> io::Result<()> {
    put_type(node.logical_type, text)?;
    put_fields(node, text)
}

// Puts a logical type.
fn put_type(logical_type: LogicalType, text: &mut Text) -> io::Result<()> {
    write!(text, "{:04X}", logical_type.number())
}

// Puts the fields of a node that stand behind its type: those from the complex descriptor's flag to the manufacturer, and those from
// the buffer's size on.
fn put_fields(node: NodeDescriptorConfig, text: &mut Text) -> io::Result<()> {
    write!(
        text,
        "{:02X}{:02X}{:02X}{:02X}{:04X}",
        u8::from(node.complex_descriptor_available),
        u8::from(node.user_descriptor_available),
        node.frequency_band,
        node.mac_capability_flags,
        node.manufacturer_code,
    )?;
    write!(
        text,
        "{:02X}{:04X}{:04X}{:04X}{:02X}",
        node.maximum_buffer_size,
        node.maximum_incoming_transfer_size,
        node.server_mask,
        node.maximum_outgoing_transfer_size,
        node.descriptor_capability_field,
    )
}
