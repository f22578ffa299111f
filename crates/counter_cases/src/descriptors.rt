// The descriptors in K1 to K6, mostly of document 01's device, and those of nos. 3 and 4 of docs/DIFFERENCES.md. A buffer that is
// printed held 0xEE before, and one that is written has a byte to spare, so that what is left alone shows.
ghost use Rattle.std.specs.Prelude.{◌≤◌};

use crate::print;
use node_descriptor::descriptor::NodeDescriptorConfig;
use node_descriptor::{LogicalType, NodeDescriptor};
use node_power_descriptor::NodePowerDescriptor;
use node_power_descriptor::descriptor::PowerDescriptorConfig;
use power_names::{CurrentPowerMode, CurrentPowerSourceLevel, PowerSource};
use simple_descriptor::{SimpleDescriptorFields, descriptor};
use std::io;

// Our device (document 01, "Counter-cases").
pub(crate) fn our_node() -> NodeDescriptorConfig {
    NodeDescriptorConfig {
        logical_type: LogicalType::EndDevice,
        complex_descriptor_available: false,
        user_descriptor_available: false,
        frequency_band: 8,
        mac_capability_flags: 0x80,
        manufacturer_code: 0xABCD,
        maximum_buffer_size: 0x52,
        maximum_incoming_transfer_size: 0x0080,
        server_mask: 0x2C00,
        maximum_outgoing_transfer_size: 0x0080,
        descriptor_capability_field: 0,
    }
}

// Our device's power, whose bytes are `42 84`: mode 2, the one available source 4, in use, at level 8.
pub(crate) fn our_power() -> PowerDescriptorConfig {
    PowerDescriptorConfig {
        current_power_mode: CurrentPowerMode::Stimulated,
        available_power_sources: PowerSource::bitmap(&[4]),
        current_power_source: PowerSource::DisposableBattery,
        current_power_source_level: CurrentPowerSourceLevel::TwoThirds,
    }
}

// The descriptor in K1's reply, and that it does not fit into a byte less.
pub(crate) fn k1(rt: &impl Print) -> io::Result<()> {
    print!(rt; "K1 descriptor")?;
    print::in_buffer(rt, 14, |out| our_node().write(out))?;
    print!(rt; "K1 12 bytes")?;
    print::in_buffer(rt, 12, |out| our_node().write(out))
}

// The stack revision of that descriptor, read from its bytes, and that twelve of them are refused.
pub(crate) fn k2(rt: &impl Print) -> io::Result<()> {
    let mut out = [0xEEu8; 13];
    let _ = our_node().write(&mut out);
    print_revision(rt, "K2", &out)?;
    print_revision(rt, "K2 12 bytes", &out[0..12])
}

// A line for the stack revision of the node descriptor in bytes.
fn print_revision(rt: &impl Print, name: &str, bytes: &[u8]) -> io::Result<()> {
    print!(rt; "{name}")?;
    print::or_refusal(rt, NodeDescriptor::try_read(bytes), |d| {
        print!(rt; " {}", revision(d))
    })?;
    println!(rt)
}

// The stack revision in a descriptor's server mask.
pub(crate) fn revision(d: NodeDescriptor) -> u8 {
    let server_mask = d.server_mask();
    server_mask.get_stack_compliance_revision()
}

// Byte 0 of the default's descriptor.
pub(crate) fn k3(rt: &impl Print) -> io::Result<()> {
    let mut out = [0xEEu8; 13];
    let _ = NodeDescriptorConfig::default().write(&mut out);
    println!(rt; "K3 {:02x}", out[0])
}

// Our device's power bytes, and what the reader makes of the three pairs.
pub(crate) fn k4(rt: &impl Print) -> io::Result<()> {
    print!(rt; "K4 written")?;
    print::in_buffer(rt, 3, |out| our_power().write(out))?;
    print!(rt; "K4 1 byte")?;
    print::in_buffer(rt, 1, |out| our_power().write(out))?;
    print_power(rt, &[0x42, 0x84])?;
    print_power(rt, &[0x22, 0x84])?;
    print_power(rt, &[0x32, 0x83])
}

// A line for the fields of the power descriptor in bytes.
fn print_power(rt: &impl Print, bytes: &[u8; 2]) -> io::Result<()> {
    print!(rt; "K4{}", print::bytes(bytes))?;
    print::or_refusal(rt, NodePowerDescriptor::try_read(bytes), |d| {
        print_power_fields(rt, d)
    })?;
    println!(rt)
}

// The numbers of a power descriptor's fields: mode, available sources, source, level.
pub(crate) fn print_power_fields(rt: &impl Print, d: NodePowerDescriptor) -> io::Result<()> {
    print!(rt;
        " {:02x} {:02x} {:02x} {:02x}",
        d.current_power_mode().bits(),
        d.available_power_sources(),
        d.current_power_source().bits(),
        d.current_power_source_level().bits()
    )
}

// The descriptor of endpoint 1 in K5's reply; its fields, read from its bytes; and the descriptors of docs/DIFFERENCES.md's nos. 3
// and 4.
pub(crate) fn k5(rt: &impl Print) -> io::Result<()> {
    let mut out = [0xEEu8; 15];
    let written = descriptor::write(
        1,
        0x0104,
        0x0302,
        0x11,
        &[0x0000, 0x0402],
        &[0x0019],
        &mut out,
    );
    print!(rt; "K5 descriptor")?;
    print::written(rt, written, &out)?;
    print_simple(rt, "K5 fields", &out)?;
    print_simple(rt, "difference 3", b"\x01\x04\x01\x02\x03\x01\x00\x01\x19")?;
    print_simple(rt, "difference 4", b"\x01\x04\x01\x02\x03\x11\x00\x00")
}

// A line for the fields of the simple descriptor in bytes.
fn print_simple(rt: &impl Print, name: &str, bytes: &[u8]) -> io::Result<()> {
    print!(rt; "{name}")?;
    print::or_refusal(rt, SimpleDescriptorFields::try_read(bytes), |d| {
        print_simple_fields(rt, d)
    })?;
    println!(rt)
}

// A simple descriptor's fields, each list by its place and its count.
pub(crate) fn print_simple_fields(rt: &impl Print, d: SimpleDescriptorFields) -> io::Result<()> {
    print!(rt;
        " {:02x} {:04x} {:04x} {:02x} {} {} {} {}",
        d.endpoint,
        d.profile_id,
        d.device_id,
        d.device_version,
        d.input_clusters.start,
        d.input_clusters.count,
        d.output_clusters.start,
        d.output_clusters.count
    )
}

// A descriptor of 28 clusters of zeros, and one of 29, for which there is room.
pub(crate) fn k6(rt: &impl Print) -> io::Result<()> {
    print_zeros(rt, "K6 28 clusters", &[], 65)?;
    print_zeros(rt, "K6 29 clusters", &[0], 66)
}

// A line for the descriptor of 28 inputs of zeros and these outputs, in a buffer of so many bytes.
fn print_zeros(rt: &impl Print, name: &str, outputs: &[u16], room: usize) -> io::Result<()>
    requires { room ≤ 71 }
{
    print!(rt; "{name}")?;
    print::in_buffer(rt, room, |out| {
        descriptor::write(1, 0x0104, 0x0302, 0x11, &[0; 28], outputs, out)
    })
}
