// The questions about the fields of flags in the node descriptor (oracle/README.md, "Descriptors").
use crate::out::Text;
use crate::{power, words};
use node_flags::{
    DescriptorCapabilities, DescriptorCapabilityFlag, FrequencyBandFlag, FrequencyBands,
    MacCapabilities, MacCapabilityFlag, ServerMask, ServerMaskFlag,
};
use std::io;
use std::io::Write;

// Puts the answer to a question about flags, or hands the line on.
pub(crate) fn answer(line: &[u8], text: &mut Text) -> io::Result<()> {
    let questions = b"FrequencyBands::is_set 1;\
        MacCapabilities::is_set 1;\
        ServerMask::is_set 2;\
        DescriptorCapabilities::is_set 1;\
        ServerMask::get_stack_compliance_revision 2";
    match words::which(line, questions) {
        Some(0) => put_bands(FrequencyBands(words::u8_in(line, 1)), text),
        Some(1) => put_mac(MacCapabilities(words::u8_in(line, 1)), text),
        Some(2) => put_mask(ServerMask(words::u16_in(line, 1)), text),
        Some(3) => put_capabilities(DescriptorCapabilities(words::u8_in(line, 1)), text),
        Some(4) => put_revision(ServerMask(words::u16_in(line, 1)), text),
        _ => power::answer(line, text),
    }
}

// Puts which of some flags are set, in their order.
fn put_set<F: Copy, S: Fn(F) -> bool>(flags: &[F], is_set: S, text: &mut Text) -> io::Result<()>
    requires { S.IsAlwaysCallable is_set }
{
    for flag in flags {
        text.flag(is_set(*flag))?;
    }
    Ok(())
}

// Puts which flags are set in the frequency bands, in their order.
fn put_bands(field: FrequencyBands, text: &mut Text) -> io::Result<()> {
    let flags = [
        FrequencyBandFlag::Low,
        FrequencyBandFlag::Mid,
        FrequencyBandFlag::High,
        FrequencyBandFlag::EuropeanFSK,
    ];
    put_set(&flags, |flag| field.is_set(flag), text)
}

// Puts which flags are set in the MAC capabilities, in their order.
fn put_mac(field: MacCapabilities, text: &mut Text) -> io::Result<()> {
    let flags = [
        MacCapabilityFlag::AlternatePanCoordinator,
        MacCapabilityFlag::DeviceType,
        MacCapabilityFlag::PowerSource,
        MacCapabilityFlag::ReceiverOnWhenIdle,
        MacCapabilityFlag::SecurityCapability,
        MacCapabilityFlag::AllocateAddress,
    ];
    put_set(&flags, |flag| field.is_set(flag), text)
}

// Puts which flags are set in a server mask, in their order.
fn put_mask(field: ServerMask, text: &mut Text) -> io::Result<()> {
    let flags = [
        ServerMaskFlag::PrimaryTrustCenter,
        ServerMaskFlag::BackupTrustCenter,
        ServerMaskFlag::PrimaryBindingTableCache,
        ServerMaskFlag::BackupBindingTableCache,
        ServerMaskFlag::PrimaryDiscoveryCache,
        ServerMaskFlag::BackupDiscoveryCache,
        ServerMaskFlag::NetworkManager,
    ];
    put_set(&flags, |flag| field.is_set(flag), text)
}

// Puts which flags are set in the descriptor capabilities, in their order.
fn put_capabilities(field: DescriptorCapabilities, text: &mut Text) -> io::Result<()> {
    let flags = [
        DescriptorCapabilityFlag::ExtendedActiveEndpontListAvailable,
        DescriptorCapabilityFlag::ExtendedSimpleDescriptorListAvailable,
    ];
    put_set(&flags, |flag| field.is_set(flag), text)
}

// Puts the revision of the stack in a server mask.
fn put_revision(field: ServerMask, text: &mut Text) -> io::Result<()> {
    write!(text, "{:02X}", field.get_stack_compliance_revision())
}
