// The device of document 01's counter-cases, and of the program `answer`.
#![tactic(auto)]

ghost use Rattle.std.specs.Prelude.{◌≡◌};
ghost use Rattle.zdo_discovery.specs.Host.{asking};
ghost use Rattle.zdo_dispatcher.specs.Answers.{answered, response_says, Dispatched};
ghost use Rattle.our_device.specs.OurDevice.{our_node, our_power, endpoint1, endpoint2, our_device, ours};

use aps_binding_table::binding::BindingTable;
use node_descriptor::LogicalType;
use node_descriptor::descriptor::NodeDescriptorConfig;
use node_power_descriptor::descriptor::PowerDescriptorConfig;
use power_names::{CurrentPowerMode, CurrentPowerSourceLevel, PowerSource};
use zdo_device::descriptor::{DeviceDescriptorConfig, EndpointDescriptor, Pools};
use zdo_dispatcher::dispatcher::{Responded, dispatch};
use zigbee_types::{IeeeAddress, ShortAddress};

// An end device.
fn our_node() -> NodeDescriptorConfig
    ensures { result ≡ our_node }
{
    NodeDescriptorConfig {
        logical_type: LogicalType::EndDevice,
        complex_descriptor_available: false,
        user_descriptor_available: false,
        frequency_band: 8,
        mac_capability_flags: 0x80,
        manufacturer_code: 0xABCD,
        maximum_buffer_size: 0x52,
        maximum_incoming_transfer_size: 0x0080,
        server_mask: 0x2C00,
        maximum_outgoing_transfer_size: 0x0080,
        descriptor_capability_field: 0,
    }
}

// Its power bytes are 42 84.
fn our_power() -> PowerDescriptorConfig
    ensures { result ≡ our_power }
{
    PowerDescriptorConfig {
        current_power_mode: CurrentPowerMode::Stimulated,
        available_power_sources: 4,
        current_power_source: PowerSource::DisposableBattery,
        current_power_source_level: CurrentPowerSourceLevel::TwoThirds,
    }
}

// Two inputs and one output.
fn endpoint_1() -> EndpointDescriptor
    ensures { result ≡ endpoint1 }
{
    EndpointDescriptor {
        endpoint: 1,
        device_version: 0x11,
        profile_id: 0x0104,
        device_id: 0x0302,
        input_start: 0,
        input_count: 2,
        output_start: 0,
        output_count: 1,
    }
}

// Two inputs, behind those of endpoint 1, and no outputs.
fn endpoint_2() -> EndpointDescriptor
    ensures { result ≡ endpoint2 }
{
    EndpointDescriptor {
        endpoint: 2,
        device_version: 0,
        profile_id: 0x0104,
        device_id: 0x0402,
        input_start: 2,
        input_count: 2,
        output_start: 1,
        output_count: 0,
    }
}

// Its two endpoints; the other records are not in use.
fn our_device() -> DeviceDescriptorConfig
    ensures { result ≡ our_device }
{
    let mut endpoints = [endpoint_2(); 32];
    endpoints[0] = endpoint_1();
    DeviceDescriptorConfig {
        node: our_node(),
        power: our_power(),
        endpoints,
        endpoint_count: 2,
    }
}

// What our device answers to a request.
pub fn our_response(
    table: BindingTable,
    cluster: u16,
    payload: &[u8],
    reply: &mut [u8],
) -> Responded
    ensures { Dispatched (answered ours table (asking cluster payload.now reply.old)) table reply.old (response_says result.response) result.table reply.new }
{
    let inputs: [u16; 4] = [0x0000, 0x0402, 0x0000, 0x0500];
    let outputs: [u16; 1] = [0x0019];
    dispatch(
        our_device(),
        IeeeAddress(0x0102_0304_0506_0708),
        ShortAddress(0x1234),
        Pools {
            inputs: &inputs,
            outputs: &outputs,
        },
        table,
        cluster,
        payload,
        reply,
    )
}
