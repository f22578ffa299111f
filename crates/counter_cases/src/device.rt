// Our device (document 01, "Counter-cases"): its endpoints, their parts of the pools, and the replies that are made from its
// records, those of K5 and K6 among them. A line of a reply has how much room the buffer has, then the reply's length or the
// refusal, and the buffer, which held 0xEE before.
ghost use Rattle.std.specs.Prelude.{◌≤◌};

use crate::{descriptors, print};
use std::io;
use zdo_device::descriptor::{DeviceDescriptorConfig, EndpointDescriptor, Pools, Side};
use zdo_device_rsp::descriptor::{active_ep_rsp, simple_desc_rsp};
use zigbee_types::{Refusal, ShortAddress};

// Our pools: the clusters of endpoint 1, and then those of endpoint 2.
const INPUTS: [u16; 4] = [0x0000, 0x0402, 0x0000, 0x0500];

const OUTPUTS: [u16; 1] = [0x0019];

// Our two endpoints.
pub(crate) const ENDPOINT_1: EndpointDescriptor = EndpointDescriptor {
    endpoint: 1,
    device_version: 0x11,
    profile_id: 0x0104,
    device_id: 0x0302,
    input_start: 0,
    input_count: 2,
    output_start: 0,
    output_count: 1,
};

const ENDPOINT_2: EndpointDescriptor = EndpointDescriptor {
    endpoint: 2,
    device_version: 0,
    profile_id: 0x0104,
    device_id: 0x0402,
    input_start: 2,
    input_count: 2,
    output_start: 1,
    output_count: 0,
};

// A record that has the number of endpoint 1 again, with the third input.
const AGAIN: EndpointDescriptor = EndpointDescriptor {
    endpoint: 1,
    device_version: 2,
    profile_id: 0x0104,
    device_id: 0x0999,
    input_start: 2,
    input_count: 1,
    output_start: 1,
    output_count: 0,
};

// A device with its pools.
#[derive(Clone, Copy)]
pub(crate) struct Tables<'a> {
    pub(crate) device: DeviceDescriptorConfig,
    pub(crate) pools: Pools<'a>,
}

impl<'a> Tables<'a> {
    // The same with another pool of inputs. (This and the next name the pool that changes, and share nothing else.)
    pub(crate) fn with_inputs(self, inputs: &'a [u16]) -> Tables<'a> {
        let pools = Pools {
            inputs,
            ..self.pools
        };
        Tables { pools, ..self }
    }

    // The same with another pool of outputs.
    pub(crate) fn with_outputs(self, outputs: &'a [u16]) -> Tables<'a> {
        let pools = Pools {
            outputs,
            ..self.pools
        };
        Tables { pools, ..self }
    }

    // Writes the simple reply of an endpoint number.
    fn simple_reply(self, number: u8, out: &mut [u8]) -> Result<usize, Refusal> {
        let short = ShortAddress(0x1234);
        simple_desc_rsp(self.device, 7, short, number, self.pools, out)
    }
}

// Our device with our pools, and with this count of records. In the other places stands the record that has number 1 again.
pub(crate) fn ours<'a>(count: usize) -> Tables<'a> {
    let mut endpoints = [AGAIN; 32];
    endpoints[0] = ENDPOINT_1;
    endpoints[1] = ENDPOINT_2;
    let device = DeviceDescriptorConfig {
        node: descriptors::our_node(),
        power: descriptors::our_power(),
        endpoints,
        endpoint_count: count,
    };
    let pools = Pools {
        inputs: &INPUTS,
        outputs: &OUTPUTS,
    };
    Tables { device, pools }
}

// A device of one endpoint, which is our endpoint 1 but for its number of inputs.
pub(crate) fn of_inputs<'a>(count: u16) -> Tables<'a> {
    let mut tables = ours(1);
    tables.device.endpoints[0].input_count = count;
    tables
}

// The simple replies of endpoint 1, of endpoint 2, and of a number that no record in use has, at last with a bad pool.
pub(crate) fn k5(rt: &impl Print) -> io::Result<()> {
    let ours = ours(2);
    print::in_three_rooms(rt, "K5 reply", 19, |out| ours.simple_reply(1, out))?;
    print_simple(rt, "simple reply of 2", ours, 2, 17)?;
    print::in_three_rooms(rt, "simple reply of 3", 5, |out| ours.simple_reply(3, out))?;
    print_simple(rt, "of 3, short outputs", ours.with_outputs(&[]), 3, 4)
}

// The simple replies of 27 inputs and an output, and of an input more: for this there is room, there is not, and its pool is too
// short as well.
pub(crate) fn k6(rt: &impl Print) -> io::Result<()> {
    let of_28 = of_inputs(27).with_inputs(&[0; 28]);
    print_simple(rt, "K6 reply of 28", of_28, 1, 70)?;
    print_simple(rt, "K6 reply of 28", of_28, 1, 69)?;
    print_simple(rt, "K6 reply of 28", of_28, 1, 68)?;
    let of_29 = of_inputs(28).with_inputs(&[0; 28]);
    print_simple(rt, "K6 reply of 29", of_29, 1, 71)?;
    print_simple(rt, "K6 reply of 29", of_29, 1, 4)?;
    print_simple(rt, "K6 short pool", of_29.with_inputs(&[0; 27]), 1, 4)
}

// Our endpoints, and a number that we have not; endpoint 2 where one record is in use; a number that none of the 32 records has,
// where the count says that there are more; and the active replies of our device and of one without records.
pub(crate) fn others(rt: &impl Print) -> io::Result<()> {
    print_endpoint(rt, "our", ours(2), 1)?;
    print_endpoint(rt, "our", ours(2), 2)?;
    print_endpoint(rt, "our", ours(2), 3)?;
    print_endpoint(rt, "unused", ours(1), 2)?;
    print_endpoint(rt, "largest count", ours(usize::MAX), 3)?;
    active_replies(rt)
}

// The active replies of our device, in three buffers, and of one without records.
fn active_replies(rt: &impl Print) -> io::Result<()> {
    print_active(rt, "active reply", ours(2), 9)?;
    print_active(rt, "active reply", ours(2), 7)?;
    print_active(rt, "active reply", ours(2), 6)?;
    print_active(rt, "empty active reply", ours(0), 5)
}

// A line for an endpoint number: whether it is supported, all fields of its record, and its part of either pool.
pub(crate) fn print_endpoint<'a>(
    rt: &impl Print,
    name: &str,
    tables: Tables<'a>,
    number: u8,
) -> io::Result<()> {
    let Tables { device, pools } = tables;
    let Pools { inputs, outputs } = pools;
    let supported = device.supports_endpoint(number) as u8;
    print!(rt; "{name} endpoint {number:02x} {supported}")?;
    print::or_none(rt, device.endpoint(number), |record| {
        print_record(rt, record)
    })?;
    println!(rt;
        " inputs{} outputs{}",
        print::words(device.endpoint_clusters(Side::Input, number, inputs, outputs)),
        print::words(device.endpoint_clusters(Side::Output, number, inputs, outputs))
    )
}

// All fields of a record.
fn print_record(rt: &impl Print, record: EndpointDescriptor) -> io::Result<()> {
    print!(rt;
        " {:02x} {:02x} {:04x} {:04x} {} {} {} {}",
        record.endpoint,
        record.device_version,
        record.profile_id,
        record.device_id,
        record.input_start,
        record.input_count,
        record.output_start,
        record.output_count
    )
}

// A line for the active reply in a buffer of so many bytes.
pub(crate) fn print_active<'a>(
    rt: &impl Print,
    name: &str,
    tables: Tables<'a>,
    room: usize,
) -> io::Result<()>
    requires { room ≤ 71 }
{
    print::in_room(rt, name, room, |out| {
        active_ep_rsp(tables.device, 7, ShortAddress(0x1234), out)
    })
}

// A line for the simple reply of an endpoint number in a buffer of so many bytes.
pub(crate) fn print_simple<'a>(
    rt: &impl Print,
    name: &str,
    tables: Tables<'a>,
    number: u8,
    room: usize,
) -> io::Result<()>
    requires { room ≤ 71 }
{
    print::in_room(rt, name, room, |out| tables.simple_reply(number, out))
}
