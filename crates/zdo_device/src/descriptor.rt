// The descriptors this device advertises to the network (000).
ghost use Rattle.std.specs.Prelude.{◌+◌, ◌≤◌, ◌<◌, min, ◌≡◌, true, length};
ghost use Rattle.zigbee_types.specs.Lists.{part};
ghost use Rattle.zdo_device.specs.Tables.{pools, endpoint_record, supports_endpoint, record_fits, good_sizes, good_device, endpoint_of, clusters_of, endpoint_clusters};
ghost use Rattle.zdo_device.specs.Checked.{pools_of};

use node_descriptor::descriptor::NodeDescriptorConfig;
use node_power_descriptor::descriptor::PowerDescriptorConfig;

// The most records of a device, and the most clusters of a pool (document 01, "Device tables and sizes").
const RECORDS: usize = 32;

const CLUSTERS: usize = 512;

// The two pools of clusters that are lent beside a device (document 01, "Device tables and sizes").
#[derive(Clone, Copy)]
pub struct Pools<'a> {
    pub inputs: &'a [u16],
    pub outputs: &'a [u16],
}

// One application endpoint exposed by this device (2.3.2.5). Its clusters are a start and a count in each of two lent pools, which is
// document 01's form.
#[derive(Clone, Copy)]
pub struct EndpointDescriptor {
    pub endpoint: u8,
    pub device_version: u8,
    pub profile_id: u16,
    pub device_id: u16,
    pub input_start: u16,
    pub input_count: u16,
    pub output_start: u16,
    pub output_count: u16,
}

impl EndpointDescriptor {
    // Whether the record's two parts lie within their pools.
    pub fn fits(self, lent: Pools) -> bool
        ensures { result ≡ record_fits (pools_of lent.entry) self }
    {
        (end_of(self.input_start, self.input_count) <= lent.inputs.len())
            & (end_of(self.output_start, self.output_count) <= lent.outputs.len())
    }

    // The record's part of the pool of one side. Those who call it have checked the tables.
    // The two pools stay two slices (document 01's form by place: "returned part of one of two lent u16 slices, chosen by side").
    #[tactic(auto, using(crate::proofs::Clusters::inputs_fit, crate::proofs::Clusters::outputs_fit))]
    pub fn clusters<'a>(self, side: Side, inputs: &'a [u16], outputs: &'a [u16]) -> &'a [u16]
        requires { record_fits (pools inputs.now outputs.now) self ≡ true }
        ensures { result.now ≡ clusters_of side (endpoint_of (pools inputs.now outputs.now) self) }
    {
        match side {
            Side::Input => part_of(inputs, self.input_start, self.input_count),
            Side::Output => part_of(outputs, self.output_start, self.output_count),
        }
    }
}

// The descriptors this device advertises: of the records the first `endpoint_count` are in use. The pools are lent beside it. (An array
// with a count: document 01's form, with no heap.)
#[derive(Clone, Copy)]
pub struct DeviceDescriptorConfig {
    pub node: NodeDescriptorConfig,
    pub power: PowerDescriptorConfig,
    pub endpoints: [EndpointDescriptor; 32],
    pub endpoint_count: usize,
}

impl DeviceDescriptorConfig {
    // The first record in use that has a number, or none. A count above 32 reaches all 32 records, here and in the next.
    pub fn endpoint(self, endpoint: u8) -> Option<EndpointDescriptor>
        ensures { result ≡ endpoint_record self endpoint }
    {
        find_endpoint(&self, endpoint)
    }

    // Whether the device implements the given endpoint.
    #[tactic(auto, using(crate::proofs::Clusters::supports_found))]
    pub fn supports_endpoint(self, endpoint: u8) -> bool
        ensures { result ≡ supports_endpoint self endpoint }
    {
        self.endpoint(endpoint).is_some()
    }

    // Whether the device's tables are good, with these pools (document 01, refusal 1).
    pub fn good_tables(self, lent: Pools) -> bool
        ensures { result ≡ good_device (pools_of lent.entry) self }
    {
        good_tables(&self, lent)
    }

    // An endpoint's part of the input pool or of the output pool, as the side says. (Added by document 01.) Empty where there is
    // no such endpoint, or the tables are not good.
    // The two pools stay two slices (document 01's form by place: "returned part of one of two lent u16 slices, chosen by side").
    pub fn endpoint_clusters<'a>(
        self,
        side: Side,
        endpoint: u8,
        inputs: &'a [u16],
        outputs: &'a [u16],
    ) -> &'a [u16]
        ensures { result.now ≡ endpoint_clusters (pools inputs.now outputs.now) self side endpoint }
    {
        if !self.good_tables(Pools { inputs, outputs }) {
            return &inputs[..0];
        }
        let found = self.endpoint(endpoint);
        match found {
            Some(ep) => ep.clusters(side, inputs, outputs),
            None => &inputs[..0],
        }
    }
}

// The first record in use that has a number, or none. (By reference, here and in the next: a function that takes the device by value
// copies it.)
pub(crate) fn find_endpoint(
    device: &DeviceDescriptorConfig,
    endpoint: u8,
) -> Option<EndpointDescriptor>
    ensures { result ≡ endpoint_record device.now endpoint }
{
    let count = device.endpoint_count.min(RECORDS);
    device.endpoints[..count]
        .iter()
        .find(|ep| ep.endpoint == endpoint)
        .copied()
}

// Whether a device's tables are good, with these pools (document 01, refusal 1).
pub(crate) fn good_tables(device: &DeviceDescriptorConfig, lent: Pools) -> bool
    ensures { result ≡ good_device (pools_of lent.entry) device.now }
{
    let count = device.endpoint_count;
    if !good_sizes(count, lent.inputs.len(), lent.outputs.len()) {
        return false;
    }
    device.endpoints[..count].iter().all(|ep| ep.fits(lent))
}

// One of the two pools.
#[derive(Clone, Copy)]
pub enum Side {
    Input,
    Output,
}

// Whether so many records and clusters are not too many.
pub fn good_sizes(count: usize, inputs: usize, outputs: usize) -> bool
    ensures { result ≡ good_sizes count inputs outputs }
{
    (count <= RECORDS) & (inputs <= CLUSTERS) & (outputs <= CLUSTERS)
}

// Where a part of a pool ends; the bound is twice that of a u16.
fn end_of(start: u16, count: u16) -> usize
    ensures { (result ≡ start + count) × (result < 131072) }
{
    (start as usize) + (count as usize)
}

// A part of a pool.
fn part_of(pool: &[u16], start: u16, count: u16) -> &[u16]
    requires { start + count ≤ length pool.now }
    ensures { result.now ≡ part start count pool.now }
{
    let from = start as usize;
    let end = end_of(start, count);
    &pool[from..end]
}
