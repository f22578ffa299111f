// A device with the two pools that its records point into, where they are good together (document 01, "Device tables and sizes").
ghost use Rattle.std.specs.Prelude.{◌≡◌, true};
ghost use Rattle.zdo_device.specs.Tables.{endpoint_record, supports_endpoint, record_fits, good_device, endpoint_of, clusters_of};
ghost use Rattle.zdo_device.specs.Checked.{pools_of};

use crate::descriptor::{
    DeviceDescriptorConfig, EndpointDescriptor, Pools, Side, find_endpoint, good_tables,
};

// Tables that were checked.
#[derive(Clone, Copy)]
pub struct Tables<'a> {
    pub device: &'a DeviceDescriptorConfig,
    pub pools: Pools<'a>,
    pub ghost good: { good_device (pools_of pools) device.now ≡ true },
}

impl<'a> Tables<'a> {
    ghost use Rattle.std.specs.Option.{is_some, IfSome};

    // A device's tables, or none where they are not good with these pools (document 01, refusal 1).
    pub fn checked(device: &'a DeviceDescriptorConfig, lent: Pools<'a>) -> Option<Self>
        ensures found { is_some result ≡ good_device (pools_of lent.entry) device.now }
        ensures same { IfSome result (λ t. (t.device.now ≡ device.now) × (pools_of t.pools ≡ pools_of lent.entry)) }
    {
        if !good_tables(device, lent) {
            return None;
        }
        Some(Tables {
            device,
            pools: lent,
        })
    }

    // The first record in use that has a number, or none.
    pub fn endpoint(self, endpoint: u8) -> Option<EndpointDescriptor>
        ensures { result ≡ endpoint_record self.entry.device.now endpoint }
    {
        find_endpoint(self.device, endpoint)
    }

    // Whether the device implements the given endpoint.
    #[tactic(auto, using(crate::proofs::Clusters::supports_found))]
    pub fn supports_endpoint(self, endpoint: u8) -> bool
        ensures { result ≡ supports_endpoint self.entry.device.now endpoint }
    {
        self.endpoint(endpoint).is_some()
    }
}

// A record with the pools that its two parts lie in.
#[derive(Clone, Copy)]
pub struct Record<'a> {
    pub ep: EndpointDescriptor,
    pub pools: Pools<'a>,
    pub ghost fits: { record_fits (pools_of pools) ep ≡ true },
}

impl<'a> Record<'a> {
    // The record's part of the pool of one side.
    pub fn clusters(self, side: Side) -> &'a [u16]
        ensures { result.now ≡ clusters_of side (endpoint_of (pools_of self.entry.pools) self.entry.ep) }
    {
        let pools = self.pools;
        self.ep.clusters(side, pools.inputs, pools.outputs)
    }
}
