// Who answers (document 01, "Binding and dispatch").
use zdo_device::tables::Tables;
use zigbee_types::{IeeeAddress, ShortAddress};

// Our device, whose tables were checked, and its two addresses.
#[derive(Clone, Copy)]
pub struct Host<'a> {
    pub tables: Tables<'a>,
    pub ieee_addr: IeeeAddress,
    pub nwk_addr: ShortAddress,
}
