// A binding maps a local endpoint and cluster onto a remote destination (004).
ghost use Rattle.std.specs.Prelude.{◌≡◌};
ghost use Rattle.aps_binding.specs.Entry.{group_binding, device_binding, routes, same};
ghost use Rattle.aps_binding.specs.Same.{same_partial, same_equivalence};

use zigbee_types::{GroupAddress, IeeeAddress};

// A binding table entry (2.2.8.2.1). The fields stand in the order that makes an entry 16 bytes. Those of the destination
// that the mode does not name are zero in an entry that `group` or `device` built.
#[derive(Clone, Copy)]
pub struct Binding {
    pub dst_ieee: IeeeAddress,
    // Cluster the binding applies to.
    pub cluster_id: u16,
    // Local endpoint the binding applies to.
    pub src_endpoint: u8,
    pub dst_addr_mode: u8,
    pub dst_group: GroupAddress,
    pub dst_endpoint: u8,
}

impl Binding {
    // The two mode numbers are constants of the type, and the fields of the other mode are zero: document 01's form.
    // 16-bit group address, destination endpoint omitted (2.4.3.2.2).
    pub const GROUP: u8 = 0x01;

    // 64-bit extended address plus destination endpoint (2.4.3.2.2).
    pub const DEVICE: u8 = 0x03;

    // A binding to a single remote endpoint.
    pub fn device(
        src_endpoint: u8,
        cluster_id: u16,
        dst_ieee: IeeeAddress,
        dst_endpoint: u8,
    ) -> Self
        ensures { result ≡ device_binding src_endpoint cluster_id dst_ieee dst_endpoint }
    {
        Self {
            dst_ieee,
            cluster_id,
            src_endpoint,
            dst_addr_mode: Self::DEVICE,
            dst_group: GroupAddress(0),
            dst_endpoint,
        }
    }

    // A binding to a group address.
    pub fn group(src_endpoint: u8, cluster_id: u16, dst_group: GroupAddress) -> Self
        ensures { result ≡ group_binding src_endpoint cluster_id dst_group }
    {
        Self {
            dst_ieee: IeeeAddress(0),
            cluster_id,
            src_endpoint,
            dst_addr_mode: Self::GROUP,
            dst_group,
            dst_endpoint: 0,
        }
    }

    // Whether the entry routes traffic of `src_endpoint`/`cluster_id`.
    pub fn matches(self, src_endpoint: u8, cluster_id: u16) -> bool
        ensures { result ≡ routes self src_endpoint cluster_id }
    {
        (self.src_endpoint == src_endpoint) & (self.cluster_id == cluster_id)
    }
}

// Whether two entries are the same: in all six fields, as the Rust derives it. (By hand, not by a derive: the field that tells the most
// entries apart comes first, and the edits eq_without_group and eq_without_mode leave a field out, for which a derive has no line.)
impl PartialEq for Binding {
    ghost eq = { same };

    ghost laws = { same_partial };

    fn eq(&self, other: &Binding) -> bool {
        (self.cluster_id == other.cluster_id)
            & (self.src_endpoint == other.src_endpoint)
            & (self.dst_ieee == other.dst_ieee)
            & (self.dst_endpoint == other.dst_endpoint)
            & (self.dst_group == other.dst_group)
            & (self.dst_addr_mode == other.dst_addr_mode)
    }
}

impl Eq for Binding {
    ghost laws = { same_equivalence };
}
