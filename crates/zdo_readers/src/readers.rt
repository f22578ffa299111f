// Whole replies as they are read (added by design): what most of them begin with, node and power replies, address replies, and
// those of bind, unbind and leave.
ghost use Rattle.std.specs.Prelude.{ℕ, List, ◌≡◌};
ghost use Rattle.zigbee_types.specs.Answers.{says};
ghost use Rattle.zigbee_types.specs.Outcome.{Outcome};
ghost use Rattle.node_descriptor.specs.NodeDescriptor.{node_descriptor_in};
ghost use Rattle.node_power_descriptor.specs.PowerDescriptor.{power_descriptor_in};
ghost use Rattle.zdo_readers.specs.Readers.{header_in, goes_further, descriptor_reply_in, node_reply_in, power_reply_in, associated_in, addr_reply_in, status_reply_in};

use byte::Field;
use node_descriptor::NodeDescriptor;
use node_power_descriptor::NodePowerDescriptor;
use zdo_replies::descriptor::STATUS_SUCCESS;
use zigbee_types::{IeeeAddress, Places, Refusal, ShortAddress};

// ---- what most replies begin with

#[derive(Clone, Copy)]
pub struct ReplyHeader {
    pub seq: u8,
    pub status: u8,
    pub nwk_addr_of_interest: ShortAddress,
}

impl ReplyHeader {
    // Reads seq, status, NWKAddrOfInterest(2) at the front of a reply.
    pub fn try_read(reply: &[u8]) -> Result<ReplyHeader, Refusal>
        ensures { says result ≡ header_in reply.now }
    {
        if reply.len() < 4 {
            return Err(Refusal::Malformed);
        }
        let seq = u8::read(reply, 0);
        let status = u8::read(reply, seq.next);
        let nwk_addr_of_interest = u16::read(reply, status.next);
        Ok(ReplyHeader {
            seq: seq.value,
            status: status.value,
            nwk_addr_of_interest: ShortAddress(nwk_addr_of_interest.value),
        })
    }
}

// ---- node and power

// A descriptor that a reply carries behind its header, read at the front of bytes.
pub trait Described: Copy {
    ghost read_in: { List ℕ → Outcome Self };

    fn try_read(bytes: &[u8]) -> Result<Self, Refusal>
        ensures { says result ≡ read_in bytes.now };
}

impl Described for NodeDescriptor {
    ghost read_in = { node_descriptor_in };

    fn try_read(bytes: &[u8]) -> Result<NodeDescriptor, Refusal> {
        NodeDescriptor::try_read(bytes)
    }
}

impl Described for NodePowerDescriptor {
    ghost read_in = { power_descriptor_in };

    fn try_read(bytes: &[u8]) -> Result<NodePowerDescriptor, Refusal> {
        NodePowerDescriptor::try_read(bytes)
    }
}

// A reply with a descriptor, or with a status alone.
#[derive(Clone, Copy)]
pub struct DescriptorReply<D> {
    pub header: ReplyHeader,
    pub descriptor: Option<D>,
}

// A Node_Desc_rsp (2.4.4.2.3).
pub type NodeReply = DescriptorReply<NodeDescriptor>;

// A Power_Desc_rsp (2.4.4.2.4).
pub type PowerReply = DescriptorReply<NodePowerDescriptor>;

impl<D: Described> DescriptorReply<D> {
    // Reads a reply with a descriptor: with SUCCESS it stands from byte 4 on, with another status there is none. `NodeReply::try_read` and
    // `PowerReply::try_read` are this at their descriptors.
    pub fn try_read_described(reply: &[u8]) -> Result<DescriptorReply<D>, Refusal>
        ensures { says result ≡ descriptor_reply_in D.read_in reply.now }
    {
        let header = ReplyHeader::try_read(reply)?;
        if header.status != STATUS_SUCCESS {
            let descriptor = None;
            return Ok(DescriptorReply { header, descriptor });
        }
        D::try_read(&reply[4..]).map(|d| DescriptorReply {
            header,
            descriptor: Some(d),
        })
    }
}

impl NodeReply {
    // Reads a Node_Desc_rsp (2.4.4.2.3): with SUCCESS the descriptor stands from byte 4 on, with another status there is none.
    #[tactic(auto, unfolding(crate::specs::Readers::node_reply_in))]
    pub fn try_read(reply: &[u8]) -> Result<NodeReply, Refusal>
        ensures { says result ≡ node_reply_in reply.now }
    {
        NodeReply::try_read_described(reply)
    }
}

impl PowerReply {
    // Reads a Power_Desc_rsp (2.4.4.2.4): with SUCCESS the descriptor stands from byte 4 on, with another status there is none.
    #[tactic(auto, unfolding(crate::specs::Readers::power_reply_in))]
    pub fn try_read(reply: &[u8]) -> Result<PowerReply, Refusal>
        ensures { says result ≡ power_reply_in reply.now }
    {
        PowerReply::try_read_described(reply)
    }
}

// ---- addresses

// A NWK_addr_rsp or IEEE_addr_rsp (2.4.4.2.1, 2.4.4.2.2).
#[derive(Clone, Copy)]
pub struct AddrReply {
    pub seq: u8,
    pub status: u8,
    pub ieee_addr: IeeeAddress,
    pub nwk_addr: ShortAddress,
    pub associated: Option<Associated>,
}

// What an extended address reply adds: how many devices are associated, the index asked for, and where short addresses stand, two bytes
// each. How many of these there are is told by the reply's end, and not by the first number.
#[derive(Clone, Copy)]
pub struct Associated {
    pub num_assoc_dev: u8,
    pub start_index: u8,
    pub devices: Places,
}

impl AddrReply {
    // Reads a NWK_addr_rsp or IEEE_addr_rsp (2.4.4.2.1, 2.4.4.2.2): seq, status, IEEEAddr(8), NWKAddr(2), and what an extended one
    // adds.
    pub fn try_read(reply: &[u8]) -> Result<AddrReply, Refusal>
        ensures { says result ≡ addr_reply_in reply.now }
    {
        if reply.len() < 12 {
            return Err(Refusal::Malformed);
        }
        let seq = u8::read(reply, 0);
        let status = u8::read(reply, seq.next);
        let ieee_addr = u64::read(reply, status.next);
        let nwk_addr = u16::read(reply, ieee_addr.next);
        let associated = read_associated(reply, status.value);
        Ok(AddrReply {
            seq: seq.value,
            status: status.value,
            ieee_addr: IeeeAddress(ieee_addr.value),
            nwk_addr: ShortAddress(nwk_addr.value),
            associated,
        })
    }
}

// What stands behind the two addresses, if the status is SUCCESS and there are two bytes more: NumAssocDev, StartIndex, and short
// addresses up to the end, a single last byte ignored.
#[tactic(auto, using(crate::proofs::Longer::associated_laws))]
fn read_associated(reply: &[u8], status: u8) -> Option<Associated>
    ensures { result ≡ associated_in (goes_further status reply.now) reply.now }
{
    if status != STATUS_SUCCESS || reply.len() < 14 {
        return None;
    }
    let num_assoc_dev = u8::read(reply, 12);
    let start_index = u8::read(reply, num_assoc_dev.next);
    let start = start_index.next;
    let count = (reply.len() - start) / 2;
    Some(Associated {
        num_assoc_dev: num_assoc_dev.value,
        start_index: start_index.value,
        devices: Places { start, count },
    })
}

// ---- bind, unbind and leave

// A Bind_rsp, Unbind_rsp or Mgmt_Leave_rsp (2.4.4.3.2, 2.4.4.3.3, 2.4.4.4.5).
#[derive(Clone, Copy)]
pub struct StatusReply {
    pub seq: u8,
    pub status: u8,
}

impl StatusReply {
    // Reads a Bind_rsp, Unbind_rsp or Mgmt_Leave_rsp: seq, status.
    #[tactic(auto, using(crate::proofs::Status::status_short, crate::proofs::Status::status_parse))]
    pub fn try_read(reply: &[u8]) -> Result<StatusReply, Refusal>
        ensures { says result ≡ status_reply_in reply.now }
    {
        if reply.len() < 2 {
            return Err(Refusal::Malformed);
        }
        let seq = u8::read(reply, 0);
        let status = u8::read(reply, seq.next);
        Ok(StatusReply {
            seq: seq.value,
            status: status.value,
        })
    }
}
