// Active, match and simple replies as they are read (added by design). Lists are places counted from the start of the reply.
ghost use Rattle.std.specs.Prelude.{◌≡◌, ◌+◌, ◌^◌, ◌≤◌, ◌<◌, length};
ghost use Rattle.zigbee_types.specs.Layout.{behind};
ghost use Rattle.zdo_list_readers.specs.ListReaders.{list_behind, list_reply_in, match_reply_in, shifted, shifted_fields, simple_within, simple_reply_in};
ghost use Rattle.zigbee_types.specs.Answers.{says};
ghost use Rattle.zdo_list_readers.specs.declared.readers.MatchReply.TheVariants.{Matched};

use byte::Field;
use simple_descriptor::SimpleDescriptorFields;
use zdo_readers::readers::{ReplyHeader, StatusReply};
use zdo_replies::descriptor::STATUS_SUCCESS;
use zigbee_types::{Places, Refusal};

// ---- active

// An Active_EP_rsp (2.4.4.2.6), and a Match_Desc_rsp (2.4.4.2.7) of status SUCCESS: its endpoints are the list. A Simple_Desc_rsp
// (2.4.4.2.5) has the same form: its descriptor is the list, of bytes.
#[derive(Clone, Copy)]
pub struct ListReply {
    pub header: ReplyHeader,
    pub list: Places,
}

impl ListReply {
    // Reads an Active_EP_rsp (2.4.4.2.6): the header, ActiveEPCount, ActiveEPList. The list must be whole. (In shape, this is the reader of
    // a simple reply too: two lines, which name the two parts of each.)
    pub fn try_read(reply: &[u8]) -> Result<ListReply, Refusal>
        ensures { says result ≡ list_reply_in reply.now }
    {
        let header = ReplyHeader::try_read(reply)?;
        ListReply::behind(header, reply)
    }

    // The reply that begins with this header: its list is counted at byte 4.
    #[tactic(auto, using(crate::proofs::Listed::list_none, crate::proofs::Listed::list_cut, crate::proofs::Listed::list_whole))]
    fn behind(header: ReplyHeader, reply: &[u8]) -> Result<ListReply, Refusal>
        ensures { says result ≡ list_behind header reply.now }
    {
        if reply.len() < 5 {
            return Err(Refusal::Malformed);
        }
        let count = u8::read(reply, 4);
        let start = count.next;
        let count = count.value as usize;
        if reply.len() < start + count {
            return Err(Refusal::Malformed);
        }
        let list = Places { start, count };
        Ok(ListReply { header, list })
    }
}

// ---- match

// A Match_Desc_rsp (2.4.4.2.7): with SUCCESS its list; with another status the sequence number and that status alone. (No `Result`: a
// match that failed is a reply that was read, and not a refusal.)
#[derive(Clone, Copy)]
pub enum MatchReply {
    Matched(ListReply),
    Failed(StatusReply),
}

impl MatchReply {
    // Reads a Match_Desc_rsp (2.4.4.2.7): with SUCCESS as an Active_EP_rsp, with another status in the 3-byte form, whose last byte
    // is ignored.
    pub fn try_read(reply: &[u8]) -> Result<MatchReply, Refusal>
        ensures { says result ≡ match_reply_in reply.now }
    {
        if reply.len() < 3 {
            return Err(Refusal::Malformed);
        }
        let seq = u8::read(reply, 0);
        let status = u8::read(reply, seq.next);
        if status.value == STATUS_SUCCESS {
            return Ok(MatchReply::Matched(ListReply::try_read(reply)?));
        }
        Ok(MatchReply::Failed(StatusReply {
            seq: seq.value,
            status: status.value,
        }))
    }
}

// ---- simple

// A Simple_Desc_rsp (2.4.4.2.5).
#[derive(Clone, Copy)]
pub struct SimpleReply {
    pub header: ReplyHeader,
    pub descriptor: Option<SimpleDescriptorFields>,
}

impl SimpleReply {
    // Reads a Simple_Desc_rsp (2.4.4.2.5): the header, Length, SimpleDescriptor. The descriptor is read within its length; 0 means
    // none.
    pub fn try_read(reply: &[u8]) -> Result<SimpleReply, Refusal>
        ensures { says result ≡ simple_reply_in reply.now }
    {
        let list = ListReply::try_read(reply)?;
        SimpleReply::within(list, reply)
    }

    // The reply whose header and whose descriptor's place were read.
    fn within(list: ListReply, reply: &[u8]) -> Result<SimpleReply, Refusal>
        requires { behind 1 list.list ≤ length reply.now }
        ensures { says result ≡ simple_within list reply.now }
    {
        let header = list.header;
        let place = list.list;
        let start = place.start;
        let count = place.count;
        if count == 0 {
            let descriptor = None;
            return Ok(SimpleReply { header, descriptor });
        }
        let fields = SimpleDescriptorFields::try_read(&reply[start..start + count])?;
        let descriptor = Some(shifted_fields(start, fields));
        Ok(SimpleReply { header, descriptor })
    }
}

// A list whose place was counted from place `at` of the reply on, counted from the start of the reply.
fn shifted(at: usize, list: Places) -> Places
    requires { at + list.start < 2 ^ 63 }
    ensures { result ≡ shifted at list }
{
    Places {
        start: at + list.start,
        count: list.count,
    }
}

// A descriptor with both its lists so.
fn shifted_fields(at: usize, fields: SimpleDescriptorFields) -> SimpleDescriptorFields
    requires { (at + fields.input_clusters.start < 2 ^ 63) × (at + fields.output_clusters.start < 2 ^ 63) }
    ensures { result ≡ shifted_fields at fields }
{
    let input_clusters = fields.input_clusters;
    let output_clusters = fields.output_clusters;
    SimpleDescriptorFields {
        endpoint: fields.endpoint,
        profile_id: fields.profile_id,
        device_id: fields.device_id,
        device_version: fields.device_version,
        input_clusters: shifted(at, input_clusters),
        output_clusters: shifted(at, output_clusters),
    }
}
