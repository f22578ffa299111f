// The answers of the readers of active, match and simple replies (oracle/README.md, "Readers of replies").
use crate::out::Text;
use crate::readers::put_header;
use crate::requests::put_places;
use simple_descriptor::SimpleDescriptorFields;
use std::io;
use std::io::Write;
use zdo_list_readers::readers::{ListReply, MatchReply, SimpleReply};

// Puts an active reply: what it begins with, and where its list stands.
pub(crate) fn put_list(reply: ListReply, text: &mut Text) -> io::Result<()> {
    put_header(reply.header, text)?;
    put_places(reply.list, text)
}

// Puts a match reply as an active reply, or one that failed with `-` for its address and its list.
pub(crate) fn put_match(reply: MatchReply, text: &mut Text) -> io::Result<()> {
    match reply {
        MatchReply::Matched(list) => put_list(list, text),
        MatchReply::Failed(error) => write!(text, "{:02X} {:02X} -", error.seq, error.status),
    }
}

// Puts a simple reply, its descriptor after a space, or `-` for none.
pub(crate) fn put_simple(reply: SimpleReply, text: &mut Text) -> io::Result<()> {
    put_header(reply.header, text)?;
    match reply.descriptor {
        Some(descriptor) => put_descriptor(descriptor, text),
        None => text.none(),
    }
}

// Puts a simple descriptor after a space: an endpoint, and where its two lists stand.
fn put_descriptor(fields: SimpleDescriptorFields, text: &mut Text) -> io::Result<()> {
    write!(
        text,
        " {:02X}{:04X}{:04X}{:02X}",
        fields.endpoint, fields.profile_id, fields.device_id, fields.device_version
    )?;
    put_places(fields.input_clusters, text)?;
    put_places(fields.output_clusters, text)
}
