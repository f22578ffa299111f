// K10's bind request, field by field.
use crate::print;
use byte::Field;
use std::io;
use zigbee_types::{GroupAddress, IeeeAddress};

// The fields of a bind request to a group (2.4.3.2.2).
#[derive(Clone, Copy)]
struct Fields {
    seq: u8,
    src_address: IeeeAddress,
    src_endpoint: u8,
    cluster_id: u16,
    dst_addr_mode: u8,
    dst_group: GroupAddress,
}

// Each field begins where the one before it ended.
fn fields_of(request: &[u8; 15]) -> Fields {
    let seq = u8::read(request, 0);
    let src_address = u64::read(request, seq.next);
    let src_endpoint = u8::read(request, src_address.next);
    let cluster_id = u16::read(request, src_endpoint.next);
    let dst_addr_mode = u8::read(request, cluster_id.next);
    let dst_group = u16::read(request, dst_addr_mode.next);
    Fields {
        seq: seq.value,
        src_address: IeeeAddress(src_address.value),
        src_endpoint: src_endpoint.value,
        cluster_id: cluster_id.value,
        dst_addr_mode: dst_addr_mode.value,
        dst_group: GroupAddress(dst_group.value),
    }
}

// Puts the fields one behind the other at the front of a buffer.
fn put(fields: Fields, out: &mut [u8; 16]) {
    let at = u8::write(out, 0, fields.seq);
    let at = u64::write(out, at, fields.src_address.0);
    let at = u8::write(out, at, fields.src_endpoint);
    let at = u16::write(out, at, fields.cluster_id);
    let at = u8::write(out, at, fields.dst_addr_mode);
    u16::write(out, at, fields.dst_group.0);
}

// The fields of K10's request, and the bytes that putting them back leaves in a buffer one byte longer.
pub(crate) fn k10(rt: &impl Print) -> io::Result<()> {
    let request: [u8; 15] = [
        0x0A, 0x08, 0x07, 0x06, 0x05, 0x04, 0x03, 0x02, 0x01, 0x01, 0x02, 0x04, 0x01, 0x03, 0x00,
    ];
    let fields = fields_of(&request);
    println!(rt;
        "K10 fields {:02x} {:016x} {:02x} {:04x} {:02x} {:04x}",
        fields.seq,
        fields.src_address.0,
        fields.src_endpoint,
        fields.cluster_id,
        fields.dst_addr_mode,
        fields.dst_group.0
    )?;
    let mut out = [0xEEu8; 16];
    put(fields, &mut out);
    println!(rt; "K10 bytes{}", print::bytes(&out))
}
