// The questions about the entries of the binding table (oracle/README.md, "Binding table"), and the entries that a word says.
use crate::out::Text;
use crate::words::{u8_at, u16_at};
use crate::{links, words};
use aps_binding::binding::Binding;
use std::io;
use zigbee_types::{GroupAddress, IeeeAddress};

// Puts the answer to a question about entries, or hands the line on.
pub(crate) fn answer(line: &[u8], text: &mut Text) -> io::Result<()> {
    let questions = b"Binding::group 1 2 2;\
        Binding::device 1 2 8 1;\
        Binding::matches B 1 2;\
        Binding::eq B B";
    match words::which(line, questions) {
        Some(0) => put_entry(group(line), text),
        Some(1) => put_entry(device(line), text),
        Some(2) => text.flag(matches(line)),
        Some(3) => text.flag(eq(line)),
        _ => links::answer(line, text),
    }
}

// The entry to a group: behind the question's name stand NUMBER CLUSTER GROUP.
fn group(line: &[u8]) -> Binding {
    Binding::group(
        words::u8_in(line, 1),
        words::u16_in(line, 2),
        GroupAddress(words::u16_in(line, 3)),
    )
}

// The entry to a device: behind the question's name stand NUMBER CLUSTER IEEE NUMBER.
fn device(line: &[u8]) -> Binding {
    Binding::device(
        words::u8_in(line, 1),
        words::u16_in(line, 2),
        IeeeAddress(words::hex_in(line, 3)),
        words::u8_in(line, 4),
    )
}

// Whether an entry routes traffic: behind the question's name stand ENTRY NUMBER CLUSTER.
fn matches(line: &[u8]) -> bool {
    let entry = entry_of(words::word_of(line, 1));
    entry.matches(words::u8_in(line, 2), words::u16_in(line, 3))
}

// Whether two entries are equal: behind the question's name stand ENTRY ENTRY.
fn eq(line: &[u8]) -> bool {
    entry_of(words::word_of(line, 1)) == entry_of(words::word_of(line, 2))
}

// The entry that a word says.
pub(crate) fn entry_of(word: &[u8]) -> Binding {
    let src_endpoint = u8_at(word, 1);
    let cluster_id = u16_at(word, 2);
    if u8_at(word, 0) == Binding::GROUP {
        return Binding::group(src_endpoint, cluster_id, GroupAddress(u16_at(word, 4)));
    }
    let dst_ieee = IeeeAddress(words::number_at(word, 4, 8));
    Binding::device(src_endpoint, cluster_id, dst_ieee, u8_at(word, 12))
}

// Puts an entry. One that is not as `group` or `device` build them, in its mode or in a field that is zero there, is `?`.
pub(crate) fn put_entry(entry: Binding, text: &mut Text) -> io::Result<()> {
    match entry.dst_addr_mode {
        Binding::GROUP => put_group(entry, text),
        Binding::DEVICE => put_device(entry, text),
        _ => text.unknown(),
    }
}

// Puts an entry to a group, or `?` where it has a device too. (A number of zero is asked for, here and below, not another address.)
fn put_group(entry: Binding, text: &mut Text) -> io::Result<()> {
    if entry.dst_ieee.0 != 0 || entry.dst_endpoint != 0 {
        return text.unknown();
    }
    put_source(entry, text)?;
    text.hex(&entry.dst_group.0.to_be_bytes())
}

// Puts an entry to a device, or `?` where it has a group too.
fn put_device(entry: Binding, text: &mut Text) -> io::Result<()> {
    if entry.dst_group.0 != 0 {
        return text.unknown();
    }
    put_source(entry, text)?;
    text.hex(&entry.dst_ieee.0.to_be_bytes())?;
    text.hex(&[entry.dst_endpoint])
}

// Puts the fields that stand before an entry's destination.
fn put_source(entry: Binding, text: &mut Text) -> io::Result<()> {
    text.hex(&[entry.dst_addr_mode, entry.src_endpoint])?;
    text.hex(&entry.cluster_id.to_be_bytes())
}
