// K11, nos. 7 and 8 of docs/DIFFERENCES.md, and more of the binding table. A table is printed with its first three places, held
// or not, so that a freed place, and what is left alone, shows.
use crate::print;
use aps_binding::binding::Binding;
use aps_binding_table::binding::{
    BindingError, BindingTable, Linked, create_binding_link, remove_binding_link,
};
use std::io;
use zdo_replies::descriptor::BindStatus;
use zigbee_types::{GroupAddress, IeeeAddress};

// The entry of a letter: A is that of K10's request, B the same to another group, and C the same to endpoint 1 of a device. Any
// other letter is what stands in an unused place.
fn entry(letter: u8) -> Binding {
    match letter {
        b'A' => Binding::group(1, 0x0402, GroupAddress(0x0003)),
        b'B' => Binding::group(1, 0x0402, GroupAddress(0x0004)),
        b'C' => Binding::device(1, 0x0402, IeeeAddress(0xF8F7F6F5F4F3F2F1), 1),
        _ => Binding::group(0, 0, GroupAddress(0)),
    }
}

// The steps of K11, with its two limits, and the cases beside it.
pub(crate) fn k11(rt: &impl Print) -> io::Result<()> {
    five_steps(rt, 1)?;
    five_steps(rt, 2)?;
    bad_tables(rt)?;
    more_steps(rt)?;
    routes(rt)?;
    equal(rt)?;
    println!(rt; "modes {:02x} {:02x}", Binding::GROUP, Binding::DEVICE)
}

// Bind A, bind B, unbind A, bind C, unbind B, in an empty table of this limit.
fn five_steps(rt: &impl Print, limit: usize) -> io::Result<()> {
    print!(rt; "K11 limit {limit}")?;
    let table = bind(rt, BindingTable::new(limit), b'A')?;
    let table = bind(rt, table, b'B')?;
    let table = unbind(rt, table, b'A')?;
    let table = bind(rt, table, b'C')?;
    print_table(rt, unbind(rt, table, b'B')?)
}

// A bind and an unbind with a limit that is too high, and an unbind and a bind with a count above the limit.
fn bad_tables(rt: &impl Print) -> io::Result<()> {
    print!(rt; "difference 7")?;
    let table = bind(rt, BindingTable::new(33), b'A')?;
    print_table(rt, unbind(rt, table, b'A')?)?;
    print!(rt; "difference 8")?;
    let table = unbind(rt, table_of(1, 2, b"AB-"), b'A')?;
    print_table(rt, bind(rt, table, b'C')?)
}

// A bind of an entry that a full table holds; an unbind of one that is held twice; and a bind and an unbind where something stands
// behind the places in use.
fn more_steps(rt: &impl Print) -> io::Result<()> {
    print!(rt; "bind A again in a full table")?;
    print_table(rt, bind(rt, table_of(2, 2, b"AB-"), b'A')?)?;
    print!(rt; "unbind A of A, B, A")?;
    print_table(rt, unbind(rt, table_of(3, 3, b"ABA"), b'A')?)?;
    before_unused(rt)
}

// A bind and an unbind where C stands behind the places in use.
fn before_unused(rt: &impl Print) -> io::Result<()> {
    print!(rt; "bind B before an unused C")?;
    print_table(rt, bind(rt, table_of(3, 1, b"A-C"), b'B')?)?;
    print!(rt; "unbind A before an unused C")?;
    print_table(rt, unbind(rt, table_of(3, 2, b"ABC"), b'A')?)
}

// A table made by hand: its limit, its count, and the letters of what stands in its first three places.
pub(crate) fn table_of(limit: usize, count: usize, letters: &[u8; 3]) -> BindingTable {
    let mut table = BindingTable::new(limit);
    table.count = count;
    for place in 0..3 {
        table.entries[place] = entry(letters[place]);
    }
    table
}

// Binds the entry of a letter, and prints the status.
fn bind(rt: &impl Print, table: BindingTable, letter: u8) -> io::Result<BindingTable> {
    told(rt, create_binding_link(table, entry(letter)))
}

// Unbinds the entry of a letter, and prints the status. (It stands beside `bind`: one function of both would name the library's function
// again at each call.)
fn unbind(rt: &impl Print, table: BindingTable, letter: u8) -> io::Result<BindingTable> {
    told(rt, remove_binding_link(table, entry(letter)))
}

// The table after a step, whose status is printed.
fn told(rt: &impl Print, linked: Linked) -> io::Result<BindingTable> {
    let Linked { table, status } = linked;
    print_status(rt, status)?;
    Ok(table)
}

// A status by the number that reports it, or a refusal.
fn print_status(rt: &impl Print, status: Result<(), BindingError>) -> io::Result<()> {
    let told = match status {
        Ok(()) => BindStatus::Success,
        Err(BindingError::InvalidBinding) => BindStatus::NoEntry,
        Err(BindingError::TableFull) => BindStatus::TableFull,
        Err(BindingError::Refused(why)) => return print::refusal(rt, why),
    };
    print!(rt; " {:02x}", told.code())
}

// Ends the line, and prints a table: its limit and its count, and a line for each of its first three places.
pub(crate) fn print_table(rt: &impl Print, table: BindingTable) -> io::Result<()> {
    println!(rt)?;
    println!(rt; "  limit {} count {}", table.limit, table.count)?;
    for place in 0..3 {
        print_place(rt, place, table.entries[place])?;
    }
    Ok(())
}

// A line for a place, with all fields of the entry there.
fn print_place(rt: &impl Print, place: usize, entry: Binding) -> io::Result<()> {
    println!(rt;
        "  place {place} {:02x} {:04x} {:02x} {:04x} {:016x} {:02x}",
        entry.src_endpoint,
        entry.cluster_id,
        entry.dst_addr_mode,
        entry.dst_group.0,
        entry.dst_ieee.0,
        entry.dst_endpoint
    )
}

// Whether A routes traffic of its own endpoint and cluster, of another endpoint, and of another cluster.
fn routes(rt: &impl Print) -> io::Result<()> {
    let a = entry(b'A');
    println!(rt;
        "A matches {} {} {}",
        a.matches(1, 0x0402) as u8,
        a.matches(2, 0x0402) as u8,
        a.matches(1, 0x0403) as u8
    )
}

// Whether A equals itself, and each entry that differs from it in one field, in the address once at each end.
fn equal(rt: &impl Print) -> io::Result<()> {
    print!(rt; "A equals")?;
    print_equal(rt, |_| {})?;
    print_equal(rt, |b| b.src_endpoint = 2)?;
    print_equal(rt, |b| b.cluster_id = 0x0403)?;
    print_equal(rt, |b| b.dst_addr_mode = 3)?;
    print_equal(rt, |b| b.dst_group = GroupAddress(0x0004))?;
    print_equal(rt, |b| b.dst_ieee = IeeeAddress(1))?;
    print_equal(rt, |b| b.dst_ieee = IeeeAddress(0x8000000000000000))?;
    print_equal(rt, |b| b.dst_endpoint = 1)?;
    println!(rt)
}

// Whether A equals itself after a change.
fn print_equal<F: FnOnce(&mut Binding)>(rt: &impl Print, change: F) -> io::Result<()>
    requires { F.IsAlwaysCallable change }
{
    let a = entry(b'A');
    let mut other = a;
    change(&mut other);
    print!(rt; " {}", (a == other) as u8)
}
