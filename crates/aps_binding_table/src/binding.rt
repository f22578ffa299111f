// The table of bindings, and what binds and unbinds (004).
ghost use Rattle.std.specs.Prelude.{◌≡◌};
ghost use Rattle.aps_binding_table.specs.Table.{empty_table, good_sizes, create_binding_link, remove_binding_link, Leaves};
ghost use Rattle.aps_binding_table.specs.Answers.{link_says};

use aps_binding::binding::Binding;
use zigbee_types::{GroupAddress, Refusal};

// The binding table as held in the AIB: thirty-two places, of which the first `count` are used, and at most `limit` may be.
// (An array with a count beside it: document 01's form, with no heap.)
#[derive(Clone, Copy)]
pub struct BindingTable {
    pub entries: [Binding; 32],
    pub limit: usize,
    pub count: usize,
}

impl BindingTable {
    // A table that holds nothing yet. With a limit above 32 it is one that every call refuses.
    pub fn new(limit: usize) -> Self
        ensures { result ≡ empty_table limit }
    {
        let unused = Binding::group(0, 0, GroupAddress(0));
        BindingTable {
            entries: [unused; 32],
            limit,
            count: 0,
        }
    }
}

// Why a bind or an unbind did nothing (2.2.4.3.2, 2.2.4.3.4), or was refused.
#[derive(Clone, Copy, PartialEq, Eq, Debug)]
pub enum BindingError {
    InvalidBinding,
    TableFull,
    Refused(Refusal),
}

// The table after a bind or an unbind, and what it came to.
#[derive(Clone, Copy)]
pub struct Linked {
    pub table: BindingTable,
    pub status: Result<(), BindingError>,
}

// Create a binding link (2.2.4.3.1). An entry already held is success, in a full table too. The search stands here, and the answer is
// made in one place, since a table is copied for each function that it is handed to and for each way out.
// (Inlined, as the next is, for the same reason.)
#[inline(always)]
pub fn create_binding_link(mut table: BindingTable, binding: Binding) -> Linked
    ensures { Leaves (create_binding_link table binding) table (link_says result.status) result.table }
{
    let count = table.count;
    let limit = table.limit;
    let status = if !good_sizes(count, limit) {
        Err(BindingError::Refused(Refusal::BadTables))
    } else if table.entries[..count].contains(&binding) {
        Ok(())
    } else if count == limit {
        Err(BindingError::TableFull)
    } else {
        table.entries[count] = binding;
        table.count = count + 1;
        Ok(())
    };
    Linked { table, status }
}

// Remove a binding link (2.2.4.3.3), in the same form. The first equal entry goes: those behind it move down by one, so that they keep
// their order, and the place that is freed is unused.
#[inline(always)]
pub fn remove_binding_link(mut table: BindingTable, binding: Binding) -> Linked
    ensures { Leaves (remove_binding_link table binding) table (link_says result.status) result.table }
{
    let count = table.count;
    let status = if !good_sizes(count, table.limit) {
        Err(BindingError::Refused(Refusal::BadTables))
    } else if let Some(index) = table.entries[..count]
        .iter()
        .position(|held| *held == binding)
    {
        table.entries.copy_within(index + 1..count, index);
        table.entries[count - 1] = Binding::group(0, 0, GroupAddress(0));
        table.count = count - 1;
        Ok(())
    } else {
        Err(BindingError::InvalidBinding)
    };
    Linked { table, status }
}

// Whether a count is within its limit, and the limit within the places (refusal 1).
pub fn good_sizes(count: usize, limit: usize) -> bool
    ensures { result ≡ good_sizes count limit }
{
    (count <= limit) & (limit <= 32)
}
