// The question about a sequence of binds and unbinds: behind its name, `links`, stand LIMIT [HELD..] [STEP..] (oracle/README.md,
// "Binding table"). A limit of more than 32 is no question here: the oracle takes 33 too, and the library refuses it
// (docs/DIFFERENCES.md, no. 7).
ghost use Rattle.std.specs.Prelude.{◌≤◌};

use crate::out::Text;
use crate::{bindings, words};
use aps_binding_table::binding::{
    BindingError, BindingTable, Linked, create_binding_link, remove_binding_link,
};
use std::io;
use std::io::Write;
use zdo_replies::descriptor::BindStatus;

// Puts the answer to the question about a sequence.
pub(crate) fn answer(line: &[u8], text: &mut Text) -> io::Result<()> {
    let limit = words::decimal_in(line, 1);
    if !has_limit(line) || limit > 32 {
        return text.unknown();
    }
    let table = first_table(line, limit);
    let passed = table.count + 2;
    if !line.split(words::is_space).skip(passed).all(is_step) {
        return text.unknown();
    }
    run(line, passed, table, text)
}

// Whether a line has the question's name, and a number in decimal behind it.
fn has_limit(line: &[u8]) -> bool {
    words::is_named(line, b"links") && words::is_decimal(words::word_of(line, 1))
}

// The table to begin with: the entries that the words behind the limit say to be held, each in the next place, up to a word that
// says none, or up to the limit. A bind would not put an entry twice, so this does not bind.
fn first_table(line: &[u8], limit: usize) -> BindingTable
    requires { limit ≤ 32 }
    ensures { result.count ≤ 32 }
{
    let mut table = BindingTable::new(limit);
    let mut count: usize = 0;
    for i in 0..limit {
        let word = words::word_of(line, i + 2);
        if !has_entry(word, b'h') {
            break;
        }
        table.entries[i] = bindings::entry_of(behind(word));
        count = i + 1;
    }
    table.count = count;
    table
}

// Whether a word is a step.
fn is_step(word: &[u8]) -> bool {
    has_entry(word, b'b') || has_entry(word, b'u')
}

// Whether a word is this letter and an entry.
fn has_entry(word: &[u8], letter: u8) -> bool {
    word.first() == Some(&letter) && words::is_entry(behind(word))
}

// What stands behind the first character of a word.
fn behind(word: &[u8]) -> &[u8] {
    word.get(1..).unwrap_or(word)
}

// Takes the steps behind the first so many words, and puts the status of each, or `-` where there is none, and the table then.
fn run(line: &[u8], passed: usize, mut table: BindingTable, text: &mut Text) -> io::Result<()> {
    if words::arguments(line) < passed {
        write!(text, "-")?;
    }
    for word in line.split(words::is_space).skip(passed) {
        let linked = step(table, word);
        table = linked.table;
        put_status(linked.status, text)?;
    }
    put_table(table, text)
}

// Takes the step that a word says.
fn step(table: BindingTable, word: &[u8]) -> Linked {
    let binding = bindings::entry_of(behind(word));
    if has_entry(word, b'b') {
        return create_binding_link(table, binding);
    }
    remove_binding_link(table, binding)
}

// Puts a status. The oracle never answers `R`: a refusal, which no table of this question earns, would show.
fn put_status(status: Result<(), BindingError>, text: &mut Text) -> io::Result<()> {
    let status = match status {
        Ok(()) => BindStatus::Success,
        Err(BindingError::InvalidBinding) => BindStatus::NoEntry,
        Err(BindingError::TableFull) => BindStatus::TableFull,
        Err(BindingError::Refused(_)) => return text.refused(),
    };
    text.hex(&[status.code()])
}

// Puts a table, after a space: how many entries it holds, and each of them.
fn put_table(table: BindingTable, text: &mut Text) -> io::Result<()> {
    write!(text, " {}", table.count)?;
    for entry in table.entries.iter().take(table.count) {
        write!(text, " ")?;
        bindings::put_entry(*entry, text)?;
    }
    Ok(())
}
