// Answers questions about the library: a question on each line of standard input, and its answer on a line of standard output
// (oracle/README.md, "Lines"). The input may be of any length.
#![tactic(auto)]

mod bindings;
mod bits;
mod fields;
mod flags;
mod links;
mod list_readers;
mod node;
mod out;
mod power;
mod readers;
mod replies;
mod requests;
mod simple;
mod tables;
mod values;
mod words;

ghost use Rattle.std.specs.Prelude.{◌≤◌};

use crate::out::Text;
use std::io;
use std::io::{Read, Stdin, Write};

// The most characters of a question.
const LINE: usize = 16384;

// How many bytes the input's buffer has.
const CHUNK: usize = 65536;

// The line that is read: its characters stand at the front of the array, and are so many. There is room for one more than a question
// may have, so that a line that is too long shows; what there is no room for is left out. (An array: there is no heap.)
#[derive(Drop)]
struct Line {
    characters: [u8; LINE + 1],
    count: usize,
    ghost fits: { count ≤ 16385 },
}

impl Line {
    // The line without a character.
    fn new() -> Line {
        Line {
            characters: [0u8; LINE + 1],
            count: 0,
        }
    }

    // Puts characters behind the others.
    fn put(&mut self, characters: &[u8]) {
        let room = &mut self.characters[self.count..];
        let count = characters.len().min(room.len());
        room[..count].copy_from_slice(&characters[..count]);
        self.count += count;
    }

    // Writes the answer to the line, and a line feed, and begins the next.
    fn end(&mut self, text: &mut Text) -> io::Result<()> {
        answer(&self.characters[..self.count], text)?;
        self.count = 0;
        writeln!(text)?;
        text.flush()
    }
}

// Puts the answer to a line: `?` where it is too long, or no question that is known. A module that does not know it hands it on to the
// next.
fn answer(line: &[u8], text: &mut Text) -> io::Result<()> {
    if line.len() > LINE {
        return text.unknown();
    }
    fields::answer(line, text)
}

// Goes on with the line, and writes the answers to all lines that end in the input.
fn take(input: &[u8], line: &mut Line, text: &mut Text) -> io::Result<()> {
    let mut parts = input.split(|character| *character == b'\n');
    if let Some(first) = parts.next() {
        line.put(first);
    }
    for part in parts {
        line.end(text)?;
        line.put(part);
    }
    Ok(())
}

// Reads to the end of the input, and answers each line, the last also where no line feed ends it. A proved loop has to end, so this one
// has a number of reads that no input takes.
fn answer_all(mut stdin: Stdin, text: &mut Text) -> io::Result<()> {
    let mut input = [0u8; CHUNK];
    let mut line = Line::new();
    for _ in 0..u64::MAX {
        let count = stdin.read(&mut input)?;
        if count == 0 {
            break;
        }
        take(&input[..count], &mut line, text)?;
    }
    if line.count > 0 {
        line.end(text)?;
    }
    Ok(())
}

fn main(rt: HostRuntime) -> io::Result<()> {
    answer_all(rt.stdin(), &mut Text::new(rt.stdout()))
}
