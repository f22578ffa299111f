// The answer to a question, on its way to the standard output.
ghost use Rattle.std.specs.Prelude.{◌≡◌, ◌<◌, ◌≤◌, OnOk};

use crate::words;
use std::io;
use std::io::{Stdout, Write};
use zigbee_types::Refusal;

// The most characters of an answer that are not written out yet.
const ROOM: usize = 256;

// Where so many wait, or more, all are written out before the next. So there is always room for the two digits of a byte.
const FULL: usize = 254;

// The digits of a number in hexadecimal.
const DIGITS: [u8; 16] = *b"0123456789ABCDEF";

// The characters of an answer that are not written out yet: they stand at the front of the array, and are so many. (Not the library's
// `BufWriter`, which has its buffer on the heap.)
#[derive(Drop)]
pub(crate) struct Text {
    stdout: Stdout,
    characters: [u8; ROOM],
    count: usize,
    ghost fits: { count ≤ 256 },
}

impl Write for Text {
    // Takes as many characters as may wait. Where no more may, all are written out first.
    fn write(&mut self, characters: &[u8]) -> io::Result<usize> {
        self.make_room()?;
        let room = &mut self.characters[self.count..FULL];
        let count = characters.len().min(room.len());
        room[..count].copy_from_slice(&characters[..count]);
        self.count += count;
        Ok(count)
    }

    // Writes out all characters.
    fn flush(&mut self) -> io::Result<()>
        ensures { OnOk result (self.new.count ≡ 0) }
    {
        self.stdout.write_all(&self.characters[..self.count])?;
        self.count = 0;
        Ok(())
    }
}

impl Text {
    // The answer without a character.
    pub(crate) fn new(stdout: Stdout) -> Text {
        Text {
            stdout,
            characters: [0u8; ROOM],
            count: 0,
        }
    }

    // Writes out all characters where no more may wait.
    fn make_room(&mut self) -> io::Result<()>
        ensures { OnOk result (self.new.count < 254) }
    {
        if self.count < FULL {
            return Ok(());
        }
        self.flush()
    }

    // Puts `?`, for a line that is no question that is known.
    pub(crate) fn unknown(&mut self) -> io::Result<()> {
        write!(self, "?")
    }

    // Puts `R`, for a refusal.
    pub(crate) fn refused(&mut self) -> io::Result<()> {
        write!(self, "R")
    }

    // Puts `-` after a space, for nothing.
    pub(crate) fn none(&mut self) -> io::Result<()> {
        write!(self, " -")
    }

    // Puts a flag, `0` or `1`.
    pub(crate) fn flag(&mut self, flag: bool) -> io::Result<()> {
        write!(self, "{}", u8::from(flag))
    }

    // Puts bytes in hexadecimal, two digits for each, or `-` where there are none.
    pub(crate) fn bytes(&mut self, bytes: &[u8]) -> io::Result<()> {
        if bytes.is_empty() {
            return write!(self, "-");
        }
        self.hex(bytes)
    }

    // Puts bytes in hexadecimal, two digits for each. The two are never written out apart, as the digits of a format may be.
    pub(crate) fn hex(&mut self, bytes: &[u8]) -> io::Result<()> {
        for byte in bytes {
            self.make_room()?;
            self.characters[self.count] = DIGITS[usize::from(*byte / 16)];
            self.characters[self.count + 1] = DIGITS[usize::from(*byte % 16)];
            self.count += 2;
        }
        Ok(())
    }

    // Puts the answer of a writer: how many bytes it wrote, or the place behind them, and the buffer that it left.
    pub(crate) fn wrote(&mut self, count: usize, buffer: &[u8]) -> io::Result<()> {
        write!(self, "{count} ")?;
        self.bytes(buffer)
    }

    // Puts what a writer answered, and the buffer that it left: a refusal has it only where it is not as the word of the question says
    // any more.
    pub(crate) fn written(
        &mut self,
        answer: Result<usize, Refusal>,
        word: &[u8],
        buffer: &[u8],
    ) -> io::Result<()> {
        if let Ok(count) = answer {
            return self.wrote(count, buffer);
        }
        self.refused()?;
        if words::says(word, buffer) {
            return Ok(());
        }
        write!(self, " ")?;
        self.bytes(buffer)
    }
}

// Puts what a reader gives of the BYTES that stand behind the name of a question, or `R`.
pub(crate) fn put_read<T: Drop, R, P>(
    line: &[u8],
    reader: R,
    put: P,
    text: &mut Text,
) -> io::Result<()>
where
    R: FnOnce(&[u8]) -> Result<T, Refusal>,
    P: FnOnce(T, &mut Text) -> io::Result<()>,
    requires reads { R.IsAlwaysCallable reader }
    requires puts { P.IsAlwaysCallable put }
{
    let mut space = [0u8; words::BYTES];
    match reader(words::bytes_in(line, 1, &mut space)) {
        Ok(found) => put(found, text),
        Err(_) => text.refused(),
    }
}
