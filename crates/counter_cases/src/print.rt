// Printing, to the standard output.
ghost use Rattle.std.specs.Prelude.{◌≤◌, length};

use std::{fmt, io};
use zigbee_types::Refusal;

// Numbers in hexadecimal, each of so many digits and with a space before it.
#[derive(Clone, Copy)]
pub(crate) struct Hex<'a, N> {
    numbers: &'a [N],
    digits: usize,
}

impl<'a, N: Into<u64> + Copy> fmt::Display for Hex<'a, N> {
    fn fmt<W: fmt::Write>(&self, f: &mut fmt::Formatter<W>) -> fmt::Result {
        let digits = self.digits;
        for &number in self.numbers {
            let n: u64 = number.into();
            write!(f, " {n:0digits$x}")?;
        }
        Ok(())
    }
}

// Bytes in hexadecimal.
pub(crate) fn bytes(numbers: &[u8]) -> Hex<u8> {
    Hex { numbers, digits: 2 }
}

// Numbers of two bytes in hexadecimal.
pub(crate) fn words(numbers: &[u16]) -> Hex<u16> {
    Hex { numbers, digits: 4 }
}

// A refusal: `R` and its number, with a space before them.
pub(crate) fn refusal(rt: &impl Print, why: Refusal) -> io::Result<()> {
    print!(rt; " R{}", u8::from(why))
}

// What a call gave, printed so, or the refusal.
pub(crate) fn or_refusal<T, F: FnOnce(T) -> io::Result<()>>(
    rt: &impl Print,
    given: Result<T, Refusal>,
    print: F,
) -> io::Result<()>
    requires { F.IsAlwaysCallable print }
{
    match given {
        Ok(value) => print(value),
        Err(why) => refusal(rt, why),
    }
}

// What is there, printed so, or that there is nothing.
pub(crate) fn or_none<T, F: FnOnce(T) -> io::Result<()>>(
    rt: &impl Print,
    there: Option<T>,
    print: F,
) -> io::Result<()>
    requires { F.IsAlwaysCallable print }
{
    match there {
        Some(value) => print(value),
        None => print!(rt; " none"),
    }
}

// How many bytes a writer wrote, or why it wrote none, and all of the buffer then. Ends the line.
pub(crate) fn written(
    rt: &impl Print,
    written: Result<usize, Refusal>,
    buffer: &[u8],
) -> io::Result<()> {
    or_refusal(rt, written, |count| print!(rt; " {count}"))?;
    println!(rt; "{}", bytes(buffer))
}

// What a writer makes of a buffer of so many bytes, which held 0xEE before. Ends the line. (Whoever hands its room on asks for the same bound:
// with a type for it, each call would make a struct of a number.)
pub(crate) fn in_buffer<F: FnOnce(&mut [u8]) -> Result<usize, Refusal>>(
    rt: &impl Print,
    room: usize,
    write: F,
) -> io::Result<()>
    requires fits { room ≤ 71 }
    requires callable { F.IsAlwaysCallable write }
{
    let mut out = [0xEEu8; 71];
    let buffer = &mut out[0..room];
    let count = write(buffer);
    written(rt, count, buffer)
}

// A line with a name, how much room a buffer has, and what a writer makes of it.
pub(crate) fn in_room<F: FnOnce(&mut [u8]) -> Result<usize, Refusal>>(
    rt: &impl Print,
    name: &str,
    room: usize,
    write: F,
) -> io::Result<()>
    requires fits { room ≤ 71 }
    requires callable { F.IsAlwaysCallable write }
{
    print!(rt; "{name} room {room}")?;
    in_buffer(rt, room, write)
}

// Lines for a buffer with two bytes to spare, for one of so many bytes, and for one of a byte less. (The length is of what is written there.)
pub(crate) fn in_three_rooms<F: Fn(&mut [u8]) -> Result<usize, Refusal>>(
    rt: &impl Print,
    name: &str,
    length: usize,
    write: F,
) -> io::Result<()>
    requires fits { (1 ≤ length) × (length ≤ 69) }
    requires callable { F.IsAlwaysCallable write }
{
    in_room(rt, name, length + 2, &write)?;
    in_room(rt, name, length, &write)?;
    in_room(rt, name, length - 1, &write)
}

// A line with a name, how many bytes there are, and what a reader prints of them.
pub(crate) fn of_bytes<P: Print, F: Fn(&P, &[u8]) -> io::Result<()>>(
    rt: &P,
    name: &str,
    print: F,
    bytes: &[u8],
) -> io::Result<()>
    requires { F.IsAlwaysCallable print }
{
    print!(rt; "{name} length {}", bytes.len())?;
    print(rt, bytes)?;
    println!(rt)
}

// Lines for all bytes, for so many of them, and for one less.
pub(crate) fn of_three_lengths<P: Print, F: Fn(&P, &[u8]) -> io::Result<()>>(
    rt: &P,
    name: &str,
    print: F,
    bytes: &[u8],
    shortest: usize,
) -> io::Result<()>
    requires callable { F.IsAlwaysCallable print }
    requires within { (1 ≤ shortest) × (shortest ≤ length bytes.now) }
{
    of_bytes(rt, name, &print, bytes)?;
    of_bytes(rt, name, &print, &bytes[..shortest])?;
    of_bytes(rt, name, &print, &bytes[..shortest - 1])
}
