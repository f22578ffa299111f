// The questions about fields (oracle/README.md, "Fields"). The library's functions want room for the field, so that is tested
// here.
ghost use Rattle.std.specs.Prelude.{◌≤◌};

use crate::out::Text;
use crate::{node, words};
use byte::Field;
use std::fmt::Radix;
use std::io;
use std::io::Write;

// Puts the answer to a question about fields, or hands the line on.
pub(crate) fn answer(line: &[u8], text: &mut Text) -> io::Result<()> {
    let questions = b"read_u8 b d;\
        read_u16 b d;\
        read_u64 b d;\
        write_u8 d 1 b;\
        write_u16 d 2 b;\
        write_u64 d 8 b";
    match words::which(line, questions) {
        Some(0) => read::<u8>(line, text),
        Some(1) => read::<u16>(line, text),
        Some(2) => read::<u64>(line, text),
        Some(3) => write(line, words::u8_in(line, 2), text),
        Some(4) => write(line, words::u16_in(line, 2), text),
        Some(5) => write(line, words::hex_in(line, 2), text),
        _ => node::answer(line, text),
    }
}

// Puts the field at a place and the place behind it, or `R`: behind the question's name stand BYTES PLACE.
fn read<T: Field + Radix>(line: &[u8], text: &mut Text) -> io::Result<()>
    requires { T.WIDTH ≤ 8 }
{
    let mut space = [0u8; words::BYTES];
    let bytes = words::bytes_in(line, 1, &mut space);
    let place = words::decimal_in(line, 2);
    if bytes.len() < place + T::WIDTH {
        return text.refused();
    }
    let field = T::read(bytes, place);
    let digits = 2 * T::WIDTH;
    write!(text, "{:0digits$X} {}", field.value, field.next)
}

// Puts the place behind a field that is written at a place, and the buffer then, or `R`: behind the question's name stand PLACE
// NUMBER BUFFER.
fn write<T: Field>(line: &[u8], number: T, text: &mut Text) -> io::Result<()>
    requires { T.WIDTH ≤ 8 }
{
    let place = words::decimal_in(line, 1);
    let mut space = [0u8; words::BYTES];
    let buffer = words::bytes_in(line, 3, &mut space);
    if buffer.len() < place + T::WIDTH {
        return text.refused();
    }
    let next = T::write(buffer, place, number);
    text.wrote(next, buffer)
}
