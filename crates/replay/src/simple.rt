// The question about the simple descriptor (oracle/README.md, "Descriptors").
use crate::out::Text;
use crate::words::{asks, u8_at, u16_at};
use crate::{tables, words};
use simple_descriptor::descriptor;
use std::io;
use zigbee_types::Refusal;

// Puts the answer to a question about the simple descriptor, or hands the line on.
pub(crate) fn answer(line: &[u8], text: &mut Text) -> io::Result<()> {
    if asks(line, b"EndpointDescriptor::write e c c b") {
        return write(line, text);
    }
    tables::answer(line, text)
}

// Puts the answer to a write: behind its name stand ENDPOINT CLUSTERS CLUSTERS BUFFER.
fn write(line: &[u8], text: &mut Text) -> io::Result<()> {
    let mut space = [0u8; words::BYTES];
    let buffer = words::bytes_in(line, 4, &mut space);
    let answer = write_endpoint(line, buffer);
    text.written(answer, words::word_of(line, 4), buffer)
}

// Writes the endpoint with its two lists.
fn write_endpoint(line: &[u8], buffer: &mut [u8]) -> Result<usize, Refusal> {
    let word = words::word_of(line, 1);
    let mut inputs = [0u16; words::CLUSTERS];
    let mut outputs = [0u16; words::CLUSTERS];
    descriptor::write(
        u8_at(word, 0),
        u16_at(word, 1),
        u16_at(word, 3),
        u8_at(word, 5),
        words::clusters_in(line, 2, &mut inputs),
        words::clusters_in(line, 3, &mut outputs),
        buffer,
    )
}
