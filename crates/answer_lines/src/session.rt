// What the program `answer` writes for a line, at the end of its input, and turn by turn (document 01, "Counter-cases").
ghost use Rattle.std.specs.Prelude.{ℕ, ◌≤◌, ◌≡◌, length, take, drop, replicate, Ok};
ghost use Rattle.zigbee_types.specs.Answers.{says};
ghost use Rattle.zigbee_types.specs.Outcome.{answer, Wrote};
ghost use Rattle.zigbee_types.specs.Refusals.{refusal_number};
ghost use Rattle.lines.specs.Chunks.{found_line};
ghost use Rattle.lines.specs.Lines.{whole};
ghost use Rattle.lines.specs.Splitter.{pending};
ghost use Rattle.our_device.specs.OurDevice.{ours};
ghost use Rattle.answer_lines.specs.Session.{LINE_NUMBER, heard, said, spoken, count_text, closing, session, refusal_text, response_text, Inside, Ends, Tells};
ghost use Rattle.answer_lines.specs.Turns.{new_session, taken_within, Turns, ending};

use aps_binding_table::binding::BindingTable;
use decimal::write_decimal;
use hex_lines::{parse_line, write_line};
use lines::splitter::{Found, Splitter};
use our_device::our_response;
use zdo_dispatcher::dispatcher::Response;
use zigbee_types::Refusal;

// The longest line, without its line feed.
pub const LINE: usize = 4096;

// Room for any text, with its line feed: that of a reply that fills its buffer.
pub const TEXT: usize = 262;

// Room for the answer to the last line and for the number of entries: any text, and the longest number behind its word.
const LAST: usize = 292;

// How many entries the binding table may hold.
const LIMIT: usize = 32;

// How many bytes the reply's buffer has.
const ROOM: usize = 128;

// The longest payload of a line.
const PAYLOAD: usize = 2045;

// What is kept from turn to turn: the binding table, and how much of a line has begun.
#[derive(Clone, Copy)]
pub struct Session {
    pub table: BindingTable,
    pub splitter: Splitter,
}

// The session after a turn, the place in the chunk behind what was taken, and the length of what was written. (A length, here and below:
// the buffer is the caller's.)
#[derive(Clone, Copy)]
pub struct Turn {
    pub session: Session,
    pub at: usize,
    pub length: usize,
}

// The binding table after a line, and how much of its text was written, without the line feed.
#[derive(Clone, Copy)]
struct Answered {
    table: BindingTable,
    written: Result<usize, Refusal>,
}

// The same, with the line feed.
#[derive(Clone, Copy)]
struct Spoken {
    table: BindingTable,
    length: usize,
}

// A buffer for the longest line.
pub fn line_buffer() -> [u8; LINE]
    ensures { result ≡ replicate LINE_NUMBER 0 }
{
    [0; LINE]
}

// ---- texts, without the line feed

// Writes a text at the front of a buffer.
fn write_text(text: &[u8], out: &mut [u8]) -> Result<usize, Refusal>
    ensures { Wrote (answer text.now) out.old (says result) out.new }
{
    if out.len() < text.len() {
        return Err(Refusal::ShortBuffer);
    }
    out[..text.len()].copy_from_slice(text);
    Ok(text.len())
}

// Writes a refusal: `R` and its number.
fn write_refusal(why: Refusal, out: &mut [u8]) -> Result<usize, Refusal>
    ensures { Wrote (answer (refusal_text (refusal_number why))) out.old (says result) out.new }
{
    write_text(&[b'R', b'0' + u8::from(why)], out)
}

// Writes what a request came to; of a reply, its bytes stand at the front of a buffer.
fn write_response(
    response: Result<Response, Refusal>,
    reply: &[u8],
    out: &mut [u8],
) -> Result<usize, Refusal>
    requires { (cluster n : ℕ) → response ≡ Ok (Response.Reply cluster n) → n ≤ length reply.now }
    ensures { Wrote (answer (response_text response reply.now)) out.old (says result) out.new }
{
    match response {
        Ok(Response::Reply { cluster, length }) => write_line(cluster, &reply[..length], out),
        Ok(Response::Leave(_)) => write_text(b"leave", out),
        Err(why) => write_refusal(why, out),
    }
}

// ---- one line

// Answers a request.
fn answer_request(table: BindingTable, cluster: u16, payload: &[u8], out: &mut [u8]) -> Answered
    ensures { Tells (heard ours table (record { cluster = cluster; payload = payload.now })) 261 out.old (says result.written) result.table out.new }
{
    let mut reply = [0u8; ROOM];
    let responded = our_response(table, cluster, payload, &mut reply);
    let response = responded.response;
    let table = responded.table;
    Answered {
        table,
        written: write_response(response, &reply, out),
    }
}

// Answers a line that is not too long. (Its payload always has room.)
fn answer_line(table: BindingTable, line: &[u8], out: &mut [u8]) -> Answered
    requires { length line.now ≤ 4096 }
    ensures { Tells (said ours table (whole line.now)) 261 out.old (says result.written) result.table out.new }
{
    let mut payload = [0u8; PAYLOAD];
    let parsed = parse_line(line, &mut payload).unwrap_or(None);
    match parsed {
        Some(request) => answer_request(table, request.cluster, &payload[..request.length], out),
        None => Answered {
            table,
            written: write_text(b"?", out),
        },
    }
}

// ---- with the line feed

// Puts a line feed behind a text that was written, and tells the place behind it. (The text had room. A `match`, since an `unwrap_or`
// could not write the line feed.)
fn end_line(written: Result<usize, Refusal>, out: &mut [u8]) -> usize
    requires { Inside (says written) out.old }
    ensures { Ends (says written) out.old (answer result) out.new }
{
    match written {
        Ok(n) => {
            out[n] = b'\n';
            n + 1
        }
        Err(_) => 0,
    }
}

// The front of a buffer, of so many characters, or all of it where there are fewer.
fn front(line: &[u8], count: usize) -> &[u8]
    ensures { result.now ≡ take count line.now }
{
    line.get(..count).unwrap_or(line)
}

// Answers what the splitter found: writes the answer to a line, or nothing where no line has ended.
fn answer_found(table: BindingTable, found: Found, line: &[u8; LINE], out: &mut [u8]) -> Spoken
    requires { 262 ≤ length out.old }
    ensures { Tells (spoken ours table (found_line found line.now)) 262 out.old (answer result.length) result.table out.new }
{
    match found {
        Found::Line(count) => {
            let answered = answer_line(table, front(line, count), out);
            let table = answered.table;
            let written = answered.written;
            Spoken {
                table,
                length: end_line(written, out),
            }
        }
        Found::Overlong => {
            let written = write_text(b"?", out);
            Spoken {
                table,
                length: end_line(written, out),
            }
        }
        Found::Nothing => Spoken { table, length: 0 },
    }
}

// ---- the end of the input

// Writes how many entries the binding table holds, without the line feed. (The digits have room, behind nine characters.)
fn write_count(count: usize, out: &mut [u8]) -> usize
    requires { 30 ≤ length out.old }
    ensures { Wrote (answer (count_text count)) out.old (answer result) out.new }
{
    let _ = write_text(b"bindings ", out);
    let digits = write_decimal(count as u64, &mut out[9..]);
    9 + digits.unwrap_or(0)
}

// The same, with the line feed.
fn write_closing(count: usize, out: &mut [u8]) -> usize
    requires { 30 ≤ length out.old }
    ensures { Wrote (answer (closing count)) out.old (answer result) out.new }
{
    let end = write_count(count, out);
    out[end] = b'\n';
    end + 1
}

// Writes the answer to the last line, if one was found, and then how many entries the binding table holds.
fn write_last(table: BindingTable, found: Found, line: &[u8; LINE], out: &mut [u8]) -> usize
    requires { 292 ≤ length out.old }
    ensures { Wrote (answer (session ours table (found_line found line.now))) out.old (answer result) out.new }
{
    let spoken = answer_found(table, found, line, out);
    let count = spoken.table.count;
    let end = spoken.length;
    end + write_closing(count, &mut out[end..])
}

// ---- in turns

impl Session {
    // No binding, and no line that has begun.
    pub fn new() -> Self
        ensures { result ≡ new_session }
    {
        Session {
            table: BindingTable::new(LIMIT),
            splitter: Splitter::new(),
        }
    }

    // A turn: takes the characters of a chunk from a place on, up to a line's end or all of them, and writes the answer to the line that
    // ended, if one did, at the front of a buffer. Where that has no room for every text, nothing is taken and nothing is written.
    pub fn next(self, chunk: &[u8], at: usize, line: &mut [u8; LINE], out: &mut [u8]) -> Turn
        ensures { Turns (taken_within (length out.old) (pending self.splitter.count line.old) (drop at chunk.now)) self.table at out.old result line.new out.new }
    {
        if out.len() < TEXT {
            return Turn {
                session: self,
                at,
                length: 0,
            };
        }
        let table = self.table;
        let splitter = self.splitter;
        let split = splitter.next(chunk, at, line);
        let found = split.found;
        let spoken = answer_found(table, found, line, out);
        let table = spoken.table;
        let splitter = split.splitter;
        Turn {
            session: Session { table, splitter },
            at: split.at,
            length: spoken.length,
        }
    }

    // The last turn, the end of the input: answers the line that has begun, if it has a character, and then tells how many entries the
    // binding table holds. Too short a buffer is refused, and nothing is written.
    pub fn end(self, line: &[u8; LINE], out: &mut [u8]) -> Result<usize, Refusal>
        ensures { Wrote (answer (ending (pending self.splitter.count line.now) self.table)) out.old (says result) out.new }
    {
        let table = self.table;
        let splitter = self.splitter;
        let found = splitter.end(line);
        let mut text = [0u8; LAST];
        let length = write_last(table, found, line, &mut text);
        write_text(&text[..length], out)
    }
}
