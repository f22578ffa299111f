// Answers requests: a request on each line of standard input, and its answer on a line of standard output (document 01,
// "Counter-cases"). The input may be of any length. Answers wait in a buffer until it is full or the input that was read is used up, so
// that whoever types a line sees its answer.
#![tactic(auto)]

ghost use Rattle.std.specs.Prelude.{◌+◌, ◌≤◌, ◌<◌, ◌≡◌, length, IfOk, OnErr};

use answer_lines::session::{LINE, Session, TEXT, Turn, line_buffer};
use std::io;
use std::io::Read;

// How many bytes the input's buffer has, and how many the answers' has.
const CHUNK: usize = 65536;

// The answers that wait: those at the front of a buffer, up to a place.
#[derive(Drop)]
struct Waiting {
    buffer: [u8; CHUNK],
    end: usize,
    ghost within: { end ≤ length buffer },
}

impl Waiting {
    // Writes out what waits, and then nothing waits. Where that fails, it still waits.
    fn write_out(&mut self, rt: &impl Print) -> io::Result<()>
        ensures buffer { self.new.buffer ≡ self.old.buffer }
        ensures none { IfOk result (λ done. self.new.end ≡ 0) }
        ensures still { OnErr result (self.new.end ≡ self.old.end) }
    {
        rt.write_all(&self.buffer[..self.end])?;
        self.end = 0;
        Ok(())
    }

    // Writes out what waits where there is no room for the longest text behind it. Only that write fails.
    fn make_room(&mut self, rt: &impl Print) -> io::Result<()>
        ensures buffer { self.new.buffer ≡ self.old.buffer }
        ensures room { IfOk result (λ done. self.new.end + 262 ≤ length self.new.buffer) }
        ensures full { OnErr result (length self.old.buffer < self.old.end + 262) }
        ensures still { OnErr result (self.new.end ≡ self.old.end) }
    {
        if self.buffer.len() - self.end < TEXT {
            self.write_out(rt)?;
        }
        Ok(())
    }

    // A turn whose answer is put behind what waits, and waits then too.
    fn answer(&mut self, session: Session, chunk: &[u8], at: usize, line: &mut [u8; LINE]) -> Turn
        requires { (at < length chunk.now) × (self.old.end + 262 ≤ length self.old.buffer) }
        ensures { (at < result.at) × (self.new.end ≡ self.old.end + result.length) }
    {
        let turn = session.next(chunk, at, line, &mut self.buffer[self.end..]);
        self.end += turn.length;
        turn
    }

    // The end of the input: puts the answer to the last line, if it has a character, and how many entries the binding table holds, behind
    // what waits, and writes that out. (Nothing waits before that, so the buffer has room for it.)
    fn finish(&mut self, rt: &impl Print, session: Session, line: &[u8; LINE]) -> io::Result<()> {
        let written = session.end(line, &mut self.buffer[self.end..]);
        if let Ok(n) = written {
            self.end += n;
            self.write_out(rt)?;
        }
        Ok(())
    }
}

// Answers the lines that end in a chunk, turn by turn, and writes the answers out. (The place comes back from each turn, which takes any
// number of characters: a `for` could not count it.)
fn answer_chunk(
    rt: &impl Print,
    begun: Session,
    chunk: &[u8],
    line: &mut [u8; LINE],
    waiting: &mut Waiting,
) -> io::Result<Session>
    ensures { IfOk result (λ session. waiting.new.end ≡ 0) }
{
    let mut session = begun;
    let mut at: usize = 0;
    while at < chunk.len() {
        waiting.make_room(rt)?;
        let turn = waiting.answer(session, chunk, at, line);
        session = turn.session;
        at = turn.at;
    }
    waiting.write_out(rt)?;
    Ok(session)
}

// Reads to the end of the input, chunk by chunk. A proved loop has to end, so this one has a number of reads that no input takes.
fn answer_all(
    rt: &(impl Input + Print),
    input: &mut [u8],
    line: &mut [u8; LINE],
    waiting: &mut Waiting,
) -> io::Result<()> {
    let mut reader = rt.reader();
    let mut session = Session::new();
    for _ in 0..u64::MAX {
        let read = reader.read(input)?;
        if read == 0 {
            return waiting.finish(rt, session, line);
        }
        session = answer_chunk(rt, session, &input[..read], line, waiting)?;
    }
    Ok(())
}

// The input, the answers that wait and the line that has begun have a buffer each.
fn main(rt: HostRuntime) -> io::Result<()> {
    let mut input = [0u8; CHUNK];
    let mut line = line_buffer();
    let mut waiting = Waiting {
        buffer: [0u8; CHUNK],
        end: 0,
    };
    answer_all(&rt, &mut input, &mut line, &mut waiting)
}
