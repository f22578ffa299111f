// A stream of bytes, split into its lines as it comes. The characters of a line that has begun stand in a buffer that the caller lends,
// the same at each call, and the buffer's length is the most that a line may have.
ghost use Rattle.std.specs.Prelude.{◌≡◌, drop};
ghost use Rattle.lines.specs.Splitter.{pending, grown, ended, split, last, Splits};

// How many characters the line has that has begun. A number above the buffer's length says that they are too many. (The buffer is no
// field: a splitter that borrowed it would do so between the calls too, and `OneSplit` speaks of the two apart.)
#[derive(Clone, Copy)]
pub struct Splitter {
    pub count: usize,
}

// What was found: a line, its characters at the front of the buffer; a line that is too long; or none yet. (These are three kinds, of
// which none refuses anything: an Option of a Result would be no plainer.)
#[derive(Clone, Copy)]
pub enum Found {
    Line(usize),
    Overlong,
    Nothing,
}

// The splitter after some characters, the place in the chunk behind them, and what was found.
#[derive(Clone, Copy)]
pub struct Split {
    pub splitter: Splitter,
    pub at: usize,
    pub found: Found,
}

// Puts a character behind those that a line has, where there is room, and tells how many they are then.
#[tactic(auto, using(crate::proofs::Grown::grown_put, crate::proofs::Grown::grown_full, crate::proofs::Grown::grown_past))]
fn put(line: &mut [u8], count: usize, character: u8) -> usize
    ensures { pending result line.new ≡ grown (pending count line.old) character }
{
    if count > line.len() {
        return count;
    }
    if count == line.len() {
        return count + 1;
    }
    line[count] = character;
    count + 1
}

// The line of so many characters that ends: whole, or too long.
#[tactic(auto, using(crate::proofs::Grown::ended_long, crate::proofs::Grown::ended_whole))]
fn ended(count: usize, line: &[u8]) -> Found
    ensures { result ≡ ended (pending count line.now) }
{
    if count > line.len() {
        return Found::Overlong;
    }
    Found::Line(count)
}

// The characters of a chunk from a place on; none where it ends before that.
fn behind(chunk: &[u8], at: usize) -> &[u8]
    ensures { result.now ≡ drop at chunk.now }
{
    chunk.get(at..).unwrap_or(&[])
}

impl Splitter {
    // No line has begun.
    pub fn new() -> Self
        ensures { result ≡ record { count = 0 } }
    {
        Self { count: 0 }
    }

    // Goes on with the characters of a chunk from a place on: up to a line's end, or all of them.
    pub fn next(self, chunk: &[u8], at: usize, line: &mut [u8]) -> Split
        ensures { Splits (split (pending self.count line.old) (drop at chunk.now)) at result line.new }
    {
        let rest = behind(chunk, at);
        let mut count = self.count;
        for (taken, &character) in rest.iter().enumerate() {
            if character == b'\n' {
                return Split {
                    splitter: Splitter { count: 0 },
                    at: at + taken + 1,
                    found: ended(count, line),
                };
            }
            count = put(line, count, character);
        }
        Split {
            splitter: Splitter { count },
            at: at + rest.len(),
            found: Found::Nothing,
        }
    }

    // The end of the input: the last line, if it has a character.
    #[tactic(auto, using(crate::proofs::Grown::last_none, crate::proofs::Grown::last_some))]
    pub fn end(self, line: &[u8]) -> Found
        ensures { result ≡ last (pending self.count line.now) }
    {
        let count = self.count;
        if count == 0 {
            return Found::Nothing;
        }
        ended(count, line)
    }
}
