// Lines of hexadecimal digits: a cluster, a space, and bytes. (Added by document 01, for the program `answer`.)
#![tactic(auto)]

ghost use Rattle.std.specs.Prelude.{◌≡◌, true, [], ◌∷◌, ◌+◌, ◌*◌, ◌≤◌, ◌<◌, length};
ghost use Rattle.zigbee_types.specs.Lists.{all};
ghost use Rattle.zigbee_types.specs.Outcome.{answer, Wrote};
ghost use Rattle.zigbee_types.specs.Answers.{says};
ghost use Rattle.hex_lines.specs.Hex.{digit_value, is_digit, bytes_in, capital, digits_of, BytesPut};
ghost use Rattle.hex_lines.specs.RequestLine.{is_request, cluster_in, request_in, LineRead, hex_line};

use zigbee_types::Refusal;

// A request that was read: its cluster, and the length of its payload, which stands in the caller's buffer.
#[derive(Clone, Copy)]
pub struct ParsedRequest {
    pub cluster: u16,
    pub length: usize,
}

// The characters that a line has in front of its bytes: four digits and a space.
const FRONT: usize = 5;

// ---- reading

// The value of a digit of either case, and 16 for any other character. (This and `capital` are the two tables of a digit, which the
// definitions have too.)
#[tactic(auto, using(crate::proofs::Digits::inside, crate::proofs::Digits::below, crate::proofs::Digits::above, crate::proofs::Digits::value_decimal, crate::proofs::Digits::value_capital, crate::proofs::Digits::value_small, crate::proofs::Digits::value_none))]
fn digit_value(character: u8) -> u8
    ensures { result ≡ digit_value character }
{
    match character {
        b'0'..=b'9' => character - b'0',
        b'A'..=b'F' => character - 55,
        b'a'..=b'f' => character - 87,
        _ => 16,
    }
}

// Whether each character is a digit.
fn are_digits(characters: &[u8]) -> bool
    ensures { result ≡ all is_digit characters.now }
{
    characters
        .iter()
        .all(|character| digit_value(*character) < 16)
}

// Whether a line is a request's: four digits, a space, and two digits for each byte, of which there is one or more.
#[tactic(auto, using(crate::proofs::Request::line_short, crate::proofs::Request::line_even, crate::proofs::Request::line_front, crate::proofs::Request::line_tested))]
fn is_request(line: &[u8]) -> bool
    ensures { result ≡ is_request line.now }
{
    if line.len() < 7 {
        return false;
    }
    if line.len() % 2 == 0 {
        return false;
    }
    are_digits(&line[..4]) & (line[4] == b' ') & are_digits(&line[FRONT..])
}

// The byte that two digits stand for, the high one first.
fn byte_of(high: u8, low: u8) -> u8
    requires high_bound { digit_value high < 16 }
    requires low_bound { digit_value low < 16 }
    ensures { result ≡ 16 * digit_value high + digit_value low }
{
    16 * digit_value(high) + digit_value(low)
}

// The cluster of a request: the number of its first four digits, the first the highest.
#[tactic(auto, using(crate::proofs::Request::request_long, crate::proofs::Request::request_digit, crate::proofs::Request::cluster_is))]
fn cluster_of(line: &[u8]) -> u16
    requires { is_request line.now ≡ true }
    ensures { result ≡ cluster_in line.now }
{
    256 * (byte_of(line[0], line[1]) as u16) + (byte_of(line[2], line[3]) as u16)
}

// Puts the bytes that digits stand for at the front of a buffer that has room for them, and tells the place behind them.
fn put_payload(out: &mut [u8], digits: &[u8]) -> usize
    requires digits_value { all is_digit digits.now ≡ true }
    requires digits_in_bounds { length (bytes_in digits.now) ≤ length out.old }
    ensures { BytesPut (bytes_in digits.now) out.old 0 result out.new }
{
    for (i, pair) in digits.chunks_exact(2).enumerate() {
        out[i] = byte_of(pair[0], pair[1]);
    }
    digits.len() / 2
}

// Reads a line. A request's payload is put at the front of the buffer, and its cluster and the payload's length are told. A line that
// is no request, and a payload that is longer than the buffer, leave the buffer as it was.
pub fn parse_line(line: &[u8], payload: &mut [u8]) -> Result<Option<ParsedRequest>, Refusal>
    ensures { LineRead (request_in line.now) payload.old (says result) payload.new }
{
    if !is_request(line) {
        return Ok(None);
    }
    let digits = &line[FRONT..];
    if payload.len() < digits.len() / 2 {
        return Err(Refusal::ShortBuffer);
    }
    let length = put_payload(payload, digits);
    Ok(Some(ParsedRequest {
        cluster: cluster_of(line),
        length,
    }))
}

// ---- writing

// The digit of a number below 16, in capitals.
#[tactic(auto, using(crate::proofs::Put::capital_low, crate::proofs::Put::capital_high))]
fn capital(n: u8) -> u8
    requires { n < 16 }
    ensures { result ≡ capital n }
{
    if n < 10 {
        return b'0' + n;
    }
    55 + n
}

// Puts the two digits of a byte at a place, the high one first, and tells the place behind them. (A place passed and returned is document
// 01's form of `&mut offset`, here and below.)
fn put_pair(out: &mut [u8], at: usize, byte: u8) -> usize
    requires { at + 2 ≤ length out.old }
    ensures { BytesPut (digits_of (byte ∷ [])) out.old at result out.new }
{
    out[at] = capital(byte / 16);
    out[at + 1] = capital(byte % 16);
    at + 2
}

// Puts the digits of bytes from a place on, and tells the place behind them.
fn put_digits(out: &mut [u8], at: usize, bytes: &[u8]) -> usize
    requires { at + 2 * length bytes.now ≤ length out.old }
    ensures { BytesPut (digits_of bytes.now) out.old at result out.new }
{
    let mut at = at;
    for &byte in bytes {
        at = put_pair(out, at, byte);
    }
    at
}

// Writes a cluster and bytes as a line at the front of a buffer, in capitals. Too short a buffer is refused, and nothing is written.
pub fn write_line(cluster: u16, bytes: &[u8], out: &mut [u8]) -> Result<usize, Refusal>
    ensures { Wrote (answer (hex_line cluster bytes.now)) out.old (says result) out.new }
{
    if out.len() < FRONT {
        return Err(Refusal::ShortBuffer);
    }
    if (out.len() - FRONT) / 2 < bytes.len() {
        return Err(Refusal::ShortBuffer);
    }
    let at = put_pair(out, 0, (cluster / 256) as u8);
    let at = put_pair(out, at, (cluster % 256) as u8);
    out[at] = b' ';
    Ok(put_digits(out, at + 1, bytes))
}
