// The words of a question, and what they say. Words have one space between them: a second space makes an empty word, which is
// of no kind.
//
// The kinds of arguments (oracle/README.md, "Lines"), each a letter:
//     1, 2, 8      a number of so many bytes, two digits for each
//     b            bytes
//     c            clusters
//     d            a place or a count in decimal, of at most nine digits
//     f            a flag
//     r, R         a reason of two, or of five
//     e            an endpoint
//     t, m, s, l   a named value: a logical type, a power mode, a power source, a level of one
//     S            power sources
//     N            a node
//     P            a power
//     B            an entry of the binding table
//     T            endpoint records
//     M            a server mask, or `-` for none
// What reads a word takes any word: one of another kind gives some number, or some bytes.
ghost use Rattle.std.specs.Prelude.{◌^◌, ◌<◌, ◌≤◌, ◌≡◌, length, eqb};

use crate::values::{Named, is_value};
use node_descriptor::LogicalType;
use power_names::{CurrentPowerMode, CurrentPowerSourceLevel, PowerSource};

// The most bytes of an argument: it has at most half as many as a question may have characters.
pub(crate) const BYTES: usize = 8192;

// The most clusters of an argument.
pub(crate) const CLUSTERS: usize = 4096;

// Which of some questions a line asks, the first being 0. They have a `;` between them. (By place: an enum would name each question a
// third time, beside the list and the match.)
pub(crate) fn which(line: &[u8], questions: &[u8]) -> Option<usize> {
    questions
        .split(|character| *character == b';')
        .position(|question| asks(line, question))
}

// Whether a line asks a question: its name, an argument of each of its kinds, and nothing else. The question is written as its
// name and the letters of its kinds, each after a space: `write_u16 d 2 b`. (Word by word, up to the first that is not of its kind.)
pub(crate) fn asks(line: &[u8], question: &[u8]) -> bool {
    let mut kinds = question.split(is_space);
    if !kinds.next().is_some_and(|name| is_named(line, name)) {
        return false;
    }
    let mut words = line.split(is_space).skip(1);
    for kind in kinds {
        if !words.next().is_some_and(|word| is_of(word, kind)) {
            return false;
        }
    }
    words.next().is_none()
}

// Whether the first word of a line is this name. (What stands behind the name is looked at first: few lines have a space there. The
// line's first word is not walked: it may be long.)
pub(crate) fn is_named(line: &[u8], name: &[u8]) -> bool {
    line.get(name.len()).is_none_or(is_space) && line.starts_with(name)
}

// Whether a character stands between two words.
pub(crate) fn is_space(character: &u8) -> bool
    ensures { result ≡ eqb character.now 32 }
{
    *character == b' '
}

// Whether a word is an argument of the kind that has this letter.
fn is_of(word: &[u8], kind: &[u8]) -> bool {
    match kind {
        b"1" => is_hex(word, 2),
        b"2" => is_hex(word, 4),
        b"8" => is_hex(word, 16),
        b"b" => is_list(word, 2),
        b"c" => is_list(word, 4),
        b"d" => is_decimal(word),
        b"f" => matches!(word, b"0" | b"1"),
        b"r" => is_reason(word, 2),
        b"R" => is_reason(word, 5),
        b"e" => is_hex(word, 12),
        b"t" => is_named_value::<LogicalType>(word),
        b"m" => is_named_value::<CurrentPowerMode>(word),
        b"s" => is_named_value::<PowerSource>(word),
        b"l" => is_named_value::<CurrentPowerSourceLevel>(word),
        b"S" => is_sources(word),
        b"N" => is_node(word),
        b"P" => is_power(word),
        b"B" => is_entry(word),
        b"T" => is_list(word, RECORD),
        b"M" => is_none(word) || is_hex(word, 4),
        _ => false,
    }
}

// How many digits a word has for each endpoint record.
pub(crate) const RECORD: usize = 28;

// Whether a word is so many hexadecimal digits.
fn is_hex(word: &[u8], digits: usize) -> bool {
    word.len() == digits && has_digits(word, 16)
}

// Whether a word says that there is none.
fn is_none(word: &[u8]) -> bool {
    matches!(word, b"-")
}

// Whether a word says a list: so many hexadecimal digits for each item, or `-` for none.
fn is_list(word: &[u8], digits: usize) -> bool
    requires { 0 < digits }
{
    is_none(word) || !word.is_empty() && word.len() % digits == 0 && has_digits(word, 16)
}

// Whether a word is the place of a value among so many.
fn is_reason(word: &[u8], count: u8) -> bool {
    is_hex(word, 2) && u8_at(word, 0) < count
}

// Whether a word is a named value.
fn is_named_value<T: Named>(word: &[u8]) -> bool {
    is_hex(word, 4) && is_value::<T>(u16_at(word, 0))
}

// Whether a word says power sources: four digits for each, or `-` for none.
fn is_sources(word: &[u8]) -> bool {
    is_list(word, 4)
        && word
            .chunks_exact(4)
            .all(|digits| is_value::<PowerSource>(u16_at(digits, 0)))
}

// Whether a word says a node: 32 digits, a logical type in the first four, and the two flags behind it each 0 or 1.
fn is_node(word: &[u8]) -> bool {
    is_hex(word, 32)
        && is_value::<LogicalType>(u16_at(word, 0))
        && u8_at(word, 2) <= 1
        && u8_at(word, 3) <= 1
}

// Whether a word says a power: a mode, a source and a level, four digits each.
fn is_power(word: &[u8]) -> bool {
    is_hex(word, 12)
        && is_value::<CurrentPowerMode>(u16_at(word, 0))
        && is_value::<PowerSource>(u16_at(word, 2))
        && is_value::<CurrentPowerSourceLevel>(u16_at(word, 4))
}

// Whether a word says an entry: 12 digits where its mode is 01, and 26 where it is 03.
pub(crate) fn is_entry(word: &[u8]) -> bool {
    match u8_at(word, 0) {
        1 => is_hex(word, 12),
        3 => is_hex(word, 26),
        _ => false,
    }
}

// Whether a word is a number in decimal, of at most nine digits, and without a zero in front that it does not need.
pub(crate) fn is_decimal(word: &[u8]) -> bool {
    match word {
        [] => false,
        [b'0', rest @ ..] => rest.is_empty(),
        _ => word.len() <= 9 && has_digits(word, 10),
    }
}

// Whether each character of a word is a digit of this base.
fn has_digits(word: &[u8], base: u8) -> bool {
    word.iter().all(|character| digit(*character) < base)
}

// What a character counts as a digit: 16 where it is none. (Not by `to_digit`, for which small letters are digits too.)
fn digit(character: u8) -> u8 {
    match character {
        b'0'..=b'9' => character - b'0',
        b'A'..=b'F' => character - b'A' + 10,
        _ => 16,
    }
}

// The number in a word of a line, of at most eight bytes.
pub(crate) fn hex_in(line: &[u8], word: usize) -> u64 {
    hex(word_of(line, word))
}

// The place or the count in a word of a line.
pub(crate) fn decimal_in(line: &[u8], word: usize) -> usize
    ensures { result < 1000000000 }
{
    decimal(word_of(line, word))
}

// The number of one byte in a word of a line.
pub(crate) fn u8_in(line: &[u8], word: usize) -> u8 {
    u8_at(word_of(line, word), 0)
}

// The number of two bytes in a word of a line, or what stands for its named value.
pub(crate) fn u16_in(line: &[u8], word: usize) -> u16 {
    u16_at(word_of(line, word), 0)
}

// Puts the bytes in a word of a line at the front of a slice, as many as it has room for, and answers that front.
pub(crate) fn bytes_in<'a>(line: &[u8], word: usize, space: &'a mut [u8]) -> &'a mut [u8]
    ensures { length result.now ≤ length space.old }
{
    items_in(word_of(line, word), 2, |digits| u8_at(digits, 0), space)
}

// The same for the numbers of the named values in a word of a line, of names and of reserved values alike.
pub(crate) fn numbers_in<'a>(line: &[u8], word: usize, space: &'a mut [u8]) -> &'a mut [u8]
    ensures { length result.now ≤ length space.old }
{
    items_in(word_of(line, word), 4, |digits| u8_at(digits, 1), space)
}

// The same for the clusters in a word of a line.
pub(crate) fn clusters_in<'a>(line: &[u8], word: usize, space: &'a mut [u16]) -> &'a mut [u16]
    ensures { length result.now ≤ length space.old }
{
    items_in(word_of(line, word), 4, |digits| u16_at(digits, 0), space)
}

// Puts the items of a list that a word says, each read from so many digits, at the front of a slice, as many as it has room for, and
// answers that front.
pub(crate) fn items_in<'a, T: Copy, F: Fn(&[u8]) -> T>(
    word: &[u8],
    digits: usize,
    read: F,
    space: &'a mut [T],
) -> &'a mut [T]
    requires some { 0 < digits }
    requires reads { F.IsAlwaysCallable read }
    ensures { length result.now ≤ length space.old }
{
    let items = word.chunks_exact(digits);
    let count = items.len().min(space.len());
    for (place, item) in space.iter_mut().zip(items) {
        *place = read(item);
    }
    &mut space[..count]
}

// Whether a word says just these bytes, of which it has as many.
pub(crate) fn says(word: &[u8], bytes: &[u8]) -> bool {
    word.chunks_exact(2)
        .zip(bytes)
        .all(|(digits, byte)| u8_at(digits, 0) == *byte)
}

// The byte of a word that stands behind so many others, two digits each. Where the word has none there, this is 0. (This and the next
// are `number_at` with its width in the type.)
pub(crate) fn u8_at(word: &[u8], at: usize) -> u8
    requires { at < 2 ^ 16 }
{
    (number_at(word, at, 1) % 256) as u8
}

// The number of two bytes of a word that stands behind so many bytes, the high byte first.
pub(crate) fn u16_at(word: &[u8], at: usize) -> u16
    requires { at < 2 ^ 16 }
{
    (number_at(word, at, 2) % 65536) as u16
}

// The number of so many bytes of a word that stands behind so many others, the high byte first. Where the word does not have it, this
// is 0. (The bound of a place, here and in the two above, is of one number: each call gives a constant.)
pub(crate) fn number_at(word: &[u8], at: usize, bytes: usize) -> u64
    requires { (at < 2 ^ 16) × (bytes ≤ 8) }
{
    word.get(2 * at..2 * (at + bytes)).map_or(0, hex)
}

// The number that hexadecimal digits say. What 64 bits have no room for is left out.
fn hex(digits: &[u8]) -> u64 {
    digits
        .iter()
        .fold(0, |number, last| (number << 4) | u64::from(digit(*last)))
}

// The number that decimal digits say. What nine digits have no room for is left out.
fn decimal(digits: &[u8]) -> usize
    ensures { result < 1000000000 }
{
    let number = digits.iter().fold(
        0,
        |number, last| number % 100000000 * 10 + usize::from(digit(*last) % 10),
    );
    number % 1000000000
}

// How many words stand behind the name of a question.
pub(crate) fn arguments(line: &[u8]) -> usize {
    line.iter().filter(|character| is_space(character)).count()
}

// The word of a line that stands behind so many spaces, or an empty one where there is none.
pub(crate) fn word_of(line: &[u8], spaces: usize) -> &[u8] {
    line.split(is_space).nth(spaces).unwrap_or(b"")
}
