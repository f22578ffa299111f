// Little-endian fields at a place of a slice (document 01, module 1), and bits of a number. What reads or puts a field hands back
// the place behind it, where the next field begins.
// (Named after the crate by which the Rust reads and writes its fields.)
#![tactic(auto, using(zigbee_types::proofs::Fields::put_byte, crate::proofs::LittleEndian::bytes_read, crate::proofs::LittleEndian::bytes_put))]

ghost use Rattle.std.specs.Prelude.{ℕ, ◌≡◌, ◌+◌, ◌%◌, ◌≤◌, length};
ghost use Rattle.zigbee_types.specs.Bytes.{bit_at, FieldRead, FieldPut};

// What was read, and the place behind it.
#[derive(Clone, Copy)]
pub struct Read<T> {
    pub value: T,
    pub next: usize,
}

// A number that stands in a frame: of how many bytes, and which number it is.
pub trait Field: Copy {
    ghost WIDTH: { ℕ };

    const WIDTH: usize;

    ghost number: { Self → ℕ };

    // The number in the bytes at a place, the low byte first.
    fn read(bytes: &[u8], at: usize) -> Read<Self>
        requires { at + WIDTH ≤ length bytes.now }
        ensures { FieldRead WIDTH bytes.now at (number result.value) result.next };

    // Puts a number in the bytes at a place, the low byte first.
    fn write(out: &mut [u8], at: usize, x: Self) -> usize
        requires { at + WIDTH ≤ length out.old }
        ensures { FieldPut WIDTH (number x) out.old at result out.new };
}

impl Field for u8 {
    ghost WIDTH = { 1 };

    const WIDTH: usize = 1;

    ghost number = { λ x. x };

    fn read(bytes: &[u8], at: usize) -> Read<u8> {
        Read {
            value: bytes[at],
            next: at + 1,
        }
    }

    fn write(out: &mut [u8], at: usize, x: u8) -> usize {
        out[at] = x;
        at + 1
    }
}

impl Field for u16 {
    ghost WIDTH = { 2 };

    const WIDTH: usize = 2;

    ghost number = { λ x. x };

    fn read(bytes: &[u8], at: usize) -> Read<u16> {
        Read {
            value: u16::from_le_bytes([bytes[at], bytes[at + 1]]),
            next: at + 2,
        }
    }

    fn write(out: &mut [u8], at: usize, x: u16) -> usize {
        out[at..at + 2].copy_from_slice(&x.to_le_bytes());
        at + 2
    }
}

impl Field for u64 {
    ghost WIDTH = { 8 };

    const WIDTH: usize = 8;

    ghost number = { λ x. x };

    fn read(bytes: &[u8], at: usize) -> Read<u64> {
        Read {
            value: u64::from_le_bytes([
                bytes[at],
                bytes[at + 1],
                bytes[at + 2],
                bytes[at + 3],
                bytes[at + 4],
                bytes[at + 5],
                bytes[at + 6],
                bytes[at + 7],
            ]),
            next: at + 8,
        }
    }

    fn write(out: &mut [u8], at: usize, x: u64) -> usize {
        out[at..at + 8].copy_from_slice(&x.to_le_bytes());
        at + 8
    }
}

// Whether bit i of a number is set, counted from the lowest, 0.
#[tactic(auto, using(zigbee_types::proofs::Bits::no_bit, zigbee_types::proofs::Bits::shifted_tells))]
pub fn bit_at(i: u8, x: u16) -> bool
    ensures { result ≡ bit_at i x }
{
    i < 16 && (x & (1 << i)) != 0
}

// The low four bits of a byte.
pub fn nibble(x: u8) -> u8
    ensures { result ≡ x % 16 }
{
    x & 0b1111
}
