// A number as text, in decimal. (Added by document 01, for the program `answer`.)
#![tactic(auto)]

ghost use Rattle.std.specs.Prelude.{◌≡◌, ◌≤◌, length};
ghost use Rattle.std.proofs.lemmas.List.Edits.{sets};
ghost use Rattle.zigbee_types.specs.Outcome.{answer, Wrote};
ghost use Rattle.zigbee_types.specs.Answers.{says};
ghost use Rattle.decimal.specs.Decimal.{decimal};

use zigbee_types::Refusal;

// How many digits a number has. (Recursion on the quotient by ten is document 01's form of a number's digits, here and below.)
#[tactic(auto, using(crate::proofs::Put::one_counted, crate::proofs::Put::more_fits, crate::proofs::Put::more_counted))]
fn digit_count(n: u64) -> usize
    ensures { result ≡ length (decimal n) }
{
    if n < 10 {
        return 1;
    }
    digit_count(n / 10) + 1
}

// Puts the digits of a number at the front of a buffer that has room for them, and tells the place behind them: those of the quotient
// by ten, and then the remainder.
#[tactic(auto, using(crate::proofs::Put::one_counted, crate::proofs::Put::one_room, crate::proofs::Put::one_put, crate::proofs::Put::more_fits, crate::proofs::Put::more_counted, crate::proofs::Put::more_before, crate::proofs::Put::more_room, crate::proofs::Put::more_put))]
fn put_decimal(out: &mut [u8], n: u64) -> usize
    requires { length (decimal n) ≤ length out.old }
    ensures { (result ≡ length (decimal n)) × (out.new ≡ sets out.old 0 (decimal n)) }
{
    if n < 10 {
        out[0] = b'0' + (n as u8);
        return 1;
    }
    let at = put_decimal(out, n / 10);
    out[at] = b'0' + ((n % 10) as u8);
    at + 1
}

// Writes a number in decimal at the front of a buffer, most significant digit first. Too short a buffer is refused, and nothing is
// written.
pub fn write_decimal(n: u64, out: &mut [u8]) -> Result<usize, Refusal>
    ensures { Wrote (answer (decimal n)) out.old (says result) out.new }
{
    if out.len() < digit_count(n) {
        return Err(Refusal::ShortBuffer);
    }
    Ok(put_decimal(out, n))
}
