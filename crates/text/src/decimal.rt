// Numbers in decimal.

ghost use Rattle.std.specs.Prelude.{◌≡◌, ◌≤◌, length};
ghost use Rattle.words.specs.Lists.{over};
ghost use Rattle.text.specs.Decimal.{decimal};

// How many digits n has.
#[tactic(auto, using(crate::proofs::DecimalLaws::small, crate::proofs::DecimalLaws::one_more, crate::proofs::DecimalLaws::word_short))]
pub(crate) fn width(n: u64) -> usize
    ensures { (result ≡ length (decimal n)) × (result ≤ 20) }
{
    if n < 10 { 1 } else { width(n / 10) + 1 }
}

// Fills the digits of n from the start of a lent part, and gives how many there are. No `write!`: only the part behind the words is
// lent, and its digits alone are filled.
#[tactic(auto, using(crate::proofs::DecimalLaws::small, crate::proofs::DecimalLaws::last_digit, crate::proofs::DecimalLaws::one_more))]
pub(crate) fn put(n: u64, out: &mut [u8]) -> usize
    requires { length (decimal n) ≤ length out.old }
    ensures { (result ≡ length (decimal n)) × (out.new ≡ over (decimal n) out.old) }
{
    if n < 10 {
        out[0] = b'0' + n as u8;
        1
    } else {
        let k = put(n / 10, out);
        out[k] = b'0' + (n % 10) as u8;
        k + 1
    }
}
