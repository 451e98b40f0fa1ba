// The three digits of a number below 1,000 as the mark-sheet printer's digit code, worked out. It uses nothing; `fitness` writes FIT
// by it.

#![tactic(auto)]

ghost use Rattle.std.specs.Prelude.{◌≡◌, ◌<◌};
ghost use Rattle.digits.specs.Code.{digit_code};

// The digit code of n.
pub fn code(n: usize) -> u32
    requires { n < 1000 }
    ensures { result ≡ digit_code n }
{
    let hundreds = b'0' + (n / 100) as u8;
    let tens = b'0' + (n / 10 % 10) as u8;
    let units = b'0' + (n % 10) as u8;
    u32::from_be_bytes([0, hundreds, tens, units])
}
