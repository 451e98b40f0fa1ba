// Answers as numbers: the refusal's number in the low 32 bits, 0 where a call was taken, and a second number above it.
// Above `words`, whose trait gives each refusal its number.

#![tactic(auto)]

ghost use Rattle.std.specs.Prelude.{◌≡◌, ◌<◌};
ghost use Rattle.std.specs.Result.{result_unwrap_or};
ghost use Rattle.words.specs.Refusals.{answer_code};
ghost use Rattle.client_answers.specs.Answers.{packed};

use words::answers::Refusal;

// The number of an answer in the low half, and a second number in the high half.
pub fn pack(code: u32, high: u32) -> u64
    ensures { result ≡ packed code high }
{
    u64::from(code) + 4294967296 * u64::from(high)
}

// The answer of a call that gives a size where it is taken: the refusal's number, or 0 and the size.
pub fn answer<E: Refusal>(r: Result<usize, E>) -> u64
    requires fits { result_unwrap_or r 0 < 4294967296 }
    ensures { result ≡ packed (answer_code E.number_of r) (result_unwrap_or r 0) }
{
    match r {
        Ok(n) => pack(0, n as u32),
        Err(e) => pack(e.number(), 0),
    }
}
