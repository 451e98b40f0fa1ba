// Answers: a refusal is an error that has a number for the caller, and an answer has a number too.

ghost use Rattle.std.specs.Prelude.{◌≡◌, ℕ};
ghost use Rattle.words.specs.Refusals.{answer_code};

// Why a call is refused.
pub trait Refusal {
    // Document 01's number.
    ghost number_of: { Self → ℕ };

    // The number of a refusal.
    fn number(self) -> u32
        ensures { result ≡ number_of self };

    // 0 is the number of an answer that is no refusal.
    ghost not_zero: { (x : Self) → number_of x ≡ 0 → ⊥ };
}

// The number of an answer: that of the refusal, or 0 where the call was taken.
pub fn code<E: Refusal>(r: Result<(), E>) -> u32
    ensures { result ≡ answer_code E.number_of r }
{
    match r {
        Ok(()) => 0,
        Err(refused) => refused.number(),
    }
}
