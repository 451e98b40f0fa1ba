// The check of a trail that is lent. Each call opens with it and goes on with what it lends itself, so the calls open alike.

ghost use Rattle.std.specs.Prelude.{◌≡◌, replicate};
ghost use Rattle.client_check.specs.Checked.{Checked};
ghost use Rattle.net.specs.Limits.{net_words};

use checkpoint::second;
use client_answers::pack;
use net::NetWords;
use words::answers::code;

// The answer as C gets it, since each call hands it on as it is: a `Result` would be packed in each of them.
// 41 to 47 with the second number of 43 and 44. Where none applies it is 0, and the words t, all zero before, hold the trail's net.
#[tactic(auto, using(crate::proofs::Checks::checked_by))]
pub fn checked(trail: &[u8], t: &mut NetWords) -> u64
    requires { t.old ≡ replicate net_words 0 }
    ensures { Checked trail.now t.new result }
{
    let r = checkpoint_restore::check(trail, t);
    pack(code(r), second(r))
}
