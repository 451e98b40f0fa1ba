// The tests 44 to 47 on the bytes of the bodies behind a record's table, the first that applies.
// Above `checkpoint_positions`, `checkpoint_counts` and `checkpoint_jumps`, which have 45, 46 and 47; `checkpoint` has the
// definitions.

#![tactic(auto)]

ghost use Rattle.std.specs.Prelude.{◌≡◌, true};
ghost use Rattle.net.specs.Held.{net_in};
ghost use Rattle.replay.specs.Plain.{register_code};
ghost use Rattle.replay.specs.Register.{whole_rows, kinds_in};
ghost use Rattle.checkpoint.specs.Answers.{restore_answer_code, restore_answer_second};
ghost use Rattle.checkpoint_judge.specs.Judge.{closed_by, judge_code, judge_second};

use checkpoint::RestoreError;
use checkpoint_counts::bad_counts;
use checkpoint_jumps::CountedBodies;
use checkpoint_positions::bad_positions;
use net_lookup::LoadedNet;
use replay_objects::register::register_refusal;
use replay_rows::whole;

// The counts body begins with a 1.
fn begins_closed(cs: &[u8]) -> bool
    ensures { result ≡ closed_by cs.now }
{
    4 <= cs.len() && words::word_at(cs, 0) == 1
}

// 45 to 47, of a register to which 44 does not apply.
#[tactic(auto, using(crate::proofs::Verdicts::bodies, checkpoint_counts::proofs::Counting::counted))]
fn judge_bodies<'a>(
    ks: &'a [u8],
    ps: &[u8],
    cs: &'a [u8],
    js: &[u8],
    net: &LoadedNet<'a>,
) -> Result<(), RestoreError>
    requires whole { whole_rows (net_in net.now.words.now) ks.now ≡ true }
    requires registered { register_code (net_in net.now.words.now) (kinds_in (net_in net.now.words.now) ks.now) ≡ 0 }
    ensures code { restore_answer_code result ≡ judge_code (net_in net.now.words.now) ks.now ps.now cs.now js.now }
    ensures second { restore_answer_second result ≡ judge_second (net_in net.now.words.now) ks.now ps.now cs.now js.now }
{
    if bad_positions(ks, ps, net, begins_closed(cs)) {
        return Err(RestoreError::Positions);
    }
    if bad_counts(ks, cs, net) {
        return Err(RestoreError::Counts);
    }
    let counted = CountedBodies {
        net: *net,
        register: ks,
        counts: cs,
    };
    if counted.bad_jumps(js) {
        return Err(RestoreError::Jumps);
    }
    Ok(())
}

// The register's bytes, then those of positions, counts and jumps. They are lent one by one: a struct of them would be made where a
// record is split, and taken apart here.
#[tactic(auto, using(crate::proofs::Verdicts::register))]
pub fn judge(
    ks: &[u8],
    ps: &[u8],
    cs: &[u8],
    js: &[u8],
    net: &LoadedNet,
) -> Result<(), RestoreError>
    ensures code { restore_answer_code result ≡ judge_code (net_in net.now.words.now) ks.now ps.now cs.now js.now }
    ensures second { restore_answer_second result ≡ judge_second (net_in net.now.words.now) ks.now ps.now cs.now js.now }
{
    if !whole(ks, net.words) {
        return Err(RestoreError::Rows);
    }
    register_refusal(ks, net)?;
    judge_bodies(ks, ps, cs, js, net)
}
