// Taking up a checkpoint, with the refusals 41 to 47, and putting one down, in lent bytes.
// Above `checkpoint_judge`, which tests the bodies behind the table, and `net_loader`; `checkpoint` has the definitions.

#![tactic(auto)]

ghost use Rattle.std.specs.Prelude.{◌≡◌, ◌≤◌, length, replicate};
ghost use Rattle.words.specs.Lists.{over};
ghost use Rattle.checkpoint.specs.Restore.{restore_code, restore_second};
ghost use Rattle.checkpoint.specs.Calls.{save_code, save_bytes};
ghost use Rattle.checkpoint.specs.Answers.{restore_answer_code, restore_answer_second, saved_code};
ghost use Rattle.checkpoint.specs.Take.{Framed, Opened, take_code, take_bytes};
ghost use Rattle.net.specs.Limits.{net_words};

use checkpoint::{RestoreError, SaveError};
use checkpoint_judge::judge;
use net::{NET_WORDS, NetWords};
use net_lookup::LoadedNet;
use replay_layout::{BODIES, HEAD, MAX_RECORD};
use words::wide;

// 44 to 47, of a record whose table is loaded.
#[tactic(auto, using(crate::proofs::Opening::bodies))]
fn check_bodies(rec: &[u8], net: &LoadedNet) -> Result<(), RestoreError>
    requires { Opened rec.now net.now.words.now }
    ensures code { restore_answer_code result ≡ restore_code rec.now }
    ensures second { restore_answer_second result ≡ restore_second rec.now }
{
    let register = wide(words::word_at(rec, 8));
    let positions = wide(words::word_at(rec, 16));
    let counts = wide(words::word_at(rec, 24));
    let jumps = wide(words::word_at(rec, 32));
    judge(
        &rec[register..positions],
        &rec[positions..counts],
        &rec[counts..jumps],
        &rec[jumps..],
        net,
    )
}

// 43 to 47, of a record whose contents are laid out.
#[tactic(auto, using(crate::proofs::Opening::table))]
fn check_table(rec: &[u8], t: &mut NetWords) -> Result<(), RestoreError>
    requires framed { Framed rec.now }
    requires fresh { t.old ≡ replicate net_words 0 }
    ensures code { restore_answer_code result ≡ restore_code rec.now }
    ensures second { restore_answer_second result ≡ restore_second rec.now }
    ensures opened { restore_code rec.now ≡ 0 → Opened rec.now t.new }
{
    let end = HEAD + wide(words::word_at(rec, 4));
    net_loader::load_fresh(&rec[HEAD..end], t)?;
    let net = LoadedNet { words: t };
    check_bodies(rec, &net)
}

// Checks a record, any bytes. The words t, all zero, are work space; where the record is taken, they hold its net.
#[tactic(auto, using(crate::proofs::Opening::contents))]
pub fn check(rec: &[u8], t: &mut NetWords) -> Result<(), RestoreError>
    requires { t.old ≡ replicate net_words 0 }
    ensures code { restore_answer_code result ≡ restore_code rec.now }
    ensures second { restore_answer_second result ≡ restore_second rec.now }
    ensures opened { restore_code rec.now ≡ 0 → Opened rec.now t.new }
{
    if rec.len() < 40 || MAX_RECORD < rec.len() {
        return Err(RestoreError::Length);
    }
    if !words::laid_out(rec, BODIES) {
        return Err(RestoreError::Layout);
    }
    check_table(rec, t)
}

// The bytes of `from` become the first bytes of `to`. A loop, since `copy_from_slice` calls `memmove` here, and the archive for C asks
// nothing of outside but `memcpy` and `memset`.
fn copy_front(from: &[u8], to: &mut [u8])
    requires { length from.now ≤ length to.old }
    ensures { to.new ≡ over from.now to.old }
{
    for i in 0..from.len() {
        to[i] = from[i];
    }
}

// Puts down the record of a trail, which is the trail's bytes: they become the first of the lent bytes.
#[tactic(auto, using(crate::proofs::Lent::saves))]
pub fn save(trail: &[u8], lent: &mut [u8]) -> Result<(), SaveError>
    ensures code { saved_code result ≡ save_code trail.now (length lent.old) }
    ensures lent_after { lent.new ≡ save_bytes trail.now lent.old }
{
    if lent.len() < trail.len() {
        return Err(SaveError::NoRoom);
    }
    copy_front(trail, lent);
    Ok(())
}

// Takes up a record, any bytes: they become the first bytes of the trail, as a save of it puts them. A refusal changes nothing.
#[tactic(auto, using(crate::proofs::Opening::takes, crate::proofs::Lent::saves, checkpoint::proofs::Numbers::not_restored))]
pub fn restore(rec: &[u8], trail: &mut [u8]) -> Result<(), RestoreError>
    ensures code { restore_answer_code result ≡ take_code rec.now (length trail.old) }
    ensures second { restore_answer_second result ≡ restore_second rec.now }
    ensures trail_after { trail.new ≡ take_bytes rec.now trail.old }
{
    let mut t = [0u32; NET_WORDS];
    check(rec, &mut t)?;
    save(rec, trail)?;
    Ok(())
}
