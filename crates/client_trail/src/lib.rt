// Calls on any bytes that are lent as a trail: an event, the close, a save. The trail is checked first, 41 to 47.
// Above `client_check`, the replay's calls and the checkpoints; `client` exports a function for each.
// Each opens alike (zero words, `checked`, return), since each lends other things on: a closure over them would need a contract of
// its own, which is no plainer.

#![tactic(auto)]

ghost use Rattle.std.specs.Prelude.{◌≡◌, length};
ghost use Rattle.replay.specs.Plain.{ask_event};
ghost use Rattle.replay_close.specs.Answers.{ask_close};
ghost use Rattle.client_check.specs.Objects.{objects_in};
ghost use Rattle.client_calls.specs.Client.{ask_answer, ask_leaves, save_answer, save_leaves};

use client_answers::{answer, pack};
use client_check::check::checked;
use client_check::objects::rows_of;
use net::NET_WORDS;
use net_lookup::LoadedNet;
use replay_moves::TrailMut;
use words::answers::code;

// An event: 21 to 27, or carried out in the trail's bytes.
#[tactic(auto, using(crate::proofs::Checks::asks, client_check::proofs::Checks::no_second))]
pub fn event(trail: &mut [u8], activity: u32, objects: &[u8]) -> u64
    ensures answer { result ≡ ask_answer trail.old (ask_event activity (objects_in objects.now)) }
    ensures trail_after { trail.new ≡ ask_leaves trail.old (ask_event activity (objects_in objects.now)) }
{
    let mut t = [0u32; NET_WORDS];
    let refused = checked(trail, &mut t);
    if refused != 0 {
        return refused;
    }
    let net = LoadedNet { words: &t };
    let mut trail = TrailMut { rec: trail, net };
    let answer = replay_event::event(&mut trail, activity, rows_of(objects));
    pack(code(answer), 0)
}

// The close: 31, or carried out in the trail's bytes.
#[tactic(auto, using(crate::proofs::Checks::asks, client_check::proofs::Checks::no_second))]
pub fn close(trail: &mut [u8]) -> u64
    ensures answer { result ≡ ask_answer trail.old ask_close }
    ensures trail_after { trail.new ≡ ask_leaves trail.old ask_close }
{
    let mut t = [0u32; NET_WORDS];
    let refused = checked(trail, &mut t);
    if refused != 0 {
        return refused;
    }
    let net = LoadedNet { words: &t };
    let mut trail = TrailMut { rec: trail, net };
    pack(code(replay_close::close(&mut trail)), 0)
}

// The record of a trail: 61, or in front of the lent bytes.
#[tactic(auto, using(crate::proofs::Checks::saves, client_check::proofs::Checks::no_second))]
pub fn save(trail: &[u8], lent: &mut [u8]) -> u64
    ensures answer { result ≡ save_answer trail.now (length lent.old) }
    ensures lent_after { lent.new ≡ save_leaves trail.now lent.old }
{
    let mut t = [0u32; NET_WORDS];
    let refused = checked(trail, &mut t);
    if refused != 0 {
        return refused;
    }
    answer(checkpoint_restore::save(trail, lent).map(|()| trail.len()))
}
