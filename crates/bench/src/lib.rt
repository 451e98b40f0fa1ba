// For measuring alone: the events of a trail file's body on a trail that is taken up once. No part of the marking client.

#![tactic(auto)]

ghost use Rattle.std.specs.Prelude.{◌≡◌, ◌+◌, ◌≤◌, MatchOption, [], ◌∷◌, length};
ghost use Rattle.words.specs.Words.{words_of};
ghost use Rattle.replay.specs.Plain.{ask_event};
ghost use Rattle.replay.specs.Ready.{Ready};
ghost use Rattle.bench.specs.Bench.{events_in, accepted, carried, events_answer, events_leave};

use client_check::check::checked;
use net::NET_WORDS;
use net_lookup::LoadedNet;
use replay_moves::TrailMut;
use words::{get_word, wide};

// An event of a body: its activity and its objects.
#[derive(Clone, Copy)]
struct Event<'a> {
    activity: u32,
    objects: &'a [u8],
}

// The event at the front of a body, and the body behind it; `None` at the body's end or where the row is cut off.
fn split_event(body: &[u8]) -> Option<(Event<'_>, &[u8])>
    ensures { MatchOption result (events_in body.now ≡ []) (λ r. (events_in body.now ≡ ask_event r.0.activity (words_of r.0.objects.now) ∷ events_in r.1.now) × (length r.1.now + 8 ≤ length body.now)) }
{
    let numbers = body.len() / 4;
    if numbers < 2 {
        return None;
    }
    let count = wide(get_word(body, 1));
    if numbers - 2 < count {
        return None;
    }
    let end = 8 + 4 * count;
    let event = Event {
        activity: get_word(body, 0),
        objects: &body[8..end],
    };
    Some((event, &body[end..]))
}

// Carries out the events up to the body's end, a row that is cut off or a refusal, and gives how many were accepted.
fn run_events(trail: &mut TrailMut, events: &[u8]) -> u64
    ensures count { result ≡ accepted trail.old.rec.now (events_in events.now) }
    ensures trail_after { trail.new.rec.now ≡ carried trail.old.rec.now (events_in events.now) }
    ensures same_bytes { trail.new.rec.ghost_name ≡ trail.old.rec.ghost_name }
{
    let mut rest = events;
    let mut n: u64 = 0;
    while let Some((event, behind)) = split_event(rest) {
        if replay_event::event(trail, event.activity, event.objects).is_err() {
            return n;
        }
        n += 1;
        rest = behind;
    }
    n
}

// The same, on a record that is written: the `TrailMut` is made here, so that the caller learns what its bytes hold then.
fn run_record(rec: &mut [u8], net: LoadedNet, events: &[u8]) -> u64
    requires { Ready net.words.now rec.old }
    ensures { (result ≡ accepted rec.old (events_in events.now)) × (rec.new ≡ carried rec.old (events_in events.now)) }
{
    let mut trail = TrailMut { rec, net };
    run_events(&mut trail, events)
}

// Takes up the trail and carries out the events: 41 to 47 with the second number of 43 and 44, or how many were accepted.
pub fn conform_bench_events(trail: &mut [u8], events: &[u8]) -> u64
    ensures answer { result ≡ events_answer trail.old events.now }
    ensures trail_after { trail.new ≡ events_leave trail.old events.now }
{
    let mut t = [0u32; NET_WORDS];
    let refused = checked(trail, &mut t);
    if refused != 0 {
        return refused;
    }
    let net = LoadedNet { words: &t };
    run_record(trail, net, events)
}
