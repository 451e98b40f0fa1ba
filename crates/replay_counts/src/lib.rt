// Reading every count of document 01 from a trail's bytes: what is stored is looked up, and the rest is summed from it.
// Above `replay_stored`, which looks up, `net_lookup` and `replay`. `report` writes what it reads, and makes the
// rows of it that `client_counts` writes.

#![tactic(auto)]

ghost use Rattle.std.specs.Prelude.{◌≡◌, ◌+◌, ◌*◌, ◌<◌, ◌≤◌, length, get_or, eqb};
ghost use Rattle.words.specs.Lists.{one, sum_to};
ghost use Rattle.net.specs.Held.{net_in};
ghost use Rattle.replay.specs.Plain.{closer_kinds};
ghost use Rattle.replay.specs.State.{inputs, sunk_on, stored_consumed, stored_jumps_in, stored_jumps_out, stored_moved, stored_jumps, stored_transfers};
ghost use Rattle.replay.specs.Calls.{state_at};
ghost use Rattle.replay_counts.specs.Reads.{place_read, place_code, place_read_code, act_read, act_code, act_read_code, pair_read, pair_code, pair_read_code, trail_read};

use net_lookup::LoadedNet;
use replay_stored::Trail;
use words::wide;

// The counts of a place: TAKEN, IN and OUT.
#[derive(Clone, Copy)]
pub struct PlaceCounts {
    pub consumed: u32,
    pub jumps_in: u32,
    pub jumps_out: u32,
}

// The counts of an activity: FIRED, MOVED and JUMPS.
#[derive(Clone, Copy)]
pub struct ActCounts {
    pub fired: u32,
    pub moved: u32,
    pub jumps: u32,
}

// The counts of the whole trail.
#[derive(Clone, Copy)]
pub struct TrailCounts {
    pub objects: u32,
    pub events: u32,
    pub jumps: u32,
    pub transfers: u32,
}

// MOVED of activity a: FIRED times its arcs.
#[tactic(auto, using(crate::proofs::CountLaws::arcs_few, crate::proofs::CountLaws::moved_few))]
fn moved(trail: &Trail, a: usize) -> u32
    requires known_act { a < (net_in trail.now.net.words.now).acts }
    ensures { (result ≡ stored_moved (net_in trail.now.net.words.now) (state_at trail.now.rec.now) a) × (result ≤ 8000000) }
{
    let n = trail.net.arcs(a);
    trail.fired(a) * (n as u32)
}

// IN of place q: the jumps from every place to it. Kept beside `jumps_out`: each is one sum that shows its pair, and a function over
// the pair would need a closure with a contract of its own.
fn jumps_in(trail: &Trail, q: usize) -> u32
    requires known_place { q < (net_in trail.now.net.words.now).places }
    ensures { result ≡ stored_jumps_in (net_in trail.now.net.words.now) (state_at trail.now.rec.now) q }
{
    (0..trail.net.places()).map(|x| trail.pair(x, q)).sum()
}

// OUT of place q: the jumps from it to every place.
fn jumps_out(trail: &Trail, q: usize) -> u32
    requires known_place { q < (net_in trail.now.net.words.now).places }
    ensures { result ≡ stored_jumps_out (net_in trail.now.net.words.now) (state_at trail.now.rec.now) q }
{
    (0..trail.net.places()).map(|y| trail.pair(q, y)).sum()
}

// An arc of activity a has the input place q. No more than one has, as only one arc can be of that place's kind.
#[tactic(auto, using(crate::proofs::CountLaws::kind_known, crate::proofs::CountLaws::inputs_of))]
fn inputs_on(net: &LoadedNet, q: usize, a: usize) -> bool
    requires known_place { (q < (net_in net.now.words.now).places) × (a < (net_in net.now.words.now).acts) }
    ensures { one result ≡ inputs (net_in net.now.words.now) q a }
{
    let k = net.kind_of(q);
    net.takes_kind(a, k) && net.input(a, k) == q
}

// How many objects the events took from place q.
fn taken_by_events(trail: &Trail, q: usize) -> u32
    requires known_place { q < (net_in trail.now.net.words.now).places }
    ensures { (result ≡ sum_to (net_in trail.now.net.words.now).acts (λ a. get_or (state_at trail.now.rec.now).fired a 0 * inputs (net_in trail.now.net.words.now) q a)) × (result ≤ 64000000) }
{
    (0..trail.net.acts())
        .map(|a| trail.fired(a) * u32::from(inputs_on(&trail.net, q, a)))
        .sum()
}

// The sink of object o is place q.
fn sinks_on(trail: &Trail, q: usize, o: usize) -> bool
    requires known_object { o < length (state_at trail.now.rec.now).kinds }
    ensures { result ≡ eqb q ((net_in trail.now.net.words.now).sink (get_or (state_at trail.now.rec.now).kinds o 0)) }
{
    let k = trail.kind(o);
    trail.net.sink(k) == q
}

// How many of the objects that the close takes (`closers`: all of them) have the sink q.
fn sunk_on(trail: &Trail, q: usize) -> u32
    ensures { (result ≡ sunk_on (net_in trail.now.net.words.now) (closer_kinds (state_at trail.now.rec.now).kinds) q) × (result ≤ 1024) }
{
    (0..trail.objects())
        .map(|o| u32::from(sinks_on(trail, q, o)))
        .sum()
}

// TAKEN of place q: by the events as their input place, and by the close as a sink.
#[tactic(auto, using(crate::proofs::CountLaws::one_is, crate::proofs::CountLaws::one_le))]
fn consumed(trail: &Trail, q: usize) -> u32
    requires known_place { q < (net_in trail.now.net.words.now).places }
    ensures { result ≡ stored_consumed (net_in trail.now.net.words.now) (state_at trail.now.rec.now) q }
{
    let by_events = taken_by_events(trail, q);
    let at_close = u32::from(trail.closed()) * sunk_on(trail, q);
    by_events + at_close
}

// The jumps of the whole trail: JUMPS of every activity, and the closing jumps.
fn all_jumps(trail: &Trail) -> u32
    ensures { result ≡ stored_jumps (net_in trail.now.net.words.now) (state_at trail.now.rec.now) }
{
    let sum: u32 = (0..trail.net.acts()).map(|a| trail.jumps_of(a)).sum();
    let last = trail.closing();
    sum + last
}

// The transfers of the whole trail: MOVED of every activity, and once closed the objects that the close takes (`closers`: all of
// them).
fn transfers(trail: &Trail) -> u32
    ensures { result ≡ stored_transfers (net_in trail.now.net.words.now) (state_at trail.now.rec.now) }
{
    let sum: u32 = (0..trail.net.acts()).map(|a| moved(trail, a)).sum();
    let removed = u32::from(trail.closed()) * (trail.objects() as u32);
    sum + removed
}

// Reads the counts of place q. `None` is an unknown place, number 51 by `place_read_code`.
#[tactic(auto, unfolding(crate::specs::Reads::place_read, crate::specs::Reads::place_code))]
pub fn read_place(trail: &Trail, q: u32) -> Option<PlaceCounts>
    ensures answer { result ≡ place_read trail.now.rec.now q }
    ensures code { place_read_code result ≡ place_code trail.now.rec.now q }
{
    let i = wide(q);
    if trail.net.places() <= i {
        return None;
    }
    Some(PlaceCounts {
        consumed: consumed(trail, i),
        jumps_in: jumps_in(trail, i),
        jumps_out: jumps_out(trail, i),
    })
}

// Reads the counts of activity a. `None` is an unknown activity, number 52 by `act_read_code`. Kept beside `read_place`: each reads
// counts of its own.
#[tactic(auto, unfolding(crate::specs::Reads::act_read, crate::specs::Reads::act_code))]
pub fn read_act(trail: &Trail, a: u32) -> Option<ActCounts>
    ensures answer { result ≡ act_read trail.now.rec.now a }
    ensures code { act_read_code result ≡ act_code trail.now.rec.now a }
{
    let i = wide(a);
    if trail.net.acts() <= i {
        return None;
    }
    Some(ActCounts {
        fired: trail.fired(i),
        moved: moved(trail, i),
        jumps: trail.jumps_of(i),
    })
}

// Reads the jump count from place `from` to place `to`. `None` is an unknown place, number 51 by `pair_read_code`.
#[tactic(auto, unfolding(crate::specs::Reads::pair_read, crate::specs::Reads::pair_code))]
pub fn read_pair(trail: &Trail, from: u32, to: u32) -> Option<u32>
    ensures answer { result ≡ pair_read trail.now.rec.now from to }
    ensures code { pair_read_code result ≡ pair_code trail.now.rec.now from to }
{
    let n = trail.net.places();
    let x = wide(from);
    let y = wide(to);
    if n <= x || n <= y {
        return None;
    }
    Some(trail.pair(x, y))
}

// Reads the counts of the whole trail, of an open one too.
#[tactic(auto, unfolding(crate::specs::Reads::trail_read))]
pub fn read_trail(trail: &Trail) -> TrailCounts
    ensures { result ≡ trail_read trail.now.rec.now }
{
    TrailCounts {
        objects: trail.objects() as u32,
        events: trail.events(),
        jumps: all_jumps(trail),
        transfers: transfers(trail),
    }
}
