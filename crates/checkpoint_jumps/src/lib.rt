// Test 47 on the bytes of register, counts and jumps. Sums are of 64 bits: unchecked numbers are added exactly.
// Above `net_lookup`, `replay_rows`, `replay_layout`, which says where each count stands, and `checkpoint_counts`, which sums the
// counts; `checkpoint` has the definitions. `checkpoint_judge` asks it last.

#![tactic(auto)]

ghost use Rattle.std.specs.Prelude.{[], ◌≡◌, ℕ, ◌+◌, ◌*◌, ◌^◌, ◌<◌, ◌≤◌, ltb, eqb, length, get_or, sum};
ghost use Rattle.std.specs.List.{list_any, zip};
ghost use Rattle.words.specs.Lists.{pick, any_to, sum_to};
ghost use Rattle.words.specs.Words.{words_of};
ghost use Rattle.net.specs.Held.{net_in};
ghost use Rattle.replay.specs.Plain.{closer_kinds};
ghost use Rattle.replay.specs.Register.{kinds_in};
ghost use Rattle.replay.specs.State.{inputs, sunk_on, stored_consumed};
ghost use Rattle.replay_layout.specs.Offsets.{fired_index};
ghost use Rattle.checkpoint.specs.Bodies.{body_state, hit};
ghost use Rattle.checkpoint.specs.Restore.{tests47};
ghost use Rattle.checkpoint_counts.specs.Counted.{Counted};
ghost use Rattle.checkpoint_jumps.specs.Sums.{pair_in, barred_in, taken_by, AtMost, Added};

use checkpoint_counts::sum_every;
use net_lookup::LoadedNet;
use replay_layout::{CLOSING, FIRED, JUMPS, pairs_bytes};
use replay_rows::{kind, objects};
use words::{get_word, wide};

// The bytes of a register and of counts, to which 44 and 46 do not apply, and their net.
#[derive(Clone, Copy)]
pub struct CountedBodies<'a> {
    pub net: LoadedNet<'a>,
    pub register: &'a [u8],
    pub counts: &'a [u8],
    pub ghost counted: { Counted (net_in net.words.now) register.now counts.now },
}

// The count v where place y is not of kind k, else 0.
fn foreign_count(net: &LoadedNet, k: usize, y: usize, v: u64) -> u64
    requires known_place { y < (net_in net.now.words.now).places }
    ensures { result ≡ pick (eqb k ((net_in net.now.words.now).kind_of y)) 0 v }
{
    if k == net.kind_of(y) { 0 } else { v }
}

// Row x of the jumps: its counts are added to the columns' sums. The sum of those that no jump can have.
// The sums are a plain array where they grow: their bound grows from row to row, and a ghost field over the array cannot name the row.
#[tactic(auto, using(crate::proofs::Bounds::few))]
fn add_row(js: &[u8], net: &LoadedNet, x: usize, into: &mut [u64; 64]) -> u64
    requires known_places { (x < (net_in net.now.words.now).places) × (length (words_of js.now) ≡ (net_in net.now.words.now).places * (net_in net.now.words.now).places) }
    requires at_most { AtMost (net_in net.now.words.now).places (x * 4294967296) into.old }
    ensures barred { (result ≡ barred_in (net_in net.now.words.now) js.now x) × (result ≤ 279172874240) }
    ensures added { Added (net_in net.now.words.now).places into.old into.new (pair_in (net_in net.now.words.now) js.now x) }
    ensures still_at_most { AtMost (net_in net.now.words.now).places (x * 4294967296 + 4294967296) into.new }
{
    let n = net.places();
    let k = net.kind_of(x);
    let at = x * n;
    let mut off = u64::from(get_word(js, at + x));
    for y in 0..n {
        let v = u64::from(get_word(js, at + y));
        into[y] += v;
        off += foreign_count(net, k, y, v);
    }
    off
}

// All rows.
#[tactic(auto, using(crate::proofs::Bounds::few))]
fn add_rows(js: &[u8], net: &LoadedNet, into: &mut [u64; 64]) -> u64
    requires sized { length (words_of js.now) ≡ (net_in net.now.words.now).places * (net_in net.now.words.now).places }
    requires at_most { AtMost (net_in net.now.words.now).places 0 into.old }
    ensures barred { result ≡ sum_to (net_in net.now.words.now).places (barred_in (net_in net.now.words.now) js.now) }
    ensures added { Added (net_in net.now.words.now).places into.old into.new (λ (y : ℕ). sum_to (net_in net.now.words.now).places (λ (x : ℕ). pair_in (net_in net.now.words.now) js.now x y)) }
    ensures still_at_most { AtMost (net_in net.now.words.now).places 274877906944 into.new }
{
    let mut off = 0;
    for x in 0..net.places() {
        off += add_row(js, net, x, into);
    }
    off
}

// All sums together.
fn sum_row(sums: &[u64]) -> u64
    requires fits { sum sums.now < 2 ^ 64 }
    ensures { result ≡ sum sums.now }
{
    sums.iter().sum()
}

// What `fired` events of activity a take of kind k.
#[tactic(auto, using(crate::proofs::Bounds::arcs))]
fn take_kind(net: &LoadedNet, a: usize, k: usize, fired: u32, taken: &mut [u64; 64])
    requires known_act { (a < (net_in net.now.words.now).acts) × (k < (net_in net.now.words.now).kinds) }
    requires at_most { AtMost (net_in net.now.words.now).places 2199023255552 taken.old }
    ensures { Added (net_in net.now.words.now).places taken.old taken.new (λ (q : ℕ). fired * taken_by (net_in net.now.words.now) a q k) }
{
    if net.takes_kind(a, k) {
        let p = net.input(a, k);
        taken[p] += u64::from(fired);
    }
}

// What `fired` events of activity a take, of all kinds.
#[tactic(auto, using(crate::proofs::Bounds::few))]
fn take_arcs(net: &LoadedNet, a: usize, fired: u32, taken: &mut [u64; 64])
    requires known_act { a < (net_in net.now.words.now).acts }
    requires at_most { AtMost (net_in net.now.words.now).places (a * 34359738368) taken.old }
    ensures added { Added (net_in net.now.words.now).places taken.old taken.new (λ (q : ℕ). fired * inputs (net_in net.now.words.now) q a) }
    ensures still_at_most { AtMost (net_in net.now.words.now).places (a * 34359738368 + 34359738368) taken.new }
{
    for k in 0..net.kinds() {
        take_kind(net, a, k, fired, taken);
    }
}

// A sum of `into` is above the one of `taken` that it stands beside.
fn above(taken: &[u64], into: &[u64]) -> bool
    ensures { result ≡ list_any (λ (p : ℕ × ℕ). ltb p.0 p.1) (zip taken.now into.now) }
{
    taken.iter().zip(into).any(|(t, i)| t < i)
}

impl CountedBodies<'_> {
    // What all events take.
    #[tactic(auto, using(crate::proofs::Bounds::few))]
    fn take_inputs(&self, taken: &mut [u64; 64])
        requires at_most { AtMost (net_in self.now.net.words.now).places 0 taken.old }
        ensures added { Added (net_in self.now.net.words.now).places taken.old taken.new (λ (q : ℕ). sum_to (net_in self.now.net.words.now).acts (λ (a : ℕ). get_or (words_of self.now.counts.now) (fired_index a) 0 * inputs (net_in self.now.net.words.now) q a)) }
        ensures still_at_most { AtMost (net_in self.now.net.words.now).places 2199023255552 taken.new }
    {
        for a in 0..self.net.acts() {
            take_arcs(&self.net, a, get_word(self.counts, FIRED + 2 * a), taken);
        }
    }

    // What the close takes: each of its objects (`closers`: the whole register) from its sink.
    #[tactic(auto, using(crate::proofs::Bounds::sinks))]
    fn take_sinks(&self, taken: &mut [u64; 64])
        requires at_most { AtMost (net_in self.now.net.words.now).places 2199023255552 taken.old }
        ensures { Added (net_in self.now.net.words.now).places taken.old taken.new (sunk_on (net_in self.now.net.words.now) (closer_kinds (kinds_in (net_in self.now.net.words.now) self.now.register.now))) }
    {
        for i in 0..objects(self.register, self.net.words) {
            let q = self.net.sink(wide(kind(self.register, self.net.words, i)));
            taken[q] += 1;
        }
    }

    // What the close takes where there was one.
    fn take_closed(&self, taken: &mut [u64; 64])
        requires at_most { AtMost (net_in self.now.net.words.now).places 2199023255552 taken.old }
        ensures { Added (net_in self.now.net.words.now).places taken.old taken.new (λ (q : ℕ). get_or (words_of self.now.counts.now) 0 0 * sunk_on (net_in self.now.net.words.now) (closer_kinds (kinds_in (net_in self.now.net.words.now) self.now.register.now)) q) }
    {
        if get_word(self.counts, 0) != 0 {
            self.take_sinks(taken);
        }
    }

    // IN, as summed, above TAKEN, for some place.
    #[tactic(auto, using(crate::proofs::Bounds::few))]
    fn above_taken(&self, into: &[u64; 64]) -> bool
        ensures { result ≡ any_to (net_in self.now.net.words.now).places (λ (q : ℕ). ltb (stored_consumed (net_in self.now.net.words.now) (body_state (net_in self.now.net.words.now) self.now.register.now [] self.now.counts.now []) q) (get_or into.now q 0)) }
    {
        let mut taken = [0u64; 64];
        self.take_inputs(&mut taken);
        self.take_closed(&mut taken);
        let n = self.net.places();
        above(&taken[..n], &into[..n])
    }

    // 47: length, counts that no jump can have, the sum, IN above TAKEN.
    #[tactic(auto, using(crate::proofs::Bounds::few))]
    pub fn bad_jumps(&self, js: &[u8]) -> bool
        ensures { result ≡ hit (tests47 (net_in self.now.net.words.now) (body_state (net_in self.now.net.words.now) self.now.register.now [] self.now.counts.now js.now) (length js.now)) }
    {
        if js.len() != pairs_bytes(&self.net) {
            return true;
        }
        let mut into = [0u64; 64];
        if add_rows(js, &self.net, &mut into) != 0 {
            return true;
        }
        let jumps = sum_every(self.counts, JUMPS, self.net.acts())
            + u64::from(get_word(self.counts, CLOSING));
        sum_row(&into[..self.net.places()]) != jumps || self.above_taken(&into)
    }
}
