// The numbers that a trail's record stores, each looked up by its offset.
// Above `replay_layout`, which knows the offsets. `replay_counts` sums what it reads; the report, the program and the C calls hand a
// `Trail` on to it.

#![tactic(auto)]

ghost use Rattle.std.specs.Prelude.{◌≡◌, ◌<◌, ◌≤◌, length, get_or};
ghost use Rattle.words.specs.Lists.{one};
ghost use Rattle.net.specs.Held.{net_in};
ghost use Rattle.replay.specs.State.{stored_pair};
ghost use Rattle.replay.specs.Calls.{state_at};
ghost use Rattle.replay.specs.Ready.{Ready};
ghost use Rattle.replay.proofs.ReadyOnce.{Ready-prop};
ghost use Rattle.replay_stored.specs.Stored.{Stored};

use net_lookup::LoadedNet;
use replay_layout::{Layout, read_layout};

// A trail that is read: its record's bytes and the net of its table, which belong together.
#[derive(Clone, Copy)]
pub struct Trail<'a> {
    pub rec: &'a [u8],
    pub net: LoadedNet<'a>,
    pub ghost ready: { Ready net.words.now rec.now } by { Ready-prop net.words.now rec.now },
}

impl Trail<'_> {
    // Where the record's parts stand.
    fn layout(&self) -> Layout
        ensures { Stored self.now.net.words.now self.now.rec.now result }
    {
        read_layout(self.rec, &self.net)
    }

    // The trail is closed.
    pub fn closed(&self) -> bool
        ensures { one result ≡ (state_at self.now.rec.now).closed }
    {
        let lay = self.layout();
        words::get_word(self.rec, lay.closed_at()) != 0
    }

    // The numbers that a record stores, each read where `Layout` says. Kept apart, though they are alike: each is one line, and its
    // contract names its own number and bound.

    // The accepted events.
    pub fn events(&self) -> u32
        ensures { result ≡ (state_at self.now.rec.now).events }
    {
        let lay = self.layout();
        words::get_word(self.rec, lay.events_at())
    }

    // The closing jumps.
    pub fn closing(&self) -> u32
        ensures { (result ≡ (state_at self.now.rec.now).closing) × (result ≤ 1024) }
    {
        let lay = self.layout();
        words::get_word(self.rec, lay.closing_at())
    }

    // How many objects there are.
    pub fn objects(&self) -> usize
        ensures { (result ≡ length (state_at self.now.rec.now).kinds) × (result ≤ 1024) }
    {
        let lay = self.layout();
        lay.objects
    }

    // The kind of object o.
    pub fn kind(&self, o: usize) -> usize
        requires known_object { o < length (state_at self.now.rec.now).kinds }
        ensures { (result ≡ get_or (state_at self.now.rec.now).kinds o 0) × (result < (net_in self.now.net.words.now).kinds) }
    {
        let lay = self.layout();
        words::wide(lay.get_kind(self.rec, self.net.words, o))
    }

    // FIRED of activity a.
    pub fn fired(&self, a: usize) -> u32
        requires known_act { a < (net_in self.now.net.words.now).acts }
        ensures { (result ≡ get_or (state_at self.now.rec.now).fired a 0) × (result ≤ 1000000) }
    {
        let lay = self.layout();
        words::get_word(self.rec, lay.fired_at(a))
    }

    // JUMPS of activity a.
    pub fn jumps_of(&self, a: usize) -> u32
        requires known_act { a < (net_in self.now.net.words.now).acts }
        ensures { (result ≡ get_or (state_at self.now.rec.now).jumps a 0) × (result ≤ 8000000) }
    {
        let lay = self.layout();
        words::get_word(self.rec, lay.jumps_at(a))
    }

    // The jump count from place x to place y.
    pub fn pair(&self, x: usize, y: usize) -> u32
        requires known_places { (x < (net_in self.now.net.words.now).places) × (y < (net_in self.now.net.words.now).places) }
        ensures { (result ≡ stored_pair (net_in self.now.net.words.now) (state_at self.now.rec.now) x y) × (result ≤ 8001024) }
    {
        let lay = self.layout();
        words::get_behind(self.rec, lay.pairs, lay.pair_index(x, y))
    }
}
