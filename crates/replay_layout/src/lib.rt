// Where the parts of a desk record stand, by the record's own contents, and each number in them: every offset is worked out here
// alone. `fresh` lays out the record of a trail that is just started.
// Above `replay`, whose records it reads, and `replay_rows`, which knows the rows. The calls on a trail use it, and the
// checkpoints, for the bodies' sizes and where each count stands.

#![tactic(auto)]

ghost use Rattle.std.specs.Prelude.{◌≡◌, ◌+◌, ◌*◌, ◌/◌, ◌≤◌, ◌<◌, length, get_or};
ghost use Rattle.words.specs.Words.{word, words_of};
ghost use Rattle.words.specs.Put.{Put};
ghost use Rattle.net.specs.Held.{net_in};
ghost use Rattle.replay.specs.Limits.{max_words, record_head};
ghost use Rattle.replay.specs.Record.{counts_size};
ghost use Rattle.replay_layout.specs.Offsets.{layout_of, kind_at, place_at, closed_at, events_at, closing_at, fired_at, jumps_at, pair_at};

use net::NetWords;
use net_lookup::LoadedNet;

pub mod fresh;

// Bodies of a desk record; bytes and numbers of its contents, a pair for each.
pub const BODIES: usize = 5;

pub const HEAD: usize = 8 * BODIES;

pub const HEAD_WORDS: usize = 2 * BODIES;

// Bytes of the longest desk record.
pub const MAX_RECORD: usize = 29844;

// Where the counts have the accepted events and the closing jumps, behind closed, and FIRED and JUMPS of the first activity; those of
// the others follow in rows of two.
pub const EVENTS: usize = 1;

pub const CLOSING: usize = 2;

pub const FIRED: usize = 3;

pub const JUMPS: usize = 4;

// Where the bodies behind the table start, counted in four-byte numbers, and how many objects and places there are.
#[derive(Clone, Copy)]
pub struct Layout {
    pub register: usize,
    pub positions: usize,
    pub counts: usize,
    pub pairs: usize,
    pub objects: usize,
    pub places: usize,
}

// A number of the record's contents, which counts bytes, as a count of four-byte numbers.
fn quarter(rec: &[u8], at: usize) -> usize
    requires { at + 4 ≤ length rec.now }
    ensures { result ≡ word rec.now at / 4 }
{
    words::wide(words::word_at(rec, at) / 4)
}

// The layout that a record's contents give, with the number of places of its net.
#[tactic(auto, unfolding(crate::specs::Offsets::layout_of))]
pub fn read_layout(rec: &[u8], net: &LoadedNet) -> Layout
    requires head_room { record_head ≤ length rec.now }
    ensures { result ≡ layout_of (net_in net.now.words.now) rec.now }
{
    Layout {
        register: quarter(rec, 8),
        positions: quarter(rec, 16),
        counts: quarter(rec, 24),
        pairs: quarter(rec, 32),
        objects: replay_rows::rows_in(words::wide(words::word_at(rec, 12)), net.words),
        places: net.places(),
    }
}

// How many bytes the counts take.
#[tactic(auto, using(crate::proofs::SizeLaws::few_acts))]
pub fn counts_bytes(net: &LoadedNet) -> usize
    ensures { (result ≡ 4 * counts_size (net_in net.now.words.now)) × (result ≤ 524) }
{
    let n = net.acts();
    4 * (FIRED + 2 * n)
}

// How many bytes the jump counts of all pairs of places take.
#[tactic(auto, using(crate::proofs::SizeLaws::few_pairs))]
pub fn pairs_bytes(net: &LoadedNet) -> usize
    ensures { (result ≡ 4 * ((net_in net.now.words.now).places * (net_in net.now.words.now).places)) × (result ≤ 16384) }
{
    let n = net.places();
    4 * (n * n)
}

// Each offset of the counts is a method of its own: with its constant as a parameter, `lay.count_at(EVENTS)` would be no plainer.
impl Layout {
    // The kind of object o. Rows are read and written as numbers behind their body's start: that is worked out once for all objects
    // of an event. It takes the words, as `replay_rows` does, which asks nothing of them.
    pub fn get_kind(self, rec: &[u8], t: &NetWords, o: usize) -> u32
        requires { kind_at (net_in t.now) self o < length (words_of rec.now) }
        ensures { result ≡ get_or (words_of rec.now) (kind_at (net_in t.now) self o) 0 }
    {
        words::get_behind(rec, self.register, replay_rows::kind_index(t, o))
    }

    // The place of object o.
    pub fn get_place(self, rec: &[u8], o: usize) -> u32
        requires { place_at self o < length (words_of rec.now) }
        ensures { result ≡ get_or (words_of rec.now) (place_at self o) 0 }
    {
        words::get_behind(rec, self.positions, replay_rows::place_index(o))
    }

    // Place q becomes the place of object o; no other byte changes.
    pub fn put_place(self, rec: &mut [u8], o: usize, q: u32)
        requires { place_at self o < length (words_of rec.old) }
        ensures { Put rec.old (place_at self o) q rec.new }
    {
        words::put_behind(rec, self.positions, replay_rows::place_index(o), q);
    }

    // Where it stands whether the trail is closed.
    pub fn closed_at(self) -> usize
        ensures { result ≡ closed_at self }
    {
        self.counts
    }

    // Where the accepted events stand.
    pub fn events_at(self) -> usize
        requires { events_at self ≤ max_words }
        ensures { result ≡ events_at self }
    {
        self.counts + EVENTS
    }

    // Where the closing jumps stand.
    pub fn closing_at(self) -> usize
        requires { closing_at self ≤ max_words }
        ensures { result ≡ closing_at self }
    {
        self.counts + CLOSING
    }

    // Where FIRED of activity a stands.
    pub fn fired_at(self, a: usize) -> usize
        requires { fired_at self a ≤ max_words }
        ensures { result ≡ fired_at self a }
    {
        self.counts + (FIRED + 2 * a)
    }

    // Where JUMPS of activity a stands.
    pub fn jumps_at(self, a: usize) -> usize
        requires { jumps_at self a ≤ max_words }
        ensures { result ≡ jumps_at self a }
    {
        self.counts + (JUMPS + 2 * a)
    }

    // Where the jump count from place x to place y stands, behind the start of the pairs.
    pub fn pair_index(self, x: usize, y: usize) -> usize
        requires { pair_at self x y ≤ max_words }
        ensures { self.pairs + result ≡ pair_at self x y }
    {
        x * self.places + y
    }
}
