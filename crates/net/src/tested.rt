// Lent words together with what the tests passed so far say of them. The tests of loading take them in these types.

ghost use Rattle.std.specs.Prelude.{◌≡◌, ◌≤◌, ◌<◌, get_or};
ghost use Rattle.words.specs.Lists.{pair_up};
ghost use Rattle.net.specs.Held.{Sized, net_in, places_in, counts_in, arcs_in};
ghost use Rattle.net.specs.Ruled.{Ruled};

use crate::{COUNTS, INPUTS, NetWords, OUTPUTS, PLACES, SINKS, SOURCES};
use words::wide;

// Words that hold no more kinds, places and activities than test 3 allows.
#[derive(Clone, Copy)]
pub struct SizedWords<'a> {
    pub words: &'a NetWords,
    ghost sized: { Sized words.now },
}

#[tactic(auto, using(crate::proofs::Views::views), unfolding(crate::specs::Held::places_in, crate::specs::Held::counts_in))]
impl<'a> SizedWords<'a> {
    pub fn kinds(self) -> usize
        ensures { result ≡ (net_in self.entry.words.now).kinds }
    {
        wide(self.words[0])
    }

    // The kind of each place. Kept beside `counts`, though they are alike: each is one line that names its part of the words.
    pub fn places(self) -> &'a [u32]
        ensures { result.now ≡ places_in self.entry.words.now }
    {
        let words = self.words;
        &words[PLACES..PLACES + wide(words[1])]
    }

    // How many arcs each activity has.
    pub fn counts(self) -> &'a [u32]
        ensures { result.now ≡ counts_in self.entry.words.now }
    {
        let words = self.words;
        &words[COUNTS..COUNTS + wide(words[2])]
    }

    // How many arcs there are.
    pub fn arcs(self) -> usize
        ensures { result ≡ get_or self.entry.words.now 3 0 }
    {
        wide(self.words[3])
    }

    // The source of kind k.
    pub fn source(self, k: usize) -> usize
        requires { k < (net_in self.words.now).kinds }
        ensures { result ≡ (net_in self.entry.words.now).source k }
    {
        wide(self.words[SOURCES + 2 * k])
    }

    // The sink of kind k.
    pub fn sink(self, k: usize) -> usize
        requires { k < (net_in self.words.now).kinds }
        ensures { result ≡ (net_in self.entry.words.now).sink k }
    {
        wide(self.words[SINKS + 2 * k])
    }

    // Arc j: its input place and its output place.
    pub fn arc(self, j: usize) -> (usize, usize)
        requires few { get_or self.words.now 3 0 ≤ 512 }
        requires known_arc { j < get_or self.words.now 3 0 }
        ensures { result ≡ get_or (pair_up (arcs_in self.entry.words.now)) j (0, 0) }
    {
        (
            wide(self.words[INPUTS + 2 * j]),
            wide(self.words[OUTPUTS + 2 * j]),
        )
    }
}

// Words to whose bodies none of 4 to 7 applies.
#[derive(Clone, Copy)]
pub struct RuledWords<'a> {
    pub sized: SizedWords<'a>,
    ghost ruled: { Ruled sized.words.now },
}
