// A loaded net, looked up in one step. What is said of it is said of the net that its words hold.
// Above `net`; all that lies above the loading of tables reads a net by it alone.

#![tactic(auto)]

ghost use Rattle.std.specs.Prelude.{◌≡◌, true, ◌<◌, length};
ghost use Rattle.words.specs.Lists.{pick};
ghost use Rattle.net.specs.Net.{takes, input_of, output_of};
ghost use Rattle.net.specs.Held.{net_in, Held, pack};

use net::{COUNTS, INDEX, NetWords, PLACES, SINKS, SOURCES};
use words::wide;

pub mod tabled;

// The words of a net that was loaded. Its look-ups beside those of `SizedWords`: these ask all that loading promises, those what the
// tests before have shown.
#[derive(Clone, Copy)]
pub struct LoadedNet<'a> {
    pub words: &'a NetWords,
    pub ghost held: { Held words.now },
}

impl LoadedNet<'_> {
    pub fn kinds(&self) -> usize
        ensures { result ≡ (net_in self.now.words.now).kinds }
    {
        wide(self.words[0])
    }

    pub fn places(&self) -> usize
        ensures { result ≡ (net_in self.now.words.now).places }
    {
        wide(self.words[1])
    }

    pub fn acts(&self) -> usize
        ensures { result ≡ (net_in self.now.words.now).acts }
    {
        wide(self.words[2])
    }

    // The source of kind k.
    pub fn source(&self, k: usize) -> usize
        requires known_kind { k < (net_in self.now.words.now).kinds }
        ensures { result ≡ (net_in self.now.words.now).source k }
    {
        wide(self.words[SOURCES + 2 * k])
    }

    // The sink of kind k.
    pub fn sink(&self, k: usize) -> usize
        requires known_kind { k < (net_in self.now.words.now).kinds }
        ensures { result ≡ (net_in self.now.words.now).sink k }
    {
        wide(self.words[SINKS + 2 * k])
    }

    // The kind of place p.
    pub fn kind_of(&self, p: usize) -> usize
        requires known_place { p < (net_in self.now.words.now).places }
        ensures { result ≡ (net_in self.now.words.now).kind_of p }
    {
        wide(self.words[PLACES + p])
    }

    // How many arcs activity a has.
    pub fn arcs(&self, a: usize) -> usize
        requires known_act { a < (net_in self.now.words.now).acts }
        ensures { result ≡ length ((net_in self.now.words.now).arcs a) }
    {
        wide(self.words[COUNTS + a])
    }

    // The look-up word of activity a and kind k: an arc in one number, or 0. The row is cut out first, so that its start is worked
    // out once for all objects of an event.
    fn arc_word(&self, a: usize, k: usize) -> usize
        requires known_act { (a < (net_in self.now.words.now).acts) × (k < (net_in self.now.words.now).kinds) }
        ensures { result ≡ pick (takes (net_in self.now.words.now) a k) (pack (input_of (net_in self.now.words.now) a k, output_of (net_in self.now.words.now) a k)) 0 }
    {
        let row = INDEX + 8 * a;
        let words = self.words;
        let all = &words[..];
        let words = &all[row..];
        wide(words[k])
    }

    // Activity a takes an object of kind k.
    pub fn takes_kind(&self, a: usize, k: usize) -> bool
        requires known_act { (a < (net_in self.now.words.now).acts) × (k < (net_in self.now.words.now).kinds) }
        ensures { result ≡ takes (net_in self.now.words.now) a k }
    {
        self.arc_word(a, k) != 0
    }

    // The place from which activity a takes an object of kind k.
    pub fn input(&self, a: usize, k: usize) -> usize
        requires known_act { (a < (net_in self.now.words.now).acts) × (k < (net_in self.now.words.now).kinds) × (takes (net_in self.now.words.now) a k ≡ true) }
        ensures { result ≡ input_of (net_in self.now.words.now) a k }
    {
        self.arc_word(a, k) % 256
    }

    // The place on which activity a leaves an object of kind k.
    pub fn output(&self, a: usize, k: usize) -> usize
        requires known_act { (a < (net_in self.now.words.now).acts) × (k < (net_in self.now.words.now).kinds) × (takes (net_in self.now.words.now) a k ≡ true) }
        ensures { result ≡ output_of (net_in self.now.words.now) a k }
    {
        self.arc_word(a, k) / 256 % 256
    }
}
