// The tests 4 and 5 on a table's bodies in words: the kinds of its places, the source and the sink of each kind.
// Above `net`; `net_refusals` asks them.

#![tactic(auto)]

ghost use Rattle.std.specs.Prelude.{◌≡◌, ℕ, ◌<◌, leb};
ghost use Rattle.words.specs.Lists.{any, any_to};
ghost use Rattle.net.specs.Table.{bad_ends};
ghost use Rattle.net.specs.Held.{net_in, places_in};

use net::tested::SizedWords;
use words::wide;

// One of the places is of none of so many kinds.
fn unknown_kind(kinds: usize, places: &[u32]) -> bool
    ensures { result ≡ any (λ (k : ℕ). leb kinds k) places.now }
{
    places.iter().any(|kind| kinds <= wide(*kind))
}

// 4: a place of unknown kind. The proof looks into `places_in`, so that any slice of the words is judged by what is in it.
#[tactic(auto, unfolding(net::specs::Held::places_in))]
pub fn bad_place(w: SizedWords) -> bool
    ensures { result ≡ any (λ (k : ℕ). leb (net_in w.entry.words.now).kinds k) (places_in w.entry.words.now) }
{
    unknown_kind(w.kinds(), w.places())
}

// The source and the sink of kind k break test 5.
#[tactic(auto, using(std::proofs::lemmas::Bool::Decides::nat_tests), unfolding(net::specs::Held::net_in))]
fn bad_pair(w: SizedWords, k: usize) -> bool
    requires { k < (net_in w.words.now).kinds }
    ensures { result ≡ bad_ends (net_in w.entry.words.now) k }
{
    let kinds = w.places();
    let source = w.source(k);
    let sink = w.sink(k);
    kinds.len() <= source
        || kinds.len() <= sink
        || wide(kinds[source]) != k
        || wide(kinds[sink]) != k
        || source == sink
}

// 5: a kind whose source or sink is unknown, of another kind, or the same place.
pub fn bad_ends(w: SizedWords) -> bool
    ensures { result ≡ any_to (net_in w.entry.words.now).kinds (bad_ends (net_in w.entry.words.now)) }
{
    (0..w.kinds()).any(|k| bad_pair(w, k))
}
