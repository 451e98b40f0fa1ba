// The tests 4 to 9 on a table's bodies in words, the first that applies.
// Above `net_places`, `net_arcs` and `net_routes`, which have them; `net_loader` asks.

#![tactic(auto)]

ghost use Rattle.std.specs.Prelude.{◌≡◌};
ghost use Rattle.words.specs.Refusals.{first};
ghost use Rattle.net.specs.Table.{arc_tests};
ghost use Rattle.net.specs.Held.{ends_in, places_in, counts_in, arcs_in, Sized};
ghost use Rattle.net.specs.Ruled.{front_tests, Fronted};
ghost use Rattle.net.specs.Answer.{load_answer_code};

use net::tested::{RuledWords, SizedWords};
use net::{LoadError, NetWords};
use net_arcs::{bad_arcs, bad_counts, sum_counts};
use net_places::{bad_ends, bad_place};
use net_routes::kinds::two_of_kind;
use net_routes::reach::unreached;
use words::wide;

// The first of 4 to 6 that applies.
pub fn refuse_front(w: &NetWords) -> Result<(), LoadError>
    requires { Sized w.now }
    ensures { load_answer_code result ≡ first (front_tests w.now) }
{
    let sized = SizedWords { words: w };
    if bad_place(sized) {
        return Err(LoadError::PlaceKind);
    }
    if bad_ends(sized) {
        return Err(LoadError::Ends);
    }
    if bad_counts(sized) || sum_counts(sized) != wide(w[3]) {
        return Err(LoadError::Arcs);
    }
    Ok(())
}

// The first of 7 to 9 that applies.
#[tactic(auto, unfolding(net::specs::Held::net_in))]
pub fn refuse_arcs(w: &NetWords) -> Result<(), LoadError>
    requires { Fronted w.now }
    ensures { load_answer_code result ≡ first (arc_tests (ends_in w.now) (places_in w.now) (counts_in w.now) (arcs_in w.now)) }
{
    let sized = SizedWords { words: w };
    if bad_arcs(sized) {
        return Err(LoadError::ArcPlaces);
    }
    let ruled = RuledWords { sized };
    if two_of_kind(ruled) {
        return Err(LoadError::TwoOfKind);
    }
    if unreached(ruled) {
        return Err(LoadError::Unreached);
    }
    Ok(())
}
