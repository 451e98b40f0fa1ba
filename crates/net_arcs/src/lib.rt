// The tests 6 and 7 on a table's bodies in words: the number of arcs of each activity, the places of each arc.
// Above `net`; `net_refusals` asks them.

#![tactic(auto)]

ghost use Rattle.std.specs.Prelude.{◌≡◌, ℕ, ◌≤◌, length, get_or};
ghost use Rattle.words.specs.Lists.{any, pair_up, total};
ghost use Rattle.net.specs.Table.{bad_count, bad_arc};
ghost use Rattle.net.specs.Held.{net_in, counts_in, arcs_in};

use net::tested::SizedWords;
use words::wide;

// 6: an activity with no arcs or over 8.
pub fn bad_counts(w: SizedWords) -> bool
    ensures { result ≡ any bad_count (counts_in w.entry.words.now) }
{
    w.counts().iter().any(|n| *n == 0 || 8 < *n)
}

// The sum of at most 64 numbers, which fits.
fn sum(counts: &[u32]) -> usize
    requires { length counts.now ≤ 64 }
    ensures { result ≡ total (λ (n : ℕ). n) counts.now }
{
    counts.iter().map(|n| wide(*n)).sum()
}

// 6: how many arcs the activities claim. The proof looks into `counts_in`, as that of `net_places::bad_place` into `places_in`.
#[tactic(auto, using(crate::proofs::SumLaws::few_counts), unfolding(net::specs::Held::counts_in))]
pub fn sum_counts(w: SizedWords) -> usize
    ensures { result ≡ total (λ (n : ℕ). n) (counts_in w.entry.words.now) }
{
    sum(w.counts())
}

// The arc from place p to place q breaks test 7.
#[tactic(auto, using(std::proofs::lemmas::Bool::Decides::nat_tests), unfolding(net::specs::Held::net_in))]
fn bad_arc(w: SizedWords, p: usize, q: usize) -> bool
    ensures { result ≡ bad_arc (net_in w.entry.words.now) (p, q) }
{
    let kinds = w.places();
    kinds.len() <= p || kinds.len() <= q || kinds[p] != kinds[q]
}

// 7: an arc with an unknown place, or with places of two kinds.
pub fn bad_arcs(w: SizedWords) -> bool
    requires bounded { get_or w.words.now 3 0 ≤ 512 }
    ensures { result ≡ any (bad_arc (net_in w.entry.words.now)) (pair_up (arcs_in w.entry.words.now)) }
{
    (0..w.arcs()).any(|j| {
        let (p, q) = w.arc(j);
        bad_arc(w, p, q)
    })
}
