// Test 8 on a table's bodies in words: two arcs of one activity of one kind.

ghost use Rattle.std.specs.Prelude.{◌≡◌, ◌+◌, ◌≤◌, List, get_or, take, drop};
ghost use Rattle.words.specs.Lists.{any, twice, pair_up, parts};
ghost use Rattle.net.specs.Net.{Arc, kinds_of};
ghost use Rattle.net.specs.Held.{net_in, counts_in, arcs_in};

use net::tested::RuledWords;
use words::wide;

// Two of the n arcs from arc `from` on are of one kind.
#[tactic(auto, using(crate::proofs::RuledWords::rows))]
fn two_in_row(w: RuledWords, from: usize, n: usize) -> bool
    requires bounded { from + n ≤ get_or w.sized.words.now 3 0 }
    ensures { let words = w.entry.sized.words.now in result ≡ twice (kinds_of (net_in words) (take n (drop from (pair_up (arcs_in words))))) }
{
    let kinds = w.sized.places();
    let mut seen = [false; 8];
    for i in 0..n {
        let (p, _) = w.sized.arc(from + i);
        let k = wide(kinds[p]);
        if seen[k] {
            return true;
        }
        seen[k] = true;
    }
    false
}

// 8: two arcs of one activity are of one kind.
pub fn two_of_kind(w: RuledWords) -> bool
    ensures { let words = w.entry.sized.words.now in result ≡ any (λ (row : List Arc). twice (kinds_of (net_in words) row)) (parts (counts_in words) (pair_up (arcs_in words))) }
{
    let mut from = 0;
    for size in w.sized.counts() {
        let n = wide(*size);
        if two_in_row(w, from, n) {
            return true;
        }
        from += n;
    }
    false
}
