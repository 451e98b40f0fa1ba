// The look-up words of a net, behind its other words: each arc at its activity and kind.
// Above `net` and `net_routes`, whose laws say what tested words hold; `net_loader` stores them.

#![tactic(auto)]

ghost use Rattle.std.specs.Prelude.{◌≡◌, ◌+◌, ◌≤◌, get_or, take, drop};
ghost use Rattle.words.specs.Lists.{pair_up, parts};
ghost use Rattle.net.specs.Held.{net_in, counts_in, arcs_in, index_row, index_rows};
ghost use Rattle.net.specs.Ruled.{Ruled};
ghost use Rattle.net.specs.Limits.{net_words};

use net::tested::SizedWords;
use net::{COUNTS, INDEX, NetWords};
use words::wide;

// The n arcs from arc `from` on, each at its kind's word of the eight from word `base` on.
#[tactic(auto, using(crate::proofs::Indexed::indexed))]
fn index_row(t: &mut NetWords, from: usize, n: usize, base: usize)
    requires ruled { Ruled t.old }
    requires bounded { (from + n ≤ get_or t.old 3 0) × (1172 ≤ base) × (base + 8 ≤ net_words) }
    ensures { t.new ≡ index_row (net_in t.old).kind_of base (take n (drop from (pair_up (arcs_in t.old)))) t.old }
{
    for i in 0..n {
        let words = SizedWords { words: t };
        let (p, q) = words.arc(from + i);
        let k = wide(words.places()[p]);
        t[base + k] = (p + 256 * q + 65536) as u32;
    }
}

// The arcs of all activities.
#[tactic(auto, using(crate::proofs::Indexed::indexed))]
pub fn index_arcs(t: &mut NetWords)
    requires { Ruled t.old }
    ensures { t.new ≡ index_rows (net_in t.old).kind_of 1172 (parts (counts_in t.old) (pair_up (arcs_in t.old))) t.old }
{
    let mut from = 0;
    for a in 0..wide(t[2]) {
        let size = wide(t[COUNTS + a]);
        index_row(t, from, size, INDEX + 8 * a);
        from += size;
    }
}
