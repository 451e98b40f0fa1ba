// Test 9 on a table's bodies in words: a sink that no path of arcs joins to its source.
// All kinds are marked at once, which is the same, since an arc joins places of one kind.

ghost use Rattle.std.specs.Prelude.{◌≡◌, not, false, ℕ, ◌<◌, get_or, set, eqb};
ghost use Rattle.words.specs.Lists.{pick, any_to, pair_up};
ghost use Rattle.net.specs.Table.{pass, passes, marked};
ghost use Rattle.net.specs.Held.{net_in, arcs_in};
ghost use Rattle.net.specs.Ruled.{source_marks};

use net::tested::RuledWords;

// One arc from p to q. True where it marked something new. A mark is a number, 1, as in the definition `marked`.
fn mark_arc(m: &mut [u32; 64], p: usize, q: usize) -> bool
    requires p_bound { p < 64 }
    requires q_bound { q < 64 }
    ensures m_after { m.new ≡ pick (eqb (get_or m.old p 0) 1) (set m.old q 1) m.old }
    ensures m_unchanged { result ≡ false → m.new ≡ m.old }
{
    if m[p] != 1 || m[q] == 1 {
        return false;
    }
    m[q] = 1;
    true
}

// One pass over the arcs. False where it marked nothing new.
#[tactic(auto, using(crate::proofs::RuledWords::passing))]
fn mark_pass(w: RuledWords, m: &mut [u32; 64]) -> bool
    ensures m_after { m.new ≡ pass (pair_up (arcs_in w.entry.sized.words.now)) m.old }
    ensures m_unchanged { result ≡ false → m.new ≡ m.old }
{
    let mut more = false;
    for j in 0..w.sized.arcs() {
        let (p, q) = w.sized.arc(j);
        more |= mark_arc(m, p, q);
    }
    more
}

// Passes until one marks nothing new.
#[tactic(auto, using(crate::proofs::RuledWords::all_passes))]
fn mark_all(w: RuledWords, m: &mut [u32; 64])
    ensures { m.new ≡ passes 64 (pair_up (arcs_in w.entry.sized.words.now)) m.old }
{
    for _ in 0..64usize {
        if !mark_pass(w, m) {
            return;
        }
    }
}

// The source of each kind is marked.
#[tactic(auto, using(crate::proofs::RuledWords::ruled))]
fn mark_sources(w: RuledWords, m: &mut [u32; 64])
    ensures { m.new ≡ source_marks (net_in w.entry.sized.words.now) m.old }
{
    for k in 0..w.sized.kinds() {
        m[w.sized.source(k)] = 1;
    }
}

// 9: a sink is not reached from its source.
pub fn unreached(w: RuledWords) -> bool
    ensures { let words = w.entry.sized.words.now in result ≡ any_to (net_in words).kinds (λ (k : ℕ). not (marked (net_in words).places (pair_up (arcs_in words)) ((net_in words).source k) ((net_in words).sink k))) }
{
    let mut m = [0u32; 64];
    mark_sources(w, &mut m);
    mark_all(w, &mut m);
    (0..w.sized.kinds()).any(|k| m[w.sized.sink(k)] != 1)
}
