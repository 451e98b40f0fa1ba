// Test 46 on the bytes of register and counts.
// Above `net_lookup`, `replay_rows` and `replay_layout`, which says where each count stands; `checkpoint` has the definitions.
// `checkpoint_judge` asks it, and `checkpoint_jumps` sums counts by it.

#![tactic(auto)]

ghost use Rattle.std.specs.Prelude.{not, [], ◌∷◌, ◌≡◌, ℕ, ◌+◌, ◌*◌, ◌<◌, ◌≤◌, ltb, eqb, length, get_or};
ghost use Rattle.words.specs.Lists.{either, any_to, sum_to, both};
ghost use Rattle.words.specs.Words.{words_of};
ghost use Rattle.net.specs.Held.{net_in};
ghost use Rattle.replay.specs.Record.{counts_size};
ghost use Rattle.replay_layout.specs.Offsets.{fired_index, jumps_index};
ghost use Rattle.checkpoint.specs.Bodies.{body_state, hit};
ghost use Rattle.checkpoint.specs.Restore.{tests46};

use net_lookup::LoadedNet;
use replay_layout::{CLOSING, EVENTS, FIRED, JUMPS, counts_bytes};
use replay_rows::objects;
use words::{get_word, wide};

// The sum of n numbers, every other one from number `from` on.
pub fn sum_every(cs: &[u8], from: usize, n: usize) -> u64
    requires { (n ≤ 64) × (from ≤ 4) × (from + 2 * n ≤ length (words_of cs.now) + 1) }
    ensures { (result ≡ sum_to n (λ (a : ℕ). get_or (words_of cs.now) (from + 2 * a) 0)) × (result ≤ 274877906944) }
{
    (0..n).map(|a| u64::from(get_word(cs, from + 2 * a))).sum()
}

// JUMPS above MOVED, for an activity with so many arcs.
fn jumps_above(fired: u32, arcs: usize, jumps: u32) -> bool
    requires { arcs ≤ 8 }
    ensures { result ≡ ltb (fired * arcs) jumps }
{
    wide(fired) * arcs < wide(jumps)
}

// JUMPS above MOVED, for some activity.
fn some_jumps_above(cs: &[u8], net: &LoadedNet) -> bool
    requires sized { length (words_of cs.now) ≡ counts_size (net_in net.now.words.now) }
    ensures { result ≡ any_to (net_in net.now.words.now).acts (λ (a : ℕ). ltb (get_or (words_of cs.now) (fired_index a) 0 * length ((net_in net.now.words.now).arcs a)) (get_or (words_of cs.now) (jumps_index a) 0)) }
{
    (0..net.acts()).any(|a| jumps_above(
        get_word(cs, FIRED + 2 * a),
        net.arcs(a),
        get_word(cs, JUMPS + 2 * a),
    ))
}

// Closing jumps above the number of objects that the close takes (`closers`: the register size), or not 0 while open.
fn bad_closing(closed: u32, closing: u32, objects: usize) -> bool
    ensures { result ≡ either (ltb objects closing ∷ both (eqb closed 0) (not (eqb closing 0)) ∷ []) }
{
    objects < wide(closing) || (closed == 0 && closing != 0)
}

// 46: length, closed flag, events, FIRED, JUMPS, closing jumps.
pub fn bad_counts(ks: &[u8], cs: &[u8], net: &LoadedNet) -> bool
    ensures { result ≡ hit (tests46 (net_in net.now.words.now) (body_state (net_in net.now.words.now) ks.now [] cs.now []) (length cs.now)) }
{
    if cs.len() != counts_bytes(net) {
        return true;
    }
    let closed = get_word(cs, 0);
    let events = get_word(cs, EVENTS);
    1 < closed
        || 1000000 < events
        || sum_every(cs, FIRED, net.acts()) != u64::from(events)
        || some_jumps_above(cs, net)
        || bad_closing(closed, get_word(cs, CLOSING), objects(ks, net.words))
}
