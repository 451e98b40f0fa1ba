// Test 45 on the bytes of register and positions.
// Above `net_lookup` and `replay_rows`, which reads the rows; `checkpoint` has the definitions. `checkpoint_judge` asks it.

#![tactic(auto)]

ghost use Rattle.std.specs.Prelude.{[], ◌≡◌, ◌<◌, length};
ghost use Rattle.net.specs.Held.{net_in};
ghost use Rattle.replay.specs.Plain.{register_code};
ghost use Rattle.replay.specs.Register.{kinds_in};
ghost use Rattle.checkpoint.specs.Bodies.{body_state, hit};
ghost use Rattle.checkpoint.specs.Restore.{tests45};
ghost use Rattle.checkpoint_positions.specs.Positions.{bad_position};

use net_lookup::LoadedNet;
use replay_rows::{kind, objects, place, position_bytes};
use words::wide;

// An object of kind k on place p. Its sink is a known place of its kind.
fn bad_position(net: &LoadedNet, k: usize, p: usize, closed: bool) -> bool
    requires known_kind { k < (net_in net.now.words.now).kinds }
    ensures { result ≡ bad_position (net_in net.now.words.now) closed k p }
{
    if closed {
        p != net.sink(k)
    } else {
        net.places() <= p || net.kind_of(p) != k
    }
}

// 45: one row for each object, each on a known place of its kind, and on its sink in a closed trail,
// whose close took every object (`closers`). That the register is not refused is a clause here and where a trail is started: in each
// place it stands beside other facts of the register, and no struct has both.
pub fn bad_positions(ks: &[u8], ps: &[u8], net: &LoadedNet, closed: bool) -> bool
    requires registered { register_code (net_in net.now.words.now) (kinds_in (net_in net.now.words.now) ks.now) ≡ 0 }
    ensures { result ≡ hit (tests45 (net_in net.now.words.now) (body_state (net_in net.now.words.now) ks.now ps.now [] []) (length ps.now) closed) }
{
    let n = objects(ks, net.words);
    ps.len() != position_bytes(n)
        || (0..n).any(|o| bad_position(
            net,
            wide(kind(ks, net.words, o)),
            wide(place(ps, o)),
            closed,
        ))
}
