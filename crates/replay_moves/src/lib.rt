// One object of an event or of the close: it is sought on a place, jumps there from any other, and is left on a place.
// Above `replay_layout`, whose offsets it uses. `replay_event` and `replay_close` move objects by it, and share its laws.

#![tactic(auto)]

ghost use Rattle.std.specs.Prelude.{◌≡◌, ◌+◌, ◌≤◌};
ghost use Rattle.words.specs.Words.{words_of};
ghost use Rattle.replay.specs.Ready.{Ready};
ghost use Rattle.replay.proofs.ReadyOnce.{Ready-prop};
ghost use Rattle.replay_moves.specs.Moves.{raise, jumps_to, go_words, CanAdd, CanMove};

use net_lookup::LoadedNet;
use replay_layout::Layout;

// A trail that is written: its record's bytes and the net of its table, which belong together. While an event or the close is
// carried out in the bytes they do not, so what it does to them takes the bytes alone.
#[derive(Drop)]
pub struct TrailMut<'r, 'n> {
    pub rec: &'r mut [u8],
    pub net: LoadedNet<'n>,
    pub ghost ready: { Ready net.words.now rec.now } by { Ready-prop net.words.now rec.now },
}

// Number i of the record's numbers behind the first `base` is d more.
fn add_behind(rec: &mut [u8], base: usize, i: usize, d: u32)
    requires { CanAdd (base + i) d (words_of rec.old) }
    ensures { words_of rec.new ≡ raise (words_of rec.old) (base + i) d }
{
    let x = words::get_behind(rec, base, i);
    words::put_behind(rec, base, i, x + d);
}

// Number i of the record is d more.
pub fn add(rec: &mut [u8], i: usize, d: u32)
    requires { CanAdd i d (words_of rec.old) }
    ensures { words_of rec.new ≡ raise (words_of rec.old) i d }
{
    add_behind(rec, 0, i, d);
}

// Object o is sought on place `inp` and left on place `out`. The jumps that lead it there, 0 or 1, are counted at the pair
// and returned. Where there is none, 0 is added: whether an object jumps cannot be foretold, so that a branch would cost more.
pub fn move_object(rec: &mut [u8], lay: Layout, o: usize, inp: usize, out: u32) -> u32
    requires { CanMove lay o inp (words_of rec.old) }
    ensures { (words_of rec.new ≡ go_words lay o inp out (words_of rec.old)) × (result ≡ jumps_to lay o inp (words_of rec.old)) × (result ≤ 1) }
{
    let at = words::wide(lay.get_place(rec, o));
    let jumps = u32::from(at != inp);
    add_behind(rec, lay.pairs, lay.pair_index(at, inp), jumps);
    lay.put_place(rec, o, out);
    jumps
}
