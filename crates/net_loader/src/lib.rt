// Loading: a table file's bytes become a loaded net in words, or are refused with the first of 1 to 9 that applies.
// Above `net_shape` and `net_refusals`, which have the tests 1 to 3 and 4 to 9, and `net_fill` and `net_index`, which store the
// words. The program, the calls from C and `checkpoint_restore` load with it.

#![tactic(auto)]

ghost use Rattle.std.specs.Prelude.{◌≡◌, replicate};
ghost use Rattle.net.specs.Table.{load_code};
ghost use Rattle.net.specs.Held.{loaded_words, after_load};
ghost use Rattle.net.specs.Answer.{load_answer_code};
ghost use Rattle.net.specs.Limits.{net_words};

use net::{INPUTS, LoadError, NET_WORDS, NetWords};
use net_fill::{copy_body, copy_front};
use net_index::index_arcs;
use net_refusals::{refuse_arcs, refuse_front};
use net_shape::refuse_shape;

// Loads a table file into words that are all zero. Where it is refused, nothing is said of them. That they are zero is a clause here and
// above: a struct over a `&mut` would need a clause in its place, that it lends the same words.
pub fn load_fresh(s: &[u8], t: &mut NetWords) -> Result<(), LoadError>
    requires { t.old ≡ replicate net_words 0 }
    ensures { (load_answer_code result ≡ load_code s.now) × (load_code s.now ≡ 0 → t.new ≡ loaded_words s.now) }
{
    refuse_shape(s)?;
    copy_front(s, t);
    refuse_front(t)?;
    copy_body(s, 3, t, INPUTS);
    refuse_arcs(t)?;
    index_arcs(t);
    Ok(())
}

// All words of w, over those that are lent.
fn copy_all(w: &NetWords, t: &mut NetWords)
    ensures { t.new ≡ w.now }
{
    *t = *w;
}

// Loads a table file into lent words. Where it is refused the words stay as they are.
pub fn load(s: &[u8], t: &mut NetWords) -> Result<(), LoadError>
    ensures { (load_answer_code result ≡ load_code s.now) × (t.new ≡ after_load s.now t.old) }
{
    let mut w = [0u32; NET_WORDS];
    load_fresh(s, &mut w)?;
    copy_all(&w, t);
    Ok(())
}
