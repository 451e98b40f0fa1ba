// A table's sizes and bodies, copied from bytes into words.
// Above `net`; `net_loader` fills with them.

#![tactic(auto)]

ghost use Rattle.std.specs.Prelude.{◌≡◌, [], ◌∷◌, ◌+◌, ◌*◌, ◌/◌, ◌≤◌, length, take, drop};
ghost use Rattle.std.proofs.lemmas.List.Edits.{sets};
ghost use Rattle.words.specs.Refusals.{first};
ghost use Rattle.words.specs.Words.{word, words_of, body_of};
ghost use Rattle.net.specs.Table.{shape_tests};
ghost use Rattle.net.specs.Held.{front_over};
ghost use Rattle.net.specs.Limits.{net_words};

use net::{COUNTS, NetWords, PLACES, SOURCES};
use words::wide;

// The n numbers of the bytes from number `from` on become the words from word `base` on: four bytes each, so no slice is copied.
#[tactic(auto, using(crate::proofs::Shape::lengths))]
fn copy_words(s: &[u8], from: usize, n: usize, w: &mut NetWords, base: usize)
    requires inside { from + n ≤ length (words_of s.now) }
    requires room { base + n ≤ net_words }
    ensures { w.new ≡ sets w.old base (take n (drop from (words_of s.now))) }
{
    for i in 0..n {
        w[base + i] = words::get_word(s, from + i);
    }
}

// Body i becomes the words from word `base` on.
#[tactic(auto, using(crate::proofs::Shape::lengths), unfolding(words::specs::Words::body_of))]
pub fn copy_body(s: &[u8], i: usize, w: &mut NetWords, base: usize)
    requires known_body { (i ≤ 3) × (32 ≤ length s.now) }
    requires inside { word s.now (8 * i) + word s.now (8 * i + 4) ≤ length s.now }
    requires room { base + word s.now (8 * i + 4) / 4 ≤ net_words }
    ensures { w.new ≡ sets w.old base (body_of s.now i) }
{
    let at = 8 * i;
    let from = wide(words::word_at(s, at)) / 4;
    let n = wide(words::word_at(s, at + 4)) / 4;
    copy_words(s, from, n, w, base);
}

// The sizes and the first three bodies of a table to which none of 1 to 3 applies.
#[tactic(auto, using(crate::proofs::Shape::shape), unfolding(net::specs::Held::front_over))]
pub fn copy_front(s: &[u8], w: &mut NetWords)
    requires { first (shape_tests s.now) ≡ 0 }
    ensures { w.new ≡ front_over s.now w.old }
{
    w[0] = words::word_at(s, 4) / 8;
    w[1] = words::word_at(s, 12) / 4;
    w[2] = words::word_at(s, 20) / 4;
    w[3] = words::word_at(s, 28) / 8;
    copy_body(s, 0, w, SOURCES);
    copy_body(s, 1, w, PLACES);
    copy_body(s, 2, w, COUNTS);
}
