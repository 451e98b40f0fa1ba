// Four-byte numbers in byte slices, least significant byte first, and the layout of files that begin with contents pairs.
// The lowest layer: crates of every other layer use it, and it uses nothing.

#![tactic(auto)]

pub mod answers;

ghost use Rattle.std.specs.Prelude.{◌≡◌, ◌+◌, ◌*◌, ◌<◌, ◌≤◌, length, get_or};
ghost use Rattle.words.specs.Words.{word, words_of, bodies_of, ends_at};
ghost use Rattle.words.specs.Put.{Put};

// The same number as an index; no `From` goes from u32 to usize, nor from usize to u64. The other way `as u32` and `as u8` are written
// where a number is known to fit: `try_from` would hand out an error that cannot come.
pub fn wide(x: u32) -> usize
    ensures { result ≡ x }
{
    x as usize
}

// The number whose first byte is byte `at`.
#[tactic(auto, unfolding(crate::specs::Words::word))]
pub fn word_at(s: &[u8], at: usize) -> u32
    requires { at + 4 ≤ length s.now }
    ensures { result ≡ word s.now at }
{
    u32::from_le_bytes([s[at], s[at + 1], s[at + 2], s[at + 3]])
}

// Number i of the bytes.
pub fn get_word(s: &[u8], i: usize) -> u32
    requires { i < length (words_of s.now) }
    ensures { result ≡ get_or (words_of s.now) i 0 }
{
    word_at(s, 4 * i)
}

// Number i of the bytes becomes x; no other byte changes.
pub fn put_word(s: &mut [u8], i: usize, x: u32)
    requires { i < length (words_of s.old) }
    ensures { Put s.old i x s.new }
{
    let at = 4 * i;
    s[at..at + 4].copy_from_slice(&x.to_le_bytes());
}

// Number i of those behind the first `base`. A part that begins there is cut out, so that a caller's loop works out its start once.
pub fn get_behind(s: &[u8], base: usize, i: usize) -> u32
    requires { base + i < length (words_of s.now) }
    ensures { result ≡ get_or (words_of s.now) (base + i) 0 }
{
    let from = 4 * base;
    get_word(&s[from..], i)
}

// Number i of those behind the first `base` becomes x; no other byte changes.
pub fn put_behind(s: &mut [u8], base: usize, i: usize, x: u32)
    requires { base + i < length (words_of s.old) }
    ensures { Put s.old (base + i) x s.new }
{
    let start = 4 * base;
    put_word(&mut s[start..], i, x);
}

// Where the bodies of the n pairs at the front of a file end, if each begins where the one before it ends. `laid_out`, the layout
// test of tables and records, asks it.
pub fn read_bodies(s: &[u8], n: usize) -> Option<u64>
    requires { 8 * n ≤ length s.now }
    ensures { result ≡ bodies_of n s.now }
{
    let mut end = (8 * n) as u64;
    for i in 0..n {
        let at = 8 * i;
        if u64::from(word_at(s, at)) != end {
            return None;
        }
        end += u64::from(word_at(s, at + 4));
    }
    Some(end)
}

// The n bodies that the contents claim have no gap and end where the file ends.
pub fn laid_out(s: &[u8], n: usize) -> bool
    requires { 8 * n ≤ length s.now }
    ensures { result ≡ ends_at (length s.now) (bodies_of n s.now) }
{
    read_bodies(s, n) == Some(s.len() as u64)
}
