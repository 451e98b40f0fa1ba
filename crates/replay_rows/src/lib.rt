// The rows of the objects: a register's, how many, whether they are whole, and the kind in each; those of the positions, their bytes,
// and the place in each. How wide a row is stands here alone.
// It takes the net's words, of which it asks nothing: a `LoadedNet` would ask more.
// Above `replay`, whose definitions its contracts cite. `replay_layout` finds a record's rows by it; the tests of registers and
// positions, starting and trace files read theirs through it.

#![tactic(auto)]

ghost use Rattle.std.specs.Prelude.{◌≡◌, ◌/◌, ◌≤◌, ◌<◌, length, get_or};
ghost use Rattle.net.specs.Held.{net_in};
ghost use Rattle.replay.specs.Register.{row_bytes, max_register, whole_body, whole_rows, kind_index, kinds_in, position_bytes, place_index, places_in};

use net::NetWords;
use words::get_word;

// The bytes of the longest register that is taken.
pub fn most_bytes(t: &NetWords) -> usize
    ensures { result ≡ max_register (net_in t.now) }
{
    4096
}

// So many bytes are rows and nothing behind them.
pub fn whole_body(n: usize, t: &NetWords) -> bool
    ensures { result ≡ whole_body (net_in t.now) n }
{
    n % 4 == 0
}

// The bytes are rows and nothing behind them.
pub fn whole(register: &[u8], t: &NetWords) -> bool
    ensures { result ≡ whole_rows (net_in t.now) register.now }
{
    whole_body(register.len(), t)
}

// How many rows so many bytes are.
pub fn rows_in(n: usize, t: &NetWords) -> usize
    ensures { result ≡ n / row_bytes (net_in t.now) }
{
    n / 4
}

// How many objects a register of the net's has.
pub fn objects(register: &[u8], t: &NetWords) -> usize
    ensures { result ≡ length (kinds_in (net_in t.now) register.now) }
{
    rows_in(register.len(), t)
}

// Where object o's kind stands among a register's numbers.
pub fn kind_index(t: &NetWords, o: usize) -> usize
    ensures { result ≡ kind_index (net_in t.now) o }
{
    o
}

// The kind of object o.
pub fn kind(register: &[u8], t: &NetWords, o: usize) -> u32
    requires { o < length (kinds_in (net_in t.now) register.now) }
    ensures { result ≡ get_or (kinds_in (net_in t.now) register.now) o 0 }
{
    get_word(register, kind_index(t, o))
}

// The bytes of the positions of n objects.
pub fn position_bytes(n: usize) -> usize
    requires { n ≤ 1024 }
    ensures { result ≡ position_bytes n }
{
    4 * n
}

// Where object o's place stands among the positions' numbers.
pub fn place_index(o: usize) -> usize
    ensures { result ≡ place_index o }
{
    o
}

// The place of object o, in the positions.
pub fn place(positions: &[u8], o: usize) -> u32
    requires { o < length (places_in positions.now) }
    ensures { result ≡ get_or (places_in positions.now) o 0 }
{
    get_word(positions, place_index(o))
}
