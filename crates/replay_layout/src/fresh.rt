// The record of a trail that is just started: how many bytes it takes, and where its bodies stand, each behind the one before it.

ghost use Rattle.std.specs.Prelude.{◌≡◌, ◌/◌, ◌≤◌};
ghost use Rattle.net.specs.Limits.{max_table};
ghost use Rattle.net.specs.Held.{net_in};
ghost use Rattle.replay_layout.specs.Fresh.{Registered, fresh_bytes, fresh_layout};

use super::{HEAD, HEAD_WORDS, Layout, counts_bytes, pairs_bytes};
use net_lookup::LoadedNet;

// How many bytes the record takes, by those of the table and by the register.
pub fn record_bytes(net: &LoadedNet, table: usize, register: &[u8]) -> usize
    requires bounded { (table ≤ max_table) × Registered (net_in net.now.words.now) register.now }
    ensures { result ≡ fresh_bytes (net_in net.now.words.now) table register.now }
{
    let positions = replay_rows::position_bytes(replay_rows::objects(register, net.words));
    HEAD + table + register.len() + positions + counts_bytes(net) + pairs_bytes(net)
}

// Where the bodies stand, by how many numbers the table has and by the register.
pub fn layout(net: &LoadedNet, table: usize, register: &[u8]) -> Layout
    requires bounded { (table ≤ max_table / 4) × Registered (net_in net.now.words.now) register.now }
    ensures { result ≡ fresh_layout (net_in net.now.words.now) table register.now }
{
    let n = replay_rows::objects(register, net.words);
    let kinds = HEAD_WORDS + table;
    let places = kinds + register.len() / 4;
    let counts = places + replay_rows::position_bytes(n) / 4;
    Layout {
        register: kinds,
        positions: places,
        counts,
        pairs: counts + counts_bytes(net) / 4,
        objects: n,
        places: net.places(),
    }
}
