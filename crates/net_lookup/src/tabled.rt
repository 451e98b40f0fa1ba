// A loaded net beside the table file that it was loaded from.

ghost use Rattle.std.specs.Prelude.{◌≡◌};
ghost use Rattle.net.specs.Held.{Tabled};

use crate::LoadedNet;
use net::NetWords;

// The net of a table file that loads, and the file's bytes.
#[derive(Clone, Copy)]
pub struct TabledNet<'a> {
    pub net: LoadedNet<'a>,
    pub table: &'a [u8],
    pub ghost tabled: { Tabled net.words.now table.now },
}

impl<'a> TabledNet<'a> {
    // The net that the words hold once the table is loaded.
    pub fn loaded(words: &'a NetWords, table: &'a [u8]) -> TabledNet<'a>
        requires { Tabled words.now table.now }
        ensures { (result.net.words.now ≡ words.now) × (result.table.now ≡ table.now) }
    {
        let net = LoadedNet { words };
        TabledNet { net, table }
    }
}
