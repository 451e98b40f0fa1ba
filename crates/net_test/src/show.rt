// What loading answers, and what becomes of the lent words.

ghost use Rattle.std.specs.Prelude.{◌<◌};
ghost use Rattle.net.specs.Held.{net_in};

use net::{NET_WORDS, NetWords};
use net_lookup::LoadedNet;
use std::io::Write;
use words::answers::Refusal;
use words::wide;

// What the words hold before a table is loaded.
const MARK: u32 = 3000000007;

fn put_byte<W: Write>(out: &mut W, c: u8) {
    let _ = out.write_all(&[c]);
}

fn say<W: Write>(out: &mut W, x: usize) {
    let _ = write!(out, " {x}");
}

// How many words, from the first on, are as they were. The words of a table that was refused: there is no `LoadedNet`.
fn unchanged(t: &NetWords) -> usize {
    t.iter().position(|word| *word != MARK).unwrap_or(NET_WORDS)
}

// Source and sink of each kind.
fn put_kinds<W: Write>(out: &mut W, net: &LoadedNet) {
    put_byte(out, b';');
    for k in 0..net.kinds() {
        say(out, net.source(k));
        say(out, net.sink(k));
    }
}

// The kind of each place.
fn put_places<W: Write>(out: &mut W, net: &LoadedNet) {
    put_byte(out, b';');
    for p in 0..net.places() {
        say(out, net.kind_of(p));
    }
}

// The arc of kind k, where activity a has one.
fn put_arc<W: Write>(out: &mut W, net: &LoadedNet, a: usize, k: usize)
    requires known_act { (a < (net_in net.now.words.now).acts) × (k < (net_in net.now.words.now).kinds) }
{
    if net.takes_kind(a, k) {
        say(out, k);
        say(out, net.input(a, k));
        say(out, net.output(a, k));
    }
}

// How many arcs activity a has, and each.
fn put_act<W: Write>(out: &mut W, net: &LoadedNet, a: usize)
    requires known_act { a < (net_in net.now.words.now).acts }
{
    put_byte(out, b';');
    say(out, net.arcs(a));
    for k in 0..net.kinds() {
        put_arc(out, net, a, k);
    }
}

fn put_acts<W: Write>(out: &mut W, net: &LoadedNet) {
    for a in 0..net.acts() {
        put_act(out, net, a);
    }
}

// The net that the words hold: its sizes, and each kind, place and activity.
fn put_net<W: Write>(out: &mut W, net: &LoadedNet) {
    say(out, net.kinds());
    say(out, net.places());
    say(out, net.acts());
    put_kinds(out, net);
    put_places(out, net);
    put_acts(out, net);
}

// Loads the table s, and writes the answer's number and what the words hold then, to the end of the line.
pub fn load<W: Write>(out: &mut W, s: &[u8]) {
    let mut t = [MARK; NET_WORDS];
    match net_loader::load(s, &mut t) {
        Ok(()) => {
            say(out, 0);
            let net = LoadedNet { words: &t };
            put_net(out, &net);
        }
        Err(refused) => {
            say(out, wide(refused.number()));
            say(out, unchanged(&t));
        }
    }
    put_byte(out, b'\n');
}
