// Starting a trail: its first record, written into lent bytes from a loaded table and the objects' kinds.
// Above `net_lookup`, `replay_objects`, which refuses a register, `replay_layout`, which lays out the record, and `replay`, whose
// definitions its contracts cite. The program and the C calls start by it.

#![tactic(auto)]

ghost use Rattle.std.specs.Prelude.{◌≡◌, map, ℕ, ◌+◌, ◌<◌, ◌≤◌, length, get_or, set, replicate};
ghost use Rattle.std.proofs.Common.{rules};
ghost use Rattle.std.proofs.lemmas.List.Edits.{sets};
ghost use Rattle.words.specs.Words.{words_of};
ghost use Rattle.net.specs.Held.{net_in};
ghost use Rattle.net.specs.Table.{net_of};
ghost use Rattle.replay.specs.Limits.{head_words};
ghost use Rattle.replay.specs.Plain.{register_code};
ghost use Rattle.replay.specs.Calls.{start_record, start_code, start_bytes};
ghost use Rattle.replay_start.specs.StartAnswers.{start_error_code, start_answer_code};
ghost use Rattle.replay_start.specs.declared.StartError.TheVariants.{Register};
ghost use Rattle.replay.specs.Register.{kinds_in};
ghost use Rattle.replay_layout.specs.Offsets.{place_at};
ghost use Rattle.replay_start.specs.Startable.{Startable, contents_of};

use net_lookup::tabled::TabledNet;
use replay_layout::{HEAD, HEAD_WORDS, Layout, fresh};
use replay_objects::objects::Register;
use replay_objects::register::{RegisterError, register_refusal};
use words::answers::Refusal;

// What a trail is started from: the net of a table file, and a register of whole rows.
#[derive(Clone, Copy)]
pub struct StartBodies<'a> {
    pub tabled: TabledNet<'a>,
    pub register: &'a [u8],
    pub ghost startable: { Startable tabled.net.words.now tabled.table.now register.now },
}

// Why starting is refused. `start_error_code` gives document 01's number.
#[derive(Clone, Copy)]
pub enum StartError {
    // 11 or 12, of its register.
    Register(RegisterError),
    // 61: the lent part is shorter than the record.
    NoRoom,
}

impl Refusal for StartError {
    ghost number_of = { start_error_code };

    ghost not_zero = { Prim.search rules };

    fn number(self) -> u32 {
        match self {
            StartError::Register(e) => e.number(),
            StartError::NoRoom => 61,
        }
    }
}

impl From<RegisterError> for StartError {
    ghost from_gives = { λ register e. e ≡ Register register };

    fn from(register: RegisterError) -> StartError {
        StartError::Register(register)
    }
}

// A contents pair, from number i on.
fn put_pair(out: &mut [u8], i: usize, at: usize, size: usize)
    requires inside { i + 1 < length (words_of out.old) }
    requires fits { (at < 4294967296) × (size < 4294967296) }
    ensures { words_of out.new ≡ set (set (words_of out.old) i at) (i + 1) size }
{
    words::put_word(out, i, at as u32);
    words::put_word(out, i + 1, size as u32);
}

// The five contents pairs, by how many bytes each body takes.
fn put_contents(
    out: &mut [u8],
    table: usize,
    register: usize,
    positions: usize,
    counts: usize,
    pairs: usize,
)
    requires head_room { head_words ≤ length (words_of out.old) }
    requires bounded { (table ≤ 20000) × (register ≤ 20000) × (positions ≤ 20000) × (counts ≤ 20000) × (pairs ≤ 20000) }
    ensures { words_of out.new ≡ sets (words_of out.old) 0 (contents_of table register positions counts pairs) }
{
    let kinds = HEAD + table;
    let places = kinds + register;
    let tail = places + positions;
    put_pair(out, 0, HEAD, table);
    put_pair(out, 2, kinds, register);
    put_pair(out, 4, places, positions);
    put_pair(out, 6, tail, counts);
    put_pair(out, 8, tail + counts, pairs);
}

// The numbers of s, from number `base` on. That s has bytes is said too: the check does not see it of a slice in a lent struct. A loop,
// for the reason that stands at `checkpoint_restore::copy_front`.
fn copy_words(s: &[u8], out: &mut [u8], base: usize)
    requires { base + length (words_of s.now) ≤ length (words_of out.old) }
    ensures after { words_of out.new ≡ sets (words_of out.old) base (words_of s.now) }
    ensures bytes { (i : ℕ) → get_or s.now i 0 < 256 }
{
    for i in 0..s.len() / 4 {
        words::put_word(out, base + i, words::get_word(s, i));
    }
}

// Object o's row of the positions: it stands on its kind's source.
fn put_source(register: &Register, out: &mut [u8], lay: Layout, o: usize)
    requires known_object { (o < length (kinds_in (net_in register.now.net.words.now) register.now.bytes.now)) × (place_at lay o < length (words_of out.old)) }
    ensures { words_of out.new ≡ set (words_of out.old) (place_at lay o) (get_or (map (net_in register.now.net.words.now).source (kinds_in (net_in register.now.net.words.now) register.now.bytes.now)) o 0) }
{
    let net = &register.net;
    let k = words::wide(replay_rows::kind(register.bytes, net.words, o));
    let q = net.source(k);
    lay.put_place(out, o, q as u32);
}

// The positions: each object stands on its kind's source.
fn put_sources(register: &Register, out: &mut [u8], lay: Layout)
    requires room { place_at lay (length (kinds_in (net_in register.now.net.words.now) register.now.bytes.now)) ≤ length (words_of out.old) }
    ensures { words_of out.new ≡ sets (words_of out.old) lay.positions (map (net_in register.now.net.words.now).source (kinds_in (net_in register.now.net.words.now) register.now.bytes.now)) }
{
    for o in 0..replay_rows::objects(register.bytes, register.net.words) {
        put_source(register, out, lay, o);
    }
}

// n times 0, from number `base` on.
fn put_zeros(out: &mut [u8], base: usize, n: usize)
    requires { base + n ≤ length (words_of out.old) }
    ensures { words_of out.new ≡ sets (words_of out.old) base (replicate n 0) }
{
    out[4 * base..4 * (base + n)].fill(0);
}

// The record, into bytes that have just room for it.
fn fill(bodies: &StartBodies, out: &mut [u8])
    requires registered { register_code (net_of bodies.now.tabled.table.now) (kinds_in (net_in bodies.now.tabled.net.words.now) bodies.now.register.now) ≡ 0 }
    requires exact { length out.old ≡ length (start_record bodies.now.tabled.table.now (kinds_in (net_in bodies.now.tabled.net.words.now) bodies.now.register.now)) }
    ensures { out.new ≡ start_record bodies.now.tabled.table.now (kinds_in (net_in bodies.now.tabled.net.words.now) bodies.now.register.now) }
{
    let net = bodies.tabled.net;
    let table = bodies.tabled.table;
    let bytes = bodies.register;
    let counts = replay_layout::counts_bytes(&net);
    let pairs = replay_layout::pairs_bytes(&net);
    let lay = fresh::layout(&net, table.len() / 4, bytes);
    let positions = replay_rows::position_bytes(lay.objects);
    put_contents(out, table.len(), bytes.len(), positions, counts, pairs);
    copy_words(table, out, HEAD_WORDS);
    copy_words(bytes, out, lay.register);
    let register = Register { bytes, net };
    put_sources(&register, out, lay);
    put_zeros(out, lay.counts, counts / 4 + pairs / 4);
}

// Starts a trail: its record in front of the lent bytes. Where it is refused no byte changes.
#[tactic(auto, using(crate::proofs::StartLaws::starts))]
pub fn start(bodies: &StartBodies, rec: &mut [u8]) -> Result<(), StartError>
    ensures code { start_answer_code result ≡ start_code bodies.now.tabled.table.now (kinds_in (net_in bodies.now.tabled.net.words.now) bodies.now.register.now) (length rec.old) }
    ensures rec_after { rec.new ≡ start_bytes bodies.now.tabled.table.now (kinds_in (net_in bodies.now.tabled.net.words.now) bodies.now.register.now) rec.old }
{
    let net = &bodies.tabled.net;
    register_refusal(bodies.register, net)?;
    let size = fresh::record_bytes(net, bodies.tabled.table.len(), bodies.register);
    if rec.len() < size {
        return Err(StartError::NoRoom);
    }
    fill(bodies, &mut rec[..size]);
    Ok(())
}
