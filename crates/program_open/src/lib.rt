// The trail file on standard input, which `conform` hands in, opened and followed: its contents, its register, then its events on
// the trail that is started. Reading and deciding are apart: functions that read (`read_..`) hand the bytes to functions that
// decide, and these give back what is to be printed: how many bytes the trail has, or the first refusal. Proved of what is given
// back: it has the text for the table's bytes and a trail file of which the bytes handed in are the front (`program_text`:
// `FromFile`). That standard input is that file no contract can say, and is tested.
// Above `trace_header`, `replay_start` and `program_events`; `conform` uses it once a table is loaded.

#![tactic(auto)]

ghost use Rattle.std.specs.Prelude.{◌≡◌, [], ◌%◌, ◌≤◌, ◌<◌, length};
ghost use Rattle.net.specs.Table.{net_of};
ghost use Rattle.replay.specs.Plain.{register_code};
ghost use Rattle.replay.specs.Limits.{max_record};
ghost use Rattle.replay.specs.Register.{row_bytes, max_register, kinds_in};
ghost use Rattle.program_input.specs.Window.{window_bytes, window_room};
ghost use Rattle.program_output.specs.Ending.{Printable};
ghost use Rattle.program_text.specs.FromFile.{FromFile, BehindContents, BehindRegister};

use net_lookup::tabled::TabledNet;
use program_events::follow;
use program_input::{InputWindow, read_full, read_some, skip};
use program_output::Refused;
use replay_layout::fresh::record_bytes;
use replay_objects::objects::Register;
use replay_rows::most_bytes;
use replay_start::StartBodies;
use std::io::Read;
use trace_header::{Bodies, OpenError, opening_refusal, read_contents};

// A trail file whose contents claim bodies of so many bytes, the register's in whole rows, and the table's net.
#[derive(Drop)]
struct Claimed<'a> {
    tabled: TabledNet<'a>,
    bodies: Bodies,
    ghost whole_rows: { bodies.register % row_bytes (net_of tabled.table.now) ≡ 0 },
}

// A register that is not refused: the trail is started, which nothing can refuse here, and its events are followed. In the window
// are the bytes that were read first behind the register.
fn begin<R: Read>(
    input: &mut R,
    start: &StartBodies,
    body: usize,
    rec: &mut [u8],
    window: &mut InputWindow,
) -> Result<usize, Refused>
    requires registered { register_code (net_of start.now.tabled.table.now) (kinds_in (net_of start.now.tabled.table.now) start.now.register.now) ≡ 0 }
    requires room { max_record ≤ length rec.old }
    requires in_bounds { 40 ≤ window_room window.old }
    ensures text { BehindRegister start.now.tabled.table.now start.now.register.now body (window_bytes window.old) (window_room window.old) result rec.new }
    ensures printable { Printable start.now.tabled.net.words.now rec.new result }
{
    let _ = replay_start::start(start, rec);
    let net = start.tabled.net;
    let bytes = start.register;
    let size = record_bytes(&net, start.tabled.table.len(), bytes);
    let register = Register { bytes, net };
    follow(input, &mut rec[..size], &register, body, window)
}

// Reads the first part of the events.
fn read_events<R: Read>(
    input: &mut R,
    start: &StartBodies,
    body: usize,
    rec: &mut [u8],
) -> Result<usize, Refused>
    requires registered { register_code (net_of start.now.tabled.table.now) (kinds_in (net_of start.now.tabled.table.now) start.now.register.now) ≡ 0 }
    requires room { max_record ≤ length rec.old }
    ensures text { BehindRegister start.now.tabled.table.now start.now.register.now body [] 0 result rec.new }
    ensures printable { Printable start.now.tabled.net.words.now rec.new result }
{
    let mut buf = [0u8; 65536];
    let mut window = InputWindow::read(input, &mut buf);
    begin(input, start, body, rec, &mut window)
}

// The bytes of a register that are there, at most as many as are claimed.
#[tactic(auto, using(crate::proofs::Opening::registers))]
fn open_register<'a, R: Read>(
    input: &mut R,
    claimed: &'a Claimed,
    register: &'a [u8],
    rec: &mut [u8],
) -> Result<usize, Refused>
    requires at_most_claimed { length register.now ≤ claimed.now.bodies.register }
    requires room { max_record ≤ length rec.old }
    ensures text { BehindContents claimed.now.tabled.table.now claimed.now.bodies register.now claimed.now.bodies.register result rec.new }
    ensures printable { Printable claimed.now.tabled.net.words.now rec.new result }
{
    let net = &claimed.tabled.net;
    opening_refusal(claimed.bodies.register, register.len(), register, net)?;
    let start = StartBodies {
        tabled: claimed.tabled,
        register,
    };
    read_events(input, &start, claimed.bodies.events, rec)
}

// Reads a register that can be held whole.
fn read_register<R: Read>(
    input: &mut R,
    claimed: &Claimed,
    rec: &mut [u8],
) -> Result<usize, Refused>
    requires short { claimed.now.bodies.register ≤ max_register (net_of claimed.now.tabled.table.now) }
    requires room { max_record ≤ length rec.old }
    ensures text { BehindContents claimed.now.tabled.table.now claimed.now.bodies [] 0 result rec.new }
    ensures printable { Printable claimed.now.tabled.net.words.now rec.new result }
{
    let mut register = [0u8; 4096];
    let there = read_some(input, &mut register, claimed.bodies.register);
    open_register(input, claimed, &register[..there], rec)
}

// A trail file whose contents are not broken.
fn open_bodies<R: Read>(input: &mut R, claimed: &Claimed, rec: &mut [u8]) -> Result<usize, Refused>
    requires room { max_record ≤ length rec.old }
    ensures text { BehindContents claimed.now.tabled.table.now claimed.now.bodies [] 0 result rec.new }
    ensures printable { Printable claimed.now.tabled.net.words.now rec.new result }
{
    let most = most_bytes(claimed.tabled.net.words);
    if most < claimed.bodies.register {
        // A register longer than the longest that is taken is refused here: of its bytes those there are counted, not held.
        let there = skip(input, claimed.bodies.register);
        opening_refusal(claimed.bodies.register, there, b"", &claimed.tabled.net)?;
    }
    read_register(input, claimed, rec)
}

// A trail file, by its first bytes, for a table that is loaded.
#[tactic(auto, using(crate::proofs::Opening::heads))]
fn open_trail<R: Read>(
    input: &mut R,
    tabled: &TabledNet,
    head: &[u8],
    rec: &mut [u8],
) -> Result<usize, Refused>
    requires head_short { length head.now ≤ 16 }
    requires room { max_record ≤ length rec.old }
    ensures text { FromFile tabled.now.table.now head.now 16 result rec.new }
    ensures printable { Printable tabled.now.net.words.now rec.new result }
{
    let bodies = read_contents(head, tabled.net.words).ok_or(OpenError::Contents)?;
    let claimed = Claimed {
        tabled: *tabled,
        bodies,
    };
    open_bodies(input, &claimed, rec)
}

// Reads the first bytes of the trail file.
pub fn read_trail<R: Read>(
    input: &mut R,
    tabled: &TabledNet,
    rec: &mut [u8],
) -> Result<usize, Refused>
    requires room { max_record ≤ length rec.old }
    ensures text { FromFile tabled.now.table.now [] 0 result rec.new }
    ensures printable { Printable tabled.now.net.words.now rec.new result }
{
    let mut head = [0u8; 16];
    let n = read_full(input, &mut head);
    open_trail(input, tabled, &head[..n], rec)
}
