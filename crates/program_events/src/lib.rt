// The events of a trail, carried out one by one in a window of its file that is filled up from standard input, which `conform`
// hands in; then the close.
// What is given back is what is to be printed: `conform` prints it.
// Above `program_step`, `replay_close`, `program_output` and `program_input`; `program_open` uses it once a trail is started.

#![tactic(auto)]

ghost use Rattle.std.specs.Prelude.{◌≡◌, ◌≤◌, length};
ghost use Rattle.net.specs.Held.{net_in};
ghost use Rattle.replay.specs.Calls.{ask_bytes};
ghost use Rattle.replay.specs.Ready.{Ready};
ghost use Rattle.replay.specs.Register.{kinds_in};
ghost use Rattle.replay_close.specs.Answers.{ask_close};
ghost use Rattle.trace_reader.specs.Followed.{Followed, closed_after};
ghost use Rattle.program_input.specs.Window.{window_bytes, window_room};
ghost use Rattle.program_step.specs.Follows.{Follows};
ghost use Rattle.program_step.specs.Outcomes.{SameTrail, followed_kinds, followed_net, outcome_of, spot_at};
ghost use Rattle.program_events.specs.Ends.{ending_after, left_of, refused_by};
ghost use Rattle.program_events.specs.Window.{Window, Filled, Kept, OfSomeFile, Through, Turned};

use net_lookup::LoadedNet;
use program_input::InputWindow;
use program_output::Refused;
use program_step::Following;
use replay_moves::TrailMut;
use replay_objects::objects::Register;
use std::io::Read;
use trace_reader::TraceError;
use words::answers::Refusal;

// Reads and carries out events from the front of the window on, until fewer than `least` bytes are left. Gives how many are
// used; none where the body has ended. A `while`, since each event says how many bytes it has.
fn steps(
    following: &mut Following,
    window: &[u8],
    least: usize,
) -> Result<Option<usize>, TraceError>
    ensures kept { Kept (followed_net following.old) (followed_kinds following.old) following.old.body (Window window.now least) following.old.rec.now (spot_at 0 following.old) following.new.rec.now (outcome_of 0 following.new result) }
    ensures inside { (outcome_of 0 following.new result).spot.from ≤ length window.now }
    ensures through { Through (length window.now) least (spot_at 0 following.old) (outcome_of 0 following.new result) }
    ensures same { SameTrail following.old following.new }
{
    let mut from = 0;
    while least <= window.len() - from {
        match following.step(&window[from..])? {
            Some(size) => from += size,
            None => return Ok(None),
        }
    }
    Ok(Some(from))
}

// Carries out the events in the window: all of them where it is not full, since the input has ended there; else as long as a
// whole event is sure to be in it.
fn turn(following: &mut Following, window: &InputWindow) -> Result<Option<usize>, TraceError>
    ensures kept { Kept (followed_net following.old) (followed_kinds following.old) following.old.body (Filled window.now.buf.now window.now.len) following.old.rec.now (spot_at 0 following.old) following.new.rec.now (outcome_of 0 following.new result) }
    ensures inside { (outcome_of 0 following.new result).spot.from ≤ window.now.len }
    ensures turned { Turned (window_room window.now) window.now.len (spot_at 0 following.old) (outcome_of 0 following.new result) }
    ensures same { SameTrail following.old following.new }
{
    let least = if window.is_full() { 40 } else { 0 };
    steps(following, window.bytes(), least)
}

// The window has room for an event, here and above a clause: a struct over the `&mut` would need another in its place.
// All events, turn by turn: each but the last carries out one event or more. In the window are the bytes that were read first;
// the others are read as they are needed.
fn all_events<R: Read>(
    input: &mut R,
    following: &mut Following,
    window: &mut InputWindow,
) -> Result<(), TraceError>
    requires at_start { (following.old.at ≡ 0) × (following.old.accepted ≡ 0) }
    requires in_bounds { 40 ≤ window_room window.old }
    ensures all { OfSomeFile (followed_net following.old) (followed_kinds following.old) following.old.body following.old.rec.now (window_bytes window.old) (window_room window.old) (◌≡◌ (left_of following.new result)) }
    ensures same { SameTrail following.old following.new }
{
    while let Some(from) = turn(following, window)? {
        window.refill(input, from);
    }
    Ok(())
}

// Puts all events to a trail that is started, or gives the first refusal.
fn put_events<R: Read>(
    input: &mut R,
    rec: &mut [u8],
    register: &Register,
    body: usize,
    window: &mut InputWindow,
) -> Result<(), Refused>
    requires follows { Follows register.now.net.words.now rec.old register.now.bytes.now 0 }
    requires in_bounds { 40 ≤ window_room window.old }
    ensures all { OfSomeFile (net_in register.now.net.words.now) (kinds_in (net_in register.now.net.words.now) register.now.bytes.now) body rec.old (window_bytes window.old) (window_room window.old) (λ (d : Followed). (result ≡ refused_by d) × (rec.new ≡ d.trail)) }
    ensures ready { Ready register.now.net.words.now rec.new }
{
    let mut following = Following {
        rec,
        register,
        body,
        at: 0,
        accepted: 0,
    };
    match all_events(input, &mut following, window) {
        Ok(()) => Ok(()),
        Err(refused) => Err(Refused {
            code: refused.number(),
            events: following.accepted,
        }),
    }
}

// Closes a trail that is open: no close is refused then, so its answer is not looked at. The `TrailMut` is made here, so that the
// caller learns what its bytes hold then.
fn close_trail(rec: &mut [u8], net: &LoadedNet)
    requires { Ready net.now.words.now rec.old }
    ensures { rec.new ≡ ask_bytes rec.old ask_close }
{
    let mut trail = TrailMut { rec, net: *net };
    let _ = replay_close::close(&mut trail);
}

// Follows a trail that is started to its end: it is closed and is to be reported, in as many bytes as are given, or the first
// refusal is. In the window are the bytes that were read first from the events body on. It takes the bytes and no `Following`,
// whose fact the close ends.
pub fn follow<R: Read>(
    input: &mut R,
    rec: &mut [u8],
    register: &Register,
    body: usize,
    window: &mut InputWindow,
) -> Result<usize, Refused>
    requires follows { Follows register.now.net.words.now rec.old register.now.bytes.now 0 }
    requires in_bounds { 40 ≤ window_room window.old }
    ensures ends { OfSomeFile (net_in register.now.net.words.now) (kinds_in (net_in register.now.net.words.now) register.now.bytes.now) body rec.old (window_bytes window.old) (window_room window.old) (λ (d : Followed). (result ≡ ending_after d) × (rec.new ≡ closed_after d)) }
    ensures ready { Ready register.now.net.words.now rec.new }
{
    put_events(input, rec, register, body, window)?;
    close_trail(rec, &register.net);
    Ok(rec.len())
}
