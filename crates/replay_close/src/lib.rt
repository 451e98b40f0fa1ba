// The close of a trail in lent bytes: refused with 31, or carried out in place.
// Above `replay_moves`, which moves an object, and `replay`, whose definitions its contracts cite. The program and the C calls
// close by it.

#![tactic(auto)]

ghost use Rattle.std.specs.Prelude.{◌≡◌};
ghost use Rattle.std.proofs.Common.{rules};
ghost use Rattle.words.specs.Words.{words_of};
ghost use Rattle.net.specs.Held.{net_in};
ghost use Rattle.replay.specs.Plain.{endings};
ghost use Rattle.replay.specs.State.{close_jumps, after_legs};
ghost use Rattle.replay.specs.Record.{table_in, record_words};
ghost use Rattle.replay.specs.Calls.{state_at, ask_code, ask_bytes};
ghost use Rattle.replay_layout.specs.Offsets.{layout_of};
ghost use Rattle.replay.specs.Ready.{Ready};
ghost use Rattle.replay_close.specs.Answers.{close_answer_code, close_error_code, ask_close};

use net_lookup::LoadedNet;
use replay_layout::{Layout, read_layout};
use replay_moves::{TrailMut, add, move_object};
use words::answers::Refusal;

// Why a close is refused. `close_error_code` gives document 01's number.
#[derive(Clone, Copy)]
pub enum CloseError {
    // 31
    AlreadyClosed,
}

impl Refusal for CloseError {
    ghost number_of = { close_error_code };

    ghost not_zero = { Prim.search rules };

    fn number(self) -> u32 {
        match self {
            CloseError::AlreadyClosed => 31,
        }
    }
}

// Every object that the close takes (`closers`: all of them) jumps to its sink where it is not there, and is taken from it; the
// jumps are added once, behind the last object.
fn sink_objects(rec: &mut [u8], net: &LoadedNet, lay: Layout)
    requires ready { Ready net.now.words.now rec.old }
    requires laid_out { lay ≡ layout_of (net_in net.now.words.now) rec.old }
    ensures { words_of rec.new ≡ record_words (table_in rec.old) (after_legs (net_in net.now.words.now) close_jumps (state_at rec.old) (endings (net_in net.now.words.now) (state_at rec.old).kinds)) }
{
    let mut jumps = 0u32;
    for o in 0..lay.objects {
        let k = words::wide(lay.get_kind(rec, net.words, o));
        let sink = net.sink(k);
        jumps += move_object(rec, lay, o, sink, sink as u32);
    }
    add(rec, lay.closing_at(), jumps);
}

// An open trail is closed in its record's bytes. No `TrailMut`: the trail is whole again only once the last of them is written.
fn take_close(rec: &mut [u8], net: &LoadedNet, lay: Layout)
    requires ready { Ready net.now.words.now rec.old }
    requires laid_out { lay ≡ layout_of (net_in net.now.words.now) rec.old }
    requires is_open { (state_at rec.old).closed ≡ 0 }
    ensures { rec.new ≡ ask_bytes rec.old ask_close }
{
    sink_objects(rec, net, lay);
    words::put_word(rec, lay.closed_at(), 1);
}

// Closes a trail: it is closed already and nothing changes, or it is closed in the record's bytes.
pub fn close(trail: &mut TrailMut) -> Result<(), CloseError>
    ensures answer { close_answer_code result ≡ ask_code trail.old.rec.now ask_close }
    ensures trail_after { trail.new.rec.now ≡ ask_bytes trail.old.rec.now ask_close }
    ensures same_net { trail.new.net ≡ trail.old.net }
    ensures same_bytes { trail.new.rec.ghost_name ≡ trail.old.rec.ghost_name }
{
    let net = trail.net;
    let rec = &mut *trail.rec;
    let lay = read_layout(rec, &net);
    if words::get_word(rec, lay.closed_at()) != 0 {
        return Err(CloseError::AlreadyClosed);
    }
    take_close(rec, &net, lay);
    Ok(())
}
