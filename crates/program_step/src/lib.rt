// One event of a trail, read at the front of a window of its file and carried out.
// Above `trace_reader` and `replay_event`; `program_events` carries out all events by it.

#![tactic(auto)]

ghost use Rattle.std.specs.Prelude.{◌≡◌};
ghost use Rattle.words.specs.Words.{words_of};
ghost use Rattle.replay.specs.Plain.{ask_event};
ghost use Rattle.replay.specs.Calls.{ask_code, ask_bytes};
ghost use Rattle.replay.specs.Ready.{Ready};
ghost use Rattle.program_step.specs.Follows.{Follows, Follows-prop};

use net_lookup::LoadedNet;
use replay_moves::TrailMut;
use replay_objects::objects::Register;
use trace_reader::{Cursor, TraceError};

// An open trail that a trail file's events are put to: its record's bytes, the file's register with the net, and how far the events
// body is read. The bytes in the place of a `TrailMut`: tried, and no proof is made where a struct with a `&mut` lies in a field of
// another that has a fact.
#[derive(Drop)]
pub struct Following<'r, 'k, 'n> {
    pub rec: &'r mut [u8],
    pub register: &'k Register<'n>,
    // The length of the events body.
    pub body: usize,
    // The position in it, and how many of its events are accepted.
    pub at: usize,
    pub accepted: u32,
    pub ghost follows: { Follows register.now.net.words.now rec.now register.now.bytes.now accepted } by { Follows-prop register.now.net.words.now rec.now register.now.bytes.now accepted },
}

// Carries out an event to which none of 21 to 27 applies. The `TrailMut` is made here, so that the caller learns what its bytes hold
// then.
fn take(rec: &mut [u8], net: &LoadedNet, act: u32, objs: &[u8])
    requires ready { Ready net.now.words.now rec.old }
    requires accepted { ask_code rec.old (ask_event act (words_of objs.now)) ≡ 0 }
    ensures { rec.new ≡ ask_bytes rec.old (ask_event act (words_of objs.now)) }
{
    let mut trail = TrailMut { rec, net: *net };
    replay_event::apply(&mut trail, act, objs);
}

impl Following<'_, '_, '_> {
    ghost use Rattle.program_step.specs.OneStep.{step_trail, step_outcome};
    ghost use Rattle.program_step.specs.Outcomes.{SameTrail, followed_kinds, followed_net, outcome_of, spot_at};

    // Reads one event at the front of the window and carries it out. Gives how many bytes it has; none where the body ends.
    pub fn step(&mut self, window: &[u8]) -> Result<Option<usize>, TraceError>
        ensures trail { self.new.rec.now ≡ step_trail (followed_net self.old) (followed_kinds self.old) window.now self.old.body self.old.rec.now (spot_at 0 self.old) }
        ensures outcome { outcome_of 0 self.new result ≡ step_outcome (followed_net self.old) (followed_kinds self.old) window.now self.old.body (spot_at 0 self.old) }
        ensures same { SameTrail self.old self.new }
    {
        let register = self.register;
        let cursor = Cursor { at: self.at };
        match cursor.read_window(window, self.body, self.accepted, register)? {
            None => Ok(None),
            Some(read) => {
                let size = read.next.at - self.at;
                take(
                    &mut *self.rec,
                    &register.net,
                    read.event.activity,
                    read.event.objects,
                );
                self.at = read.next.at;
                self.accepted += 1;
                Ok(Some(size))
            }
        }
    }
}
