// An event on a trail in lent bytes: refused with the first number from 21 to 27 that applies, or carried out in place.
// Its objects are bytes too, four a number, as a trail file and the client have them.
// Above `replay_moves`, which moves an object, `replay_objects`, which tests them, and `replay`, whose definitions its contracts
// cite.

#![tactic(auto)]

ghost use Rattle.std.specs.Prelude.{◌≡◌};
ghost use Rattle.std.proofs.Common.{rules};
ghost use Rattle.words.specs.Refusals.{first};
ghost use Rattle.words.specs.Words.{words_of};
ghost use Rattle.net.specs.Held.{net_in};
ghost use Rattle.replay.specs.Plain.{legs, object_tests, event_of, ask_event};
ghost use Rattle.replay.specs.State.{act_jumps, after_legs, after_event, answer_s};
ghost use Rattle.replay.specs.Record.{table_in, record_words};
ghost use Rattle.replay.specs.Calls.{state_at, ask_code, ask_bytes};
ghost use Rattle.replay_objects.specs.ObjectAnswers.{object_answer_code};
ghost use Rattle.replay_event.specs.Answers.{event_answer_code, event_error_code};
ghost use Rattle.replay_event.specs.declared.EventError.TheVariants.{Objects};

use net_lookup::LoadedNet;
use replay_layout::{Layout, read_layout};
use replay_moves::{TrailMut, add, move_object};
use replay_objects::objects::{ObjectError, Register, refuse_objects};
use words::answers::Refusal;

// Why an event is refused. `event_error_code` gives document 01's number.
#[derive(Clone, Copy)]
pub enum EventError {
    // 21: the trail is closed.
    Closed,
    // 22: 1,000,000 events are already accepted.
    Full,
    // 23: unknown activity.
    Activity,
    // 24: the number of objects differs from the activity's arcs.
    Number,
    // 25 to 27, of its objects.
    Objects(ObjectError),
}

impl Refusal for EventError {
    ghost number_of = { event_error_code };

    ghost not_zero = { Prim.search rules };

    fn number(self) -> u32 {
        match self {
            EventError::Closed => 21,
            EventError::Full => 22,
            EventError::Activity => 23,
            EventError::Number => 24,
            EventError::Objects(e) => e.number(),
        }
    }
}

impl From<ObjectError> for EventError {
    ghost from_gives = { λ objects e. e ≡ Objects objects };

    fn from(objects: ObjectError) -> EventError {
        EventError::Objects(objects)
    }
}

// An event that is put to a trail, with the trail's net and the layout of its record.
#[derive(Clone, Copy)]
struct Asked<'t, 'o> {
    net: LoadedNet<'t>,
    lay: Layout,
    act: usize,
    objs: &'o [u8],
}

impl Asked<'_, '_> {
    ghost use Rattle.replay_event.specs.Asked.{Laid, Counted, Moving};

    // 25 to 27: the tests of the objects.
    #[tactic(auto, using(crate::proofs::Asks::register_fits, crate::proofs::Asks::register_known, crate::proofs::Asks::few_objects, crate::proofs::Asks::register_words))]
    fn test_objects(&self, rec: &[u8]) -> Result<(), ObjectError>
        requires { Counted self.now rec.now }
        ensures { object_answer_code result ≡ first (object_tests (net_in self.now.net.words.now) (state_at rec.now).kinds self.now.act (words_of self.now.objs.now)) }
    {
        let from = 4 * self.lay.register;
        let to = 4 * self.lay.positions;
        let register = Register {
            bytes: &rec[from..to],
            net: self.net,
        };
        refuse_objects(self.objs, self.act, &register)
    }

    // 21 to 27: the first that applies.
    #[tactic(auto, using(crate::proofs::Asks::closed_in, crate::proofs::Asks::events_in, crate::proofs::Asks::answer_closed, crate::proofs::Asks::answer_full, crate::proofs::Asks::answer_activity, crate::proofs::Asks::answer_number, crate::proofs::Asks::counted, crate::proofs::Asks::answer_objects))]
    fn refuse(&self, rec: &[u8]) -> Result<(), EventError>
        requires { Laid self.now rec.now }
        ensures { event_answer_code result ≡ ask_code rec.now (ask_event self.now.act (words_of self.now.objs.now)) }
    {
        if words::get_word(rec, self.lay.closed_at()) != 0 {
            return Err(EventError::Closed);
        }
        if 1000000 <= words::get_word(rec, self.lay.events_at()) {
            return Err(EventError::Full);
        }
        if self.net.acts() <= self.act {
            return Err(EventError::Activity);
        }
        if self.objs.len() / 4 != self.net.arcs(self.act) {
            return Err(EventError::Number);
        }
        self.test_objects(rec)?;
        Ok(())
    }

    // Every object jumps where it has to, and is moved; the activity's jumps are added once, behind the last object.
    #[tactic(auto, using(crate::proofs::Steps::own_in, crate::proofs::Steps::step_start, crate::proofs::Steps::step_turn))]
    fn step_objects(&self, rec: &mut [u8])
        requires { Moving self.now rec.old }
        ensures { words_of rec.new ≡ record_words (table_in rec.old) (after_legs (net_in self.now.net.words.now) act_jumps (state_at rec.old) (legs (net_in self.now.net.words.now) (state_at rec.old).kinds (event_of self.now.act (words_of self.now.objs.now)))) }
    {
        let mut jumps = 0u32;
        for i in 0..self.objs.len() / 4 {
            let o = words::wide(words::get_word(self.objs, i));
            let k = words::wide(self.lay.get_kind(rec, self.net.words, o));
            let inp = self.net.input(self.act, k);
            let out = self.net.output(self.act, k) as u32;
            jumps += move_object(rec, self.lay, o, inp, out);
        }
        add(rec, self.lay.jumps_at(self.act), jumps);
    }

    // The event, to which none of 21 to 27 applies, is carried out and counted.
    #[tactic(auto, using(crate::proofs::Taken::can_take, crate::proofs::Taken::counts_few, crate::proofs::Taken::can_events, crate::proofs::Taken::can_fired, crate::proofs::Taken::event_counted, crate::proofs::Taken::event_bytes))]
    fn take(&self, rec: &mut [u8])
        requires laid { Laid self.now rec.old }
        requires accepted { ask_code rec.old (ask_event self.now.act (words_of self.now.objs.now)) ≡ 0 }
        ensures { rec.new ≡ ask_bytes rec.old (ask_event self.now.act (words_of self.now.objs.now)) }
    {
        self.step_objects(rec);
        add(rec, self.lay.events_at(), 1);
        add(rec, self.lay.fired_at(self.act), 1);
    }
}

// Carries out an event to which none of 21 to 27 applies, as the caller has found; it is not tested again.
#[tactic(auto, using(crate::proofs::Answered::has_head, crate::proofs::Answered::still_ready))]
pub fn apply(trail: &mut TrailMut, act: u32, objs: &[u8])
    requires accepted { ask_code trail.old.rec.now (ask_event act (words_of objs.now)) ≡ 0 }
    ensures trail_after { trail.new.rec.now ≡ ask_bytes trail.old.rec.now (ask_event act (words_of objs.now)) }
    ensures same_net { trail.new.net ≡ trail.old.net }
    ensures same_bytes { trail.new.rec.ghost_name ≡ trail.old.rec.ghost_name }
{
    let net = trail.net;
    let rec = &mut *trail.rec;
    let lay = read_layout(rec, &net);
    let act = words::wide(act);
    Asked {
        net,
        lay,
        act,
        objs,
    }
    .take(rec);
}

// Puts an event to a trail: it is refused and nothing changes, or it is carried out in the record's bytes.
#[tactic(auto, using(crate::proofs::Answered::has_head, crate::proofs::Answered::still_ready))]
pub fn event(trail: &mut TrailMut, act: u32, objs: &[u8]) -> Result<(), EventError>
    ensures answer { event_answer_code result ≡ ask_code trail.old.rec.now (ask_event act (words_of objs.now)) }
    ensures trail_after { trail.new.rec.now ≡ ask_bytes trail.old.rec.now (ask_event act (words_of objs.now)) }
    ensures same_net { trail.new.net ≡ trail.old.net }
    ensures same_bytes { trail.new.rec.ghost_name ≡ trail.old.rec.ghost_name }
{
    let net = trail.net;
    let rec = &mut *trail.rec;
    let lay = read_layout(rec, &net);
    let act = words::wide(act);
    let asked = Asked {
        net,
        lay,
        act,
        objs,
    };
    asked.refuse(rec)?;
    asked.take(rec);
    Ok(())
}
