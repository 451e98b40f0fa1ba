// The cursor: it reads the events of a trail file one by one.
// Above `trace_header`, which says where the events stand, `replay_objects`, which refuses an event's objects, `net_lookup`,
// `replay` and `net`; `program_step` uses it.

#![tactic(auto)]

ghost use Rattle.std.specs.Prelude.{◌≡◌, ◌+◌, ◌*◌, ◌≤◌, length, take, drop};
ghost use Rattle.std.proofs.Common.{rules};
ghost use Rattle.words.specs.Refusals.{first};
ghost use Rattle.net.specs.Held.{net_in};
ghost use Rattle.replay.specs.Register.{kinds_in};
ghost use Rattle.trace_reader.specs.Answers.{trace_error_code, trace_answer_code, read_answer_code, numbered};
ghost use Rattle.trace_reader.specs.Parts.{Ready, count_tests, front_tests, objects_found, body_read};
ghost use Rattle.trace_reader.specs.Trace.{end_found, read_code, read_from, read_at_code, read_at};
ghost use Rattle.trace_reader.specs.declared.TraceError.TheVariants.{Object};

pub use crate::event::Event;
use net_lookup::LoadedNet;
use replay_objects::objects::{ObjectError, Register, refuse_objects};
use trace_header::read_contents;
use words::answers::Refusal;
use words::{wide, word_at};

mod event;

// A position in the events body, in bytes from its start. It is copied into a read: where no event is read, who reads has it as it was.
#[derive(Clone, Copy)]
pub struct Cursor {
    pub at: usize,
}

// An event, and the position behind it.
#[derive(Drop)]
pub struct Read<'w> {
    pub event: Event<'w>,
    pub next: Cursor,
}

// Why no event is read. `trace_error_code` gives document 01's number.
#[derive(Clone, Copy)]
pub enum TraceError {
    // 71: the file's contents are broken.
    Contents,
    // 73: the events body is broken.
    Events,
    // 22: 1,000,000 events are already accepted.
    Full,
    // 23: unknown activity.
    Activity,
    // 24: the number of objects differs from the activity's arcs.
    Number,
    // 25 to 27, of its objects.
    Object(ObjectError),
}

impl Refusal for TraceError {
    ghost number_of = { trace_error_code };

    ghost not_zero = { Prim.search rules };

    fn number(self) -> u32 {
        match self {
            TraceError::Contents => 71,
            TraceError::Events => 73,
            TraceError::Full => 22,
            TraceError::Activity => 23,
            TraceError::Number => 24,
            TraceError::Object(e) => e.number(),
        }
    }
}

impl From<ObjectError> for TraceError {
    ghost from_gives = { λ o e. e ≡ Object o };

    fn from(e: ObjectError) -> TraceError {
        TraceError::Object(e)
    }
}

// At the body's end: 73 where the file has bytes behind it.
fn end_found(window: &[u8]) -> Result<Option<Read<'_>>, TraceError>
    ensures { numbered result ≡ end_found window.now 0 }
{
    if window.is_empty() {
        return Ok(None);
    }
    Err(TraceError::Events)
}

// 23, 24 or 73: the activity, the number of objects, the objects' bytes. Window, body and position are parameters here and in
// `refuse_front`: a struct would be made for these two calls alone, and their clauses would name each of its fields.
fn refuse_counts(window: &[u8], body: usize, at: usize, net: &LoadedNet) -> Result<(), TraceError>
    requires in_bounds { (8 ≤ length window.now) × (at + 8 ≤ body) }
    ensures { trace_answer_code result ≡ first (count_tests (net_in net.now.words.now) window.now body at) }
{
    let act = wide(word_at(window, 0));
    if net.acts() <= act {
        return Err(TraceError::Activity);
    }
    let n = wide(word_at(window, 4));
    if n != net.arcs(act) {
        return Err(TraceError::Number);
    }
    if body - at < 8 + 4 * n {
        return Err(TraceError::Events);
    }
    if window.len() < 8 + 4 * n {
        return Err(TraceError::Events);
    }
    Ok(())
}

// 73, 22, 23 or 24: all tests before the objects.
fn refuse_front(
    window: &[u8],
    body: usize,
    at: usize,
    accepted: u32,
    net: &LoadedNet,
) -> Result<(), TraceError>
    ensures { trace_answer_code result ≡ first (front_tests (net_in net.now.words.now) accepted window.now body at) }
{
    if body < at {
        return Err(TraceError::Events);
    }
    if body - at < 8 {
        return Err(TraceError::Events);
    }
    if window.len() < 8 {
        return Err(TraceError::Events);
    }
    if 1000000 <= accepted {
        return Err(TraceError::Full);
    }
    refuse_counts(window, body, at, net)
}

// The event at the front of the window, or 25, 26 or 27.
#[tactic(auto, using(crate::proofs::ReadLaws::objects_few, crate::proofs::ReadLaws::event_refused, crate::proofs::ReadLaws::event_taken))]
fn read_event<'w>(
    window: &'w [u8],
    at: usize,
    register: &Register,
) -> Result<Option<Read<'w>>, TraceError>
    requires ready { Ready (net_in register.now.net.words.now) window.now at }
    ensures { numbered result ≡ objects_found (net_in register.now.net.words.now) (kinds_in (net_in register.now.net.words.now) register.now.bytes.now) window.now at }
{
    let activity = word_at(window, 0);
    let end = 8 + 4 * wide(word_at(window, 4));
    let objects = &window[8..end];
    refuse_objects(objects, wide(activity), register)?;
    Ok(Some(Read {
        event: Event { activity, objects },
        next: Cursor { at: at + end },
    }))
}

// The 40 bytes of the file from byte `start` on, or all there are.
#[tactic(auto, using(crate::proofs::WindowLaws::window_is))]
fn window_at(file: &[u8], start: usize) -> &[u8]
    ensures { result.now ≡ take 40 (drop start file.now) }
{
    let rest = &file[start.min(file.len())..];
    &rest[..rest.len().min(40)]
}

impl Cursor {
    // Reads through a window: the file's bytes from the position on, all of them or at least 40. `body` is the length of the
    // events body, `accepted` the number of events accepted before. None: the body ends here.
    #[tactic(auto, using(crate::proofs::ReadLaws::window_end, crate::proofs::ReadLaws::window_refused, crate::proofs::ReadLaws::front_ready, crate::proofs::WindowLaws::loaded, crate::proofs::ReadLaws::window_event, crate::proofs::HandedLaws::with_code))]
    pub fn read_window<'w>(
        self,
        window: &'w [u8],
        body: usize,
        accepted: u32,
        register: &Register,
    ) -> Result<Option<Read<'w>>, TraceError>
        ensures answer { numbered result ≡ read_from (net_in register.now.net.words.now) (kinds_in (net_in register.now.net.words.now) register.now.bytes.now) accepted window.now 0 body self.at }
        ensures code { read_answer_code result ≡ read_code (net_in register.now.net.words.now) (kinds_in (net_in register.now.net.words.now) register.now.bytes.now) accepted window.now 0 body self.at }
    {
        let at = self.at;
        if at == body {
            return end_found(window);
        }
        refuse_front(window, body, at, accepted, &register.net)?;
        read_event(window, at, register)
    }

    // Reads in the events body of a file whose register claims `claimed` bytes.
    #[tactic(auto, using(crate::proofs::WindowLaws::body_cut, crate::proofs::WindowLaws::body_past, crate::proofs::WindowLaws::body_window, crate::proofs::WindowLaws::loaded))]
    fn read_body<'w>(
        self,
        file: &'w [u8],
        claimed: usize,
        body: usize,
        accepted: u32,
        register: &Register,
    ) -> Result<Option<Read<'w>>, TraceError>
        requires in_bounds { (16 ≤ length file.now) × (claimed + body ≤ 8589934592) }
        ensures { numbered result ≡ body_read (net_in register.now.net.words.now) (kinds_in (net_in register.now.net.words.now) register.now.bytes.now) accepted file.now claimed body self.at }
    {
        let at = self.at;
        if file.len() - 16 < claimed {
            return Err(TraceError::Contents);
        }
        if body < at {
            return Err(TraceError::Events);
        }
        self.read_window(window_at(file, 16 + claimed + at), body, accepted, register)
    }

    // Reads in a file that is held whole.
    #[tactic(auto, using(crate::proofs::ReadLaws::read_broken, crate::proofs::ReadLaws::broken_code, crate::proofs::ReadLaws::read_whole, crate::proofs::HandedLaws::with_at_code))]
    pub fn read<'w>(
        self,
        file: &'w [u8],
        accepted: u32,
        register: &Register,
    ) -> Result<Option<Read<'w>>, TraceError>
        ensures answer { numbered result ≡ read_at (net_in register.now.net.words.now) (kinds_in (net_in register.now.net.words.now) register.now.bytes.now) accepted file.now self.at }
        ensures code { read_answer_code result ≡ read_at_code (net_in register.now.net.words.now) (kinds_in (net_in register.now.net.words.now) register.now.bytes.now) accepted file.now self.at }
    {
        let bodies = read_contents(file, register.net.words).ok_or(TraceError::Contents)?;
        self.read_body(file, bodies.register, bodies.events, accepted, register)
    }
}
