// Opening a trail file: what its contents say, 71, then 11 and 12 of its register.
// Above `replay_objects`, which refuses a register, and `replay_rows`, which knows the register's rows; `trace_reader` reads the
// events behind the register, `program_open` opens the trail that it is given.

#![tactic(auto)]

ghost use Rattle.std.specs.Prelude.{◌≡◌, ◌-◌, ◌≤◌, length, take, drop};
ghost use Rattle.std.proofs.Common.{rules};
ghost use Rattle.words.specs.Refusals.{first};
ghost use Rattle.net.specs.Held.{net_in};
ghost use Rattle.replay.specs.Register.{kinds_in};
ghost use Rattle.trace_header.specs.Answers.{open_error_code, open_answer_code};
ghost use Rattle.trace_header.specs.Opening.{contents_tests, contents_of, contents_code, open_code, trace_code};
ghost use Rattle.trace_header.specs.declared.OpenError.TheVariants.{Register};

use net::NetWords;
use net_lookup::LoadedNet;
use replay_objects::register::{RegisterError, register_refusal};
use replay_rows::{most_bytes, whole_body};
use words::answers::Refusal;
use words::{wide, word_at};

// The lengths of a trail file's two bodies, in bytes.
#[derive(Drop)]
pub struct Bodies {
    pub register: usize,
    pub events: usize,
}

// Why a trail file is not opened. `open_error_code` gives document 01's number.
#[derive(Clone, Copy)]
pub enum OpenError {
    // 71: its contents are broken.
    Contents,
    // 11 or 12, of its register.
    Register(RegisterError),
}

impl Refusal for OpenError {
    ghost number_of = { open_error_code };

    ghost not_zero = { Prim.search rules };

    fn number(self) -> u32 {
        match self {
            OpenError::Contents => 71,
            OpenError::Register(e) => e.number(),
        }
    }
}

impl From<RegisterError> for OpenError {
    ghost from_gives = { λ r e. e ≡ Register r };

    fn from(e: RegisterError) -> OpenError {
        OpenError::Register(e)
    }
}

// The lengths of the two bodies, by the first 16 bytes; none where they are broken, 71. It takes the words, of which
// it asks nothing: a `LoadedNet` would ask more.
#[tactic(auto, using(crate::proofs::OpenLaws::broken_short, crate::proofs::OpenLaws::broken_start, crate::proofs::OpenLaws::broken_gap, crate::proofs::OpenLaws::broken_rows, crate::proofs::OpenLaws::contents_whole, crate::proofs::OpenLaws::broken_code, crate::proofs::OpenLaws::whole_code))]
pub fn read_contents(head: &[u8], t: &NetWords) -> Option<Bodies>
    ensures answer { result ≡ contents_of (net_in t.now) head.now }
    ensures code { contents_code result ≡ first (contents_tests (net_in t.now) head.now) }
{
    if head.len() < 16 {
        return None;
    }
    let register = wide(word_at(head, 4));
    if word_at(head, 0) != 16 {
        return None;
    }
    if wide(word_at(head, 8)) != 16 + register {
        return None;
    }
    if !whole_body(register, t) {
        return None;
    }
    Some(Bodies {
        register,
        events: wide(word_at(head, 12)),
    })
}

// 71, 11 or 12 of a file whose contents are not broken. Its register claims `claimed` bytes; `there` counts the bytes behind
// the contents, all or up to as many as are claimed; `held` is the register's bytes, where they are all there and at most
// as many as the longest register has. A longer one is counted and not held.
#[tactic(auto, using(crate::proofs::OpenLaws::open_cut, crate::proofs::OpenLaws::open_long, crate::proofs::OpenLaws::open_register))]
pub fn opening_refusal(
    claimed: usize,
    there: usize,
    held: &[u8],
    net: &LoadedNet,
) -> Result<(), OpenError>
    ensures { open_answer_code result ≡ open_code (net_in net.now.words.now) claimed there (kinds_in (net_in net.now.words.now) held.now) }
{
    if there < claimed {
        return Err(OpenError::Contents);
    }
    if most_bytes(net.words) < claimed {
        return Err(OpenError::Register(RegisterError::Number));
    }
    register_refusal(held, net)?;
    Ok(())
}

// The same of a file that is held whole.
#[tactic(auto, using(crate::proofs::OpenLaws::open_cut))]
fn held_refusal(file: &[u8], claimed: usize, net: &LoadedNet) -> Result<(), OpenError>
    requires in_bounds { 16 ≤ length file.now }
    ensures { open_answer_code result ≡ open_code (net_in net.now.words.now) claimed (length file.now - 16) (kinds_in (net_in net.now.words.now) (take claimed (drop 16 file.now))) }
{
    let rest = file.len() - 16;
    if rest < claimed {
        return Err(OpenError::Contents);
    }
    let end = 16 + claimed;
    opening_refusal(claimed, rest, &file[16..end], net)
}

// 71, 11 or 12 of a file that is held whole.
#[tactic(auto, using(crate::proofs::OpenLaws::some_there, crate::proofs::OpenLaws::open_broken, crate::proofs::OpenLaws::open_held))]
pub fn trace_refusal(file: &[u8], net: &LoadedNet) -> Result<(), OpenError>
    ensures { open_answer_code result ≡ trace_code (net_in net.now.words.now) file.now }
{
    let bodies = read_contents(file, net.words).ok_or(OpenError::Contents)?;
    held_refusal(file, bodies.register, net)
}
