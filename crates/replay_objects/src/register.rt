// The refusals 11 and 12 of a register's bytes, which starting, taking up and opening a trail file share.

ghost use Rattle.std.specs.Prelude.{◌≡◌, ℕ, leb};
ghost use Rattle.std.proofs.Common.{rules};
ghost use Rattle.words.specs.Lists.{any};
ghost use Rattle.net.specs.Held.{net_in};
ghost use Rattle.replay.specs.Plain.{register_code};
ghost use Rattle.replay.specs.Register.{kinds_in};
ghost use Rattle.replay_objects.specs.RegisterAnswers.{register_answer_code, register_error_code};

use net_lookup::LoadedNet;
use replay_rows::{kind, objects};
use words::answers::Refusal;
use words::wide;

// What is wrong with a register. `register_error_code` gives document 01's number.
#[derive(Clone, Copy)]
pub enum RegisterError {
    // 11: no object, or more than 1,024.
    Number,
    // 12: an object of unknown kind.
    Kind,
}

impl Refusal for RegisterError {
    ghost number_of = { register_error_code };

    ghost not_zero = { Prim.search rules };

    fn number(self) -> u32 {
        match self {
            RegisterError::Number => 11,
            RegisterError::Kind => 12,
        }
    }
}

// 12: an object of unknown kind. Each check of a record asks it of all objects, and a chain takes more instructions for each of them.
fn unknown_kind(register: &[u8], net: &LoadedNet) -> bool
    ensures { result ≡ any (λ (k : ℕ). leb (net_in net.now.words.now).kinds k) (kinds_in (net_in net.now.words.now) register.now) }
{
    let known = net.kinds();
    for o in 0..objects(register, net.words) {
        if known <= wide(kind(register, net.words, o)) {
            return true;
        }
    }
    false
}

// 11 or 12, by a register's bytes.
pub fn register_refusal(register: &[u8], net: &LoadedNet) -> Result<(), RegisterError>
    ensures { register_answer_code result ≡ register_code (net_in net.now.words.now) (kinds_in (net_in net.now.words.now) register.now) }
{
    let n = objects(register, net.words);
    if n == 0 || 1024 < n {
        return Err(RegisterError::Number);
    }
    if unknown_kind(register, net) {
        return Err(RegisterError::Kind);
    }
    Ok(())
}
