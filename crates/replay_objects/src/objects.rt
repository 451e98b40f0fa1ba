// The tests 25 to 27 of an event's objects, which an event on a trail and an event in a trail file share.

ghost use Rattle.std.specs.Prelude.{◌≡◌, ◌≤◌, ◌<◌, length, OnOk};
ghost use Rattle.std.proofs.Common.{rules};
ghost use Rattle.std.proofs.lemmas.List.Edits.{sets};
ghost use Rattle.words.specs.Refusals.{first};
ghost use Rattle.words.specs.Words.{words_of};
ghost use Rattle.net.specs.Held.{net_in};
ghost use Rattle.replay.specs.Plain.{object_kinds, known_tests, object_tests};
ghost use Rattle.replay.specs.Ready.{KnownKinds};
ghost use Rattle.replay.specs.Register.{kinds_in};
ghost use Rattle.replay_objects.specs.ObjectAnswers.{object_answer_code, object_error_code};

use crate::kinds::two_of_kind;
use net_lookup::LoadedNet;
use replay_rows::{kind, objects};
use words::answers::Refusal;
use words::{get_word, wide};

// What is wrong with an event's objects. `object_error_code` gives document 01's number.
#[derive(Clone, Copy)]
pub enum ObjectError {
    // 25: unknown object.
    Object,
    // 26: an object of a kind the activity does not take.
    Kind,
    // 27: two of the objects are of one kind.
    TwoOfKind,
}

impl Refusal for ObjectError {
    ghost number_of = { object_error_code };

    ghost not_zero = { Prim.search rules };

    fn number(self) -> u32 {
        match self {
            ObjectError::Object => 25,
            ObjectError::Kind => 26,
            ObjectError::TwoOfKind => 27,
        }
    }
}

// A register's bytes, and the net that knows the kinds of all its objects.
#[derive(Clone, Copy)]
pub struct Register<'a> {
    pub bytes: &'a [u8],
    pub net: LoadedNet<'a>,
    pub ghost known: { KnownKinds (net_in net.words.now) (kinds_in (net_in net.words.now) bytes.now) },
}

// 25 or 26, by the objects, four bytes each: 25 of any of them before 26 of any. Where neither applies, their kinds are put into
// `kinds`.
#[tactic(auto, using(crate::proofs::ObjectLaws::none_left))]
fn take_kinds(
    objs: &[u8],
    act: usize,
    register: &Register,
    kinds: &mut [u32; 8],
) -> Result<(), ObjectError>
    requires bounded { (length (words_of objs.now) ≤ 8) × (act < (net_in register.now.net.words.now).acts) }
    ensures code { object_answer_code result ≡ first (known_tests (net_in register.now.net.words.now) (kinds_in (net_in register.now.net.words.now) register.now.bytes.now) act (words_of objs.now)) }
    ensures kinds { OnOk result (kinds.new ≡ sets kinds.old 0 (object_kinds (kinds_in (net_in register.now.net.words.now) register.now.bytes.now) (words_of objs.now))) }
{
    let net = &register.net;
    let size = objects(register.bytes, net.words);
    let mut foreign = 0u32;
    for i in 0..objs.len() / 4 {
        let o = wide(get_word(objs, i));
        if size <= o {
            return Err(ObjectError::Object);
        }
        let k = kind(register.bytes, net.words, o);
        kinds[i] = k;
        // Counted: a flag that is set with `|=` takes an instruction more for each object.
        foreign += u32::from(!net.takes_kind(act, wide(k)));
    }
    if foreign != 0 {
        return Err(ObjectError::Kind);
    }
    Ok(())
}

// 25 to 27, by an event's objects, four bytes each, and the register.
pub fn refuse_objects(objs: &[u8], act: usize, register: &Register) -> Result<(), ObjectError>
    requires bounded { (length (words_of objs.now) ≤ 8) × (act < (net_in register.now.net.words.now).acts) }
    ensures code { object_answer_code result ≡ first (object_tests (net_in register.now.net.words.now) (kinds_in (net_in register.now.net.words.now) register.now.bytes.now) act (words_of objs.now)) }
{
    let mut kinds = [0u32; 8];
    take_kinds(objs, act, register, &mut kinds)?;
    if two_of_kind(&kinds[..objs.len() / 4]) {
        return Err(ObjectError::TwoOfKind);
    }
    Ok(())
}
