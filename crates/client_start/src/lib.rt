// Calls that check no trail: loading a table, starting a trail, taking up a record.
// Above the loader, `replay_start` and the checkpoints; `client` exports a function for each.

#![tactic(auto)]

ghost use Rattle.std.specs.Prelude.{◌≡◌, ◌≤◌, length};
ghost use Rattle.std.specs.Result.{result_unwrap_or};
ghost use Rattle.words.specs.Refusals.{answer_code};
ghost use Rattle.replay.specs.Limits.{max_record};
ghost use Rattle.replay_start.specs.StartAnswers.{start_error_code};
ghost use Rattle.client_answers.specs.Answers.{packed};
ghost use Rattle.checkpoint.specs.Take.{take_bytes};
ghost use Rattle.client_calls.specs.Client.{load_answer, start_answer, start_leaves, restore_answer};

use client_answers::{answer, pack};
use net::NET_WORDS;
use net_lookup::tabled::TabledNet;
use replay_layout::fresh::record_bytes;
use replay_objects::register::RegisterError;
use replay_rows::whole;
use replay_start::{StartBodies, StartError};
use words::answers::{Refusal, code};

// Whether a table is taken: 1 to 9.
pub fn load(table: &[u8]) -> u64
    ensures { result ≡ load_answer table.now }
{
    let mut t = [0u32; NET_WORDS];
    pack(code(net_loader::load_fresh(table, &mut t)), 0)
}

// Starting with a table that is loaded: how many bytes the record takes.
fn begin<'a>(
    tabled: &TabledNet<'a>,
    register: &'a [u8],
    trail: &mut [u8],
) -> Result<usize, StartError>
    ensures few { result_unwrap_or result 0 ≤ max_record }
    ensures answer { packed (answer_code start_error_code result) (result_unwrap_or result 0) ≡ start_answer tabled.now.table.now register.now (length trail.old) }
    ensures trail_after { trail.new ≡ start_leaves tabled.now.table.now register.now trail.old }
{
    if !whole(register, tabled.net.words) {
        return Err(StartError::from(RegisterError::Number));
    }
    let bodies = StartBodies {
        tabled: *tabled,
        register,
    };
    replay_start::start(&bodies, trail)?;
    let size = record_bytes(&tabled.net, tabled.table.len(), register);
    Ok(size)
}

// Starting: 1 to 9 of the table, 11 and 12 of the objects' kinds, and 61; or the trail's record in front of the lent bytes.
pub fn start(table: &[u8], objects: &[u8], trail: &mut [u8]) -> u64
    ensures answer { result ≡ start_answer table.now objects.now (length trail.old) }
    ensures trail_after { trail.new ≡ start_leaves table.now objects.now trail.old }
{
    let mut t = [0u32; NET_WORDS];
    match net_loader::load_fresh(table, &mut t) {
        Ok(()) => answer(begin(&TabledNet::loaded(&t, table), objects, trail)),
        Err(refused) => pack(refused.number(), 0),
    }
}

// Taking up a record: 41 to 47 and 61, or its bytes in front of the trail's.
#[tactic(auto, using(crate::proofs::Restores::takes, checkpoint::proofs::Numbers::not_restored))]
pub fn restore(saved: &[u8], trail: &mut [u8]) -> u64
    ensures answer { result ≡ restore_answer saved.now (length trail.old) }
    ensures trail_after { trail.new ≡ take_bytes saved.now trail.old }
{
    match checkpoint_restore::restore(saved, trail) {
        Ok(()) => pack(0, saved.len() as u32),
        Err(refused) => pack(refused.number(), refused.second()),
    }
}
