// The functions of the marking client, for C: numbers and byte slices, the trail held in lent bytes, which are its record.
// Above all other libraries but `client_c`, which exports them: each is one call of `client_start`, `client_trail` or
// `client_write`, also where two are alike, since C has a name for each. Any bytes are taken or refused, 41 to 47 before a call's own
// numbers and 61 last.

#![tactic(auto)]

ghost use Rattle.std.specs.Prelude.{◌≡◌, [], length};
ghost use Rattle.replay.specs.Plain.{ask_event};
ghost use Rattle.replay_close.specs.Answers.{ask_close};
ghost use Rattle.replay_counts.specs.Reads.{place_tests, act_tests, pair_tests};
ghost use Rattle.checkpoint.specs.Take.{take_bytes};
ghost use Rattle.report.specs.TrailLines.{trail_line_at, place_line_at, act_line_at, jump_line_at};
ghost use Rattle.client_check.specs.Objects.{objects_in};
ghost use Rattle.client_calls.specs.Client.{load_answer, start_answer, start_leaves, ask_answer, ask_leaves, restore_answer, save_answer, save_leaves};
ghost use Rattle.client_calls.specs.Writing.{write_answer, write_leaves};
ghost use Rattle.client_counts.specs.Numbers.{trail_numbers, place_numbers, act_numbers, pair_numbers};

use client_counts::{act_numbers, pair_numbers, place_numbers, trail_numbers};
use client_write::write;
use report::trail::{act_line, jump_line, place_line, trail_line};

// Loads a table, to see whether it is taken: 1 to 9.
pub fn conform_load(table: &[u8]) -> u64
    ensures { result ≡ load_answer table.now }
{
    client_start::load(table)
}

// Starts a trail: 1 to 9 of the table, 11 and 12 of the objects' kinds, and 61; or its record in front of the lent bytes.
pub fn conform_start(table: &[u8], objects: &[u8], trail: &mut [u8]) -> u64
    ensures answer { result ≡ start_answer table.now objects.now (length trail.old) }
    ensures trail_after { trail.new ≡ start_leaves table.now objects.now trail.old }
{
    client_start::start(table, objects, trail)
}

// An event on a trail: 21 to 27, or carried out in its bytes.
pub fn conform_event(trail: &mut [u8], activity: u32, objects: &[u8]) -> u64
    ensures answer { result ≡ ask_answer trail.old (ask_event activity (objects_in objects.now)) }
    ensures trail_after { trail.new ≡ ask_leaves trail.old (ask_event activity (objects_in objects.now)) }
{
    client_trail::event(trail, activity, objects)
}

// Closes a trail: 31, or carried out in its bytes.
pub fn conform_close(trail: &mut [u8]) -> u64
    ensures answer { result ≡ ask_answer trail.old ask_close }
    ensures trail_after { trail.new ≡ ask_leaves trail.old ask_close }
{
    client_trail::close(trail)
}

// Takes up a record: 41 to 47 and 61, or its bytes in front of the trail's.
pub fn conform_restore(saved: &[u8], trail: &mut [u8]) -> u64
    ensures answer { result ≡ restore_answer saved.now (length trail.old) }
    ensures trail_after { trail.new ≡ take_bytes saved.now trail.old }
{
    client_start::restore(saved, trail)
}

// Puts down the record of a trail: 61, or in front of the lent bytes.
pub fn conform_save(trail: &[u8], lent: &mut [u8]) -> u64
    ensures answer { result ≡ save_answer trail.now (length lent.old) }
    ensures lent_after { lent.new ≡ save_leaves trail.now lent.old }
{
    client_trail::save(trail, lent)
}

// The line of the whole trail: 61, or the line in front of the lent bytes.
pub fn conform_trail_line(trail: &[u8], line: &mut [u8]) -> u64
    ensures answer { result ≡ write_answer trail.now [] (trail_line_at trail.now) line.old }
    ensures line_after { line.new ≡ write_leaves trail.now [] (trail_line_at trail.now) line.old }
{
    write(trail, line, trail_line)
}

// The line of a place: 51, 61, or the line.
pub fn conform_place_line(trail: &[u8], place: u32, line: &mut [u8]) -> u64
    ensures answer { result ≡ write_answer trail.now (place_tests trail.now place) (place_line_at trail.now place) line.old }
    ensures line_after { line.new ≡ write_leaves trail.now (place_tests trail.now place) (place_line_at trail.now place) line.old }
{
    write(trail, line, |trail, out| place_line(trail, place, out))
}

// The line of an activity: 52, 61, or the line.
pub fn conform_act_line(trail: &[u8], activity: u32, line: &mut [u8]) -> u64
    ensures answer { result ≡ write_answer trail.now (act_tests trail.now activity) (act_line_at trail.now activity) line.old }
    ensures line_after { line.new ≡ write_leaves trail.now (act_tests trail.now activity) (act_line_at trail.now activity) line.old }
{
    write(trail, line, |trail, out| act_line(trail, activity, out))
}

// The line of the jumps from one place to another: 51, 61, or the line, which is nothing where there are none.
pub fn conform_jump_line(trail: &[u8], from: u32, to: u32, line: &mut [u8]) -> u64
    ensures answer { result ≡ write_answer trail.now (pair_tests trail.now from to) (jump_line_at trail.now from to) line.old }
    ensures line_after { line.new ≡ write_leaves trail.now (pair_tests trail.now from to) (jump_line_at trail.now from to) line.old }
{
    write(trail, line, |trail, out| jump_line(trail, from, to, out))
}

// The numbers of the trail's line: objects, events, jumps, transfers.
pub fn conform_trail_counts(trail: &[u8], counts: &mut [u8]) -> u64
    ensures answer { result ≡ write_answer trail.now [] (trail_numbers trail.now) counts.old }
    ensures counts_after { counts.new ≡ write_leaves trail.now [] (trail_numbers trail.now) counts.old }
{
    write(trail, counts, trail_numbers)
}

// The numbers of a place's line: its number, TAKEN, IN, OUT.
pub fn conform_place_counts(trail: &[u8], place: u32, counts: &mut [u8]) -> u64
    ensures answer { result ≡ write_answer trail.now (place_tests trail.now place) (place_numbers trail.now place) counts.old }
    ensures counts_after { counts.new ≡ write_leaves trail.now (place_tests trail.now place) (place_numbers trail.now place) counts.old }
{
    write(trail, counts, |trail, out| place_numbers(trail, place, out))
}

// The numbers of an activity's line: its number, FIRED, MOVED, JUMPS.
pub fn conform_act_counts(trail: &[u8], activity: u32, counts: &mut [u8]) -> u64
    ensures answer { result ≡ write_answer trail.now (act_tests trail.now activity) (act_numbers trail.now activity) counts.old }
    ensures counts_after { counts.new ≡ write_leaves trail.now (act_tests trail.now activity) (act_numbers trail.now activity) counts.old }
{
    write(
        trail,
        counts,
        |trail, out| act_numbers(trail, activity, out),
    )
}

// The numbers of a pair's line: the two places and the jump count, also where that is 0.
pub fn conform_jump_count(trail: &[u8], from: u32, to: u32, counts: &mut [u8]) -> u64
    ensures answer { result ≡ write_answer trail.now (pair_tests trail.now from to) (pair_numbers trail.now from to) counts.old }
    ensures counts_after { counts.new ≡ write_leaves trail.now (pair_tests trail.now from to) (pair_numbers trail.now from to) counts.old }
{
    write(
        trail,
        counts,
        |trail, out| pair_numbers(trail, from, to, out),
    )
}
