// The functions of the marking client as C calls them: each exports the function of `client` that has its name and its promises.
// Above `client`; an archive exports its top crate's functions alone, so there is nothing else here.

#![tactic(auto)]

ghost use Rattle.std.specs.Prelude.{◌≡◌, [], length};
ghost use Rattle.replay.specs.Plain.{ask_event};
ghost use Rattle.replay_close.specs.Answers.{ask_close};
ghost use Rattle.replay_counts.specs.Reads.{place_tests, act_tests, pair_tests};
ghost use Rattle.checkpoint.specs.Take.{take_bytes};
ghost use Rattle.report.specs.TrailLines.{trail_line_at, place_line_at, act_line_at, jump_line_at};
ghost use Rattle.client_check.specs.Objects.{objects_in};
ghost use Rattle.client_calls.specs.Client.{load_answer, start_answer, start_leaves, ask_answer, ask_leaves, restore_answer, save_answer, save_leaves};
ghost use Rattle.client_calls.specs.Writing.{write_answer, write_leaves};
ghost use Rattle.client_counts.specs.Numbers.{trail_numbers, place_numbers, act_numbers, pair_numbers};

// Loads a table, to see whether it is taken: 1 to 9.
#[unsafe(no_mangle)]
pub extern "C" fn conform_load(table: &[u8]) -> u64
    ensures { result ≡ load_answer table.now }
{
    client::conform_load(table)
}

// Starts a trail: 1 to 9 of the table, 11 and 12 of the objects' kinds, and 61; or its record in front of the lent bytes.
#[unsafe(no_mangle)]
pub extern "C" fn conform_start(table: &[u8], objects: &[u8], trail: &mut [u8]) -> u64
    ensures answer { result ≡ start_answer table.now objects.now (length trail.old) }
    ensures trail_after { trail.new ≡ start_leaves table.now objects.now trail.old }
{
    client::conform_start(table, objects, trail)
}

// An event on a trail: 21 to 27, or carried out in its bytes.
#[unsafe(no_mangle)]
pub extern "C" fn conform_event(trail: &mut [u8], activity: u32, objects: &[u8]) -> u64
    ensures answer { result ≡ ask_answer trail.old (ask_event activity (objects_in objects.now)) }
    ensures trail_after { trail.new ≡ ask_leaves trail.old (ask_event activity (objects_in objects.now)) }
{
    client::conform_event(trail, activity, objects)
}

// Closes a trail: 31, or carried out in its bytes.
#[unsafe(no_mangle)]
pub extern "C" fn conform_close(trail: &mut [u8]) -> u64
    ensures answer { result ≡ ask_answer trail.old ask_close }
    ensures trail_after { trail.new ≡ ask_leaves trail.old ask_close }
{
    client::conform_close(trail)
}

// Takes up a record: 41 to 47 and 61, or its bytes in front of the trail's.
#[unsafe(no_mangle)]
pub extern "C" fn conform_restore(saved: &[u8], trail: &mut [u8]) -> u64
    ensures answer { result ≡ restore_answer saved.now (length trail.old) }
    ensures trail_after { trail.new ≡ take_bytes saved.now trail.old }
{
    client::conform_restore(saved, trail)
}

// Puts down the record of a trail: 61, or in front of the lent bytes.
#[unsafe(no_mangle)]
pub extern "C" fn conform_save(trail: &[u8], lent: &mut [u8]) -> u64
    ensures answer { result ≡ save_answer trail.now (length lent.old) }
    ensures lent_after { lent.new ≡ save_leaves trail.now lent.old }
{
    client::conform_save(trail, lent)
}

// The line of the whole trail: 61, or the line in front of the lent bytes.
#[unsafe(no_mangle)]
pub extern "C" fn conform_trail_line(trail: &[u8], line: &mut [u8]) -> u64
    ensures answer { result ≡ write_answer trail.now [] (trail_line_at trail.now) line.old }
    ensures line_after { line.new ≡ write_leaves trail.now [] (trail_line_at trail.now) line.old }
{
    client::conform_trail_line(trail, line)
}

// The line of a place: 51, 61, or the line.
#[unsafe(no_mangle)]
pub extern "C" fn conform_place_line(trail: &[u8], place: u32, line: &mut [u8]) -> u64
    ensures answer { result ≡ write_answer trail.now (place_tests trail.now place) (place_line_at trail.now place) line.old }
    ensures line_after { line.new ≡ write_leaves trail.now (place_tests trail.now place) (place_line_at trail.now place) line.old }
{
    client::conform_place_line(trail, place, line)
}

// The line of an activity: 52, 61, or the line.
#[unsafe(no_mangle)]
pub extern "C" fn conform_act_line(trail: &[u8], activity: u32, line: &mut [u8]) -> u64
    ensures answer { result ≡ write_answer trail.now (act_tests trail.now activity) (act_line_at trail.now activity) line.old }
    ensures line_after { line.new ≡ write_leaves trail.now (act_tests trail.now activity) (act_line_at trail.now activity) line.old }
{
    client::conform_act_line(trail, activity, line)
}

// The line of the jumps from one place to another: 51, 61, or the line, which is nothing where there are none.
#[unsafe(no_mangle)]
pub extern "C" fn conform_jump_line(trail: &[u8], from: u32, to: u32, line: &mut [u8]) -> u64
    ensures answer { result ≡ write_answer trail.now (pair_tests trail.now from to) (jump_line_at trail.now from to) line.old }
    ensures line_after { line.new ≡ write_leaves trail.now (pair_tests trail.now from to) (jump_line_at trail.now from to) line.old }
{
    client::conform_jump_line(trail, from, to, line)
}

// The numbers of the trail's line: objects, events, jumps, transfers.
#[unsafe(no_mangle)]
pub extern "C" fn conform_trail_counts(trail: &[u8], counts: &mut [u8]) -> u64
    ensures answer { result ≡ write_answer trail.now [] (trail_numbers trail.now) counts.old }
    ensures counts_after { counts.new ≡ write_leaves trail.now [] (trail_numbers trail.now) counts.old }
{
    client::conform_trail_counts(trail, counts)
}

// The numbers of a place's line: its number, TAKEN, IN, OUT.
#[unsafe(no_mangle)]
pub extern "C" fn conform_place_counts(trail: &[u8], place: u32, counts: &mut [u8]) -> u64
    ensures answer { result ≡ write_answer trail.now (place_tests trail.now place) (place_numbers trail.now place) counts.old }
    ensures counts_after { counts.new ≡ write_leaves trail.now (place_tests trail.now place) (place_numbers trail.now place) counts.old }
{
    client::conform_place_counts(trail, place, counts)
}

// The numbers of an activity's line: its number, FIRED, MOVED, JUMPS.
#[unsafe(no_mangle)]
pub extern "C" fn conform_act_counts(trail: &[u8], activity: u32, counts: &mut [u8]) -> u64
    ensures answer { result ≡ write_answer trail.now (act_tests trail.now activity) (act_numbers trail.now activity) counts.old }
    ensures counts_after { counts.new ≡ write_leaves trail.now (act_tests trail.now activity) (act_numbers trail.now activity) counts.old }
{
    client::conform_act_counts(trail, activity, counts)
}

// The numbers of a pair's line: the two places and the jump count, also where that is 0.
#[unsafe(no_mangle)]
pub extern "C" fn conform_jump_count(trail: &[u8], from: u32, to: u32, counts: &mut [u8]) -> u64
    ensures answer { result ≡ write_answer trail.now (pair_tests trail.now from to) (pair_numbers trail.now from to) counts.old }
    ensures counts_after { counts.new ≡ write_leaves trail.now (pair_tests trail.now from to) (pair_numbers trail.now from to) counts.old }
{
    client::conform_jump_count(trail, from, to, counts)
}
