// The whole numbers of the lines, as four-byte numbers in lent bytes.
// Above `report`, which reads them, and beside `client_answers`.

#![tactic(auto)]

ghost use Rattle.std.specs.Prelude.{[], ◌≤◌, length};
ghost use Rattle.words.specs.Words.{bytes_of};
ghost use Rattle.replay_counts.specs.Reads.{place_tests, act_tests, pair_tests};
ghost use Rattle.lines.specs.Answer.{Writes};
ghost use Rattle.client_counts.specs.Numbers.{trail_numbers, place_numbers, act_numbers, pair_numbers};

use lines::LineError;
use replay_stored::Trail;
use report::trail::{act_row, pair_row, place_row, trail_row};

// The numbers of a row, whole, or not at all where the part is shorter. 28 numbers are as many bytes as `Writes` allows; a row has four
// at most.
fn write_row(row: &[u32], out: &mut [u8]) -> Result<usize, LineError>
    requires { length row.now ≤ 28 }
    ensures { Writes [] (bytes_of row.now) out.old result out.new }
{
    let n = 4 * row.len();
    if out.len() < n {
        return Err(LineError::NoRoom);
    }
    for (i, x) in row.iter().enumerate() {
        words::put_word(out, i, *x);
    }
    Ok(n)
}

// One function for each row, though they are alike: each row has its own tests and arguments.

// Objects, events, jumps, transfers.
pub fn trail_numbers(trail: &Trail, out: &mut [u8]) -> Result<usize, LineError>
    ensures { Writes [] (trail_numbers trail.now.rec.now) out.old result out.new }
{
    let [objects, events, jumps, transfers] = trail_row(trail);
    write_row(&[objects, events, jumps, transfers], out)
}

// The number of place q, TAKEN, IN, OUT.
pub fn place_numbers(trail: &Trail, q: u32, out: &mut [u8]) -> Result<usize, LineError>
    ensures { Writes (place_tests trail.now.rec.now q) (place_numbers trail.now.rec.now q) out.old result out.new }
{
    let [place, consumed, jumps_in, jumps_out] = place_row(trail, q)?;
    write_row(&[place, consumed, jumps_in, jumps_out], out)
}

// The number of activity a, FIRED, MOVED, JUMPS.
pub fn act_numbers(trail: &Trail, a: u32, out: &mut [u8]) -> Result<usize, LineError>
    ensures { Writes (act_tests trail.now.rec.now a) (act_numbers trail.now.rec.now a) out.old result out.new }
{
    let [act, fired, moved, jumps] = act_row(trail, a)?;
    write_row(&[act, fired, moved, jumps], out)
}

// The two places of a pair and its jump count.
pub fn pair_numbers(trail: &Trail, from: u32, to: u32, out: &mut [u8]) -> Result<usize, LineError>
    ensures { Writes (pair_tests trail.now.rec.now from to) (pair_numbers trail.now.rec.now from to) out.old result out.new }
{
    let [from, to, n] = pair_row(trail, from, to)?;
    write_row(&[from, to, n], out)
}
