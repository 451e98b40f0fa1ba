// The lines of a trail, from its bytes: an unknown place (51) or activity (52) is refused before the lent part is looked at.

ghost use Rattle.std.specs.Prelude.{◌≡◌, []};
ghost use Rattle.replay_counts.specs.Reads.{place_tests, act_tests, pair_tests};
ghost use Rattle.lines.specs.Answer.{Writes};
ghost use Rattle.report.specs.TrailLines.{trail_line_at, place_line_at, act_line_at, jump_line_at};
ghost use Rattle.report.specs.TrailRows.{trail_row, place_row, act_row, pair_row, Reads};

use lines::LineError;
use replay_counts::{read_act, read_pair, read_place, read_trail};
use replay_stored::Trail;

// The numbers of the line of the whole trail, of an open one too.
pub fn trail_row(trail: &Trail) -> [u32; 4]
    ensures { result ≡ trail_row trail.now.rec.now }
{
    let k = read_trail(trail);
    [k.objects, k.events, k.jumps, k.transfers]
}

// Those of the line of place q. Places and activities have a function each, here and below, as each names what it reads and refuses.
pub fn place_row(trail: &Trail, q: u32) -> Result<[u32; 4], LineError>
    ensures { Reads (place_tests trail.now.rec.now q) (place_row trail.now.rec.now q) result }
{
    let k = read_place(trail, q).ok_or(LineError::UnknownPlace)?;
    Ok([q, k.consumed, k.jumps_in, k.jumps_out])
}

// Those of the line of activity a.
pub fn act_row(trail: &Trail, a: u32) -> Result<[u32; 4], LineError>
    ensures { Reads (act_tests trail.now.rec.now a) (act_row trail.now.rec.now a) result }
{
    let k = read_act(trail, a).ok_or(LineError::UnknownActivity)?;
    Ok([a, k.fired, k.moved, k.jumps])
}

// Those of the line of the jumps from one place to another.
pub fn pair_row(trail: &Trail, from: u32, to: u32) -> Result<[u32; 3], LineError>
    ensures { Reads (pair_tests trail.now.rec.now from to) (pair_row trail.now.rec.now from to) result }
{
    let n = read_pair(trail, from, to).ok_or(LineError::UnknownPlace)?;
    Ok([from, to, n])
}

// The lines are kept apart, though they are alike: each names the numbers of its row, which `report_lines` takes by name.

// The line of the whole trail.
pub fn trail_line(trail: &Trail, out: &mut [u8]) -> Result<usize, LineError>
    ensures { Writes [] (trail_line_at trail.now.rec.now) out.old result out.new }
{
    let [objects, events, jumps, transfers] = trail_row(trail);
    report_lines::trail_line(objects, events, jumps, transfers, out)
}

// The line of place q.
pub fn place_line(trail: &Trail, q: u32, out: &mut [u8]) -> Result<usize, LineError>
    ensures { Writes (place_tests trail.now.rec.now q) (place_line_at trail.now.rec.now q) out.old result out.new }
{
    let [place, consumed, jumps_in, jumps_out] = place_row(trail, q)?;
    report_lines::place_line(place, consumed, jumps_in, jumps_out, out)
}

// The line of activity a.
#[tactic(auto, unfolding(lines::specs::Answer::line_code, crate::specs::TrailLines::act_line_at))]
pub fn act_line(trail: &Trail, a: u32, out: &mut [u8]) -> Result<usize, LineError>
    ensures { Writes (act_tests trail.now.rec.now a) (act_line_at trail.now.rec.now a) out.old result out.new }
{
    let [act, fired, moved, jumps] = act_row(trail, a)?;
    report_lines::act_line(act, fired, moved, jumps, out)
}

// The line of the jumps from one place to another; nothing where there are none.
pub fn jump_line(trail: &Trail, from: u32, to: u32, out: &mut [u8]) -> Result<usize, LineError>
    ensures { Writes (pair_tests trail.now.rec.now from to) (jump_line_at trail.now.rec.now from to) out.old result out.new }
{
    let [from, to, n] = pair_row(trail, from, to)?;
    report_lines::jump_line(from, to, n, out)
}
