// The lines of the report (the sheet) in lent bytes, by their numbers: each whole, or not at all where the part is shorter.
// Above `lines`. `report` takes the numbers from a trail, `program_output` writes refusals.

#![tactic(auto)]

ghost use Rattle.std.specs.Prelude.{[]};
ghost use Rattle.lines.specs.Answer.{Writes};
ghost use Rattle.report_lines.specs.ReportLines.{trail_line, place_line, act_line, jump_line, refused_line};

use lines::{LineError, write_line};
use text::field::{Field, Word};

// The three lines of four numbers are kept apart, though they are alike: each is one list of fields that shows which numbers it
// prints and of which two its FIT is.

// `trail`: register size, events, jumps, transfers, FIT.
pub fn trail_line(
    objects: u32,
    events: u32,
    jumps: u32,
    transfers: u32,
    out: &mut [u8],
) -> Result<usize, LineError>
    ensures { Writes [] (trail_line objects events jumps transfers) out.old result out.new }
{
    let fs = [
        objects.into(),
        events.into(),
        jumps.into(),
        transfers.into(),
        Field::Fitness(jumps, transfers),
    ];
    write_line(Word::Trail, &fs, out)
}

// `place`: number, TAKEN, IN, OUT, FIT.
pub fn place_line(
    place: u32,
    consumed: u32,
    jumps_in: u32,
    jumps_out: u32,
    out: &mut [u8],
) -> Result<usize, LineError>
    ensures { Writes [] (place_line place consumed jumps_in jumps_out) out.old result out.new }
{
    let fs = [
        place.into(),
        consumed.into(),
        jumps_in.into(),
        jumps_out.into(),
        Field::Fitness(jumps_in, consumed),
    ];
    write_line(Word::Place, &fs, out)
}

// `act`: number, FIRED, MOVED, JUMPS, FIT.
pub fn act_line(
    act: u32,
    fired: u32,
    moved: u32,
    jumps: u32,
    out: &mut [u8],
) -> Result<usize, LineError>
    ensures { Writes [] (act_line act fired moved jumps) out.old result out.new }
{
    let fs = [
        act.into(),
        fired.into(),
        moved.into(),
        jumps.into(),
        Field::Fitness(jumps, moved),
    ];
    write_line(Word::Act, &fs, out)
}

// `jump`: from, to, count. Nothing is written for a pair that has no jumps.
#[tactic(auto, using(crate::proofs::JumpLaws::no_jumps, crate::proofs::JumpLaws::some_jumps), unfolding(lines::specs::Lines::line_of))]
pub fn jump_line(from: u32, to: u32, count: u32, out: &mut [u8]) -> Result<usize, LineError>
    ensures { Writes [] (jump_line from to count) out.old result out.new }
{
    if count == 0 {
        return Ok(0);
    }
    write_line(Word::Jump, &[from.into(), to.into(), count.into()], out)
}

// `refused`: the number of the refusal, and the events accepted before it.
pub fn refused_line(code: u32, events: u32, out: &mut [u8]) -> Result<usize, LineError>
    ensures { Writes [] (refused_line code events) out.old result out.new }
{
    write_line(Word::Refused, &[code.into(), events.into()], out)
}
