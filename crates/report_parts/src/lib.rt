// The whole report (the sheet): its lines one behind the other, as many as fit a lent part.
// Above `report`, which writes a line of a trail; `program_output` uses it.

#![tactic(auto)]

ghost use Rattle.std.specs.Prelude.{◌≡◌, [], ◌<◌};
ghost use Rattle.net.specs.Held.{net_in};
ghost use Rattle.lines.specs.Answer.{Writes};
ghost use Rattle.report_parts.specs.Parts.{lines_on, lines_in, line_at, Puts};

use lines::LineError;
use net_lookup::LoadedNet;
use replay_stored::Trail;
use report::trail::{act_line, jump_line, place_line, trail_line};

// Lines that were put into a lent part: the number of the line behind them, and how many bytes they take.
#[derive(Drop)]
pub struct Part {
    pub next: u32,
    pub size: usize,
}

// How many lines the report has: the trail's, one for each place and activity, and one for each pair of places, which is
// empty where the pair has no jumps.
#[tactic(auto, using(crate::proofs::LineLaws::places_few, crate::proofs::LineLaws::acts_few, crate::proofs::LineLaws::pairs_few))]
pub fn line_count(net: &LoadedNet) -> u32
    ensures { result ≡ lines_on (net_in net.now.words.now) }
{
    let places = net.places() as u32;
    let acts = net.acts() as u32;
    1 + places + acts + places * places
}

// Line i of the report.
#[tactic(auto, using(crate::proofs::LineLaws::places_few, crate::proofs::LineLaws::acts_few, crate::proofs::LineLaws::has_place))]
fn line(trail: &Trail, i: u32, out: &mut [u8]) -> Result<usize, LineError>
    requires known_line { i < lines_in trail.now.rec.now }
    ensures { Writes [] (line_at trail.now.rec.now i) out.old result out.new }
{
    if i == 0 {
        return trail_line(trail, out);
    }
    let places = trail.net.places() as u32;
    let q = i - 1;
    if q < places {
        return place_line(trail, q, out);
    }
    let acts = trail.net.acts() as u32;
    let a = q - places;
    if a < acts {
        return act_line(trail, a, out);
    }
    let k = a - acts;
    jump_line(trail, k / places, k % places, out)
}

// The lines from line `from` on, one behind the other, up to the first that does not fit.
pub fn put_lines(trail: &Trail, from: u32, out: &mut [u8]) -> Part
    ensures { Puts trail.now.rec.now from out.old result out.new }
{
    let n = line_count(&trail.net);
    let mut at = 0;
    for i in from..n {
        match line(trail, i, &mut out[at..]) {
            Ok(size) => at += size,
            Err(_) => return Part { next: i, size: at },
        }
    }
    Part {
        next: from.max(n),
        size: at,
    }
}
