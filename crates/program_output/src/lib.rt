// What the program prints, on the standard output that `conform` hands in: the report (the sheet), or the line of a refusal.
// Promised of a writer that says what it holds, as a `Vec` does: where all of it was written, it holds the text more. Standard
// output says nothing, so there it is tested.
// Above `report_parts` and `report_lines`, `replay_stored` and `net_lookup` for the trail that is printed, and, for the refusals,
// `net` (of a table) and `trace_header` (of opening). `program_events`, `program_open` and `conform` say what is to be printed, and
// `conform` has it printed.

#![tactic(auto)]

ghost use Rattle.std.specs.Prelude.{◌≡◌, ◌≤◌, IsOk, length, take};
ghost use Rattle.std.specs.Io.KnownBytes.{Appends};
ghost use Rattle.program_input.specs.Counts.{IsPrefixLen};
ghost use Rattle.report.specs.Report.{report_at};
ghost use Rattle.net.specs.Answer.{load_error_code};
ghost use Rattle.trace_header.specs.Answers.{open_error_code};
ghost use Rattle.program_output.specs.Ending.{at_once, refusal_text, ending_text, Printable};

use net::{LoadError, NetWords};
use net_lookup::LoadedNet;
use replay_stored::Trail;
use report_parts::{line_count, put_lines};
use std::io;
use std::io::Write;
use trace_header::OpenError;
use words::answers::Refusal;

// What is printed where the report is not: the first refusal.
#[derive(Clone, Copy)]
pub struct Refused {
    // Its number as it is printed. Three enums of errors meet here: `LoadError`, `OpenError` and, from the events, `TraceError`.
    pub code: u32,
    // The events accepted before it.
    pub events: u32,
}

impl Refused {
    // What is refused before any event.
    fn at_once<E: Refusal>(error: E) -> Refused
        ensures { result ≡ at_once (E.number_of error) }
    {
        Refused {
            code: error.number(),
            events: 0,
        }
    }
}

impl From<LoadError> for Refused {
    ghost from_gives = { λ e r. r ≡ at_once (load_error_code e) };

    fn from(table: LoadError) -> Refused {
        Refused::at_once(table)
    }
}

impl From<OpenError> for Refused {
    ghost from_gives = { λ e r. r ≡ at_once (open_error_code e) };

    fn from(opening: OpenError) -> Refused {
        Refused::at_once(opening)
    }
}

// The line of a refusal in front of the lent bytes, and how many bytes it has.
fn refusal_line(refused: Refused, out: &mut [u8]) -> usize
    requires { 64 ≤ length out.old }
    ensures size { IsPrefixLen result out.new }
    ensures line { take result out.new ≡ refusal_text refused }
{
    report_lines::refused_line(refused.code, refused.events, out).unwrap_or(0)
}

// Prints the line of a refusal. `Ok` says that all of it was written.
fn print_refusal<W: Write>(to: &mut W, refused: Refused) -> io::Result<()>
    ensures { IsOk result → Appends (W.contents to.old) (W.contents to.new) (refusal_text refused) }
{
    let mut out = [0u8; 64];
    let n = refusal_line(refused, &mut out);
    to.write_all(&out[..n])
}

// Prints the whole report, in parts of as many lines as fit the buffer (`parts_are` of `report_parts` says the same of the parts).
// `Ok` says that all of it was written; it stops where a part was not. A `while`, since a part has as many lines as fit.
fn print_report<W: Write>(to: &mut W, trail: &Trail) -> io::Result<()>
    ensures { IsOk result → Appends (W.contents to.old) (W.contents to.new) (report_at trail.now.rec.now) }
{
    let mut out = [0u8; 4096];
    let n = line_count(&trail.net);
    let mut i = 0;
    while i < n {
        let part = put_lines(trail, i, &mut out);
        let size = part.size;
        to.write_all(&out[..size])?;
        i = part.next;
    }
    Ok(())
}

// Prints what the program ends with: the report of the trail in the first so many of the bytes `rec`, or the line of a refusal.
// `Ok` says that all of it was written.
pub fn print<'a, W: Write>(
    to: &mut W,
    ending: Result<usize, Refused>,
    rec: &'a [u8],
    t: &'a NetWords,
) -> io::Result<()>
    requires { Printable t.now rec.now ending }
    ensures { IsOk result → Appends (W.contents to.old) (W.contents to.new) (ending_text ending rec.now) }
{
    match ending {
        Ok(n) => {
            let net = LoadedNet { words: t };
            let trail = Trail {
                rec: &rec[..n],
                net,
            };
            print_report(to, &trail)
        }
        Err(refused) => print_refusal(to, refused),
    }
}
