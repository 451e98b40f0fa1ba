// A line of the report of a lent trail, or the line's whole numbers, into lent bytes: the check of the trail, then 51, 52 and 61.
// Above `client_check` and `client_answers`; `client` exports a function for each line, and hands on what writes it.

#![tactic(auto)]

ghost use Rattle.std.specs.Prelude.{◌≡◌, ◌≤◌, List, Bool, ℕ};
ghost use Rattle.replay.specs.Ready.{Ready};
ghost use Rattle.lines.specs.Answer.{line_answer_code, size_of, Writes};
ghost use Rattle.client_answers.specs.Answers.{packed};
ghost use Rattle.client_calls.specs.Writing.{write_answer, write_leaves};
ghost use Rattle.client_write.specs.Puts.{PutsFew, PutsLine};

use client_answers::answer;
use client_check::check::checked;
use lines::LineError;
use net::{NET_WORDS, NetWords};
use net_lookup::LoadedNet;
use replay_stored::Trail;

// What `put` writes of a trail that is checked: the `Trail` is made here, once.
fn put_line<'a, F: FnOnce(&Trail, &mut [u8]) -> Result<usize, LineError>>(
    rec: &'a [u8],
    words: &'a NetWords,
    out: &mut [u8],
    put: F,
) -> Result<usize, LineError>
    requires may_put { F.IsAlwaysCallable put }
    requires few { PutsFew F.FnOnce put }
    requires ready { Ready words.now rec.now }
    ensures few { size_of result ≤ 113 }
    ensures writes { (tests : List (Bool × ℕ)) (line : List ℕ) → PutsLine F.FnOnce put rec.now tests line out.old → Writes tests line out.old result out.new }
{
    let net = LoadedNet { words };
    let trail = Trail { rec, net };
    put(&trail, out)
}

// The answer of a line, or of its numbers: the refusal's number, or 0 and how many bytes were written.
fn line_answer(line: Result<usize, LineError>) -> u64
    requires { size_of line ≤ 113 }
    ensures { result ≡ packed (line_answer_code line) (size_of line) }
{
    answer(line)
}

// Writes of any bytes that are lent as a trail what `put` writes of a trail: a line of its report, or a line's numbers.
pub fn write<F: FnOnce(&Trail, &mut [u8]) -> Result<usize, LineError>>(
    trail: &[u8],
    out: &mut [u8],
    put: F,
) -> u64
    requires may_put { F.IsAlwaysCallable put }
    requires few { PutsFew F.FnOnce put }
    ensures answer { (tests : List (Bool × ℕ)) (line : List ℕ) → PutsLine F.FnOnce put trail.now tests line out.old → result ≡ write_answer trail.now tests line out.old }
    ensures out_after { (tests : List (Bool × ℕ)) (line : List ℕ) → PutsLine F.FnOnce put trail.now tests line out.old → out.new ≡ write_leaves trail.now tests line out.old }
{
    let mut t = [0u32; NET_WORDS];
    let refused = checked(trail, &mut t);
    if refused != 0 {
        return refused;
    }
    line_answer(put_line(trail, &t, out, put))
}
