// The program: it reads the route table `route.tab` and a trail from standard input, and writes the report (the sheet), or the
// first refusal, to standard output. `program_text: program_text` says which. Proved of what `decide` gives back: it has the text
// for the table file's bytes and some trail file; of `print`, that a writer which says what it holds has got the text where all of
// it was written. That standard input is that file, and that standard output gets what is written, no contract can say, and is tested.
// Above `net_loader`, `program_open`, which opens and follows the trail file, and `program_output`.

#![tactic(auto)]

ghost use Rattle.std.specs.Prelude.{◌≡◌, [], ◌≤◌, length, replicate};
ghost use Rattle.net.specs.Limits.{net_words};
ghost use Rattle.replay.specs.Limits.{max_record};
ghost use Rattle.program_output.specs.Ending.{Printable};
ghost use Rattle.program_text.specs.FromFile.{FromFile};

use net::{MAX_TABLE, NET_WORDS, NetWords};
use net_lookup::tabled::TabledNet;
use program_input::{has_arguments, read_file};
use program_open::read_trail;
use program_output::{Refused, print};
use replay_layout::MAX_RECORD;
use std::io::{Read, Write};

// Room for the longest record.
fn record_buffer() -> [u8; MAX_RECORD]
    ensures { max_record ≡ length result }
{
    [0; MAX_RECORD]
}

// Room for a loaded net.
fn net_buffer() -> NetWords
    ensures { result ≡ replicate net_words 0 }
{
    [0; NET_WORDS]
}

// In how many of the lent bytes the trail stands that is to be reported, or the first refusal: by the table file's bytes and what
// is read from standard input. Room for the longest record is a clause, here and in `program_open`: an array of just so many bytes
// would ask more of who calls.
fn decide<R: Read>(
    input: &mut R,
    table: &[u8],
    t: &mut NetWords,
    rec: &mut [u8],
) -> Result<usize, Refused>
    requires fresh { t.old ≡ replicate net_words 0 }
    requires room { max_record ≤ length rec.old }
    ensures text { FromFile table.now [] 0 result rec.new }
    ensures printable { Printable t.new rec.new result }
{
    net_loader::load_fresh(table, t)?;
    let tabled = TabledNet::loaded(t, table);
    read_trail(input, &tabled, rec)
}

// Reads the table file, of which one byte more than a table may have is enough to refuse it, and prints what is to be printed.
fn run(rt: HostRuntime) {
    let mut table = [0u8; MAX_TABLE + 1];
    let mut t = net_buffer();
    let mut rec = record_buffer();
    let n = read_file(&rt, b"route.tab", &mut table);
    let ending = decide(&mut rt.stdin(), &table[..n], &mut t, &mut rec);
    if print(&mut rt.stdout(), ending, &rec, &t).is_err() {
        let _ = rt
            .stderr()
            .write_all(b"conform: standard output cannot be written\n");
    }
}

fn main(rt: HostRuntime) {
    if has_arguments(&rt) {
        let _ = rt.stderr().write_all(
            b"usage: conform < TRAIL\nIt takes no arguments: the route table is the file route.tab, the trail is standard input.\n",
        );
        return;
    }
    run(rt);
}
