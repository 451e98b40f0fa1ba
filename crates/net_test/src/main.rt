// Loads the route tables of the case file on standard input, sound and damaged. Text is written as it stands. The numbers
// between a bar and the end of its line are a case, and written in their place is the number of the answer, and how many of the
// lent words are as they were, or all that is looked up in them.
// Above `net_loader`, `net_lookup` and `program_input`; nothing uses it.

#![tactic(auto)]

use crate::read::Numbers;
use crate::show::load;
use program_input::InputWindow;
use std::io::Write;

mod read;
mod show;

fn bad<W: Write>(out: &mut W) {
    let _ = out.write_all(b" bad case\n");
}

// A line of the file. A bar begins a case, and is written too; the case of a line without an end cannot be read.
fn show_line<W: Write>(out: &mut W, numbers: &mut Numbers, line: &[u8]) {
    let Some(bar) = line.iter().position(|c| *c == b'|') else {
        let _ = out.write_all(line);
        return;
    };
    let (text, case) = line.split_at(bar + 1);
    let _ = out.write_all(text);
    match numbers.read(case) {
        Some(table) => load(out, table),
        None => bad(out),
    }
}

fn main(rt: HostRuntime) {
    let mut buf = [0u8; 65536];
    let file = InputWindow::read(&mut rt.stdin(), &mut buf);
    let out = &mut rt.stdout();
    if file.is_full() {
        return bad(out);
    }
    let mut numbers = Numbers::new();
    for line in file.bytes().split_inclusive(|c| *c == b'\n') {
        show_line(out, &mut numbers, line);
    }
}
