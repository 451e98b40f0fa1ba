// Reading the table file and standard input, and whether there are arguments. A read that fails counts as the end. Of an input
// whose bytes are known, the bytes that are read are those that it loses from its front.
// Above std alone; `program_events`, `program_open`, `conform` and `net_test` use it, and `program_output` cites its `IsPrefixLen`.

#![tactic(auto)]

ghost use Rattle.std.specs.Prelude.{◌≡◌, ◌-◌, ◌≤◌, ◌↔◌, IsTrue, length, take, drop};
ghost use Rattle.std.specs.Io.KnownBytes.{Consumes};
ghost use Rattle.program_input.specs.Counts.{IsPrefixLen, Passes};

use std::env::{Env, FillError};
use std::fs::{File, Files};
use std::io::Read;

// Reads until the buffer is full, the input ends or a read fails. Gives how many bytes stand at its front then, as std's `read`
// does: a slice lent out of the buffer would leave open what the buffer holds afterwards. A loop over `read`, since std's
// `read_exact` says nothing of the bytes before an end or a failure.
#[tactic(auto, using(crate::proofs::Reading::read_behind))]
pub fn read_full<R: Read>(input: &mut R, buf: &mut [u8]) -> usize
    ensures size { IsPrefixLen result buf.new }
    ensures bytes { Consumes (R.remaining input.old) (R.remaining input.new) (take result buf.new) }
{
    let mut done = 0;
    while done < buf.len() {
        match input.read(&mut buf[done..]) {
            Ok(0) | Err(_) => break,
            Ok(n) => done += n,
        }
    }
    done
}

// The file's first bytes, as many as fit, and how many there are. A file that cannot be opened has none. Any bytes may be given
// as a path: where they are no text, nothing can be opened.
pub fn read_file(files: &impl Files, path: &[u8], out: &mut [u8]) -> usize
    ensures { IsPrefixLen result out.new }
{
    let Ok(path) = str::from_utf8(path) else {
        return 0;
    };
    match File::open(files, path) {
        Ok(mut file) => read_full(&mut file, out),
        Err(_) => 0,
    }
}

// Reads at most n bytes of the input, and at most as many as fit. Gives how many there are.
pub fn read_some<R: Read>(input: &mut R, buf: &mut [u8], n: usize) -> usize
    ensures size { (result ≤ n) × (result ≤ length buf.old) }
    ensures bytes { Consumes (R.remaining input.old) (R.remaining input.new) (take result buf.new) }
{
    let most = n.min(buf.len());
    read_full(input, &mut buf[..most])
}

// Reads n bytes of the input and keeps none of them. Gives how many there are. A loop, since std's `copy` into a sink says
// nothing of the bytes before a failure.
pub fn skip<R: Read>(input: &mut R, n: usize) -> usize
    ensures size { result ≤ n }
    ensures bytes { Passes (R.remaining input.old) (R.remaining input.new) result }
{
    let mut buf = [0u8; 65536];
    let mut passed = 0;
    while passed < n {
        match read_some(input, &mut buf, n - passed) {
            0 => break,
            got => passed += got,
        }
    }
    passed
}

// Bytes of an input at the front of a lent buffer.
#[derive(Drop)]
pub struct InputWindow<'a> {
    pub buf: &'a mut [u8],
    // How many of the buffer's bytes they are.
    pub len: usize,
    ghost within: { len ≤ length buf.now },
}

impl<'a> InputWindow<'a> {
    ghost use Rattle.program_input.specs.Window.{window_bytes, window_room};

    // Reads the first bytes of the input, as many as fit.
    pub fn read<R: Read>(input: &mut R, buf: &'a mut [u8]) -> InputWindow<'a>
        ensures same_buffer { result.buf.ghost_name ≡ buf.entry.ghost_name }
        ensures room { window_room result ≡ length buf.old }
        ensures bytes { Consumes (R.remaining input.old) (R.remaining input.new) (window_bytes result) }
    {
        let len = read_full(input, buf);
        InputWindow { buf, len }
    }

    pub fn bytes(&self) -> &[u8]
        ensures { result.now ≡ window_bytes self.now }
    {
        &self.buf[..self.len]
    }

    // Whether the bytes fill the buffer. After a read or a refill they do, unless the input has ended.
    pub fn is_full(&self) -> bool
        ensures { IsTrue result ↔ (self.now.len ≡ window_room self.now) }
    {
        self.len == self.buf.len()
    }

    // Moves the bytes from `from` on to the front, and fills up from the input.
    #[tactic(auto, using(crate::proofs::Reading::kept_part, crate::proofs::Reading::read_part))]
    pub fn refill<R: Read>(&mut self, input: &mut R, from: usize)
        requires { from ≤ self.old.len }
        ensures same_buffer { self.new.buf.ghost_name ≡ self.old.buf.ghost_name }
        ensures room { window_room self.new ≡ window_room self.old }
        ensures size { self.old.len - from ≤ self.new.len }
        ensures kept { take (self.old.len - from) (window_bytes self.new) ≡ drop from (window_bytes self.old) }
        ensures bytes { Consumes (R.remaining input.old) (R.remaining input.new) (drop (self.old.len - from) (window_bytes self.new)) }
    {
        let buf = &mut *self.buf;
        buf.copy_within(from..self.len, 0);
        let kept = self.len - from;
        let got = read_full(input, &mut buf[kept..]);
        self.len = kept + got;
    }
}

// Whether the program was started with arguments, beside its own name.
pub fn has_arguments(env: &impl Env) -> bool {
    let mut front = [0u8; 1];
    !matches!(env.arg(1, &mut front), Err(FillError::NotPresent))
}
