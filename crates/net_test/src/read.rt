// Reading a case: its numbers go into a buffer; the last one, how many bytes of them are loaded, does not.

ghost use Rattle.std.specs.Prelude.{◌≤◌};

// The numbers of a case, each in four bytes.
#[derive(Drop)]
pub struct Numbers {
    bytes: [u8; 4800],
    // How many there are.
    count: usize,
    ghost within: { count ≤ 1200 },
}

impl Numbers {
    pub fn new() -> Self {
        Numbers {
            bytes: [0; 4800],
            count: 0,
        }
    }

    // Adds x. None where it is no four-byte number, or there is no room.
    fn push(&mut self, x: usize) -> Option<()> {
        let x = u32::try_from(x).ok()?;
        if self.count == 1200 {
            return None;
        }
        words::put_word(&mut self.bytes, self.count, x);
        self.count += 1;
        Some(())
    }

    // Adds so many numbers, each the one that stands `back` numbers before it. None where there is no such number, or no room.
    fn repeat(&mut self, back: usize, times: usize) -> Option<()> {
        if self.count < back || 1200 - self.count < times {
            return None;
        }
        let end = self.count + times;
        for i in self.count..end {
            let x = words::word_at(&self.bytes, 4 * (i - back));
            words::put_word(&mut self.bytes, i, x);
        }
        self.count = end;
        Some(())
    }

    // Reads a case up to the end of its line: `5 ` adds 5, `16*32;` adds the last 16 numbers twice more. Gives the bytes that are
    // loaded; none where the case cannot be read.
    pub fn read(&mut self, case: &[u8]) -> Option<&[u8]> {
        self.count = 0;
        let mut number: usize = 0;
        // The number before a star, or 0.
        let mut back = 0;
        for c in case.strip_suffix(b"\n")? {
            (number, back) = match *c {
                b'0'..=b'9' => (
                    number
                        .saturating_mul(10)
                        .saturating_add(usize::from(*c - b'0')),
                    back,
                ),
                b'*' => (0, number),
                b' ' => {
                    self.push(number)?;
                    (0, 0)
                }
                b';' => {
                    self.repeat(back, number)?;
                    (0, 0)
                }
                _ => return None,
            };
        }
        self.bytes[..4 * self.count].get(..number)
    }
}
