// The words that lines begin with, and their fields.

ghost use Rattle.std.specs.Prelude.{◌≡◌, ◌≤◌, length};
ghost use Rattle.words.specs.Lists.{over};
ghost use Rattle.text.specs.Fields.{word_text, field_text};
ghost use Rattle.text.specs.declared.field.Field.TheVariants.{Number};

// The first word of a line.
#[derive(Clone, Copy)]
pub enum Word {
    Trail,
    Place,
    Act,
    Jump,
    Refused,
}

// A field of a line, behind one space.
#[derive(Clone, Copy)]
pub enum Field {
    // Left out.
    Nothing,
    Number(u64),
    // FIT of these jumps and transfers.
    Fitness(u32, u32),
}

// A number of 32 bits is a field.
impl From<u32> for Field {
    ghost from_gives = { λ n f. f ≡ Number n };

    fn from(n: u32) -> Field {
        Field::Number(u64::from(n))
    }
}

// The word's bytes.
fn word_bytes(w: Word) -> &'static [u8]
    ensures { result.now ≡ word_text w }
{
    match w {
        Word::Trail => b"trail",
        Word::Place => b"place",
        Word::Act => b"act",
        Word::Jump => b"jump",
        Word::Refused => b"refused",
    }
}

// How many bytes the word takes.
pub fn word_width(w: Word) -> usize
    ensures { (result ≡ length (word_text w)) × (result ≤ 7) }
{
    word_bytes(w).len()
}

// The word at the start of a lent part, and how many bytes it takes.
pub fn put_word(w: Word, out: &mut [u8]) -> usize
    requires { length (word_text w) ≤ length out.old }
    ensures { (result ≡ length (word_text w)) × (out.new ≡ over (word_text w) out.old) }
{
    let word = word_bytes(w);
    out[..word.len()].copy_from_slice(word);
    word.len()
}

// How many bytes a field takes, with the space before it.
pub fn field_width(f: Field) -> usize
    ensures { (result ≡ length (field_text f)) × (result ≤ 21) }
{
    match f {
        Field::Nothing => 0,
        Field::Number(n) => crate::decimal::width(n) + 1,
        Field::Fitness(jumps, transfers) => fitness::width(jumps, transfers) + 1,
    }
}

// The field at the start of a lent part, and how many bytes it takes.
pub fn put_field(f: Field, out: &mut [u8]) -> usize
    requires { length (field_text f) ≤ length out.old }
    ensures { (result ≡ length (field_text f)) × (out.new ≡ over (field_text f) out.old) }
{
    match f {
        Field::Nothing => 0,
        Field::Number(n) => {
            out[0] = b' ';
            1 + crate::decimal::put(n, &mut out[1..])
        }
        Field::Fitness(jumps, transfers) => {
            out[0] = b' ';
            1 + fitness::put(jumps, transfers, &mut out[1..])
        }
    }
}
