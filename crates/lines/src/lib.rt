// A line of a word and fields in lent bytes: whole, or not at all where the part is shorter. Above `text`, which writes words and
// fields. `report_lines` has the lines of the report.

#![tactic(auto)]

ghost use Rattle.std.specs.Prelude.{◌≡◌, [], ◌≤◌, length};
ghost use Rattle.std.proofs.Common.{rules};
ghost use Rattle.words.specs.Lists.{over};
ghost use Rattle.lines.specs.Lines.{fields_text, line_of};
ghost use Rattle.lines.specs.Answer.{line_error_code, Writes};

use text::field::{Field, Word, field_width, put_field, put_word, word_width};
use words::answers::Refusal;

// Why a line is not written; `Ok` has how many bytes are. `line_answer_code` gives document 01's number.
#[derive(Clone, Copy)]
pub enum LineError {
    // 51: unknown place.
    UnknownPlace,
    // 52: unknown activity.
    UnknownActivity,
    // 61: the lent part is shorter than the line.
    NoRoom,
}

impl Refusal for LineError {
    ghost number_of = { line_error_code };

    ghost not_zero = { Prim.search rules };

    fn number(self) -> u32 {
        match self {
            LineError::UnknownPlace => 51,
            LineError::UnknownActivity => 52,
            LineError::NoRoom => 61,
        }
    }
}

// How many bytes the fields take, with the line feed that ends the line.
fn fields_width(fs: &[Field]) -> usize
    requires { length fs.now ≤ 5 }
    ensures { (result ≡ length (fields_text fs.now)) × (result ≤ 106) }
{
    let fields: usize = fs.iter().map(|f| field_width(*f)).sum();
    fields + 1
}

// The fields one behind the other from the start of a lent part, and the line feed.
fn put_fields(fs: &[Field], out: &mut [u8])
    requires { length (fields_text fs.now) ≤ length out.old }
    ensures { out.new ≡ over (fields_text fs.now) out.old }
{
    let mut at = 0;
    for f in fs {
        at += put_field(*f, &mut out[at..]);
    }
    out[at] = b'\n';
}

// A line of a word and at most five fields.
pub fn write_line(w: Word, fs: &[Field], out: &mut [u8]) -> Result<usize, LineError>
    requires { length fs.now ≤ 5 }
    ensures { Writes [] (line_of w fs.now) out.old result out.new }
{
    let n = word_width(w) + fields_width(fs);
    if out.len() < n {
        return Err(LineError::NoRoom);
    }
    let at = put_word(w, out);
    put_fields(fs, &mut out[at..]);
    Ok(n)
}
