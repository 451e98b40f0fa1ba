// The tests 1 to 3 on a table's bytes: length, layout, sizes.
// Above `net`; `net_loader` asks them.

#![tactic(auto)]

ghost use Rattle.std.specs.Prelude.{◌≡◌};
ghost use Rattle.words.specs.Refusals.{first};
ghost use Rattle.net.specs.Table.{size_tests, row_tests, shape_tests};
ghost use Rattle.net.specs.Answer.{load_answer_code};

use net::{LoadError, MAX_TABLE};

// 3: how many kinds, places and activities there are.
fn refuse_sizes(kinds: u32, places: u32, acts: u32) -> Result<(), LoadError>
    ensures { load_answer_code result ≡ first (size_tests kinds places acts) }
{
    if (1..=8).contains(&kinds) && (2..=64).contains(&places) && (1..=64).contains(&acts) {
        Ok(())
    } else {
        Err(LoadError::Size)
    }
}

// 2 or 3, by the bodies' lengths in bytes.
fn refuse_rows(kinds: u32, places: u32, acts: u32, arcs: u32) -> Result<(), LoadError>
    ensures { load_answer_code result ≡ first (row_tests kinds places acts arcs) }
{
    if kinds % 8 != 0 || places % 4 != 0 || acts % 4 != 0 || arcs % 8 != 0 {
        return Err(LoadError::Layout);
    }
    refuse_sizes(kinds / 8, places / 4, acts / 4)
}

// The first of 1 to 3 that applies.
pub fn refuse_shape(s: &[u8]) -> Result<(), LoadError>
    ensures { load_answer_code result ≡ first (shape_tests s.now) }
{
    if s.len() < 32 || MAX_TABLE < s.len() {
        return Err(LoadError::Length);
    }
    if !words::laid_out(s, 4) {
        return Err(LoadError::Layout);
    }
    refuse_rows(
        words::word_at(s, 4),
        words::word_at(s, 12),
        words::word_at(s, 20),
        words::word_at(s, 28),
    )
}
