// The net: what it is, what loading promises of it, the answers of loading, and where its parts stand in lent words.
// Above `words`. `net_loader` fills and tests the words, with the crates below it, and `net_lookup` reads them; the crates above
// use what `Held` and `Loaded` promise, and never a table's bytes or the words' places.

#![tactic(auto)]

pub mod tested;

ghost use Rattle.net.specs.Answer.{load_error_code};
ghost use Rattle.std.proofs.Common.{rules};

use words::answers::Refusal;

// Bytes of the longest route table.
pub const MAX_TABLE: usize = 4704;

// Words of a loaded net.
pub const NET_WORDS: usize = 1684;

pub type NetWords = [u32; NET_WORDS];

// Where the parts of a net stand in its words, as `specs/Held.antt` says. The source and the sink of a kind stand side by
// side, and so do the two places of an arc; the last part has eight words an activity.
pub const SOURCES: usize = 4;

pub const SINKS: usize = 5;

pub const PLACES: usize = 20;

pub const COUNTS: usize = 84;

pub const INPUTS: usize = 148;

pub const OUTPUTS: usize = 149;

pub const INDEX: usize = 1172;

// Why a table is refused. `load_error_code` gives document 01's number.
#[derive(Clone, Copy)]
pub enum LoadError {
    // 1: length under 32 or over 4,704.
    Length,
    // 2: a start or the end breaks the layout, or a length is no multiple of its row.
    Layout,
    // 3: too few or too many kinds, places or activities.
    Size,
    // 4: unknown kind of a place.
    PlaceKind,
    // 5: a source or sink unknown, of another kind, or the two equal.
    Ends,
    // 6: an activity with no arcs or over 8, or the counts do not add up to the arcs.
    Arcs,
    // 7: an arc's place unknown, or its two places of different kinds.
    ArcPlaces,
    // 8: two arcs of one activity of one kind.
    TwoOfKind,
    // 9: a sink not reached from its source by arcs.
    Unreached,
}

impl Refusal for LoadError {
    ghost number_of = { load_error_code };

    ghost not_zero = { Prim.search rules };

    fn number(self) -> u32 {
        match self {
            LoadError::Length => 1,
            LoadError::Layout => 2,
            LoadError::Size => 3,
            LoadError::PlaceKind => 4,
            LoadError::Ends => 5,
            LoadError::Arcs => 6,
            LoadError::ArcPlaces => 7,
            LoadError::TwoOfKind => 8,
            LoadError::Unreached => 9,
        }
    }
}
