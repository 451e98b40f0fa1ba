// Checkpoints (desk records): what putting one down and taking one up are, the refusals 41 to 47, demand 3, and the answers.
// Above `words`, `net`, `replay` and `replay_objects`. Of code it has only the refusals and the numbers of the answers:
// `checkpoint_judge` and `checkpoint_restore` do the work.

#![tactic(auto)]

ghost use Rattle.std.specs.Prelude.{◌≡◌};
ghost use Rattle.std.proofs.Common.{rules};
ghost use Rattle.checkpoint.specs.Answers.{restore_error_code, restore_error_second, save_error_code, restore_answer_second};
ghost use Rattle.checkpoint.specs.declared.RestoreError.TheVariants.{Table, Register, NoRoom};

use net::LoadError;
use replay_objects::register::RegisterError;
use words::answers::Refusal;

// Why a record is refused. `restore_error_code` and `restore_error_second` give document 01's numbers.
#[derive(Clone, Copy)]
pub enum RestoreError {
    // 41: length under 40 or over 29,844.
    Length,
    // 42: layout broken.
    Layout,
    // 43: table refused, with the table's number.
    Table(LoadError),
    // 44, with 0: the register's length no multiple of its row.
    Rows,
    // 44: the register refused, with its number.
    Register(RegisterError),
    // 45: positions.
    Positions,
    // 46: counts.
    Counts,
    // 47: jumps.
    Jumps,
    // 61: the lent part is shorter than the record. Only taking up gives it.
    NoRoom,
}

impl Refusal for RestoreError {
    ghost number_of = { restore_error_code };

    ghost not_zero = { Prim.search rules };

    fn number(self) -> u32 {
        match self {
            RestoreError::Length => 41,
            RestoreError::Layout => 42,
            RestoreError::Table(_) => 43,
            RestoreError::Rows => 44,
            RestoreError::Register(_) => 44,
            RestoreError::Positions => 45,
            RestoreError::Counts => 46,
            RestoreError::Jumps => 47,
            RestoreError::NoRoom => 61,
        }
    }
}

impl RestoreError {
    // The second number of 43 and 44; else 0.
    pub fn second(self) -> u32
        ensures { result ≡ restore_error_second self }
    {
        match self {
            RestoreError::Table(refused) => refused.number(),
            RestoreError::Register(refused) => refused.number(),
            _ => 0,
        }
    }
}

impl From<LoadError> for RestoreError {
    ghost from_gives = { λ table e. e ≡ Table table };

    fn from(table: LoadError) -> RestoreError {
        RestoreError::Table(table)
    }
}

impl From<RegisterError> for RestoreError {
    ghost from_gives = { λ register e. e ≡ Register register };

    fn from(register: RegisterError) -> RestoreError {
        RestoreError::Register(register)
    }
}

// Why a record is not put down. `save_error_code` gives document 01's number.
#[derive(Clone, Copy)]
pub enum SaveError {
    // 61: the lent part is shorter than the record.
    NoRoom,
}

impl Refusal for SaveError {
    ghost number_of = { save_error_code };

    ghost not_zero = { Prim.search rules };

    fn number(self) -> u32 {
        match self {
            SaveError::NoRoom => 61,
        }
    }
}

impl From<SaveError> for RestoreError {
    ghost from_gives = { λ _ e. e ≡ NoRoom };

    fn from(error: SaveError) -> RestoreError {
        match error {
            SaveError::NoRoom => RestoreError::NoRoom,
        }
    }
}

// The second number of an answer to checking a record or taking it up: that of the refusal, or 0. Kept beside
// `words::answers::code`, since only these refusals have a second number.
pub fn second(r: Result<(), RestoreError>) -> u32
    ensures { result ≡ restore_answer_second r }
{
    match r {
        Ok(()) => 0,
        Err(refused) => refused.second(),
    }
}
