// The objects of an event, from a list in bytes.

ghost use Rattle.std.specs.Prelude.{◌≡◌};
ghost use Rattle.words.specs.Words.{words_of};
ghost use Rattle.client_check.specs.Objects.{objects_in};

// The list, or nine objects, which no activity takes, in the place of one that is of no whole rows or has over eight.
#[tactic(auto, using(crate::proofs::ObjectLaws::rows_in, crate::proofs::ObjectLaws::nine_uneven, crate::proofs::ObjectLaws::nine_many))]
pub fn rows_of(objects: &[u8]) -> &[u8]
    ensures { words_of result.now ≡ objects_in objects.now }
{
    if objects.len() % 4 == 0 && objects.len() <= 32 {
        objects
    } else {
        &[0u8; 36]
    }
}
