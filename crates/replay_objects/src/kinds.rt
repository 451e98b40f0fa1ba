// The kinds of an event's objects.

ghost use Rattle.std.specs.Prelude.{◌≡◌, ◌≤◌, length};
ghost use Rattle.words.specs.Lists.{twice};

// Two of N kinds are the same. Each is compared with those before it.
fn two_among<const N: usize>(kinds: &[u32]) -> bool
    requires { length kinds.now ≡ N }
    ensures { result ≡ twice kinds.now }
{
    let mut found = false;
    'pairs: for i in 1..N {
        for j in 0..i {
            if kinds[i] == kinds[j] {
                found = true;
                break 'pairs;
            }
        }
    }
    found
}

// 27: two of the kinds are the same. A call for each number of objects: its loops are of a length that is known where they are
// compiled. Fewer than two are told before the match, which is a jump through a table.
#[tactic(auto, using(crate::proofs::PairLaws::few_apart))]
pub fn two_of_kind(kinds: &[u32]) -> bool
    requires { length kinds.now ≤ 8 }
    ensures { result ≡ twice kinds.now }
{
    if kinds.len() < 2 {
        return false;
    }
    match kinds.len() {
        2 => two_among::<2>(kinds),
        3 => two_among::<3>(kinds),
        4 => two_among::<4>(kinds),
        5 => two_among::<5>(kinds),
        6 => two_among::<6>(kinds),
        7 => two_among::<7>(kinds),
        _ => two_among::<8>(kinds),
    }
}
