// FIT, 1 - jumps/transfers to the nearest thousandth, and its text over the start of lent bytes. Above `digits`, which gives three
// digits at once; `text` puts it into fields. What is claimed of the rounding stands in `specs/Rounding.antt`.

#![tactic(auto)]

ghost use Rattle.std.specs.Prelude.{◌≡◌, ◌≤◌, length, Some};
ghost use Rattle.words.specs.Lists.{over};
ghost use Rattle.fitness.specs.Fitness.{nearest, most_shown, thousandths, fitness, fitness_text};

// The thousandth nearest to 1 - jumps/transfers, a half going up.
fn nearest_one(jumps: u32, transfers: u32) -> u64
    requires { 1 ≤ transfers }
    ensures { result ≡ nearest jumps transfers }
{
    let whole = u64::from(transfers);
    let kept = u64::from(transfers.saturating_sub(jumps));
    (2000 * kept + whole) / (2 * whole)
}

// The most that is shown: 1.000 where there is no jump, 0.999 with one or more.
fn most_shown(jumps: u32) -> u64
    ensures { (result ≡ most_shown jumps) × (result ≤ 1000) }
{
    if jumps == 0 { 1000 } else { 999 }
}

// The thousandths where there are transfers: the one place where FIT is rounded.
#[tactic(auto, unfolding(crate::specs::Fitness::thousandths))]
fn rounded(jumps: u32, transfers: u32) -> u32
    requires { 1 ≤ transfers }
    ensures { (result ≡ thousandths jumps transfers) × (result ≤ 1000) }
{
    most_shown(jumps).min(nearest_one(jumps, transfers)) as u32
}

// FIT of so many jumps in so many transfers, in thousandths, if there are transfers to divide by.
#[tactic(auto, unfolding(crate::specs::Fitness::fitness))]
fn fitness_of(jumps: u32, transfers: u32) -> Option<u32>
    ensures { result ≡ fitness jumps transfers }
{
    if transfers == 0 {
        None
    } else {
        Some(rounded(jumps, transfers))
    }
}

// How many bytes FIT takes.
pub fn width(jumps: u32, transfers: u32) -> usize
    ensures { (result ≡ length (fitness_text (fitness jumps transfers))) × (result ≤ 5) }
{
    match fitness_of(jumps, transfers) {
        None => 1,
        Some(_) => 5,
    }
}

// n thousandths, as one digit, a point and the three digits of the digit code.
fn put_thousandths(n: u32, out: &mut [u8]) -> usize
    requires { (n ≤ 1000) × (5 ≤ length out.old) }
    ensures { (result ≡ 5) × (out.new ≡ over (fitness_text (Some n)) out.old) }
{
    let [_, hundreds, tens, units] = digits::code(words::wide(n % 1000)).to_be_bytes();
    out[..5].copy_from_slice(&[b'0' + (n / 1000) as u8, b'.', hundreds, tens, units]);
    5
}

// Fills FIT from the start of a lent part, and gives how many bytes it takes.
#[tactic(auto, using(crate::proofs::FitnessLaws::thousandths_le))]
pub fn put(jumps: u32, transfers: u32, out: &mut [u8]) -> usize
    requires { length (fitness_text (fitness jumps transfers)) ≤ length out.old }
    ensures { (result ≡ length (fitness_text (fitness jumps transfers))) × (out.new ≡ over (fitness_text (fitness jumps transfers)) out.old) }
{
    match fitness_of(jumps, transfers) {
        None => {
            out[0] = b'-';
            1
        }
        Some(n) => put_thousandths(n, out),
    }
}
