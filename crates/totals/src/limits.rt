// What the totals of a device may be, and which waits they leave room for.
ghost use Rattle.std.specs.Prelude.{◌≡◌, ◌+◌, ◌≤◌, leb, length, take};
ghost use Rattle.std.specs.List.{list_all, zip};
ghost use Rattle.chip.specs.Kinds.{outputs_of};
ghost use Rattle.totals.specs.Totals.{total_limit, record_of, totals_within};
ghost use Rattle.totals.specs.Wait.{exceeds_for};

use chip::Chip;
use device::Device;
use lamp::Duration;

// The largest that the two totals of an output are together.
const TOTAL_LIMIT: u64 = 1 << 56;

// Whether both totals and so much more are together at most the limit, in whichever unit all three are.
fn within_total(lit: u64, unlit: u64, more: u64) -> bool
    ensures { result ≡ leb (lit + unlit + more) total_limit }
{
    more <= TOTAL_LIMIT && lit <= TOTAL_LIMIT - more && unlit <= TOTAL_LIMIT - more - lit
}

// The number of a chip's outputs.
pub fn outputs(chip: Chip) -> usize
    ensures value { result ≡ outputs_of chip }
    ensures upper_bound { result ≤ 16 }
{
    chip.outputs() as usize
}

// The same for each of the first n outputs.
fn first_within(n: usize, lit: &[u64], unlit: &[u64], more: u64) -> bool
    ensures { result ≡ list_all (λ p. leb (p.0 + p.1 + more) total_limit) (take n (zip lit.now unlit.now)) }
{
    lit.iter()
        .zip(unlit)
        .take(n)
        .all(|(&lit, &unlit)| within_total(lit, unlit, more))
}

// The same for each of a chip's outputs. Slices of 16, as a bus lends them out of its 128: to hand over arrays (`as_mut_array`),
// each caller would have to test a length that it knows.
fn all_within(chip: Chip, lit: &[u64], unlit: &[u64], more: u64) -> bool
    requires { (length lit.now ≡ 16) × (length unlit.now ≡ 16) }
    ensures { result ≡ totals_within (outputs_of chip) lit.now unlit.now more }
{
    first_within(outputs(chip), lit, unlit, more)
}

// Whether totals can be handed in.
pub fn fit(chip: Chip, lit: &[u64], unlit: &[u64]) -> bool
    requires { (length lit.now ≡ 16) × (length unlit.now ≡ 16) }
    ensures { result ≡ totals_within (outputs_of chip) lit.now unlit.now 0 }
{
    all_within(chip, lit, unlit, 0)
}

// Whether a wait is too long for the device or for the totals of an output.
pub fn exceeds(d: Device, lit: &[u64], unlit: &[u64], duration: Duration) -> bool
    requires { (length lit.now ≡ 16) × (length unlit.now ≡ 16) }
    ensures { result ≡ exceeds_for (record_of d lit.now unlit.now) duration }
{
    d.is_too_long(duration)
        || device::wait::is_own(d.chip, duration)
            && !all_within(d.chip, lit, unlit, duration.amount())
}
