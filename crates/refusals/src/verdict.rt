// The least of the reasons that hold.
ghost use Rattle.std.specs.Prelude.{◌≡◌};
ghost use Rattle.refusals.specs.Refusals.{refuse, least, number_of, code_of};
ghost use Rattle.refusals.specs.Reasons.{number, code_in, refusals_of};

use crate::Reason;

// The lesser of two codes, where 0 is none.
#[tactic(auto, unfolding(crate::specs::Refusals::least))]
pub fn least(a: u64, b: u64) -> u64
    ensures { result ≡ least a b }
{
    if a == 0 {
        b
    } else if b == 0 {
        a
    } else if b < a {
        b
    } else {
        a
    }
}

// A code, with one refusal more.
pub fn or_refused(code: u64, number: u64, holds: bool) -> u64
    ensures { result ≡ least code (number_of (refuse number holds)) }
{
    if holds { least(code, number) } else { code }
}

// The reason with the lesser number.
fn lesser(verdict: Result<(), Reason>, reason: Reason) -> Reason
    ensures { number result ≡ least (code_in verdict) (number reason) }
{
    match verdict {
        Err(other) if u64::from(other) < u64::from(reason) => other,
        _ => reason,
    }
}

#[tactic(auto, using(crate::specs::laws::Refusals::least_zero))]
fn with_reason(verdict: Result<(), Reason>, reason: Reason, holds: bool) -> Result<(), Reason>
    ensures { code_in result ≡ least (code_in verdict) (number_of (refuse (number reason) holds)) }
{
    if holds {
        Err(lesser(verdict, reason))
    } else {
        verdict
    }
}

// Each reason comes with whether it holds.
pub fn judge(checks: &[(Reason, bool)]) -> Result<(), Reason>
    ensures { code_in result ≡ code_of (refusals_of checks.now) }
{
    let mut verdict = Ok(());
    for &(reason, holds) in checks {
        verdict = with_reason(verdict, reason, holds);
    }
    verdict
}
