ghost use Rattle.std.specs.Prelude.{◌≡◌, ◌≤ℤ◌, ◌+ℤ◌, map, pos, slice_get};
ghost use Rattle.jresolution.specs.juses.InternedInstructions.{keyed_as, keys_from};
ghost use Rattle.jsemantics.specs.jmachine.BasicInstructions.{case_of};

use jresolution::juses::Key;

/// How far a key stands behind the least.
#[inline]
fn behind(low: i32, key: i32) -> u32
    requires { low ≤ℤ key }
    ensures { key ≡ low +ℤ pos result }
{
    (i64::from(key) - i64::from(low)) as u32
}

#[inline]
fn target_at(targets: &[u32], n: u32) -> Option<u32>
    ensures { result ≡ slice_get targets.now n }
{
    targets.get(n as usize).copied()
}

/// Where a switch goes on for a key, by the targets of keys that rise by one from the least.
#[inline]
#[tactic(auto, using(crate::proofs::SwitchTargets::case_before, crate::proofs::SwitchTargets::case_at, crate::proofs::SwitchTargets::case_past))]
pub(crate) fn rising_to(low: i32, targets: &[u32], other: u32, key: i32) -> u32
    ensures { result ≡ case_of key (keys_from low targets.now) other }
{
    if key < low {
        return other;
    }
    match target_at(targets, behind(low, key)) {
        Some(to) => to,
        None => other,
    }
}

/// The same, by the cases of a switch.
#[inline]
#[tactic(auto, unfolding(jsemantics::specs::jmachine::BasicInstructions::case_of))]
pub(crate) fn keyed_to(keys: &[Key], other: u32, key: i32) -> u32
    ensures { result ≡ case_of key (map keyed_as keys.now) other }
{
    for one in keys {
        if one.key == key {
            return one.to;
        }
    }
    other
}
