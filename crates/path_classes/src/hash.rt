//! A hash of numbers.

ghost use Rattle.std.specs.Prelude.{◌≡◌};
ghost use Rattle.path_classes.specs.Hashes.{mixed};

/// An odd multiplier without a pattern in its bits: the golden ratio's.
const SPREAD: u64 = 0x9E37_79B9_7F4A_7C15;

/// Works a number into a hash.
#[tactic(auto, unfolding(crate::specs::Hashes::mixed))]
pub(crate) fn mixed(hash: u64, number: u64) -> u64
    ensures { result ≡ mixed hash number }
{
    (hash ^ number).wrapping_mul(SPREAD).rotate_left(29)
}
