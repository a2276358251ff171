//! Ranks of pairs of numbers.

ghost use Rattle.std.specs.Prelude.{◌≡◌};
ghost use Rattle.balanced_tree.specs.Pairs.{pair_rank};

/// The distance between the ranks of two pairs with the same second number, if their first numbers follow each other.
const SECONDS: u128 = 1 << 64;

/// Returns the rank of a pair, which orders pairs by the first number, and then by the second.
pub fn pair_rank(first: u64, second: u64) -> u128
    ensures { result ≡ pair_rank first second }
{
    u128::from(first) * SECONDS + u128::from(second)
}
