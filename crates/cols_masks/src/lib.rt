// A mask is a number that stands for a set of small numbers: connections 0 to 15, or user places 0 to 63.
#![tactic(auto)]

ghost use Rattle.std.specs.Prelude.{◌≡◌, ℕ, length};
ghost use Rattle.cols_spec.specs.Sets.{has as has_in, with as with_of, without as without_of, only as only_of, meet as meet_of, minus as minus_of, union as union_of, listed, connections, seats, NextIn};

// The mask has k.
pub fn has(m: u64, k: u8) -> bool
    ensures { result ≡ has_in m k }
{
    if k < 64 {
        return (m >> k) % 2 == 1;
    }
    false
}

// The first number of the mask from `from` on; 64 where there is none.
pub fn next_in(m: u64, from: usize) -> usize
    ensures { NextIn m from result }
{
    if 64 <= from {
        return 64;
    }
    let rest = m >> from;
    if rest == 0 {
        return 64;
    }
    from + u64::trailing_zeros(rest) as usize
}

// Masks of one width. What is said of the numbers of a mask is said here once, for connections and for user places.
#[tactic(auto, using(cols_spec::proofs::Digits::union_only, cols_spec::proofs::Digits::minus_only))]
pub trait Mask: Copy {
    ghost width: { ℕ };

    ghost number: { Self → ℕ };

    // k alone
    fn only(k: u8) -> Self
        ensures { number result ≡ only_of width k };

    // The numbers of both masks, those of the first that are not in the second, and those of either.
    fn meet(self, other: Self) -> Self
        ensures { number result ≡ meet_of width (number self) (number other) };

    fn minus(self, other: Self) -> Self
        ensures { number result ≡ minus_of width (number self) (number other) };

    fn union(self, other: Self) -> Self
        ensures { number result ≡ union_of width (number self) (number other) };

    // The mask with k, and without it.
    fn with(self, k: u8) -> Self
        ensures { number result ≡ with_of width (number self) k }
    {
        self.union(Self::only(k))
    }

    fn without(self, k: u8) -> Self
        ensures { number result ≡ without_of width (number self) k }
    {
        self.minus(Self::only(k))
    }
}

// A mask of connections: who has joined a channel.
#[tactic(auto, using(cols_spec::proofs::Digits::by_digits))]
impl Mask for u16 {
    ghost width = { connections };

    ghost number = { λ m. m };

    fn only(k: u8) -> u16 {
        let in_width = k < 16;
        if in_width {
            return 1u16 << k;
        }
        0
    }

    fn meet(self, other: u16) -> u16 {
        self & other
    }

    fn minus(self, other: u16) -> u16 {
        self & (self ^ other)
    }

    fn union(self, other: u16) -> u16 {
        self | other
    }
}

// A mask of user places.
#[tactic(auto, using(cols_spec::proofs::Digits::by_digits))]
impl Mask for u64 {
    ghost width = { seats };

    ghost number = { λ m. m };

    fn only(k: u8) -> u64 {
        let in_width = k < 64;
        if in_width {
            return 1u64 << k;
        }
        0
    }

    fn meet(self, other: u64) -> u64 {
        self & other
    }

    fn minus(self, other: u64) -> u64 {
        self & (self ^ other)
    }

    fn union(self, other: u64) -> u64 {
        self | other
    }
}

// How many connections the mask has: a channel's audience.
#[tactic(auto, using(cols_spec::proofs::Counts::ones_listed))]
pub fn count_links(m: u16) -> u32
    ensures { result ≡ length (listed connections m) }
{
    u16::count_ones(m)
}
