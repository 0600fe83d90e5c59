//! Single bits of a word, lowest first.
ghost use Rattle.std.specs.Prelude.{◌≡◌, ℕ, ◌<◌, ◌≤◌, true, false, ◌||◌, Decides, ◌==◌, nat_lt};
ghost use Rattle.charts.specs.Bits.{bit};

// Record sets test and set bits of 128 too: a trait of words for one shift would be longer than the shifts.

/// Tells whether bit `k` of `word` is set; no bit past the last is.
pub(crate) fn test_bit(word: u64, k: usize) -> bool
    ensures { result ≡ bit word k }
{
    k < 64 && (word >> k) & 1 == 1
}

/// `word` with bit `k` set.
pub(crate) fn with_bit(word: u64, k: usize) -> u64
    requires { k < 64 }
    ensures { (j : ℕ) → bit result j ≡ (j == k || bit word j) }
{
    word | (1 << k)
}

/// The word of the numbers below `size` at which the test answers yes.
pub(crate) fn bits_where<F: Fn(usize) -> bool>(size: usize, test: F) -> u64
    requires few { size ≤ 64 }
    requires callable { (k : ℕ) → k < size → F.pre test k }
    ensures answers { (k : ℕ) → k < size → F.post test k (bit result k) }
    ensures beyond { (k : ℕ) → size ≤ k → bit result k ≡ false }
{
    let mut word = 0;
    // A loop, tried as `filter` and `fold`: that the test answers no at each number left out does not close.
    for k in 0..size {
        if test(k) {
            word = with_bit(word, k);
        }
    }
    word
}

/// The word whose first `n` bits are set.
pub(crate) fn low_bits(n: usize) -> u64
    requires some { 1 ≤ n }
    requires few { n ≤ 64 }
    ensures { (k : ℕ) → bit result k ≡ nat_lt k n }
{
    u64::MAX >> (64 - n)
}

/// Tells whether `whole` has every bit of `part`.
pub(crate) fn is_within(part: u64, whole: u64) -> bool
    ensures { Decides result ((k : ℕ) → bit part k ≡ true → bit whole k ≡ true) }
{
    part & whole == part
}
