//! Sums, differences and comparison of numbers in words.

ghost use Rattle.std.specs.Prelude.{◌≡◌, ◌+◌, ◌-◌, ◌*◌, ◌^◌, ◌<◌, ◌≤◌, length, nat_lt, nat_eq, cond};
ghost use Rattle.tough_modular.specs.Number.{number, weight};

// The lowest 64 bits.
const LOW: u128 = 0xffff_ffff_ffff_ffff;

// The whole product.
fn mul_wide(left: u64, right: u64) -> u128
    ensures product { result ≡ left * right }
    ensures most { result ≤ (2 ^ 64 - 1) * (2 ^ 64 - 1) }
{
    left as u128 * right as u128
}

/// The sum of a word, a product and a carry, and what is carried on.
pub fn add_product_to(word: u64, left: u64, right: u64, carry: u64) -> (u64, u64)
    ensures { result.0 + 2 ^ 64 * result.1 ≡ word + left * right + carry }
{
    let sum = mul_wide(left, right) + word as u128 + carry as u128;
    ((sum & LOW) as u64, (sum >> 64) as u64)
}

/// The difference of two words and a borrow, and what is borrowed from the next.
pub fn sub_with_borrow(left: u64, right: u64, borrow: u64) -> (u64, u64)
    requires { borrow < 2 }
    ensures difference { result.0 + right + borrow ≡ left + 2 ^ 64 * result.1 }
    ensures borrow { result.1 < 2 }
{
    let difference = left as u128 + (1 << 64) - right as u128 - borrow as u128;
    ((difference & LOW) as u64, 1 - (difference >> 64) as u64)
}

// Twice a word and a carry, and what is carried on.
fn double_word(word: u64, carry: u64) -> (u64, u64)
    requires { carry < 2 }
    ensures double { result.0 + 2 ^ 64 * result.1 ≡ 2 * word + carry }
    ensures carry { result.1 < 2 }
{
    (((word & 0x7fff_ffff_ffff_ffff) << 1) + carry, word >> 63)
}

// Whether the lesser number is on the left, where that is known of the words below these.
fn is_below_with(left: u64, right: u64, below: bool) -> bool
    ensures { result ≡ cond (nat_eq left right) below (nat_lt left right) }
{
    if left == right { below } else { left < right }
}

/// Adds the product of a word and a number, and says what is carried on.
pub fn add_product(total: &mut [u64], words: &[u64], factor: u64) -> u64
    requires { length total.old ≡ length words.now }
    ensures { number total.new + weight (length total.old) * result
        ≡ number total.old + factor * number words.now }
{
    let mut carry = 0;
    for i in 0..total.len() {
        let (word, more) = add_product_to(total[i], words[i], factor, carry);
        total[i] = word;
        carry = more;
    }
    carry
}

/// Takes a number away, and says what is borrowed.
pub fn subtract(total: &mut [u64], words: &[u64]) -> u64
    requires { length total.old ≡ length words.now }
    ensures difference { number total.new + number words.now
        ≡ number total.old + weight (length total.old) * result }
    ensures borrow { result < 2 }
{
    let mut borrow = 0;
    for i in 0..total.len() {
        let (word, more) = sub_with_borrow(total[i], words[i], borrow);
        total[i] = word;
        borrow = more;
    }
    borrow
}

/// Doubles the number, and says what is carried on.
pub fn double(total: &mut [u64]) -> u64
    ensures double { number total.new + weight (length total.old) * result ≡ 2 * number total.old }
    ensures carry { result < 2 }
{
    let mut carry = 0;
    for i in 0..total.len() {
        let (word, more) = double_word(total[i], carry);
        total[i] = word;
        carry = more;
    }
    carry
}

/// Whether it is the lesser number.
pub fn is_below(left: &[u64], right: &[u64]) -> bool
    requires { length left.now ≡ length right.now }
    ensures { result ≡ nat_lt (number left.now) (number right.now) }
{
    let mut below = false;
    for i in 0..left.len() {
        below = is_below_with(left[i], right[i], below);
    }
    below
}
