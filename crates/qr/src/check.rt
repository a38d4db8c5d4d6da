//! The error correction codewords: a Reed-Solomon code over the field of 256 elements.

ghost use Rattle.std.specs.Prelude.{◌≡◌, ◌<◌, slice_index};
ghost use Rattle.qr.specs.Check as check;

/// The generator polynomial without its first term x^20: the product of x - 2^i for each i below 20.
const GENERATOR: [u8; 20] = [
    152, 185, 240, 5, 111, 99, 6, 220, 112, 150, 69, 36, 187, 22, 228, 198, 121, 121, 165, 174,
];

/// Returns twice an element of the field.
fn doubled(element: u8) -> u8
    ensures { result ≡ check.doubled element }
{
    if element < 128 {
        2 * element
    } else {
        2 * (element - 128) ^ 0x1D
    }
}

/// Extends the product of an element and the first bits of another by one more bit.
#[tactic(auto, unfolding(crate::specs::Check::times_bit))]
fn times_bit(one: u8, other: u8, product: u8, k: u8) -> u8
    requires { k < 8 }
    ensures { result ≡ check.times_bit one other product k }
{
    let twice = doubled(product);
    if (other >> (7 - k)) % 2 == 1 {
        twice ^ one
    } else {
        twice
    }
}

/// Returns the product of two elements.
#[tactic(auto, using(crate::proofs::RangeLemmas::fold_range_more))]
fn times(one: u8, other: u8) -> u8
    ensures { result ≡ check.times one other }
{
    let mut product = 0;
    for k in 0..8 {
        product = times_bit(one, other, product, k);
    }
    product
}

/// Returns coefficient k of a remainder; 0 from 20 on.
fn coefficient_of(rest: &[u8; 20], k: usize) -> u8
    ensures { result ≡ slice_index rest.now k }
{
    if k < 20 { rest[k] } else { 0 }
}

/// Returns coefficient k after the remainder is shifted by one place and a multiple of the generator is subtracted.
fn coefficient(rest: &[u8; 20], factor: u8, k: usize) -> u8
    requires { k < 20 }
    ensures { result ≡ check.coefficient rest.now factor k }
{
    coefficient_of(rest, k + 1) ^ times(factor, GENERATOR[k])
}

/// Returns the remainder after one more codeword is divided.
fn divided(rest: &[u8; 20], codeword: u8) -> [u8; 20]
    ensures { result ≡ check.divided rest.now codeword }
{
    let factor = rest[0] ^ codeword;
    let mut left = [0; 20];
    for k in 0..20 {
        left[k] = coefficient(rest, factor, k);
    }
    left
}

/// Returns the 20 error correction codewords that follow these.
#[tactic(auto, using(std::proofs::lemmas::List::Sums::fold_more))]
pub fn check_of(codewords: &[u8]) -> [u8; 20]
    ensures { result ≡ check.check_codewords codewords.now }
{
    let mut rest = [0; 20];
    for codeword in codewords {
        rest = divided(&rest, *codeword);
    }
    rest
}
