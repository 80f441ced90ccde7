//! The digits of a digest, in base 16.
ghost use Rattle.std.specs.Prelude.{◌≡◌, ◌≢◌, ◌<◌, ◌↔◌, All, IfSome, IsNone};
ghost use Rattle.depot_model.specs.texts.Winternitz.{digits_of};
ghost use Rattle.depot_winter.specs.Smaller.{HasSmallerDigit, IsFirstSmaller};

use depot_base::Hash32;

/// The 67 digits of a digest: its 64 hexadecimal digits, the high half of each byte first, and then the sum of 15 minus
/// each digit, as three digits, the highest first (docs/FORMATS.md, signatures).
#[tactic(auto, using(crate::proofs::DigitLemmas::digits_made))]
pub fn digits(digest: &Hash32) -> [u8; 67]
    ensures value { result ≡ digits_of digest.now }
    ensures base { All (λ digit. digit < 16) result }
{
    let mut digits = [0; 67];
    let mut checksum = 0u16;
    for (place, byte) in digest.bytes().iter().enumerate() {
        let high = *byte / 16;
        let low = *byte % 16;
        digits[2 * place] = high;
        digits[2 * place + 1] = low;
        checksum += u16::from(15 - high) + u16::from(15 - low);
    }
    digits[64] = (checksum / 256) as u8;
    digits[65] = (checksum / 16 % 16) as u8;
    digits[66] = (checksum % 16) as u8;
    digits
}

/// The first place, from 0 to 66, at which the second digest's digit is smaller than the first's; `None` for equal
/// digests. Each of two different digests has a smaller digit somewhere, so no signature of one signs the other.
#[tactic(auto, using(crate::proofs::SmallerLaws::differ_both_ways))]
pub fn smaller_digit(first: &Hash32, second: &Hash32) -> Option<u8>
    ensures found { IfSome result (IsFirstSmaller first.now second.now) }
    ensures none { IsNone result ↔ (first.now ≡ second.now) }
    ensures both_ways { first.now ≢ second.now → HasSmallerDigit first.now second.now × HasSmallerDigit second.now first.now }
{
    let first_digits = digits(first);
    let second_digits = digits(second);
    for place in 0..67u8 {
        if second_digits[place as usize] < first_digits[place as usize] {
            return Some(place);
        }
    }
    None
}
