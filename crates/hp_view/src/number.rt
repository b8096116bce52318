ghost use Rattle.std.specs.Prelude.{◌≡◌, ◌*◌, ◌+◌, ◌≤◌};
ghost use Rattle.hp_base.specs.Round.{fitting};
ghost use Rattle.hp_view.specs.Form.{numeral};

#[tactic(auto, using(crate::proofs::NumberLemmas::numeral_of_none, crate::proofs::NumberLemmas::numeral_of_bad_digit, crate::proofs::NumberLemmas::numeral_of_large, crate::proofs::NumberLemmas::numeral_of_all, std::proofs::lemmas::Grind::common_steps))]
/// The number of at most 64 bits that digits of a radix write, where there is at least one digit and nothing else.
pub fn numeral(radix: u32, digits: &[u8]) -> Option<u64>
    requires { (2 ≤ radix) × (radix ≤ 36) }
    ensures { result ≡ numeral radix digits.now }
{
    if digits.is_empty() {
        return None;
    }
    let mut value = 0u64;
    for digit in digits {
        let Some(digit) = char::from(*digit).to_digit(radix) else {
            return None;
        };
        let Some(longer) = with_digit(value, radix, digit) else {
            return None;
        };
        value = longer;
    }
    Some(value)
}

// The number with one digit more.
fn with_digit(value: u64, radix: u32, digit: u32) -> Option<u64>
    ensures { result ≡ fitting (value * radix + digit) }
{
    match value.checked_mul(u64::from(radix)) {
        None => None,
        Some(product) => product.checked_add(u64::from(digit)),
    }
}
