ghost use Rattle.std.specs.Prelude.{◌≡◌, ◌*◌, ◌+◌};
ghost use Rattle.hp_base.specs.Round.{fitting};
ghost use Rattle.hp_bytes.specs.Form.{decimal};

#[tactic(auto, using(crate::proofs::NumberLemmas::decimal_of_none, crate::proofs::NumberLemmas::decimal_of_bad_digit, crate::proofs::NumberLemmas::decimal_of_large, crate::proofs::NumberLemmas::decimal_of_all, std::proofs::lemmas::Grind::common_steps))]
/// The number of at most 64 bits that decimal digits write, where there is at least one digit and nothing else.
pub fn decimal(digits: &[u8]) -> Option<u64>
    ensures { result ≡ decimal digits.now }
{
    if digits.is_empty() {
        return None;
    }
    let mut value = 0u64;
    for digit in digits {
        let Some(digit) = char::from(*digit).to_digit(10) else {
            return None;
        };
        let Some(longer) = with_digit(value, digit) else {
            return None;
        };
        value = longer;
    }
    Some(value)
}

// The number with one digit more.
fn with_digit(value: u64, digit: u32) -> Option<u64>
    ensures { result ≡ fitting (value * 10 + digit) }
{
    match value.checked_mul(10) {
        None => None,
        Some(product) => product.checked_add(u64::from(digit)),
    }
}
