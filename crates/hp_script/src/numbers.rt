ghost use Rattle.std.specs.Prelude.{◌≡◌, ◌≤◌, ◌<◌, ◌+◌, ◌-◌, ◌*◌, length, slice_index, IfSome};
ghost use Rattle.hp_base.specs.Round.{fitting};
ghost use Rattle.hp_script.specs.Numbers.{numeral, number, unit_of, units, scaled};

#[tactic(auto, using(crate::proofs::NumberLemmas::numeral_of_none, crate::proofs::NumberLemmas::numeral_of_bad_digit, crate::proofs::NumberLemmas::numeral_of_large, crate::proofs::NumberLemmas::numeral_of_all, std::proofs::lemmas::Grind::common_steps))]
/// The number of at most 64 bits that the digits write in a radix, where they are digits and at least one.
pub fn numeral(radix: u32, digits: &[u8]) -> Option<u64>
    requires low { 2 ≤ radix }
    requires high { radix ≤ 36 }
    ensures { result ≡ numeral radix digits.now }
{
    if digits.is_empty() {
        return None;
    }
    let mut value = 0u64;
    for digit in digits {
        let Some(digit) = char::from(*digit).to_digit(radix) else {
            return None;
        };
        let Some(longer) = with_digit(value, radix, digit) else {
            return None;
        };
        value = longer;
    }
    Some(value)
}

// The number with one digit more.
fn with_digit(value: u64, radix: u32, digit: u32) -> Option<u64>
    ensures { result ≡ fitting (value * radix + digit) }
{
    match value.checked_mul(u64::from(radix)) {
        None => None,
        Some(product) => product.checked_add(u64::from(digit)),
    }
}

// What the last letter of a number stands for.
fn unit_of(letter: u8) -> Option<u64>
    ensures { result ≡ unit_of letter }
{
    if letter == b'K' {
        Some(0x400)
    } else if letter == b'M' {
        Some(0x10_0000)
    } else if letter == b'G' {
        Some(0x4000_0000)
    } else {
        None
    }
}

fn last_of(text: &[u8]) -> u8
    ensures { result ≡ slice_index text.now (length text.now - 1) }
{
    match text.last() {
        None => 0,
        Some(last) => *last,
    }
}

fn scaled(text: &[u8], unit: Option<u64>) -> Option<u64>
    requires { IfSome unit (λ _. 0 < length text.now) }
    ensures { result ≡ scaled text.now unit }
{
    match unit {
        None => numeral(10, text),
        Some(unit) => {
            let (digits, _) = text.split_at(text.len() - 1);
            numeral(10, digits)?.checked_mul(unit)
        }
    }
}

/// The number that a field writes: `0x` and hexadecimal digits, or a decimal number with or without K, M or G.
#[tactic(auto, unfolding(crate::specs::Numbers::number))]
pub fn number(text: &[u8]) -> Option<u64>
    ensures { result ≡ number text.now }
{
    if text.starts_with(b"0x") {
        let (_, digits) = text.split_at(2);
        numeral(16, digits)
    } else {
        scaled(text, unit_of(last_of(text)))
    }
}
