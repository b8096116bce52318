ghost use Rattle.std.specs.Prelude.{◌≡◌, ◌≤◌, IfSome};
ghost use Rattle.hp_command.specs.Words.{number_within};

// The number that a word writes in decimal digits, one or more and nothing else, where it is in the range. Leading zeros are accepted.
#[tactic(auto, using(crate::proofs::NumberLemmas::none_of_none, crate::proofs::NumberLemmas::none_of_bad_digit, crate::proofs::NumberLemmas::none_of_large, std::proofs::lemmas::Grind::common_steps))]
pub(crate) fn number_within(word: &[u8], least: u32, most: u32) -> Option<u32>
    ensures number { result ≡ number_within least most word.now }
    ensures range { IfSome result (λ n. (least ≤ n) × (n ≤ most)) }
{
    if word.is_empty() {
        return None;
    }
    let mut value = 0u64;
    for byte in word {
        let Some(digit) = char::from(*byte).to_digit(10) else {
            return None;
        };
        value = value * 10 + u64::from(digit);
        if value > u64::from(most) {
            return None;
        }
    }
    if value < u64::from(least) {
        return None;
    }
    Some(value as u32)
}
