ghost use Rattle.std.specs.Prelude.{◌≡◌, ◌≤◌, ◌==◌, IfSome, slice_index};
ghost use Rattle.hp_words.specs.Numbers.{number_within};

/// The number that a word writes in decimal digits, one or more and nothing else, where it is in the range. Leading zeros are accepted.
pub fn number_within(word: &str, least: u64, most: u64) -> Option<u64>
    ensures number { result ≡ number_within least most word.now }
    ensures range { IfSome result (λ n. (least ≤ n) × (n ≤ most)) }
{
    if has_plus(word.as_bytes()) {
        return None;
    }
    match word.parse::<u64>() {
        Ok(n) if least <= n && n <= most => Some(n),
        _ => None,
    }
}

// Whether a plus stands in front, which `parse` takes.
fn has_plus(word: &[u8]) -> bool
    ensures { result ≡ (slice_index word.now 0 == 43) }
{
    !word.is_empty() && word[0] == b'+'
}
