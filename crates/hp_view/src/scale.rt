//! Scales: places of the picture for numbers of the report.
ghost use Rattle.std.specs.Prelude.{◌≡◌};
ghost use Rattle.hp_view.specs.Scales.{is_narrow, place, plus, scaled};

/// The left edge of what is drawn to a scale, in pixels.
pub const LEFT: u64 = 20;

/// How wide it is.
pub const WIDTH: u64 = 1_160;

#[tactic(auto, using(crate::proofs::ScaleLemmas::scaled_of_nothing, crate::proofs::ScaleLemmas::scaled_within, crate::proofs::ScaleLemmas::scaled_past, std::proofs::lemmas::Grind::common_steps))]
/// A part of a whole, on a scale of so many pixels: rounded down, and never past its end.
pub fn scaled(part: u64, whole: u64, pixels: u64) -> u64
    ensures { result ≡ scaled part whole pixels }
{
    if whole == 0 {
        return 0;
    }
    let exact = u128::from(part) * u128::from(pixels) / u128::from(whole);
    if exact < u128::from(pixels) {
        exact as u64
    } else {
        pixels
    }
}

/// Where a part of a whole ends between the left edge and the right one.
pub fn place(part: u64, whole: u64) -> u64
    ensures { result ≡ place part whole }
{
    plus(LEFT, scaled(part, whole, WIDTH))
}

/// Whether a part of a whole takes less than a pixel.
pub fn is_narrow(part: u64, whole: u64) -> bool
    ensures { result ≡ is_narrow part whole }
{
    u128::from(part) * u128::from(WIDTH) < u128::from(whole)
}

/// Two numbers together, or the greatest of 64 bits where they are more.
pub fn plus(a: u64, b: u64) -> u64
    ensures { result ≡ plus a b }
{
    a.saturating_add(b)
}
