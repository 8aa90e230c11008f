//! A degree in writing.
ghost use Rattle.std.specs.Prelude.{◌≡◌};
ghost use Rattle.std.specs.Option.{option_map};
ghost use Rattle.scale.specs.Digits.{written};

/// The digits of a degree of a scale with so many levels: as many as there are levels, a one for each level reached,
/// the ones last. Nothing for a degree above the levels, or for levels that no scale has.
pub fn digits(levels: u8, degree: u8) -> Option<&'static str>
    ensures { option_map (λ x. x.now) result ≡ written levels degree }
{
    if !(1..=4).contains(&levels) {
        return None;
    }
    let zeros = usize::from(levels.checked_sub(degree)?);
    let ones = usize::from(degree);
    Some(&"00001111"[4 - zeros..4 + ones])
}
