//! The numbers that words tell.

ghost use Rattle.std.specs.Prelude.{◌≤◌, IfSome};

/// The number that a word tells.
pub fn number_in(word: &str) -> Option<u64> {
    word.parse::<u64>().ok()
}

/// The number that a word tells, where it is in the range.
pub fn number_within(word: &str, least: u64, most: u64) -> Option<u64>
    ensures within { IfSome result (λ number. (least ≤ number) × (number ≤ most)) }
{
    let number = number_in(word)?;
    if least <= number && number <= most {
        Some(number)
    } else {
        None
    }
}
