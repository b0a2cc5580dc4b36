//! The numbers of the command line.

ghost use Rattle.std.specs.Prelude.{◌≡◌, ℕ, MatchOption};
ghost use Rattle.std.specs.List.{list_all};
ghost use Rattle.reading_tokens.specs.Shapes.{is_digit};
ghost use Rattle.run_words.specs.Job.{IsNumber};

use reading_tokens::is_digit;

/// The number of the range that 1 to 10 decimal digits spell.
pub(crate) fn number(text: &str, least: u32, most: u32) -> Option<u32>
    ensures { MatchOption result ((n : ℕ) → ¬ IsNumber text.now least most n) (IsNumber text.now least most) }
{
    if text.len() > 10 || !has_digits_alone(text.as_bytes()) {
        return None;
    }
    match text.parse::<u32>() {
        Ok(n) => {
            if least <= n && n <= most {
                Some(n)
            } else {
                None
            }
        }
        Err(_) => None,
    }
}

fn has_digits_alone(text: &[u8]) -> bool
    ensures { result ≡ list_all is_digit text.now }
{
    text.iter().all(|b| is_digit(*b))
}
