// Whole numbers as text.
ghost use Rattle.std.specs.Prelude.{◌≡◌, ◌≢◌, IfSome, Ok, Some, slice_get};

use std::str::FromStr;

// The number whose decimal digits are all of `word`, with a minus sign or none before them.
pub fn whole<T: FromStr>(word: &str) -> Option<T>
where
    T::Err: Drop,
    ensures no_plus { IfSome result (λ _. slice_get word.now 0 ≢ Some 43) }
    ensures parsed { IfSome result (λ x. T.from_str_gives word.now (Ok x)) }
{
    if word.starts_with('+') {
        return None;
    }
    word.parse().ok()
}
