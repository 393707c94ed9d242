// Decimal numbers.

ghost use Rattle.std.specs.Prelude.{◌≡◌, ◌<◌, ◌^◌, IfOk};
ghost use Rattle.command_line.specs.Numbers as spec;
ghost use Rattle.command_line.specs.Numbers.{number_in};

use sso_base::NoMemory;
use std::alloc::Global;

// Whether the number is from `low` to `high`, and the word is its decimal text.
fn is_number(alloc: Global, word: &str, low: u32, high: u32, number: u32) -> Result<bool, NoMemory>
    ensures { IfOk result (λ is. is ≡ spec.is_number low high word.now number) }
{
    let printed = number.to_string(alloc)?;
    Ok(printed.as_str() == word && low <= number && number <= high)
}

/// The number with this decimal text, from `low` to `high`. `None` if and only if the word is not the text of such a number,
/// without leading zeros.
pub(crate) fn read_number(
    alloc: Global,
    word: &str,
    low: u32,
    high: u32,
) -> Result<Option<u32>, NoMemory>
    ensures { IfOk result (λ n. n ≡ number_in low high word.now) }
{
    let Ok(number) = word.parse::<u32>() else {
        return Ok(None);
    };
    let fits = is_number(alloc, word, low, high, number)?;
    Ok(if fits { Some(number) } else { None })
}
