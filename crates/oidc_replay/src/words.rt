// The random words of the roles in a replay.

ghost use Rattle.std.specs.Prelude.{◌≡◌, ◌≤◌, ◌^◌};
ghost use Rattle.oidc_replay.specs.Words as spec;

use server_desk::word_of_number;
use sso_base::Word;

/// The four words of the place after `count` places.
pub(crate) fn words_after(seed: &[u8; 24], count: u64) -> [Word; 4]
    requires { count ≤ 2 ^ 59 }
    ensures { result ≡ spec.words_after seed.now count }
{
    [
        word_of_number(seed, 4 * count + 1),
        word_of_number(seed, 4 * count + 2),
        word_of_number(seed, 4 * count + 3),
        word_of_number(seed, 4 * count + 4),
    ]
}
