// The error that is reported, stated as a law.

ghost use Rattle.std.specs.Prelude.{◌≡◌, [], List, Some, None};
ghost use Rattle.configuration_rows.specs.declared.no.RegNo.{RegNo};
ghost use Rattle.configuration_rows.specs.Refusals.{least, IsLeast};

/// The reported error has the smallest number of all errors of the configuration, and is the first with that number.
/// Conversely, such an error is the one reported. None is reported if and only if there is none.
pub fn the_least_is_answered()
    ensures least { (e : RegNo) (es : List RegNo) → least es ≡ Some e → IsLeast e es }
    ensures answered { (e : RegNo) (es : List RegNo) → IsLeast e es → least es ≡ Some e }
    ensures none { (es : List RegNo) → least es ≡ None → es ≡ [] }
    ensures guiltless { least [] ≡ None }
{}
