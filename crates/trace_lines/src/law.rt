// Which traces are accepted and which are rejected, in terms of their grammar.

ghost use Rattle.std.specs.Prelude.{◌≡◌, ◌<◌, ◌^◌, ◌↔◌, ℕ, List, [], Some, Ok, Err, length};
ghost use Rattle.std.specs.Fmt.{decimal};
ghost use Rattle.sso_base.specs.Words.{Text};
ghost use Rattle.client_registry.specs.Configuration.{Configuration};
ghost use Rattle.trace_lines.specs.declared.line.Line.{Line};
ghost use Rattle.trace_lines.specs.declared.no.TraceNo.TheVariants as no;
ghost use Rattle.trace_lines.specs.declared.verb.Verb.{Verb};
ghost use Rattle.trace_lines.specs.Guilt.{line_faults};
ghost use Rattle.trace_lines.specs.Header.{seed_of, IsHeaderOf};
ghost use Rattle.trace_lines.specs.LineWords.{words_in, AreWordsOf};
ghost use Rattle.trace_lines.specs.Number.{number_of};
ghost use Rattle.trace_lines.specs.Order.{IsReadFor};
ghost use Rattle.trace_lines.specs.Said.{line_said};
ghost use Rattle.trace_lines.specs.Trace.{Told, line_read, trace_told, HasNoHeader, IsTrace};
ghost use Rattle.trace_lines.specs.Verbs.{verb_of, verb_text};
ghost use Rattle.trace_lines.specs.Laws.{RefusedLinesHaveTheLeastFault, ReadLinesHaveNoFault, LinesWithoutFaultSaySomething};
ghost use Rattle.trace_lines.specs.Laws.{TracesAreRefusedForTheirFirstBadLine};

/// A line is the header with a seed if and only if it is `sso-trace 1 ` and the seed's 24 bytes in lower-case hexadecimal
/// digits.
pub fn headers_have_their_seeds()
    ensures { (line : List ℕ) (seed : List ℕ) → (seed_of line ≡ Some seed) ↔ IsHeaderOf seed line }
{}

/// A word is read as a number if and only if it is the decimal text of that number, which is below 2^64.
pub fn numbers_are_decimal()
    ensures { (word : List ℕ) (n : ℕ) → (number_of word ≡ Some n) ↔ ((word ≡ decimal n) × (n < 2 ^ 64)) }
{}

/// A line has these words if and only if it is these words, each of visible ASCII and not empty, separated by single spaces.
pub fn lines_are_cut_at_single_spaces()
    ensures { (line : List ℕ) (words : List Text) → (words_in line ≡ Some words) ↔ AreWordsOf words line }
{}

/// A line is of a kind if and only if its first word is that of the kind.
pub fn kinds_have_their_first_words()
    ensures { (word : Text) (verb : Verb) → (verb_of word ≡ Some verb) ↔ (word ≡ verb_text verb) }
{}

/// A line is rejected for a fault if and only if that is the first of its faults in their order. A line without faults is
/// parsed, and its result is not empty unless the line is skipped.
pub fn the_least_fault_is_answered()
    ensures refused { RefusedLinesHaveTheLeastFault }
    ensures guiltless { ReadLinesHaveNoFault }
    ensures read { (c : Configuration) (before : List Line) (line : List ℕ) → line_faults c before line ≡ [] → line_read c before line ≡ Ok (line_said c line) }
    ensures says { LinesWithoutFaultSaySomething }
{}

/// A trace is accepted if and only if it has a header and each of its lines has no fault after those before it. The result is
/// then what these lines parse to.
pub fn traces_are_accepted_line_by_line()
    ensures accepted { (c : Configuration) (bytes : List ℕ) (told : Told) → (trace_told c bytes ≡ Ok told) ↔ IsTrace c bytes told }
    ensures order { (c : Configuration) (bytes : List ℕ) (told : Told) → trace_told c bytes ≡ Ok told → IsReadFor c told }
{}

/// A trace is rejected for its size, or else for its header, or else for its first bad line and the first fault of that line.
/// Each is an equivalence.
pub fn traces_are_refused_for_their_first_bad_line()
    ensures size { (c : Configuration) (bytes : List ℕ) → (trace_told c bytes ≡ Err no.Size) ↔ (4194304 < length bytes) }
    ensures header { (c : Configuration) (bytes : List ℕ) → (trace_told c bytes ≡ Err no.Header) ↔ HasNoHeader bytes }
    ensures line { TracesAreRefusedForTheirFirstBadLine }
{}
