// Lemmas about commands, for the crates above.

ghost use Rattle.std.specs.Prelude.{◌≡◌, true, List, Some};
ghost use Rattle.std.specs.List.{list_all};
ghost use Rattle.sso_base.specs.Words.{Text};
ghost use Rattle.command_line.specs.declared.command.Command.{Command};
ghost use Rattle.command_line.specs.Commands.{command_of, is_plain, words_of, IsInRange};

/// Words are a command if and only if they are the words that write it, each is plain, and the numbers of a storm are in their
/// ranges.
pub fn commands_are_read_as_they_are_written()
    ensures words { (words : List Text) (c : Command) → command_of words ≡ Some c → words ≡ words_of c }
    ensures plain { (words : List Text) (c : Command) → command_of words ≡ Some c → list_all is_plain words ≡ true }
    ensures range { (words : List Text) (c : Command) → command_of words ≡ Some c → IsInRange c }
    ensures read { (c : Command) → list_all is_plain (words_of c) ≡ true → IsInRange c → command_of (words_of c) ≡ Some c }
{}
