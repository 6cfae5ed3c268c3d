//! The words of the command line.

ghost use Rattle.std.specs.Prelude.{◌≡◌, map, string_bytes};
ghost use Rattle.ps_command.specs.Words.{words_fault};

/// The index of the first word that breaks the rules, or the number of words where the command is missing; none, where the
/// words are right.
pub fn usage_of(words: &[String]) -> Option<u64>
    ensures { result ≡ words_fault (map string_bytes words.now) }
{
    match words {
        [] => Some(0),
        [command, rest @ ..] => {
            if command.as_str() != "compile" {
                Some(0)
            } else if !rest.is_empty() {
                Some(1)
            } else {
                None
            }
        }
    }
}
