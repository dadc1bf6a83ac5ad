//! The words of a command.

ghost use Rattle.std.specs.Prelude.{◌≡◌, map, string_bytes};
ghost use Rattle.std.specs.Option.{option_copied};
ghost use Rattle.ecf_host.specs.Words.{file_name, file_behind};

/// The file that stands behind the word of a command; none where the words are any others.
pub fn file_behind<'a>(word: &str, words: &'a [String]) -> Option<&'a str>
    ensures { option_copied result ≡ file_behind word.now (map string_bytes words.now) }
{
    match words {
        [command, file] if command.as_str() == word => file_name(file.as_str()),
        _ => None,
    }
}

// A word that can name a file.
fn file_name(word: &str) -> Option<&str>
    ensures { option_copied result ≡ file_name word.now }
{
    if word.is_empty() || word.as_bytes()[0] == b'-' {
        None
    } else {
        Some(word)
    }
}
