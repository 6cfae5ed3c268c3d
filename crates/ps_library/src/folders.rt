//! The folders that the words of a command line name.

ghost use Rattle.std.specs.Prelude.{◌≡◌, map, string_bytes, codes, IfOk};
ghost use Rattle.std.specs.Option.{option_map};
ghost use Rattle.ps_library.specs.PathWords.{folders_of, behind};

use ps_base::NoMemory;
use std::alloc::Global;

/// What follows `--path=` in each word that begins so, in order.
///
/// # Errors
///
/// `NoMemory` where memory ran out.
pub fn folders_of(alloc: Global, words: &[String]) -> Result<Vec<String>, NoMemory>
    ensures { IfOk result (λ folders. map (λ f. string_bytes f) folders.items ≡ folders_of (map (λ w. string_bytes w) words.now)) }
{
    let mut folders = Vec::new(alloc);
    for word in words {
        if let Some(folder) = folder_in(word.as_str()) {
            folders.push(String::from_str(alloc, folder)?)?;
        }
    }
    Ok(folders)
}

// What follows `--path=` in a word that begins so.
fn folder_in(word: &str) -> Option<&str>
    ensures { option_map (λ f. f.now) result ≡ behind (codes "--path=") word.now }
{
    word.strip_prefix("--path=")
}
