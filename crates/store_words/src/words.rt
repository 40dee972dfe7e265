// Which settings the words give. `clap` finds which of them are named and with which texts, and the texts are read here.
ghost use Rattle.std.specs.Prelude.{◌≡◌, ◌≢◌, ◌≤◌, ℕ, List, IfErr, IfOk, IfSome, MatchOption, Option, map, option_map};
ghost use Rattle.std.specs.String.{string_bytes};
ghost use Rattle.clap.specs.Words.{app_of, first_value, found_of, kind_of};
ghost use Rattle.store_words.specs.Words.{IsValue, IsWords, Gives};
ghost use Rattle.store_words.specs.Options.{AreSettings, declared};

use clap::error::ErrorKind;
use clap::{Arg, ArgMatches, Command, Error};
use std::alloc::{AllocError, Global};

/// How a session keeps its grammar small.
#[derive(Clone, Copy, Debug, PartialEq, Eq)]
pub struct Settings {
    /// The greatest rank of a new rule, 1 to 8.
    pub rank: usize,
    /// After how many accepted edits the grammar is settled. Nought means never.
    pub repair: u64,
}

/// Why words give no settings.
#[derive(Clone, Copy, Debug, PartialEq, Eq)]
pub enum WordsError {
    /// They aren't words of the program.
    Bad,
    Memory,
}

/// The settings that the words behind the program's name give: `--rank V`, `--rank=V`, `--repair V` or `--repair=V`, each setting
/// at most once, where V is one to seven digits. A last word `--` means nothing. A setting that isn't named is 4 for the rank,
/// which is 1 to 8, and 1 for the repair, which is at most 1,000,000. Bad where the words are none of that.
pub fn read_settings(alloc: Global, words: &[String]) -> Result<Settings, WordsError>
    ensures given { IfOk result (λ s. IsWords (map string_bytes words.now) s.rank s.repair) }
    ensures rank { IfOk result (λ s. (1 ≤ s.rank) × (s.rank ≤ 8)) }
    ensures bad { IfErr result (λ e. e ≡ WordsError.Bad → (rank repair : ℕ) → IsWords (map string_bytes words.now) rank repair → ⊥) }
{
    let Ok(command) = command(alloc) else {
        return Err(WordsError::Memory);
    };
    let matches = match command.try_get_matches_from(words) {
        Ok(matches) => matches,
        Err(error) => return Err(words_error(&error)),
    };
    match settings_of(&matches) {
        Some(settings) => Ok(settings),
        None => Err(WordsError::Bad),
    }
}

/// Two options with one value each, and nothing else: no help, no version.
fn command<'a>(alloc: Global) -> Result<Command<'a>, AllocError>
    ensures { IfOk result (λ c. app_of c ≡ declared) }
{
    let rank = Arg::new(alloc, "rank").long("rank");
    let repair = Arg::new(alloc, "repair").long("repair");
    Command::new(alloc, "treestore")
        .no_binary_name(true)
        .disable_help_flag(true)
        .arg(rank)?
        .arg(repair)
}

/// Every error but want of memory is one in the words.
fn words_error(error: &Error) -> WordsError
    ensures { result ≡ WordsError.Bad → kind_of error.now ≢ ErrorKind.OutOfMemory }
{
    if error.kind() == ErrorKind::OutOfMemory {
        WordsError::Memory
    } else {
        WordsError::Bad
    }
}

/// The settings, by the texts that were found for them.
fn settings_of(matches: &ArgMatches<'_>) -> Option<Settings>
    ensures exact { MatchOption result ((rank repair : ℕ) → AreSettings (first_value (found_of matches.now)) rank repair → ⊥)
        (λ s. AreSettings (first_value (found_of matches.now)) s.rank s.repair) }
    ensures rank { IfSome result (λ s. (1 ≤ s.rank) × (s.rank ≤ 8)) }
{
    let rank = setting(matches.get_str("rank"), 4, 1, 8)?;
    let repair = setting(matches.get_str("repair"), 1, 0, 1_000_000)?;
    Some(Settings {
        rank: rank as usize,
        repair,
    })
}

/// The value of a setting, by the text that is given for it.
fn setting(text: Option<&str>, default: u64, least: u64, most: u64) -> Option<u64>
    requires default { (least ≤ default) × (default ≤ most) }
    ensures exact { MatchOption result ((n : ℕ) → Gives (option_map (λ t. t.now) text.entry) default least most n → ⊥)
        (λ n. Gives (option_map (λ t. t.now) text.entry) default least most n) }
    ensures range { IfSome result (λ n. (least ≤ n) × (n ≤ most)) }
{
    match text {
        Some(text) => value(text, least, most),
        None => Some(default),
    }
}

/// A number of one to seven decimal digits, without a sign.
fn value(text: &str, least: u64, most: u64) -> Option<u64>
    ensures exact { MatchOption result ((n : ℕ) → IsValue least most text.now n → ⊥) (IsValue least most text.now) }
    ensures range { IfSome result (λ n. (least ≤ n) × (n ≤ most)) }
{
    if text.len() > 7 || text.starts_with('+') {
        return None;
    }
    let number: u64 = text.parse().ok()?;
    if least <= number && number <= most {
        Some(number)
    } else {
        None
    }
}
