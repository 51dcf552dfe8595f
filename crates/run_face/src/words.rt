ghost use Rattle.std.specs.Prelude.{◌≡◌, ◌≤◌, ◌<◌, map, string_bytes, Some, MatchOption, IfSome, IfOk};
ghost use Rattle.std.specs.List.{list_all};
ghost use Rattle.std.specs.Option.{option_map};
ghost use Rattle.run_face.specs.Files.{named_of};
ghost use Rattle.run_face.specs.Words.{TellsWords, are_programs, files_behind, fuel_behind, fuel_in, is_digit, is_file_word, is_number, most_fuel, named_files, number_behind};

use epl_values::{Memory, Text, Texts};
use record_book::Settings;
use std::alloc::Global;
use thiserror::Error;

/// What the words of a run name.
#[derive(Drop)]
pub struct RunWords {
    /// The name of the event file.
    pub events: Text,
    /// The names of the program files, in order.
    pub programs: Texts,
    pub settings: Settings,
}

/// Why words are refused.
#[derive(Clone, Copy, Debug, PartialEq, Eq, Error)]
pub enum WordsFault {
    #[error("the words are no command")]
    Usage,
    #[error("no memory")]
    Memory,
}

impl From<Memory> for WordsFault {
    ghost use Rattle.std.specs.Prelude.{◌≡◌};
    ghost use Rattle.run_face.specs.declared.words.WordsFault.TheVariants.{Memory as NoMemory};

    ghost from_gives = { λ _ e. e ≡ NoMemory };

    fn from(_: Memory) -> WordsFault {
        WordsFault::Memory
    }
}

/// The event file, the program files and the fuel that words name.
#[derive(Clone, Copy)]
struct Files<'a> {
    events: &'a str,
    programs: &'a [String],
    fuel: u64,
}

fn is_digit(byte: u8) -> bool
    ensures { result ≡ is_digit byte }
{
    b'0' <= byte && byte <= b'9'
}

fn are_digits(word: &[u8]) -> bool
    ensures { result ≡ list_all is_digit word.now }
{
    word.iter().all(|byte| is_digit(*byte))
}

fn is_number(word: &str) -> bool
    ensures { result ≡ is_number word.now }
{
    match word.as_bytes() {
        [] => false,
        [first, ..] => are_digits(word.as_bytes()) && *first != b'0',
    }
}

/// What digits count, if it is at most 20,000,000.
fn number_within(word: &str) -> Option<u64>
    ensures { MatchOption result (most_fuel < number_behind 0 word.now) (λ number. (number ≡ number_behind 0 word.now) × (number ≤ most_fuel)) }
{
    let mut number: u64 = 0;
    'digits: for byte in word.as_bytes() {
        number = 10 * number + u64::from(byte.saturating_sub(b'0'));
        if number > 20_000_000 {
            return None;
        }
    }
    Some(number)
}

fn fuel_in(word: &str) -> Option<u64>
    ensures fuel { result ≡ fuel_in word.now }
    ensures bounds { IfSome result (λ fuel. (1 ≤ fuel) × (fuel ≤ 20000000)) }
{
    if is_number(word) {
        number_within(word)
    } else {
        None
    }
}

fn is_file_word(word: &str) -> bool
    ensures { result ≡ is_file_word word.now }
{
    match word.as_bytes() {
        [] => false,
        [first, ..] => *first != b'-',
    }
}

fn are_file_words(words: &[String]) -> bool
    ensures { result ≡ list_all is_file_word (map string_bytes words.now) }
{
    words.iter().all(|word| is_file_word(word.as_str()))
}

fn are_programs(words: &[String]) -> bool
    ensures { result ≡ are_programs (map string_bytes words.now) }
{
    are_file_words(words) && (1 <= words.len() && words.len() <= 64)
}

fn files_behind(fuel: Option<u64>, words: &[String]) -> Option<Files<'_>>
    ensures files { option_map (λ f. named_of f.events.now (map string_bytes f.programs.now) f.fuel) result ≡ files_behind fuel (map string_bytes words.now) }
    ensures fuel { IfSome result (λ f. fuel ≡ Some f.fuel) }
{
    let Some(fuel) = fuel else {
        return None;
    };
    let [option, events, programs @ ..] = words else {
        return None;
    };
    let are_files = is_file_word(events.as_str()) && are_programs(programs);
    if option.as_str() == "--events" && are_files {
        Some(Files {
            events: events.as_str(),
            programs,
            fuel,
        })
    } else {
        None
    }
}

fn fuel_behind(words: &[String]) -> Option<Files<'_>>
    ensures files { option_map (λ f. named_of f.events.now (map string_bytes f.programs.now) f.fuel) result ≡ fuel_behind (map string_bytes words.now) }
    ensures bounds { IfSome result (λ f. (1 ≤ f.fuel) × (f.fuel ≤ 20000000)) }
{
    let [option, fuel, rest @ ..] = words else {
        return None;
    };
    if option.as_str() == "--fuel" {
        files_behind(fuel_in(fuel.as_str()), rest)
    } else {
        files_behind(Some(1_000_000), words)
    }
}

fn named_files(words: &[String]) -> Option<Files<'_>>
    ensures files { option_map (λ f. named_of f.events.now (map string_bytes f.programs.now) f.fuel) result ≡ named_files (map string_bytes words.now) }
    ensures bounds { IfSome result (λ f. (1 ≤ f.fuel) × (f.fuel ≤ 20000000)) }
{
    let [command, mode, rest @ ..] = words else {
        return None;
    };
    if command.as_str() == "run" && mode.as_str() == "--serial" {
        fuel_behind(rest)
    } else {
        None
    }
}

fn copy_names(alloc: Global, names: &[String]) -> Result<Texts, Memory>
    ensures { IfOk result (λ texts. texts ≡ map string_bytes names.now) }
{
    let mut texts = Texts::new(alloc);
    'names: for name in names {
        texts.push(Text::of(alloc, name.as_str())?)?;
    }
    Ok(texts)
}

fn settings_of(fuel: u64) -> Settings
    ensures fuel { result.fuel ≡ fuel }
    ensures contexts { result.contexts ≡ 32 }
    ensures mailbox { result.mailbox ≡ 256 }
{
    Settings {
        fuel,
        contexts: 32,
        mailbox: 256,
    }
}

/// Reads the words of a command line without the program's own name: `run --serial [--fuel N] --events FILE PROGRAM...`.
/// The name of a file isn't empty and doesn't begin with `-`; 1 to 64 program files are named. `N` is a decimal number
/// without a leading 0, from 1 to 20,000,000, the fuel of each context; without it this is 1,000,000. `Usage` exactly where
/// the words are others.
pub fn read_words(alloc: Global, words: &[String]) -> Result<RunWords, WordsFault>
    ensures told { TellsWords (map string_bytes words.now) result }
    ensures fuel { IfOk result (λ w. (1 ≤ w.settings.fuel) × (w.settings.fuel ≤ 20000000)) }
    ensures contexts { IfOk result (λ w. w.settings.contexts ≡ 32) }
{
    let Some(files) = named_files(words) else {
        return Err(WordsFault::Usage);
    };
    let events = Text::of(alloc, files.events)?;
    let programs = copy_names(alloc, files.programs)?;
    Ok(RunWords {
        events,
        programs,
        settings: settings_of(files.fuel),
    })
}
