ghost use Rattle.std.specs.Prelude.{◌≡◌, ◌≤◌, length, map, string_bytes, codes, IfSome};
ghost use Rattle.std.specs.List.{list_all};
ghost use Rattle.std.specs.Option.{option_map};
ghost use Rattle.run_words.specs.Words.{cut, file_of, is_file_word, named_by, named_in, number_of, programs_of, settings_of, value_of, values_of};
ghost use Rattle.run_words.specs.Steps.{InRange, named_as};

use crate::numbers::number_in;
use crate::options::{behind_options, flag_of, is_file_word, value_of};
use record_book::Settings;

/// What words name, where they stand.
#[derive(Clone, Copy)]
pub struct Named<'a> {
    pub events: &'a str,
    pub programs: &'a [String],
    pub settings: Settings,
    pub serial: bool,
    pub schedule: Option<&'a str>,
}

/// The file that an option names, if it is given.
fn file_of<'a>(words: &'a [String], name: &str) -> Option<Option<&'a str>>
    ensures { option_map (λ found. option_map (λ v. v.now) found) result ≡ file_of (value_of (values_of name.now (cut (map string_bytes words.now)).given)) }
{
    match value_of(words, name)? {
        None => Some(None),
        Some(file) => {
            if is_file_word(file) {
                Some(Some(file))
            } else {
                None
            }
        }
    }
}

/// The number that an option gives, or `default`.
fn number_of(words: &[String], name: &str, most: u32, default: u32) -> Option<u32>
    requires { (most ≤ 20000000) × (1 ≤ default) × (default ≤ most) }
    ensures number { result ≡ number_of most default (value_of (values_of name.now (cut (map string_bytes words.now)).given)) }
    ensures bounds { IfSome result (λ number. (1 ≤ number) × (number ≤ most)) }
{
    match value_of(words, name)? {
        None => Some(default),
        Some(word) => number_in(most, word),
    }
}

fn settings_of(words: &[String]) -> Option<Settings>
    ensures settings { result ≡ settings_of (cut (map string_bytes words.now)).given }
    ensures ranges { IfSome result InRange }
{
    let fuel = number_of(words, "--fuel", 20_000_000, 1_000_000)?;
    let contexts = number_of(words, "--contexts", 32, 32)?;
    let mailbox = number_of(words, "--mailbox", 65_536, 256)?;
    Some(Settings {
        fuel: u64::from(fuel),
        contexts: contexts as u8,
        mailbox,
    })
}

fn are_file_words(words: &[String]) -> bool
    ensures { result ≡ list_all is_file_word (map string_bytes words.now) }
{
    words.iter().all(|word| is_file_word(word.as_str()))
}

fn programs_of(words: &[String]) -> Option<&[String]>
    ensures programs { option_map (λ programs. map string_bytes programs.now) result ≡ programs_of (map string_bytes words.now) }
    ensures few { IfSome result (λ programs. length programs.now ≤ 64) }
{
    if are_file_words(words) && (1 <= words.len() && words.len() <= 64) {
        Some(words)
    } else {
        None
    }
}

fn named_by(words: &[String]) -> Option<Named<'_>>
    ensures named { option_map (λ n. named_as n.events.now (map string_bytes n.programs.now) n.settings n.serial (option_map (λ v. v.now) n.schedule)) result ≡ named_by (cut (map string_bytes words.now)) }
    ensures ranges { IfSome result (λ n. InRange n.settings) }
    ensures few { IfSome result (λ n. length n.programs.now ≤ 64) }
{
    let behind = behind_options(words)?;
    let serial = flag_of(words, "--serial")?;
    let schedule = file_of(words, "--schedule")?;
    let events = file_of(words, "--events")??;
    let settings = settings_of(words)?;
    let programs = programs_of(behind)?;
    if serial && schedule.is_some() {
        return None;
    }
    Some(Named {
        events,
        programs,
        settings,
        serial,
        schedule,
    })
}

/// What the words of a command line name, if they are a command.
pub fn named_in(words: &[String]) -> Option<Named<'_>>
    ensures named { option_map (λ n. named_as n.events.now (map string_bytes n.programs.now) n.settings n.serial (option_map (λ v. v.now) n.schedule)) result ≡ named_in (map string_bytes words.now) }
    ensures ranges { IfSome result (λ n. InRange n.settings) }
    ensures few { IfSome result (λ n. length n.programs.now ≤ 64) }
{
    let [command, rest @ ..] = words else {
        return None;
    };
    if command.as_str() == "run" {
        named_by(rest)
    } else {
        None
    }
}
