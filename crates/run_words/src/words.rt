ghost use Rattle.std.specs.Prelude.{◌≡◌, ◌≤◌, length, map, string_bytes, IfOk};
ghost use Rattle.std.specs.Option.{option_map};
ghost use Rattle.run_words.specs.Words.{TellsWords};

use crate::naming::{Named, named_in};
use epl_values::{Memory, Text, Texts};
use record_book::Settings;
use std::alloc::Global;
use thiserror::Error;

/// What the words of a run name.
#[derive(Drop)]
pub struct RunWords {
    /// The name of the event file.
    pub events: Text,
    /// The names of the program files, in order.
    pub programs: Texts,
    pub settings: Settings,
    /// Whether one thread runs all contexts.
    pub serial: bool,
    /// The name of the schedule file.
    pub schedule: Option<Text>,
}

/// Why words are refused.
#[derive(Clone, Copy, Debug, PartialEq, Eq, Error)]
pub enum WordsFault {
    #[error("the words are no command")]
    Usage,
    #[error("no memory")]
    Memory,
}

impl From<Memory> for WordsFault {
    ghost use Rattle.std.specs.Prelude.{◌≡◌};
    ghost use Rattle.run_words.specs.declared.words.WordsFault.TheVariants.{Memory as NoMemory};

    ghost from_gives = { λ _ e. e ≡ NoMemory };

    fn from(_: Memory) -> WordsFault {
        WordsFault::Memory
    }
}

fn copy_names(alloc: Global, names: &[String]) -> Result<Texts, Memory>
    ensures texts { IfOk result (λ texts. texts ≡ map string_bytes names.now) }
    ensures count { IfOk result (λ texts. length texts ≡ length names.now) }
{
    let mut texts = Texts::new(alloc);
    'names: for name in names {
        texts.push(Text::of(alloc, name.as_str())?)?;
    }
    Ok(texts)
}

fn copy_name(alloc: Global, name: Option<&str>) -> Result<Option<Text>, Memory>
    ensures { IfOk result (λ text. text ≡ option_map (λ n. n.now) name.entry) }
{
    match name {
        None => Ok(None),
        Some(name) => Ok(Some(Text::of(alloc, name)?)),
    }
}

fn owned(alloc: Global, named: &Named<'_>) -> Result<RunWords, Memory>
    ensures events { IfOk result (λ w. w.events ≡ named.now.events.now) }
    ensures programs { IfOk result (λ w. w.programs ≡ map string_bytes named.now.programs.now) }
    ensures count { IfOk result (λ w. length w.programs ≡ length named.now.programs.now) }
    ensures settings { IfOk result (λ w. w.settings ≡ named.now.settings) }
    ensures serial { IfOk result (λ w. w.serial ≡ named.now.serial) }
    ensures schedule { IfOk result (λ w. w.schedule ≡ option_map (λ n. n.now) named.now.schedule) }
{
    let events = Text::of(alloc, named.events)?;
    let programs = copy_names(alloc, named.programs)?;
    let schedule = copy_name(alloc, named.schedule)?;
    Ok(RunWords {
        events,
        programs,
        settings: named.settings,
        serial: named.serial,
        schedule,
    })
}

/// Reads the words of a command line without the program's own name: `run [--serial] [--schedule FILE] [--fuel N] [--contexts N]
/// [--mailbox N] --events FILE PROGRAM...`. Options stand in any order, each at most once, before the programs; `--serial` and
/// `--schedule` exclude each other. The name of a file isn't empty and doesn't begin with `-`; 1 to 64 program files are named.
/// `N` is a decimal number without a leading 0: the fuel of each context, from 1 to 20,000,000, else 1,000,000; the number of
/// contexts, from 1 to 32, else 32; the entries that a mailbox holds, from 1 to 65,536, else 256. `Usage` exactly where the words
/// are others.
pub fn read_words(alloc: Global, words: &[String]) -> Result<RunWords, WordsFault>
    ensures told { TellsWords (map string_bytes words.now) result }
    ensures fuel { IfOk result (λ w. (1 ≤ w.settings.fuel) × (w.settings.fuel ≤ 20000000)) }
    ensures contexts { IfOk result (λ w. (1 ≤ w.settings.contexts) × (w.settings.contexts ≤ 32)) }
    ensures mailbox { IfOk result (λ w. (1 ≤ w.settings.mailbox) × (w.settings.mailbox ≤ 65536)) }
    ensures few { IfOk result (λ w. length w.programs ≤ 64) }
{
    let Some(named) = named_in(words) else {
        return Err(WordsFault::Usage);
    };
    Ok(owned(alloc, &named)?)
}
