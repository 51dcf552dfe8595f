ghost use Rattle.std.specs.Prelude.{◌≡◌, ◌<◌, ◌≤◌, length, map, nat_eq, string_bytes, IfOk, IfSome};
ghost use Rattle.std.specs.List.{AllByRecursion};
ghost use Rattle.outside.specs.Counts.{Counts};
ghost use Rattle.outside.specs.Told.{files_of};
ghost use Rattle.typed_program.specs.Typed.{Typed};
ghost use Rattle.record_book.specs.Fits.{ItemsFit};
ghost use Rattle.evt_text.specs.Forms.{AreEventTypes};
ghost use Rattle.run_face.specs.Words.{settings_of};
ghost use Rattle.correlator_run.specs.Causes.{file_of};
ghost use Rattle.correlator_run.specs.Steps.{FileRead, IsRefusal, ItemsTold, Loads, ProgramTold, TextsRead, WordsRead, code_of, named_of};

use crate::Refusal;
use epl_values::{Bytes, List, Memory, Text, Texts};
use evt_reader::{LineFault, items};
use outside::{FileFault, Shelf, read_whole};
use program_reader::{ProgramFault, program_from};
use record_book::Items;
use run_face::{RunWords, WordsFault, read_words};
use std::alloc::Global;
use typed_program::Program;

/// The most bytes of an event file.
const MOST_EVENTS: usize = 8_388_608;

/// The most bytes of a program file.
const MOST_PROGRAM: usize = 131_072;

/// What a run is made from.
#[derive(Drop)]
pub struct Input {
    pub named: RunWords,
    pub program: Program,
    pub items: Items,
}

#[tactic(auto, using(crate::proofs::Wording::words_read))]
fn words_of(alloc: Global, words: &[String]) -> Result<RunWords, Refusal>
    ensures read { WordsRead (map string_bytes words.now) result }
    ensures few { IfOk result (λ w. length w.programs ≤ 64) }
    ensures fuel { IfOk result (λ w. w.settings.fuel ≤ 20000000) }
    ensures contexts { IfOk result (λ w. w.settings.contexts ≡ 32) }
{
    match read_words(alloc, words) {
        Ok(named) => Ok(named),
        Err(WordsFault::Usage) => Err(Refusal::Words),
        Err(WordsFault::Memory) => Err(Refusal::Memory),
    }
}

/// The bytes of a file, at most so many.
fn file<H: Shelf>(alloc: Global, shelf: &mut H, name: &Text, most: usize) -> Result<Bytes, Refusal>
    ensures read { FileRead (files_of (H.told shelf.old)) (H.told shelf.new) name.now most result }
    ensures within { IfOk result (λ bytes. length bytes ≤ most) }
    ensures files { files_of (H.told shelf.new) ≡ files_of (H.told shelf.old) }
    ensures faults { Counts (nat_eq (code_of result) 5) (H.faults shelf.old) (H.faults shelf.new) }
    ensures missed { Counts (nat_eq (code_of result) 8) (H.missed shelf.old) (H.missed shelf.new) }
{
    let own_name = Text::of(alloc, name.as_str())?;
    match read_whole(alloc, shelf, name.as_str(), most) {
        Ok(bytes) => Ok(bytes),
        Err(FileFault::Missing) => Err(Refusal::Missing(own_name)),
        Err(FileFault::Read) => Err(Refusal::Read(own_name)),
        Err(FileFault::TooLong) => Err(Refusal::TooLong(own_name)),
        Err(FileFault::Memory) => Err(Refusal::Memory),
    }
}

/// The bytes of the program files, in order.
fn texts_of<H: Shelf>(alloc: Global, shelf: &mut H, names: &Texts) -> Result<List<Bytes>, Refusal>
    ensures read { TextsRead (files_of (H.told shelf.old)) (H.told shelf.new) names.now result }
    ensures short { IfOk result (AllByRecursion (λ text. length text < 4294967295)) }
    ensures count { IfOk result (λ texts. length texts ≤ length names.now) }
    ensures files { files_of (H.told shelf.new) ≡ files_of (H.told shelf.old) }
    ensures faults { Counts (nat_eq (code_of result) 5) (H.faults shelf.old) (H.faults shelf.new) }
    ensures missed { Counts (nat_eq (code_of result) 8) (H.missed shelf.old) (H.missed shelf.new) }
{
    let mut texts = List::new(alloc);
    'names: for name in names.as_slice() {
        let text = file(alloc, shelf, name, MOST_PROGRAM)?;
        texts.push(text)?;
    }
    Ok(texts)
}

/// The place of the program file in which a fault is; want of memory is in none.
fn file_of(why: ProgramFault) -> Option<usize>
    ensures { result ≡ file_of why }
{
    match why {
        ProgramFault::Lex(file, _) => Some(file as usize),
        ProgramFault::Syntax(file, _) => Some(file as usize),
        ProgramFault::Typing(_, file, _) => Some(file as usize),
        ProgramFault::Unbuilt(file, _) => Some(file as usize),
        ProgramFault::Memory => None,
    }
}

/// The refusal of program files for this cause, by the name of the file in which it is.
fn refusal_of(alloc: Global, names: &Texts, why: ProgramFault) -> Result<Refusal, Memory>
    requires { IfSome (file_of why) (λ file. file < length names.now) }
    ensures { IfOk result (IsRefusal names.now why) }
{
    match file_of(why) {
        None => Ok(Refusal::Memory),
        Some(file) => {
            let name = Text::of(alloc, names.as_slice()[file].as_str())?;
            Ok(Refusal::Program(name, why))
        }
    }
}

#[tactic(auto, using(crate::proofs::Faults::told_refused))]
fn program_of(alloc: Global, names: &Texts, texts: &List<Bytes>) -> Result<Program, Refusal>
    requires short { AllByRecursion (λ text. length text < 4294967295) texts.now }
    requires few { length texts.now ≤ 64 }
    requires named { length texts.now ≤ length names.now }
    ensures told { ProgramTold texts.now names.now result }
    ensures typed { IfOk result Typed }
    ensures types { IfOk result (λ p. AreEventTypes p.types) }
    ensures monitors { IfOk result (λ p. length p.monitors ≤ 65535) }
{
    match program_from(alloc, texts) {
        Ok(program) => Ok(program),
        Err(why) => Err(refusal_of(alloc, names, why)?),
    }
}

fn items_of(alloc: Global, name: &Text, program: &Program, bytes: &[u8]) -> Result<Items, Refusal>
    requires types { AreEventTypes program.now.types }
    requires few { length bytes.now ≤ 8388608 }
    ensures told { ItemsTold program.now.types bytes.now name.now result }
    ensures fits { IfOk result (λ items. ItemsFit program.now items) }
{
    let own_name = Text::of(alloc, name.as_str())?;
    match items(alloc, program, bytes) {
        Ok(items) => Ok(items),
        Err(LineFault::Line(line)) => Err(Refusal::Events(own_name, line)),
        Err(LineFault::Memory) => Err(Refusal::Memory),
    }
}

/// The program and the items that the words and the files give.
pub fn load<H: Shelf>(alloc: Global, words: &[String], shelf: &mut H) -> Result<Input, Refusal>
    ensures loads { Loads (λ x. (named_of x.named, (x.program, x.items))) (map string_bytes words.now) (files_of (H.told shelf.old)) (H.told shelf.new) result }
    ensures typed { IfOk result (λ x. Typed x.program) }
    ensures fits { IfOk result (λ x. ItemsFit x.program x.items) }
    ensures monitors { IfOk result (λ x. length x.program.monitors ≤ 65535) }
    ensures settings { IfOk result (λ x. x.named.settings ≡ settings_of (named_of x.named)) }
    ensures fuel { IfOk result (λ x. x.named.settings.fuel ≤ 20000000) }
    ensures contexts { IfOk result (λ x. x.named.settings.contexts ≡ 32) }
    ensures faults { Counts (nat_eq (code_of result) 5) (H.faults shelf.old) (H.faults shelf.new) }
    ensures missed { Counts (nat_eq (code_of result) 8) (H.missed shelf.old) (H.missed shelf.new) }
{
    let named = words_of(alloc, words)?;
    let events = file(alloc, shelf, &named.events, MOST_EVENTS)?;
    let texts = texts_of(alloc, shelf, &named.programs)?;
    let program = program_of(alloc, &named.programs, &texts)?;
    let items = items_of(alloc, &named.events, &program, events.as_slice())?;
    Ok(Input {
        named,
        program,
        items,
    })
}
