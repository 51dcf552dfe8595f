use crate::Refusal;
use epl_values::Text;
use itoa::Buffer;
use outside::{Sink, put_all};
use program_reader::ProgramFault;

/// Puts the parts of a line, one after another, as far as the sink takes them; whether it took them all.
fn tells<V: Sink>(err: &mut V, parts: &[&str]) -> bool {
    for part in parts {
        if put_all(err, part.as_bytes()).is_err() {
            return false;
        }
    }
    true
}

/// Puts the parts of a line, one after another, as far as the sink takes them.
fn tell<V: Sink>(err: &mut V, parts: &[&str]) {
    tells(err, parts);
}

/// Tells a place in a program file; whether all of it was taken.
fn tell_place<V: Sink>(err: &mut V, name: &Text, line: u32) -> bool {
    let mut buffer = Buffer::new();
    let line = buffer.format(line);
    tells(
        err,
        &["epl: program refused: ", name.as_str(), ":", line, ": "],
    )
}

/// Tells a typing fault.
fn tell_code<V: Sink>(err: &mut V, code: u8) {
    let mut buffer = Buffer::new();
    let code = buffer.format(code);
    tell(err, &["type ", code, "\n"]);
}

/// Tells why the program files have no program; the fault is in the file of this name.
fn tell_program<V: Sink>(err: &mut V, name: &Text, why: ProgramFault) {
    match why {
        ProgramFault::Lex(_, spot) => {
            if tell_place(err, name, spot.line) {
                tell(err, &["lex\n"]);
            }
        }
        ProgramFault::Syntax(_, spot) => {
            if tell_place(err, name, spot.line) {
                tell(err, &["syntax\n"]);
            }
        }
        ProgramFault::Typing(code, _, spot) => {
            if tell_place(err, name, spot.line) {
                tell_code(err, code);
            }
        }
        ProgramFault::Unbuilt(_, spot) => {
            if tell_place(err, name, spot.line) {
                tell(err, &["unbuilt\n"]);
            }
        }
        ProgramFault::Memory => {
            tell(err, &["epl: no memory\n"]);
        }
    }
}

/// Tells why there is no run, in one line.
pub fn tell_refusal<V: Sink>(err: &mut V, why: &Refusal) {
    match why {
        Refusal::Words => tell(err, &["epl: the words are no command\n"]),
        Refusal::Missing(name) => tell(err, &["epl: missing file: ", name.as_str(), "\n"]),
        Refusal::Read(name) => tell(err, &["epl: read fault: ", name.as_str(), "\n"]),
        Refusal::TooLong(name) => tell(err, &["epl: file too long: ", name.as_str(), "\n"]),
        Refusal::Program(name, why) => tell_program(err, name, *why),
        Refusal::Events(name, line) => {
            let mut buffer = Buffer::new();
            let line = buffer.format(*line);
            tell(
                err,
                &["epl: event file refused: ", name.as_str(), ":", line, "\n"],
            );
        }
        Refusal::Memory => tell(err, &["epl: no memory\n"]),
    }
}

/// Tells that a context is spent.
pub fn tell_spent<V: Sink>(err: &mut V) {
    tell(err, &["epl: fuel spent\n"]);
}

/// Tells that the report could not be written.
pub fn tell_write_fault<V: Sink>(err: &mut V) {
    tell(err, &["epl: write fault\n"]);
}
