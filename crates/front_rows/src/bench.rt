//! The lines of the standard input.

use crate::draft::{counted, unescaped};
use crate::outcome::put_number;
use crate::programs::{check_told, program_told, table_told, unit_told};
use crate::tokens::{byte_tokens, text_tokens};
use crate::trees::{part_told, whole_told};
use anyhow::{Result, bail};
use std::alloc::Global;
use std::{fs, mem};

/// Where the text of a row stands in a frame.
const MARK: &str = "@row";

/// What the lines so far leave for the next one.
#[derive(Drop)]
pub struct Bench {
    alloc: Global,
    /// What stands before and behind the text of each row.
    before: Vec<u8>,
    behind: Vec<u8>,
    /// The files before that of the next row.
    files: Vec<Vec<u8>>,
    /// The text that is being put together, and whether a part of it was repeated.
    draft: Vec<u8>,
    long: bool,
}

impl Bench {
    /// No frame, file and text.
    pub fn new(alloc: Global) -> Bench {
        Bench {
            alloc,
            before: Vec::new(alloc),
            behind: Vec::new(alloc),
            files: Vec::new(alloc),
            draft: Vec::new(alloc),
            long: false,
        }
    }

    /// What a line is answered: nothing where it is empty, begins with `#`, or puts a text together.
    pub fn answer(&mut self, rt: &HostRuntime, line: &str) -> Result<String> {
        let alloc = self.alloc;
        let (word, rest) = line.split_once(' ').unwrap_or((line, ""));
        match word {
            "" | "#" => {}
            "frame" => self.set_frame(rt, rest)?,
            "read" => self
                .draft
                .extend_from_slice(fs::read(rt, rest)?.as_slice())?,
            "write" => self
                .draft
                .extend_from_slice(unescaped(alloc, rest)?.as_slice())?,
            "repeat" => self.repeat(rest, false)?,
            "lines" => self.repeat(rest, true)?,
            "part" | "event-part" => return self.part(word, rest),
            _ => {
                let text = self.text(rest)?;
                let long = mem::replace(&mut self.long, false);
                return self.asked(word, text, long);
            }
        }
        Ok(String::new(alloc))
    }

    fn set_frame(&mut self, rt: &HostRuntime, name: &str) -> Result<()> {
        self.before = Vec::new(self.alloc);
        self.behind = Vec::new(self.alloc);
        if name.is_empty() {
            return Ok(());
        }
        let frame = fs::read_to_string(rt, name)?;
        let Some((before, behind)) = frame.as_str().split_once(MARK) else {
            bail!("a frame without its mark");
        };
        self.before.extend_from_slice(before.as_bytes())?;
        self.behind.extend_from_slice(behind.as_bytes())?;
        Ok(())
    }

    /// Adds a part so many times, or so many lines of it, each with its number from 0 at each `#`.
    fn repeat(&mut self, rest: &str, on_lines: bool) -> Result<()> {
        let (times, part) = counted(rest)?;
        let part = unescaped(self.alloc, part)?;
        self.long = true;
        for number in 0..times {
            if !on_lines {
                self.draft.extend_from_slice(part.as_slice())?;
                continue;
            }
            let mut digits = String::new(self.alloc);
            put_number(&mut digits, "", number as usize)?;
            for &byte in part.as_slice() {
                match byte {
                    b'#' => self.draft.extend_from_slice(digits.as_bytes())?,
                    _ => self.draft.push(byte)?,
                }
            }
            self.draft.push(b'\n')?;
        }
        Ok(())
    }

    /// The text put together so far with its end, in the frame.
    fn text(&mut self, end: &str) -> Result<Vec<u8>> {
        let draft = mem::replace(&mut self.draft, Vec::new(self.alloc));
        let mut text = Vec::from_slice(self.alloc, self.before.as_slice())?;
        text.extend_from_slice(draft.as_slice())?;
        text.extend_from_slice(unescaped(self.alloc, end)?.as_slice())?;
        text.extend_from_slice(self.behind.as_slice())?;
        Ok(text)
    }

    /// The answer to a question about a text, which is the last file of those that a program has.
    fn asked(&mut self, question: &str, text: Vec<u8>, long: bool) -> Result<String> {
        let alloc = self.alloc;
        match question {
            "tokens" => text_tokens(alloc, text.as_slice()),
            "bytes" => byte_tokens(alloc, text.as_slice()),
            "type" => part_told(alloc, question, "", 0, text.as_slice()),
            "unit" => unit_told(alloc, text, long),
            "expression" | "event" => whole_told(alloc, question, text.as_slice(), long),
            "file" | "table" | "check" | "program" => {
                self.files.push(text)?;
                if question == "file" {
                    return Ok(String::new(alloc));
                }
                let files = mem::replace(&mut self.files, Vec::new(alloc));
                match question {
                    "table" => table_told(alloc, files.as_slice()),
                    "check" => check_told(alloc, files.as_slice()),
                    _ => program_told(alloc, files.as_slice()),
                }
            }
            _ => bail!("no such word"),
        }
    }

    fn part(&mut self, question: &str, rest: &str) -> Result<String> {
        let Some((name, rest)) = rest.split_once(' ') else {
            bail!("no part and depth");
        };
        let (depth, end) = counted(rest)?;
        let text = self.text(end)?;
        self.long = false;
        part_told(self.alloc, question, name, depth, text.as_slice())
    }
}
