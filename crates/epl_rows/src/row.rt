use anyhow::{Result, bail, ensure};

/// A line of the input: the words of a command, and how its run meets the outside.
#[derive(Clone, Copy)]
pub struct Row<'l> {
    /// The same files in memory, and an output in memory, as the row wants them; without them real files, and an output that
    /// takes all.
    pub made: Option<Made<'l>>,
    pub words: &'l str,
}

/// Files and an output in memory. Calls are counted from 1.
#[derive(Clone, Copy)]
pub struct Made<'l> {
    pub failing_read: Option<u64>,
    pub failing_write: Option<u64>,
    /// How many bytes the output takes at a call, at most.
    pub piece: usize,
    /// How many bytes there is room for; then no call of the files or the output fails as long as there is room.
    pub room: Option<usize>,
    /// A further file of so many signs `#`.
    pub long: Option<(usize, &'l str)>,
}

const PLAIN: Made<'static> = Made {
    failing_read: None,
    failing_write: None,
    piece: 4096,
    room: None,
    long: None,
};

/// The number between these two texts, if that is what the text is.
fn number_in(text: &str, before: &str, behind: &str) -> Option<usize> {
    let rest = text.strip_prefix(before)?;
    rest.strip_suffix(behind)?.parse::<usize>().ok()
}

/// `N bytes in NAME`.
fn long_in(text: &str) -> Option<(usize, &str)> {
    let (count, name) = text.split_once(" bytes in ")?;
    Some((count.parse::<usize>().ok()?, name))
}

/// Takes one setting on.
fn set<'l>(made: &mut Made<'l>, text: &'l str) -> Result<()> {
    if let Some(call) = number_in(text, "read ", " failing") {
        made.failing_read = Some(call as u64);
    } else if let Some(call) = number_in(text, "write ", " failing") {
        made.failing_write = Some(call as u64);
    } else if let Some(bytes) = number_in(text, "pieces of ", " bytes") {
        ensure!(bytes > 0, "a piece has at least one byte");
        made.piece = bytes;
    } else if let Some(bytes) = number_in(text, "room for ", " bytes") {
        made.room = Some(bytes);
    } else if let Some(long) = long_in(text) {
        made.long = Some(long);
    } else {
        bail!("no such setting");
    }
    Ok(())
}

/// What stands between `with ` and `: `: settings with ` and ` between them.
fn made_by(text: &str) -> Result<Made<'_>> {
    let mut made = PLAIN;
    for setting in text.split(" and ") {
        set(&mut made, setting)?;
    }
    Ok(made)
}

impl<'l> Row<'l> {
    /// The row that a line spells: `WORDS`, or `with SETTINGS: WORDS`.
    pub fn from_line(line: &'l str) -> Result<Row<'l>> {
        let Some(rest) = line.strip_prefix("with ") else {
            return Ok(Row {
                made: None,
                words: line,
            });
        };
        let Some((settings, words)) = rest.split_once(": ") else {
            bail!("no words behind the settings");
        };
        let made = Some(made_by(settings)?);
        Ok(Row { made, words })
    }
}
