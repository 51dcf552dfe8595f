ghost use Rattle.std.specs.Prelude.{◌≡◌, ◌++◌, ◌<◌, length, IfErr, OnOk};
ghost use Rattle.std.specs.Option.{option_to_list};
ghost use Rattle.schedule_picks.specs.Picks.{GivesPicks};
ghost use Rattle.schedule_picks.specs.Steps.{TakesLine};
ghost use Rattle.schedule_picks.specs.declared.fault.PicksFault.TheVariants.{Memory};

use crate::PicksFault;
use crate::line::{Pick, pick_in};
use epl_values::List;
use file_lines::{FileLines, without_mark};
use std::alloc::Global;

/// Picks in their order.
pub type Picks = List<Pick>;

fn take_line(contexts: u8, line: &[u8], number: u32, given: &mut Picks) -> Result<(), PicksFault>
    ensures { TakesLine contexts line.now number given.old given.new result }
{
    match pick_in(contexts, line) {
        None => Err(PicksFault::Line(number)),
        Some(None) => Ok(()),
        Some(Some(pick)) => {
            given.push(pick)?;
            Ok(())
        }
    }
}

/// The picks of a schedule file, or the first line that isn't in its form. A line is blank, or holds one or two decimal numbers
/// between blanks, each at most `contexts`: the actor, and the sender whose oldest entry it handles. Lines end as those of
/// event files do, and a byte order mark in front is passed over.
pub fn picks(alloc: Global, bytes: &[u8], contexts: u8) -> Result<Picks, PicksFault>
    requires size { length bytes.now < 4294967295 }
    ensures { GivesPicks contexts bytes.now result }
{
    let mut lines = FileLines {
        rest: without_mark(bytes),
    };
    let mut given = List::new(alloc);
    let mut number: u32 = 0;
    'lines: while let Some(line) = lines.next() {
        number += 1;
        take_line(contexts, line, number, &mut given)?;
    }
    Ok(given)
}
