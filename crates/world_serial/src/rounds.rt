ghost use Rattle.std.specs.Prelude.{◌≡◌, ◌<◌, IfOk, OnOk};
ghost use Rattle.typed_program.specs.Typed.{Typed};
ghost use Rattle.world_serial.specs.Fitting.{IsFitting};
ghost use Rattle.world_serial.specs.Serial.{FinishesOn, IsStanding, RoundsOn};

use crate::World;
use crate::turns::{reader_turn, slot_turn};
use epl_values::Memory;
use record_book::Settings;
use typed_program::Program;

/// A round: the slots in ascending order, and then the reader, have a turn each. Tells whether anything was handled.
fn round(
    world: &mut World,
    program: &Program,
    settings: Settings,
    takes: bool,
) -> Result<bool, Memory>
    requires typed { Typed program.now }
    requires some { 0 < settings.contexts }
    requires standing { IsStanding program.now settings world.old }
    requires fitting { IsFitting program.now world.old }
    ensures { IfOk result (λ handled. RoundsOn program.now settings takes world.old world.new handled) }
{
    let mut handled = false;
    'slots: for slot in 0..settings.contexts {
        let found = slot_turn(world, program, settings, slot)?;
        handled |= found;
    }
    let found = reader_turn(world, program, settings, takes)?;
    Ok(handled | found)
}

/// Rounds until one handles nothing.
pub fn run_rounds(
    world: &mut World,
    program: &Program,
    settings: Settings,
    takes: bool,
) -> Result<(), Memory>
    requires typed { Typed program.now }
    requires some { 0 < settings.contexts }
    requires standing { IsStanding program.now settings world.old }
    requires fitting { IsFitting program.now world.old }
    ensures { OnOk result (FinishesOn program.now settings takes world.old world.new) }
{
    'rounds: loop {
        if !round(world, program, settings, takes)? {
            return Ok(());
        }
    }
}
