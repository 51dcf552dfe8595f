ghost use Rattle.std.specs.Prelude.{◌≡◌, ◌≤◌, OnOk};
ghost use Rattle.typed_program.specs.Typed.{Typed};
ghost use Rattle.record_book.specs.Fits.{IsTime};
ghost use Rattle.context_meaning.specs.Ends.{apply, apply_all, listening};

use action_host::Effect;
use context_meaning::Waiting;
use epl_values::{List, Values};
use live_context::LiveContext;
use record_book::Line;
use std::alloc::AllocError;
use typed_program::Program;

/// A listener of an instance begins, where its site is there.
fn listen(
    context: &mut LiveContext,
    program: &Program,
    instance: u64,
    site: u16,
    operands: Values,
    captured: Values,
) -> Result<(), AllocError>
    requires typed { Typed program.now }
    requires begun { instance ≤ context.old.begun }
    requires clock { IsTime context.old.clock }
    ensures { OnOk result (context.new ≡ listening program.now instance site operands captured context.old) }
{
    if (site as usize) < program.sites.len() {
        return context.listen(program, instance, site, operands, captured);
    }
    Ok(())
}

/// Applies an effect of a body of an instance.
fn apply(
    context: &mut LiveContext,
    program: &Program,
    instance: u64,
    ending: bool,
    effect: Effect,
) -> Result<(), AllocError>
    requires typed { Typed program.now }
    requires begun { instance ≤ context.old.begun }
    requires clock { IsTime context.old.clock }
    ensures { OnOk result (context.new ≡ apply program.now instance ending effect context.old) }
{
    match effect {
        Effect::Print(text) => context.print(Line::Print(text)),
        Effect::Log(level, text) => context.print(Line::Log(level, text)),
        Effect::Listen(site, operands, captured) => {
            if ending {
                return Ok(());
            }
            listen(context, program, instance, site, operands, captured)
        }
        Effect::Quit(birth) => {
            context.quit(birth);
            Ok(())
        }
        Effect::Route(event) => context.put_in_row(Waiting::Event(event)),
        _ => Ok(()),
    }
}

/// Applies the effects of a body of an instance, in order.
pub fn apply_all(
    context: &mut LiveContext,
    program: &Program,
    instance: u64,
    ending: bool,
    effects: List<Effect>,
) -> Result<(), AllocError>
    requires typed { Typed program.now }
    requires begun { instance ≤ context.old.begun }
    requires clock { IsTime context.old.clock }
    ensures { OnOk result (context.new ≡ apply_all program.now instance ending effects context.old) }
{
    for effect in effects.into_vec() {
        apply(context, program, instance, ending, effect)?;
    }
    Ok(())
}
