ghost use Rattle.std.specs.Prelude.{◌≡◌, ◌+◌, ◌-◌, ◌^◌, min, sum_by, OnOk, Ok};
ghost use Rattle.value_rules.specs.Costs.{cost_of};
ghost use Rattle.body_meaning.specs.declared.run.Frame.{Frame};
ghost use Rattle.body_meaning.specs.Runs.{charge, perform};
ghost use Rattle.body_meaning.specs.Values.{letters_of, truth_of, birth_of};
ghost use Rattle.body_meaning.specs.Methods.{quit};
ghost use Rattle.body_meaning.specs.Effects.{print, log, route, channel_cost, send_channel, send_context, send, taken_along, spawn_here, spawn_there, subscribe, unsubscribe, context_cost, make, make_context, current, starting, listen_cost, listen};
ghost use Rattle.walk_rules.specs.Ran.{Walks};
ghost use Rattle.walk_rules.specs.Contexts.{public_of};

use crate::stop::Stop;
use action_host::{Answer, Effect, Fault, Host, Text, Value, Values};
use body_meaning::Halt;
use std::alloc::Global;
use typed_program::Term;
use value_rules::cost;

// ---- fuel and effects

/// Takes fuel, and ends where there is less. An amount that is cut off at the greatest number stands for the whole, since
/// fuel is always less.
pub fn pay<H: Host>(host: &mut H, amount: u64) -> Result<(), Stop>
    ensures spends { OnOk result ((H.told host.new).scene.fuel + amount ≡ (H.told host.old).scene.fuel) }
    ensures means { (frame : Frame) → Walks (charge amount) (H.told host.old) frame (H.told host.new) frame result }
    ensures cut { (whole : _) → amount ≡ min (2 ^ 64 - 1) whole → (frame : Frame) → Walks (charge whole) (H.told host.old) frame (H.told host.new) frame result }
{
    if host.charge(amount) {
        Ok(())
    } else {
        Err(Stop::Halted(Halt::Spent))
    }
}

/// Takes the cost of a value.
pub fn pay_cost<H: Host>(host: &mut H, value: &Value) -> Result<(), Stop>
    ensures { (frame : Frame) → Walks (charge (cost_of value.now)) (H.told host.old) frame (H.told host.new) frame result }
{
    pay(host, cost(value))
}

/// Takes an effect, and ends where it fails. No value counts as no context.
pub fn perform<H: Host>(host: &mut H, effect: Effect) -> Result<Value, Stop>
    ensures { (frame : Frame) → Walks (perform effect) (H.told host.old) frame (H.told host.new) frame result }
{
    let answer = host.effect(effect)?;
    match answer {
        Answer::Nothing => Ok(Value::NoContext),
        Answer::Gives(value) => Ok(value),
        Answer::Fails(fault) => Err(Stop::Halted(Halt::Failed(fault))),
    }
}

// ---- what is in a value

/// The text in a value; the empty one where it is no text.
fn letters(alloc: Global, value: Value) -> Text
    ensures { result ≡ letters_of value }
{
    match value {
        Value::Text(text) => text,
        _ => Text::new(alloc),
    }
}

fn truth(value: &Value) -> bool
    ensures { result ≡ truth_of value.now }
{
    match value {
        Value::Boolean(b) => *b,
        _ => false,
    }
}

fn birth(value: &Value) -> u64
    ensures { result ≡ birth_of value.now }
{
    match value {
        Value::Listener(birth) => *birth,
        _ => 0,
    }
}

// ---- texts and events

/// What `print` does.
pub fn print<H: Host>(alloc: Global, host: &mut H, text: Value) -> Result<Value, Stop>
    ensures { (frame : Frame) → Walks (print text) (H.told host.old) frame (H.told host.new) frame result }
{
    pay_cost(host, &text)?;
    perform(host, Effect::Print(letters(alloc, text)))
}

/// What `log` does; the level by its number, from 0 for `CRIT`.
pub fn log<H: Host>(alloc: Global, host: &mut H, level: u8, text: Value) -> Result<Value, Stop>
    ensures { (frame : Frame) → Walks (log level text) (H.told host.old) frame (H.told host.new) frame result }
{
    pay_cost(host, &text)?;
    perform(host, Effect::Log(level, letters(alloc, text)))
}

/// What `route` does.
pub fn route<H: Host>(host: &mut H, event: Value) -> Result<Value, Stop>
    ensures { (frame : Frame) → Walks (route event) (H.told host.old) frame (H.told host.new) frame result }
{
    pay_cost(host, &event)?;
    perform(host, Effect::Route(event))
}

/// What `send` does, to a context or a channel.
pub fn send<H: Host>(host: &mut H, event: Value, to: Value) -> Result<Value, Stop>
    ensures { (frame : Frame) → Walks (send event to) (H.told host.old) frame (H.told host.new) frame result }
{
    match to {
        Value::Context(slot) => send_context(host, event, slot),
        Value::Text(channel) => send_channel(host, event, channel),
        _ => Err(Stop::Halted(Halt::Failed(Fault::NoContext))),
    }
}

fn send_context<H: Host>(host: &mut H, event: Value, slot: u8) -> Result<Value, Stop>
    ensures { (frame : Frame) → Walks (send_context event slot) (H.told host.old) frame (H.told host.new) frame result }
{
    pay_cost(host, &event)?;
    perform(host, Effect::SendTo(slot, event))
}

fn send_channel<H: Host>(host: &mut H, event: Value, channel: Text) -> Result<Value, Stop>
    ensures { (frame : Frame) → Walks (send_channel event channel) (H.told host.old) frame (H.told host.new) frame result }
{
    let amount = channel_cost(host, &event, &channel);
    pay(host, amount)?;
    perform(host, Effect::SendChannel(channel, event))
}

/// The cost for each context that the channel leads to, and at least once.
fn channel_cost<H: Host>(host: &H, event: &Value, channel: &Text) -> u64
    ensures { result ≡ min (2 ^ 64 - 1) (channel_cost event.now channel.now (H.told host.now).scene) }
{
    let targets = (host.targets(channel) as u64).max(1);
    cost(event).saturating_mul(targets)
}

// ---- instances

/// What `spawn` does, in this context: the arguments and the globals, which are charged, and what the new instance takes
/// along of them.
pub fn spawn_here<H: Host>(
    host: &mut H,
    action: u16,
    arguments: &Values,
    globals: &Values,
    along: Values,
) -> Result<Value, Stop>
    requires { along ≡ taken_along arguments.now globals.now }
    ensures { (frame : Frame) → Walks (spawn_here action arguments.now globals.now) (H.told host.old) frame (H.told host.new) frame result }
{
    pay(host, spawn_cost(arguments, globals))?;
    perform(host, Effect::Spawn(action, along))
}

/// The same, in the context of this slot.
pub fn spawn_there<H: Host>(
    host: &mut H,
    action: u16,
    arguments: &Values,
    slot: u8,
    globals: &Values,
    along: Values,
) -> Result<Value, Stop>
    requires { along ≡ taken_along arguments.now globals.now }
    ensures { (frame : Frame) → Walks (spawn_there action arguments.now slot globals.now) (H.told host.old) frame (H.told host.new) frame result }
{
    pay(host, spawn_cost(arguments, globals))?;
    perform(host, Effect::SpawnTo(action, along, slot))
}

/// What arguments and globals cost together, or the greatest number where that is more.
fn spawn_cost(arguments: &Values, globals: &Values) -> u64
    ensures { result ≡ min (2 ^ 64 - 1) (sum_by cost_of arguments.now + sum_by cost_of globals.now) }
{
    let with_arguments = costs(arguments.as_slice());
    with_arguments.saturating_add(costs(globals.as_slice()))
}

fn costs(values: &[Value]) -> u64
    ensures { result ≡ min (2 ^ 64 - 1) (sum_by cost_of values.now) }
{
    let mut total: u64 = 0;
    for value in values {
        total = total.saturating_add(cost(value));
    }
    total
}

// ---- channels, contexts and listeners

/// What `subscribe` does.
pub fn subscribe<H: Host>(alloc: Global, host: &mut H, channel: Value) -> Result<Value, Stop>
    ensures { (frame : Frame) → Walks (subscribe channel) (H.told host.old) frame (H.told host.new) frame result }
{
    let slots = u64::from(host.slots());
    pay(host, 2 * slots)?;
    perform(host, Effect::Subscribe(letters(alloc, channel)))
}

/// What `unsubscribe` does.
pub fn unsubscribe<H: Host>(alloc: Global, host: &mut H, channel: Value) -> Result<Value, Stop>
    ensures { (frame : Frame) → Walks (unsubscribe channel) (H.told host.old) frame (H.told host.new) frame result }
{
    perform(host, Effect::Unsubscribe(letters(alloc, channel)))
}

/// What `context` does with its arguments.
pub fn make_context<H: Host>(
    alloc: Global,
    host: &mut H,
    mut arguments: Values,
) -> Result<Value, Stop>
    ensures { (frame : Frame) → Walks (make_context arguments) (H.told host.old) frame (H.told host.new) frame result }
{
    if arguments.len() == 0 {
        return Ok(Value::NoContext);
    }
    let public = is_public(&arguments);
    let name = arguments.remove(0);
    make(alloc, host, name, public)
}

fn is_public(arguments: &Values) -> bool
    ensures { result ≡ public_of arguments.now }
{
    match arguments.as_slice() {
        [_, public, ..] => truth(public),
        _ => false,
    }
}

fn make<H: Host>(alloc: Global, host: &mut H, name: Value, public: bool) -> Result<Value, Stop>
    ensures { (frame : Frame) → Walks (make name public) (H.told host.old) frame (H.told host.new) frame result }
{
    let amount = context_cost(host, public);
    pay(host, amount)?;
    perform(host, Effect::MakeContext(letters(alloc, name), public))
}

fn context_cost<H: Host>(host: &H, public: bool) -> u64
    ensures { result ≡ context_cost public (H.told host.now).scene }
{
    if public {
        1 + u64::from(host.slots())
    } else {
        1
    }
}

/// What `context.current` gives.
pub fn current<H: Host>(host: &H) -> Value
    ensures { (frame : Frame) → Walks current (H.told host.now) frame (H.told host.now) frame (Ok result) }
{
    Value::Context(host.slot())
}

/// What `on` does at a site: its event expression, how many leaves begin where that starts (or the greatest number, where that
/// is more), the operands, and what the callback takes along.
pub fn listen<H: Host>(
    host: &mut H,
    site: u16,
    term: &Term,
    leaves: u64,
    operands: Values,
    captured: Values,
) -> Result<Value, Stop>
    requires { leaves ≡ min (2 ^ 64 - 1) (starting term.now) }
    ensures { (frame : Frame) → Walks (listen site term.now operands captured) (H.told host.old) frame (H.told host.new) frame result }
{
    let amount = listen_cost(host, term, leaves);
    pay(host, amount)?;
    perform(host, Effect::Listen(site, operands, captured))
}

fn listen_cost<H: Host>(host: &H, term: &Term, leaves: u64) -> u64
    requires { leaves ≡ min (2 ^ 64 - 1) (starting term.now) }
    ensures { result ≡ min (2 ^ 64 - 1) (listen_cost term.now (H.told host.now).scene) }
{
    if host.is_ending() {
        10
    } else {
        leaves.saturating_add(10)
    }
}

/// What `quit` does.
pub fn quit<H: Host>(host: &mut H, listener: &Value) -> Result<Value, Stop>
    ensures { (frame : Frame) → Walks (quit listener.now) (H.told host.old) frame (H.told host.new) frame result }
{
    perform(host, Effect::Quit(birth(listener)))
}
