ghost use Rattle.std.specs.Prelude.{◌≡◌, IfOk};
ghost use Rattle.action_host.specs.Scenes.{count_targets};
ghost use Rattle.action_host.specs.Told.{Told, Charges, Takes};

use epl_values::{Text, Value, Values};
use std::alloc::AllocError;

/// A fault of a running program; it ends the instance that it stands in.
#[derive(Clone, Copy, Debug, PartialEq, Eq)]
pub enum Fault {
    /// A result isn't in 64 bits.
    Overflow,
    /// `/` or `%` by 0.
    DivisionByZero,
    /// A place of a sequence that isn't there, or a part of a text.
    IndexOutOfRange,
    /// A key of a dictionary that isn't there.
    MissingKey,
    /// The 257th nested call of an action.
    CallDepth,
    /// A `send` or `spawn` to the default of a context.
    NoContext,
    /// A context is made outside the main one.
    NotMain,
    /// All slots are made.
    TooManyContexts,
    /// A text of more than 1,048,576 bytes would arise.
    TextTooLong,
}

/// What a body does to the context that it runs in.
#[derive(Drop)]
pub enum Effect {
    Print(Text),
    /// The number of the level, from 0 for `CRIT`, and the text.
    Log(u8, Text),
    Route(Value),
    /// The slot of a context, and the event.
    SendTo(u8, Value),
    /// The name of a channel, and the event.
    SendChannel(Text, Value),
    /// The number of an action, and its arguments and then the globals.
    Spawn(u16, Values),
    /// The same, and the slot of the context.
    SpawnTo(u16, Values, u8),
    /// The number of a site, its operands, and the values of the names that its callback takes along.
    Listen(u16, Values, Values),
    /// The birth of a listener.
    Quit(u64),
    Subscribe(Text),
    Unsubscribe(Text),
    /// The name of a context, and whether it takes events without a channel.
    MakeContext(Text, bool),
}

/// What an effect gives.
#[derive(Drop)]
pub enum Answer {
    Nothing,
    Gives(Value),
    Fails(Fault),
}

/// How a body ends.
#[derive(Drop)]
pub enum End {
    /// With the value that it returns, if it returns one.
    Done(Option<Value>),
    Died,
    Failed(Fault),
    /// A charge was more than the fuel.
    Spent,
}

/// The context that a body runs in.
pub trait Host {
    /// The scene, the effects that were taken, and the numbers that were drawn.
    ghost told: { Self → Told };

    /// Takes fuel; `false` exactly where there is less, and then nothing changes.
    fn charge(&mut self, amount: u64) -> bool
        ensures { Charges (told self.old) amount (told self.new) result };

    /// Takes an effect, and answers it.
    fn effect(&mut self, effect: Effect) -> Result<Answer, AllocError>
        ensures { IfOk result (Takes (told self.old) effect (told self.new)) };

    /// How many contexts there are.
    fn slots(&self) -> u8
        ensures { result ≡ (told self.now).scene.slots };

    /// The slot of this context.
    fn slot(&self) -> u8
        ensures { result ≡ (told self.now).scene.slot };

    /// How many contexts a channel leads to.
    fn targets(&self, channel: &Text) -> usize
        ensures { result ≡ count_targets (told self.now).scene channel.now };

    /// Whether `ondie` is running.
    fn is_ending(&self) -> bool
        ensures { result ≡ (told self.now).scene.ending };
}
