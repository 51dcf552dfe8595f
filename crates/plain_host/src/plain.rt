ghost use Rattle.std.specs.Prelude.{◌≡◌, IfOk};
ghost use Rattle.action_host.specs.Scenes.{count_targets, holds};
ghost use Rattle.action_host.specs.Told.{Takes};
ghost use Rattle.action_host.specs.Replies.{unsubscribing};
ghost use Rattle.plain_host.specs.Told.{scene_of, told_of, Keeps};

use crate::counting::{count_of, count_one, count_targets, uncount_one};
use crate::state::PlainHost;
use action_host::{Answer, Effect, Fault, Host};
use epl_values::{Text, Value, Values};
use std::alloc::AllocError;

impl PlainHost {
    /// Takes an effect that is only listed.
    fn keep(&mut self, effect: Effect) -> Result<Answer, AllocError>
        ensures { IfOk result (Keeps self.old effect self.new) }
    {
        self.taken.push(effect)?;
        Ok(Answer::Nothing)
    }

    fn listen(
        &mut self,
        site: u16,
        operands: Values,
        captured: Values,
    ) -> Result<Answer, AllocError>
        ensures { IfOk result (Takes (told_of self.old) (Effect.Listen site operands captured) (told_of self.new)) }
    {
        if self.ending {
            self.taken.push(Effect::Listen(site, operands, captured))?;
            return Ok(Answer::Gives(Value::Listener(0)));
        }
        let Some(births) = self.births.checked_add(1) else {
            return Err(AllocError);
        };
        self.taken.push(Effect::Listen(site, operands, captured))?;
        self.births = births;
        Ok(Answer::Gives(Value::Listener(births)))
    }

    fn subscribe(&mut self, channel: Text) -> Result<Answer, AllocError>
        ensures { IfOk result (Takes (told_of self.old) (Effect.Subscribe channel) (told_of self.new)) }
    {
        count_one(
            self.alloc,
            &mut self.subscriptions,
            channel.as_str(),
            self.slot,
        )?;
        count_one(self.alloc, &mut self.held, channel.as_str(), self.slot)?;
        self.taken.push(Effect::Subscribe(channel))?;
        Ok(Answer::Nothing)
    }

    fn make(&mut self, name: Text, public: bool) -> Result<Answer, AllocError>
        ensures { IfOk result (Takes (told_of self.old) (Effect.MakeContext name public) (told_of self.new)) }
    {
        if self.slot != 0 {
            return Ok(Answer::Fails(Fault::NotMain));
        }
        if self.slots == 0 || self.slots - 1 <= self.made {
            return Ok(Answer::Fails(Fault::TooManyContexts));
        }
        let next = self.made + 1;
        if public {
            count_one(self.alloc, &mut self.subscriptions, "", next)?;
        }
        self.taken.push(Effect::MakeContext(name, public))?;
        self.made = next;
        Ok(Answer::Gives(Value::Context(next)))
    }
}

impl PlainHost {
    /// One subscription less, where one is held.
    fn let_go(&mut self, channel: &str)
        ensures scene { scene_of self.new ≡ unsubscribing channel.now (scene_of self.old) }
        ensures taken { self.new.taken ≡ self.old.taken }
    {
        if self.holds(channel) {
            uncount_one(self.alloc, &mut self.subscriptions, channel, self.slot);
            uncount_one(self.alloc, &mut self.held, channel, self.slot);
        }
    }

    fn holds(&self, channel: &str) -> bool
        ensures { result ≡ holds (scene_of self.now) channel.now }
    {
        0 < count_of(&self.held, channel, self.slot)
    }

    fn unsubscribe(&mut self, channel: Text) -> Result<Answer, AllocError>
        ensures { IfOk result (Takes (told_of self.old) (Effect.Unsubscribe channel) (told_of self.new)) }
    {
        self.let_go(channel.as_str());
        self.taken.push(Effect::Unsubscribe(channel))?;
        Ok(Answer::Nothing)
    }

    fn count(&self, channel: &str) -> usize
        ensures { result ≡ count_targets (scene_of self.now) channel.now }
    {
        count_targets(&self.subscriptions, channel)
    }
}

impl Host for PlainHost {
    ghost use Rattle.plain_host.specs.Told.{told_of};

    ghost told = { told_of };

    fn charge(&mut self, amount: u64) -> bool {
        if amount <= self.fuel {
            self.fuel -= amount;
            true
        } else {
            false
        }
    }

    fn effect(&mut self, effect: Effect) -> Result<Answer, AllocError> {
        match effect {
            Effect::Listen(site, operands, captured) => self.listen(site, operands, captured),
            Effect::Subscribe(channel) => self.subscribe(channel),
            Effect::Unsubscribe(channel) => self.unsubscribe(channel),
            Effect::MakeContext(name, public) => self.make(name, public),
            Effect::Print(text) => self.keep(Effect::Print(text)),
            Effect::Log(level, text) => self.keep(Effect::Log(level, text)),
            Effect::Route(event) => self.keep(Effect::Route(event)),
            Effect::SendTo(slot, event) => self.keep(Effect::SendTo(slot, event)),
            Effect::SendChannel(channel, event) => self.keep(Effect::SendChannel(channel, event)),
            Effect::Spawn(action, along) => self.keep(Effect::Spawn(action, along)),
            Effect::SpawnTo(action, along, slot) => self.keep(Effect::SpawnTo(action, along, slot)),
            Effect::Quit(birth) => self.keep(Effect::Quit(birth)),
        }
    }

    fn slots(&self) -> u8 {
        self.slots
    }

    fn slot(&self) -> u8 {
        self.slot
    }

    fn targets(&self, channel: &Text) -> usize {
        self.count(channel.as_str())
    }

    fn is_ending(&self) -> bool {
        self.ending
    }
}
