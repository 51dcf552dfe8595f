ghost use Rattle.instance_store.specs.Lawful.{ChannelsAreCounted};

/// Channels stay in order, and one more or one less changes how often that channel alone is held.
pub fn channels_are_counted()
    ensures { ChannelsAreCounted }
{}
