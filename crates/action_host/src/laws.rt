ghost use Rattle.action_host.specs.Lawful.{CountsAreLawful, RepliesAreLawful, TargetsAreCounted};

/// What answers to effects leave of the scene, and what they give.
pub fn replies_are_lawful()
    ensures { RepliesAreLawful }
{}

/// Counts stay in order, and one more or one less changes the count of that place alone.
pub fn counts_are_lawful()
    ensures { CountsAreLawful }
{}

/// A channel leads to the slots that are counted for it.
pub fn targets_are_counted()
    ensures { TargetsAreCounted }
{}
