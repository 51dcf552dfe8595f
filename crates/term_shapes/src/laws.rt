ghost use Rattle.term_shapes.specs.Laws.{BeginsFit, StepsFit};

/// The event expressions of typed programs keep the shapes of what they bind: as they begin, and through each step, which gives
/// completions of such bindings.
pub fn expressions_keep_shapes()
    ensures begins { BeginsFit }
    ensures steps { StepsFit }
{}
