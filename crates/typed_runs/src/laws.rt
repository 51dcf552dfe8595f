ghost use Rattle.std.specs.Prelude.{◌≡◌, [], ℕ, List, Some};
ghost use Rattle.epl_values.specs.declared.value.Value.{Value};
ghost use Rattle.typed_program.specs.declared.program.Program.{Program};
ghost use Rattle.typed_program.specs.Typed.{Typed};
ghost use Rattle.action_host.specs.Scenes.{Scene};
ghost use Rattle.body_meaning.specs.Acts.{act};
ghost use Rattle.value_shapes.specs.Fits.{AllFit};
ghost use Rattle.typed_runs.specs.Bodies.{Head, head_of, GlobalsFit};
ghost use Rattle.typed_runs.specs.Kept.{RunFits};

/// A run of a body of a typed program, over globals and locals of their shapes, leaves globals of their shapes behind each
/// change, and each effect carries values of the shapes that it is to carry.
pub fn runs_keep_shapes()
    ensures { (program : Program) → Typed program → (body : ℕ) (head : Head) → head_of program body ≡ Some head → (globals locals : List Value) → GlobalsFit program head.monitor globals → AllFit program.types locals head.params → (scene : Scene) (draws : List ℕ) → RunFits program head.monitor (act program body locals (record { scene = scene; draws = draws; frame = record { globals = globals; locals = [] } })) }
{}
