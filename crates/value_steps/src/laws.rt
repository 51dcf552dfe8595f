ghost use Rattle.std.specs.Prelude.{◌≡◌, List, Ok};
ghost use Rattle.epl_values.specs.declared.value.Pair.{Pair};
ghost use Rattle.epl_values.specs.declared.value.Value.{Value};
ghost use Rattle.epl_values.specs.declared.value.Value.TheVariants.{Dictionary, Event, Sequence};
ghost use Rattle.epl_values.specs.Order.{KeysAscend};
ghost use Rattle.typed_program.specs.declared.expression.Method.{Method};
ghost use Rattle.body_meaning.specs.declared.run.Move.{Move};
ghost use Rattle.body_meaning.specs.Effects.{emptied};
ghost use Rattle.body_meaning.specs.Methods.{changed_by};
ghost use Rattle.body_meaning.specs.Paths.{altered, part, stored, with_part};
ghost use Rattle.value_steps.specs.Orderly.{AreOrderly, AreOrderlyMoves, AreOrderlyPairs, IsOrderly, IsOrderlyMove};

/// Parts of values in order are in order, and what is made of them is.
pub fn order_is_kept()
    ensures parts { (m : Move) (v x : Value) → IsOrderly v → part m v ≡ Ok x → IsOrderly x }
    ensures whole { (m : Move) (v x : Value) → IsOrderlyMove m → IsOrderly v → IsOrderly x → IsOrderly (with_part m v x) }
    ensures sequences { (items : List Value) → AreOrderly items → IsOrderly (Sequence items) }
    ensures dictionaries { (pairs : List Pair) → KeysAscend pairs → AreOrderlyPairs pairs → IsOrderly (Dictionary pairs) }
    ensures stores { (moves : List Move) (x : Value) → AreOrderlyMoves moves → IsOrderly x → (v w : Value) → IsOrderly v → stored moves x v ≡ Ok w → IsOrderly w }
    ensures emptied { (v : Value) → IsOrderly v → IsOrderly (emptied v) }
    ensures methods { (m : Method) (arguments : List Value) → AreOrderly arguments → (v w : Value) → IsOrderly v → changed_by m arguments v ≡ Ok w → IsOrderly w }
{}
