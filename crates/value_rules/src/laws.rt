ghost use Rattle.std.specs.Prelude.{◌≡◌, ◌∷◌, ◌++◌, ℕ, List, [], Some, length, slice_get, slice_set, true};
ghost use Rattle.epl_values.specs.declared.shape.EventShape.{EventShape};
ghost use Rattle.epl_values.specs.declared.shape.Shape.{Shape};
ghost use Rattle.epl_values.specs.declared.value.Value.{Value};
ghost use Rattle.value_rules.specs.Defaults.{default_of};
ghost use Rattle.value_rules.specs.Shapes.{has, shapes_have};
ghost use Rattle.event_types.specs.Types.{form_of, types_in, AreTypes, HasKnownFields, HasNoCycle};

/// The default of a shape has that shape, where each event type that is named is there and none contains itself.
/// A shape without event types asks nothing of them.
pub fn defaults_have_shapes()
    ensures any { (types : List EventShape) (shape : Shape) → HasKnownFields types → HasNoCycle types → AreTypes types (types_in (form_of shape)) → has types (default_of types shape) shape ≡ true }
    ensures plain { (types : List EventShape) (shape : Shape) → types_in (form_of shape) ≡ [] → has types (default_of types shape) shape ≡ true }
{}

/// Values of these shapes, one by one, are as many; each has the shape at its place, another of that shape may stand
/// there, and one more of one more shape may follow.
pub fn shapes_by_place()
    ensures count { (types : List EventShape) (values : List Value) (shapes : List Shape) → shapes_have types values shapes ≡ true → length values ≡ length shapes }
    ensures read { (types : List EventShape) (values : List Value) (shapes : List Shape) (i : ℕ) (v : Value) (s : Shape) → shapes_have types values shapes ≡ true → slice_get values i ≡ Some v → slice_get shapes i ≡ Some s → has types v s ≡ true }
    ensures set { (types : List EventShape) (values : List Value) (shapes : List Shape) (i : ℕ) (v : Value) (s : Shape) → shapes_have types values shapes ≡ true → slice_get shapes i ≡ Some s → has types v s ≡ true → shapes_have types (slice_set values i v) shapes ≡ true }
    ensures push { (types : List EventShape) (values : List Value) (shapes : List Shape) (v : Value) (s : Shape) → shapes_have types values shapes ≡ true → has types v s ≡ true → shapes_have types (values ++ v ∷ []) (shapes ++ s ∷ []) ≡ true }
{}
