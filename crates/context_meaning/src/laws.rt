ghost use Rattle.std.specs.Prelude.{◌≡◌, ◌+◌, ◌*◌, ◌<◌, ◌≤◌, [], ℕ, length, true, false};
ghost use Rattle.typed_program.specs.declared.program.Program.{Program};
ghost use Rattle.context_meaning.specs.Contexts.{Context};
ghost use Rattle.context_meaning.specs.Handling.{drained, first_handled, front_weight, settled};

/// Twice the fuel with the weight of what waits in front falls with each thing that is handled, so the front settles: handling
/// the first in front, again and again, while there is one and the context isn't spent, comes to what `settled` says. The row is
/// empty between handlings.
pub fn front_settles()
    ensures falls { (program : Program) (c : Context) → c.row ≡ [] → 0 < length c.front → 2 * (first_handled program c).fuel + front_weight (first_handled program c).front < 2 * c.fuel + front_weight c.front }
    ensures spent { (program : Program) (c : Context) → c.spent ≡ true → settled program c ≡ c }
    ensures empty { (program : Program) (c : Context) → c.front ≡ [] → settled program c ≡ c }
    ensures step { (program : Program) (c : Context) → c.row ≡ [] → c.spent ≡ false → 0 < length c.front → settled program c ≡ settled program (first_handled program c) }
    ensures enough { (program : Program) (n : ℕ) (c : Context) → c.row ≡ [] → 2 * c.fuel + front_weight c.front ≤ n → drained program n c ≡ settled program c }
{}
