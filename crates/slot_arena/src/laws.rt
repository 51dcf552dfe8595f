ghost use Rattle.std.specs.List.{AllByRecursion};
ghost use Rattle.std.specs.Prelude.{List};
ghost use Rattle.slot_arena.specs.declared.key.Key.{Key as TheKey};
ghost use Rattle.slot_arena.specs.Arena.{Arena};
ghost use Rattle.slot_arena.specs.Course.{IsOver, Leads};

/// A key whose take is past and which names nothing names nothing ever again, whatever is taken in, given back or changed.
pub fn keys_never_come_again<T>()
    ensures { (key : TheKey) (first : Arena T) (later : List (Arena T)) → IsOver key first → Leads first later → AllByRecursion (IsOver key) later }
{}
