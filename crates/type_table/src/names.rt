ghost use Rattle.std.specs.Prelude.{◌≡◌, [], Some, IfOk, OnOk, OnErr, length, string_bytes};
ghost use Rattle.type_table.specs.Names.{number_in, has_name, with_name};

use indexmap::IndexSet;
use std::alloc::{AllocError, Global};
use std::marker::Model;

/// Names, no two equal, each with its place as its number.
#[derive(Drop)]
pub struct Names {
    set: IndexSet<String>,
}

impl Model for Names {
    ghost use Rattle.std.specs.Prelude.{List, ℕ, map, string_bytes};

    ghost Value = { List (List ℕ) };

    ghost view = { λ n. map string_bytes n.set.keys };
}

impl Names {
    /// No names.
    pub fn new(alloc: Global) -> Names
        ensures { result ≡ [] }
    {
        Names {
            set: IndexSet::new(alloc),
        }
    }

    /// The number of a name.
    pub fn number_of(&self, name: &str) -> Option<usize>
        ensures { result ≡ number_in self.now name.now }
    {
        self.set.get_index_of(name)
    }

    /// Whether a name is there.
    pub fn has(&self, name: &str) -> bool
        ensures { result ≡ has_name self.now name.now }
    {
        self.number_of(name).is_some()
    }

    /// Puts a name at the end where it is new. Where there is no memory the names are as before.
    pub fn add(&mut self, name: String) -> Result<(), AllocError>
        ensures ok { OnOk result (self.new ≡ with_name self.old (string_bytes name)) }
        ensures err { OnErr result (self.new ≡ self.old) }
    {
        self.set.insert_full(name)?;
        Ok(())
    }
}
