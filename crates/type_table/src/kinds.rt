ghost use Rattle.std.specs.Prelude.{◌≡◌, [], IfOk};
ghost use Rattle.type_table.specs.Kinds.{names_of, trees};

use crate::names::Names;
use epl_tree::{Declaration, EventDecl, Unit, Units};
use std::alloc::{AllocError, Global};

/// The event types of a program, the first of each name, with their numbers.
#[derive(Drop)]
pub struct Kinds<'t> {
    pub names: Names,
    pub decls: Vec<&'t EventDecl>,
    ghost named: { names ≡ names_of (trees decls.items) },
}

impl<'t> Kinds<'t> {
    ghost use Rattle.type_table.specs.Kinds.{with_kind, kind_step, kinds_after, kinds_of, declarations_of};

    /// The event types of files.
    #[tactic(auto, using(crate::proofs::Chosen::kinds_append, crate::proofs::Chosen::kinds_left))]
    pub fn of(alloc: Global, units: &'t Units) -> Result<Kinds<'t>, AllocError>
        ensures { IfOk result (λ k. trees k.decls.items ≡ kinds_of units.now) }
    {
        let mut kinds = Kinds::none(alloc);
        'units: for unit in units.as_slice() {
            kinds = kinds.with_unit(alloc, unit)?;
        }
        Ok(kinds)
    }

    /// Their names.
    pub fn names(&self) -> &Names
        ensures { result.now ≡ names_of (trees self.now.decls.items) }
    {
        &self.names
    }

    fn none(alloc: Global) -> Kinds<'t>
        ensures { trees result.decls.items ≡ [] }
    {
        Kinds {
            names: Names::new(alloc),
            decls: Vec::new(alloc),
        }
    }

    fn with_unit(self, alloc: Global, unit: &'t Unit) -> Result<Kinds<'t>, AllocError>
        ensures { IfOk result (λ k. trees k.decls.items ≡ kinds_after (trees self.entry.decls.items) unit.now.declarations) }
    {
        let mut kinds = self;
        'declarations: for declaration in unit.declarations.as_slice() {
            kinds = kinds.with_declaration(alloc, declaration)?;
        }
        Ok(kinds)
    }

    fn with_declaration(
        self,
        alloc: Global,
        declaration: &'t Declaration,
    ) -> Result<Kinds<'t>, AllocError>
        ensures { IfOk result (λ k. trees k.decls.items ≡ kind_step (trees self.entry.decls.items) declaration.now) }
    {
        match declaration {
            Declaration::Event(event) => self.with_event(alloc, event),
            Declaration::Monitor(_) => Ok(self),
        }
    }

    #[tactic(auto, using(crate::proofs::Chosen::trees_append, crate::proofs::Chosen::names_append))]
    fn with_event(self, alloc: Global, event: &'t EventDecl) -> Result<Kinds<'t>, AllocError>
        ensures { IfOk result (λ k. trees k.decls.items ≡ with_kind (trees self.entry.decls.items) event.now) }
    {
        if self.names.has(event.name.text.as_str()) {
            return Ok(self);
        }
        let Kinds {
            mut names,
            mut decls,
        } = self;
        names.add(String::from_str(alloc, event.name.text.as_str())?)?;
        decls.push(event)?;
        Ok(Kinds { names, decls })
    }
}
