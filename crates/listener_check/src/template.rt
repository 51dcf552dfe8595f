ghost use Rattle.std.specs.Prelude.{◌≡◌, slice_get};
ghost use Rattle.listener_check.specs.Templates.{is_taken, is_full, name_read, clause_read, clauses_read, fields_of, parts_read, typed_read, template_read};
ghost use Rattle.listener_check.specs.Limits.{short};
ghost use Rattle.listener_check.specs.Went.{Goes};

use crate::constraint::Done;
use crate::reader::{Reader, count_leaf, is_among};
use crate::sofar::Sofar;
use epl_tree::{Name, Template, TemplateClause, TemplateClauses};
use epl_values::{Fields, Text, Texts};
use span_text::Spot;
use type_table::{Fault, Refusal, short};
use typed_program::{Duration, TemplateShape};

/// The clauses of a template: the place of the name that it binds, and its duration.
#[derive(Clone, Copy)]
pub struct Clauses {
    pub binds: Option<u16>,
    pub within: Option<Duration>,
}

fn is_full(binds: Option<u16>, names: &Texts) -> bool
    ensures { result ≡ is_full binds names.now }
{
    binds.is_some() || names.len() >= 64
}

impl Reader<'_> {
    fn is_taken(&self, names: &Texts, name: &str) -> bool
        ensures { result ≡ is_taken self.now.scope.now names.now name.now }
    {
        self.scope.seen_of(name).is_some() || is_among(names, name)
    }

    #[tactic(auto, using(crate::proofs::Going::going), unfolding(crate::specs::Templates::name_read))]
    fn name(
        &self,
        sofar: &mut Sofar,
        under_not: bool,
        binds: Option<u16>,
        name: &Name,
    ) -> Result<u16, Refusal>
        ensures { Goes result (name_read self.now.scope.now under_not binds name.now sofar.old) sofar.new }
    {
        if self.is_taken(&sofar.names, name.text.as_str()) {
            return Err(Refusal::Fault(Fault {
                code: 1,
                spot: name.spot,
            }));
        }
        if is_full(binds, &sofar.names) {
            return Err(Refusal::Fault(Fault {
                code: 4,
                spot: name.spot,
            }));
        }
        if under_not {
            return Err(Refusal::Fault(Fault {
                code: 19,
                spot: name.spot,
            }));
        }
        let place = short(sofar.names.len());
        let text = Text::of(self.alloc, name.text.as_str())?;
        sofar.names.push(text)?;
        Ok(place)
    }

    #[tactic(auto, using(crate::proofs::Going::going), unfolding(crate::specs::Templates::clause_read))]
    fn clause(
        &self,
        sofar: &mut Sofar,
        under_not: bool,
        made: Clauses,
        clause: &TemplateClause,
    ) -> Result<Clauses, Refusal>
        ensures { Goes result (clause_read self.now.table.now self.now.scope.now self.now.inner.now under_not made clause.now sofar.old) sofar.new }
    {
        match clause {
            TemplateClause::As(name) => {
                let place = self.name(sofar, under_not, made.binds, name)?;
                Ok(Clauses {
                    binds: Some(place),
                    within: made.within,
                })
            }
            TemplateClause::Within(duration) => {
                let timed = self.duration(sofar, duration)?;
                Ok(Clauses {
                    binds: made.binds,
                    within: Some(timed),
                })
            }
        }
    }

    #[tactic(auto, using(crate::proofs::Going::going))]
    fn clauses(
        &self,
        sofar: &mut Sofar,
        under_not: bool,
        clauses: &TemplateClauses,
    ) -> Result<Clauses, Refusal>
        ensures { Goes result (clauses_read self.now.table.now self.now.scope.now self.now.inner.now under_not clauses.now sofar.old) sofar.new }
    {
        let mut made = Clauses {
            binds: None,
            within: None,
        };
        for clause in clauses.as_slice() {
            made = self.clause(sofar, under_not, made, clause)?;
        }
        Ok(made)
    }

    #[tactic(auto, using(crate::proofs::Going::going), unfolding(crate::specs::Templates::parts_read))]
    fn parts(
        &self,
        sofar: &mut Sofar,
        fields: &Fields,
        event: u16,
        under_not: bool,
        left: &Texts,
        template: &Template,
    ) -> Result<TemplateShape, Refusal>
        ensures { Goes result (parts_read self.now.table.now self.now.scope.now self.now.inner.now fields.now event under_not left.now template.now sofar.old) sofar.new }
    {
        let done = self.constraints(sofar, left, fields, &template.constraints)?;
        let made = self.clauses(sofar, under_not, &template.clauses)?;
        let Done {
            constraints,
            named: _,
        } = done;
        Ok(TemplateShape {
            event,
            mode: template.mode,
            constraints,
            binds: made.binds,
            within: made.within,
        })
    }

    fn parts_of(
        &self,
        sofar: &mut Sofar,
        event: usize,
        under_not: bool,
        left: &Texts,
        template: &Template,
    ) -> Result<TemplateShape, Refusal>
        ensures { Goes result (parts_read self.now.table.now self.now.scope.now self.now.inner.now (fields_of (slice_get self.now.table.now.types event)) (short event) under_not left.now template.now sofar.old) sofar.new }
    {
        match self.table.types.as_slice().get(event) {
            Some(shape) => self.parts(
                sofar,
                &shape.fields,
                short(event),
                under_not,
                left,
                template,
            ),
            None => self.parts(
                sofar,
                &Fields::new(self.alloc),
                short(event),
                under_not,
                left,
                template,
            ),
        }
    }

    #[tactic(auto, using(crate::proofs::Going::going), unfolding(crate::specs::Templates::typed_read))]
    fn typed(
        &self,
        sofar: &mut Sofar,
        event: Option<usize>,
        spot: Spot,
        under_not: bool,
        left: &Texts,
        template: &Template,
    ) -> Result<TemplateShape, Refusal>
        ensures { Goes result (typed_read self.now.table.now self.now.scope.now self.now.inner.now event spot under_not left.now template.now sofar.old) sofar.new }
    {
        match event {
            Some(event) => {
                count_leaf(sofar, spot)?;
                self.parts_of(sofar, event, under_not, left, template)
            }
            None => Err(Refusal::Fault(Fault { code: 2, spot })),
        }
    }

    /// A template.
    pub fn template(
        &self,
        sofar: &mut Sofar,
        spot: Spot,
        under_not: bool,
        left: &Texts,
        template: &Template,
    ) -> Result<TemplateShape, Refusal>
        ensures { Goes result (template_read self.now.table.now self.now.scope.now self.now.inner.now spot under_not left.now template.now sofar.old) sofar.new }
    {
        let event = self.table.event_of(template.event.as_str());
        self.typed(sofar, event, spot, under_not, left, template)
    }
}
