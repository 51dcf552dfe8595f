ghost use Rattle.std.specs.Prelude.{◌≡◌, ◌<◌, ◌≤ℤ◌, ◌+◌, ◌-◌, ◌^◌, pos, length, slice_get, Some, [], IfOk};
ghost use Rattle.typed_program.specs.declared.program.Site.{Site as TheSite};
ghost use Rattle.term_meaning.specs.Active.{Active, Idle, fitted};
ghost use Rattle.term_meaning.specs.UnderWay.{begun_in, setting_of};
ghost use Rattle.term_meaning.specs.Waits.{GoesOn};
ghost use Rattle.event_terms.specs.States.{IsStill, Steps};

use crate::forms::is_gone;
use crate::leaves::active_leaves;
use crate::moment::Moment;
use crate::parts::form_of;
use crate::starting::start;
use crate::stepping::step;
use crate::waiting::waits_in;
use epl_values::{List, Values};
use std::alloc::{AllocError, Global};
use std::marker::Model;
use std::mem;
use term_meaning::{Completions, Leaves, Progress, Stepped, Stimulus};
use term_operands::Origin;
use typed_program::Program;

/// What a step of an event expression gives: its completions in order; whether nothing is left of it; whether an active ordinary
/// leaf fitted the event; how many leaves began.
#[derive(Drop)]
pub struct StepOut {
    pub completions: Completions,
    pub ended: bool,
    pub fitted: bool,
    pub begun: u64,
}

/// The event expression of a site, under way. It keeps the operands of the site as they were at the `on`.
#[derive(Drop)]
pub struct State {
    site: u16,
    operands: Values,
    progress: Progress,
    next: u64,
}

impl Model for State {
    ghost use Rattle.event_terms.specs.States.{SiteExpression};
    ghost use Rattle.epl_values.specs.contracts.value.Value as value;
    ghost use Rattle.term_meaning.specs.contracts.progress.Progress as course;
    ghost use Rattle.std.specs.Coded.{codes};

    ghost Value = { SiteExpression };

    ghost coded = { Prim.hlevel (codes, value.the_row.coded, course.the_row.coded) };

    ghost view = { λ s. record { site = s.site; expression = record { operands = s.operands; progress = s.progress; next = s.next } } };

    ghost use Rattle.term_meaning.specs.Waits.{GoesOn};

    ghost invariant = { λ s. GoesOn s.progress };
}

impl State {
    /// The event expression of a site begins, over the operands as they were at the `on`, which it keeps. Times are in tenths of a
    /// second.
    pub fn start(
        alloc: Global,
        program: &Program,
        site: u16,
        operands: Values,
        now: i128,
    ) -> Result<State, AllocError>
        requires there { site < length program.now.sites }
        requires from { pos 0 ≤ℤ now }
        requires to { now ≤ℤ pos (10 ^ 13 - 1) }
        ensures is { IfOk result (λ s. (found : TheSite) → slice_get program.now.sites site ≡ Some found → s ≡ record { site = site; expression = begun_in (setting_of program.now.types found operands now) }) }
        ensures goes { IfOk result (λ s. GoesOn s.expression.progress) }
    {
        let found = program.sites.get(site as usize);
        let origin = Origin {
            alloc,
            types: &program.types,
            site: found,
            operands: operands.as_slice(),
            time: now,
        };
        let begun = start(&origin, form_of(&found.term), &[], 0)?;
        Ok(State {
            site,
            operands,
            progress: begun.progress.into_inner(),
            next: begun.next,
        })
    }

    /// Moves it by what comes to it. After want of memory nothing is said of it.
    pub fn step(
        &mut self,
        alloc: Global,
        program: &Program,
        stimulus: &Stimulus,
        now: i128,
    ) -> Result<StepOut, AllocError>
        requires there { self.old.site < length program.now.sites }
        requires from { pos 0 ≤ℤ now }
        requires to { now ≤ℤ pos (10 ^ 13 - 1) }
        ensures steps { IfOk result (λ out. Steps program.now stimulus.now now self.old out self.new) }
        ensures fitted { IfOk result (λ out. out.fitted ≡ fitted self.old.expression.progress stimulus.now) }
        ensures still { Idle self.old.expression.progress stimulus.now → IfOk result (λ out. IsStill self.old out self.new) }
        ensures count { IfOk result (λ out. out.begun + self.old.expression.next ≡ self.new.expression.next) }
        ensures goes { IfOk result (λ out. GoesOn self.new.expression.progress) }
    {
        let found = program.sites.get(self.site as usize);
        if !waits_in(&self.progress, stimulus) {
            return Ok(StepOut {
                completions: List::new(alloc),
                ended: is_gone(&self.progress),
                fitted: false,
                begun: 0,
            });
        }
        let progress = mem::replace(&mut self.progress, Progress::Gone);
        let before = self.next;
        let moment = Moment {
            origin: Origin {
                alloc,
                types: &program.types,
                site: found,
                operands: self.operands.as_slice(),
                time: now,
            },
            stimulus,
        };
        let stepped = step(progress, &moment, form_of(&found.term), &[], before)?;
        let ended = is_gone(&stepped.left);
        let Stepped {
            completions,
            left,
            next,
            fitted,
        } = stepped;
        let Some(begun) = next.checked_sub(before) else {
            return Err(AllocError);
        };
        self.progress = left;
        self.next = next;
        Ok(StepOut {
            completions,
            ended,
            fitted,
            begun,
        })
    }

    /// Its active leaves, in order of their beginning.
    pub fn leaves(&self, alloc: Global) -> Result<Leaves, AllocError>
        ensures { IfOk result (Active self.now.expression.progress) }
    {
        active_leaves(alloc, &self.progress)
    }

    /// The number of its site.
    pub fn site(&self) -> u16
        ensures { result ≡ self.now.site }
    {
        self.site
    }

    /// How many leaves began in it, which is the number of the next one.
    pub fn begun(&self) -> u64
        ensures { result ≡ self.now.expression.next }
    {
        self.next
    }
}
