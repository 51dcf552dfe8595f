//! Listeners, and what stands behind `:=`.

ghost use Rattle.std.specs.Prelude.{◌≡◌, IfOk};
ghost use Rattle.grammar_forms.specs.Reader.{behind, with};
ghost use Rattle.primary_parser.specs.Tokens.{row_of};
ghost use Rattle.stmt_parser.specs.Statements as tree;
ghost use Rattle.command_parser.specs.Words as word;
ghost use Rattle.stmt_parser.specs.Reading as read;
ghost use Rattle.stmt_parser.specs.Nests.{Nests};

use crate::assigned::Assigned;
use crate::event::boxed_event_at;
use crate::rules::Rules;
use command_parser::{ended, place, typed, word};
use epl_lexer::Token;
use epl_tree::{Boxed, EventExpr, Listening, Name, Place, Stmt, StmtNode, TypeExpr};
use primary_parser::token::{keyword_at, sign_at, spot_at};
use std::alloc::{AllocError, Global};

fn declared_of(shape: TypeExpr, name: Name, initial: Option<Assigned>) -> StmtNode
    ensures { result ≡ tree.declared_of ((shape, name), initial) }
{
    match initial {
        None => StmtNode::Declare(shape, name),
        Some(Assigned::Value(value)) => StmtNode::DeclareAs(shape, name, value),
        Some(Assigned::Listener(listening)) => StmtNode::DeclareOn(shape, name, listening),
    }
}

fn assigned_of(place: Place, given: Assigned) -> StmtNode
    ensures { result ≡ tree.assigned_of (place, given) }
{
    match given {
        Assigned::Value(value) => StmtNode::Assign(place, value),
        Assigned::Listener(listening) => StmtNode::AssignOn(place, listening),
    }
}

impl<'t, F: Fn(Global, &[Token], usize, usize) -> Result<Option<(Stmt, usize)>, AllocError>> Rules<
    't,
    F,
> {
    fn called_back(
        &self,
        event: Boxed<EventExpr>,
        at: usize,
    ) -> Result<Option<((Boxed<EventExpr>, Stmt), usize)>, AllocError>
        requires { Nests self.now.depth (F.pre self.now.deeper) (F.post self.now.deeper) }
        ensures { IfOk result (λ r. r ≡ with event (read.stmt_at self.now.tokens.now self.now.depth at)) }
    {
        let Some((callback, end)) = self.inner(at)? else {
            return Ok(None);
        };
        Ok(Some(((event, callback), end)))
    }

    #[tactic(auto, unfolding(crate::specs::Reading::listened))]
    fn listened(&self, at: usize) -> Result<Option<((Boxed<EventExpr>, Stmt), usize)>, AllocError>
        requires { Nests self.now.depth (F.pre self.now.deeper) (F.post self.now.deeper) }
        ensures { IfOk result (λ r. r ≡ read.listened self.now.tokens.now (read.stmt_at self.now.tokens.now self.now.depth) at) }
    {
        let Some((event, at)) = boxed_event_at(self.alloc, self.tokens, at)? else {
            return Ok(None);
        };
        self.called_back(event, at)
    }

    #[tactic(auto, unfolding(grammar_forms::specs::Reader::behind))]
    fn on_tail(&self, at: usize) -> Result<Option<((Boxed<EventExpr>, Stmt), usize)>, AllocError>
        requires { Nests self.now.depth (F.pre self.now.deeper) (F.post self.now.deeper) }
        ensures { IfOk result (λ r. r ≡ behind (row_of self.now.tokens.now) word.on_word (read.listened self.now.tokens.now (read.stmt_at self.now.tokens.now self.now.depth)) at) }
    {
        let Some((_, at)) = keyword_at(self.tokens, word::ON, at) else {
            return Ok(None);
        };
        self.listened(at)
    }

    /// A listener.
    #[tactic(auto, unfolding(crate::specs::Reading::on))]
    pub(crate) fn on(&self, at: usize) -> Result<Option<(Listening, usize)>, AllocError>
        requires { Nests self.now.depth (F.pre self.now.deeper) (F.post self.now.deeper) }
        ensures { IfOk result (λ r. r ≡ read.on self.now.tokens.now (read.stmt_at self.now.tokens.now self.now.depth) at) }
    {
        let spot = spot_at(self.tokens, at);
        let Some(((event, callback), end)) = self.on_tail(at)? else {
            return Ok(None);
        };
        let callback = Boxed::new(self.alloc, callback)?;
        let listening = Listening {
            spot,
            event: event.into_inner(),
            callback,
        };
        Ok(Some((listening, end)))
    }

    #[tactic(auto, unfolding(crate::specs::Reading::assigned))]
    fn assigned(&self, at: usize) -> Result<Option<(Assigned, usize)>, AllocError>
        requires { Nests self.now.depth (F.pre self.now.deeper) (F.post self.now.deeper) }
        ensures { IfOk result (λ r. r ≡ read.assigned self.now.tokens.now (read.stmt_at self.now.tokens.now self.now.depth) at) }
    {
        if let Some((value, end)) = ended(self.alloc, self.tokens, at)? {
            return Ok(Some((Assigned::Value(value), end)));
        }
        let Some((listening, end)) = self.on(at)? else {
            return Ok(None);
        };
        Ok(Some((Assigned::Listener(listening), end)))
    }

    #[tactic(auto, unfolding(crate::specs::Reading::given, grammar_forms::specs::Reader::behind))]
    fn given(&self, at: usize) -> Result<Option<(Assigned, usize)>, AllocError>
        requires { Nests self.now.depth (F.pre self.now.deeper) (F.post self.now.deeper) }
        ensures { IfOk result (λ r. r ≡ read.given self.now.tokens.now (read.stmt_at self.now.tokens.now self.now.depth) at) }
    {
        let Some((_, at)) = sign_at(self.tokens, word::ASSIGNS, at) else {
            return Ok(None);
        };
        self.assigned(at)
    }

    #[tactic(auto, unfolding(crate::specs::Reading::initial))]
    fn initial(&self, at: usize) -> Result<Option<(Option<Assigned>, usize)>, AllocError>
        requires { Nests self.now.depth (F.pre self.now.deeper) (F.post self.now.deeper) }
        ensures { IfOk result (λ r. r ≡ read.initial self.now.tokens.now (read.stmt_at self.now.tokens.now self.now.depth) at) }
    {
        if let Some((_, end)) = sign_at(self.tokens, word::SEMICOLON, at) {
            return Ok(Some((None, end)));
        }
        let Some((given, end)) = self.given(at)? else {
            return Ok(None);
        };
        Ok(Some((Some(given), end)))
    }

    /// A local.
    #[tactic(auto, unfolding(crate::specs::Reading::declare))]
    pub(crate) fn declare(&self, at: usize) -> Result<Option<(StmtNode, usize)>, AllocError>
        requires { Nests self.now.depth (F.pre self.now.deeper) (F.post self.now.deeper) }
        ensures { IfOk result (λ r. r ≡ read.declare self.now.tokens.now (read.stmt_at self.now.tokens.now self.now.depth) at) }
    {
        let Some(((shape, name), at)) = typed(self.alloc, self.tokens, at)? else {
            return Ok(None);
        };
        let Some((initial, end)) = self.initial(at)? else {
            return Ok(None);
        };
        Ok(Some((declared_of(shape, name, initial), end)))
    }

    /// An assignment.
    #[tactic(auto, unfolding(crate::specs::Reading::assign))]
    pub(crate) fn assign(&self, at: usize) -> Result<Option<(StmtNode, usize)>, AllocError>
        requires { Nests self.now.depth (F.pre self.now.deeper) (F.post self.now.deeper) }
        ensures { IfOk result (λ r. r ≡ read.assign self.now.tokens.now (read.stmt_at self.now.tokens.now self.now.depth) at) }
    {
        let Some((place, at)) = place(self.alloc, self.tokens, at)? else {
            return Ok(None);
        };
        let Some((given, end)) = self.given(at)? else {
            return Ok(None);
        };
        Ok(Some((assigned_of(place, given), end)))
    }
}
