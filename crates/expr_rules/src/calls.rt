ghost use Rattle.std.specs.Prelude.{◌≡◌, IfOk, Some, min, slice_get};
ghost use Rattle.epl_values.specs.declared.shape.Shape.TheVariants as shape;
ghost use Rattle.type_table.specs.Found.{Finds};
ghost use Rattle.type_table.specs.Table.{event_of};
ghost use Rattle.expr_rules.specs.Asked.{demand_of, wish_of};
ghost use Rattle.expr_rules.specs.Calls.{next_wish, argument_of, no_arguments, count_code, field_wants, param_wants, fields_at, callback_code, result_given, event_plan, action_plan, missing_plan, plan_of_action, plan_of, action_in, action_named, callee_node, callee_code, call_stands, context_wants, context_start, context_code, context_stands};

use crate::asked::{Asks, Need, Paths, fixing};
use crate::placed::{Gives, Judged, lower, stands};
use epl_values::{Fields, List, Shape, copy_shape};
use span_text::Spot;
use std::alloc::{AllocError, Global};
use type_table::{
    ActionHead, MonitorHead, ParamHeads, Refusal, ResultHead, Scope, Table, copy_known, short,
};
use typed_program::{TypedExprs, TypedNode};

/// What arguments are asked for, in order; `None` where that isn't known.
pub type Wants = List<Option<Shape>>;

/// Arguments so far, what all of them are asked for, and which paths may stand there.
#[derive(Drop)]
pub struct Arguments {
    pub wants: Wants,
    pub paths: Paths,
    pub items: TypedExprs,
}

/// What a name before arguments stands for.
#[derive(Clone, Copy)]
pub enum CalleeKind {
    /// The event type with this number.
    Event(u16),
    /// The action with this number.
    Action(u16),
}

/// What is called: its code of its own, whether its arguments are counted, and what it gives.
#[derive(Drop)]
pub struct Callee {
    pub kind: CalleeKind,
    pub own: Option<u8>,
    pub counted: bool,
    pub given: Gives,
}

/// What is called, and what its arguments are asked for.
#[derive(Drop)]
pub struct CallPlan {
    pub callee: Callee,
    pub start: Arguments,
}

/// No arguments yet.
pub fn no_arguments(alloc: Global, paths: Paths, wants: Wants) -> Arguments
    ensures { result ≡ no_arguments paths wants }
{
    Arguments {
        wants,
        paths,
        items: List::new(alloc),
    }
}

/// What the next argument is asked for.
pub fn next_asked(arguments: &Arguments) -> Asks<'_>
    ensures { wish_of result ≡ next_wish arguments.now }
{
    match arguments.wants.as_slice().get(arguments.items.len()) {
        Some(shape) => fixing(shape),
        None => Asks::Value,
    }
}

/// One more argument.
pub fn argument_of(arguments: Arguments, judged: Judged) -> Result<Arguments, Refusal>
    ensures { Finds result (argument_of arguments judged) }
{
    let Arguments {
        wants,
        paths,
        mut items,
    } = arguments;
    items.push(judged.typed)?;
    Ok(Arguments {
        wants,
        paths,
        items,
    })
}

/// The code of another number of arguments.
pub fn count_code(arguments: &Arguments) -> Option<u8>
    ensures { result ≡ count_code arguments.now }
{
    if arguments.items.len() == arguments.wants.len() {
        None
    } else {
        Some(8)
    }
}

/// What the fields of an event are asked for.
pub fn field_wants(alloc: Global, fields: &Fields) -> Result<Wants, AllocError>
    ensures { IfOk result (λ w. w ≡ field_wants fields.now) }
{
    let mut wants = List::new(alloc);
    'fields: for field in fields.as_slice() {
        wants.push(Some(copy_shape(alloc, &field.shape)?))?;
    }
    Ok(wants)
}

/// What the parameters of an action are asked for.
pub fn param_wants(alloc: Global, params: &ParamHeads) -> Result<Wants, AllocError>
    ensures { IfOk result (λ w. w ≡ param_wants params.now) }
{
    let mut wants = List::new(alloc);
    'params: for param in params.as_slice() {
        wants.push(copy_known(alloc, &param.shape)?)?;
    }
    Ok(wants)
}

fn event_wants(alloc: Global, table: &Table, number: usize) -> Result<Wants, AllocError>
    ensures { IfOk result (λ w. w ≡ field_wants (fields_at (slice_get table.now.types number))) }
{
    match table.types.as_slice().get(number) {
        Some(event) => field_wants(alloc, &event.fields),
        None => Ok(List::new(alloc)),
    }
}

fn callback_code(name: &str) -> Option<u8>
    ensures { result ≡ callback_code name.now }
{
    if name == "onload" || name == "ondie" {
        Some(20)
    } else {
        None
    }
}

fn result_given(alloc: Global, head: &ResultHead) -> Result<Gives, AllocError>
    ensures { IfOk result (λ g. g ≡ result_given head.now) }
{
    match head {
        ResultHead::Nothing => Ok(Gives::Nothing),
        ResultHead::Value(shape) => Ok(Gives::Value(copy_shape(alloc, shape)?)),
        ResultHead::Unknown => Ok(Gives::Unknown),
    }
}

fn action_plan(alloc: Global, action: &ActionHead) -> Result<CallPlan, AllocError>
    ensures { IfOk result (λ p. p ≡ action_plan action.now) }
{
    let wants = param_wants(alloc, &action.params)?;
    let given = result_given(alloc, &action.result)?;
    Ok(CallPlan {
        callee: Callee {
            kind: CalleeKind::Action(action.number),
            own: callback_code(action.name.as_str()),
            counted: true,
            given,
        },
        start: no_arguments(alloc, Paths::NotOfGlobals, wants),
    })
}

fn event_plan(alloc: Global, table: &Table, place: usize) -> Result<CallPlan, AllocError>
    ensures { IfOk result (λ p. p ≡ event_plan (min 65535 place) (fields_at (slice_get table.now.types place))) }
{
    let wants = event_wants(alloc, table, place)?;
    let number = short(place);
    Ok(CallPlan {
        callee: Callee {
            kind: CalleeKind::Event(number),
            own: None,
            counted: true,
            given: Gives::Value(Shape::Event(number)),
        },
        start: no_arguments(alloc, Paths::Refused, wants),
    })
}

fn missing_plan(alloc: Global) -> CallPlan
    ensures { result ≡ missing_plan }
{
    CallPlan {
        callee: Callee {
            kind: CalleeKind::Action(0),
            own: Some(6),
            counted: false,
            given: Gives::Unknown,
        },
        start: no_arguments(alloc, Paths::NotOfGlobals, List::new(alloc)),
    }
}

fn plan_in(alloc: Global, monitor: &MonitorHead, name: &str) -> Result<CallPlan, AllocError>
    ensures { IfOk result (λ p. p ≡ plan_of_action (action_in (Some monitor.now) name.now)) }
{
    match monitor.action_of(name) {
        None => Ok(missing_plan(alloc)),
        Some(place) => match monitor.actions.as_slice().get(place) {
            None => Ok(missing_plan(alloc)),
            Some(action) => action_plan(alloc, action),
        },
    }
}

fn plan_of_name(
    alloc: Global,
    table: &Table,
    scope: &Scope,
    name: &str,
) -> Result<CallPlan, AllocError>
    ensures { IfOk result (λ p. p ≡ plan_of_action (action_named table.now scope.now name.now)) }
{
    if !scope.actions {
        return Ok(missing_plan(alloc));
    }
    match table.monitors.as_slice().get(usize::from(scope.monitor)) {
        None => Ok(missing_plan(alloc)),
        Some(monitor) => plan_in(alloc, monitor, name),
    }
}

/// What is called by a name.
pub fn plan_of(
    alloc: Global,
    table: &Table,
    scope: &Scope,
    name: &str,
) -> Result<CallPlan, AllocError>
    ensures { IfOk result (λ p. p ≡ plan_of table.now (event_of table.now name.now) (action_named table.now scope.now name.now)) }
{
    match table.event_of(name) {
        Some(number) => event_plan(alloc, table, number),
        None => plan_of_name(alloc, table, scope, name),
    }
}

fn callee_code(callee: &Callee, arguments: &Arguments) -> Option<u8>
    ensures { result ≡ callee_code callee.now arguments.now }
{
    if callee.counted {
        lower(count_code(arguments), callee.own)
    } else {
        callee.own
    }
}

fn callee_node(kind: CalleeKind, items: TypedExprs) -> TypedNode
    ensures { result ≡ callee_node kind items }
{
    match kind {
        CalleeKind::Event(number) => TypedNode::Event(number, items),
        CalleeKind::Action(number) => TypedNode::Action(number, items),
    }
}

/// A call with its arguments.
#[tactic(auto, unfolding(crate::specs::Calls::call_stands))]
pub fn call_stands(
    spot: Spot,
    need: Need,
    callee: Callee,
    arguments: Arguments,
) -> Result<Judged, Refusal>
    ensures { Finds result (call_stands spot (demand_of need.entry) callee arguments) }
{
    let code = callee_code(&callee, &arguments);
    stands(
        spot,
        need,
        code,
        None,
        callee.given,
        callee_node(callee.kind, arguments.items),
    )
}

fn context_wants(alloc: Global) -> Result<Wants, AllocError>
    ensures { IfOk result (λ w. w ≡ context_wants) }
{
    let mut wants = List::new(alloc);
    wants.push(Some(Shape::Text))?;
    wants.push(Some(Shape::Boolean))?;
    Ok(wants)
}

/// No arguments of `context` yet.
pub fn context_start(alloc: Global) -> Result<Arguments, AllocError>
    ensures { IfOk result (λ a. a ≡ context_start) }
{
    Ok(no_arguments(alloc, Paths::Refused, context_wants(alloc)?))
}

fn context_code(items: &TypedExprs) -> Option<u8>
    ensures { result ≡ context_code items.now }
{
    if items.len() == 1 || items.len() == 2 {
        None
    } else {
        Some(8)
    }
}

/// A context.
#[tactic(auto, unfolding(crate::specs::Calls::context_stands))]
pub fn context_stands(spot: Spot, need: Need, arguments: Arguments) -> Result<Judged, Refusal>
    ensures { Finds result (context_stands spot (demand_of need.entry) arguments) }
{
    let code = context_code(&arguments.items);
    let given = Gives::Value(Shape::Context);
    stands(
        spot,
        need,
        code,
        None,
        given,
        TypedNode::Context(arguments.items),
    )
}
