//! The rules of expressions: what a place asks, and what each node of an expression gives there, once its parts are known.
#![tactic(auto)]

mod asked;
mod calls;
mod literals;
mod methods;
mod names;
mod operators;
mod placed;
mod shapes;
mod steps;

pub use asked::{
    Asked, Asks, Need, Paths, Wanted, asked_by, assigned, inside, need_of, need_wanted, negated,
    plain, receiver,
};
pub use calls::{
    Arguments, CallPlan, Callee, CalleeKind, Wants, argument_of, call_stands, context_stands,
    context_start, next_asked, no_arguments, param_wants, plan_of,
};
pub use literals::{
    Elements, EntryList, boolean, current, dictionary, element_asked, element_of, entry_of,
    integer, key_asked, new_stands, no_elements, no_entries, quoted, sequence, value_asked,
};
pub use methods::{Called, MethodCall, Reach, called_of};
pub use names::name_of;
pub use operators::{
    Chain, Level, LinkChain, Logic, Sort, chain_of, chain_start, comparison_of, joined, link_of,
    links_of, links_start, minus_of, not_of,
};
pub use placed::{Gives, Judged, Root, group_of};
pub use shapes::is_same;
pub use steps::{
    StepKind, Walk, demand_before, element_step, field_found, index_asked, leads, method_stands,
    postfix_of, step_demand, walk_start,
};
