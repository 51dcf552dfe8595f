ghost use Rattle.std.specs.Prelude.{◌≡◌, ◌++◌, IfOk, OnOk};
ghost use Rattle.listener_check.specs.Operands.{bound, place_of, field_in, fields_in, path_in, placed, sum_operand, added_operand, last_of, given_operand, named_operand, operand_of, is_integer, operand_read, signed};
ghost use Rattle.listener_check.specs.Went.{Goes};

use crate::reader::{Reader, count_sum};
use crate::sofar::Sofar;
use crate::value::Naming;
use epl_tree::Expr;
use epl_values::{List, Shape, Texts};
use std::alloc::{AllocError, Global};
use type_table::{Refusal, short};
use typed_program::{
    FieldNumbers, Operand, TypedExpr, TypedLink, TypedLinks, TypedNode, TypedSuffix,
    TypedSuffixNode, TypedSuffixes,
};

/// A path: the place of its bound name, and the numbers of its fields.
#[derive(Drop)]
pub struct Reached {
    pub place: u16,
    pub fields: FieldNumbers,
}

#[tactic(auto, unfolding(crate::specs::Operands::place_of))]
fn place_of(typed: &TypedExpr) -> u16
    ensures { result ≡ place_of typed.now }
{
    match &typed.node {
        TypedNode::Local(number) => *number,
        _ => 0,
    }
}

#[tactic(auto, unfolding(crate::specs::Operands::field_in))]
fn push_field(fields: &mut FieldNumbers, suffix: &TypedSuffix) -> Result<(), AllocError>
    ensures { OnOk result (fields.new ≡ fields.old ++ field_in suffix.now) }
{
    match &suffix.node {
        TypedSuffixNode::Field(number) => fields.push(*number),
        _ => Ok(()),
    }
}

fn fields_in(alloc: Global, suffixes: &TypedSuffixes) -> Result<FieldNumbers, AllocError>
    ensures { IfOk result (λ f. f ≡ fields_in suffixes.now) }
{
    let mut fields = List::new(alloc);
    for suffix in suffixes.as_slice() {
        push_field(&mut fields, suffix)?;
    }
    Ok(fields)
}

#[tactic(auto, unfolding(crate::specs::Operands::path_in))]
fn path_in(alloc: Global, typed: &TypedExpr) -> Result<Reached, AllocError>
    ensures { IfOk result (λ r. r ≡ path_in typed.now) }
{
    match &typed.node {
        TypedNode::Postfix(first, suffixes) => Ok(Reached {
            place: place_of(first.get()),
            fields: fields_in(alloc, suffixes)?,
        }),
        _ => Ok(Reached {
            place: 0,
            fields: List::new(alloc),
        }),
    }
}

/// Puts what is evaluated at the `on` behind the others, and gives its place.
#[tactic(auto, unfolding(crate::specs::Operands::placed))]
pub fn place(sofar: &mut Sofar, typed: TypedExpr) -> Result<u16, Refusal>
    ensures { Goes result (placed typed sofar.old) sofar.new }
{
    let at = short(sofar.operands.len());
    sofar.operands.push(typed)?;
    Ok(at)
}

fn signed(naming: Naming, path: Reached, at: u16) -> Operand
    ensures { result ≡ signed naming path at }
{
    let Reached { place, fields } = path;
    match naming {
        Naming::Minus => Operand::BoundMinus(place, fields, at),
        _ => Operand::BoundPlus(place, fields, at),
    }
}

#[tactic(auto, using(crate::proofs::Going::going), unfolding(crate::specs::Operands::added_operand))]
fn added_operand(
    sofar: &mut Sofar,
    naming: Naming,
    path: Reached,
    link: Option<TypedLink>,
) -> Result<Operand, Refusal>
    ensures { Goes result (added_operand naming path link sofar.old) sofar.new }
{
    match link {
        Some(link) => {
            let TypedLink {
                operator: _,
                operand,
            } = link;
            let at = place(sofar, operand)?;
            Ok(signed(naming, path, at))
        }
        None => {
            let Reached { place, fields } = path;
            Ok(Operand::Bound(place, fields))
        }
    }
}

fn last_of(links: TypedLinks) -> Option<TypedLink>
    ensures { result ≡ last_of links }
{
    let mut links = links;
    links.pop()
}

#[tactic(auto, unfolding(crate::specs::Operands::sum_operand))]
fn sum_operand(
    alloc: Global,
    sofar: &mut Sofar,
    naming: Naming,
    typed: TypedExpr,
) -> Result<Operand, Refusal>
    ensures { Goes result (sum_operand naming typed sofar.old) sofar.new }
{
    let TypedExpr { shape: _, node } = typed;
    match node {
        TypedNode::Sum(first, links) => {
            let path = path_in(alloc, first.get())?;
            added_operand(sofar, naming, path, last_of(links))
        }
        _ => Ok(Operand::Bound(0, List::new(alloc))),
    }
}

#[tactic(auto, using(crate::proofs::Going::going), unfolding(crate::specs::Operands::given_operand))]
fn given_operand(sofar: &mut Sofar, typed: TypedExpr) -> Result<Operand, Refusal>
    ensures { Goes result (given_operand typed sofar.old) sofar.new }
{
    let at = place(sofar, typed)?;
    Ok(Operand::Given(at))
}

fn path_operand(alloc: Global, typed: &TypedExpr) -> Result<Operand, AllocError>
    ensures { IfOk result (λ o. o ≡ bound (path_in typed.now)) }
{
    let Reached { place, fields } = path_in(alloc, typed)?;
    Ok(Operand::Bound(place, fields))
}

#[tactic(auto, unfolding(crate::specs::Operands::operand_of))]
fn operand_of(
    alloc: Global,
    sofar: &mut Sofar,
    naming: Naming,
    typed: TypedExpr,
) -> Result<Operand, Refusal>
    ensures { Goes result (operand_of naming typed sofar.old) sofar.new }
{
    match naming {
        Naming::Path => Ok(path_operand(alloc, &typed)?),
        Naming::Plus => sum_operand(alloc, sofar, Naming::Plus, typed),
        Naming::Minus => sum_operand(alloc, sofar, Naming::Minus, typed),
        _ => given_operand(sofar, typed),
    }
}

#[tactic(auto, unfolding(crate::specs::Operands::is_integer))]
fn is_integer(shape: &Shape) -> bool
    ensures { result ≡ is_integer shape.now }
{
    match shape {
        Shape::Integer => true,
        _ => false,
    }
}

impl Reader<'_> {
    #[tactic(auto, using(crate::proofs::Going::going), unfolding(crate::specs::Operands::named_operand))]
    fn named_operand(
        &self,
        sofar: &mut Sofar,
        naming: Naming,
        shape: &Shape,
        tree: &Expr,
    ) -> Result<Operand, Refusal>
        ensures { Goes result (named_operand self.now.table.now self.now.scope.now self.now.inner.now naming shape.now tree.now sofar.old) sofar.new }
    {
        let typed = self.named_value(naming, shape, tree)?;
        operand_of(self.alloc, sofar, naming, typed)
    }

    /// An operand that is compared with a field of a shape, where these names stand in left sides around it.
    #[tactic(auto, using(crate::proofs::Going::going), unfolding(crate::specs::Operands::operand_read))]
    pub fn operand(
        &self,
        sofar: &mut Sofar,
        left: &Texts,
        shape: &Shape,
        tree: &Expr,
    ) -> Result<Operand, Refusal>
        ensures { Goes result (operand_read self.now.table.now self.now.scope.now self.now.inner.now left.now shape.now tree.now sofar.old) sofar.new }
    {
        count_sum(sofar, tree.spot)?;
        let naming = self.naming_of(left, is_integer(shape), tree);
        self.named_operand(sofar, naming, shape, tree)
    }
}
