ghost use Rattle.std.specs.Prelude.{◌≡◌, ◌≤◌, length, map};
ghost use Rattle.built_forms.specs.Rows.{joined, first_of, behind};
ghost use Rattle.built_forms.specs.Units.{missing_in_member, missing_in_declaration, missing_in_unit, unbuilt};

use crate::expressions::in_optional;
use crate::statements::next_body;
use epl_tree::{Declaration, Declarations, Member, Members, Unit, Units};
use span_text::Spot;

fn in_member(member: &Member) -> Option<Spot>
    ensures { result ≡ first_of (missing_in_member member.now) }
{
    match member {
        Member::Global(global) => in_optional(&global.initial),
        Member::Action(action) => next_body(None, &action.body),
    }
}

fn next_member(before: Option<Spot>, member: &Member) -> Option<Spot>
    ensures { result ≡ behind before (missing_in_member member.now) }
{
    match before {
        Some(spot) => Some(spot),
        None => in_member(member),
    }
}

#[tactic(auto, using(crate::proofs::Row::rows))]
fn next_members(before: Option<Spot>, members: &Members) -> Option<Spot>
    ensures { result ≡ behind before (joined (map missing_in_member members.now)) }
{
    let mut found = before;
    'members: for member in members.as_slice() {
        found = next_member(found, member);
    }
    found
}

fn next_declaration(before: Option<Spot>, declaration: &Declaration) -> Option<Spot>
    ensures { result ≡ behind before (missing_in_declaration declaration.now) }
{
    match declaration {
        Declaration::Event(_) => before,
        Declaration::Monitor(monitor) => next_members(before, &monitor.members),
    }
}

#[tactic(auto, using(crate::proofs::Row::rows))]
fn next_declarations(before: Option<Spot>, declarations: &Declarations) -> Option<Spot>
    ensures { result ≡ behind before (joined (map missing_in_declaration declarations.now)) }
{
    let mut found = before;
    'declarations: for declaration in declarations.as_slice() {
        found = next_declaration(found, declaration);
    }
    found
}

fn in_unit(unit: &Unit) -> Option<Spot>
    ensures { result ≡ first_of (missing_in_unit unit.now) }
{
    next_declarations(None, &unit.declarations)
}

/// The first form of program files that isn't built: the place of its file, and the spot of its first token. `None` exactly
/// where all forms are built. It takes no memory.
#[tactic(auto, using(crate::proofs::Row::files))]
pub fn unbuilt(units: &Units) -> Option<(u32, Spot)>
    requires { length units.now ≤ 4294967295 }
    ensures { result ≡ unbuilt units.now }
{
    'units: for (place, unit) in units.as_slice().iter().enumerate() {
        if let Some(spot) = in_unit(unit) {
            return Some((place as u32, spot));
        }
    }
    None
}
