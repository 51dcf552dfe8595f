ghost use Rattle.std.specs.Prelude.{◌≡◌, ◌+◌, ◌++◌, ◌<◌, ◌≤◌, map, min, length, IfOk, codes};
ghost use Rattle.type_table.specs.Names.{number_in};
ghost use Rattle.type_table.specs.Types.{type_by, known};
ghost use Rattle.type_table.specs.Heads.{global_head, param_head, result_head, result_known, action_head, globals_in, actions_from, monitor_head, is_onload, has_onload};

use crate::names::Names;
use crate::table::{
    ActionHead, ActionHeads, GlobalHead, GlobalHeads, MonitorHead, ParamHead, ParamHeads,
    ResultHead,
};
use crate::types::{known, short};
use epl_tree::{ActionDecl, GlobalDecl, Member, MonitorDecl, Param, TypeExpr};
use epl_values::Text;
use std::alloc::{AllocError, Global};

fn global_head(alloc: Global, names: &Names, global: &GlobalDecl) -> Result<GlobalHead, AllocError>
    ensures { IfOk result (λ h. h ≡ global_head (number_in names.now) global.now) }
{
    Ok(GlobalHead {
        name: Text::of(alloc, global.name.text.as_str())?,
        shape: known(alloc, names, &global.shape)?,
    })
}

fn param_head(alloc: Global, names: &Names, param: &Param) -> Result<ParamHead, AllocError>
    ensures { IfOk result (λ h. h ≡ param_head (number_in names.now) param.now) }
{
    Ok(ParamHead {
        name: Text::of(alloc, param.name.text.as_str())?,
        shape: known(alloc, names, &param.shape)?,
    })
}

fn param_heads(alloc: Global, names: &Names, params: &[Param]) -> Result<ParamHeads, AllocError>
    ensures { IfOk result (λ h. h ≡ map (param_head (number_in names.now)) params.now) }
{
    let mut heads = ParamHeads::new(alloc);
    'params: for param in params {
        heads.push(param_head(alloc, names, param)?)?;
    }
    Ok(heads)
}

fn result_head(
    alloc: Global,
    names: &Names,
    written: &Option<TypeExpr>,
) -> Result<ResultHead, AllocError>
    ensures { IfOk result (λ h. h ≡ result_head (number_in names.now) written.now) }
{
    match written {
        None => Ok(ResultHead::Nothing),
        Some(written) => match known(alloc, names, written)? {
            Some(shape) => Ok(ResultHead::Value(shape)),
            None => Ok(ResultHead::Unknown),
        },
    }
}

fn action_head(
    alloc: Global,
    names: &Names,
    number: usize,
    action: &ActionDecl,
) -> Result<ActionHead, AllocError>
    ensures { IfOk result (λ h. h ≡ action_head (number_in names.now) number action.now) }
{
    Ok(ActionHead {
        name: Text::of(alloc, action.name.text.as_str())?,
        number: short(number),
        params: param_heads(alloc, names, action.params.as_slice())?,
        result: result_head(alloc, names, &action.result)?,
    })
}

fn globals_in(alloc: Global, names: &Names, members: &[Member]) -> Result<GlobalHeads, AllocError>
    ensures { IfOk result (λ h. h ≡ globals_in (number_in names.now) members.now) }
{
    let mut heads = GlobalHeads::new(alloc);
    'members: for member in members {
        if let Member::Global(global) = member {
            heads.push(global_head(alloc, names, global)?)?;
        }
    }
    Ok(heads)
}

/// The actions of a monitor, whose numbers begin with this one.
fn actions_from(
    alloc: Global,
    names: &Names,
    first: u16,
    members: &[Member],
) -> Result<ActionHeads, AllocError>
    ensures { IfOk result (λ h. h ≡ actions_from (number_in names.now) first members.now) }
{
    let mut heads = ActionHeads::new(alloc);
    'members: for member in members {
        if let Member::Action(action) = member {
            let number = first as usize + heads.len();
            heads.push(action_head(alloc, names, number, action)?)?;
        }
    }
    Ok(heads)
}

/// The head of a monitor of a file, with the number of its first action.
pub fn monitor_head(
    alloc: Global,
    names: &Names,
    file: u32,
    first: u16,
    monitor: &MonitorDecl,
) -> Result<MonitorHead, AllocError>
    ensures { IfOk result (λ h. h ≡ monitor_head (number_in names.now) file first monitor.now) }
{
    Ok(MonitorHead {
        name: Text::of(alloc, monitor.name.text.as_str())?,
        file,
        globals: globals_in(alloc, names, monitor.members.as_slice())?,
        actions: actions_from(alloc, names, first, monitor.members.as_slice())?,
    })
}

fn is_onload(member: &Member) -> bool
    ensures { result ≡ is_onload member.now }
{
    match member {
        Member::Global(_) => false,
        Member::Action(action) => action.name.text.as_str() == "onload",
    }
}

/// Whether a member is an action named `onload`.
pub fn has_onload(members: &[Member]) -> bool
    ensures { result ≡ has_onload members.now }
{
    'members: for member in members {
        if is_onload(member) {
            return true;
        }
    }
    false
}
