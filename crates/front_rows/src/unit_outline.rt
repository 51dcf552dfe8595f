//! Declarations on one line.

use crate::expr_outline::put_expr;
use crate::stmt_outline::{put_block, put_declared};
use crate::type_outline::put_type;
use epl_tree::{ActionDecl, Declaration, Member, MonitorDecl, Unit};
use std::alloc::AllocError;

/// The declarations of a program file, each behind a blank.
pub fn put_unit(out: &mut String, unit: &Unit) -> Result<(), AllocError> {
    for declaration in unit.declarations.as_slice() {
        match declaration {
            Declaration::Event(event) => {
                out.push_str(" event ")?;
                out.push_str(event.name.text.as_str())?;
                out.push_str(" {")?;
                let mut sign = "";
                for field in event.fields.as_slice() {
                    out.push_str(sign)?;
                    put_declared(out, &field.shape, &field.name)?;
                    sign = "; ";
                }
                out.push_str("}")?;
            }
            Declaration::Monitor(monitor) => put_monitor(out, monitor)?,
        }
    }
    Ok(())
}

fn put_monitor(out: &mut String, monitor: &MonitorDecl) -> Result<(), AllocError> {
    out.push_str(" monitor ")?;
    out.push_str(monitor.name.text.as_str())?;
    out.push_str(" {")?;
    let mut sign = "";
    for member in monitor.members.as_slice() {
        out.push_str(sign)?;
        match member {
            Member::Global(global) => {
                put_declared(out, &global.shape, &global.name)?;
                if let Some(initial) = &global.initial {
                    out.push_str(" := ")?;
                    put_expr(out, initial)?;
                }
            }
            Member::Action(action) => put_action(out, action)?,
        }
        sign = "; ";
    }
    out.push_str("}")
}

fn put_action(out: &mut String, action: &ActionDecl) -> Result<(), AllocError> {
    out.push_str("action ")?;
    out.push_str(action.name.text.as_str())?;
    out.push_str("(")?;
    let mut sign = "";
    for param in action.params.as_slice() {
        out.push_str(sign)?;
        put_declared(out, &param.shape, &param.name)?;
        sign = ", ";
    }
    out.push_str(")")?;
    if let Some(result) = &action.result {
        out.push_str(" returns ")?;
        put_type(out, result)?;
    }
    out.push_str(" ")?;
    put_block(out, &action.body)
}
