//! Values keep their shapes under the steps of bodies: parts, changes in place, methods, defaults.
#![tactic(auto)]
