//! Which event types stand in a shape, when none contains itself, and how deep they can nest. It has no code of its own.
#![tactic(auto)]
