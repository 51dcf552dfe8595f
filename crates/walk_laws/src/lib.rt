//! Laws of how calls that do what runs mean are put together to walk expressions, statements and bodies.
#![tactic(auto)]
