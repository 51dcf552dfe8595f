//! What the language says of values: their costs, order, texts, defaults and shapes.
#![tactic(auto)]

mod costs;
mod defaults;
mod laws;
mod orders;
mod shapes;
mod texts;

pub use costs::cost;
pub use defaults::default_of;
pub use laws::{defaults_have_shapes, shapes_by_place};
pub use orders::order;
pub use shapes::has_shape;
pub use texts::text_of;
