ghost use Rattle.std.specs.Prelude.{◌≡◌, IfOk};
ghost use Rattle.stmt_check.specs.Bodies.{known_shape};

use epl_values::{Shape, copy_shape};
use std::alloc::{AllocError, Global};

/// A shape that is known, or any.
pub(crate) fn known(alloc: Global, shape: &Option<Shape>) -> Result<Shape, AllocError>
    ensures { IfOk result (λ s. s ≡ known_shape shape.now) }
{
    match shape {
        Some(shape) => copy_shape(alloc, shape),
        None => Ok(Shape::Integer),
    }
}
