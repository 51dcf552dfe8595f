//! Texts, bytes, shapes and values: the plain data that all layers share.
#![tactic(auto)]

mod bytes;
mod shape;
mod text;
mod value;

pub use blocks::{Blocks, Ordered, Ranked};
pub use bytes::Bytes;
pub use lists::{List, Memory};
pub use shape::{EventShape, EventShapes, Field, Fields, Shape, Shapes, copy_shape, same_shape};
pub use text::{Text, Texts};
pub use value::{Items, Pair, Pairs, Value, Values, copy};
