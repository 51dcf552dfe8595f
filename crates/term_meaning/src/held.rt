ghost use Rattle.std.specs.Prelude.{◌≡◌, IfOk};

use std::alloc::{AllocError, Global};
use std::marker::Model;
use std::mem;

/// A `Box` that contracts see as its value, which may be exchanged in its place.
#[derive(Drop)]
pub struct Held<T> {
    inner: Box<T>,
}

impl<T> Model for Held<T> {
    ghost Value = { T };

    ghost coded = { T.code };

    ghost view = { λ b. b.inner.value };
}

impl<T> Held<T> {
    /// The value, to be read.
    pub fn get(&self) -> &T
        ensures { result.now ≡ self.now }
    {
        &self.inner
    }

    /// Puts a value in its place, and gives the one that stood there. It takes no memory.
    pub fn put(&mut self, value: T) -> T
        ensures old { result ≡ self.old }
        ensures new { self.new ≡ value }
    {
        mem::replace(&mut self.inner, value)
    }

    /// The value without its box.
    pub fn into_inner(self) -> T
        ensures { result ≡ self }
    {
        let Held { inner } = self;
        Box::into_inner(inner)
    }
}

impl<T: Drop> Held<T> {
    /// A value in a box.
    pub fn new(alloc: Global, value: T) -> Result<Held<T>, AllocError>
        ensures { IfOk result (λ b. b ≡ value) }
    {
        Ok(Held {
            inner: Box::new(alloc, value)?,
        })
    }
}
