ghost use Rattle.std.specs.Prelude.{◌≡◌, ℕ, ◌-◌, ◌<◌, ◌≤◌, List, length, Option, IfSome, false};
ghost use Rattle.std.specs.Option.{option_map};
ghost use Rattle.outside.specs.Counts.{Counts};
ghost use Rattle.outside.specs.Told.{Told, after_begin, BeginGives, after_read, ReadGives, GotWithin, is_failed_got, is_failed_found, is_missing};
ghost use Rattle.outside.specs.Taken.{PutWithin, is_failed_put, taken_by, after_put};

use epl_values::Text;

/// The answer to a read.
#[derive(Clone, Copy, Debug, PartialEq, Eq)]
pub enum Got {
    /// How many bytes stand at the front of the piece now: at least one.
    Bytes(usize),
    /// The file has no further bytes.
    End,
    /// The outside failed.
    Failed,
}

/// The answer to a file's beginning.
#[derive(Clone, Copy, Debug, PartialEq, Eq)]
pub enum Found {
    /// The file is there, to be read from its first byte on.
    Here,
    /// There is no file of this name.
    Missing,
    /// The outside failed.
    Failed,
}

/// The answer to a put.
#[derive(Clone, Copy, Debug, PartialEq, Eq)]
pub enum Put {
    /// How many bytes of the piece's front were taken: at least one.
    Took(usize),
    /// The outside failed, and took nothing.
    Failed,
}

/// A file that is read from front to back.
pub trait Source {
    /// How many calls failed.
    ghost faults: { Self → ℕ };

    /// How many names were not there.
    ghost missed: { Self → ℕ };

    /// The files, if they are told, with the name and the rest of the one begun last.
    ghost told: { Self → Option Told };

    /// Reads the next bytes of the file begun last to the front of the piece.
    fn read(&mut self, into: &mut [u8]) -> Got
        requires { 0 < length into.old }
        ensures within { GotWithin result (length into.old) }
        ensures faults { Counts (is_failed_got result) (faults self.old) (faults self.new) }
        ensures missed { missed self.new ≡ missed self.old }
        ensures leaves { told self.new ≡ option_map (after_read result) (told self.old) }
        ensures gives { IfSome (told self.old) (λ t. ReadGives t.rest result into.new) };
}

/// Files by their names.
pub trait Shelf: Source {
    /// Begins the file of this name.
    fn begin(&mut self, name: Text) -> Found
        ensures faults { Counts (is_failed_found result) (Self.faults self.old) (Self.faults self.new) }
        ensures missed { Counts (is_missing result) (Self.missed self.old) (Self.missed self.new) }
        ensures leaves { Self.told self.new ≡ option_map (after_begin name result) (Self.told self.old) }
        ensures gives { IfSome (Self.told self.old) (λ t. BeginGives (t.files name) result) };
}

/// A place that takes bytes.
pub trait Sink {
    /// How many calls failed.
    ghost faults: { Self → ℕ };

    /// The bytes taken, if they are told.
    ghost taken: { Self → Option (List ℕ) };

    /// How many bytes there is room for, if that is told.
    ghost room: { Self → Option ℕ };

    /// Takes bytes from the front of the piece.
    fn put(&mut self, piece: &[u8]) -> Put
        requires { 0 < length piece.now }
        ensures within { PutWithin result (length piece.now) }
        ensures faults { Counts (is_failed_put result) (faults self.old) (faults self.new) }
        ensures appends { taken self.new ≡ option_map (after_put result piece.now) (taken self.old) }
        ensures room { room self.new ≡ option_map (λ r. r - taken_by result) (room self.old) }
        ensures fits { IfSome (room self.old) (λ r. length piece.now ≤ r → is_failed_put result ≡ false) };
}
