ghost use Rattle.std.specs.Prelude.{◌≡◌, ◌<◌, [], length, IfSome, false};
ghost use Rattle.std.specs.Option.{option_map};
ghost use Rattle.outside.specs.Stored.{file_in, rest_at};

use crate::{Found, Got};
use epl_values::{Bytes, List, Text};

/// A file in memory.
#[derive(Debug, Drop)]
pub struct StoredFile {
    pub name: Text,
    pub bytes: Bytes,
}

/// Files in memory, with different names. Of several with one name the first counts.
pub type StoredFiles = List<StoredFile>;

/// Files in memory, with the name of the one begun last, its place and how far it is read.
#[derive(Debug, Drop)]
pub struct Store {
    files: StoredFiles,
    name: Option<Text>,
    place: usize,
    from: usize,
}

// The place of the first file of this name.
fn place_of(files: &[StoredFile], name: &str) -> Option<usize>
    ensures file { file_in files.now name.now ≡ option_map (λ place. rest_at files.now place 0) result }
    ensures within { IfSome result (λ place. place < length files.now) }
{
    let mut place = 0;
    'files: for file in files {
        if file.name.as_str() == name {
            return Some(place);
        }
        place += 1;
    }
    None
}

impl Store {
    ghost use Rattle.outside.specs.Stored.{store_told, first_told};
    ghost use Rattle.outside.specs.Told.{after_begin, BeginGives, after_read, ReadGives, GotWithin, is_failed_got, is_failed_found};

    /// The files before one is begun.
    pub fn new(files: StoredFiles) -> Store
        ensures { store_told result ≡ first_told files }
    {
        let place = files.len();
        Store {
            files,
            name: None,
            place,
            from: 0,
        }
    }

    /// Takes this name as the one begun last, of which nothing is read.
    pub fn close(&mut self, name: Text)
        ensures { store_told self.new ≡ after_begin name Found.Failed (store_told self.old) }
    {
        self.name = Some(name);
        self.place = self.files.len();
        self.from = 0;
    }

    /// Begins the file of this name.
    pub fn begin(&mut self, name: Text) -> Found
        ensures never { is_failed_found result ≡ false }
        ensures leaves { store_told self.new ≡ after_begin name result (store_told self.old) }
        ensures gives { BeginGives (file_in self.old.files name) result }
    {
        self.from = 0;
        match place_of(self.files.as_slice(), name.as_str()) {
            Some(place) => {
                self.name = Some(name);
                self.place = place;
                Found::Here
            }
            None => {
                self.name = Some(name);
                self.place = self.files.len();
                Found::Missing
            }
        }
    }

    /// Reads the next bytes of the file begun last.
    pub fn read(&mut self, into: &mut [u8]) -> Got
        requires { 0 < length into.old }
        ensures never { is_failed_got result ≡ false }
        ensures within { GotWithin result (length into.old) }
        ensures leaves { store_told self.new ≡ after_read result (store_told self.old) }
        ensures gives { ReadGives (store_told self.old).rest result into.new }
    {
        if self.place >= self.files.len() {
            return Got::End;
        }
        let bytes = self.files.get(self.place).bytes.as_slice();
        if self.from >= bytes.len() {
            return Got::End;
        }
        let count = into.len().min(bytes.len() - self.from);
        into[..count].copy_from_slice(&bytes[self.from..self.from + count]);
        self.from += count;
        Got::Bytes(count)
    }
}
