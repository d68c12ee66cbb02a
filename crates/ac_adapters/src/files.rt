//! The files of the system as a library.

ghost use Rattle.std.specs.Prelude.{◌≡◌, None, false};

use crate::again;
use ac_outside::{Failed, Library};
use std::fs;
use std::marker::Model;
use std::rt::Files;

/// The files of the system as texts, named by their paths.
///
/// It tells no texts. What is left of the open file it tells where the file's reader does; a real
/// file does not.
#[derive(Drop)]
pub struct FileLibrary<'a, R: Files> {
    files: &'a R,
    file: Option<R::File>,
    faults: u64,
}

impl<'a, R: Files> Model for FileLibrary<'a, R> {
    ghost use Rattle.std.specs.Prelude.{is_some, option_and_then};
    ghost use Rattle.ac_adapters.specs.inner.Reading.{Reading};

    ghost Value = { Reading };

    ghost view = { λ s. record { is_open = is_some s.file; left = option_and_then R.File.remaining s.file; faults = s.faults } };
}

impl<'a, R: Files> FileLibrary<'a, R> {
    /// The files of this runtime, none of them open.
    pub fn new(files: &'a R) -> FileLibrary<'a, R>
        ensures { result ≡ record { is_open = false; left = None; faults = 0 } }
    {
        FileLibrary {
            files,
            file: None,
            faults: 0,
        }
    }

    /// The number of calls so far that have failed.
    pub fn faults(&self) -> u64
        ensures { result ≡ self.now.faults }
    {
        self.faults
    }
}

impl<R: Files> Library for FileLibrary<'_, R> {
    ghost told = { λ s.
        record { text_at = λ _. None; is_open = s.is_open; left = s.left; opens = None; reads = None; names = None; faults = s.faults } };

    ghost tells_opens = { λ _ _ told. told };

    ghost tells_reads = { λ _ _ told. told };

    fn open_text(&mut self, name: &str) -> Result<(), Failed> {
        match fs::open(self.files, name) {
            Ok(file) => {
                self.file = Some(file);
                Ok(())
            }
            Err(_) => {
                self.faults = self.faults.saturating_add(1);
                Err(Failed)
            }
        }
    }

    fn read(&mut self, into: &mut [u8]) -> Result<usize, Failed> {
        let Some(file) = &mut self.file else {
            unreachable!();
        };
        match again::read(file, into) {
            Ok(count) => Ok(count),
            Err(_) => {
                self.faults = self.faults.saturating_add(1);
                Err(Failed)
            }
        }
    }
}
