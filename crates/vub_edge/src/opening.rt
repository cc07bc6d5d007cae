// How files are opened.
ghost use Rattle.std.specs.Prelude.{◌≡◌, true};
ghost use Rattle.std.specs.Fs.{new_options, with_read, with_write, with_append, with_create, with_create_new};

use std::fs::{Files, OpenFile, OpenOptions};
use std::io::ErrorKind;
use std::{fs, io};

// To read and write a file that is there.
fn to_find() -> OpenOptions
    ensures { result ≡ with_write (with_read new_options true) true }
{
    let mut options = OpenOptions::new();
    options.read(true).write(true);
    options
}

// To make a file that isn't there.
fn to_create() -> OpenOptions
    ensures { result ≡ with_create_new (with_write (with_read new_options true) true) true }
{
    let mut options = OpenOptions::new();
    options.read(true).write(true).create_new(true);
    options
}

// To write at the end of a file, which is made where it is missing.
fn to_append() -> OpenOptions
    ensures { result ≡ with_create (with_append new_options true) true }
{
    let mut options = OpenOptions::new();
    options.append(true).create(true);
    options
}

// Removes the name, if it is there. Who has the file open keeps it.
fn remove<R: Files>(files: &R, name: &str) -> io::Result<()> {
    match fs::remove_file(files, name) {
        Err(error) if error.kind() == ErrorKind::NotFound => Ok(()),
        other => other,
    }
}

// The file of that name, and its length in bytes.
pub fn find<R: Files>(files: &R, name: &str) -> io::Result<(R::File, u64)> {
    let file = to_find().open(files, name)?;
    let size = file.metadata()?.len();
    Ok((file, size))
}

// A new file of that name, of so many zero bytes. An earlier one loses its name, and nothing else.
pub fn create<R: Files>(files: &R, name: &str, size: u64) -> io::Result<R::File> {
    remove(files, name)?;
    let file = to_create().open(files, name)?;
    file.set_len(size)?;
    Ok(file)
}

// The file of that name, opened for appending, and made where it is missing.
pub fn append<R: Files>(files: &R, name: &str) -> io::Result<R::File> {
    to_append().open(files, name)
}
