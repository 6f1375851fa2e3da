//! A new file that one living run has for itself. It is held by a lock of the system, which ends
//! with the open file, so that what a killed run left is held by nobody.
//!
//! A run removes and renames a path only while it holds the file that the path stands for, and once
//! it holds one it looks whether that is still so. So no run takes a file from one that lives.

use crate::folder::if_there;
use std::fs::{File, Files, Metadata, OpenFile, OpenOptions};
use std::io::{Error, ErrorKind};
use std::os::unix::fs::MetadataExt;
use std::{fs, io};

/// An open file that one open of it at a time can hold, until that is closed.
pub trait Hold {
    /// It waits for nobody: where another open holds the file, that is an error.
    fn hold(&self) -> io::Result<()>;
}

impl Hold for File {
    fn hold(&self) -> io::Result<()> {
        Ok(self.try_lock()?)
    }
}

/// Makes a file of this path that was not there, and holds it. What a run that has ended left there
/// goes; what a living run holds, or what is no file, as a link or a pipe, is an error and stays.
pub fn hold_new<R: Files>(files: &R, path: &str) -> io::Result<R::File>
where
    R::File: Hold,
{
    remove_left(files, path)?;
    let file = File::create_new(files, path)?;
    hold_at(files, path, &file)?;
    Ok(file)
}

/// Removes the file of this path, if there is one and nobody holds it.
pub fn remove_left<R: Files>(files: &R, path: &str) -> io::Result<()>
where
    R::File: Hold,
{
    let Some(left) = if_there(fs::symlink_metadata(files, path))? else {
        return Ok(());
    };
    if !left.is_file() {
        return Err(Error::from(ErrorKind::AlreadyExists));
    }
    // It is opened to be read and written, so that no pipe that came meanwhile lets this run wait.
    let opened = OpenOptions::new().read(true).write(true).open(files, path);
    match if_there(opened)? {
        Some(file) => {
            hold_at(files, path, &file)?;
            fs::remove_file(files, path)
        }
        None => Ok(()),
    }
}

// Holds a file that was opened by this path. Whoever held it before may have renamed or removed it,
// and a link may have led to it: then the path does not stand for it.
fn hold_at<R: Files>(files: &R, path: &str, file: &R::File) -> io::Result<()>
where
    R::File: Hold,
{
    file.hold()?;
    if is_same_file(&file.metadata()?, &fs::symlink_metadata(files, path)?) {
        Ok(())
    } else {
        Err(Error::from(ErrorKind::ResourceBusy))
    }
}

fn is_same_file(one: &Metadata, other: &Metadata) -> bool {
    one.dev() == other.dev() && one.ino() == other.ino()
}
