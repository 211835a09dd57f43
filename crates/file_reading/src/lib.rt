// A file of the working folder read into a buffer, for every program.

#![tactic(auto)]

ghost use Rattle.std.specs.Prelude.{◌≤◌, length};
ghost use Rattle.std.specs.Io.{ReadsAtMost};

use std::fs::File;
use std::os::unix::fs::FileExt;
use std::rt::Files;
use std::{io, str};

// Reads an open file into the buffer; answers the number of bytes read. Each read is at a place of the file, which a pipe or a terminal
// does not have: it fails there, and does not wait. The loop is over reads, each of as many bytes as came, and so counts no index.
// By `as`, in this file, where the bound is proved: no `From` has this conversion, and `TryFrom` has an error that cannot happen.
fn read_whole(file: &File, bytes: &mut [u8]) -> io::Result<usize>
    ensures { ReadsAtMost result bytes.new }
{
    let mut done: usize = 0;
    while done < bytes.len() {
        let more = file.read_at(&mut bytes[done..], done as u64)?;
        if more == 0 {
            return Ok(done);
        }
        done += more;
    }
    Ok(done)
}

// Opens a file to read it. Opened for update first, a pipe without a writer does not keep the program waiting.
fn open_file(rt: &impl Files<File = File>, name: &str) -> io::Result<File> {
    File::options()
        .read(true)
        .write(true)
        .open(rt, name)
        .or_else(|_| File::open(rt, name))
}

// Reads a file into the buffer, as far as it holds it; answers the number of bytes read, 0 where the file is absent. A name that is no
// text names no file that can be opened. A read that fails is not the end of the file: the file then counts as absent.
pub fn read_file(rt: &impl Files<File = File>, name: &[u8], bytes: &mut [u8]) -> usize
    ensures { result ≤ length bytes.new }
{
    let Ok(path) = str::from_utf8(name) else {
        return 0;
    };
    let Ok(file) = open_file(rt, path) else {
        return 0;
    };
    read_whole(&file, bytes).unwrap_or(0)
}
