// Reading files, arguments, and room for a policy.

#![tactic(auto)]

ghost use Rattle.std.specs.Prelude.{◌≡◌, ◌+◌, length};
ghost use Rattle.policy_text.specs.Text.{most_policy_bytes};
ghost use Rattle.io.specs.Counts.{IsPrefixLen};

use std::env::FillError;
use std::fs;
use std::io::Read;
use std::rt::{Env, Files};

// Room for a policy file one byte past its limit, so that a longer one is turned back as too long.
pub fn policy_room() -> [u8; load::MOST_BYTES + 1]
    ensures { most_policy_bytes + 1 ≡ length result }
{
    [0; load::MOST_BYTES + 1]
}

// The first bytes of an open file, as many as there is room for. A read that fails ends them. No `for`: a read says how far it came.
fn fill<R: Read>(file: &mut R, buffer: &mut [u8]) -> usize
    ensures { IsPrefixLen result buffer.new }
{
    let mut n = 0;
    while n < buffer.len() {
        match file.read(&mut buffer[n..]) {
            Ok(0) => break,
            Ok(more) => n += more,
            Err(_) => break,
        }
    }
    n
}

// The first bytes of a file, as many as there is room for. A file that cannot be opened is taken as empty, as one is whose path is no
// UTF-8.
pub fn read_file(rt: &impl Files, path: &[u8], buffer: &mut [u8]) -> usize
    ensures { IsPrefixLen result buffer.new }
{
    let Ok(name) = std::str::from_utf8(path) else {
        return 0;
    };
    match fs::open(rt, name) {
        Ok(mut file) => fill(&mut file, buffer),
        Err(_) => 0,
    }
}

// The bytes of an argument of the program; none where there is no such argument, or where it is longer than the buffer.
pub fn argument(rt: &impl Env, i: usize, buffer: &mut [u8]) -> usize
    ensures { IsPrefixLen result buffer.new }
{
    match rt.arg(i, buffer) {
        Ok(n) => n,
        Err(_) => 0,
    }
}

// Whether the program was given such an argument, be it of any length.
pub fn has_argument(rt: &impl Env, i: usize) -> bool {
    !matches!(rt.arg(i, &mut []), Err(FillError::NotPresent))
}
