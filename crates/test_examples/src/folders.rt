// The examples of `data/`: a folder each, their names in `cases.txt`, one a line.

ghost use Rattle.std.specs.Prelude.{◌≤◌, length};
ghost use Rattle.io.specs.Counts.{IsPrefixLen};

use crate::compare;
use std::rt::Files;

// The longest name of a folder; a longer one has no files.
const LONGEST_NAME: usize = 255;

// The bytes of a file of a folder; its name has 13 bytes at most, with the `/` before it.
fn read(rt: &impl Files, folder: &[u8], file: &[u8], buffer: &mut [u8]) -> usize
    requires { length file.now ≤ 13 }
    ensures { IsPrefixLen result buffer.new }
{
    if LONGEST_NAME < folder.len() {
        return 0;
    }
    let mut path = [0; 268];
    let n = writing::put_bytes(&mut path, 0, folder);
    let m = writing::put_bytes(&mut path, n, file);
    files::read_file(rt, &path[..m], buffer)
}

// Runs the desk on the two texts of a folder, and compares.
fn run(rt: &impl Files, folder: &[u8]) {
    let mut policy = files::policy_room();
    let policy_bytes = read(rt, folder, b"/policy.txt", &mut policy);
    let mut queries = io::large_buffer();
    let query_bytes = read(rt, folder, b"/queries.txt", &mut queries);
    let mut expected = run::output_room();
    let expected_bytes = read(rt, folder, b"/expected.txt", &mut expected);
    let mut out = run::output_room();
    let n = run::run(&policy[..policy_bytes], &queries[..query_bytes], &mut out);
    compare::compare(folder, &out[..n], &expected[..expected_bytes]);
}

// Runs every folder named, and counts them.
pub fn run_all(rt: &impl Files, names: &[u8]) -> u64 {
    let mut n = 0;
    for line in names.split_inclusive(|b| *b == b'\n') {
        run(rt, line.strip_suffix(b"\n").unwrap_or(line));
        n = test_expect::counted(n);
    }
    n
}
