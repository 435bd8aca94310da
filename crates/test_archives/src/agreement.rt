// Which archives agree on the views of a partition, and whether two that agree tell a query apart.

ghost use Rattle.std.specs.Prelude.{◌<◌};

use crate::answers;
use crate::family::as_query;

// The first archive on which both views answer as on this one.
fn first_alike(v: &[u16; 512], w: &[u16; 512], archive: usize) -> usize
    requires { archive < 512 }
{
    for k in 0..archive {
        if v[k] == v[archive] && w[k] == w[archive] {
            return k;
        }
    }
    archive
}

// For each archive the first that agrees with it on both views. NONE answers the same on every archive.
pub fn fill(first: u64, second: u64, alike: &mut [usize; 512]) {
    let mut v = [0; 512];
    let mut w = [0; 512];
    answers::fill(as_query(first), &mut v);
    answers::fill(as_query(second), &mut w);
    for (archive, other) in alike.iter_mut().enumerate() {
        *other = first_alike(&v, &w, archive);
    }
}

// Whether some archive gives the query another answer than the first that agrees with it. Its number is below 512 as it is;
// the remainder says so.
pub fn told_apart(alike: &[usize; 512], answers: &[u16; 512]) -> bool {
    alike
        .iter()
        .zip(answers)
        .any(|(other, answer)| *answer != answers[*other % 512])
}
