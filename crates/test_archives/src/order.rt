// The order of labels beside archives. One line's label is at or below another's exactly when each view of the policy that determines the
// other line determines this one. A view determines a line when no two archives that agree on the view tell the line apart: which do is
// taken from archives alone. Here are the lines of one table.

ghost use Rattle.std.specs.Prelude.{◌<◌, ◌≤◌, length};

use crate::family::NONE;
use crate::{agreement, answers, family, tally, texts};
use model::Policy;

// How many lines there are. A view is a line too.
pub const LINES: usize = 36;

// Of the ordered pairs of lines under one policy those that are at or below by the archives, and of these those whose second line no view
// of the policy determines. Those that only the desk puts at or below, or only the archives, count against the desk.
#[derive(Clone, Copy, Default)]
pub struct Compared {
    pub pairs: u64,
    pub below: u64,
    pub no_view: u64,
    pub desk_alone: u64,
    pub archives_alone: u64,
}

// Whether each view determines each line, the lines of view v at place v.
pub type Determined = [[bool; LINES]; LINES];

// Whether no two archives that agree tell a line apart.
fn never_apart(alike: &[usize; 512], line: u64) -> bool {
    let mut answers = [0; 512];
    answers::fill(family::as_query(line), &mut answers);
    !agreement::told_apart(alike, &answers)
}

// Whether a view determines a line, for each line.
fn fill_view(lines: &mut [bool; LINES], view: u64) {
    let mut alike = [0; 512];
    agreement::fill(view, NONE, &mut alike);
    for (line, determined) in lines.iter_mut().enumerate() {
        *determined = never_apart(&alike, line as u64);
    }
}

fn fill_determined(determined: &mut Determined) {
    for (view, lines) in determined.iter_mut().enumerate() {
        fill_view(lines, view as u64);
    }
}

// The label of each line by the desk.
fn fill_labels(p: Policy, labels: &mut [u64; LINES]) {
    for (line, label) in labels.iter_mut().enumerate() {
        let l = texts::labels(p, family::as_query(line as u64));
        *label = l.first;
    }
}

// A line under a policy of two views: its label by the desk, and by the archives whether each view determines it.
#[derive(Clone, Copy)]
struct Line {
    label: u64,
    by_first: bool,
    by_second: bool,
}

// Line a, whose label is given, under the policy of two views.
fn line_under(label: u64, determined: &Determined, first: usize, second: usize, a: usize) -> Line
    requires { (first < 36) × (second < 36) × (a < 36) }
{
    Line {
        label,
        by_first: determined[first][a],
        by_second: determined[second][a],
    }
}

// Whether each view that determines line b determines line a.
fn at_or_below(a: Line, b: Line) -> bool {
    if b.by_first && !a.by_first {
        return false;
    }
    !b.by_second || a.by_second
}

// One pair of lines, as the desk compares their labels and as the archives do.
fn count(t: Compared, a: Line, b: Line) -> Compared {
    let by_desk = desk::compare_labels(a.label, b.label);
    let by_archives = at_or_below(a, b);
    let mut next = t;
    next.pairs = tally::next_if(t.pairs, true);
    next.below = tally::next_if(t.below, by_archives);
    next.no_view = tally::next_if(t.no_view, !b.by_first && !b.by_second);
    next.desk_alone = tally::next_if(t.desk_alone, by_desk && !by_archives);
    next.archives_alone = tally::next_if(t.archives_alone, by_archives && !by_desk);
    next
}

// Every pair of the first lines, which have these labels under the policy of two views.
pub fn compare(
    t: Compared,
    determined: &Determined,
    labels: &[u64],
    first: usize,
    second: usize,
) -> Compared
    requires { (length labels.now ≤ 36) × (first < 36) × (second < 36) }
{
    let mut next = t;
    for (i, x) in labels.iter().enumerate() {
        let a = line_under(*x, determined, first, second, i);
        for (j, y) in labels.iter().enumerate() {
            let b = line_under(*y, determined, first, second, j);
            next = count(next, a, b);
        }
    }
    next
}

// Every pair of lines under the policy of two views.
fn try_policy(t: Compared, determined: &Determined, first: usize, second: usize) -> Compared
    requires { (first < 36) × (second < 36) }
{
    let mut labels = [0; LINES];
    fill_labels(texts::policy(first as u64, second as u64), &mut labels);
    compare(t, determined, &labels, first, second)
}

// Every policy of two views, which ascend and may be equal.
pub fn try_all() -> Compared {
    let mut determined = [[false; LINES]; LINES];
    fill_determined(&mut determined);
    let mut t = Compared::default();
    for first in 0..LINES {
        for second in first..LINES {
            t = try_policy(t, &determined, first, second);
        }
    }
    t
}

pub fn print(name: &[u8], t: Compared) {
    tally::print_count(name, t.pairs);
    tally::print_count(b", at or below by the archives ", t.below);
    tally::print_count(
        b", of these with a second line that no view determines ",
        t.no_view,
    );
    tally::print_count(b"\nat or below by the desk alone ", t.desk_alone);
    tally::print_count(b", by the archives alone ", t.archives_alone);
    io::write_all(1, b"\n");
}
