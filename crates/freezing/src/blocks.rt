// A block of numbers among which no constant of the views and of the query stands: one number for each variable, and behind these one
// for each column.

ghost use Rattle.std.specs.Prelude.{◌≡◌, ◌*◌, ◌≤◌, length};
ghost use Rattle.model.specs.Limits.{most_views, most_lines};
ghost use Rattle.model.specs.Rows.{row_long, HasRow};
ghost use Rattle.freezing.specs.Blocks.{most_blocks, RowTaken, RowsTaken, SpareFound};

use model::{CONSTANT, LAST_VARIABLE, MOST_COLUMNS, MOST_LINES, MOST_VIEWS};

// How many variables there are; a column's number in a block stands behind these.
pub const VARIABLES: u64 = LAST_VARIABLE + 1;

const BLOCK: u64 = VARIABLES + MOST_COLUMNS as u64;

// One block more than there are terms: one at least is spare, whatever constants the terms are.
const BLOCKS: usize = (MOST_VIEWS + MOST_LINES) * MOST_COLUMNS + 1;

type Blocks = [u64; BLOCKS];

// The blocks in which a constant of row k stands, beside those that are taken.
fn take_row(rows: &[u64], k: usize, taken: &mut Blocks)
    requires { HasRow rows.now k × (length taken.old ≡ most_blocks) }
    ensures { RowTaken rows.now k taken.old taken.new }
{
    for p in 0..MOST_COLUMNS {
        let t = model::term_at(rows, k, p);
        let block = t.number / BLOCK;
        if t.mark == CONSTANT && block < BLOCKS as u64 {
            taken[block as usize] = 1;
        }
    }
}

// The same of the first rows.
fn take_rows(rows: &[u64], count: usize, taken: &mut Blocks)
    requires { (count * row_long ≤ length rows.now) × (length taken.old ≡ most_blocks) }
    ensures { RowsTaken rows.now count taken.old taken.new }
{
    for k in 0..count {
        take_row(rows, k, taken);
    }
}

// The first number of a block that is not taken by the rows of the views and of the lines.
pub fn spare_block(views: &[u64], lines: &[u64]) -> u64
    requires { (most_views * row_long ≤ length views.now) × (most_lines * row_long ≤ length lines.now) }
    ensures { SpareFound views.now lines.now result }
{
    let mut taken = [0; BLOCKS];
    take_rows(views, MOST_VIEWS, &mut taken);
    take_rows(lines, MOST_LINES, &mut taken);
    let j = taken.iter().position(|mark| *mark == 0).unwrap();
    j as u64 * BLOCK
}
