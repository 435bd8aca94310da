// Lines and views as rows of an archive: numbers for variables that are no constant, and the rows that these make.

#![tactic(auto)]

mod blocks;
mod rows;

pub use blocks::spare_block;
pub use rows::{Cells, ROW_CELLS, frozen_row, marked_row, matches};
