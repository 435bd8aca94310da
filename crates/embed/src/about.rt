// What the library was built with, so that a header or a binding that was written for another one is found out.

ghost use Rattle.std.specs.Prelude.{◌≡◌};
ghost use Rattle.embed.specs.About.{version, about};

use model::{MOST_COLUMNS, MOST_LINES, MOST_PARTITIONS, MOST_TABLES, MOST_VIEWS, ROW};

// The version of the functions and structs that this crate exports.
const VERSION: u64 = 1;

// Bytes of a number.
const CELL: usize = 8;

const REPLY: usize = 4 * CELL;

const SESSION: usize = CELL;

// The tables, the views and the words of grants, each behind their count.
const POLICY: usize = (1 + MOST_TABLES + 1 + MOST_VIEWS * ROW + 1 + MOST_VIEWS) * CELL;

// The version, the sizes of the structs in bytes, and the limits that buffers are made by.
#[repr(C)]
#[derive(Clone, Copy)]
pub struct About {
    pub version: u64,
    pub policy_size: u64,
    pub session_size: u64,
    pub reply_size: u64,
    pub loading_size: u64,
    pub opening_size: u64,
    pub decision_size: u64,
    pub most_tables: u64,
    pub most_columns: u64,
    pub most_lines: u64,
    pub most_views: u64,
    pub most_partitions: u64,
    pub most_policy_bytes: u64,
    pub most_apart_cells: u64,
}

// The version alone, for a caller whose structs may be those of another one.
#[unsafe(no_mangle)]
pub extern "C" fn kolbrees_version() -> u64
    ensures { result ≡ version }
{
    VERSION
}

#[unsafe(no_mangle)]
pub extern "C" fn kolbrees_about() -> About
    ensures { result ≡ about }
{
    About {
        version: VERSION,
        policy_size: POLICY as u64,
        session_size: SESSION as u64,
        reply_size: REPLY as u64,
        loading_size: (REPLY + POLICY) as u64,
        opening_size: (REPLY + SESSION) as u64,
        decision_size: (REPLY + SESSION) as u64,
        most_tables: MOST_TABLES as u64,
        most_columns: MOST_COLUMNS as u64,
        most_lines: MOST_LINES as u64,
        most_views: MOST_VIEWS as u64,
        most_partitions: MOST_PARTITIONS as u64,
        most_policy_bytes: load::MOST_BYTES as u64,
        most_apart_cells: apart::MOST_CELLS as u64,
    }
}
