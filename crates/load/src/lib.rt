// Loading a policy text.

#![tactic(auto)]

mod enter;

ghost use Rattle.std.specs.Prelude.{◌≡◌, ◌&&◌, ◌≤◌, ◌<◌, ◌^◌, length};
ghost use Rattle.policy_text.specs.Text.{Block as TheBlock, nothing, refused as refusedLoading, is_next, next_block, load as loadText};
ghost use Rattle.policy_text.specs.Policy.{policy_value};
ghost use Rattle.load.specs.Value.{loading_value};
ghost use Rattle.load.specs.Steps.{BlocksLoaded, block_value};
ghost use Rattle.load.specs.Entering.{Entering, Stepping};

use enter::Entered;
use model::{Line, MOST_COLUMNS, MOST_TABLES, MOST_VIEWS, Policy, Refusal, Tables, Term};

// The most bytes of a policy text.
pub const MOST_BYTES: usize = 16384;

// The blocks of a policy text.
#[derive(Clone, Copy)]
enum Block {
    Tables,
    Views,
    Partitions,
}

// The block that is read, whether it has a line of values, and what is declared so far.
#[derive(Clone, Copy)]
struct Progress {
    block: Block,
    started: bool,
    policy: Policy,
}

// No table, view or partition, every entry unused.
pub fn empty_policy() -> Policy
    ensures { result ≡ policy_value nothing }
{
    let unused = Line {
        table: 0,
        terms: [Term { mark: 0, number: 0 }; MOST_COLUMNS],
    };
    Policy {
        tables: Tables {
            count: 0,
            columns: [0; MOST_TABLES],
        },
        view_count: 0,
        views: [unused; MOST_VIEWS],
        partition_count: 0,
        grants: [0; MOST_VIEWS],
    }
}

fn refused(number: u64, line: u64) -> Result<Policy, Refusal>
    ensures { result ≡ loading_value (refusedLoading number line) }
{
    Err(Refusal { number, line })
}

// Whether the line is the names line of the block behind this one, and this one has a line of values.
fn is_next(started: bool, block: Block, line: &[u8]) -> bool
    ensures { (b : TheBlock) → block ≡ block_value b → result ≡ (started && is_next b line.now) }
{
    if !started {
        return false;
    }
    match block {
        Block::Tables => text::same(line, &text::VIEW_TABLE_TERMS),
        Block::Views => text::same(line, &text::PARTITION_VIEWS),
        Block::Partitions => false,
    }
}

// The block behind one; none is behind the last.
fn next_block(block: Block) -> Block
    ensures { (b : TheBlock) → block ≡ block_value b → result ≡ block_value (next_block b) }
{
    match block {
        Block::Tables => Block::Views,
        Block::Views | Block::Partitions => Block::Partitions,
    }
}

// What a line of values of a block declares.
fn enter_line(block: Block, p: Policy, line: &[u8]) -> Entered
    requires { length line.now < 2 ^ 32 }
    ensures { (b : TheBlock) → block ≡ block_value b → Entering b p line.now result }
{
    match block {
        Block::Tables => enter::enter_table(p, line),
        Block::Views => enter::enter_view(p, line),
        Block::Partitions => enter::enter_partition(p, line),
    }
}

// What a line turns the text back with, or 0, and how it goes on.
#[derive(Clone, Copy)]
struct Stepped {
    fault: u64,
    progress: Progress,
}

fn step(g: Progress, line: &[u8]) -> Stepped
    requires { length line.now < 2 ^ 32 }
    ensures { Stepping g line.now result }
{
    let policy = g.policy;
    if is_next(g.started, g.block, line) {
        return Stepped {
            fault: 0,
            progress: Progress {
                block: next_block(g.block),
                started: false,
                policy,
            },
        };
    }
    let e = enter_line(g.block, policy, line);
    let entered = e.policy;
    Stepped {
        fault: e.fault,
        progress: Progress {
            block: g.block,
            started: true,
            policy: entered,
        },
    }
}

// The blocks without their first names line, all of a text whose first line has the number `start`.
fn load_lines(text: &[u8], start: u64) -> Result<Policy, Refusal>
    requires { (length text.now < 2 ^ 32) × (start < 2 ^ 32) }
    ensures { BlocksLoaded text.now start result }
{
    let mut g = Progress {
        block: Block::Tables,
        started: false,
        policy: empty_policy(),
    };
    let mut line = start;
    let mut at = 0;
    while at < text.len() {
        let rest = &text[at..];
        let next = text::next_line(rest, line);
        if rest.len() < next.at {
            return refused(1, line);
        }
        let r = step(g, &rest[..next.at - 1]);
        if r.fault != 0 {
            return refused(r.fault, line);
        }
        g = r.progress;
        line = next.line;
        at = at + next.at;
    }
    if let Block::Tables | Block::Views = g.block {
        return refused(1, line);
    }
    if !g.started {
        return refused(1, line);
    }
    Ok(g.policy)
}

// The policy of a text, or the number that turns it back and the line.
pub fn load(text: &[u8]) -> Result<Policy, Refusal>
    ensures { result ≡ loading_value (loadText text.now) }
{
    if MOST_BYTES < text.len() {
        return refused(7, 0);
    }
    let start = text::after_names(text, &text::TABLE_COLUMNS);
    if start.at == 0 {
        return refused(1, 1);
    }
    let from = start.at;
    load_lines(&text[from..], start.line)
}
