// The page of a case, beside the one that it should be.

ghost use Rattle.std.specs.Prelude.{◌≤◌, length};
ghost use Rattle.page.specs.Sizes.{most_page};
ghost use Rattle.run.specs.Sizes.{most_input};

use text::Numeral;

// The number that an argument says, or 0, which is no partition.
fn number(word: &[u8]) -> u64 {
    match text::read_numeral(word) {
        Numeral::Value(v) => v,
        _ => 0,
    }
}

// The page that a mode writes; none where there is no such mode.
fn page_of(
    mode: &[u8],
    first: &[u8],
    second: &[u8],
    policy: &[u8],
    query: &[u8],
    out: &mut [u8],
) -> usize
    requires { most_page ≤ length out.old }
    ensures { result ≤ length out.new }
{
    match mode {
        b"check" => mode_check::check_page(policy, out),
        b"labels" => mode_labels::labels_page(policy, query, out),
        b"compare" => mode_compare::compare_page(first, second, out),
        b"explain" => mode_explain::explain_page(policy, number(first), query, out),
        b"grant" => mode_grant::grant_page(policy, number(first), query, out),
        b"apart" => mode_apart::apart_page(policy, number(first), query, out),
        _ => 0,
    }
}

// Whether the page of a file of rules has these bytes; it has a room of its own.
fn is_rules_page(policy: &[u8], rules: &[u8], expected: &[u8]) -> bool
    requires { length rules.now ≤ most_input }
{
    let mut out = mode_rules::rules_room();
    let n = mode_rules::rules_page(policy, rules, &mut out);
    &out[..n] == expected
}

// Whether the page has these bytes.
pub fn is_page(
    mode: &[u8],
    first: &[u8],
    second: &[u8],
    policy: &[u8],
    query: &[u8],
    expected: &[u8],
) -> bool
    requires { length query.now ≤ most_input }
{
    if matches!(mode, b"rules") {
        return is_rules_page(policy, query, expected);
    }
    let mut out = page::page_room();
    let n = page_of(mode, first, second, policy, query, &mut out);
    &out[..n] == expected
}
