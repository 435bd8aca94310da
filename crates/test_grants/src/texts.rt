// The texts of a policy of seven views and of queries whose labels are given. The table has eight columns. View n hides column n and
// shows the others, so it covers a line exactly when the line has a hidden variable there that stands nowhere else. Each variable of a
// query stands once, and the eighth column has a constant of its own in each line, so that no line goes in reducing.

ghost use Rattle.std.specs.Prelude.{◌≡◌, ◌+◌, ◌-◌, ◌*◌, ◌/◌, ◌<◌, ◌≤◌, length};

use model::Policy;

// The place of variable k's mark: three bytes for each variable before it, one more for each with two digits, and five for each line.
fn mark_place(k: usize) -> usize
    requires { k ≤ 56 }
    ensures { result ≡ 14 + 5 * (k / 7) + 3 * k + (k - 10) }
{
    let place = 14 + 5 * (k / 7) + 3 * k;
    if k < 10 {
        return place;
    }
    place + (k - 10)
}

// The mark of variable k: hidden where the label of its line holds the view of its column.
fn mark(labels: u64, k: usize) -> u8
    requires { k < 56 }
{
    if labels >> (k / 7 * 8 + k % 7) & 1 == 1 {
        return b'?';
    }
    b'!'
}

// The query whose line j + 1 has the label at byte j, view n at bit n - 1 of it.
pub fn query(labels: u64) -> [u8; 266]
    ensures { 266 ≡ length result }
{
    let mut text = *b"table terms
1 !0 !1 !2 !3 !4 !5 !6 #1\n1 !7 !8 !9 !10 !11 !12 !13 #2\n1 !14 !15 !16 !17 !18 !19 !20 #3\n1 !21 !22 !23 !24 !25 !26 !27 #4
1 !28 !29 !30 !31 !32 !33 !34 #5\n1 !35 !36 !37 !38 !39 !40 !41 #6\n1 !42 !43 !44 !45 !46 !47 !48 #7\n1 !49 !50 !51 !52 !53 !54 !55 #8
";
    for k in 0..56 {
        text[mark_place(k)] = mark(labels, k);
    }
    text
}

// How many bytes its first lines have.
pub fn end_of(lines: usize) -> usize
    requires { lines ≤ 8 }
    ensures { result ≤ 266 }
{
    mark_place(7 * lines) - 2
}

// The numbers of the views.
const DIGITS: [u8; 7] = *b"1234567";

// How many bytes view i + 1 takes in a partition that grants these views.
fn bytes_of(granted: u64, i: usize) -> usize
    requires { i < 7 }
    ensures { result ≤ 2 }
{
    if granted >> i & 1 == 1 {
        return 2;
    }
    0
}

// The policy whose one partition grants these views, view n at bit n - 1. The partition's views begin at byte 248; a view that is not
// granted is written over.
pub fn policy(granted: u64) -> Policy {
    let mut text = *b"table columns\n1 8\nview table terms
1 1 ?0 !1 !2 !3 !4 !5 !6 !7\n2 1 !0 ?1 !2 !3 !4 !5 !6 !7\n3 1 !0 !1 ?2 !3 !4 !5 !6 !7\n4 1 !0 !1 !2 ?3 !4 !5 !6 !7
5 1 !0 !1 !2 !3 ?4 !5 !6 !7\n6 1 !0 !1 !2 !3 !4 ?5 !6 !7\n7 1 !0 !1 !2 !3 !4 !5 ?6 !7\npartition views\n1 1 2 3 4 5 6 7\n";
    let mut end = 248;
    for i in 0..7 {
        text[end + 1] = DIGITS[i];
        end += bytes_of(granted, i);
    }
    text[end] = b'\n';
    load::load(&text[..end + 1]).unwrap_or(load::empty_policy())
}
