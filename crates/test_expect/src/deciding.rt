// A decision compared with the reply and the session that document 01 lays down.

ghost use Rattle.sessions.specs.Deciding.{Decided};

use crate::said::{Said, counted, no, print_case, refused, yes};
use desk::{Decision, Reply, Session};
use model::Policy;

fn told(r: Reply) -> Said {
    match r {
        Reply::Yes { count } => yes(count),
        Reply::No { count } => no(count),
        Reply::Refused { number, line } => refused(number, line),
    }
}

// The reply, and the session that the call leaves. It is lent in this one place, so that no case needs a proof by hand.
fn call(p: Policy, s: Session, text: &[u8]) -> Decision
    ensures { Decided p s text.now result }
{
    let mut lent = s;
    let reply = desk::decide(p, &mut lent, text);
    Decision {
        reply,
        session: lent,
    }
}

// A text decided in a session: the partitions open, the text, what is said, and the partitions left open.
pub type Case<'a> = (u64, &'a [u8], Said, u64);

// The cases behind `start` cases, under one policy; how many there are then.
pub fn all_decided(start: u64, p: Policy, cases: &[Case]) -> u64 {
    let mut n = start;
    for (open, text, expected, left) in cases {
        n = decided(n, p, *open, text, *expected, *left);
    }
    n
}

// The case behind n cases, and its number: in a session with these partitions open the text is decided so, and these are left
// open.
pub fn decided(n: u64, p: Policy, mask: u64, text: &[u8], expected: Said, left: u64) -> u64 {
    let at = counted(n);
    let s = Session { mask };
    let d = call(p, s, text);
    let reply = d.reply;
    let got = told(reply);
    let after = d.session;
    if got != expected || after.mask != left {
        print_case(at, got);
        io::write_all(1, b", open ");
        io::print_decimal(1, after.mask);
        io::write_all(1, b"\n");
    }
    at
}
