// What a call that decides says, and the session that it leaves.

ghost use Rattle.std.specs.Prelude.{◌≡◌, ◌||◌, eqb, ltb};
ghost use Rattle.sessions.specs.Deciding.{turned_back, answered, Gives};

use crate::opening::Session;

// What deciding says; a yes and a no carry the count of partitions still open.
#[derive(Clone, Copy)]
pub enum Reply {
    Yes { count: u64 },
    No { count: u64 },
    Refused { number: u64, line: u64 },
}

// The reply, and the session as the call leaves it.
#[derive(Clone, Copy)]
pub struct Decision {
    pub reply: Reply,
    pub session: Session,
}

// A refusal: the session stays.
pub fn refused(s: Session, number: u64, line: u64) -> Decision
    ensures { Gives result (turned_back s number line) }
{
    let reply = Reply::Refused { number, line };
    Decision { reply, session: s }
}

// Whether no partition of a session is open, or one beyond every partition of the policy.
pub fn unfit(mask: u64, every: u64) -> bool
    ensures { result ≡ (eqb mask 0 || ltb every mask) }
{
    if mask == 0 {
        return true;
    }
    every < mask
}

// The reply where these open partitions settle the query.
pub fn answer(s: Session, left: u64) -> Decision
    ensures { Gives result (answered s left) }
{
    if left == 0 {
        let reply = Reply::No {
            count: words::ones(s.mask),
        };
        return Decision { reply, session: s };
    }
    let reply = Reply::Yes {
        count: words::ones(left),
    };
    let session = Session { mask: left };
    Decision { reply, session }
}
