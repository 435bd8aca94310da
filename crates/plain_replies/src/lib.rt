// The replies of all operations in numbers, for programs in other languages.

#![tactic(auto)]

ghost use Rattle.std.specs.Prelude.{◌≡◌};
ghost use Rattle.plain_replies.specs.Replies.{refusal, worded, plain_outcome, plain_reply, plain_listing};
ghost use Rattle.plain_replies.specs.Replies.{plain_explaining, plain_telling, plain_granting, plain_imported};

use apart::Telling;
use explanations::Explaining;
use model::Refusal;
use sessions::Reply;

// A number for each word of a reply: C has them as numbers.
const REFUSED: u64 = 0;

const ACCEPTED: u64 = 1;

const YES: u64 = 2;

const NO: u64 = 3;

const GIVEN: u64 = 4;

const SETTLED: u64 = 5;

const UNSETTLED: u64 = 6;

const APART: u64 = 7;

const NONE: u64 = 8;

const WRITTEN: u64 = 9;

// A reply: the number of its word, its count, and a refusal's number and line; what a word does not have is 0.
#[repr(C)]
#[derive(Clone, Copy)]
pub struct PlainReply {
    pub word: u64,
    pub count: u64,
    pub number: u64,
    pub line: u64,
}

fn refused(r: Refusal) -> PlainReply
    ensures { result ≡ refusal r.number r.line }
{
    PlainReply {
        word: REFUSED,
        count: 0,
        number: r.number,
        line: r.line,
    }
}

fn counted(word: u64, count: u64) -> PlainReply
    ensures { result ≡ worded word count }
{
    PlainReply {
        word,
        count,
        number: 0,
        line: 0,
    }
}

// Functions by name, and no `From`: a list's length and a number of bytes are both a `Result<usize, Refusal>`, and have words of their own.

// Of loading and of opening, whose policy and session stand beside the reply.
pub fn of_outcome(o: Result<(), Refusal>) -> PlainReply
    ensures { result ≡ plain_outcome o }
{
    match o {
        Ok(()) => counted(ACCEPTED, 0),
        Err(r) => refused(r),
    }
}

// Of deciding.
pub fn of_reply(o: Reply) -> PlainReply
    ensures { result ≡ plain_reply o }
{
    match o {
        Reply::Yes { count } => counted(YES, count),
        Reply::No { count } => counted(NO, count),
        Reply::Refused { number, line } => refused(Refusal { number, line }),
    }
}

// Of giving labels.
pub fn of_listing(o: Result<usize, Refusal>) -> PlainReply
    ensures { result ≡ plain_listing o }
{
    match o {
        Ok(count) => counted(GIVEN, count as u64),
        Err(r) => refused(r),
    }
}

// Of explaining.
pub fn of_explaining(o: Result<Explaining, Refusal>) -> PlainReply
    ensures { result ≡ plain_explaining o }
{
    match o {
        Ok(e) => {
            let word = if e.is_settled { SETTLED } else { UNSETTLED };
            counted(word, e.count as u64)
        }
        Err(r) => refused(r),
    }
}

// Of telling apart.
pub fn of_telling(o: Result<Telling, Refusal>) -> PlainReply
    ensures { result ≡ plain_telling o }
{
    match o {
        Ok(Telling::Settled) => counted(SETTLED, 0),
        Ok(Telling::Apart { rows }) => counted(APART, rows as u64),
        Err(r) => refused(r),
    }
}

// Of the smallest grant.
pub fn of_granting(o: Result<Option<usize>, Refusal>) -> PlainReply
    ensures { result ≡ plain_granting o }
{
    match o {
        Ok(Some(count)) => counted(GIVEN, count as u64),
        Ok(None) => counted(NONE, 0),
        Err(r) => refused(r),
    }
}

// Of importing a rule.
pub fn of_imported(o: Result<usize, Refusal>) -> PlainReply
    ensures { result ≡ plain_imported o }
{
    match o {
        Ok(bytes) => counted(WRITTEN, bytes as u64),
        Err(r) => refused(r),
    }
}
