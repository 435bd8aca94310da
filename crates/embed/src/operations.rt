// The operations. Each takes a policy by value and calls the desk's own operation of that name.

ghost use Rattle.std.specs.Prelude.{◌≡◌};
ghost use Rattle.label_order.specs.Order.{at_or_below};
ghost use Rattle.embed.specs.Calls.{LoadCall, OpenCall, DecideCall, LabelsCall, ExplainCall, ApartCall, GrantCall, ImportCall};

use crate::deciding::decide_checked;
use desk::Session;
use model::Policy;
use plain_replies::{
    PlainReply, of_explaining, of_granting, of_imported, of_listing, of_outcome, of_reply,
    of_telling,
};

// How loading ends, and the policy: that of the text, or the empty one.
#[repr(C)]
#[derive(Clone, Copy)]
pub struct PlainLoading {
    pub reply: PlainReply,
    pub policy: Policy,
}

// How opening ends, and the session: every partition open, or none.
#[repr(C)]
#[derive(Clone, Copy)]
pub struct PlainOpening {
    pub reply: PlainReply,
    pub session: Session,
}

// The reply, and the session as the call leaves it.
#[repr(C)]
#[derive(Clone, Copy)]
pub struct PlainDecision {
    pub reply: PlainReply,
    pub session: Session,
}

// The policy of a text.
#[unsafe(no_mangle)]
pub extern "C" fn kolbrees_load(text: &[u8]) -> PlainLoading
    ensures { LoadCall text.now result }
{
    match load::load(text) {
        Ok(policy) => PlainLoading {
            reply: of_outcome(Ok(())),
            policy,
        },
        Err(r) => PlainLoading {
            reply: of_outcome(Err(r)),
            policy: load::empty_policy(),
        },
    }
}

// A session under a policy.
#[unsafe(no_mangle)]
pub extern "C" fn kolbrees_open(policy: Policy) -> PlainOpening
    ensures { OpenCall policy result }
{
    match desk::open_session(policy) {
        Ok(session) => PlainOpening {
            reply: of_outcome(Ok(())),
            session,
        },
        Err(r) => PlainOpening {
            reply: of_outcome(Err(r)),
            session: Session { mask: 0 },
        },
    }
}

// A query text decided in a session.
#[unsafe(no_mangle)]
pub extern "C" fn kolbrees_decide(policy: Policy, session: Session, text: &[u8]) -> PlainDecision
    ensures { DecideCall policy session text.now result }
{
    let d = decide_checked(policy, session, text);
    let said = d.reply;
    let reply = of_reply(said);
    let left = d.session;
    PlainDecision {
        reply,
        session: left,
    }
}

// The labels of a query text.
#[unsafe(no_mangle)]
pub extern "C" fn kolbrees_labels(policy: Policy, text: &[u8], out: &mut [u64]) -> PlainReply
    ensures { LabelsCall policy text.now out.old result out.new }
{
    let l = desk::labels(policy, text, out);
    of_listing(l)
}

// Why a partition settles a query text or not.
#[unsafe(no_mangle)]
pub extern "C" fn kolbrees_explain(
    policy: Policy,
    partition: u64,
    text: &[u8],
    out: &mut [u32],
) -> PlainReply
    ensures { ExplainCall policy partition text.now out.old result out.new }
{
    let e = desk::explain(policy, partition, text, out);
    of_explaining(e)
}

// Whether label x is at or below label y, for any two words.
#[unsafe(no_mangle)]
pub extern "C" fn kolbrees_compare(x: u64, y: u64) -> bool
    ensures { result ≡ at_or_below x y }
{
    desk::compare_labels(x, y)
}

// Two archives for a query text and a partition that does not settle it.
#[unsafe(no_mangle)]
pub extern "C" fn kolbrees_apart(
    policy: Policy,
    partition: u64,
    text: &[u8],
    out: &mut [u64],
) -> PlainReply
    ensures { ApartCall policy partition text.now out.old result out.new }
{
    let t = apart::tell_apart(policy, partition, text, out);
    of_telling(t)
}

// The fewest views that make a partition settle a query text.
#[unsafe(no_mangle)]
pub extern "C" fn kolbrees_grant(
    policy: Policy,
    partition: u64,
    text: &[u8],
    out: &mut [u32],
) -> PlainReply
    ensures { GrantCall policy partition text.now out.old result out.new }
{
    let g = grants::smallest_grant(policy, partition, text, out);
    of_granting(g)
}

// The query text of a rule, written from a place of the buffer on.
#[unsafe(no_mangle)]
pub extern "C" fn kolbrees_import(
    policy: Policy,
    rule: &[u8],
    out: &mut [u8],
    place: usize,
) -> PlainReply
    ensures { ImportCall policy rule.now place out.old result out.new }
{
    let i = import::import_rule(policy, rule, out, place);
    of_imported(i)
}
