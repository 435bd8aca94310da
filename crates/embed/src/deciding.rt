// Deciding a single text as fast as a run decides the texts of a file.

ghost use Rattle.policy_text.specs.Declared.{Declared};
ghost use Rattle.labelling.specs.Posed.{Ready, SomeReady};
ghost use Rattle.sessions.specs.Deciding.{decide_under, Gives, Decided};

use covering::Prepared;
use desk::{Decision, Reply, Session};
use model::{MOST_LINES, Policy, ROW, Tables};

// Under a policy that is known to be loaded. A run reads a query in one pass where it is as expected; a text that is one such query, all of
// it, is read so too. Any other text is read line by line.
fn decide_text(tables: Tables, ready: &Prepared, s: Session, text: &[u8]) -> Decision
    requires { SomeReady tables ready.now }
    ensures { (d : Declared) → Ready d tables ready.now → Gives result (decide_under d s text.now) }
{
    if text.len() == 0 {
        return desk::decide_loaded(tables, ready, s, text);
    }
    if run::MOST_QUERIES < text.len() {
        return desk::decide_loaded(tables, ready, s, text);
    }
    let mut lines = [0; MOST_LINES * ROW];
    let next = run::decide_next(tables, ready, s, text, &mut lines);
    if next.end != text.len() {
        return desk::decide_loaded(tables, ready, s, text);
    }
    next.decision
}

// Deciding under any policy value, which is checked first: the reply, and the session as the call leaves it.
pub fn decide_checked(p: Policy, s: Session, text: &[u8]) -> Decision
    ensures { Decided p s text.now result }
{
    if !validity::valid(p) {
        let reply = Reply::Refused { number: 8, line: 0 };
        return Decision { reply, session: s };
    }
    let ready = covering::prepare(p);
    let tables = p.tables;
    decide_text(tables, &ready, s, text)
}
