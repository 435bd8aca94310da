// Deciding a query in a session.

#![tactic(auto)]

ghost use Rattle.std.specs.Prelude.{◌≡◌, length};
ghost use Rattle.model.specs.Rows.{query_rows_long};
ghost use Rattle.policy_text.specs.Declared.{Declared};
ghost use Rattle.labelling.specs.Posed.{Ready, SomeReady, SomePosedRows};
ghost use Rattle.sessions.specs.Deciding.{decide_under, Gives, RowsAnswered, RowsDecided, Decided};

use covering::Prepared;
use model::{Policy, QueryRows, Tables};
use sessions::{Decision, Reply, Session};

// The reply to a query of n lines that is laid in rows; its shared variables are shown there.
fn answer_rows(ready: &Prepared, s: Session, n: usize, lines: &mut QueryRows) -> Decision
    requires { SomePosedRows ready.now n lines.old × (length lines.old ≡ query_rows_long) }
    ensures rows_answered { RowsAnswered ready.now s n lines.old result }
    ensures lines_len { length lines.new ≡ query_rows_long }
{
    let l = labelling::label_rows(ready, n, lines);
    sessions::answer(s, s.mask & l.settling)
}

// Deciding under a policy that is known to be loaded, by what is prepared of it.
pub fn decide_loaded(tables: Tables, ready: &Prepared, s: Session, text: &[u8]) -> Decision
    requires { SomeReady tables ready.now }
    ensures { (d : Declared) → Ready d tables ready.now → Gives result (decide_under d s text.now) }
{
    let every = covering::every_partition(ready);
    if sessions::unfit(s.mask, every) {
        return sessions::refused(s, 9, 0);
    }
    match query_text::read_query(tables, text) {
        Err(r) => sessions::refused(s, r.number, r.line),
        Ok(q) => {
            let mut lines = entering::query_rows(q);
            answer_rows(ready, s, q.count, &mut lines)
        }
    }
}

// The same of a query that a text reads to, its n lines laid in rows.
pub fn decide_rows(ready: &Prepared, s: Session, n: usize, lines: &mut QueryRows) -> Decision
    requires { SomePosedRows ready.now n lines.old × (length lines.old ≡ query_rows_long) }
    ensures rows_decided { RowsDecided ready.now s n lines.old result }
    ensures lines_len { length lines.new ≡ query_rows_long }
{
    let every = covering::every_partition(ready);
    if sessions::unfit(s.mask, every) {
        return sessions::refused(s, 9, 0);
    }
    answer_rows(ready, s, n, lines)
}

// Deciding under any policy value, which is checked first: the reply, and the session as the call leaves it.
pub fn decide_checked(p: Policy, s: Session, text: &[u8]) -> Decision
    ensures { Decided p s text.now result }
{
    if !validity::valid(p) {
        return sessions::refused(s, 8, 0);
    }
    let ready = covering::prepare(p);
    let tables = p.tables;
    decide_loaded(tables, &ready, s, text)
}

// Deciding a query text in a session, which is lent and altered by a yes alone: yes, no or a refusal.
pub fn decide(p: Policy, s: &mut Session, text: &[u8]) -> Reply
    ensures { Decided p s.old text.now (record { reply = result; session = s.new }) }
{
    let d = decide_checked(p, *s, text);
    *s = d.session;
    d.reply
}
