// Opening a session.

ghost use Rattle.std.specs.Prelude.{◌≡◌, length};
ghost use Rattle.model.specs.declared.Tables.{Tables};
ghost use Rattle.policy_text.specs.Declared.{Declared};
ghost use Rattle.covering.specs.Prepared.{prepared_long};
ghost use Rattle.labelling.specs.Posed.{Ready};
ghost use Rattle.sessions.specs.Opening.{all_open, Opened};

use covering::Prepared;
use model::{Policy, Refusal};

// The partitions still open, partition n at bit n - 1.
#[repr(C)]
#[derive(Clone, Copy)]
pub struct Session {
    pub mask: u64,
}

// A session under a policy, every partition open.
pub fn open_session(p: Policy) -> Result<Session, Refusal>
    ensures { Opened p result }
{
    if !validity::valid(p) {
        return Err(Refusal { number: 8, line: 0 });
    }
    Ok(Session {
        mask: words::low_bits(p.partition_count as u64),
    })
}

// The session that opening gives under a policy that is known to be loaded, by what is prepared of it.
pub fn open_loaded(ready: &Prepared) -> Session
    requires { length ready.now ≡ prepared_long }
    ensures { (d : Declared) (tables : Tables) → Ready d tables ready.now → result ≡ all_open d }
{
    Session {
        mask: covering::every_partition(ready),
    }
}
