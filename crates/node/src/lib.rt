// A box: a constructor and one method for each event, on any record and any bytes. The log is lent by the caller, as terms and orders, entry i at place i-1
// (apart, as C lends it: of a struct of two `&mut` each contract would have to say that both are still the ones lent; so the two rooms).
#![tactic(auto)]

ghost use Rattle.std.specs.Prelude.{◌≡◌, List, ℕ, ◌≤◌, length};
ghost use Rattle.frames.specs.Limits.{log_limit};
ghost use Rattle.raft.specs.Event.{times_out, takes_order, is_prompted, receives};
ghost use Rattle.raft.specs.Record.{fresh};
ghost use Rattle.record.specs.Calls.{record_of, handed, handed_told};
ghost use Rattle.node.specs.Outside.{told, start_told, Starts, Calls};
ghost use Rattle.node.specs.LookLaws.{Looks};

use changes::is_good;
use frames::Refusal;
use record::{Record, Started, Step};

// The box.
#[derive(Clone, Copy)]
pub struct Node {
    pub state: Record,
}

// A step that is done, with the box around its record. (No `From`: both structs are `record`'s.)
fn boxed(done: Step<Record>) -> Step<Node>
    ensures { result ≡ record { next = record { state = done.next }; line = done.line; sent = done.sent } }
{
    let next = Node { state: done.next };
    Step {
        next,
        line: done.line,
        sent: done.sent,
    }
}

impl Node {
    // 01's limits: boxes 1 to 7, a log of 256 entries, 4 entries a frame.
    pub const BOXES: usize = Record::BOXES;

    pub const LOG: usize = Record::LOG;

    pub const ENTRIES: usize = Record::ENTRIES;

    // "A fresh box stands in term 0, has voted for nobody, has an empty log and is a follower."
    pub fn fresh(me: u8, members: u8) -> Node
        ensures { result ≡ record { state = record_of (fresh me members) } }
    {
        let state = Record::fresh(me, members);
        Node { state }
    }

    // Starts a box: 12 exactly when its number or mask is bad, 5 exactly when the room is too short for the head.
    pub fn start(me: u8, mask: u8, journal: &mut [u8]) -> Result<Started<Node>, Refusal>
        ensures { Starts me mask journal.old (start_told result) journal.new }
    {
        let started = events::start(me, mask, journal)?;
        let fresh = Node {
            state: started.fresh,
        };
        Ok(Started {
            fresh,
            bytes: started.bytes,
        })
    }

    // 12 where the box's record breaks a rule.
    fn look(self, terms: &[u32]) -> Result<(), Refusal>
        requires { length terms.now ≡ log_limit }
        ensures { (orders : List ℕ) → Looks result self.state terms.now orders }
    {
        if is_good(self.state, terms) {
            Ok(())
        } else {
            Err(Refusal::BadRecord)
        }
    }

    // "Timeout. Leader: nothing. Otherwise term + 1, candidate, .."
    pub fn timeout(
        self,
        terms: &mut [u32; Node::LOG],
        orders: &mut [u64; Node::LOG],
        journal: &mut [u8],
        messages: &mut [u8],
    ) -> Result<Step<Node>, Refusal>
        ensures { Calls times_out self terms.old orders.old journal.old messages.old (told self result)
            terms.new orders.new journal.new messages.new }
    {
        self.look(&terms[..])?;
        let n = self.state;
        Ok(boxed(events::run_timeout(n, terms, orders, journal, messages)?))
    }

    // "Order (leader). Entry with the current term, then an append to each other member."
    pub fn order(
        self,
        order: u64,
        terms: &mut [u32; Node::LOG],
        orders: &mut [u64; Node::LOG],
        journal: &mut [u8],
        messages: &mut [u8],
    ) -> Result<Step<Node>, Refusal>
        ensures { Calls (takes_order order) self terms.old orders.old journal.old messages.old (told self result)
            terms.new orders.new journal.new messages.new }
    {
        self.look(&terms[..])?;
        let n = self.state;
        Ok(boxed(events::run_order(n, order, terms, orders, journal, messages)?))
    }

    // "Prompt (leader): an append to each."
    pub fn prompt(
        self,
        terms: &[u32; Node::LOG],
        orders: &[u64; Node::LOG],
        journal: &mut [u8],
        messages: &mut [u8],
    ) -> Result<Step<Node>, Refusal>
        ensures { Calls is_prompted self terms.now orders.now journal.old messages.old (told self result)
            terms.now orders.now journal.new messages.new }
    {
        self.look(terms)?;
        let n = self.state;
        Ok(boxed(events::run_prompt(n, terms, orders, journal, messages)?))
    }

    // A frame's bytes, or any others: 1 where they are not one frame, 2 where it is not for this box, and then 01's rules for its kind.
    pub fn receive(
        self,
        bytes: &[u8],
        terms: &mut [u32; Node::LOG],
        orders: &mut [u64; Node::LOG],
        journal: &mut [u8],
        messages: &mut [u8],
    ) -> Result<Step<Node>, Refusal>
        ensures { Calls (receives bytes.now) self terms.old orders.old journal.old messages.old (told self result)
            terms.new orders.new journal.new messages.new }
    {
        self.look(&terms[..])?;
        let n = self.state;
        Ok(boxed(messages::run_bytes(n, bytes, terms, orders, journal, messages)?))
    }

    // "Handed out: entries 1 to commit": how many of the lent log's entries.
    pub fn handed_out(
        self,
        terms: &[u32; Node::LOG],
        orders: &[u64; Node::LOG],
    ) -> Result<u16, Refusal>
        ensures { handed_told result ≡ handed self.state terms.now orders.now }
    {
        self.look(terms).and(Ok(self.state.commit))
    }
}
