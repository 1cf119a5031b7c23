// A box for C and Rust.
ghost use Rattle.raft.specs.Event.{times_out, takes_order, is_prompted, receives};
ghost use Rattle.node.specs.declared.Node.{Node};
ghost use Rattle.node.specs.Outside.{told};
ghost use Rattle.abi.specs.Boxes.{Stores, Steps, Begins, Hands};

use flat::{put_box, read_box};
use frames::Refusal;
use node::Node;
use record::{Record, Step};

// The answer's number; where it is 0, the next box's numbers and the sizes are stored.
fn put_answer(n: &mut [u64; 22], sizes: &mut [u64; 2], a: Result<Step<Node>, Refusal>) -> u8
    ensures { (b : Node) → Stores (told b a) n.old sizes.old result n.new sizes.new }
{
    match a {
        Ok(done) => {
            let next = done.next;
            put_box(n, next.state);
            sizes[0] = done.line as u64;
            sizes[1] = done.sent as u64;
            0
        }
        Err(refusal) => refusal.number(),
    }
}

// Each event: 12 where a number does not fit its field; otherwise the box's answer, stored. First the timeout.
#[unsafe(no_mangle)]
pub extern "C" fn box_timeout(
    n: &mut [u64; 22],
    terms: &mut [u32; Record::LOG],
    orders: &mut [u64; Record::LOG],
    journal: &mut [u8],
    room: &mut [u8],
    sizes: &mut [u64; 2],
) -> u8
    ensures { Steps times_out n.old terms.old orders.old journal.old room.old sizes.old result
        n.new terms.new orders.new journal.new room.new sizes.new }
{
    let Some(state) = read_box(n) else {
        return Refusal::BadRecord.number();
    };
    let b = Node { state };
    let answer = b.timeout(terms, orders, journal, room);
    put_answer(n, sizes, answer)
}

// A prompt.
#[unsafe(no_mangle)]
pub extern "C" fn box_prompt(
    n: &mut [u64; 22],
    terms: &[u32; Record::LOG],
    orders: &[u64; Record::LOG],
    journal: &mut [u8],
    room: &mut [u8],
    sizes: &mut [u64; 2],
) -> u8
    ensures { Steps is_prompted n.old terms.now orders.now journal.old room.old sizes.old result
        n.new terms.now orders.now journal.new room.new sizes.new }
{
    let Some(state) = read_box(n) else {
        return Refusal::BadRecord.number();
    };
    let b = Node { state };
    let answer = b.prompt(terms, orders, journal, room);
    put_answer(n, sizes, answer)
}

// An order.
#[unsafe(no_mangle)]
pub extern "C" fn box_order(
    order: u64,
    n: &mut [u64; 22],
    terms: &mut [u32; Record::LOG],
    orders: &mut [u64; Record::LOG],
    journal: &mut [u8],
    room: &mut [u8],
    sizes: &mut [u64; 2],
) -> u8
    ensures { Steps (takes_order order) n.old terms.old orders.old journal.old room.old sizes.old result
        n.new terms.new orders.new journal.new room.new sizes.new }
{
    let Some(state) = read_box(n) else {
        return Refusal::BadRecord.number();
    };
    let b = Node { state };
    let answer = b.order(order, terms, orders, journal, room);
    put_answer(n, sizes, answer)
}

// Bytes that came in.
#[unsafe(no_mangle)]
pub extern "C" fn box_receive(
    text: &[u8],
    n: &mut [u64; 22],
    terms: &mut [u32; Record::LOG],
    orders: &mut [u64; Record::LOG],
    journal: &mut [u8],
    room: &mut [u8],
    sizes: &mut [u64; 2],
) -> u8
    ensures { Steps (receives text.now) n.old terms.old orders.old journal.old room.old sizes.old result
        n.new terms.new orders.new journal.new room.new sizes.new }
{
    let Some(state) = read_box(n) else {
        return Refusal::BadRecord.number();
    };
    let b = Node { state };
    let answer = b.receive(text, terms, orders, journal, room);
    put_answer(n, sizes, answer)
}

// A start: 01's number and 256 times the bytes of the head.
#[unsafe(no_mangle)]
pub extern "C" fn box_start(me: u8, mask: u8, n: &mut [u64; 22], room: &mut [u8]) -> u64
    ensures { Begins me mask n.old room.old result n.new room.new }
{
    match Node::start(me, mask, room) {
        Ok(started) => {
            let fresh = started.fresh;
            put_box(n, fresh.state);
            256 * 9
        }
        Err(refusal) => refusal.number() as u64,
    }
}

// How many entries are handed out, stored where the answer is 0.
#[unsafe(no_mangle)]
pub extern "C" fn box_handed_out(
    n: &[u64; 22],
    terms: &[u32; Record::LOG],
    orders: &[u64; Record::LOG],
    count: &mut u64,
) -> u8
    ensures { Hands n.now terms.now orders.now count.old result count.new }
{
    let Some(state) = read_box(n) else {
        return Refusal::BadRecord.number();
    };
    let b = Node { state };
    match b.handed_out(terms, orders) {
        Ok(handed) => {
            *count = handed as u64;
            0
        }
        Err(refusal) => refusal.number(),
    }
}
