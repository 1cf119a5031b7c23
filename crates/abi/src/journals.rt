// Opening a journal for C and Rust: a box goes as its 22 numbers, the log as its terms and its orders, the answer as its number.
ghost use Rattle.abi.specs.Journals.{StoresOpen, FlatOpens, StoresReplay, FlatReplays};

use flat::{put_box, read_box};
use frames::Refusal;
use opening::{Opened, Unopened};
use record::Record;

// The answer's number; where it is 0, the record's numbers and the bytes are stored, where it is 10, the line's number.
fn put_opened(n: &mut [u64; 22], sizes: &mut [u64; 2], o: Result<Opened, Unopened>) -> u8
    ensures { StoresOpen o n.old sizes.old result n.new sizes.new }
{
    match o {
        Ok(found) => {
            put_box(n, found.state);
            sizes[0] = found.bytes as u64;
            0
        }
        Err(why) => {
            if let Unopened::BadLine { line } = why {
                sizes[1] = line as u64;
            }
            Refusal::from(why).number()
        }
    }
}

// Opens a whole journal.
#[tactic(auto, unfolding(crate::specs::Journals::journal_opens))]
#[unsafe(no_mangle)]
pub extern "C" fn journal_open(
    me: u8,
    text: &[u8],
    n: &mut [u64; 22],
    terms: &mut [u32; Record::LOG],
    orders: &mut [u64; Record::LOG],
    sizes: &mut [u64; 2],
) -> u8
    ensures { FlatOpens me text.now n.old terms.old orders.old sizes.old result
        n.new terms.new orders.new sizes.new }
{
    let opened = opening::open(me, text, terms, orders);
    put_opened(n, sizes, opened)
}

// The answer's number; where it is 0, the record's numbers are stored.
fn put_replayed(n: &mut [u64; 22], o: Result<Record, Refusal>) -> u8
    ensures { StoresReplay o n.old result n.new }
{
    match o {
        Ok(state) => {
            put_box(n, state);
            0
        }
        Err(refusal) => refusal.number(),
    }
}

// Replays one whole line, with its line feed, over the record that the numbers are; 12 where one does not fit its field.
#[tactic(auto, unfolding(crate::specs::Journals::journal_replays))]
#[unsafe(no_mangle)]
pub extern "C" fn journal_replay(
    text: &[u8],
    n: &mut [u64; 22],
    terms: &mut [u32; Record::LOG],
    orders: &mut [u64; Record::LOG],
) -> u8
    ensures { FlatReplays text.now n.old terms.old orders.old result
        n.new terms.new orders.new }
{
    let Some(state) = read_box(n) else {
        return Refusal::BadRecord.number();
    };
    let replayed = opening::replay(state, text, terms, orders);
    put_replayed(n, replayed)
}
