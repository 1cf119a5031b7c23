// Opening: the head, and the lines behind it as one block. The log, lent as C lends it, is made aside and handed over only when every line was good.
ghost use Rattle.std.specs.Prelude.{◌≡◌, take};
ghost use Rattle.digits.specs.Room.{over};
ghost use Rattle.opening.specs.Calls.{HandsOver, Opens};

use crate::blocks::{replay_head, replay_lines};
use crate::{Opened, Unopened};
use record::Record;
use text::line_end;

// The made log's entries, handed over. (One by one, both lists in one loop: the library's `copy_from_slice` is a call of C's `memcpy`, and the archive for C asks for
// `memset` alone.)
fn hand_over(
    terms: &mut [u32],
    orders: &mut [u64],
    terms_made: &[u32],
    orders_made: &[u64],
    last: usize,
)
    requires { HandsOver terms.old orders.old terms_made.now orders_made.now last }
    ensures terms_after { terms.new ≡ over terms.old 0 (take last terms_made.now) }
    ensures orders_after { orders.new ≡ over orders.old 0 (take last orders_made.now) }
{
    for i in 0..last {
        terms[i] = terms_made[i];
        orders[i] = orders_made[i];
    }
}

// A whole journal: the record and the bytes up to and with the last line feed.
pub fn open(
    me: u8,
    bytes: &[u8],
    terms: &mut [u32; Record::LOG],
    orders: &mut [u64; Record::LOG],
) -> Result<Opened, Unopened>
    ensures { Opens me bytes.now terms.old orders.old result terms.new orders.new }
{
    let head = line_end(bytes, 0);
    let Ok(start) = replay_head(me, &bytes[..head]) else {
        return Err(Unopened::NoHead);
    };
    let mut terms_made = [0u32; Record::LOG];
    let mut orders_made = [0u64; Record::LOG];
    let behind = replay_lines(start, &bytes[head..], &mut terms_made, &mut orders_made);
    // "the first such line's number, the head being 1"
    let Ok(()) = behind.end else {
        return Err(Unopened::BadLine {
            line: 2 + behind.lines,
        });
    };
    let state = behind.state;
    hand_over(
        terms,
        orders,
        &terms_made,
        &orders_made,
        state.last as usize,
    );
    Ok(Opened {
        state,
        bytes: head + behind.bytes,
    })
}
