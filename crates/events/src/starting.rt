// Starting a box: its record and the journal's head.
ghost use Rattle.std.specs.Prelude.{◌≡◌};
ghost use Rattle.record.specs.Calls.{Begun, begun, start_told};

use frames::Refusal;
use record::{Record, Started};

// 12 exactly when the number or the mask is bad, 5 exactly when the room is too short for the head.
pub fn start(me: u8, mask: u8, journal: &mut [u8]) -> Result<Started<Record>, Refusal>
    ensures { ◌≡◌ {A = Begun} (record { answer = start_told result; journal = journal.new }) (begun me mask journal.old) }
{
    if !rules::is_membership(me, mask) {
        return Err(Refusal::BadRecord);
    }
    if journal.len() < 9 {
        return Err(Refusal::NoRoom);
    }
    writing::put_head(journal, me, mask);
    Ok(Started {
        fresh: Record::fresh(me, mask),
        bytes: 9,
    })
}
