// What goes to each other member, in rising box number: how many bytes it is, and its text, one behind the other.
ghost use Rattle.std.specs.Prelude.{◌≡◌, ℕ, ◌≤◌, []};
ghost use Rattle.digits.specs.Room.{over};
ghost use Rattle.frames.specs.Limits.{IsBox, boxes, longest_message};
ghost use Rattle.frames.specs.Message.{Message};
ghost use Rattle.record.specs.Calls.{with_entries};
ghost use Rattle.record.specs.Sizes.{shares};
ghost use Rattle.record.specs.SizeLaws.{others_to};
ghost use Rattle.writing.specs.Others.{RoomForAll, Puts};

use frames::Fields;
use record::Record;
use rules::is_other;

// The bytes of what all other members get, where box i gets so many.
pub fn shares<F: Fn(u8) -> usize>(n: Record, size: F) -> usize
    requires called { (i : ℕ) → IsBox i → F.pre size i }
    requires low { (i r : ℕ) → IsBox i → F.post size i r → r ≤ longest_message }
    ensures { (share : ℕ → ℕ) → ((i r : ℕ) → IsBox i → F.post size i r → r ≡ share i) → result ≡ shares n share boxes }
{
    let mut bytes = 0;
    for i in 1..=Fields::BOXES {
        if is_other(n.me, n.members, i) {
            bytes += size(i);
        }
    }
    bytes
}

// A message to each other member, one behind the other: `put` writes box i's at the start of what it is lent, and tells how long it is.
pub fn put_to_others<F: Fn(&mut [u8], u8) -> usize>(room: &mut [u8], n: Record, put: F)
    requires { RoomForAll (F.pre put) (F.post put) n room.old }
    ensures { (message : ℕ → Message) → Puts (F.post put) n message → room.new ≡ over room.old 0 (others_to (with_entries n []) message boxes) }
{
    let mut at = 0;
    for i in 1..=Fields::BOXES {
        if is_other(n.me, n.members, i) {
            at += put(&mut room[at..], i);
        }
    }
}
