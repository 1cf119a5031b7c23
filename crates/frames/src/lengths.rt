// How long a frame is: by its kind and its count of entries.
ghost use Rattle.std.specs.Prelude.{◌≡◌, ◌<◌};
ghost use Rattle.frames.specs.Reading as reading;

use digits::LENGTHS;

// The bytes of a frame of a kind with so many entries. (The kind is a place in the table.)
#[tactic(auto, using(crate::proofs::ReadingLaws::longest), unfolding(crate::specs::Reading::size))]
pub fn size(kind: u8, count: u8) -> usize
    requires { kind < 5 }
    ensures { result ≡ reading.size kind count }
{
    LENGTHS[kind as usize] as usize + 12 * count as usize
}

// The characters of so many bytes, with the line feed.
pub fn text_size(bytes: usize) -> usize
    requires { bytes < 4096 }
    ensures { result ≡ reading.text_size bytes }
{
    2 * bytes + 1
}
