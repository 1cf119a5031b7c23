// Sets of boxes as masks: box i has bit i-1. A box is a byte, as frames and records have it; that it is one of seven is asked by name (`IsBox`).
#![tactic(auto, unfolding(raft::specs::Majority::holds, raft::specs::Majority::majority, raft::specs::Record::is_other))]

ghost use Rattle.std.specs.Prelude.{◌≡◌};
ghost use Rattle.frames.specs.Limits.{IsBox};
ghost use Rattle.raft.specs.Majority.{bit, holds, majority};
ghost use Rattle.raft.specs.Record.{is_other};

// "box i has bit i-1"
pub fn bit(i: u8) -> u8
    requires { IsBox i }
    ensures { result ≡ bit i }
{
    1 << (i - 1)
}

// The mask holds box i.
pub fn holds(mask: u8, i: u8) -> bool
    requires { IsBox i }
    ensures { result ≡ holds mask i }
{
    (mask >> (i - 1)) % 2 == 1
}

// Another member.
pub fn is_other(me: u8, members: u8, i: u8) -> bool
    requires { IsBox i }
    ensures { result ≡ is_other me members i }
{
    if i == me {
        return false;
    }
    holds(members, i)
}

// "Twice the number of ones in the yes mask exceeds the number of ones in the membership; only members count."
pub fn is_majority(members: u8, agreed: u8) -> bool
    ensures { result ≡ majority members agreed }
{
    u8::count_ones(members) < 2 * u8::count_ones(agreed & members)
}
