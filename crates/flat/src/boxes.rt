// A box's record as 22 numbers: me, members, term, vote, last, commit, role, votes, then next and then match of the seven boxes.
// (The C interface has an array of numbers, all of one width, so each field is put into its place by hand.)
ghost use Rattle.std.specs.Prelude.{◌≡◌, ◌≤◌, cond};
ghost use Rattle.flat.specs.Box.{box_range, box_in, stored_7, lead_flat, box_flat};

use record::{Lead, Record};

// Each number fits the field that it is for: one test of all of them. (With `try_from`, a branch for each number, it took twice as long.)
pub fn box_range(n: &[u64; 22]) -> bool
    ensures { result ≡ box_range n.now }
{
    (n[0] < 256)
        & (n[1] < 256)
        & (n[2] < 4294967296)
        & (n[3] < 256)
        & (n[4] < 65536)
        & (n[5] < 65536)
        & (n[6] < 256)
        & (n[7] < 256)
        & (n[8] < 65536)
        & (n[9] < 65536)
        & (n[10] < 65536)
        & (n[11] < 65536)
        & (n[12] < 65536)
        & (n[13] < 65536)
        & (n[14] < 65536)
        & (n[15] < 65536)
        & (n[16] < 65536)
        & (n[17] < 65536)
        & (n[18] < 65536)
        & (n[19] < 65536)
        & (n[20] < 65536)
        & (n[21] < 65536)
}

// The box that the numbers are, whatever they are: its promise is for any numbers. (The remainders change nothing where they are in range.)
pub fn box_in(n: &[u64; 22]) -> Record
    ensures { result ≡ box_in n.now }
{
    let next = [
        (n[8] % 65536) as u16,
        (n[9] % 65536) as u16,
        (n[10] % 65536) as u16,
        (n[11] % 65536) as u16,
        (n[12] % 65536) as u16,
        (n[13] % 65536) as u16,
        (n[14] % 65536) as u16,
    ];
    let matched = [
        (n[15] % 65536) as u16,
        (n[16] % 65536) as u16,
        (n[17] % 65536) as u16,
        (n[18] % 65536) as u16,
        (n[19] % 65536) as u16,
        (n[20] % 65536) as u16,
        (n[21] % 65536) as u16,
    ];
    let lead = Lead { next, matched };
    Record {
        me: (n[0] % 256) as u8,
        members: (n[1] % 256) as u8,
        term: (n[2] % 4294967296) as u32,
        vote: (n[3] % 256) as u8,
        last: (n[4] % 65536) as u16,
        commit: (n[5] % 65536) as u16,
        role: (n[6] % 256) as u8,
        votes: (n[7] % 256) as u8,
        lead,
    }
}

// The box that the numbers are, where each fits its field.
pub fn read_box(n: &[u64; 22]) -> Option<Record>
    ensures { result ≡ cond (box_range n.now) (Some (box_in n.now)) None }
{
    box_range(n).then(|| box_in(n))
}

// Stores seven numbers from a place on.
fn put_seven(n: &mut [u64; 22], at: usize, list: [u16; Record::BOXES])
    requires { at ≤ 15 }
    ensures { n.new ≡ stored_7 n.old at list }
{
    n[at] = list[0] as u64;
    n[at + 1] = list[1] as u64;
    n[at + 2] = list[2] as u64;
    n[at + 3] = list[3] as u64;
    n[at + 4] = list[4] as u64;
    n[at + 5] = list[5] as u64;
    n[at + 6] = list[6] as u64;
}

// Stores next and match.
fn put_lead(n: &mut [u64; 22], lead: Lead)
    ensures { n.new ≡ lead_flat lead n.old }
{
    let next = lead.next;
    let matched = lead.matched;
    put_seven(n, 8, next);
    put_seven(n, 15, matched);
}

// Stores the box's numbers.
pub fn put_box(n: &mut [u64; 22], b: Record)
    ensures { n.new ≡ box_flat b n.old }
{
    let lead = b.lead;
    n[0] = b.me as u64;
    n[1] = b.members as u64;
    n[2] = b.term as u64;
    n[3] = b.vote as u64;
    n[4] = b.last as u64;
    n[5] = b.commit as u64;
    n[6] = b.role as u64;
    n[7] = b.votes as u64;
    put_lead(n, lead);
}
