// A message as 17 numbers: kind, from, to, term, index, prior, commit, reply, count, and a term and an order for each of
// four entries, with 0 for what it does not have.
// (The C interface has an array of numbers, all of one width, so each field is put into its place by hand.)
ghost use Rattle.std.specs.Prelude.{◌≡◌, cond};
ghost use Rattle.flat.specs.Message.{in_range, fields_in, flat};

use frames::{Entry, Fields};

// Stores the fields' 17 numbers.
pub fn put_flat(numbers: &mut [u64; 17], f: Fields)
    ensures { numbers.new ≡ flat f numbers.old }
{
    let a = f.entries[0];
    let b = f.entries[1];
    let c = f.entries[2];
    let d = f.entries[3];
    numbers[0] = f.kind as u64;
    numbers[1] = f.from as u64;
    numbers[2] = f.to as u64;
    numbers[3] = f.term as u64;
    numbers[4] = f.index as u64;
    numbers[5] = f.prior as u64;
    numbers[6] = f.commit as u64;
    numbers[7] = f.reply as u64;
    numbers[8] = f.count as u64;
    numbers[9] = a.term as u64;
    numbers[10] = a.order;
    numbers[11] = b.term as u64;
    numbers[12] = b.order;
    numbers[13] = c.term as u64;
    numbers[14] = c.order;
    numbers[15] = d.term as u64;
    numbers[16] = d.order;
}

// Each number fits the field that it is for: one test of all of them, as for a box.
pub fn in_range(n: &[u64; 17]) -> bool
    ensures { result ≡ in_range n.now }
{
    (n[0] < 256)
        & (n[1] < 256)
        & (n[2] < 256)
        & (n[3] < 4294967296)
        & (n[4] < 65536)
        & (n[5] < 4294967296)
        & (n[6] < 65536)
        & (n[7] < 256)
        & (n[8] < 256)
        & (n[9] < 4294967296)
        & (n[11] < 4294967296)
        & (n[13] < 4294967296)
        & (n[15] < 4294967296)
}

// The fields that the numbers are, whatever they are: its promise is for any numbers. (The remainders change nothing where they are in range.)
pub fn fields_in(n: &[u64; 17]) -> Fields
    ensures { result ≡ fields_in n.now }
{
    let a = Entry {
        term: (n[9] % 4294967296) as u32,
        order: n[10],
    };
    let b = Entry {
        term: (n[11] % 4294967296) as u32,
        order: n[12],
    };
    let c = Entry {
        term: (n[13] % 4294967296) as u32,
        order: n[14],
    };
    let d = Entry {
        term: (n[15] % 4294967296) as u32,
        order: n[16],
    };
    let entries = [a, b, c, d];
    Fields {
        kind: (n[0] % 256) as u8,
        from: (n[1] % 256) as u8,
        to: (n[2] % 256) as u8,
        term: (n[3] % 4294967296) as u32,
        index: (n[4] % 65536) as u16,
        prior: (n[5] % 4294967296) as u32,
        commit: (n[6] % 65536) as u16,
        reply: (n[7] % 256) as u8,
        count: (n[8] % 256) as u8,
        entries,
    }
}

// The fields that the numbers are, where each fits its field.
pub fn read_fields(n: &[u64; 17]) -> Option<Fields>
    ensures { result ≡ cond (in_range n.now) (Some (fields_in n.now)) None }
{
    in_range(n).then(|| fields_in(n))
}
