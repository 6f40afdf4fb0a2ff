// Where the reader stores the records of a job sheet: words 0 to 9 hold the counts, 10 to 13 the options, and each table stands at its own place with room for its limit.
// 4294967295 is nowhere: no table of words has that place.

ghost use Rattle.std.specs.Prelude.{◌≡◌, ◌+◌, ◌-◌, ◌*◌, ◌<◌, cond, ltb, get_or};
ghost use Rattle.sheet_rules.specs.Kinds.{key_number};
ghost use Rattle.sheet_rules.specs.Places.{limit_of, base_of, width_of, stored_of, count_at, row_at, place_of, tail_at, tail_of, up_of};

use crate::forms::Kind;

// A number, and no Option: `cells` reads 0 there and stores nothing, so that no caller has to ask.
const NOWHERE: usize = 4294967295;

// Four tables by the kind's number, as the definition has four lists.
const LIMITS: [u32; 12] = [1, 8, 32, 256, 512, 1024, 256, 1024, 1024, 1024, 4096, 1];

const BASES: [u32; 12] = [
    10, 14, 22, 150, 406, 1430, 4502, 6806, 10902, 13974, 19094, 43670,
];

const WIDTHS: [u32; 12] = [4, 1, 4, 1, 2, 3, 9, 4, 3, 5, 6, 0];

const STORED: [u32; 12] = [4, 1, 4, 1, 2, 3, 8, 4, 3, 4, 6, 0];

// The entry of a kind of record; 0 for none.
fn entry(table: &[u32; 12], key: Option<Kind>) -> u32
    ensures { result ≡ cond (ltb 11 (key_number key)) 0 (get_or table.now (key_number key) 0) }
{
    match key {
        Some(k) => table[k as usize],
        None => 0,
    }
}

// How many records of a kind have room.
#[tactic(auto, unfolding(crate::specs::Places::limit_of, crate::specs::Places::limits))]
pub fn limit(key: Option<Kind>) -> u32
    ensures { result ≡ limit_of (key_number key) }
{
    entry(&LIMITS, key)
}

#[tactic(auto, unfolding(crate::specs::Places::base_of, crate::specs::Places::bases))]
fn base(key: Option<Kind>) -> u32
    ensures { result ≡ base_of (key_number key) }
{
    entry(&BASES, key)
}

#[tactic(auto, unfolding(crate::specs::Places::width_of, crate::specs::Places::widths))]
fn width(key: Option<Kind>) -> u32
    ensures { result ≡ width_of (key_number key) }
{
    entry(&WIDTHS, key)
}

// How many fields of a record are stored.
#[tactic(auto, unfolding(crate::specs::Places::stored_of, crate::specs::Places::stored_fields))]
pub fn stored(key: Option<Kind>) -> u32
    ensures { result ≡ stored_of (key_number key) }
{
    entry(&STORED, key)
}

// The word that counts the records of a kind; opt and end are not counted.
#[tactic(auto, unfolding(crate::specs::Places::count_at))]
pub fn count_at(key: Option<Kind>) -> usize
    ensures { result ≡ count_at (key_number key) }
{
    match key {
        None | Some(Kind::Opt | Kind::End) => NOWHERE,
        Some(k) => k as usize - 1,
    }
}

// The first word of row c of a kind of record; nowhere if its table is full, or there is no kind.
#[tactic(auto, unfolding(crate::specs::Places::row_at), using(crate::proofs::PlaceBounds::within))]
pub fn row_at(key: Option<Kind>, c: u32) -> usize
    ensures { result ≡ row_at (key_number key) c }
{
    if c < limit(key) {
        base(key) as usize + c as usize * width(key) as usize
    } else {
        NOWHERE
    }
}

// The word of field n of a row; a vgroup's row has the number of its members before them.
#[tactic(auto, unfolding(crate::specs::Places::place_of))]
pub fn place(key: Option<Kind>, row: usize, n: u32) -> usize
    ensures { result ≡ place_of (key_number key) row n }
{
    if NOWHERE <= row || stored(key) < n || n == 0 {
        return NOWHERE;
    }
    match key {
        Some(Kind::Vgroup) => row + n as usize,
        _ => row + (n as usize - 1),
    }
}

// The word of a row that is no field: a vgroup's number of members, the number of uses before a segment.
#[tactic(auto, unfolding(crate::specs::Places::tail_at))]
pub fn tail_at(key: Option<Kind>, row: usize) -> usize
    ensures { result ≡ tail_at (key_number key) row }
{
    match key {
        Some(Kind::Vgroup) if row < NOWHERE => row,
        Some(Kind::Seg) if row < NOWHERE => row + 4,
        _ => NOWHERE,
    }
}

// What goes there, behind n - 1 fields.
#[tactic(auto, unfolding(crate::specs::Places::tail_of))]
pub fn tail(key: Option<Kind>, n: u32, uses: u32) -> u32
    ensures { result ≡ tail_of (key_number key) n uses }
{
    match key {
        Some(Kind::Seg) => uses,
        _ => n.saturating_sub(1),
    }
}

// One field more; ten stands for ten or more.
#[tactic(auto, unfolding(crate::specs::Places::up_of))]
pub fn up(n: u32) -> u32
    ensures { result ≡ up_of n }
{
    n.min(9) + 1
}
