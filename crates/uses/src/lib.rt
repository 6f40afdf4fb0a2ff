// uses.rs: a use from its row, what its kind says, and where a use list is cut.
// A use row has six words: kind, instruction, and the kind's fields in UseKind's order, zeros behind them.
#![tactic(auto)]

ghost use Rattle.std.specs.Prelude.{◌≡◌, ◌+◌, ◌*◌, ◌≤◌, ◌<◌, length};
ghost use Rattle.words.specs.Words.{word_count, words_of};
ghost use Rattle.definition.specs.Uses.{is_def, is_class_use, end_slot, end_point};
ghost use Rattle.definition.specs.Cuts.{uses_before};
ghost use Rattle.uses.specs.Rows.{kind_of, use_row, uses_in, typed_kind, fit, decoded_row};

pub mod lists;

use definition::{Inst, LiveRangePoint, PhysReg, RegClass, Use, UseKind};
use words::rows::{Rows, word_of};

// The kind from its number and its four fields. Fields are taken modulo their UseKind types; a number above 9 is no kind and gives a conflict.
// The number is a lent word and may be any: an enum of kinds would first be made of it, by this same match.
#[tactic(auto, unfolding(crate::specs::Rows::kind_of))]
pub fn kind_of(kind: u32, a: u32, b: u32, c: u32, d: u32) -> UseKind
    ensures { result ≡ kind_of kind a b c d }
{
    match kind {
        0 => UseKind::FixedDef { reg: PhysReg(a) },
        1 => UseKind::FixedUse { reg: PhysReg(a) },
        2 => UseKind::TiedUse {
            use_slot: (a % 65536) as u16,
            def_slot: (b % 65536) as u16,
            class: RegClass(c),
            group_index: (d % 256) as u8,
        },
        4 => UseKind::ClassUse {
            slot: (a % 65536) as u16,
            class: RegClass(b),
        },
        5 => UseKind::ClassDef {
            slot: (a % 65536) as u16,
            class: RegClass(b),
        },
        6 => UseKind::GroupClassUse {
            slot: (a % 65536) as u16,
            class: RegClass(b),
            group_index: (c % 256) as u8,
        },
        7 => UseKind::GroupClassDef {
            slot: (a % 65536) as u16,
            class: RegClass(b),
            group_index: (c % 256) as u8,
        },
        8 => UseKind::BlockparamIn { blockparam_idx: a },
        9 => UseKind::BlockparamOut,
        _ => UseKind::ConstraintConflict,
    }
}

// The use whose row begins at word i.
#[tactic(auto, unfolding(crate::specs::Rows::use_row))]
pub fn use_at(t: &[u8], i: usize) -> Use
    requires { i + 6 ≤ word_count t.now }
    ensures { result ≡ use_row (words_of t.now) i }
{
    let kind = kind_of(
        words::word_at(t, i),
        words::word_at(t, i + 2),
        words::word_at(t, i + 3),
        words::word_at(t, i + 4),
        words::word_at(t, i + 5),
    );
    Use {
        pos: Inst(words::word_at(t, i + 1)),
        kind,
    }
}

// Whether two slots and a group index fit their UseKind types, u16 and u8.
#[tactic(auto, unfolding(crate::specs::Rows::fit))]
fn within(a: u32, b: u32, i: u32) -> bool
    ensures { result ≡ fit a b i }
{
    a < 65536 && b < 65536 && i < 256
}

// Whether a kind's fields fit their UseKind types.
// The kind is a number, as the table has it: a UseKind can't hold the fields that do not fit.
#[tactic(auto, unfolding(crate::specs::Rows::typed_kind))]
pub fn fields_fit(kind: u32, a: u32, b: u32, c: u32, d: u32) -> bool
    ensures { result ≡ typed_kind kind a b c d }
{
    match kind {
        2 => within(a, b, d),
        4 | 5 => within(a, 0, 0),
        6 | 7 => within(a, 0, c),
        _ => true,
    }
}

// The use whose row begins at word i; None where its kind is none or a field is beyond its UseKind type.
pub fn decode(t: &[u8], i: usize) -> Option<Use>
    requires { i + 6 ≤ word_count t.now }
    ensures { result ≡ decoded_row (words_of t.now) i }
{
    let kind = words::word_at(t, i);
    if 10 <= kind {
        return None;
    }
    let fits = fields_fit(
        kind,
        words::word_at(t, i + 2),
        words::word_at(t, i + 3),
        words::word_at(t, i + 4),
        words::word_at(t, i + 5),
    );
    if fits { Some(use_at(t, i)) } else { None }
}

// Whether the kind is a def. Not one with is_class_use: a list of kinds each, and another definition.
pub fn is_def(kind: UseKind) -> bool
    ensures { result ≡ is_def kind }
{
    matches!(
        kind,
        UseKind::FixedDef { .. }
            | UseKind::ClassDef { .. }
            | UseKind::GroupClassDef { .. }
            | UseKind::BlockparamIn { .. }
    )
}

// Whether the kind is a class use. Not one with is_def: a list of kinds each, and another definition.
pub fn is_class_use(kind: UseKind) -> bool
    ensures { result ≡ is_class_use kind }
{
    matches!(
        kind,
        UseKind::ClassUse { .. }
            | UseKind::ClassDef { .. }
            | UseKind::GroupClassUse { .. }
            | UseKind::GroupClassDef { .. }
    )
}

// How many points past its instruction's Boundary a use of the kind ends.
fn end_slot(kind: UseKind) -> u32
    ensures { (result ≡ end_slot kind) × (result ≤ 4) }
{
    match kind {
        UseKind::ClassDef { .. }
        | UseKind::FixedDef { .. }
        | UseKind::GroupClassDef { .. }
        | UseKind::BlockparamOut => 4,
        UseKind::ClassUse { .. } | UseKind::GroupClassUse { .. } => 2,
        UseKind::FixedUse { .. }
        | UseKind::TiedUse { .. }
        | UseKind::ConstraintConflict
        | UseKind::BlockparamIn { .. } => 0,
    }
}

// The point at which a use ends.
#[tactic(auto, unfolding(definition::specs::Uses::end_point))]
pub fn end_point(u: Use) -> LiveRangePoint
    requires { u.pos.0 < 4096 }
    ensures { result ≡ end_point u }
{
    LiveRangePoint(4 * u.pos.0 + end_slot(u.kind))
}

// How many of the uses come before instruction p: these go left at a cut, the rest right.
pub fn count_before(uses: &Rows<6>, p: Inst) -> usize
    ensures { (result ≡ length (uses_before p (uses_in uses.now))) × (result ≤ uses.now.n) }
{
    for i in 0..uses.n {
        if p.0 <= word_of(uses, i, 1) {
            return i;
        }
    }
    uses.n
}
