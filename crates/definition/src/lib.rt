// The types that code and definition share: indices, uses, the records of a job, refusals with their numbers, and stops.
#![tactic(auto)]

ghost use Rattle.std.specs.Prelude.{◌≡◌};
ghost use Rattle.definition.specs.Types.{number_of};
ghost use Rattle.definition.specs.Text.{bytes};
ghost use Rattle.definition.specs.SheetForms.{sheet_number_of};
ghost use Rattle.definition.specs.JobOrder.{order_word};

// How many places a group of values or of registers has at most.
pub const MAX_GROUP: usize = 8;

// One tuple struct for each kind of index, as the Rust's entity types.

#[derive(Clone, Copy, PartialEq, Eq, PartialOrd, Ord)]
pub struct Inst(pub u32);

#[derive(Clone, Copy, PartialEq, Eq, PartialOrd, Ord)]
pub struct Block(pub u32);

#[derive(Clone, Copy, PartialEq, Eq, PartialOrd, Ord)]
pub struct Value(pub u32);

#[derive(Clone, Copy, PartialEq, Eq, PartialOrd, Ord)]
pub struct ValueGroup(pub u32);

#[derive(Clone, Copy, PartialEq, Eq, PartialOrd, Ord)]
pub struct ValueSet(pub u32);

#[derive(Clone, Copy, PartialEq, Eq, PartialOrd, Ord)]
pub struct RegBank(pub u32);

#[derive(Clone, Copy, PartialEq, Eq, PartialOrd, Ord)]
pub struct RegClass(pub u32);

#[derive(Clone, Copy, PartialEq, Eq, PartialOrd, Ord)]
pub struct PhysReg(pub u32);

#[derive(Clone, Copy, PartialEq, Eq, PartialOrd, Ord)]
pub struct VirtReg(pub u32);

#[derive(Clone, Copy, PartialEq, Eq, PartialOrd, Ord)]
pub struct VirtRegGroup(pub u32);

// A point of a live range: 4 * instruction + slot.
#[derive(Clone, Copy, PartialEq, Eq, PartialOrd, Ord)]
pub struct LiveRangePoint(pub u32);

#[derive(Clone, Copy, PartialEq, Eq)]
pub enum Slot {
    Boundary,
    Early,
    Normal,
}

// What a use asks of its value's register, in UseKind's order.
#[derive(Clone, Copy)]
pub enum UseKind {
    FixedDef {
        reg: PhysReg,
    },
    FixedUse {
        reg: PhysReg,
    },
    TiedUse {
        use_slot: u16,
        def_slot: u16,
        class: RegClass,
        group_index: u8,
    },
    ConstraintConflict,
    ClassUse {
        slot: u16,
        class: RegClass,
    },
    ClassDef {
        slot: u16,
        class: RegClass,
    },
    GroupClassUse {
        slot: u16,
        class: RegClass,
        group_index: u8,
    },
    GroupClassDef {
        slot: u16,
        class: RegClass,
        group_index: u8,
    },
    BlockparamIn {
        blockparam_idx: u32,
    },
    BlockparamOut,
}

#[derive(Clone, Copy)]
pub struct Use {
    pub pos: Inst,
    pub kind: UseKind,
}

// The flags of a use list.
#[derive(Clone, Copy)]
pub struct UseFlags {
    pub livein: bool,
    pub liveout: bool,
    pub fixedhint: bool,
    pub fixeddef: bool,
}

// The options that count: the weight adjust k and the three remat scales.
#[derive(Clone, Copy)]
pub struct Options {
    pub adjust: u32,
    pub cheaper_than_move: f32,
    pub cheaper_than_load: f32,
    pub indirect: f32,
}

#[derive(Clone, Copy)]
pub struct BlockData {
    pub insts: u32,
    pub frequency: f32,
}

// A class: the mask of its subclasses (bit c for class c), the cost of a use, the group size.
#[derive(Clone, Copy)]
pub struct ClassData {
    pub mask: u32,
    pub cost: f32,
    pub size: u32,
    pub spillslots: bool,
}

#[derive(Clone, Copy, PartialEq, Eq)]
pub enum Remat {
    Never,
    CheaperThanMove,
    CheaperThanLoad,
    Indirect,
}

#[derive(Clone, Copy)]
pub struct ValueData {
    pub bank: RegBank,
    pub leader: Value,
    pub remat: Remat,
}

// A group operand: a value group at a slot of an instruction.
#[derive(Clone, Copy)]
pub struct Operand {
    pub inst: Inst,
    pub slot: u32,
    pub vgroup: ValueGroup,
    pub class: RegClass,
}

#[derive(Clone, Copy)]
pub struct Hint {
    pub value: Value,
    pub inst: Inst,
    pub incoming: bool,
}

// Whether a piece is a part of the job's ranges or was made for a conflict.
#[derive(Clone, Copy, PartialEq, Eq)]
pub enum Origin {
    Own,
    Conflict,
}

// The side of a cut.
#[derive(Clone, Copy, PartialEq, Eq)]
pub enum Side {
    Early,
    Late,
}

// Which way a block's frequency goes to move a cut.
#[derive(Clone, Copy, PartialEq, Eq)]
pub enum Way {
    Up,
    Down,
}

// A block whose frequency by itself could move a cut: the way, and the fewest f32 steps.
#[derive(Clone, Copy)]
pub struct CutMove {
    pub block: Block,
    pub way: Way,
    pub steps: u32,
}

// The six stops.
#[derive(Clone, Copy, PartialEq, Eq)]
pub enum Stop {
    NoStart,
    TurnedDef,
    ValuesDiffer,
    MappedTwice,
    Overlap,
    NoneAdmitted,
}

// The nine refusals.
#[derive(Clone, Copy, PartialEq, Eq)]
pub enum Refusal {
    NotARecord,
    OverALimit,
    BadBook,
    BadFunction,
    BadHint,
    BadSegment,
    BadUse,
    Stopped(Stop),
    Full,
}

impl Refusal {
    // The number of a refusal, which C and the sheets get. Not by `as u32`: Stopped holds a Stop.
    pub fn number(self) -> u32
        ensures { result ≡ number_of self }
    {
        match self {
            Refusal::NotARecord => 1,
            Refusal::OverALimit => 2,
            Refusal::BadBook => 3,
            Refusal::BadFunction => 4,
            Refusal::BadHint => 5,
            Refusal::BadSegment => 6,
            Refusal::BadUse => 7,
            Refusal::Stopped(_) => 8,
            Refusal::Full => 9,
        }
    }
}

// The refusals of a job sheet: those of its job, and 10.
// An error enum, as `?` wants one, and no Option: both are errors.
#[derive(Clone, Copy, PartialEq, Eq)]
pub enum SheetRefusal {
    By(Refusal),
    WrittenDiffers,
}

impl SheetRefusal {
    // The number of a job sheet's refusal, which the sheets get. Not by `as u32`: By holds a Refusal.
    pub fn number(self) -> u32
        ensures { result ≡ sheet_number_of self }
    {
        match self {
            SheetRefusal::By(f) => f.number(),
            SheetRefusal::WrittenDiffers => 10,
        }
    }
}

// Where the first of two jobs stands to the second in the fixed order of jobs.
#[derive(Clone, Copy, PartialEq, Eq)]
pub enum Order {
    Before,
    Same,
    After,
}

impl Order {
    // The word of an answer.
    pub fn word(self) -> &'static [u8]
        ensures { result.now ≡ bytes (order_word self) }
    {
        match self {
            Order::Before => b"before",
            Order::Same => b"same",
            Order::After => b"after",
        }
    }
}
