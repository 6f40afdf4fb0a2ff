// The cost of a use and the spill weight of a register, in f32.
#![tactic(auto)]

ghost use Rattle.std.specs.Prelude.{◌≡◌, ◌≤◌, T};
ghost use Rattle.definition.specs.Weights.{scaled, add_cost, normalized};
ghost use Rattle.weights.specs.Nonneg.{nonneg};
ghost use Rattle.weights.specs.Costs.{fixed_cost, base_cost, weight_from, SmallScales};

mod cost;
pub mod floats;
mod plain;
mod sum;

pub use cost::Cost;
use definition::{Options, Remat, UseKind};
pub use plain::Plain;
pub use sum::Sum;

// `f32::MAX`.
pub const MAX: f32 = f32::MAX;

// The cost of a use: its class's cost and whether its register is in memory are read by the caller.
pub fn base_cost(kind: UseKind, class_cost: Cost, memory: bool) -> Cost
    ensures { result.value ≡ base_cost kind class_cost.value memory }
{
    match kind {
        UseKind::FixedDef { .. } | UseKind::FixedUse { .. } => fixed_cost(memory),
        UseKind::TiedUse { .. } | UseKind::ConstraintConflict => Cost { value: 0.5 },
        UseKind::ClassUse { .. }
        | UseKind::ClassDef { .. }
        | UseKind::GroupClassUse { .. }
        | UseKind::GroupClassDef { .. } => class_cost,
        UseKind::BlockparamIn { .. } | UseKind::BlockparamOut => Cost { value: 0.0 },
    }
}

// The cost of a fixed kind.
pub fn fixed_cost(memory: bool) -> Cost
    ensures { result.value ≡ fixed_cost memory }
{
    let value = if memory { 0.0 } else { 1.0 };
    Cost { value }
}

// The cost by the scale of the value's remat kind.
pub fn scaled_cost(options: Options, remat: Remat, cost: Cost) -> Plain
    requires { SmallScales options }
    ensures { result.value ≡ scaled options remat cost.value }
{
    let cost = cost.value;
    let value = match remat {
        Remat::Never => cost,
        Remat::CheaperThanMove => cost * options.cheaper_than_move,
        Remat::CheaperThanLoad => cost * options.cheaper_than_load,
        Remat::Indirect => cost * options.indirect,
    };
    Plain { value }
}

// One use more: a scaled cost of zero is skipped.
pub fn add_cost(sum: Sum, cost: Plain, freq: Plain) -> Sum
    ensures { result.value ≡ add_cost sum.value cost.value freq.value }
{
    let cost = cost.value;
    if cost == 0.0 {
        return sum;
    }
    let value = sum.value + cost * freq.value;
    Sum { value }
}

// One use more, by its cost and its value's remat kind: the scaled cost is tested.
pub fn add_use(sum: Sum, options: Options, remat: Remat, cost: Cost, freq: Plain) -> Sum
    requires { SmallScales options }
    ensures { result.value ≡ add_cost sum.value (scaled options remat cost.value) freq.value }
{
    let by_scale = scaled_cost(options, remat, cost);
    add_cost(sum, by_scale, freq)
}

// The sum over instructions and k, at most `MAX`.
// How many instructions there are is a number of the call, 1 to 4096 by a clause: the caller counts them for this
// call alone.
pub fn normalize(sum: Sum, insts: u32, k: u32) -> Plain
    requires { (1 ≤ insts) × (insts ≤ 4096) × (k ≤ 65535) }
    ensures { result.value ≡ normalized sum.value insts k }
{
    let n = insts + k;
    let value = crate::floats::lesser(sum.value / (n as f32), MAX);
    Plain { value }
}

// Infinite for one instruction in a class without spillslots.
pub fn weight(sum: Sum, insts: u32, k: u32, spillslots: bool) -> f32
    requires { (1 ≤ insts) × (insts ≤ 4096) × (k ≤ 65535) }
    ensures { (result ≡ weight_from sum.value insts k spillslots) × T (nonneg result) }
{
    let few = insts <= 1;
    if few && !spillslots {
        f32::INFINITY
    } else {
        normalize(sum, insts, k).value
    }
}
