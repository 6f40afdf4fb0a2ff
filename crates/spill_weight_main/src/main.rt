// Weights of single uses and of a hundred, their costs and patterns, each held to bits that were computed elsewhere.
#![tactic(auto)]

ghost use Rattle.std.specs.Prelude.{◌≡◌, ◌≤◌, ◌<◌};
ghost use Rattle.definition.specs.RegInfo.{zero_f};
ghost use Rattle.spill_weight_main.specs.Terms.{add_term, cost_at, sum_terms, bits_from};

use definition::{Options, Remat, UseKind};
use weights::{Cost, MAX, Plain, Sum, add_use, base_cost};

// One use more, by the bits of its cost and its block's frequency.
fn add_term(sum: Sum, cost: u32, freq: u32) -> Sum
    requires { (cost < 0x7f80_0000) × (freq < 0x7f80_0000) }
    ensures { result.value ≡ add_term sum.value cost freq }
{
    let cost = Plain {
        value: weights::floats::float_of(cost),
    };
    let freq = Plain {
        value: weights::floats::float_of(freq),
    };
    weights::add_cost(sum, cost, freq)
}

// The bits of the weight of one use.
fn one_term(cost: u32, freq: u32, insts: u32, spillslots: bool) -> u32
    requires { (cost < 0x7f80_0000) × (freq < 0x7f80_0000) × (1 ≤ insts) × (insts ≤ 4096) }
    ensures { result ≡ bits_from (add_term zero_f cost freq) insts 0 spillslots }
{
    let sum = add_term(Sum::zero(), cost, freq);
    weights::floats::bits_of(weights::weight(sum, insts, 0, spillslots))
}

// The bits of the cost of use i of a hundred: zero for one in thirteen.
#[tactic(auto, unfolding(crate::specs::Terms::cost_at))]
fn cost_at(i: u32) -> u32
    requires { i < 100 }
    ensures { (result ≡ cost_at i) × (result < 0x7f80_0000) }
{
    if i % 13 == 5 {
        0
    } else {
        0x3d000000 + i * 655361
    }
}

// The sum over the first n of them, in order; the frequencies fall.
fn sum_terms(n: u32) -> Sum
    requires { n ≤ 100 }
    ensures { result.value ≡ sum_terms n }
{
    let mut sum = Sum::zero();
    for i in 0..n {
        sum = add_term(sum, cost_at(i), 0x40c00000 - i * 580031);
    }
    sum
}

// Case A's weights; an overflow; a subnormal; one instruction without and with spillslots.
fn singles() {
    check::expect(one_term(0x3f800000, 0x3f800000, 2, false) == 0x3f000000);
    check::expect(one_term(0x3f800000, 0x3f000000, 2, false) == 0x3e800000);
    check::expect(one_term(0x49800000, 0x7f7fffff, 2, false) == 0x7f7fffff);
    check::expect(one_term(0x3f800000, 0x00000003, 2, false) == 0x00000002);
    check::expect(one_term(0x3f800000, 0x3f800000, 1, false) == 0x7f800000);
    check::expect(one_term(0x3f800000, 0x3f800000, 1, true) == 0x3f800000);
}

// The entry rules at their bounds, and the lesser of two patterns.
fn patterns() {
    check::expect(weights::floats::is_plain(0x7f7fffff));
    check::expect(!weights::floats::is_plain(0x7f800000));
    check::expect(!weights::floats::is_plain(0x80000000));
    check::expect(weights::floats::is_small(0x49800000));
    check::expect(!weights::floats::is_small(0x49800001));
    check::expect(weights::floats::lesser_bits(0x7f800000, 0x3f000000) == 0x3f000000);
    check::expect(weights::floats::lesser_bits(0x00000001, 0x7f7fffff) == 0x00000001);
}

// A scaled cost, one that comes out as zero, and the cost of a conflict.
fn scales() {
    let options = Options {
        adjust: 0,
        cheaper_than_move: 0.1,
        cheaper_than_load: 0.25,
        indirect: 1.0,
    };
    let tenth = Sum { value: 0.1 };
    let cost = Cost { value: 3.1415927 };
    let seven = Plain { value: 7.0 };
    let scaled = add_use(tenth, options, Remat::CheaperThanMove, cost, seven);
    check::expect(weights::floats::bits_of(scaled.value) == 0x401324b2);
    let least = weights::floats::float_of(0x00000001);
    let tiny = Cost { value: least };
    let most = Plain { value: MAX };
    let skipped = add_use(tenth, options, Remat::CheaperThanLoad, tiny, most);
    check::expect(weights::floats::bits_of(skipped.value) == 0x3dcccccd);
    let free = Cost { value: 0.0 };
    let conflict = base_cost(UseKind::ConstraintConflict, free, false);
    let one = Plain { value: 1.0 };
    let used = add_use(Sum::zero(), options, Remat::Indirect, conflict, one);
    check::expect(weights::floats::bits_of(used.value) == 0x3f000000);
}

// A hundred uses: another order, a sum in f64 or fused products give other bits.
fn main() {
    let sum = sum_terms(100);
    check::expect(weights::floats::bits_of(weights::weight(sum, 37, 5, false)) == 0x3f1412d1);
    singles();
    patterns();
    scales();
}
