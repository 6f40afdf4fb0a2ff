// builder.rs: the members of a register group, a class narrowed by theirs, and the register at a place of a mapped group.

ghost use Rattle.std.specs.Prelude.{◌≡◌, ◌≤◌, ◌<◌, length, get_or, IfSome};
ghost use Rattle.std.proofs.Math.Option.{none};
ghost use Rattle.words.specs.Words.{word_count, words_of};
ghost use Rattle.definition.specs.Types.{State};
ghost use Rattle.definition.specs.Types as types;
ghost use Rattle.definition.specs.RegInfo.{common_subclass};
ghost use Rattle.definition.specs.Admit.{register_at, members_at, narrowed, at_place, in_group};
ghost use Rattle.job.specs.Job.{job_in};
ghost use Rattle.reginfo.specs.Rows.{found_of};
ghost use Rattle.virt_regs.specs.Encoding.{tables_end, Holds};
ghost use Rattle.constraints.specs.Places.{number_word, option_of, narrowed_at, joined_of};

use definition::{MAX_GROUP, RegClass, VirtReg, VirtRegGroup};
use frame::Frame;
use virt_regs::OutLayout;

// What a group use is to hold: the class, and the register to merge into.
#[derive(Clone, Copy)]
pub struct Joined {
    pub class: RegClass,
    pub target: Option<VirtReg>,
}

// The number that a word of a table stands for: it is number + 1, or 0 for none.
pub fn number_in(w: u32) -> Option<u32>
    ensures { w ≡ number_word result }
{
    w.checked_sub(1)
}

// The register at place i of group g; none where the place is empty or there is no such place.
pub fn member_at(out: &[u8], ol: OutLayout, g: VirtRegGroup, i: usize) -> Option<VirtReg>
    requires { tables_end ol ≤ word_count out.now }
    ensures { (st : State) → Holds ol (words_of out.now) st → option_of result ≡ get_or (members_at st g) i none }
{
    let k = g.0 as usize;
    if ol.groups <= k {
        return None;
    }
    if MAX_GROUP <= i {
        return None;
    }
    let w = virt_regs::member_at(out, ol, g, i);
    number_in(w).map(VirtReg)
}

// The common subclass of class k and register v's.
pub fn shared_class(fr: &Frame, out: &[u8], k: RegClass, v: VirtReg) -> Option<RegClass>
    requires { tables_end fr.now.ol ≤ word_count out.now }
    ensures { (st : State) → Holds fr.now.ol (words_of out.now) st → v.0 < length st.registers → result ≡ found_of (common_subclass (job_in fr.now.job) k (register_at st v).class) }
{
    let ol = &fr.ol;
    let n = v.0 as usize;
    if ol.regs <= n {
        return None;
    }
    let c = virt_regs::class_of(out, v);
    reginfo::common_subclass(&job::rows::classes(&fr.job), k, c)
}

// Class k narrowed by the member m, if there is one.
fn narrow(fr: &Frame, out: &[u8], k: RegClass, m: Option<VirtReg>) -> Option<RegClass>
    requires { tables_end fr.now.ol ≤ word_count out.now }
    ensures { (st : State) → Holds fr.now.ol (words_of out.now) st → IfSome m (λ v. v.0 < length st.registers) → result ≡ found_of (narrowed_at (job_in fr.now.job) st (option_of m) k) }
{
    match m {
        None => Some(k),
        Some(v) => shared_class(fr, out, k, v),
    }
}

// Class k narrowed by the class of each member of group g in turn.
pub fn narrowed_by(fr: &Frame, out: &[u8], g: VirtRegGroup, k: RegClass) -> Option<RegClass>
    requires { tables_end fr.now.ol ≤ word_count out.now }
    ensures { (st : State) → Holds fr.now.ol (words_of out.now) st → result ≡ found_of (narrowed (job_in fr.now.job) st (members_at st g) k) }
{
    let mut class = k;
    for i in 0..MAX_GROUP {
        let m = member_at(out, fr.ol, g, i);
        class = narrow(fr, out, class, m)?;
    }
    Some(class)
}

// A use at index i of group g, where class and target were held and k is the candidate: the register at that place is merged into,
// with the common subclass of the class held before the use and its own; at an empty place the candidate is narrowed by every member.
pub fn at_place(
    fr: &Frame,
    out: &[u8],
    class: RegClass,
    target: Option<VirtReg>,
    k: RegClass,
    g: VirtRegGroup,
    i: u32,
) -> Option<Joined>
    requires { tables_end fr.now.ol ≤ word_count out.now }
    ensures { (st : State) (h : types.Held) → Holds fr.now.ol (words_of out.now) st → h.class ≡ class → h.target ≡ option_of target → joined_of result ≡ at_place (job_in fr.now.job) st h k (members_at st g) (get_or (members_at st g) i none) }
{
    let Some(v) = member_at(out, fr.ol, g, i as usize) else {
        let class = narrowed_by(fr, out, g, k)?;
        return Some(Joined { class, target });
    };
    let class = shared_class(fr, out, class, v)?;
    let target = Some(v);
    Some(Joined { class, target })
}

// The same with the group m that the operand is mapped to; where it is mapped to none the candidate stays.
pub fn in_group(
    fr: &Frame,
    out: &[u8],
    class: RegClass,
    target: Option<VirtReg>,
    k: RegClass,
    m: Option<VirtRegGroup>,
    i: u32,
) -> Option<Joined>
    requires { tables_end fr.now.ol ≤ word_count out.now }
    ensures { (st : State) (h : types.Held) → Holds fr.now.ol (words_of out.now) st → h.class ≡ class → h.target ≡ option_of target → joined_of result ≡ in_group (job_in fr.now.job) st h k i (option_of m) }
{
    match m {
        None => Some(Joined { class: k, target }),
        Some(g) => at_place(fr, out, class, target, k, g, i),
    }
}
