// Scans over class uses, on numbers: a class and its mask are all that is held. A group use is left to the one who walks.

ghost use Rattle.std.specs.Prelude.{◌≡◌, ◌≤◌, ◌<◌};
ghost use Rattle.reginfo.specs.Rows.{mask_in};
ghost use Rattle.constraints.specs.Asks.{ask_of};
ghost use Rattle.constraints.specs.InFrame.{Ready};
ghost use Rattle.frame.specs.InFrame.{marked_use};
ghost use Rattle.scans.specs.Walks.{book, asked_of, IsMasked, Narrows, Meets, Walked, WalkedBack};

use definition::RegClass;
use frame::Frame;
use job::Job;

// A class, and the mask of its subclasses.
#[derive(Clone, Copy)]
pub struct Masked {
    pub class: RegClass,
    pub mask: u32,
}

// What a use asks of its register: anything will do, a class, or a place in a group.
#[derive(Clone, Copy)]
pub enum Asked {
    Any,
    Class(RegClass),
    Group,
}

// What a use leads to from a class held: it is passed, and this is held then; it is not admitted; or it is a group use.
#[derive(Clone, Copy)]
pub enum Met {
    Passed(Masked),
    Refused,
    Group,
}

// Where a walk over uses ended, and the class that is held there. If `refused`, the use that comes next is a class use
// that is not admitted; else it is a group use, or there is none.
#[derive(Clone, Copy)]
pub struct Walk {
    pub at: usize,
    pub class: RegClass,
    pub refused: bool,
}

// The mask of class c; that of an unknown class is empty.
fn mask_of(job: &Job, c: RegClass) -> u32
    ensures { result ≡ mask_in (book job.now) c }
{
    let k = c.0 as usize;
    let n = job.lay.classes.n;
    let at = job.lay.classes.at;
    if k < n {
        return words::word_at(job.bytes, at + k * 4);
    }
    0
}

// What use n asks, by the words of its row: kinds 4 and 5 are class uses, 6 and 7 group uses. A marked use is a
// conflict, which asks nothing.
fn asked_at(fr: &Frame, work: &[u8], n: usize) -> Asked
    requires { Ready fr.now work.now × (n < fr.now.job.lay.uses.n) }
    ensures { result ≡ asked_of (ask_of (marked_use fr.now work.now n).kind) }
{
    let job = &fr.job;
    let row = job.lay.uses.at + n * 6;
    let kind = words::word_at(job.bytes, row);
    if kind < 4 {
        return Asked::Any;
    }
    if 7 < kind {
        return Asked::Any;
    }
    let mark = words::word_at(work, fr.wl.marks + n);
    if mark != 0 {
        return Asked::Any;
    }
    if kind < 6 {
        return Asked::Class(RegClass(words::word_at(job.bytes, row + 3)));
    }
    Asked::Group
}

// What is held behind a class use: the common subclass of the class held and its own.
fn narrowed(job: &Job, held: Masked, own: RegClass) -> Option<Masked>
    requires { IsMasked (book job.now) held }
    ensures { Narrows (book job.now) held.class own result }
{
    let class = reginfo::lowest_common(held.mask, mask_of(job, own))?;
    if class == held.class {
        return Some(held);
    }
    let mask = mask_of(job, class);
    Some(Masked { class, mask })
}

// What use n leads to. Inlined in both walks, so that its answer is no struct in memory.
#[inline(always)]
fn meet(fr: &Frame, work: &[u8], held: Masked, n: usize) -> Met
    requires { Ready fr.now work.now × (n < fr.now.job.lay.uses.n) × IsMasked (book fr.now.job) held }
    ensures { Meets (book fr.now.job) (marked_use fr.now work.now n) held.class result }
{
    match asked_at(fr, work, n) {
        Asked::Any => Met::Passed(held),
        Asked::Group => Met::Group,
        Asked::Class(own) => match narrowed(&fr.job, held, own) {
            Some(next) => Met::Passed(next),
            None => Met::Refused,
        },
    }
}

// The walk over the uses with numbers a to b - 1: those below `at` are passed.
pub fn walk_uses(fr: &Frame, work: &[u8], first: RegClass, a: usize, b: usize) -> Walk
    requires { Ready fr.now work.now × (a ≤ b) × (b ≤ fr.now.job.lay.uses.n) }
    ensures { Walked (book fr.now.job) (marked_use fr.now work.now) first a b result }
{
    let mask = mask_of(&fr.job, first);
    let mut held = Masked { class: first, mask };
    for n in a..b {
        match meet(fr, work, held, n) {
            Met::Passed(next) => held = next,
            Met::Refused => {
                return Walk {
                    at: n,
                    class: held.class,
                    refused: true,
                };
            }
            Met::Group => {
                return Walk {
                    at: n,
                    class: held.class,
                    refused: false,
                };
            }
        }
    }
    Walk {
        at: b,
        class: held.class,
        refused: false,
    }
}

// The walk back over the uses with numbers b - 1 to a: those from `at` on are passed, and the one before it comes next.
pub fn walk_back(fr: &Frame, work: &[u8], first: RegClass, a: usize, b: usize) -> Walk
    requires { Ready fr.now work.now × (a ≤ b) × (b ≤ fr.now.job.lay.uses.n) }
    ensures { WalkedBack (book fr.now.job) (marked_use fr.now work.now) first a b result }
{
    let mask = mask_of(&fr.job, first);
    let mut held = Masked { class: first, mask };
    for n in (a..b).rev() {
        match meet(fr, work, held, n) {
            Met::Passed(next) => held = next,
            Met::Refused => {
                return Walk {
                    at: n + 1,
                    class: held.class,
                    refused: true,
                };
            }
            Met::Group => {
                return Walk {
                    at: n + 1,
                    class: held.class,
                    refused: false,
                };
            }
        }
    }
    Walk {
        at: a,
        class: held.class,
        refused: false,
    }
}
