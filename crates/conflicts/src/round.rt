// builder.rs emit_vregs_for_conflicts: a round over rows of turned uses in the work slice, in place; runs of rows of one instruction.

ghost use Rattle.std.specs.Prelude.{◌≡◌, List, ◌∷◌, ℕ, ◌+◌, ◌*◌, ◌≤◌, ◌<◌, get_or};
ghost use Rattle.words.specs.Words.{word_count, words_of};
ghost use Rattle.job.specs.JobWords.{words_in};
ghost use Rattle.definition.specs.Types.{State};
ghost use Rattle.definition.specs.Admit.{admit};
ghost use Rattle.definition.specs.Build.{all_of, runs, same_inst};
ghost use Rattle.job.specs.Job.{job_in};
ghost use Rattle.virt_regs.specs.Encoding.{tables_end};
ghost use Rattle.constraints.specs.Held.{held_of, admission_of};
ghost use Rattle.pieces.specs.Conflict.{turned_row_at};
ghost use Rattle.conflicts.specs.Rounds.{row_words, swap_rows, TurnedApart, Elsewhere, try_all, Tried};
ghost use Rattle.constraints.specs.InFrame.{Ready, Stands};
ghost use Rattle.pieces.specs.Conflict as conflict;
ghost use Rattle.pieces.specs.ConflictInFrame.{row_use, turned_rows_of, RowsOk};

use constraints::Held;
use definition::RegClass;
use frame::Frame;
use job::Layout;

// The four words of a row: value, use number, whether it has a parameter (0 or 1), the parameter.
// No array of four: the definitions of a round name the words.
#[derive(Clone, Copy)]
pub struct RowWords {
    pub value: u32,
    pub number: u32,
    pub has: u32,
    pub param: u32,
}

// The rows up to `end` are admitted, and what is then held.
#[derive(Clone, Copy)]
pub struct Round {
    pub end: usize,
    pub held: Held,
}

// The row that begins at word i.
fn row_words(work: &[u8], i: usize) -> RowWords
    requires { i + 4 ≤ word_count work.now }
    ensures { result ≡ row_words (words_of work.now) i }
{
    RowWords {
        value: words::word_at(work, i),
        number: words::word_at(work, i + 1),
        has: words::word_at(work, i + 2),
        param: words::word_at(work, i + 3),
    }
}

// Rows i and j trade places.
fn swap_rows(work: &mut [u8], turned: usize, i: usize, j: usize)
    requires { (turned + i * 4 + 4 ≤ word_count work.old) × (turned + j * 4 + 4 ≤ word_count work.old) }
    ensures { words_of work.new ≡ swap_rows (words_of work.old) turned i j }
{
    let p = turned + i * 4;
    let q = turned + j * 4;
    let x = row_words(work, p);
    let y = row_words(work, q);
    words::put_row(work, p, [y.value, y.number, y.has, y.param]);
    words::put_row(work, q, [x.value, x.number, x.has, x.param]);
}

// Whether the use of row k is admitted.
fn admit_row(fr: &Frame, out: &[u8], work: &[u8], held: Held, k: usize) -> Option<Held>
    requires { Ready fr.now work.now × (tables_end fr.now.ol ≤ word_count out.now) × (fr.now.wl.turned + k * 4 + 4 ≤ word_count work.now) × (get_or (words_of work.now) (fr.now.wl.turned + k * 4 + 1) 0 < fr.now.job.lay.uses.n) × (0 < fr.now.job.lay.segments.n) }
    ensures { (st : State) → Stands fr.now out.now work.now st → admission_of result ≡ admit (job_in fr.now.job) st (held_of held) (row_use fr.now work.now k) }
{
    let u = pieces::conflict::turned_use(fr, work, k);
    constraints::admit(fr, out, work, held, u)
}

// "From the top class, the turned uses are tried in the order turned; one not admitted trades places with the last untried one": rows a to b - 1.
pub fn try_rows(fr: &Frame, out: &[u8], work: &mut [u8], top: RegClass, a: usize, b: usize) -> Round
    requires { Ready fr.now work.old × (tables_end fr.now.ol ≤ word_count out.now) × TurnedApart fr.now.job.lay fr.now.wl × RowsOk fr.now work.old a b × (0 < fr.now.job.lay.segments.n) }
    ensures parted { (a ≤ result.end) × (result.end ≤ b) × Elsewhere fr.now.wl.turned a b (words_of work.old) (words_of work.new) × RowsOk fr.now work.new a b }
    ensures tried { (st : State) → Stands fr.now out.now work.old st → Tried (words_of work.new) fr.now.wl.turned (words_in fr.now.job) fr.now.job.lay a b result (try_all (job_in fr.now.job) st top (turned_rows_of fr.now work.old a b)) }
{
    let wl = &fr.wl;
    let turned = wl.turned;
    let mut held = scans::fresh_held(top);
    // Both ends move, so no range gives the rows in turn.
    let mut i = a;
    let mut j = b;
    while i < j {
        match admit_row(fr, out, work, held, i) {
            Some(next) => {
                held = next;
                i += 1;
            }
            None => {
                j -= 1;
                swap_rows(work, turned, i, j);
            }
        }
    }
    Round { end: i, held }
}

// The end of the run of rows, of those before row n, with the instruction of row a.
pub fn run_end(fr: &Frame, work: &[u8], a: usize, n: usize) -> usize
    requires { RowsOk fr.now work.now a n × (a < n) }
    ensures { (a < result) × (result ≤ n) × (runs same_inst (turned_rows_of fr.now work.now a n) ≡ turned_rows_of fr.now work.now a result ∷ runs same_inst (turned_rows_of fr.now work.now result n)) }
{
    let first = pieces::conflict::turned_use(fr, work, a);
    for e in a + 1..n {
        let u = pieces::conflict::turned_use(fr, work, e);
        if u.pos != first.pos {
            return e;
        }
    }
    n
}

// Whether rows a + 1 to b - 1 have the value of row a.
pub fn one_value(work: &[u8], turned: usize, a: usize, b: usize) -> bool
    requires { (a < b) × (turned + b * 4 ≤ word_count work.now) }
    ensures { (W : List ℕ) (lay : Layout) → result ≡ all_of (turned_row_at (words_of work.now) turned W lay a).value (conflict.turned_rows_of (words_of work.now) turned W lay (a + 1) b) }
{
    let value = words::word_at(work, turned + a * 4);
    (a + 1..b).all(|i| words::word_at(work, turned + i * 4) == value)
}
