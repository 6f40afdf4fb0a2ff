// uses.rs: a use list shows its part of the job's uses or of the added ones; where it is split.

ghost use Rattle.std.specs.Prelude.{◌≡◌, ◌+◌, ◌*◌, ◌≤◌, ◌<◌};
ghost use Rattle.uses.specs.Lists.{Within, table_of, part_of, left_list, right_list};

// Which of the two tables of uses a list stands in.
#[derive(Clone, Copy)]
pub enum Source {
    Job,
    Added,
}

// `count` uses from use `first` on.
#[derive(Clone, Copy)]
pub struct UseList {
    pub source: Source,
    pub first: usize,
    pub count: usize,
}

// The table that a source names.
fn table<'a>(job: &'a [u8], added: &'a [u8], source: Source) -> &'a [u8]
    ensures { result.now ≡ table_of job.now added.now source }
{
    match source {
        Source::Job => job,
        Source::Added => added,
    }
}

// The rows of the list: a part of one of the two tables.
#[tactic(auto, unfolding(crate::specs::Lists::Within, crate::specs::Lists::part_of))]
pub fn use_list<'a>(job: &'a [u8], added: &'a [u8], list: UseList) -> &'a [u8]
    requires { Within job.now added.now list }
    ensures { result.now ≡ part_of job.now added.now list }
{
    let table = table(job, added, list.source);
    &table[list.first * 24..(list.first + list.count) * 24]
}

// The first k uses of a list, and the rest.
#[tactic(auto, unfolding(crate::specs::Lists::left_list))]
pub fn left_list(list: UseList, k: usize) -> UseList
    ensures { result ≡ left_list list k }
{
    UseList { count: k, ..list }
}

#[tactic(auto, unfolding(crate::specs::Lists::right_list))]
pub fn right_list(list: UseList, k: usize) -> UseList
    requires { (k ≤ list.count) × (list.first + list.count < 4294967296) }
    ensures { result ≡ right_list list k }
{
    UseList {
        first: list.first + k,
        count: list.count - k,
        ..list
    }
}
