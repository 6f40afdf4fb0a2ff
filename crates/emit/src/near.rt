// The block of the last use.
use definition::Inst;
use weights::Plain;

// Every instruction from `low` up to `high` runs with frequency `freq`; none, where no use came before. That this is so
// of a job is a clause.
#[derive(Clone, Copy)]
pub struct Near {
    pub low: Inst,
    pub high: Inst,
    pub freq: Plain,
}
