// What a program lends for a sheet that is moved to its other form.
ghost use Rattle.std.specs.Prelude.{◌≡◌, ◌≤◌, length};
ghost use Rattle.words.specs.Words.{word_count};
ghost use Rattle.sheet_rules.specs.Places.{table_words};
ghost use Rattle.job.specs.Regions.{max_work};

// A page, the reader's two tables, and the work space of the tests.
#[derive(Drop)]
pub struct Lent<'a> {
    pub buf: &'a mut [u8],
    pub table: &'a mut [u8],
    pub written: &'a mut [u8],
    pub work: &'a mut [u8],
    pub ghost page: { 256 ≤ length buf.now },
    pub ghost job: { word_count table.now ≡ table_words },
    pub ghost fields: { word_count written.now ≡ 1536 },
    pub ghost rest: { max_work ≤ word_count work.now },
}
