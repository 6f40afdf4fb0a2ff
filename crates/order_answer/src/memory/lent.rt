// What a program lends for two sheets that are compared.
ghost use Rattle.std.specs.Prelude.{◌≡◌, ◌≤◌};
ghost use Rattle.words.specs.Words.{word_count};
ghost use Rattle.sheet_rules.specs.Places.{table_words};
ghost use Rattle.job.specs.Regions.{max_work};

// A table for each job, one of the written fields of the sheet that is read, and the work space of the tests.
#[derive(Drop)]
pub struct Lent<'a> {
    pub first: &'a mut [u8],
    pub second: &'a mut [u8],
    pub written: &'a mut [u8],
    pub work: &'a mut [u8],
    pub ghost one: { word_count first.now ≡ table_words },
    pub ghost other: { word_count second.now ≡ table_words },
    pub ghost fields: { word_count written.now ≡ 1536 },
    pub ghost rest: { max_work ≤ word_count work.now },
}
