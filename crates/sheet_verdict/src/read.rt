// The reader of a whole job sheet of either form in memory. The sheet is left as it was; both tables are zeros where it is refused.

ghost use Rattle.std.specs.Prelude.{◌≡◌};
ghost use Rattle.words.specs.Words.{word_count};
ghost use Rattle.sheet_rules.specs.Places.{table_words};
ghost use Rattle.sheet_verdict.specs.Read.{number_said, ReadAs};

use sheet::first::SheetError;

// The table of the sheet's job and the sheet's written fields; or why the bytes are no job sheet. The tables have the
// words of a sheet at every limit, so that none is too large for them.
pub fn read_sheet(sheet: &[u8], table: &mut [u8], written: &mut [u8]) -> Result<(), SheetError>
    requires { (word_count table.old ≡ table_words) × (word_count written.old ≡ 1536) }
    ensures { ReadAs sheet.now (number_said result) table.new written.new }
{
    let first = sheet::either::open(table, written);
    let cur = sheet::either::feed(first, sheet, table, written);
    if let Err(e) = sheet::either::finish(cur) {
        words::span::clear(table);
        words::span::clear(written);
        return Err(e);
    }
    Ok(())
}
