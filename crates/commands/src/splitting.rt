// split SHEET
ghost use Rattle.std.specs.Prelude.{◌≡◌, length, take};
ghost use Rattle.std.proofs.lemmas.List.Edits.{sets};
ghost use Rattle.sheets.specs.Reading.{got};
ghost use Rattle.sheets.specs.PercentageSheet.{Sheet, read_sheet};
ghost use Rattle.sheets.specs.Demand.{Demand3};
ghost use Rattle.commands.specs.Split.{split_prints, FourPlacesPrinted};

// The rule sheet of a percentage sheet, or its refusal. No rule sheet is longer than the buffer.
pub fn split(sheet: &[u8], out: &mut [u8; crate::ROOM]) -> usize
    ensures answer { result ≡ length (split_prints sheet.now) }
    ensures buffer { out.new ≡ sets out.old 0 (split_prints sheet.now) }
    ensures demand { (S : Sheet) → read_sheet sheet.now ≡ got S → Demand3 sheet.now (take result out.new) }
    ensures four_places { FourPlacesPrinted sheet.now result out.old out.new }
{
    match sheets::split_sheet(sheet, out) {
        Ok(n) => n,
        Err(r) => crate::writing::put_refused(out, r),
    }
}
