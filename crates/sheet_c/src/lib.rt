// The sheet reader for callers in C and Rust: the exported function is that of `sheet`, with its contract.
#![tactic(auto)]

ghost use Rattle.std.specs.Prelude.{◌≡◌};
ghost use Rattle.sheet.specs.Answer.{read_lent, work_after};
ghost use Rattle.sheet.specs.Sizes.{numbers_of, ids_of, names_of, places_of};

// The whole answer in numbers, for callers in other languages; the work area ends as after `read`.
#[unsafe(no_mangle)]
pub extern "C" fn read_sheet(
    sheet: &[u8],
    work: &mut [u8],
    numbers: &mut [u32; 12],
    ids: &mut [u32; 128],
    names: &mut [u32; 128],
    places: &mut [u32; 128],
)
    ensures numbers_after { numbers.new ≡ numbers_of (read_lent sheet.now work.old) }
    ensures ids_after { ids.new ≡ ids_of (read_lent sheet.now work.old) }
    ensures names_after { names.new ≡ names_of (read_lent sheet.now work.old) }
    ensures places_after { places.new ≡ places_of (read_lent sheet.now work.old) }
    ensures work_after { work.new ≡ work_after sheet.now work.old }
{
    sheet::read_sheet(sheet, work, numbers, ids, names, places);
}
