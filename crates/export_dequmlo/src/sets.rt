// The sets of widths, which C names by number.
ghost use Rattle.std.specs.Prelude.{◌≡◌};
ghost use Rattle.export_dequmlo.specs.Sets.{set_of, Names};

use theory_laws::Refusal;
use theory_record::WidthSet;

// The set that a number names: 0 the present one, 1 the wide one. Any other number is refused first (`set_named`).
pub fn set_of(widths: u32) -> WidthSet
    ensures { result ≡ set_of widths }
{
    if widths == 0 {
        return WidthSet::Present;
    }
    WidthSet::Wide
}

// The set that a number names; 4 for a number that names none.
pub fn set_named(widths: u32) -> Result<WidthSet, Refusal>
    ensures { Names widths result }
{
    if widths > 1 {
        return Err(Refusal::Parameters);
    }
    Ok(set_of(widths))
}
