// The sizes of every buffer that a set of widths, n and k fix, so that a caller can lend what question 5 asks for.
ghost use Rattle.std.specs.Prelude.{◌≡◌};
ghost use Rattle.export_dequmlo.specs.Sizes.{sizes_of};

use export_dequmlo::sizes::Sizes;

// The sizes of a seal: 4 where the number names no set, n is not from 1 to 20 or k is above 4.
#[unsafe(no_mangle)]
pub extern "C" fn dequmlo_sizes(widths: u32, n: usize, k: usize) -> Sizes
    ensures { result ≡ sizes_of widths n k }
{
    export_dequmlo::sizes::dequmlo_sizes(widths, n, k)
}
