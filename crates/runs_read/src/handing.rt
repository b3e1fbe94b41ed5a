// One run asked for by itself, with its packed bytes handed back as a part of the caller's page.
ghost use Rattle.std.specs.Prelude.{◌≡◌};
ghost use Rattle.rules.specs.Runs.{one_run};
ghost use Rattle.rules.specs.Runs.Handed.{handed};

use crate::reader::run_from;
use rules::Run;

// Beside the part stand the code, the kind (1 for a packed run), the length in entries, the repeated value
// and the next place.
pub fn one_run<'a, 'b>(
    page: &'a [u8],
    at: usize,
    w: u32,
    n: usize,
    covered: usize,
    info: &'b mut [usize; 5],
) -> &'a [u8]
    ensures { handed result.now info.new ≡ one_run w n covered page.now at }
{
    match run_from(page, at, w, n, covered) {
        Err(refusal) => {
            *info = [refusal.code() as usize, 0, 0, 0, 0];
            &page[..0]
        }
        Ok(Run::Repeated { count, value, next }) => {
            *info = [0, 0, count, value as usize, next];
            &page[..0]
        }
        Ok(
            Run::Packed {
                groups,
                start,
                next,
            },
        ) => {
            *info = [0, 1, 8 * groups, 0, next];
            &page[start..next]
        }
    }
}
