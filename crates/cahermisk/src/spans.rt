// Stretches of selected entries.
ghost use Rattle.std.specs.Prelude.{◌≡◌};
ghost use Rattle.rules.specs.Answer.Outcome.{outcome};
ghost use Rattle.rules.specs.Spans as Spans;

use rules::Answer;
use spans_list::from_bitmap::from_bitmap;
use spans_mark::to_bitmap::to_bitmap;

pub fn cahermisk_spans_from_bitmap(bitmap: &[u8], n: usize, spans: &mut [u32]) -> Answer
    ensures { outcome result spans.new
        ≡ Spans.from_bitmap bitmap.now n spans.old }
{
    from_bitmap(bitmap, n, spans).into()
}

pub fn cahermisk_spans_to_bitmap(spans: &[u32], n: usize, bitmap: &mut [u8]) -> Answer
    ensures { outcome result bitmap.new
        ≡ Spans.to_bitmap spans.now n bitmap.old }
{
    to_bitmap(spans, n, bitmap).into()
}
