// Are entries small enough for their width.
ghost use Rattle.std.specs.Prelude.{◌≡◌, ℕ, ◌^◌, ◌≤◌, leb};
ghost use Rattle.rules.specs.Answer.{◌then◌, any_large, large_fault, room_fault};
ghost use Rattle.rules.specs.Refusals.{fault};

use answers::judge_room;
use rules::Refusal;

// The bits of all entries together: a power of 2 is reached by them where it is reached by an entry.
pub fn bits_together(entries: &[u32]) -> u32
    ensures { (w : ℕ) → leb (2 ^ w) result ≡ any_large w entries.now }
{
    entries.iter().fold(0, |all, entry| all | *entry)
}

// Is some entry not below 2^w: no entry is tested by itself.
pub fn any_large(entries: &[u32], w: u32) -> bool
    requires { w ≤ 32 }
    ensures { result ≡ any_large w entries.now }
{
    (1 << w) <= bits_together(entries) as u64
}

// Are all entries small enough, and then: has the output as many places as are needed.
pub fn judge_entries(entries: &[u32], w: u32, places: usize, need: usize) -> Result<(), Refusal>
    requires { w ≤ 32 }
    ensures { fault result ≡ (large_fault w entries.now then room_fault places need) }
{
    if any_large(entries, w) {
        Err(Refusal::ValueTooLarge)
    } else {
        judge_room(places, need)
    }
}
