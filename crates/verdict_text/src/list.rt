// The list of states that the program is given: numbers in six columns, one behind the other.
ghost use Rattle.std.specs.Prelude.{◌≡◌, ◌*◌, ◌≤◌, ◌<◌, length, take, drop};
ghost use Rattle.starts.specs.inner.Search.{enough_starts};
ghost use Rattle.verdict_text.specs.VerdictsText.{entry_in, entries_in};
ghost use Rattle.verdict_text.specs.inner.Entries.{ListRead};
ghost use Rattle.verdict_text.specs.inner.Sizes.{list_length};

use columns::read_column;
use lts::sizes::STATES;

// So many entries cannot all be right.
pub const STARTS: usize = STATES + 1;

// Entry i; 256, which is no state, if its six columns hold no number.
fn entry_at(list: &[u8], i: usize) -> usize
    requires { i < enough_starts }
    ensures { result ≡ entry_in (take 6 (drop (i * 6) list.now)) }
{
    read_column(list, i * 6).unwrap_or(STATES)
}

// How many entries there are. Fewer than six bytes at the end are one.
pub fn entry_count(list: &[u8]) -> usize
    requires { length list.now ≤ list_length }
    ensures value { result ≡ length (entries_in list.now) }
    ensures upper_bound { result ≤ enough_starts }
{
    (list.len() + 5) / 6
}

fn narrow(state: usize) -> u8
    requires { state < 256 }
    ensures { result ≡ state }
{
    state as u8
}

// Puts the entries into `starts` as bytes, up to the first that is none, and answers how many they are.
pub fn read_list(list: &[u8], starts: &mut [u8; STARTS]) -> usize
    requires { (length list.now ≤ list_length) × (length starts.old ≡ enough_starts) }
    ensures { ListRead list.now starts.new result }
{
    let end = entry_count(list);
    for i in 0..end {
        let entry = entry_at(list, i);
        if STATES <= entry {
            return i;
        }
        starts[i] = narrow(entry);
    }
    end
}
