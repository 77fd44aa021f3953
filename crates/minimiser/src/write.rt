// The network's products, put in sequence, and their bytes written into the lent buffer.
ghost use Rattle.std.specs.Prelude.{◌≡◌, Bool, List, ◌++◌, ℕ, ◌*◌, ◌≤◌, length, drop};
ghost use Rattle.hazard.specs.Limits.{most_required};
ghost use Rattle.hazard.specs.Sets.{Required, Privileged};
ghost use Rattle.hazard.specs.Minimal.{bytes_of};
ghost use Rattle.cube.specs.Entry.{network_in};
ghost use Rattle.sequence.specs.Sorted.{Sorts};
ghost use Rattle.sequence.specs.Words.{up_to};
ghost use Rattle.selection.specs.Select.{Selects};
ghost use Rattle.selection.specs.Answer.{minimised_of};
ghost use Rattle.minimiser.specs.Answer.{Writable, Answered};

use cube::inputs::Inputs;
use network_bytes::write::write_network;
use refusal::refusal::Refusal;
use selection::select::Places;
use sequence::sort::sort;

// The words are sorted, and their bytes written.
fn write_sorted(n: Inputs, words: &mut [u64], cover: &mut [u8])
    requires { (length words.old ≤ most_required) × (length words.old * n.count ≤ length cover.old) }
    ensures { Sorts up_to words.old words.new × (cover.new ≡ bytes_of (network_in n.count words.new) ++ drop (length words.new * n.count) cover.old) }
{
    sort(words);
    write_network(n, words, cover);
}

// What select answers, as the minimiser's answer: the words that it kept are written in sequence, or nothing where it refused.
pub fn written(
    n: Inputs,
    selected: Result<Places, Refusal>,
    products: &mut [u64],
    cover: &mut [u8],
) -> Result<usize, Refusal>
    requires { Writable n.count products.old cover.old selected }
    ensures { (off : ℕ → Bool) (vs : List Privileged) (rs : List Required) → Selects n.count off vs rs products.old selected → Answered n.count off vs rs cover.old cover.new (minimised_of result) }
{
    let Places { start, end } = selected?;
    write_sorted(n, &mut products[start..end], cover);
    Ok(end - start)
}
