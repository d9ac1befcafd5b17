// Chain memory, one word a position.
ghost use Rattle.std.specs.Prelude.{◌≡◌, length};
ghost use Rattle.bits.specs.Words.{bit_of, word_of};
ghost use Rattle.scan.specs.Loads.{moved_up};
ghost use Rattle.scan.specs.Memory.{chains_in, words_of};

use bits::low;

// Every chain moves up one position and takes its bit of `entering` into position 0.
pub(crate) fn move_up(words: &mut [u64], chains: usize, entering: u64)
    requires { entering ≡ word_of chains (bit_of entering) }
    ensures { words.new ≡ words_of (length words.old) chains (moved_up (bit_of entering) (chains_in words.old)) }
{
    let mut carried = entering;
    for word in words {
        let leaving = low(*word, chains);
        *word = carried;
        carried = leaving;
    }
}
