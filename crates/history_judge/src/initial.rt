ghost use Rattle.std.specs.Prelude.{◌≡◌};
ghost use Rattle.address_map.specs.Words.{initial_value};

use address_map::WordAddr;

/// Returns the initial value of the word: its value in `initial`, or 0.
pub fn initial_of(initial: &[(WordAddr, u64)], word: WordAddr) -> u64
    ensures { result ≡ initial_value initial.now word }
{
    match initial.iter().find(|pair| pair.0.0 == word.0) {
        Some(pair) => pair.1,
        None => 0,
    }
}
