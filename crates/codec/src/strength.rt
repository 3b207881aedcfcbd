// What the code is good for, in numbers of symbols, and the examples that were worked out beforehand.
ghost use Rattle.codec.specs.Laws.{Apart, ConsistentApart, CorrectedWithin, UncorrectableWithin, RightWithin, RebuiltWithin};
ghost use Rattle.codec.specs.Laws.{DecodesClean, DecodesCorrected, JudgesRebuilt, JudgesCorrected, Laws};
ghost use Rattle.codec.specs.Points.{Points};

// The first check of a word.
pub type FirstCheck = [u8; 4];

// Numbers of symbols.
#[derive(Clone, Copy)]
pub struct Strength {
    // in at least so many symbols two codewords differ
    pub distance: usize,
    // in at least so many of the first 68 symbols two consistent words differ
    pub consistent_distance: usize,
    // up to so many wrong symbols are corrected
    pub corrects: usize,
    // two to so many wrong symbols, not all of them 68 or 69, make a word uncorrectable
    pub detects: usize,
    // up to so many wrong symbols no other line is handed out
    pub right_within: usize,
    // up to so many wrong check symbols a rebuilt line is handed out
    pub rebuilds: usize,
}

// The strength of full or of short words.
pub fn strength_of(short: bool) -> Strength
    ensures codewords_lie_apart { Apart short result.distance }
    ensures consistent_words_lie_apart { ConsistentApart short result.consistent_distance }
    ensures few_wrong_symbols_are_corrected { CorrectedWithin short result.corrects }
    ensures more_wrong_symbols_are_detected { UncorrectableWithin short result.detects }
    ensures no_other_line_is_handed_out { RightWithin short result.right_within }
    ensures a_rebuilt_line_is_handed_out { RebuiltWithin short result.rebuilds }
    ensures a_right_line_and_first_check_are_clean { DecodesClean short }
    ensures one_wrong_symbol_is_named { DecodesCorrected short }
    ensures a_rebuilt_codeword_is_rebuilt { JudgesRebuilt short }
    ensures one_wrong_symbol_of_a_rebuilt_word_is_named { JudgesCorrected short }
    ensures the_laws_hold { Laws }
{
    Strength {
        distance: if short { 6 } else { 7 },
        consistent_distance: 5,
        corrects: 1,
        detects: 4,
        right_within: 4,
        rebuilds: 1,
    }
}

// The generator polynomial of the first check below z^4, highest coefficient first.
pub fn generator() -> FirstCheck
    ensures the_worked_examples_hold { Points result }
{
    [0x1E, 0xD8, 0xE7, 0x74]
}
