// The worked examples of the codec, and what a second program says of lines and of damaged words, run as tests.
#![tactic(auto)]

#[cfg(test)]
mod damaged;
#[cfg(test)]
mod table;

#[cfg(test)]
mod tests {
    use crate::damaged::{DAMAGED, Damaged};
    use crate::table::VECTORS;
    use codec::code::{check_of, decode, judge};
    use codec::export::{codec_check, codec_decode};
    use codec::strength::generator;
    use codec::word::{Check, Finding, FullCheck, Line, Uncorrectable, Word};
    use std::process::Abort;

    // the zero line but for its last two bytes
    fn ending(a: u8, b: u8) -> Line {
        let mut line = [0; 64];
        line[62] = a;
        line[63] = b;
        line
    }

    fn full(line: Line, check: FullCheck) -> Word {
        Word {
            line,
            check: Check::Full(check),
        }
    }

    fn short(line: Line, check: FullCheck) -> Word {
        let [a, b, c, d, e, _] = check;
        Word {
            line,
            check: Check::Short([a, b, c, d, e]),
        }
    }

    // What decoding or judging answers; a line that it hands out must be the one expected.
    fn answered<F: FnOnce(&Word, &mut Line) -> Result<Finding, Uncorrectable>>(
        rt: &impl Abort,
        call: F,
        word: &Word,
        expected: &Line,
    ) -> Result<Finding, Uncorrectable>
        requires takes_any_word { F.IsAlwaysCallable call }
    {
        let mut line = [7; 64];
        let r = call(word, &mut line);
        assert!(rt; line == r.map_or([7; 64], |_| *expected));
        r
    }

    #[test]
    fn checks_of_the_reference_lines(rt: HostRuntime) {
        assert!(rt; check_of(&[0; 64]) == [0; 6]);
        assert!(rt; check_of(&ending(0, 1)) == [0x1E, 0xD8, 0xE7, 0x74, 0x54, 0x92]);
        assert!(rt; check_of(&ending(1, 0)) == [0x91, 0x82, 0xA1, 0xB1, 0x02, 0xCD]);
        assert!(rt; check_of(&ending(1, 1)) == [0x8F, 0x5A, 0x46, 0xC5, 0x56, 0x5F]);
        assert!(rt; generator() == [0x1E, 0xD8, 0xE7, 0x74]);
    }

    #[test]
    fn reference_words_decode(rt: HostRuntime) {
        let zero = [0; 64];
        let mut first = zero;
        first[0] = 1;
        assert!(rt;
            answered(&rt, decode, &full(first, [0; 6]), &zero) == Ok(Finding::Corrected((0, 1)))
        );
        assert!(rt;
            answered(&rt, decode, &full(zero, [0, 0, 0, 0, 0xFF, 0xFF]), &zero)
                == Ok(Finding::Clean)
        );
        let last = ending(0, 1);
        assert!(rt;
            answered(
                &rt,
                decode,
                &full(last, [0x1E, 0xD8, 0xE7, 0x74, 0, 0]),
                &last
            ) == Ok(Finding::Clean)
        );
        assert!(rt;
            answered(
                &rt,
                decode,
                &full(last, [0x1E, 0xD8, 0xE7, 0, 0x54, 0x92]),
                &last
            ) == Ok(Finding::Corrected((67, 0x74)))
        );
        first[1] = 1;
        assert!(rt; answered(&rt, decode, &full(first, [0; 6]), &zero) == Err(Uncorrectable));
    }

    #[test]
    fn judging_looks_at_the_second_check(rt: HostRuntime) {
        let zero = [0; 64];
        assert!(rt; answered(&rt, judge, &full(zero, [0; 6]), &zero) == Ok(Finding::Rebuilt));
        assert!(rt;
            answered(&rt, judge, &full(zero, [0, 0, 0, 0, 9, 0]), &zero)
                == Ok(Finding::RebuiltCorrected((68, 9)))
        );
        assert!(rt;
            answered(&rt, judge, &full(zero, [0, 0, 0, 0, 0, 9]), &zero)
                == Ok(Finding::RebuiltCorrected((69, 9)))
        );
        assert!(rt;
            answered(&rt, judge, &full(zero, [0, 0, 0, 0, 9, 9]), &zero) == Err(Uncorrectable)
        );
        assert!(rt;
            answered(&rt, judge, &short(zero, [0, 0, 0, 0, 9, 0]), &zero)
                == Ok(Finding::RebuiltCorrected((68, 9)))
        );
    }

    // The line and the check of a vector.
    fn parts(vector: &[u8; 70]) -> (Line, FullCheck) {
        (
            *vector.first_chunk().unwrap(),
            *vector.last_chunk().unwrap(),
        )
    }

    #[test]
    fn a_second_program_agrees(rt: HostRuntime) {
        for vector in &VECTORS {
            let (line, symbols) = parts(vector);
            assert!(rt; check_of(&line) == symbols);
            assert!(rt; answered(&rt, decode, &full(line, symbols), &line) == Ok(Finding::Clean));
            assert!(rt; answered(&rt, decode, &short(line, symbols), &line) == Ok(Finding::Clean));
            assert!(rt; answered(&rt, judge, &full(line, symbols), &line) == Ok(Finding::Rebuilt));
            assert!(rt; answered(&rt, judge, &short(line, symbols), &line) == Ok(Finding::Rebuilt));
        }
    }

    // One wrong symbol of the line, at every place and in every vector.
    #[test]
    fn one_wrong_symbol_is_corrected(rt: HostRuntime) {
        for vector in &VECTORS {
            let (line, symbols) = parts(vector);
            for s in 0..64 {
                let mut wrong = line;
                wrong[s] ^= 0x5A;
                assert!(rt;
                    answered(&rt, decode, &full(wrong, symbols), &line)
                        == Ok(Finding::Corrected((s, 0x5A)))
                );
                assert!(rt;
                    answered(&rt, decode, &short(wrong, symbols), &line)
                        == Ok(Finding::Corrected((s, 0x5A)))
                );
            }
        }
    }

    // Two to four wrong symbols are never taken for another line.
    #[test]
    fn more_wrong_symbols_are_uncorrectable(rt: HostRuntime) {
        for vector in &VECTORS {
            let (line, symbols) = parts(vector);
            let mut wrong = line;
            wrong[3] ^= 1;
            for s in [10, 40, 63] {
                wrong[s] ^= 0xC3;
                assert!(rt;
                    answered(&rt, decode, &full(wrong, symbols), &line) == Err(Uncorrectable)
                );
                assert!(rt;
                    answered(&rt, decode, &short(wrong, symbols), &line) == Err(Uncorrectable)
                );
            }
        }
    }

    #[test]
    fn exported_functions_answer_alike(rt: HostRuntime) {
        for vector in &VECTORS {
            let (line, symbols) = parts(vector);
            let mut stored = [0; 6];
            codec_check(&line, &mut stored);
            assert!(rt; stored == symbols);
            let mut wrong = line;
            let mut out = [7; 64];
            assert_eq!(rt; codec_decode(&wrong, &symbols, &mut out), 0);
            wrong[5] ^= 1;
            assert_eq!(rt; codec_decode(&wrong, &symbols, &mut out), 1);
            assert!(rt; out == line);
            wrong[6] ^= 1;
            assert_eq!(rt; codec_decode(&wrong, &symbols, &mut out), 255);
            assert!(rt; out == line);
        }
    }

    // The shown word of an entry.
    fn shown(rt: &impl Abort, damaged: &Damaged) -> [u8; 70] {
        assert!(rt; damaged.line < VECTORS.len());
        let mut symbols = VECTORS[damaged.line];
        for (s, xor) in damaged.wrong {
            assert!(rt; *s < symbols.len());
            symbols[*s] ^= *xor;
        }
        symbols
    }

    // The line to be handed out: as shown, but for a corrected symbol of it.
    fn handed_out(line: Line, answer: Result<Finding, Uncorrectable>) -> Line {
        let mut right = line;
        if let Ok(Finding::Corrected((s, x))) = answer
            && s < right.len()
        {
            right[s] ^= x;
        }
        right
    }

    #[test]
    fn a_second_program_agrees_on_damaged_words(rt: HostRuntime) {
        for damaged in &DAMAGED {
            let (line, symbols) = parts(&shown(&rt, damaged));
            let (of_full, of_short) = (damaged.full, damaged.short);
            assert!(rt;
                answered(
                    &rt,
                    decode,
                    &full(line, symbols),
                    &handed_out(line, of_full)
                ) == of_full
            );
            assert!(rt;
                answered(
                    &rt,
                    decode,
                    &short(line, symbols),
                    &handed_out(line, of_short)
                ) == of_short
            );
        }
    }
}
