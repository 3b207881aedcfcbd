// The functions for C, called as C calls them: a pointer and a length is a slice here.
#![tactic(auto)]

#[cfg(test)]
mod tests {
    use ffi::banks::MarkedBanks;
    use ffi::boards::{
        jelotsam_clear, jelotsam_format, jelotsam_mark, jelotsam_read, jelotsam_renew,
        jelotsam_scrub, jelotsam_write,
    };
    use ffi::words::{jelotsam_check, jelotsam_decode, jelotsam_judge};

    const NONE: MarkedBanks = MarkedBanks {
        count: 0,
        first: 0,
        second: 0,
    };

    // The zero line but for its last byte, and its check.
    const LAST: [u8; 6] = [0x1E, 0xD8, 0xE7, 0x74, 0x54, 0x92];

    #[test]
    fn words_cross(rt: HostRuntime) {
        let mut word = [0u8; 70];
        word[63] = 1;
        let mut check_symbols = [0u8; 6];
        assert_eq!(rt; jelotsam_check(&word[0..64], &mut check_symbols), 0);
        assert!(rt; check_symbols == LAST);
        word[64..70].copy_from_slice(&LAST);
        let mut line = [7u8; 64];
        word[3] = 9;
        let reply = jelotsam_decode(&word, &mut line);
        assert!(rt;
            reply.refusal == 0 && reply.finding == 1 && reply.symbol == 3 && reply.value == 9
        );
        assert!(rt; line[3] == 0 && line[63] == 1);
        word[4] = 9;
        let reply = jelotsam_decode(&word[0..69], &mut line);
        assert!(rt; reply.refusal == 255 && line[63] == 1);
        let reply = jelotsam_judge(&[0u8; 69], &mut line);
        assert!(rt; reply.refusal == 0 && reply.finding == 2 && line[63] == 0);
    }

    #[test]
    fn bad_lengths_are_refused_by_number(rt: HostRuntime) {
        let mut line = [0u8; 64];
        assert_eq!(rt; jelotsam_check(&[0u8; 63], &mut line[0..6]), 2);
        assert_eq!(rt; jelotsam_check(&[0u8; 64], &mut line[0..4]), 2);
        assert_eq!(rt; jelotsam_decode(&[0u8; 68], &mut line).refusal, 2);
        assert_eq!(rt; jelotsam_judge(&[0u8; 70], &mut line[0..63]).refusal, 2);
        let mut short = [0u8; 4607];
        let mut marks = NONE;
        assert_eq!(rt; jelotsam_format(&mut short, &mut marks).refusal, 10);
        assert_eq!(rt; jelotsam_read(&mut short, &NONE, 0, &mut line).refusal, 10);
        assert_eq!(rt; jelotsam_mark(&mut short, &mut marks, 0).refusal, 10);
    }

    #[test]
    fn marks_that_no_board_has_are_refused(rt: HostRuntime) {
        let mut memory = [0u8; 4608];
        let high = MarkedBanks {
            count: 1,
            first: 64,
            second: 0,
        };
        let twice = MarkedBanks {
            count: 2,
            first: 8,
            second: 8,
        };
        let many = MarkedBanks {
            count: 3,
            first: 8,
            second: 9,
        };
        assert_eq!(rt; jelotsam_clear(&mut memory, &high, 0).refusal, 3);
        assert_eq!(rt; jelotsam_scrub(&mut memory, &twice, 0).refusal, 4);
        assert_eq!(rt; jelotsam_clear(&mut memory, &many, 0).refusal, 5);
    }

    // The line that a read hands out; the first byte of a line that it does not is 0xEE.
    fn handed_out(memory: &mut [u8], marks: &MarkedBanks, address: usize) -> [u8; 64] {
        let mut line = [0xEEu8; 64];
        let _ = jelotsam_read(memory, marks, address, &mut line);
        line
    }

    #[test]
    fn a_bank_is_retired(rt: HostRuntime) {
        let mut memory = [0xEEu8; 4608];
        let mut marks = NONE;
        assert_eq!(rt; jelotsam_format(&mut memory, &mut marks).refusal, 0);
        assert_eq!(rt;
            jelotsam_write(&mut memory, &marks, 5, &[0xA7; 64]).refusal,
            0
        );
        memory[320] = 0x11;
        memory[321] = 0x11;
        assert!(rt; handed_out(&mut memory, &marks, 5) == [0xA7; 64]);
        assert_eq!(rt; jelotsam_mark(&mut memory, &mut marks, 5).number, 71);
        assert!(rt; marks.count == 1 && marks.first == 5);
        assert!(rt; handed_out(&mut memory, &marks, 5) == [0xA7; 64]);
    }

    #[test]
    fn a_group_is_scrubbed_and_cleared(rt: HostRuntime) {
        let mut memory = [0u8; 4608];
        assert_eq!(rt;
            jelotsam_renew(&mut memory, &NONE, 6, &[0xB8; 64]).refusal,
            0
        );
        memory[4480] ^= 1;
        assert_eq!(rt; jelotsam_scrub(&mut memory, &NONE, 5).number, 1);
        assert!(rt; handed_out(&mut memory, &NONE, 6) == [0xB8; 64]);
        assert_eq!(rt; jelotsam_clear(&mut memory, &NONE, 5).refusal, 0);
        assert!(rt; handed_out(&mut memory, &NONE, 6) == [0; 64]);
        assert!(rt; handed_out(&mut memory, &NONE, 64) == [0xEE; 64]);
    }
}
