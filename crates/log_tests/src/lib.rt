// Tests of the error log.
#![tactic(auto)]

#[cfg(test)]
mod tests {
    use codec::word::Finding;
    use error_log::log::Log;
    use error_log::note::{Kind, Note};
    use stack::refusal::Refusal;

    const BLANK: Note = Note {
        bank: 200,
        index: 0,
        kind: Kind::Refused,
        symbol: 0,
        value: 0,
    };

    #[test]
    fn only_findings_and_failed_rebuilds_are_noted(rt: HostRuntime) {
        let mut notes = [BLANK; 4];
        let mut log = Log {
            notes: &mut notes,
            used: 0,
        };
        assert_eq!(rt; log.note(130, &Ok(Finding::Clean)), Ok(()));
        assert_eq!(rt; log.note(130, &Err(Refusal::LineLength)), Ok(()));
        assert_eq!(rt; log.used, 0);
        assert_eq!(rt; log.note(130, &Ok(Finding::Corrected((65, 7)))), Ok(()));
        assert_eq!(rt; log.note(131, &Ok(Finding::Rebuilt)), Ok(()));
        assert_eq!(rt;
            log.note(131, &Ok(Finding::RebuiltCorrected((3, 9)))),
            Ok(())
        );
        assert_eq!(rt;
            log.note(2, &Err(Refusal::RebuildFailed { address: 2 })),
            Ok(())
        );
        assert_eq!(rt; log.used, 4);
        assert_eq!(rt;
            log.note(2, &Err(Refusal::RebuildFailed { address: 2 }))
                .map_err(|refusal| refusal.number()),
            Err(13)
        );
        assert_eq!(rt; log.note(2, &Ok(Finding::Clean)), Ok(()));
        assert!(rt; log.tally(2) == 2 && log.tally(3) == 2 && log.tally(200) == 0);
        assert_eq!(rt; log.worst(), Some(2));
        assert_eq!(rt; log.first(3, 2), Some(1));
        assert_eq!(rt; log.first(2, 1), None);
        assert_eq!(rt; log.share(2), 500);
        assert_eq!(rt;
            notes[0],
            Note {
                bank: 2,
                index: 2,
                kind: Kind::Corrected,
                symbol: 65,
                value: 7,
            }
        );
        assert_eq!(rt; notes[3].kind.number(), 4);
    }

    #[test]
    fn a_sixteenth_is_63_thousandths(rt: HostRuntime) {
        let mut notes = [BLANK; 16];
        notes[5].bank = 9;
        let log = Log {
            notes: &mut notes,
            used: 16,
        };
        assert_eq!(rt; log.share(9), 63);
        assert_eq!(rt; log.share(200), 938);
        assert_eq!(rt; log.worst(), Some(9));
    }

    #[test]
    fn a_count_beyond_the_list_means_a_full_log(rt: HostRuntime) {
        let mut notes = [BLANK; 2];
        let mut log = Log {
            notes: &mut notes,
            used: usize::MAX,
        };
        assert_eq!(rt;
            log.note(1, &Ok(Finding::Rebuilt))
                .map_err(|refusal| refusal.number()),
            Err(13)
        );
        assert_eq!(rt; log.used, usize::MAX);
        assert_eq!(rt; log.tally(200), 2);
        log.used = 0;
        assert_eq!(rt; log.share(200), 0);
        assert_eq!(rt; log.worst(), None);
    }
}
