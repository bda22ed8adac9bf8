#![tactic(auto)]

// Example lines: what is written of records, and what is read.
#[cfg(test)]
mod lines {
    use message::page::PageFull;
    use message::ticket::Ticket;
    use message::weight::Weight;
    use std::process::Abort;
    use std::test::Fail;
    use trace::kind::Kind;
    use trace::line::{read_line, write_header, write_line};
    use trace::record::{Event, Record};

    const TOP: u32 = 999_999_999;

    fn weight(value: i32) -> Weight {
        Weight { value }
    }

    // Writes the record and compares its line, and reads the line back.
    fn check_back(rt: &impl Abort, record: Record<Weight>, line: &[u8]) -> Result<(), Fail> {
        let mut page = [b'.'; 120];
        let end = write_line(record, &mut page, 0)?;
        assert!(rt; end <= 120);
        assert_eq!(rt; &page[0..end], line);
        assert_eq!(rt; read_line::<Weight>(line), Ok(record));
        Ok(())
    }

    // Seq and ms of the record that the line is of, or the number of the refusal.
    fn read(line: &[u8]) -> Result<(u32, u32), u32> {
        read_line::<Weight>(line)
            .map(|record| (record.seq, record.ms))
            .map_err(|refusal| refusal.number())
    }

    fn check_event(rt: &impl Abort, event: Event<Weight>, line: &[u8]) -> Result<(), Fail> {
        check_back(
            rt,
            Record {
                seq: 7,
                ms: 1500,
                event,
            },
            line,
        )
    }

    #[test]
    fn every_kind(rt: HostRuntime) -> Result<(), Fail> {
        check_event(
            &rt,
            Event::Start {
                task: 1,
                body: 2,
                starter: 3,
                sync: 4,
            },
            b"7,1500,start,1,2,3,4,,\r\n",
        )?;
        check_event(
            &rt,
            Event::Step {
                task: 1,
                place: 2,
                register: weight(-5),
            },
            b"7,1500,step,1,2,,,,-5\r\n",
        )?;
        check_event(
            &rt,
            Event::Emit {
                task: 1,
                place: 2,
                register: weight(0),
            },
            b"7,1500,emit,1,2,,,,0\r\n",
        )?;
        check_event(
            &rt,
            Event::Sync {
                task: 1,
                sync: 2,
                leaves: 3,
            },
            b"7,1500,sync,1,2,3,,,\r\n",
        )?;
        check_event(
            &rt,
            Event::One {
                task: 1,
                sync: 2,
                leaf: 3,
                message: weight(60),
            },
            b"7,1500,one,1,2,3,,,60\r\n",
        )?;
        let pair = Event::Pair {
            giver: 1,
            sync: 2,
            leaf: 3,
            taker_sync: 4,
            taker_leaf: 5,
            message: weight(600),
        };
        assert_eq!(rt; pair.kind(), Kind::Pair);
        check_event(&rt, pair, b"7,1500,pair,1,2,3,4,5,600\r\n")?;
        check_event(
            &rt,
            Event::Fire { task: 1, sync: 2 },
            b"7,1500,fire,1,2,,,,\r\n",
        )?;
        check_event(&rt, Event::End { task: 1 }, b"7,1500,end,1,,,,,\r\n")?;
        check_event(
            &rt,
            Event::Post {
                port: 2,
                message: weight(-2147483648),
            },
            b"7,1500,post,0,2,,,,-2147483648\r\n",
        )?;
        check_event(&rt, Event::Clock, b"7,1500,clock,0,,,,,\r\n")
    }

    #[test]
    fn numbers_at_their_ends(rt: HostRuntime) -> Result<(), Fail> {
        let largest = Event::Pair {
            giver: TOP,
            sync: TOP,
            leaf: TOP,
            taker_sync: TOP,
            taker_leaf: TOP,
            message: weight(2147483647),
        };
        check_back(
            &rt,
            Record {
                seq: TOP,
                ms: 4294967295,
                event: largest,
            },
            b"999999999,4294967295,pair,999999999,999999999,999999999,999999999,999999999,2147483647\r\n",
        )?;
        let zeros = Event::Start {
            task: 0,
            body: 0,
            starter: 0,
            sync: 0,
        };
        check_back(
            &rt,
            Record {
                seq: 1,
                ms: 0,
                event: zeros,
            },
            b"1,0,start,0,0,0,0,,\r\n",
        )?;
        let lines: [(&[u8], Result<(u32, u32), u32>); 16] = [
            (b"1,0,clock,0,,,,,\r\n", Ok((1, 0))),
            (b"0,0,clock,0,,,,,\r\n", Err(17)),
            (b"999999999,0,clock,0,,,,,\r\n", Ok((TOP, 0))),
            (b"1000000000,0,clock,0,,,,,\r\n", Err(17)),
            (b"1,4294967295,clock,0,,,,,\r\n", Ok((1, 4294967295))),
            (b"1,4294967296,clock,0,,,,,\r\n", Err(17)),
            (
                b"1,99999999999999999999999999999999,clock,0,,,,,\r\n",
                Err(17),
            ),
            (b"1,0,end,999999999,,,,,\r\n", Ok((1, 0))),
            (
                b"999999999,4294967295,end,999999999,,,,,\r\n",
                Ok((TOP, 4294967295)),
            ),
            (b"1,0,end,1000000000,,,,,\r\n", Err(17)),
            (b"1,0,pair,1,1000000000,1,1,1,0\r\n", Err(17)),
            (b"1,0,pair,1,1,1000000000,1,1,0\r\n", Err(17)),
            (b"1,0,pair,1,1,1,1000000000,1,0\r\n", Err(17)),
            (b"1,0,pair,1,1,1,1,1000000000,0\r\n", Err(17)),
            (b"1,0,pair,1,1,1,1,4294967296,0\r\n", Err(17)),
            (b"1,0,pair,1,1,1,1,1,2147483648\r\n", Err(17)),
        ];
        for (line, want) in lines {
            assert_eq!(rt; read(line), want);
        }
        Ok(())
    }

    #[test]
    fn refused_lines(rt: HostRuntime) {
        let lines: [&[u8]; 49] = [
            // no line at all
            b"",
            b"\r\n",
            b",,,,,,,,\r\n",
            b"seq,ms,kind,task,a,b,c,d,message\r\n",
            // the end of the line
            b"1,0,clock,0,,,,,",
            b"1,0,clock,0,,,,,\n",
            b"1,0,clock,0,,,,,\r",
            b"1,0,clock,0,,,,,\n\r",
            b"1,0,clock,0,,,,,\r\r\n",
            b"1,0,clock,0,,,,,\r\n\n",
            b"1,0,clock,0,,,,,\r\n\r\n",
            b"\r\n1,0,clock,0,,,,,\r\n",
            b"1,0,clock,0,,,,,\r\n2,0,clock,0,,,,,\r\n",
            // commas
            b"1,0,clock,0,,,,\r\n",
            b"1,0,clock,0,,,,,,\r\n",
            b"1,,0,clock,0,,,,,\r\n",
            b"1,0clock,0,,,,,\r\n",
            b"1;0;clock;0;;;;;\r\n",
            // numbers
            b"01,0,clock,0,,,,,\r\n",
            b"1,00,clock,0,,,,,\r\n",
            b"1,0,end,01,,,,,\r\n",
            b"1,0,fire,1,02,,,,\r\n",
            b"+1,0,clock,0,,,,,\r\n",
            b"-1,0,clock,0,,,,,\r\n",
            b"1,-0,clock,0,,,,,\r\n",
            b"1,0,end,0x1,,,,,\r\n",
            b"1,1.5,clock,0,,,,,\r\n",
            // spaces and quotes
            b" 1,0,clock,0,,,,,\r\n",
            b"1, 0,clock,0,,,,,\r\n",
            b"1,0,clock ,0,,,,,\r\n",
            b"1,0,clock,0, ,,,,\r\n",
            b"1,0,clock,0,,,,, \r\n",
            b"1,0,\"clock\",0,,,,,\r\n",
            // kinds
            b"1,0,,0,,,,,\r\n",
            b"1,0,tick,0,,,,,\r\n",
            b"1,0,Clock,0,,,,,\r\n",
            b"1,0,clocks,0,,,,,\r\n",
            b"1,0,cloc,0,,,,,\r\n",
            b"1,0,clock,1,,,,,\r\n",
            b"1,0,post,1,2,,,,3\r\n",
            // fields that the kind has not, or has
            b"1,0,clock,,,,,,\r\n",
            b"1,0,clock,0,,,,,0\r\n",
            b"1,0,end,1,1,,,,\r\n",
            b"1,0,start,1,2,3,,,\r\n",
            b"1,0,start,1,2,,4,,\r\n",
            b"1,0,pair,1,2,3,4,,5\r\n",
            b"1,0,sync,1,2,3,,,4\r\n",
            b"1,0,step,1,2,,,,\r\n",
            // messages
            b"1,0,step,1,2,,,,-0\r\n",
        ];
        for line in lines {
            assert_eq!(rt; read(line), Err(17));
        }
    }

    // What is written of a weight is no ticket, and the other way round.
    #[test]
    fn messages_of_a_kind(rt: HostRuntime) {
        let line = b"1,0,post,0,2,,,,-5/7\r\n";
        let ticket = Ticket {
            gross: weight(-5),
            tare: weight(7),
        };
        let mut page = [b'.'; 22];
        assert_eq!(rt;
            write_line(
                Record {
                    seq: 1,
                    ms: 0,
                    event: Event::Post {
                        port: 2,
                        message: ticket,
                    },
                },
                &mut page,
                0,
            ),
            Ok(22)
        );
        assert_eq!(rt; page, *line);
        assert!(rt; read_line::<Ticket>(line).is_ok());
        assert_eq!(rt; read(line), Err(17));
        assert!(rt; read_line::<Ticket>(b"1,0,post,0,2,,,,-5\r\n").is_err());
        // With no message the line is one for both.
        assert!(rt; read_line::<Ticket>(b"1,0,clock,0,,,,,\r\n").is_ok());
    }

    #[test]
    fn pages(rt: HostRuntime) {
        let clock: Record<Weight> = Record {
            seq: 1,
            ms: 0,
            event: Event::Clock,
        };
        let mut short = [b'.'; 17];
        assert_eq!(rt; write_line(clock, &mut short, 0), Err(PageFull));
        assert_eq!(rt; short, [b'.'; 17]);
        let mut page = [b'.'; 21];
        assert_eq!(rt; write_line(clock, &mut page, 4), Err(PageFull));
        assert_eq!(rt; write_line(clock, &mut page, 22), Err(PageFull));
        assert_eq!(rt; write_line(clock, &mut page, usize::MAX), Err(PageFull));
        assert_eq!(rt; page, [b'.'; 21]);
        assert_eq!(rt; write_line(clock, &mut page, 3), Ok(21));
        assert_eq!(rt; page, *b"...1,0,clock,0,,,,,\r\n");
        assert_eq!(rt; write_line(clock, &mut page, 1), Ok(19));
        assert_eq!(rt; page, *b".1,0,clock,0,,,,,\r\n\r\n");
    }

    #[test]
    fn headers(rt: HostRuntime) {
        let mut short = [b'.'; 33];
        assert_eq!(rt; write_header(&mut short, 0), Err(PageFull));
        assert_eq!(rt; short, [b'.'; 33]);
        let mut page = [b'.'; 36];
        assert_eq!(rt; write_header(&mut page, 3), Err(PageFull));
        assert_eq!(rt; write_header(&mut page, 37), Err(PageFull));
        assert_eq!(rt; write_header(&mut page, usize::MAX), Err(PageFull));
        assert_eq!(rt; page, [b'.'; 36]);
        assert_eq!(rt; write_header(&mut page, 2), Ok(36));
        assert_eq!(rt; page, *b"..seq,ms,kind,task,a,b,c,d,message\r\n");
    }

    // Any record is written; one that is not proper is not read back.
    #[test]
    fn improper_records(rt: HostRuntime) {
        let mut page = [b'.'; 40];
        let end: Event<Weight> = Event::End { task: 4294967295 };
        assert_eq!(rt;
            write_line(
                Record {
                    seq: 0,
                    ms: 0,
                    event: end,
                },
                &mut page,
                0,
            ),
            Ok(25)
        );
        assert_eq!(rt; &page[0..25], b"0,0,end,4294967295,,,,,\r\n".as_slice());
        assert_eq!(rt; read(&page[0..25]), Err(17));
    }
}
