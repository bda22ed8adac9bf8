#![tactic(auto)]

// Example messages: what is read, computed and written.
#[cfg(test)]
mod messages {
    use message::decimal::{count_digits, leading_number, read_number, write_number};
    use message::kind::{Message, Sign};
    use message::literal::{Lead, Literal};
    use message::page::{PageFull, has_room, write_bytes};
    use message::ticket::Ticket;
    use message::weight::Weight;
    use std::test::Fail;

    const MIN: i32 = -2147483648;

    const MAX: i32 = 2147483647;

    fn ticket(gross: i32, tare: i32) -> Ticket {
        Ticket {
            gross: Weight { value: gross },
            tare: Weight { value: tare },
        }
    }

    // What the bytes write as a weight, or the place of the fault.
    fn read_weight(text: &[u8]) -> Result<i32, usize> {
        Weight::read(text)
            .map(|w| w.value)
            .map_err(|fault| fault.at)
    }

    // What the bytes write as a ticket, gross and tare, or the place of the fault.
    fn read_ticket(text: &[u8]) -> Result<(i32, i32), usize> {
        Ticket::read(text)
            .map(|t| (t.gross.value, t.tare.value))
            .map_err(|fault| fault.at)
    }

    #[test]
    fn weights_read(rt: HostRuntime) {
        let texts: [(&[u8], Result<i32, usize>); 20] = [
            (b"0", Ok(0)),
            (b"-1", Ok(-1)),
            (b"2147483647", Ok(MAX)),
            (b"-2147483648", Ok(MIN)),
            (b"2147483648", Err(9)),
            (b"-2147483649", Err(10)),
            (b"", Err(0)),
            (b"-", Err(1)),
            (b"-0", Err(1)),
            (b"01", Err(1)),
            (b"00", Err(1)),
            (b"+1", Err(0)),
            (b"--1", Err(1)),
            (b" 1", Err(0)),
            (b"1 ", Err(1)),
            (b"1-", Err(1)),
            (b"1/2", Err(1)),
            (b"1111111111111111111111111111111111111111", Err(10)),
            (b"9999999999999999999999999999999999999999", Err(9)),
            (b"-111111111111111111111111111111111111111", Err(11)),
        ];
        for (text, want) in texts {
            assert_eq!(rt; read_weight(text), want);
        }
    }

    #[test]
    fn tickets_read(rt: HostRuntime) {
        let texts: [(&[u8], Result<(i32, i32), usize>); 18] = [
            (b"0/0", Ok((0, 0))),
            (b"-5/7", Ok((-5, 7))),
            (b"-2147483648/2147483647", Ok((MIN, MAX))),
            (b"2147483647/-2147483648", Ok((MAX, MIN))),
            (b"", Err(0)),
            (b"/", Err(0)),
            (b"/5", Err(0)),
            (b"5", Err(1)),
            (b"5/", Err(2)),
            (b"5//6", Err(2)),
            (b"5/6/7", Err(3)),
            (b"5/-", Err(3)),
            (b"5/-0", Err(3)),
            (b"01/2", Err(1)),
            (b"-/5", Err(1)),
            (b"5 /6", Err(1)),
            (b"2147483648/1", Err(9)),
            (b"5/-2147483649", Err(12)),
        ];
        for (text, want) in texts {
            assert_eq!(rt; read_ticket(text), want);
        }
    }

    #[test]
    fn signs(rt: HostRuntime) {
        assert_eq!(rt; Weight { value: MIN }.sign(), Sign::Neg);
        assert_eq!(rt; Weight { value: -1 }.sign(), Sign::Neg);
        assert_eq!(rt; Weight { value: 0 }.sign(), Sign::Zero);
        assert_eq!(rt; Weight { value: 1 }.sign(), Sign::Pos);
        assert_eq!(rt; Weight { value: MAX }.sign(), Sign::Pos);
        assert_eq!(rt; ticket(MIN, MAX).sign(), Sign::Neg);
        assert_eq!(rt; ticket(MAX, MIN).sign(), Sign::Pos);
        assert_eq!(rt; ticket(MIN, MIN).sign(), Sign::Zero);
        assert_eq!(rt; ticket(MAX, MAX).sign(), Sign::Zero);
        assert_eq!(rt; ticket(5, 6).sign(), Sign::Neg);
        assert_eq!(rt; Sign::from(i64::MIN), Sign::Neg);
        assert_eq!(rt; Sign::from(i64::MAX), Sign::Pos);
    }

    #[test]
    fn sums(rt: HostRuntime) {
        assert_eq!(rt; Weight::blank(), Weight { value: 0 });
        let sums = [
            (5, -7, -2),
            (MAX - 1, 1, MAX),
            (MAX, 1, MAX),
            (MAX, MAX, MAX),
            (MIN + 1, -1, MIN),
            (MIN, -1, MIN),
            (MIN, MIN, MIN),
            (MIN, MAX, -1),
        ];
        for (value, k, want) in sums {
            assert_eq!(rt; Weight { value }.add(k), Weight { value: want });
            assert_eq!(rt; ticket(9, value).add(k), ticket(9, want));
        }
        assert_eq!(rt; Ticket::blank(), ticket(0, 0));
    }

    #[test]
    fn weights_written(rt: HostRuntime) {
        let mut page = *b"................";
        assert_eq!(rt; Weight { value: -305 }.write(&mut page, 2), Ok(6));
        assert_eq!(rt; page, *b"..-305..........");
        assert_eq!(rt; Weight { value: MIN }.write(&mut page, 6), Err(PageFull));
        assert_eq!(rt; Weight { value: 0 }.write(&mut page, 16), Err(PageFull));
        assert_eq!(rt; Weight { value: 0 }.write(&mut page, 17), Err(PageFull));
        assert_eq!(rt;
            Weight { value: 0 }.write(&mut page, usize::MAX),
            Err(PageFull)
        );
        assert_eq!(rt; page, *b"..-305..........");
        assert_eq!(rt; Weight { value: MIN }.write(&mut page, 5), Ok(16));
        assert_eq!(rt; page, *b"..-30-2147483648");
        assert_eq!(rt; Weight { value: MAX }.write(&mut page[0..10], 0), Ok(10));
        assert_eq!(rt; page, *b"2147483647483648");
    }

    #[test]
    fn tickets_written(rt: HostRuntime) {
        let mut page = *b"..............";
        assert_eq!(rt; ticket(70, -12).write(&mut page, 3), Ok(9));
        assert_eq!(rt; page, *b"...70/-12.....");
        assert_eq!(rt; ticket(-800, 1234).write(&mut page, 6), Err(PageFull));
        assert_eq!(rt; ticket(-800, 12).write(&mut page, 8), Err(PageFull));
        assert_eq!(rt; ticket(0, 0).write(&mut page, 15), Err(PageFull));
        assert_eq!(rt; ticket(0, 0).write(&mut page, usize::MAX), Err(PageFull));
        assert_eq!(rt; page, *b"...70/-12.....");
        assert_eq!(rt; ticket(-800, 1234).write(&mut page, 5), Ok(14));
        assert_eq!(rt; page, *b"...70-800/1234");
    }

    #[test]
    fn rooms(rt: HostRuntime) {
        let weights = [(0, 1), (9, 1), (10, 2), (-1, 2), (MAX, 10), (MIN, 11)];
        for (value, length) in weights {
            let w = Weight { value };
            assert_eq!(rt; w.room_after(length), Some(0));
            assert_eq!(rt; w.room_after(length - 1), None);
            assert_eq!(rt; w.room_after(length + 5), Some(5));
            assert_eq!(rt; w.room_after(0), None);
        }
        assert_eq!(rt; ticket(MIN, MIN).room_after(23), Some(0));
        assert_eq!(rt; ticket(MIN, MIN).room_after(22), None);
        assert_eq!(rt; ticket(5, -7).room_after(32), Some(28));
        assert_eq!(rt; ticket(5, 7).room_after(1), None);
        assert_eq!(rt; ticket(5, 7).room_after(0), None);
        let places = [
            (1, 3, true),
            (1, 4, false),
            (4, 0, true),
            (5, 0, false),
            (usize::MAX, usize::MAX, false),
        ];
        for (at, count, want) in places {
            assert_eq!(rt; has_room(b"....", at, count), want);
        }
    }

    #[test]
    fn read_back(rt: HostRuntime) -> Result<(), Fail> {
        let pairs = [
            (MIN, MIN),
            (MIN, MAX),
            (-10, 9),
            (-9, 10),
            (0, -1),
            (10, 0),
            (MAX, MIN),
        ];
        for (gross, tare) in pairs {
            let mut page = [b'.'; 32];
            let end = Weight { value: gross }.write(&mut page, 4)?;
            assert!(rt; 4 <= end && end <= 32);
            assert_eq!(rt; read_weight(&page[4..end]), Ok(gross));
            let last = ticket(gross, tare).write(&mut page, 9)?;
            assert!(rt; 9 <= last && last <= 32);
            assert_eq!(rt; read_ticket(&page[9..last]), Ok((gross, tare)));
        }
        Ok(())
    }

    #[test]
    fn parts_written(rt: HostRuntime) {
        let mut page = *b"..........";
        assert_eq!(rt; write_bytes(&mut page, 10, b""), Ok(10));
        assert_eq!(rt; write_bytes(&mut page, 11, b""), Err(PageFull));
        assert_eq!(rt; write_bytes(&mut page, 8, b"abc"), Err(PageFull));
        assert_eq!(rt; page, *b"..........");
        assert_eq!(rt; write_bytes(&mut page, 7, b"abc"), Ok(10));
        assert_eq!(rt; write_number(&mut page, 1, 0), Ok(2));
        assert_eq!(rt; write_number(&mut page, 3, 9), Ok(4));
        assert_eq!(rt; write_number(&mut page, 5, 10), Ok(7));
        assert_eq!(rt; page, *b".0.9.10abc");
        assert_eq!(rt; write_number(&mut page, 1, 4294967295), Err(PageFull));
        assert_eq!(rt; page, *b".0.9.10abc");
        assert_eq!(rt; write_number(&mut page, 0, 4294967295), Ok(10));
        assert_eq!(rt; page, *b"4294967295");
    }

    #[test]
    fn leading_numbers(rt: HostRuntime) {
        let fronts: [(&[u8], u32, usize, Option<u32>); 13] = [
            (b"", 99, 0, None),
            (b"x1", 99, 0, None),
            (b"0", 0, 1, Some(0)),
            (b"00", 0, 1, Some(0)),
            (b"1", 0, 0, None),
            (b"9", 9, 1, Some(9)),
            (b"10", 9, 1, Some(1)),
            (b"99", 99, 2, Some(99)),
            (b"100", 99, 2, Some(10)),
            (b"012", 99, 1, Some(0)),
            (b"12/3", 99, 2, Some(12)),
            (b"4294967295", 4294967295, 10, Some(4294967295)),
            (b"4294967296", 4294967295, 9, Some(429496729)),
        ];
        for (text, max, length, value) in fronts {
            assert_eq!(rt; leading_number(text, max), Lead { length, value });
        }
        for (n, digits) in [(0, 1), (9, 1), (10, 2), (99, 2), (100, 3), (4294967295, 10)] {
            assert_eq!(rt; count_digits(n), digits);
        }
    }

    #[test]
    fn whole_numbers(rt: HostRuntime) {
        let numbers: [(&[u8], u32, Option<u32>); 9] = [
            (b"", 99, None),
            (b"0", 0, Some(0)),
            (b"1", 0, None),
            (b"99", 99, Some(99)),
            (b"100", 99, None),
            (b"012", 99, None),
            (b"12/3", 99, None),
            (b"4294967295", 4294967295, Some(4294967295)),
            (b"4294967296", 4294967295, None),
        ];
        for (text, max, want) in numbers {
            assert_eq!(rt; read_number(text, max), want);
        }
    }
}
